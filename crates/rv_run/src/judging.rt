//! What the answers of the threads come to.
ghost use Rattle.std.specs.Prelude.{◌≡◌, ◌≤◌, ◌<◌, IfOk, IfErr, IfSome, IsSome, IsTrue, length};
ghost use Rattle.rv_coverage.specs.Coverages.{IsCoverage};
ghost use Rattle.rv_replay.specs.Strengths.{IsStrength};
ghost use Rattle.rv_run.specs.Comparisons.{AgreesWith, IsCoveredBy, IsFaultIn, IsLacking, IsTestedBy, LacksBy};
ghost use Rattle.rv_run.specs.Strengths.{IsToldWhere};
ghost use Rattle.rv_replay.specs.Replays.{IsAllowed, IsReplayed};

use crate::comparing::{is_begun, is_whole};
use crate::fault::RunFault;
use crate::feeding::{Fed, FeedEnd};
use crate::missing::{Missing, first_lacking};
use crate::serving::{ServeEnd, Served};
use rv_book::Book;
use rv_cert::Verdict;
use rv_coverage::{Coverage, coverage_of};
use rv_event::{MemoryModel, NoMemory};
use rv_replay::{Strength, strength_of};
use rv_report::Outcome;
use rv_verdict::VerdictCell;
use std::alloc::Global;

/// What a run comes to.
#[derive(Drop, Debug)]
pub struct Judged {
    /// The outcome.
    pub outcome: Outcome,
    /// What of the model the sources have exercised, where that was asked for and they are allowed.
    pub coverage: Option<Coverage>,
    /// The first thing that the run lacks, where it was to be complete and the sources are allowed.
    pub missing: Option<Missing>,
    /// How many older reads would be refused, where that was asked for and the sources are allowed.
    pub strength: Option<Strength>,
}

impl Judged {
    ghost use Rattle.std.specs.Prelude.{None};

    /// A refusal, of which nothing more is told.
    pub(crate) fn refused(outcome: Outcome) -> Judged
        ensures { result ≡ record {
          outcome = outcome;
          coverage = None;
          missing = None;
          strength = None;
        } }
    {
        Judged {
            outcome,
            coverage: None,
            missing: None,
            strength: None,
        }
    }

    /// The outcome alone.
    pub fn into_outcome(self) -> Outcome
        ensures { result ≡ self.outcome }
    {
        let Judged {
            outcome,
            coverage,
            ..
        } = self;
        drop(coverage);
        outcome
    }
}

/// What is asked of a run.
#[derive(Clone, Copy)]
pub(crate) struct Question {
    /// By which model the sources are judged.
    pub model: MemoryModel,
    /// Whether it is counted what of the model they have exercised.
    pub covering: bool,
    /// Whether they are to be complete.
    pub complete: bool,
    /// Whether it is found how many older reads would be refused.
    pub testing: bool,
}

/// Whether the model is the one asked for.
fn is_asked(model: MemoryModel, asked: MemoryModel) -> bool
    ensures { IsTrue result → model ≡ asked }
{
    model == asked
}

/// The outcome of a verdict, if it is of this model and its evidence has the first of each source's
/// events and no others.
fn refusal_of(
    alloc: Global,
    model: MemoryModel,
    fed: &[Fed],
    verdict: &Verdict,
) -> Result<Outcome, RunFault>
    requires { length fed.now ≤ 8 }
    ensures outcome { IfOk result (AgreesWith model fed.now) }
    ensures refused { IfOk result (λ o. IsAllowed o → ⊥) }
    ensures fault { IfErr result (IsFaultIn fed.now) }
{
    let evidence = match verdict {
        Verdict::Forbidden(forbidden) => forbidden.evidence(),
        Verdict::Malformed(malformed) => malformed.evidence(),
    };
    if !is_asked(verdict.model(), model) || !is_begun(evidence, fed) {
        return Err(RunFault::Lost);
    }
    Ok(Outcome::from(verdict.copy(alloc)?))
}

/// The fault of the lowest source in which one was met.
fn first_fault(fed: &[Fed]) -> Option<RunFault>
    requires { length fed.now ≤ 8 }
    ensures { IfSome result (IsFaultIn fed.now) }
{
    for i in 0..fed.len() {
        if let FeedEnd::Fault(fault) = fed[i].end() {
            let source = i as u8;
            return Some(RunFault::Trace { source, fault });
        }
    }
    None
}

/// Whether a thread found no memory.
fn is_out_of_memory<S>(fed: &[Fed], served: &[Served<S>]) -> bool {
    fed.iter().any(|f| matches!(f.end(), FeedEnd::NoMemory))
        || served.iter().any(|s| matches!(s.end, ServeEnd::NoMemory))
}

/// What of the model the book's log has exercised, where that is asked for.
fn coverage_asked(
    alloc: Global,
    question: Question,
    book: &Book,
) -> Result<Option<Coverage>, NoMemory>
    ensures coverage { IfOk result (λ c. IfSome c (IsCoverage book.now.model book.now.log)) }
    ensures asked { IfOk result (λ c. IsTrue question.covering → IsSome c) }
    ensures only { IfOk result (λ c. IsSome c → IsTrue question.covering) }
{
    if question.covering {
        Ok(Some(coverage_of(alloc, book)?))
    } else {
        Ok(None)
    }
}

/// What the run lacks, where it is to be complete.
fn missing_asked(
    alloc: Global,
    question: Question,
    fed: &[Fed],
    book: &Book,
) -> Result<Option<Missing>, NoMemory>
    requires { length fed.now ≤ 8 }
    ensures lacks { IfOk result (λ m. IsTrue question.complete → IsLacking fed.now book.now.log m) }
    ensures only { IfOk result (λ m. IsSome m → IsTrue question.complete) }
{
    if question.complete {
        first_lacking(alloc, fed, book)
    } else {
        Ok(None)
    }
}

/// How much the loads of the book's log test, where that is asked for.
fn strength_asked(
    alloc: Global,
    question: Question,
    book: &Book,
) -> Result<Option<Strength>, NoMemory>
    ensures strength { IfOk result (λ s. IfSome s (IsStrength book.now.model book.now.log)) }
    ensures asked { IfOk result (λ s. IsTrue question.testing → IsSome s) }
    ensures only { IfOk result (λ s. IsSome s → IsTrue question.testing) }
{
    if question.testing {
        Ok(Some(strength_of(alloc, book)?))
    } else {
        Ok(None)
    }
}

/// What a book comes to whose log is all that was read, and of which this is missing.
pub(crate) fn tell_allowed(
    alloc: Global,
    question: Question,
    book: &Book,
    missing: Option<Missing>,
) -> Result<Judged, NoMemory>
    ensures outcome { IfOk result (λ j. IsReplayed book.now.model book.now.log j.outcome) }
    ensures allowed { IfOk result (λ j. IsAllowed j.outcome) }
    ensures coverage { IfOk result (λ j. IfSome j.coverage (IsCoverage book.now.model book.now.log)) }
    ensures asked { IfOk result (λ j. IsTrue question.covering → IsSome j.coverage) }
    ensures only { IfOk result (λ j. IsSome j.coverage → IsTrue question.covering) }
    ensures missing { IfOk result (λ j. j.missing ≡ missing) }
    ensures strength { IfOk result (λ j. IfSome j.strength (IsStrength book.now.model book.now.log)) }
    ensures tested { IfOk result (λ j. IsTrue question.testing → IsSome j.strength) }
    ensures untested { IfOk result (λ j. IsSome j.strength → IsTrue question.testing) }
{
    // For the proof alone, which has from these calls that the log is well formed, and its order
    // lawful.
    let (_log, _model) = (book.log(), book.model());
    let coverage = coverage_asked(alloc, question, book)?;
    let strength = strength_asked(alloc, question, book)?;
    let outcome = Outcome::Allowed {
        events: book.accepted(),
        operations: book.operations(),
        waiting: book.waiting(),
    };
    Ok(Judged {
        outcome,
        coverage,
        missing,
        strength,
    })
}

/// What a book comes to that was never stopped, if it is of the model asked for, each source was
/// read to its end, and its log has all of their events and no others.
fn allowance_of(
    alloc: Global,
    question: Question,
    fed: &[Fed],
    book: &Book,
) -> Result<Judged, RunFault>
    requires { length fed.now ≤ 8 }
    ensures outcome { IfOk result (λ j. AgreesWith question.model fed.now j.outcome) }
    ensures coverage { IfOk result (λ j. IfSome j.coverage (IsCoveredBy question.model fed.now)) }
    ensures allowed { IfOk result (λ j. IsAllowed j.outcome) }
    ensures asked { IfOk result (λ j. IsTrue question.covering → IsSome j.coverage) }
    ensures only { IfOk result (λ j. IsSome j.coverage → IsTrue question.covering) }
    ensures lacks { IfOk result (λ j. IsTrue question.complete → LacksBy fed.now j.missing) }
    ensures complete { IfOk result (λ j. IsSome j.missing → IsTrue question.complete) }
    ensures strength { IfOk result (λ j. IfSome j.strength (IsTestedBy question.model fed.now)) }
    ensures tested { IfOk result (λ j. IsTrue question.testing → IsSome j.strength) }
    ensures untested { IfOk result (λ j. IsSome j.strength → IsTrue question.testing) }
    ensures fault { IfErr result (IsFaultIn fed.now) }
{
    if !is_asked(book.model(), question.model) || !is_whole(book.log(), fed) {
        return Err(RunFault::Lost);
    }
    let missing = missing_asked(alloc, question, fed, book)?;
    Ok(tell_allowed(alloc, question, book, missing)?)
}

/// What the threads' answers, the verdict and the book come to.
///
/// A verdict comes first, then the fault of the lowest source in which one was met, then out of
/// memory.
pub(crate) fn judge<S>(
    alloc: Global,
    question: Question,
    fed: &[Fed],
    served: &[Served<S>],
    cell: &VerdictCell,
    book: &Book,
) -> Result<Judged, RunFault>
    requires { length fed.now ≤ 8 }
    ensures outcome { IfOk result (λ j. AgreesWith question.model fed.now j.outcome) }
    ensures coverage { IfOk result (λ j. IfSome j.coverage (IsCoveredBy question.model fed.now)) }
    ensures asked { IfOk result (λ j. IsTrue question.covering → IsAllowed j.outcome → IsSome j.coverage) }
    ensures only { IfOk result (λ j. IsSome j.coverage → IsTrue question.covering × IsAllowed j.outcome) }
    ensures lacks { IfOk result (λ j. IsTrue question.complete → IsAllowed j.outcome → LacksBy fed.now j.missing) }
    ensures complete { IfOk result (λ j. IsSome j.missing → IsTrue question.complete × IsAllowed j.outcome) }
    ensures strength { IfOk result (λ j. IfSome j.strength (IsTestedBy question.model fed.now)) }
    ensures tested { IfOk result (λ j. IsToldWhere question.testing j.outcome j.strength) }
    ensures fault { IfErr result (IsFaultIn fed.now) }
{
    let mut note = cell.note();
    if let Some(verdict) = cell.read(&mut note) {
        let outcome = refusal_of(alloc, question.model, fed, verdict)?;
        return Ok(Judged::refused(outcome));
    }
    if let Some(fault) = first_fault(fed) {
        return Err(fault);
    }
    if is_out_of_memory(fed, served) {
        return Err(RunFault::NoMemory);
    }
    allowance_of(alloc, question, fed, book)
}
