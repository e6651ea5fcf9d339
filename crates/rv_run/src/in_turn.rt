//! A run in one thread: the sources are read in turn, and each event is judged before the next is
//! read.
//!
//! An event goes from its trace into the book, which keeps it. So nothing is carried between
//! threads, nothing that was read is compared with what was judged, and the order in which the
//! events of several sources are judged is the same in each run.
ghost use Rattle.std.specs.Prelude.{◌≡◌, ◌≢◌, ◌≤◌, [], None, Err, IfErr, IfNone, IfOk, IfSome};
ghost use Rattle.std.specs.Prelude.{IsFalse, IsSome, IsTrue, All, length, vec_len};
ghost use Rattle.rv_book.specs.Booked.{IsTaken};
ghost use Rattle.rv_run.specs.Comparisons.{AreEndsLacking, IsLacking};
ghost use Rattle.rv_run.specs.InTurn.{AreTaken, IsFaultOfTurn, IsJudgedOf, IsRefusedOver, IsTurn};
ghost use Rattle.rv_run.specs.InTurn.{entry_of, reads_from, streams_left};
ghost use Rattle.rv_run.specs.Sources.{IsFaultAmong, streams_in};
ghost use Rattle.rv_run.specs.declared.fault.RunFault.TheVariants as fault;

use crate::ahead::{Ahead, Next};
use crate::fault::RunFault;
use crate::judging::{Judged, Question, tell_allowed};
use crate::missing::{Missing, end_lacking, log_lacking};
use rv_book::{Book, Offer};
use rv_event::{Entry, Event, NoMemory};
use rv_report::Outcome;
use rv_trace::{Dialect, Trace};
use std::alloc::{AllocError, Global};
use std::io::Read;
use std::sync::Wait;

/// How many events are taken of a source before the next source has its turn.
const TURN: usize = 8;

/// How the turn of a source ended.
#[derive(Drop)]
pub(crate) enum TurnEnd {
    /// There is more of it: as many events were taken as one turn has, or the next one waits.
    More,
    /// The source was read to its end.
    Whole,
    /// Its next event was refused, as the outcome says.
    Refused(Outcome),
}

/// Has the book take the source's event, or says why it is refused.
fn take(book: &mut Book, source: u8, event: Event) -> Result<Option<Outcome>, NoMemory>
    requires { IsFalse book.old.stopped }
    ensures taken { IfOk result (λ o.
        IfNone o (IsTaken book.old book.new (entry_of source event))) }
    ensures refused { IfOk result (λ o.
        IfSome o (IsRefusedOver book.old.model book.old.log (entry_of source event))) }
    ensures model { book.new.model ≡ book.old.model }
{
    // For the proof alone, which has from this call that the log is well formed.
    let _log = book.log();
    match book.take(Entry { source, event }) {
        Offer::Accepted => Ok(None),
        Offer::Malformed(malformed) => Ok(Some(Outcome::Malformed(malformed))),
        Offer::Forbidden(forbidden) => {
            // For the proof alone, which has from this call that the refusal is final.
            let _evidence = forbidden.evidence();
            Ok(Some(Outcome::Forbidden(forbidden)))
        }
        Offer::Stopped => unreachable!(),
        Offer::NoMemory => Err(NoMemory),
    }
}

/// Has the book take the next events of the source of this number: as many as a turn has, or those
/// up to its end, to the first that is refused, or to a load that waits for its store and is not
/// overdue.
fn take_turn<R: Read>(
    source: &mut Ahead<R>,
    number: u8,
    book: &mut Book,
    overdue: Option<usize>,
) -> Result<TurnEnd, RunFault>
    requires good { source.old.fault ≡ None }
    requires going { IsFalse book.old.stopped }
    ensures end { IfOk result (IsTurn number source.old source.new book.old book.new) }
    ensures model { book.new.model ≡ book.old.model }
    ensures fault { IfErr result (IsFaultOfTurn number source.old.stream) }
{
    for _ in 0..TURN {
        match source.next_due(book, overdue) {
            Ok(Next::Event(event)) => {
                if let Some(outcome) = take(book, number, event)? {
                    return Ok(TurnEnd::Refused(outcome));
                }
            }
            Ok(Next::Waits) => return Ok(TurnEnd::More),
            Ok(Next::End) => return Ok(TurnEnd::Whole),
            Err(fault) => {
                return Err(RunFault::Trace {
                    source: number,
                    fault,
                });
            }
        }
    }
    Ok(TurnEnd::More)
}

/// How many events the book had when it took the last one of the source that waits longest, if one
/// does.
fn longest_wait<R: Read>(sources: &[Ahead<R>]) -> Option<usize> {
    let mut longest = None;
    for source in sources {
        longest = match (longest, source.waits_since()) {
            (Some(one), Some(other)) if other < one => Some(other),
            (None, since) => since,
            (one, _) => one,
        };
    }
    longest
}

/// Has the book take the sources' events, a turn of each after the other, up to the end of all of
/// them or the first event that is refused. The sources have the numbers 0, 1 and so on.
///
/// A load that waits for its store keeps its source waiting, so that the stores of sources that are
/// behind come first. Where no source can go on so, the one that waits longest does. So what one
/// event costs does not grow with how far the sources are apart.
fn take_all<RT: Wait, R: Read>(
    rt: &RT,
    sources: &mut [Ahead<R>],
    book: &mut Book,
) -> Result<Option<Outcome>, RunFault>
    requires few { length sources.old ≤ 8 }
    requires good { All (λ t. t.fault ≡ None) sources.old }
    requires empty { book.old.log ≡ [] }
    requires going { IsFalse book.old.stopped }
    ensures end { IfOk result
        (AreTaken book.old.model (streams_left sources.old) book.new.log sources.new) }
    ensures model { book.new.model ≡ book.old.model }
    ensures fault { IfErr result (IsFaultAmong (streams_left sources.old)) }
    ensures settings { result ≢ Err fault.Settings }
{
    // A single source waits for none.
    let mut overdue = if sources.len() == 1 {
        Some(usize::MAX)
    } else {
        None
    };
    for _ in rt.forever() {
        let before = book.accepted();
        let mut is_over = true;
        let mut number = 0u8;
        for source in sources.iter_mut() {
            match take_turn(source, number, book, overdue)? {
                TurnEnd::More => is_over = false,
                TurnEnd::Whole => {}
                TurnEnd::Refused(outcome) => return Ok(Some(outcome)),
            }
            number += 1;
        }
        if is_over {
            return Ok(None);
        }
        if sources.len() > 1 {
            overdue = if book.accepted() == before {
                longest_wait(sources)
            } else {
                None
            };
        }
    }
    unreachable!()
}

/// What the end records lack: that of the lowest source that lacks something.
fn ends_lacking<R: Read>(book: &Book, sources: &[Ahead<R>]) -> Option<Missing>
    requires { length sources.now ≤ 8 }
    ensures { AreEndsLacking (reads_from 0 book.now.log sources.now) result }
{
    for i in 0..sources.len() {
        let source = i as u8;
        let lacking = end_lacking(source, book.given_by(source), sources[i].said());
        if lacking.is_some() {
            return lacking;
        }
    }
    None
}

/// What sources lack that were read whole and would be complete.
fn first_lacking<R: Read>(
    alloc: Global,
    book: &Book,
    sources: &[Ahead<R>],
) -> Result<Option<Missing>, NoMemory>
    requires { length sources.now ≤ 8 }
    ensures { IfOk result (IsLacking (reads_from 0 book.now.log sources.now) book.now.log) }
{
    let lacking = ends_lacking(book, sources);
    if lacking.is_some() {
        return Ok(lacking);
    }
    log_lacking(alloc, book)
}

/// The same, where they are to be complete.
fn lacking_asked<R: Read>(
    alloc: Global,
    question: Question,
    book: &Book,
    sources: &[Ahead<R>],
) -> Result<Option<Missing>, NoMemory>
    requires { length sources.now ≤ 8 }
    ensures lacks { IfOk result (λ m. IsTrue question.complete
        → IsLacking (reads_from 0 book.now.log sources.now) book.now.log m) }
    ensures only { IfOk result (λ m. IsSome m → IsTrue question.complete) }
{
    if question.complete {
        first_lacking(alloc, book, sources)
    } else {
        Ok(None)
    }
}

/// Has the book take the sources' events, and says what they come to.
fn judge_all<RT: Wait, R: Read>(
    rt: &RT,
    alloc: Global,
    sources: &mut [Ahead<R>],
    book: &mut Book,
    question: Question,
) -> Result<Judged, RunFault>
    requires few { length sources.old ≤ 8 }
    requires good { All (λ t. t.fault ≡ None) sources.old }
    requires empty { book.old.log ≡ [] }
    requires going { IsFalse book.old.stopped }
    requires model { book.old.model ≡ question.model }
    ensures judged { IfOk result (IsJudgedOf question (streams_left sources.old)) }
    ensures fault { IfErr result (IsFaultAmong (streams_left sources.old)) }
    ensures settings { result ≢ Err fault.Settings }
{
    match take_all(rt, sources, book)? {
        None => {
            let missing = lacking_asked(alloc, question, book, sources)?;
            Ok(tell_allowed(alloc, question, book, missing)?)
        }
        Some(outcome) => Ok(Judged::refused(outcome)),
    }
}

/// The sources of these readers, whose rows are of this dialect. None was read yet.
fn open_all<R: Read + Drop>(
    alloc: Global,
    readers: Vec<R>,
    dialect: Dialect,
) -> Result<Vec<Ahead<R>>, AllocError>
    requires { vec_len readers ≤ 8 }
    ensures streams { IfOk result (λ v.
        streams_left v.items ≡ streams_in dialect R.remaining readers.items) }
    ensures good { IfOk result (λ v. All (λ t. t.fault ≡ None) v.items) }
    ensures len { IfOk result (λ v. vec_len v ≡ vec_len readers) }
{
    let mut sources = Vec::new(alloc);
    let mut number = 0u8;
    for reader in readers {
        let trace = Trace::with_dialect(alloc, reader, number, dialect);
        sources.push(Ahead::new(trace))?;
        number += 1;
    }
    Ok(sources)
}

/// Reads the sources and judges their events in turn, in this thread. They have the numbers 0, 1
/// and so on, and their rows are of this dialect.
///
/// # Errors
/// `Trace` with the fault that was met first; `NoMemory` where memory was refused.
pub(crate) fn run_in_turn<RT: Wait, R: Read + Drop>(
    rt: &RT,
    alloc: Global,
    readers: Vec<R>,
    dialect: Dialect,
    question: Question,
) -> Result<Judged, RunFault>
    requires { vec_len readers ≤ 8 }
    ensures judged { IfOk result
        (IsJudgedOf question (streams_in dialect R.remaining readers.items)) }
    ensures fault { IfErr result (IsFaultAmong (streams_in dialect R.remaining readers.items)) }
    ensures settings { result ≢ Err fault.Settings }
{
    let mut sources = open_all(alloc, readers, dialect)?;
    let mut book = Book::new(alloc, question.model);
    let judged = judge_all(rt, alloc, sources.as_mut_slice(), &mut book, question);
    // By a call: where the scope ends, the proof would take the book apart, field by field.
    drop(book);
    judged
}
