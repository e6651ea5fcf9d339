//! The circle of an event that comes before what was forgotten, from the window that had it.
ghost use Rattle.std.specs.Prelude.{◌≡◌, ◌++◌, ◌∷◌, [], IfErr, IfOk, IfSome, IsFalse, IsTrue, List, None};
ghost use Rattle.std.specs.Prelude.{◌<◌, ◌↔◌, ◌⊎◌, length};
ghost use Rattle.rv_event.specs.Faults.{fault_within};
ghost use Rattle.rv_event.specs.declared.event.Entry.{Entry};
ghost use Rattle.rv_endless.specs.Runs.{limit};
ghost use Rattle.rv_watch.specs.Rechecks.{Forbids, HasEnd, HasGap, IsEndOf, IsShownBy, as_next};
ghost use Rattle.rv_watch.specs.Watches.{IsStop, IsWatchOf};

use crate::naming::Naming;
use crate::stop::Stop;
use crate::watch::Watch;
use rv_book::Offer;
use rv_cert::Certificate;
use rv_cut::find_cut;
use rv_event::{Deps, Entry, Event, Id, NoMemory, Op, Reason};
use rv_past::PastEdge;
use std::alloc::Global;

/// Whether the edge may lead to the event.
fn is_end(edge: PastEdge, event: &Event) -> bool
    ensures { IsTrue result ↔ IsEndOf edge event.now }
{
    if event.word != edge.word {
        return false;
    }
    match edge.reason {
        Reason::ReadsFrom => event.is_load() && event.read == edge.version,
        _ => event.is_store() && event.wrote == edge.version,
    }
}

impl Watch {
    /// Whether a cut would forget an operation of the window to which the edge may lead.
    fn would_forget(&self, alloc: Global, edge: PastEdge) -> Result<bool, NoMemory>
        ensures { IfOk result (λ would. IsTrue would → HasEnd self.now edge) }
    {
        let run = &self.run;
        let cut = find_cut(alloc, &run.book, run.active.as_slice(), self.patience)?;
        for entry in run.book.log() {
            if is_end(edge, &entry.event) && cut.is_past(entry.event.id) {
                return Ok(true);
            }
        }
        Ok(false)
    }

    /// Takes the entry as [`take`](Watch::take) does. But where before it an operation would be
    /// forgotten to which the edge may lead, nothing changes, and the answer is `false`: the window
    /// has it still.
    ///
    /// # Errors
    /// Why it was not taken, as of `take`.
    pub fn take_until(&mut self, alloc: Global, entry: &Entry, edge: PastEdge) -> Result<bool, Stop>
        ensures taken { (log : List Entry) → IsWatchOf self.old log → IfOk result (λ is. IsTrue is →
            (fault_within limit log entry.now ≡ None) × IsWatchOf self.new (log ++ entry.now ∷ [])) }
        ensures held { IfOk result (λ is. IsFalse is → (self.new ≡ self.old) × HasEnd self.old edge) }
        ensures stopped { (log : List Entry) → IsWatchOf self.old log →
            IfErr result (IsStop self.new log entry.now) }
    {
        if self.is_cut_due(entry) {
            match self.would_forget(alloc, edge) {
                Ok(true) => return Ok(false),
                Ok(false) => {}
                Err(NoMemory) => return Err(Stop::NoMemory),
            }
        }
        self.take(entry)?;
        Ok(true)
    }

    /// Offers the entry to the window as the next one of its hart, without its dependencies. Where
    /// that is forbidden, the certificate shows why, with the names of the log. The watch is of no
    /// use behind that.
    ///
    /// `None` where it is not forbidden. Where the window lacks events of the hart before the entry,
    /// these could undo what is shown: another LR before an SC, or a store between two loads that
    /// rule 2 puts in order. So then it is `None` too.
    pub fn explain_past(
        &mut self,
        alloc: Global,
        entry: &Entry,
        edge: PastEdge,
    ) -> Result<Option<Certificate>, NoMemory>
        ensures shown { IfOk result (λ told. IfSome told (IsShownBy self.old entry.now)) }
        ensures none { IfOk result (λ told. told ≡ None →
            HasGap self.old entry.now ⊎ (Forbids self.old entry.now → ⊥)) }
    {
        let next = next_of(alloc, self.run.book.log(), entry);
        let naming = Naming {
            firsts: &self.run.firsts,
            refused: None,
        };
        let has_gap = naming.name(next.event.id) != entry.event.id;
        if has_gap && entry.event.op == Op::Sc && edge.reason != Reason::AtomicOut {
            return Ok(None);
        }
        match self.run.book.offer(&next) {
            Offer::Forbidden(forbidden) => {
                let naming = Naming {
                    firsts: &self.run.firsts,
                    refused: Some((next.event.id, entry.event.id)),
                };
                if has_gap && ends_by_rule_2(forbidden.certificate()) {
                    return Ok(None);
                }
                let told = naming.certificate(alloc, forbidden.certificate())?;
                Ok(Some(told))
            }
            Offer::NoMemory => Err(NoMemory),
            Offer::Accepted | Offer::Malformed(_) | Offer::Stopped => Ok(None),
        }
    }
}

/// Whether the last step of the certificate is by rule 2.
fn ends_by_rule_2(certificate: &Certificate) -> bool {
    match certificate {
        Certificate::Circle(circle) => match circle.as_slice().last() {
            Some(step) => step.1 == Reason::Preserved(2),
            None => false,
        },
        Certificate::Stale { .. } => false,
    }
}

/// The entry as the next one of its hart in the window, without its dependencies.
fn next_of(alloc: Global, window: &[Entry], entry: &Entry) -> Entry
    requires { length window.now < 4294967296 }
    ensures { result ≡ as_next window.now entry.now }
{
    let event = &entry.event;
    let hart = event.id.hart;
    let count = window.iter().filter(|y| y.event.id.hart == hart).count();
    Entry {
        source: entry.source,
        event: Event {
            id: Id {
                hart,
                seq: count as u32,
            },
            op: event.op,
            word: event.word,
            read: event.read,
            wrote: event.wrote,
            acquire: event.acquire,
            release: event.release,
            deps: Deps::new(alloc),
        },
    }
}
