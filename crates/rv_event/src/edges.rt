//! Edges of a log, reason by reason, and stale pairs, by scans of the log.
ghost use Rattle.std.specs.Prelude.{◌≡◌, ◌↔◌, ◌<◌, IsTrue, IfSome, IfNone, Some, Any, Contains};
ghost use Rattle.rv_event.specs.Log.{events, named, writer};
ghost use Rattle.rv_event.specs.Operations.{IsStore};
ghost use Rattle.rv_event.specs.Relations.{Paired};
ghost use Rattle.rv_event.specs.Edges.{IsCoherence, IsReadsFrom, IsFromRead, IsAtomicIn, IsAtomicOut};
ghost use Rattle.rv_event.specs.Edges.{HasReason, IsEdge, IsFirstReason, IsStale};
ghost use Rattle.rv_event.specs.declared.reason.Reason.{Reason};

use crate::event::{Entry, Event, Id};
use crate::memory_model::MemoryModel;
use crate::preserved::lowest_rule;
use crate::reason::Reason;
use crate::relations::is_paired;
use crate::rules::is_rule;
use crate::search::{find_named, is_earlier, is_writer};

/// Whether both are stores of one word, the second with the higher version.
fn is_coherence(a: &Event, b: &Event) -> bool
    ensures { IsTrue result ↔ IsCoherence a.now b.now }
{
    a.is_store() && b.is_store() && a.word == b.word && a.wrote < b.wrote
}

/// Whether b returns what a wrote, and a is not earlier in program order.
fn is_reads_from(log: &[Entry], a: &Event, b: &Event) -> bool
    ensures { IsTrue result ↔ IsReadsFrom (events log.now) a.now b.now }
{
    b.is_load() && is_writer(log, b.word, b.read, a) && !is_earlier(a, b)
}

/// Whether a returns an older version of its word than the other store b wrote.
fn is_from_read(a: &Event, b: &Event) -> bool
    ensures { IsTrue result ↔ IsFromRead a.now b.now }
{
    a.is_load() && b.is_store() && a.id != b.id && b.word == a.word && a.read < b.wrote
}

/// Whether an LR that read what a wrote is paired with b.
fn is_atomic_in(log: &[Entry], a: &Event, b: &Event) -> bool
    ensures { IsTrue result ↔
        Any (λ lr. Paired (events log.now) lr b.now × (writer (events log.now) lr.word lr.read ≡ Some a.now))
        (events log.now) }
{
    log.iter().any(|x| is_paired(log, &x.event, b) && is_writer(log, x.event.word, x.event.read, a))
}

/// Whether an LR of the word of b that read an older version is paired with a.
fn has_older_reservation(log: &[Entry], a: &Event, b: &Event) -> bool
    ensures { IsTrue result ↔
        Any (λ lr. Paired (events log.now) lr a.now × (b.now.word ≡ lr.word) × (lr.read < b.now.wrote))
        (events log.now) }
{
    log.iter().any(|x| is_paired(log, &x.event, a)
        && b.word == x.event.word
        && x.event.read < b.wrote)
}

/// Whether b is another hart's store that may not come between a's LR and a.
fn is_atomic_out(log: &[Entry], a: &Event, b: &Event) -> bool
    ensures { IsTrue result ↔ IsAtomicOut (events log.now) a.now b.now }
{
    b.is_store() && b.id.hart != a.id.hart && has_older_reservation(log, a, b)
}

/// Whether the reason holds of the two events.
fn is_reason(model: MemoryModel, log: &[Entry], reason: Reason, a: &Event, b: &Event) -> bool
    requires from { Contains (events log.now) a.now }
    requires to { Contains (events log.now) b.now }
    ensures { IsTrue result ↔ HasReason model (events log.now) reason a.now b.now }
{
    match reason {
        Reason::Preserved(k) => is_rule(model, log, k, a, b),
        Reason::Coherence => is_coherence(a, b),
        Reason::ReadsFrom => is_reads_from(log, a, b),
        Reason::FromRead => is_from_read(a, b),
        Reason::AtomicIn => is_atomic_in(log, a, b),
        Reason::AtomicOut => is_atomic_out(log, a, b),
    }
}

/// Whether the log has this edge: both ids name memory operations of the log, and the reason holds
/// of them.
///
/// It costs a few passes over the log; for an atomic reason, one for each LR.
pub fn is_edge(model: MemoryModel, log: &[Entry], from: Id, reason: Reason, to: Id) -> bool
    ensures { IsTrue result ↔ IsEdge model (events log.now) from reason to }
{
    let Some(a) = find_named(log, from) else {
        return false;
    };
    let Some(b) = find_named(log, to) else {
        return false;
    };
    a.is_memory() && b.is_memory() && is_reason(model, log, reason, a, b)
}

/// The first reason for which the log has an edge between the two: the lowest rule, else coherence,
/// reads-from, from-read, atomic-in or atomic-out. None exactly where there is no edge from the one
/// to the other.
///
/// It costs a few passes over the log for each rule and reason.
pub fn find_reason(model: MemoryModel, log: &[Entry], from: Id, to: Id) -> Option<Reason>
    ensures some { IfSome result (λ r. IsEdge model (events log.now) from r to) }
    ensures first { IfSome result (λ r. IsFirstReason model (events log.now) from r to) }
    ensures none { IfNone result ((r : Reason) → IsEdge model (events log.now) from r to → ⊥) }
{
    if let Some(rule) = lowest_rule(model, log, from, to) {
        return Some(Reason::Preserved(rule));
    }
    if is_edge(model, log, from, Reason::Coherence, to) {
        return Some(Reason::Coherence);
    }
    if is_edge(model, log, from, Reason::ReadsFrom, to) {
        return Some(Reason::ReadsFrom);
    }
    if is_edge(model, log, from, Reason::FromRead, to) {
        return Some(Reason::FromRead);
    }
    if is_edge(model, log, from, Reason::AtomicIn, to) {
        return Some(Reason::AtomicIn);
    }
    if is_edge(model, log, from, Reason::AtomicOut, to) {
        return Some(Reason::AtomicOut);
    }
    None
}

/// Whether the pair is stale: the store is earlier in the load's hart, and wrote a newer version of
/// its word than the load returned.
///
/// It costs two passes over the log.
pub fn is_stale(log: &[Entry], load: Id, store: Id) -> bool
    ensures { IsTrue result ↔ IsStale (events log.now) load store }
{
    let Some(a) = find_named(log, load) else {
        return false;
    };
    let Some(b) = find_named(log, store) else {
        return false;
    };
    a.is_load() && b.is_store() && b.word == a.word && is_earlier(b, a) && a.read < b.wrote
}
