//! The fault of an entry over a log, by scans of the log.
ghost use Rattle.std.specs.Prelude.{◌≡◌, ◌↔◌, ◌<◌, ◌≤◌, ◌^◌, ◌==◌, ◌&&◌, not, if◌then◌else◌, length, count_by, IsTrue};
ghost use Rattle.std.specs.List.{list_any};
ghost use Rattle.rv_event.specs.Log.{events};
ghost use Rattle.rv_event.specs.Operations.{is_exclusive};
ghost use Rattle.rv_event.specs.WellFormed.{WellFormed};
ghost use Rattle.rv_event.specs.Faults.{expected, is_bad_dependency, is_lr, is_reserved, source_fault};
ghost use Rattle.rv_event.specs.Faults.{first_faults, lowest, event_fault, fault_of};
ghost use Rattle.rv_event.specs.Contexts.{IsContext};

use crate::context::{Context, find_deps_fault, first_fault, is_bad_dependency};
use crate::event::{Dep, Entry, Event, Id, Op};
use crate::fault::Fault;
use crate::search::{find_named, find_writer};

/// How many entries of the hart the log has.
fn count_entries(log: &[Entry], hart: u8) -> usize
    ensures count { result ≡ count_by (λ x. hart == x.event.id.hart) log.now }
    ensures bound { result ≤ length log.now }
{
    log.iter().filter(|x| hart == x.event.id.hart).count()
}

/// How many events of the event's hart the log has.
fn count_of_hart(log: &[Entry], event: &Event) -> usize
    ensures count { result ≡ expected (events log.now) event.now }
    ensures bound { result ≤ length log.now }
{
    count_entries(log, event.id.hart)
}

fn is_bad(log: &[Entry], event: &Event, dep: Dep) -> bool
    ensures { result ≡ is_bad_dependency (events log.now) event.now dep }
{
    let on = Id {
        hart: event.id.hart,
        seq: dep.seq,
    };
    is_bad_dependency(event, dep, find_named(log, on))
}

fn has_bad_dependency(log: &[Entry], event: &Event) -> bool
    ensures { result ≡ list_any (is_bad_dependency (events log.now) event.now) event.now.deps }
{
    event.deps.as_slice().iter().any(|d| is_bad(log, event, *d))
}

/// Whether the hart has a reservation after one more event.
fn is_reserved_after(reserved: bool, hart: u8, event: &Event) -> bool
    ensures { result ≡
        (if (hart == event.now.id.hart) && is_exclusive event.now.op then is_lr event.now.op else reserved) }
{
    if hart == event.id.hart && event.op.is_exclusive() {
        event.op == Op::Lr
    } else {
        reserved
    }
}

/// Whether the hart's last LR, SC or failed SC is an LR.
fn has_reservation(log: &[Entry], hart: u8) -> bool
    ensures { result ≡ is_reserved (events log.now) hart }
{
    let mut reserved = false;
    for entry in log {
        reserved = is_reserved_after(reserved, hart, &entry.event);
    }
    reserved
}

/// Whether an event of the hart came from another source.
fn has_other_source(log: &[Entry], entry: &Entry) -> bool
    ensures { result ≡
        list_any (λ y. (y.event.id.hart == entry.now.event.id.hart) && not (y.source == entry.now.source)) log.now }
{
    log.iter().any(|y| y.event.id.hart == entry.event.id.hart && !(y.source == entry.source))
}

fn find_source_fault(log: &[Entry], entry: &Entry) -> Option<Fault>
    ensures { result ≡ source_fault log.now entry.now }
{
    if has_other_source(log, entry) {
        Some(Fault::OtherSource)
    } else {
        None
    }
}

/// What the log tells the event, by scans.
fn context_of(log: &[Entry], event: &Event) -> Context
    requires { length log.now < 2 ^ 32 }
    ensures { IsContext (events log.now) event.now result }
{
    Context {
        count: count_of_hart(log, event) as u32,
        depends_badly: has_bad_dependency(log, event),
        writer: match find_writer(log, event.word, event.wrote) {
            Some(store) => Some(store.id),
            None => None,
        },
        reserved: has_reservation(log, event.id.hart),
    }
}

/// The first fault of the event over the events of the log, up to a full hart: all but
/// `OtherSource` and `TooManyDeps`.
///
/// It costs a few passes over the log, and one for each dependency.
pub fn find_first_fault(log: &[Entry], event: &Event) -> Option<Fault>
    requires { length log.now < 2 ^ 32 }
    ensures { result ≡ lowest (first_faults (events log.now) event.now) }
{
    first_fault(event, &context_of(log, event))
}

/// The fault of the entry over the log: the first in the list of [`Fault`] that holds, with its
/// data. None where the entry may follow the log.
///
/// It costs a few passes over the log, and one for each dependency.
pub fn find_fault(log: &[Entry], entry: &Entry) -> Option<Fault>
    requires { length log.now < 2 ^ 32 }
    ensures { result ≡ fault_of log.now entry.now }
{
    if let Some(fault) = find_first_fault(log, &entry.event) {
        return Some(fault);
    }
    if let Some(fault) = find_source_fault(log, entry) {
        return Some(fault);
    }
    find_deps_fault(&entry.event)
}

/// The fault of the event over the events of the log, as [`find_fault`] but for its source: all but
/// `OtherSource`.
///
/// It costs a few passes over the log, and one for each dependency.
pub fn find_event_fault(log: &[Entry], event: &Event) -> Option<Fault>
    requires { length log.now < 2 ^ 32 }
    ensures { result ≡ event_fault (events log.now) event.now }
{
    if let Some(fault) = find_first_fault(log, event) {
        return Some(fault);
    }
    find_deps_fault(event)
}

/// Whether the log is well formed: no entry has a fault over the entries before it.
///
/// It costs the square of the log's length.
pub fn is_well_formed(log: &[Entry]) -> bool
    ensures { IsTrue result ↔ WellFormed log.now }
{
    if log.len() > 65_536 {
        return false;
    }
    for i in 0..log.len() {
        if find_fault(&log[..i], &log[i]).is_some() {
            return false;
        }
    }
    true
}
