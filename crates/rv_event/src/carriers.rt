//! Dependencies through carriers, which list others and stand for them.
ghost use Rattle.std.specs.Prelude.{ℕ, ◌≡◌, ◌↔◌, ◌⊎◌, IsTrue, Contains, false};
ghost use Rattle.rv_rows.specs.Bits.{Has};
ghost use Rattle.rv_event.specs.Log.{events};
ghost use Rattle.rv_event.specs.Relations.{DependsOn, IsCarrier};
ghost use Rattle.rv_event.specs.Carried.{AreCarrying, Carries, DependsBy, IsMarked, IsSound, ListsMarked};

use crate::event::{Dep, DepKind, Entry, Event, Op};
use crate::relations::depends_on;
use rv_rows::Row;

/// How many events a hart has at most in a well formed log.
const MOST_EVENTS: u32 = 4096;

/// Whether the dependency is of this kind, on an earlier event with a number of the set.
fn is_marked(dep: Dep, kind: DepKind, event: &Event, marked: &Row) -> bool
    ensures { IsTrue result ↔ IsMarked kind event.now marked.now dep }
{
    dep.kind == kind
        && dep.seq < event.id.seq
        && dep.seq < MOST_EVENTS
        && marked.has(dep.seq as usize)
}

/// Whether the event lists a dependency of this kind on one with a number of the set.
fn lists_marked(kind: DepKind, event: &Event, marked: &Row) -> bool
    ensures { IsTrue result ↔ ListsMarked kind event.now marked.now }
{
    event
        .deps
        .as_slice()
        .iter()
        .any(|dep| is_marked(*dep, kind, event, marked))
}

/// Whether the event depends on the other, itself or through the carriers in the set.
///
/// With the set of [`carriers_of`] this is the dependency of the manual (section 14.1, "Syntactic
/// Dependencies"): ask for the set once, then of many events.
pub fn depends_by(kind: DepKind, event: &Event, on: &Event, marked: &Row) -> bool
    ensures { IsTrue result ↔ DependsBy kind event.now on.now marked.now }
{
    depends_on(kind, event, on) || event.id.hart == on.id.hart && lists_marked(kind, event, marked)
}

/// Whether the event is a carrier (see `IsCarrier`).
pub fn is_carrier(event: &Event) -> bool
    ensures { IsTrue result ↔ IsCarrier event.now }
{
    event.op == Op::Carrier && event.id.seq < MOST_EVENTS
}

/// Whether the carrier lists the event, or a number of the set.
fn carries(carrier: &Event, on: &Event, marked: &Row) -> bool
    ensures { IsTrue result ↔ Carries carrier.now on.now marked.now }
{
    is_carrier(carrier)
        && carrier.id.hart == on.id.hart
        && depends_by(DepKind::DataOf, carrier, on, marked)
}

/// Puts the carrier in where it carries the event. Tells whether the set lacked it.
fn mark_carrier(carrier: &Event, on: &Event, marked: &mut Row) -> bool
    ensures kept { (n : ℕ) → Has marked.old n → Has marked.new n }
    ensures full { Carries carrier.now on.now marked.old → Has marked.new carrier.now.id.seq }
    ensures only { (n : ℕ) → Has marked.new n →
        Has marked.old n ⊎ (Carries carrier.now on.now marked.old × (carrier.now.id.seq ≡ n)) }
    ensures same { result ≡ false → (n : ℕ) → Has marked.new n → Has marked.old n }
{
    if !carries(carrier, on, marked) {
        return false;
    }
    let number = carrier.id.seq as usize;
    if marked.has(number) {
        return false;
    }
    marked.insert(number);
    true
}

/// Puts in each carrier that carries the event. Tells whether the set lacked one.
fn mark_carriers(log: &[Entry], on: &Event, marked: &mut Row) -> bool
    ensures kept { (n : ℕ) → Has marked.old n → Has marked.new n }
    ensures sound { IsSound (events log.now) on.now marked.old → IsSound (events log.now) on.now marked.new }
    ensures full { (c : Event) → Contains (events log.now) c → Carries c on.now marked.old →
        Has marked.new c.id.seq }
    ensures same { result ≡ false → (n : ℕ) → Has marked.new n → Has marked.old n }
{
    let mut is_changed = false;
    'entries: for entry in log {
        is_changed |= mark_carrier(&entry.event, on, marked);
    }
    is_changed
}

/// The numbers of the carriers that carry the event: those that list it, or list one that
/// carries it.
///
/// It costs one pass over the log, and one for each carrier that stands in the log before one that
/// it lists.
pub fn carriers_of(log: &[Entry], on: &Event) -> Row
    ensures { AreCarrying (events log.now) on.now result }
{
    let mut marked = Row::new();
    'rounds: for _ in 0..MOST_EVENTS {
        if !mark_carriers(log, on, &mut marked) {
            return marked;
        }
    }
    marked
}

/// Whether the event has a dependency of this kind on the earlier one, itself or through carriers
/// (manual, section 14.1, "Syntactic Dependencies").
pub fn depends_through(log: &[Entry], kind: DepKind, event: &Event, on: &Event) -> bool
    ensures { IsTrue result ↔ DependsOn (events log.now) kind event.now on.now }
{
    depends_by(kind, event, on, &carriers_of(log, on))
}
