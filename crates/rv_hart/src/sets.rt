//! Sets of a hart's events that grow with them.
ghost use Rattle.std.specs.Prelude.{ℕ, ◌≡◌, ◌<◌, ◌↔◌, ◌⊎◌, ◌||◌, ◌&&◌, ◌++◌, ◌∷◌, [], All, Any, List, IsTrue, length};
ghost use Rattle.rv_rows.specs.Bits.{Has, has_bit};
ghost use Rattle.rv_event.specs.declared.event.DepKind.TheVariants.{Ctrl};
ghost use Rattle.rv_event.specs.Relations.{IsCarrier, Lists, fence_orders};
ghost use Rattle.rv_event.specs.declared.event.Op.TheVariants.{Branch, Load, Store};
ghost use Rattle.rv_hart.specs.Harts.{Hart, IsHart, Follows, followed, hart_with};
ghost use Rattle.rv_rows.specs.Closure.{RowHas};
ghost use Rattle.std.specs.Prelude.{OnOk, OnErr};
ghost use Rattle.rv_hart.specs.Sets.{AreCarriedRows, AreSets, IsCarried, IsReservation, NamesMemory};
ghost use Rattle.rv_hart.specs.Sets.{AreCarriedWith, IsNextOf};

use crate::own_events::OwnEvents;
use crate::rows::{insert_if, join_if};
use rv_event::{
    DepKind, Event, MemoryModel, Op, depends_on, does_order, is_acquire, is_carrier, is_rcsc,
};
use rv_rows::{Row, Rows};
use std::alloc::AllocError;

/// Which events of a hart so far a rule may order before the next one, by what the rule asks of
/// them.
#[derive(Drop)]
pub struct Sets {
    /// The loads.
    pub loads: Row,
    /// The stores.
    pub stores: Row,
    /// The events with an acquire annotation.
    pub acquires: Row,
    /// The events with an RCsc annotation.
    pub rcsc: Row,
    /// The events that a fence orders before a later load.
    pub fenced_for_load: Row,
    /// The events that a fence orders before a later store.
    pub fenced_for_store: Row,
    /// The memory operations on which a branch depends.
    pub controlled: Row,
    /// The memory operations on which an address depends.
    pub addressed: Row,
    /// The last LR, SC or failed SC, where it is an LR.
    pub reserved: Option<u32>,
}

impl Sets {
    /// The sets of no events.
    pub fn new() -> Sets
        ensures { (h : Hart) → h.events ≡ [] → AreSets h result }
    {
        Sets {
            loads: Row::new(),
            stores: Row::new(),
            acquires: Row::new(),
            rcsc: Row::new(),
            fenced_for_load: Row::new(),
            fenced_for_store: Row::new(),
            controlled: Row::new(),
            addressed: Row::new(),
            reserved: None,
        }
    }

    /// Takes the hart's next event in. `carried` has the memory operations behind each earlier one.
    pub fn absorb(&mut self, model: MemoryModel, event: &Event, carried: &Rows)
        requires number { event.now.id.seq < 4096 }
        requires dependencies { All (λ d. d.seq < 4096) event.now.deps }
        requires carried { All (λ d. d.seq < length carried.now) event.now.deps }
        ensures { (h : Hart) → IsHart h → Follows h event.now → h.model ≡ model →
            AreCarriedRows h.events carried.now → AreSets h self.old → AreSets (hart_with h event.now) self.new }
    {
        let op = event.op;
        let number = event.id.seq as usize;
        let (loads, stores) = (&self.loads, &self.stores);
        add_fenced(&mut self.fenced_for_load, op, Op::Load, loads, stores);
        add_fenced(&mut self.fenced_for_store, op, Op::Store, loads, stores);
        add_tested(&mut self.controlled, event, loads, stores, carried);
        add_dependencies(
            &mut self.addressed,
            event,
            DepKind::Addr,
            loads,
            stores,
            carried,
        );
        insert_if(&mut self.loads, event.is_load(), number);
        insert_if(&mut self.stores, event.is_store(), number);
        insert_if(&mut self.acquires, is_acquire(model, event), number);
        insert_if(&mut self.rcsc, is_rcsc(model, event), number);
        self.reserved = reserved_after(self.reserved, event);
    }
}

/// Puts in the loads and the stores that the operation, where it is a fence, orders before a later
/// one of this kind.
fn add_fenced(row: &mut Row, op: Op, later: Op, loads: &Row, stores: &Row)
    ensures { (s : ℕ) → has_bit row.new s ≡ (has_bit row.old s || (fence_orders op Load later && has_bit loads.now s)
        || (fence_orders op Store later && has_bit stores.now s)) }
{
    if matches!(op, Op::Fence { .. } | Op::FenceTso) {
        join_if(row, does_order(op, Op::Load, later), loads);
        join_if(row, does_order(op, Op::Store, later), stores);
    }
}

/// Puts in the memory operations, by the loads and the stores, on which the event has a dependency
/// of this kind: those that it lists, and those behind the carriers that it lists.
#[inline(always)]
pub fn add_dependencies(
    row: &mut Row,
    event: &Event,
    kind: DepKind,
    loads: &Row,
    stores: &Row,
    carried: &Rows,
)
    requires numbers { All (λ d. d.seq < 4096) event.now.deps }
    requires carried { All (λ d. d.seq < length carried.now) event.now.deps }
    ensures { (s : ℕ) → Has row.new s
        ↔ (Has row.old s ⊎ NamesMemory kind event.now.deps loads.now stores.now carried.now s) }
{
    for dep in event.deps.as_slice() {
        if dep.kind == kind {
            add_dependency(row, dep.seq as usize, loads, stores, carried);
        }
    }
}

/// Whether the event has a dependency of this kind on the memory operation: it lists it, or a
/// carrier that it is behind.
#[inline(always)]
pub fn does_depend(kind: DepKind, event: &Event, on: &Event, carried: &Rows) -> bool
    requires { All (λ d. d.seq < length carried.now) event.now.deps }
    ensures { IsTrue result ↔ (Lists kind event.now on.now ⊎
        Any (λ d. (d.kind ≡ kind) × RowHas carried.now d.seq on.now.id.seq) event.now.deps) }
{
    depends_on(kind, event, on)
        || event.deps.as_slice().iter().any(|dep| dep.kind == kind
            && carried.has(dep.seq as usize, on.id.seq as usize))
}

/// Puts the event in where it is a memory operation, and what is behind it.
#[inline(always)]
fn add_dependency(row: &mut Row, number: usize, loads: &Row, stores: &Row, carried: &Rows)
    requires number { number < 4096 }
    requires carried { number < length carried.now }
    ensures { (s : ℕ) → Has row.new s ↔ (Has row.old s ⊎
        (((number ≡ s) × IsTrue (has_bit loads.now s || has_bit stores.now s)) ⊎ RowHas carried.now number s)) }
{
    insert_if(row, has_either(loads, stores, number), number);
    carried.join_into(number, row);
}

/// Puts in the memory operations on which the event depends, where it is a branch.
fn add_tested(row: &mut Row, event: &Event, loads: &Row, stores: &Row, carried: &Rows)
    requires numbers { All (λ d. d.seq < 4096) event.now.deps }
    requires carried { All (λ d. d.seq < length carried.now) event.now.deps }
    ensures { (s : ℕ) → Has row.new s ↔ (Has row.old s ⊎ ((event.now.op ≡ Branch) ×
        NamesMemory Ctrl event.now.deps loads.now stores.now carried.now s)) }
{
    if event.op != Op::Branch {
        return;
    }
    add_dependencies(row, event, DepKind::Ctrl, loads, stores, carried);
}

/// Whether one of the sets has the number.
fn has_either(one: &Row, other: &Row, number: usize) -> bool
    requires { number < 4096 }
    ensures { result ≡ (has_bit one.now number || has_bit other.now number) }
{
    one.has(number) || other.has(number)
}

/// The last LR, SC or failed SC after the event, where it is an LR.
fn reserved_after(reserved: Option<u32>, event: &Event) -> Option<u32>
    ensures { (h : Hart) → IsHart h → Follows h event.now → IsReservation h.events reserved →
        IsReservation (followed h event.now) result }
{
    if !event.op.is_exclusive() {
        reserved
    } else if event.op == Op::Lr {
        Some(event.id.seq)
    } else {
        None
    }
}

/// What a carrier stands for: the memory operations behind it.
fn carried_by(event: &Event, sets: &Sets, carried: &Rows) -> Row
    requires carrier { IsCarrier event.now }
    requires numbers { All (λ d. d.seq < 4096) event.now.deps }
    requires carried { All (λ d. d.seq < length carried.now) event.now.deps }
    ensures { (h : Hart) → IsHart h → Follows h event.now → AreCarriedRows h.events carried.now → AreSets h sets.now →
        (s : ℕ) → Has result s ↔ IsCarried (followed h event.now) s event.now.id.seq }
{
    let mut row = Row::new();
    add_dependencies(
        &mut row,
        event,
        DepKind::DataOf,
        &sets.loads,
        &sets.stores,
        carried,
    );
    row
}

/// Keeps what the event, the next of its hart, stands for: a row more.
///
/// # Errors
/// `AllocError` where it could not be kept; the rows stay as they are.
pub fn push_carried(event: &Event, sets: &Sets, carried: &mut Rows) -> Result<(), AllocError>
    requires next { IsNextOf event.now sets.now carried.old }
    ensures pushed { OnOk result (AreCarriedWith event.now sets.now carried.old carried.new) }
    ensures unchanged { OnErr result (carried.new ≡ carried.old) }
{
    if is_carrier(event) {
        push_carrier(event, sets, carried)
    } else {
        carried.push_empty()
    }
}

/// The same of a carrier. It is not inlined, as the row that it has on the stack would be cleared
/// at each event.
///
/// # Errors
/// `AllocError` where it could not be kept; the rows stay as they are.
#[inline(never)]
fn push_carrier(event: &Event, sets: &Sets, carried: &mut Rows) -> Result<(), AllocError>
    requires carrier { IsCarrier event.now }
    requires next { IsNextOf event.now sets.now carried.old }
    ensures pushed { OnOk result (AreCarriedWith event.now sets.now carried.old carried.new) }
    ensures unchanged { OnErr result (carried.new ≡ carried.old) }
{
    carried.push(&carried_by(event, sets, carried))
}

/// Takes off what the last event stands for. It takes no memory.
pub fn pop_carried(carried: &mut Rows)
    requires { 0 < length carried.old }
    ensures { (front : List (List ℕ)) (last : List ℕ) → carried.old ≡ front ++ last ∷ [] → carried.new ≡ front }
{
    carried.pop();
}

/// The sets of a hart's events. `carried` has the memory operations behind each.
pub fn sets_of(model: MemoryModel, events: &OwnEvents<'_>, carried: &Rows) -> Sets
    requires carried { AreCarriedRows events.now carried.now }
    requires kept { All (λ e. All (λ d. d.seq < length carried.now) e.deps) events.now }
    requires numbers { All (λ e. (e.id.seq < 4096) × All (λ d. d.seq < 4096) e.deps) events.now }
    ensures { (h : Hart) → IsHart h → h.model ≡ model → h.events ≡ events.now → AreSets h result }
{
    let mut sets = Sets::new();
    for number in 0..events.len() {
        let event = events.at(number);
        sets.absorb(model, event, carried);
    }
    sets
}
