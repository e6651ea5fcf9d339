//! Operations of a hart that stand before what it does later.
ghost use Rattle.std.specs.Prelude.{ℕ, ◌≡◌, ◌==◌, ◌<◌, ◌↔◌, Contains, IfSome, IsTrue, List};
ghost use Rattle.std.specs.Option.{option_copied};
ghost use Rattle.rv_event.specs.Log.{events};
ghost use Rattle.rv_event.specs.Operations.{IsMemory};
ghost use Rattle.rv_event.specs.declared.event.Event.{Event};
ghost use Rattle.rv_event.specs.declared.memory_model.MemoryModel.{MemoryModel};
ghost use Rattle.rv_cut.specs.Marked.{AreMarked, PutsBefore, StandsBefore, has_place, op_of};
ghost use Rattle.rv_cut.specs.Marked.{place_for};
ghost use Rattle.rv_cut.specs.declared.bars.Later.TheVariants as kind;

use crate::marks::Marks;
use rv_event::{
    Dep, DepKind, Entry, Event, Id, MemoryModel, Op, does_order, is_acquire, is_earlier,
};

/// What an operation is asked to stand before.
#[derive(Clone, Copy, PartialEq, Eq, Debug)]
pub enum Later {
    /// Each later load of its hart.
    Loads,
    /// Each later store of its hart.
    Stores,
}

impl Later {
    /// An operation of the kind.
    fn op(self) -> Op
        ensures { result ≡ op_of self }
    {
        match self {
            Later::Loads => Op::Load,
            Later::Stores => Op::Store,
        }
    }

    /// The mark with the place of the kind for this hart, and no other.
    pub fn mark(self, hart: u8) -> u32
        requires { hart < 16 }
        ensures { (k : ℕ) → has_place result k ≡ (k == place_for hart self) }
    {
        let place = match self {
            Later::Loads => 2 * hart,
            Later::Stores => 2 * hart + 1,
        };
        1 << place
    }
}

/// Marks the operations of each hart that stand before its later loads, and those that stand before
/// its later stores: by an annotation, by a fence, and before stores by a branch or an address that
/// depends on them.
///
/// It costs two passes over the log.
pub fn mark_bars(model: MemoryModel, log: &[Entry], marks: &mut Marks)
    ensures { AreMarked model (events log.now) marks.old → AreMarked model (events log.now) marks.new }
{
    let fences = last_fences(log);
    for entry in log {
        if entry.event.id.hart < 16 {
            mark_event(model, log, &fences, &entry.event, Later::Loads, marks);
            mark_event(model, log, &fences, &entry.event, Later::Stores, marks);
        }
    }
}

/// Of each hart, and of each kind of operations before and after a fence, the place in the log of
/// its last fence that orders these; a place behind the log where there is none.
///
/// That it is the last one is not promised, as nothing rests on it but how much is found.
fn last_fences(log: &[Entry]) -> [usize; 64] {
    let mut last = [usize::MAX; 64];
    'entries: for place in 0..log.len() {
        let event = &log[place].event;
        if matches!(event.op, Op::Fence { .. } | Op::FenceTso) {
            note_fence(&mut last, event, place);
        }
    }
    last
}

/// Notes that the fence is the last one of its hart for each kind that it orders.
fn note_fence(last: &mut [usize; 64], fence: &Event, place: usize) {
    for before in [Op::Load, Op::Store] {
        for later in [Later::Loads, Later::Stores] {
            if does_order(fence.op, before, later.op()) {
                if let Some(known) = last.get_mut(fence_place(fence.id.hart, before, later)) {
                    *known = place;
                }
            }
        }
    }
}

/// Where it is noted which fence of the hart is the last one for these kinds.
fn fence_place(hart: u8, before: Op, later: Later) -> usize {
    let after_stores = if before == Op::Store { 2 } else { 0 };
    let before_stores = if later == Later::Stores { 1 } else { 0 };
    4 * hart as usize + after_stores + before_stores
}

/// The hart's last fence for these kinds, where there is one.
fn last_fence<'a>(
    log: &'a [Entry],
    fences: &[usize; 64],
    hart: u8,
    before: Op,
    later: Later,
) -> Option<&'a Event>
    ensures { IfSome (option_copied result) (Contains (events log.now)) }
{
    let place = fences.get(fence_place(hart, before, later))?;
    let entry = log.get(*place)?;
    Some(&entry.event)
}

/// Marks the event where it stands before later operations of the kind, and those that stand there
/// because it depends on them.
fn mark_event(
    model: MemoryModel,
    log: &[Entry],
    fences: &[usize; 64],
    event: &Event,
    later: Later,
    marks: &mut Marks,
)
    requires { event.now.id.hart < 16 }
    ensures { Contains (events log.now) event.now →
        AreMarked model (events log.now) marks.old → AreMarked model (events log.now) marks.new }
{
    let hart = event.id.hart;
    let after_loads = last_fence(log, fences, hart, Op::Load, later);
    let after_stores = last_fence(log, fences, hart, Op::Store, later);
    mark_bar(model, event, later, after_loads, after_stores, marks);
    mark_sources(event, later, marks);
}

/// Marks the event where it stands there.
fn mark_bar(
    model: MemoryModel,
    event: &Event,
    later: Later,
    after_loads: Option<&Event>,
    after_stores: Option<&Event>,
    marks: &mut Marks,
)
    requires { event.now.id.hart < 16 }
    ensures { (log : List Event) → IfSome (option_copied after_loads.entry) (Contains log) →
        IfSome (option_copied after_stores.entry) (Contains log) → Contains log event.now →
        AreMarked model log marks.old → AreMarked model log marks.new }
{
    if is_bar(model, event, later, after_loads, after_stores) {
        marks.add(event.id, later.mark(event.id.hart));
    }
}

/// Whether the event stands there by an annotation or by one of the fences.
fn is_bar(
    model: MemoryModel,
    event: &Event,
    later: Later,
    after_loads: Option<&Event>,
    after_stores: Option<&Event>,
) -> bool
    ensures { (log : List Event) → IfSome (option_copied after_loads.entry) (Contains log) →
        IfSome (option_copied after_stores.entry) (Contains log) → IsTrue result →
        IsMemory event.now × StandsBefore later model log event.now }
{
    event.is_memory()
        && (is_annotated(model, event, later)
            || is_fenced(event, after_loads, later)
            || is_fenced(event, after_stores, later))
}

/// Whether the fence stands behind the event and orders it before later operations of the kind.
fn is_fenced(event: &Event, fence: Option<&Event>, later: Later) -> bool
    ensures { (model : MemoryModel) (log : List Event) → IfSome (option_copied fence.entry) (Contains log) →
        IsTrue result → StandsBefore later model log event.now }
{
    match fence {
        Some(fence) => is_earlier(event, fence) && does_order(fence.op, event.op, later.op()),
        None => false,
    }
}

/// Whether the event stands there by an annotation: an acquire of its own, or a release of each
/// store.
fn is_annotated(model: MemoryModel, event: &Event, later: Later) -> bool
    ensures { (log : List Event) → IsTrue result → StandsBefore later model log event.now }
{
    is_acquire(model, event) || (later == Later::Stores && model == MemoryModel::Ztso)
}

/// Marks the operations that stand there because the event depends on them.
fn mark_sources(event: &Event, later: Later, marks: &mut Marks)
    requires { event.now.id.hart < 16 }
    ensures { (model : MemoryModel) (log : List Event) → Contains log event.now →
        AreMarked model log marks.old → AreMarked model log marks.new }
{
    for dep in event.deps.as_slice() {
        if is_source(event, later, *dep) {
            let source = Id {
                hart: event.id.hart,
                seq: dep.seq,
            };
            marks.add(source, later.mark(event.id.hart));
        }
    }
}

/// Whether the dependency puts its event there: that of a branch or of an address, before each
/// later store.
fn is_source(event: &Event, later: Later, dep: Dep) -> bool
    ensures { IsTrue result ↔ ((later ≡ kind.Stores) × PutsBefore event.now dep) }
{
    dep.seq < event.id.seq
        && later == Later::Stores
        && (dep.kind == DepKind::Addr || (dep.kind == DepKind::Ctrl && event.op == Op::Branch))
}
