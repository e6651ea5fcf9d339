//! An event as C writes it.
ghost use Rattle.std.specs.Prelude.{◌≡◌, ◌≤◌, IfErr, IfOk, Some, length, map};
ghost use Rattle.std.specs.List.{Contains};
ghost use Rattle.rv_c.specs.Events.{IsWritten, dep_of, kind_of, op_of, set_of};
ghost use Rattle.rv_c.specs.Replies.{IsUnwritten, AreUnwritten};

use crate::reply::Reply;
use rv_event::{Dep, DepKind, Deps, Entry, Event, Id, Op, Set};
use std::alloc::Global;

/// A dependency: the number of the event, and its kind: 0 address, 1 data, 2 control.
#[repr(C)]
#[derive(Clone, Copy)]
pub struct RvmonDep {
    pub seq: u32,
    pub kind: u32,
}

/// An event. Operations: 0 load, 1 store, 2 LR, 3 SC, 4 failed SC, 5 AMO, 6 fence, 7 fence.tso, 8
/// branch, 9 carrier. The sets of a fence: 1 loads, 2 stores, 3 both.
#[repr(C)]
#[derive(Drop)]
pub struct RvmonEvent {
    pub seq: u32,
    pub word: u32,
    pub read: u32,
    pub wrote: u32,
    pub hart: u8,
    pub source: u8,
    pub op: u8,
    pub pred: u8,
    pub succ: u8,
    pub acquire: u8,
    pub release: u8,
    pub count: u8,
    pub deps: [RvmonDep; 8],
}

/// The operations that one side of a fence takes.
fn set_of(code: u8) -> Option<Set>
    ensures { result ≡ set_of code }
{
    match code {
        1 => Some(Set::R),
        2 => Some(Set::W),
        3 => Some(Set::Rw),
        _ => None,
    }
}

/// What the event does.
fn op_of(event: &RvmonEvent) -> Option<Op>
    ensures { result ≡ op_of event.now }
{
    match event.op {
        0 => Some(Op::Load),
        1 => Some(Op::Store),
        2 => Some(Op::Lr),
        3 => Some(Op::Sc),
        4 => Some(Op::ScFailed),
        5 => Some(Op::Amo),
        6 => match (set_of(event.pred), set_of(event.succ)) {
            (Some(pred), Some(succ)) => Some(Op::Fence { pred, succ }),
            _ => None,
        },
        7 => Some(Op::FenceTso),
        8 => Some(Op::Branch),
        9 => Some(Op::Carrier),
        _ => None,
    }
}

/// The kind of a dependency.
fn kind_of(code: u32) -> Option<DepKind>
    ensures { result ≡ kind_of code }
{
    match code {
        0 => Some(DepKind::Addr),
        1 => Some(DepKind::DataOf),
        2 => Some(DepKind::Ctrl),
        _ => None,
    }
}

/// A dependency.
fn dep_of(dep: RvmonDep) -> Option<Dep>
    ensures { result ≡ dep_of dep }
{
    match kind_of(dep.kind) {
        Some(kind) => Some(Dep { kind, seq: dep.seq }),
        None => None,
    }
}

/// The dependencies.
fn deps_of(alloc: Global, deps: &[RvmonDep]) -> Result<Deps, Reply>
    ensures deps { IfOk result (λ made. map dep_of deps.now ≡ map Some made) }
    ensures reason { IfErr result (AreUnwritten deps.now) }
{
    let mut made = Deps::new(alloc);
    'deps: for dep in deps {
        let Some(dep) = dep_of(*dep) else {
            return Err(Reply::UnknownDependency);
        };
        if made.push(dep).is_err() {
            return Err(Reply::NoMemory);
        }
    }
    Ok(made)
}

/// The entry that the numbers say, or why they say none.
pub fn entry_of(alloc: Global, event: &RvmonEvent) -> Result<Entry, Reply>
    ensures entry { IfOk result (IsWritten event.now) }
    ensures reason { IfErr result (IsUnwritten event.now) }
{
    let Some(op) = op_of(event) else {
        return Err(Reply::UnknownOperation);
    };
    let count = event.count as usize;
    if count > 8 {
        return Err(Reply::TooManyDependencies);
    }
    let deps = deps_of(alloc, &event.deps[..count])?;
    Ok(Entry {
        source: event.source,
        event: Event {
            id: Id {
                hart: event.hart,
                seq: event.seq,
            },
            op,
            word: event.word,
            read: event.read,
            wrote: event.wrote,
            acquire: event.acquire != 0,
            release: event.release != 0,
            deps,
        },
    })
}
