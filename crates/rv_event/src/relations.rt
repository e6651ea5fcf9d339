//! Annotations, pairs, fences and dependencies, by scans of the log.
ghost use Rattle.std.specs.Prelude.{◌≡◌, ◌↔◌, IsTrue, IsFalse, All, Any};
ghost use Rattle.rv_event.specs.Carried.{DependsBy};
ghost use Rattle.rv_event.specs.declared.event.DepKind.TheVariants.{Ctrl};
ghost use Rattle.rv_event.specs.declared.event.Op.TheVariants.{Branch};
ghost use Rattle.rv_event.specs.Log.{events, Between};
ghost use Rattle.rv_event.specs.Operations.{is_exclusive};
ghost use Rattle.rv_event.specs.Annotations.{is_annotated, IsAcquire, IsRelease, IsRcsc};
ghost use Rattle.rv_event.specs.Relations.{Paired, in_set, fence_orders, Fenced, Lists, ControlDependsOn};

use crate::carriers::{carriers_of, depends_by};
use crate::event::{Dep, DepKind, Entry, Event, Op, Set};
use crate::memory_model::MemoryModel;
use crate::search::{is_between, is_earlier};
use rv_rows::Row;

/// Whether the operation's aq and rl bits count.
fn is_annotated(op: Op) -> bool
    ensures { result ≡ is_annotated op }
{
    matches!(op, Op::Lr | Op::Sc | Op::Amo)
}

/// Whether the event has an acquire annotation under the model (manual, section 14.1, "Memory Model
/// Primitives").
pub fn is_acquire(model: MemoryModel, event: &Event) -> bool
    ensures { IsTrue result ↔ IsAcquire model event.now }
{
    let flagged = is_annotated(event.op) && event.acquire;
    match model {
        MemoryModel::Rvwmo => flagged,
        MemoryModel::Ztso => event.is_load() || flagged,
    }
}

/// Whether the event has a release annotation under the model (as above).
pub fn is_release(model: MemoryModel, event: &Event) -> bool
    ensures { IsTrue result ↔ IsRelease model event.now }
{
    let flagged = is_annotated(event.op) && event.release;
    match model {
        MemoryModel::Rvwmo => flagged,
        MemoryModel::Ztso => event.is_store() || flagged,
    }
}

/// Whether the event has an RCsc annotation under the model (as above).
pub fn is_rcsc(model: MemoryModel, event: &Event) -> bool
    ensures { IsTrue result ↔ IsRcsc model event.now }
{
    let flagged = is_annotated(event.op) && (event.acquire || event.release);
    match model {
        MemoryModel::Rvwmo => flagged,
        MemoryModel::Ztso => event.op == Op::Amo || flagged,
    }
}

/// Whether no LR, SC or failed SC stands between the two.
fn is_free_of_exclusives(log: &[Entry], a: &Event, b: &Event) -> bool
    ensures { IsTrue result ↔ All (λ m. Between a.now m b.now → IsFalse (is_exclusive m.op)) (events log.now) }
{
    log.iter().all(|x| !(is_between(a, &x.event, b) && x.event.op.is_exclusive()))
}

/// Whether the LR is paired with the SC (manual, section 14.1, "Memory Model Primitives").
pub fn is_paired(log: &[Entry], lr: &Event, sc: &Event) -> bool
    ensures { IsTrue result ↔ Paired (events log.now) lr.now sc.now }
{
    lr.op == Op::Lr && sc.op == Op::Sc && is_earlier(lr, sc) && is_free_of_exclusives(log, lr, sc)
}

/// Whether a fence's set takes the operation.
fn is_in(set: Set, op: Op) -> bool
    ensures { result ≡ in_set set op }
{
    match set {
        Set::R => op.is_load(),
        Set::W => op.is_store(),
        Set::Rw => op.is_memory(),
    }
}

/// Whether a fence orders an operation before it before one after it (manual, section 14.1,
/// "Preserved Program Order"): what is no fence orders none.
pub fn does_order(fence: Op, a: Op, b: Op) -> bool
    ensures { result ≡ fence_orders fence a b }
{
    match fence {
        Op::Fence { pred, succ } => is_in(pred, a) && is_in(succ, b),
        Op::FenceTso => a.is_load() && b.is_memory() || a.is_store() && b.is_store(),
        _ => false,
    }
}

/// Whether a fence between them orders a before b (manual, section 14.1, "Preserved Program
/// Order").
pub fn is_fenced(log: &[Entry], a: &Event, b: &Event) -> bool
    ensures { IsTrue result ↔ Fenced (events log.now) a.now b.now }
{
    log.iter().any(|x| is_between(a, &x.event, b) && does_order(x.event.op, a.op, b.op))
}

/// Whether the event itself lists a dependency of this kind on the earlier one (manual, section
/// 14.1, "Syntactic Dependencies").
#[inline(always)]
pub fn depends_on(kind: DepKind, event: &Event, on: &Event) -> bool
    ensures { IsTrue result ↔ Lists kind event.now on.now }
{
    is_earlier(on, event)
        && event.deps.as_slice().contains(&Dep {
            kind,
            seq: on.id.seq,
        })
}

/// Whether a branch between them depends on a, itself or through carriers: whether b has a control
/// dependency on a.
pub fn control_depends_on(log: &[Entry], b: &Event, a: &Event) -> bool
    ensures { IsTrue result ↔ ControlDependsOn (events log.now) b.now a.now }
{
    has_dependent_branch(log, b, a, &carriers_of(log, a))
}

/// Whether a branch between them depends on a, which is behind these carriers.
fn has_dependent_branch(log: &[Entry], b: &Event, a: &Event, carriers: &Row) -> bool
    ensures { IsTrue result ↔ Any (λ m. Between a.now m b.now × (m.op ≡ Branch) ×
        DependsBy Ctrl m a.now carriers.now) (events log.now) }
{
    log.iter().any(|x| {
        is_between(a, &x.event, b)
            && x.event.op == Op::Branch
            && depends_by(DepKind::Ctrl, &x.event, a, carriers)
    })
}
