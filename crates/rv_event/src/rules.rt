//! The conditions of the thirteen rules of preserved program order, by scans of the log (manual,
//! section 14.1).
ghost use Rattle.std.specs.Prelude.{◌≡◌, ◌≢◌, ◌↔◌, IsTrue, All, Any, Contains};
ghost use Rattle.rv_event.specs.Log.{events, Between};
ghost use Rattle.rv_event.specs.Operations.{IsStore, Returns};
ghost use Rattle.rv_event.specs.Carried.{DependsBy, IsDependentWriteBy};
ghost use Rattle.rv_event.specs.declared.event.DepKind.TheVariants.{Addr};
ghost use Rattle.rv_event.specs.Preserved.{OverlappingStore, DifferentReads, ReadsAtomicWrite};
ghost use Rattle.rv_event.specs.Preserved.{ReadsDependentWrite, AfterDependentAddress};
ghost use Rattle.rv_event.specs.Preserved.{Condition, Rule};

use crate::carriers::{carriers_of, depends_by, depends_through};
use crate::event::{DepKind, Entry, Event, Op};
use crate::memory_model::MemoryModel;
use crate::relations::{control_depends_on, is_acquire, is_fenced, is_paired, is_rcsc, is_release};
use crate::search::{is_between, is_earlier};
use rv_rows::Row;

/// Whether the load returns what the store wrote: the same version of the same word.
pub fn does_return(load: &Event, store: &Event) -> bool
    ensures { IsTrue result ↔ Returns load.now store.now }
{
    load.word == store.word && load.read == store.wrote
}

/// Whether b is a store of the word of a: rule 1 (manual, section 14.1, "Preserved Program Order").
pub fn is_overlapping_store(a: &Event, b: &Event) -> bool
    ensures { IsTrue result ↔ OverlappingStore a.now b.now }
{
    b.is_store() && a.word == b.word
}

/// Whether no store to the word of a stands between the two.
fn is_free_of_stores(log: &[Entry], a: &Event, b: &Event) -> bool
    ensures { IsTrue result ↔ All (λ m. Between a.now m b.now → IsStore m → m.word ≢ a.now.word) (events log.now) }
{
    log.iter().all(|x| !(is_between(a, &x.event, b)
        && x.event.is_store()
        && x.event.word == a.word))
}

/// Whether both are loads of a word that no store between them writes, and return different
/// versions.
fn are_different_reads(log: &[Entry], a: &Event, b: &Event) -> bool
    ensures { IsTrue result ↔ DifferentReads (events log.now) a.now b.now }
{
    a.is_load()
        && b.is_load()
        && a.word == b.word
        && a.read != b.read
        && is_free_of_stores(log, a, b)
}

/// Whether a is an AMO or an SC, and b a load that returns what it wrote: rule 3 (manual, section
/// 14.1, "Preserved Program Order").
pub fn reads_atomic_write(a: &Event, b: &Event) -> bool
    ensures { IsTrue result ↔ ReadsAtomicWrite a.now b.now }
{
    (a.op == Op::Amo || a.op == Op::Sc) && b.is_load() && does_return(b, a)
}

/// Whether m is a store between them that depends on a, which is behind these carriers, and b
/// returns what it wrote.
fn is_dependent_write(a: &Event, m: &Event, b: &Event, carriers: &Row) -> bool
    ensures { IsTrue result ↔ IsDependentWriteBy a.now b.now carriers.now m.now }
{
    is_between(a, m, b)
        && m.is_store()
        && does_return(b, m)
        && (depends_by(DepKind::Addr, m, a, carriers)
            || depends_by(DepKind::DataOf, m, a, carriers))
}

/// Whether b is a load that returns what such a store wrote.
fn reads_dependent_write(log: &[Entry], a: &Event, b: &Event) -> bool
    ensures { IsTrue result ↔ ReadsDependentWrite (events log.now) a.now b.now }
{
    b.is_load() && has_dependent_write(log, a, b, &carriers_of(log, a))
}

/// Whether b returns what some store between them wrote that depends on a, which is behind these
/// carriers.
fn has_dependent_write(log: &[Entry], a: &Event, b: &Event, carriers: &Row) -> bool
    ensures { IsTrue result ↔ Any (IsDependentWriteBy a.now b.now carriers.now) (events log.now) }
{
    log.iter()
        .any(|x| is_dependent_write(a, &x.event, b, carriers))
}

/// Whether the address of some event between them depends on a, which is behind these carriers.
fn has_dependent_address(log: &[Entry], a: &Event, b: &Event, carriers: &Row) -> bool
    ensures { IsTrue result ↔ Any (λ m. Between a.now m b.now × DependsBy Addr m a.now carriers.now)
        (events log.now) }
{
    log.iter().any(|x| is_between(a, &x.event, b)
        && depends_by(DepKind::Addr, &x.event, a, carriers))
}

/// Whether b is a store, and the address of an event between them depends on a.
fn is_after_dependent_address(log: &[Entry], a: &Event, b: &Event) -> bool
    ensures { IsTrue result ↔ AfterDependentAddress (events log.now) a.now b.now }
{
    b.is_store() && has_dependent_address(log, a, b, &carriers_of(log, a))
}

/// Whether the condition of the rule with this number holds. No rule has a number outside 1 to 13.
fn is_condition(model: MemoryModel, log: &[Entry], a: &Event, b: &Event, k: u8) -> bool
    ensures { IsTrue result ↔ Condition model (events log.now) a.now b.now k }
{
    match k {
        1 => is_overlapping_store(a, b),
        2 => are_different_reads(log, a, b),
        3 => reads_atomic_write(a, b),
        4 => is_fenced(log, a, b),
        5 => is_acquire(model, a),
        6 => is_release(model, b),
        7 => is_rcsc(model, a) && is_rcsc(model, b),
        8 => is_paired(log, a, b),
        9 => depends_through(log, DepKind::Addr, b, a),
        10 => depends_through(log, DepKind::DataOf, b, a),
        11 => b.is_store() && control_depends_on(log, b, a),
        12 => reads_dependent_write(log, a, b),
        13 => is_after_dependent_address(log, a, b),
        _ => false,
    }
}

/// Whether the rule with this number orders a before b.
pub fn is_rule(model: MemoryModel, log: &[Entry], k: u8, a: &Event, b: &Event) -> bool
    requires from { Contains (events log.now) a.now }
    requires to { Contains (events log.now) b.now }
    ensures { IsTrue result ↔ Rule model (events log.now) k a.now b.now }
{
    a.is_memory() && b.is_memory() && is_earlier(a, b) && is_condition(model, log, a, b, k)
}
