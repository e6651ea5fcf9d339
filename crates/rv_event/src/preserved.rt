//! Preserved program order between two events of a log, by their ids (manual, section 14.1).
ghost use Rattle.std.specs.Prelude.{ℕ, ◌<◌, ◌↔◌, IsTrue, IfSome, IfNone};
ghost use Rattle.rv_event.specs.Log.{events};
ghost use Rattle.rv_event.specs.Preserved.{IsPreserved};

use crate::event::{Entry, Id};
use crate::memory_model::MemoryModel;
use crate::rules::is_rule;
use crate::search::find_named;

/// Whether the rule with this number, 1 to 13, orders the first event before the second. An id that
/// names no event of the log is ordered by none.
///
/// It costs a few passes over the log.
pub fn is_preserved_by(model: MemoryModel, log: &[Entry], k: u8, a: Id, b: Id) -> bool
    ensures { IsTrue result ↔ IsPreserved model (events log.now) k a b }
{
    let Some(first) = find_named(log, a) else {
        return false;
    };
    let Some(second) = find_named(log, b) else {
        return false;
    };
    is_rule(model, log, k, first, second)
}

/// The lowest rule of preserved program order, 1 to 13, that orders the first event before the
/// second. None where no rule does.
///
/// It costs a few passes over the log for each rule.
pub fn lowest_rule(model: MemoryModel, log: &[Entry], a: Id, b: Id) -> Option<u8>
    ensures some { IfSome result (λ k. IsPreserved model (events log.now) k a b) }
    ensures lowest { IfSome result (λ k. (j : ℕ) → j < k → IsPreserved model (events log.now) j a b → ⊥) }
    ensures none { IfNone result ((k : ℕ) → IsPreserved model (events log.now) k a b → ⊥) }
{
    for k in 1..14 {
        if is_preserved_by(model, log, k, a, b) {
            return Some(k);
        }
    }
    None
}
