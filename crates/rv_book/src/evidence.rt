//! The evidence of a refusal: a log followed by the entry that is refused.
ghost use Rattle.std.specs.Prelude.{◌≡◌, ◌++◌, ◌∷◌, [], IfOk};

use rv_cert::Evidence;
use rv_event::{Entry, NoMemory};
use std::alloc::Global;

/// The entries and the new one.
///
/// # Errors
/// `NoMemory` where the list or a copy could not be had.
#[inline(never)]
pub fn evidence_of(alloc: Global, entries: &[Entry], entry: &Entry) -> Result<Evidence, NoMemory>
    ensures { IfOk result (λ log. log ≡ entries.now ++ entry.now ∷ []) }
{
    let mut log = Vec::new(alloc);
    for one in entries {
        log.push(one.copy(alloc)?)?;
    }
    log.push(entry.copy(alloc)?)?;
    Ok(Evidence::from_vec(log))
}
