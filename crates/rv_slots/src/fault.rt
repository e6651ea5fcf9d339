//! Why no slots were made.
ghost use Rattle.std.specs.Prelude.{◌≡◌};
ghost use Rattle.rv_slots.specs.declared.fault.SlotsFault.TheVariants as fault;

use std::alloc::AllocError;
use thiserror::Error;

/// Why no slots were made.
#[derive(Clone, Copy, PartialEq, Eq, Debug, Error)]
pub enum SlotsFault {
    /// The number of slots is not 2 to 16.
    #[error("the number of slots is not 2 to 16")]
    Count,
    /// Memory was refused.
    #[error("no memory")]
    NoMemory,
}

impl From<AllocError> for SlotsFault {
    ghost from_gives = { λ _ f. f ≡ fault.NoMemory };

    /// The fault of the same name.
    fn from(_error: AllocError) -> Self {
        SlotsFault::NoMemory
    }
}
