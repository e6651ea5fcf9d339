//! Why a row can't be made.
ghost use Rattle.std.specs.Prelude.{◌≡◌};
ghost use Rattle.rv_flow.specs.declared.unlisted.Unlisted.TheVariants as why;

use std::alloc::{AllocError, AllocFailed};
use thiserror::Error;

/// Why a row can't be made.
#[derive(Clone, Copy, PartialEq, Eq, Debug, Error)]
pub enum Unlisted {
    /// Memory ran out.
    #[error("out of memory")]
    NoMemory,
    /// The hart would have more than 4,096 rows.
    #[error("more than 4,096 rows of a hart")]
    Full,
}

impl From<AllocError> for Unlisted {
    ghost from_gives = { λ _ w. w ≡ why.NoMemory };

    /// The reason of the same name.
    fn from(_error: AllocError) -> Self {
        Unlisted::NoMemory
    }
}

impl<T: Drop> From<AllocFailed<T>> for Unlisted {
    ghost from_gives = { λ _ w. w ≡ why.NoMemory };

    /// The reason of the same name.
    fn from(_error: AllocFailed<T>) -> Self {
        Unlisted::NoMemory
    }
}
