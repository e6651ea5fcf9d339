//! Why a run has no outcome.
ghost use Rattle.std.specs.Prelude.{◌≡◌};
ghost use Rattle.rv_run.specs.declared.fault.RunFault.TheVariants as fault;

use rv_event::NoMemory;
use rv_trace::TraceFault;
use std::alloc::AllocError;
use thiserror::Error;

/// Why a run has no outcome.
#[derive(Clone, Copy, PartialEq, Eq, Debug, Error)]
pub enum RunFault {
    /// A source has a fault: its number, 0 to 7, and the fault with its row.
    #[error("source {source} row {}: {}", .fault.row, .fault.kind)]
    Trace {
        /// The source.
        source: u8,
        /// Its fault.
        fault: TraceFault,
    },
    /// Memory was refused.
    #[error("no memory")]
    NoMemory,
    /// What was judged is not what was read.
    #[error("book and sources disagree")]
    Lost,
    /// The number of sources, workers or slots is out of range.
    #[error("the number of sources, workers or slots is out of range")]
    Settings,
}

impl From<NoMemory> for RunFault {
    ghost from_gives = { λ _ f. f ≡ fault.NoMemory };

    /// The fault of the same name.
    fn from(_error: NoMemory) -> Self {
        RunFault::NoMemory
    }
}

impl From<AllocError> for RunFault {
    ghost from_gives = { λ _ f. f ≡ fault.NoMemory };

    /// Out of memory.
    fn from(_error: AllocError) -> Self {
        RunFault::NoMemory
    }
}
