//! Why a report was not written whole.
ghost use Rattle.std.specs.Prelude.{◌≡◌};
ghost use Rattle.rv_report.specs.declared.fault.ReportFault.TheVariants as fault;

use rv_event::NoMemory;
use thiserror::Error;

/// Why a report was not written whole.
#[derive(Clone, Copy, PartialEq, Eq, Debug, Error)]
pub enum ReportFault {
    /// The writer failed, or took no byte of what was left.
    #[error("cannot write")]
    Write,
    /// The text could not be had. Nothing was written.
    #[error("no memory")]
    NoMemory,
}

impl From<NoMemory> for ReportFault {
    ghost from_gives = { λ _ f. f ≡ fault.NoMemory };

    /// The fault of the same name.
    fn from(_error: NoMemory) -> Self {
        ReportFault::NoMemory
    }
}
