//! Verdicts: why a log was refused, with the log that shows it.
ghost use Rattle.std.specs.Prelude.{◌≡◌, IfOk};
ghost use Rattle.rv_cert.specs.Refusals.{LastIs};
ghost use Rattle.rv_cert.specs.Verdicts.{evidence_of, model_of};

use crate::forbidden::Forbidden;
use crate::malformed::Malformed;
use rv_event::{Entry, Id, MemoryModel, NoMemory};
use std::alloc::Global;

/// Why a log was refused, with the log that shows it.
#[derive(Drop, Debug)]
pub enum Verdict {
    /// No order is lawful for the log.
    Forbidden(Forbidden),
    /// The log's last entry has a fault.
    Malformed(Malformed),
}

impl Verdict {
    /// The model by which the log was judged.
    pub fn model(&self) -> MemoryModel
        ensures { result ≡ model_of self.now }
    {
        match self {
            Verdict::Forbidden(forbidden) => forbidden.model(),
            Verdict::Malformed(malformed) => malformed.model(),
        }
    }

    /// The log: the accepted entries, followed by the refused one.
    pub fn evidence(&self) -> &[Entry]
        ensures { result.now ≡ evidence_of self.now }
    {
        match self {
            Verdict::Forbidden(forbidden) => forbidden.evidence(),
            Verdict::Malformed(malformed) => malformed.evidence(),
        }
    }

    /// The id of the refused entry, the last of the evidence.
    pub fn refused(&self) -> Id
        ensures { LastIs (evidence_of self.now) result }
    {
        match self {
            Verdict::Forbidden(forbidden) => forbidden.refused(),
            Verdict::Malformed(malformed) => malformed.refused(),
        }
    }

    /// An equal verdict.
    ///
    /// # Errors
    /// `NoMemory` where a part could not be copied; the verdict stays as it is.
    pub fn copy(&self, alloc: Global) -> Result<Verdict, NoMemory>
        ensures { IfOk result (λ v. v ≡ self.now) }
    {
        match self {
            Verdict::Forbidden(forbidden) => Ok(Verdict::Forbidden(forbidden.copy(alloc)?)),
            Verdict::Malformed(malformed) => Ok(Verdict::Malformed(malformed.copy(alloc)?)),
        }
    }
}
