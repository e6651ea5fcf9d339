//! Malformed logs, each with a fault.
ghost use Rattle.std.specs.Prelude.{◌≡◌, IfOk};
ghost use Rattle.rv_cert.specs.Refusals.{LastIs, IsMalformed};

use crate::evidence::Evidence;
use rv_event::{Entry, Fault, Id, MemoryModel, NoMemory};
use std::alloc::Global;
use std::marker::Model;

/// A log whose last entry has a fault over those before it, which are well formed.
///
/// Its type keeps that. The model is the one by which the log was judged; faults do not depend on
/// it.
#[derive(Drop, Debug)]
pub struct Malformed {
    model: MemoryModel,
    evidence: Evidence,
    fault: Fault,
}

impl Model for Malformed {
    ghost use Rattle.rv_cert.specs.Refusals.{FaultyLog, IsMalformed};

    ghost Value = { FaultyLog };

    ghost view = { λ m. record { model = m.model; evidence = m.evidence; fault = m.fault } };

    ghost invariant = { λ m. IsMalformed m.evidence m.fault };
}

impl Malformed {
    /// Keeps the log with its fault. It takes no memory.
    #[inline(never)]
    pub fn new(model: MemoryModel, evidence: Evidence, fault: Fault) -> Self
        requires { IsMalformed evidence fault }
        ensures { result ≡ record { model = model; evidence = evidence; fault = fault } }
    {
        Malformed {
            model,
            evidence,
            fault,
        }
    }

    /// The model by which the log was judged.
    pub fn model(&self) -> MemoryModel
        ensures { result ≡ self.now.model }
    {
        self.model
    }

    /// The log: the accepted entries, followed by the refused one.
    pub fn evidence(&self) -> &[Entry]
        ensures value { result.now ≡ self.now.evidence }
        ensures malformed { IsMalformed self.now.evidence self.now.fault }
    {
        self.evidence.as_slice()
    }

    /// The fault of the refused entry.
    pub fn fault(&self) -> Fault
        ensures { result ≡ self.now.fault }
    {
        self.fault
    }

    /// The id of the refused entry, the last of the evidence.
    pub fn refused(&self) -> Id
        ensures { LastIs self.now.evidence result }
    {
        match self.evidence.as_slice() {
            [.., refused] => refused.event.id,
            [] => unreachable!(),
        }
    }

    /// An equal refusal.
    ///
    /// # Errors
    /// `NoMemory` where the evidence could not be copied; the refusal stays as it is.
    pub fn copy(&self, alloc: Global) -> Result<Malformed, NoMemory>
        ensures { IfOk result (λ m. m ≡ self.now) }
    {
        let evidence = self.evidence.copy(alloc)?;
        Ok(Malformed {
            model: self.model,
            evidence,
            fault: self.fault,
        })
    }
}
