//! Forbidden logs, each with a certificate.
ghost use Rattle.std.specs.Prelude.{◌≡◌, IfOk};
ghost use Rattle.rv_event.specs.Log.{events};
ghost use Rattle.rv_event.specs.WellFormed.{WellFormed};
ghost use Rattle.rv_cert.specs.Certificates.{Certifies};
ghost use Rattle.rv_cert.specs.Refusals.{LastIs, IsFinal};

use crate::certificate::Certificate;
use crate::evidence::Evidence;
use rv_event::{Entry, Id, MemoryModel, NoMemory};
use std::alloc::Global;
use std::marker::Model;

/// A well formed log with a certificate that no order is lawful for it under the model.
///
/// Its type keeps both. So no order is lawful for any well formed log that continues it.
#[derive(Drop, Debug)]
pub struct Forbidden {
    model: MemoryModel,
    evidence: Evidence,
    certificate: Certificate,
}

impl Model for Forbidden {
    ghost use Rattle.rv_cert.specs.Refusals.{Refusal, IsRefusal};

    ghost Value = { Refusal };

    ghost view = { λ f. record { model = f.model; evidence = f.evidence; certificate = f.certificate } };

    ghost invariant = { λ f. IsRefusal f.model f.evidence f.certificate };
}

impl Forbidden {
    /// Keeps the log with its certificate. It takes no memory.
    #[inline(never)]
    pub fn new(model: MemoryModel, evidence: Evidence, certificate: Certificate) -> Self
        requires well_formed { WellFormed evidence }
        requires certifies { Certifies model (events evidence) certificate }
        ensures { result ≡ record { model = model; evidence = evidence; certificate = certificate } }
    {
        Forbidden {
            model,
            evidence,
            certificate,
        }
    }

    /// The model under which the log is forbidden.
    pub fn model(&self) -> MemoryModel
        ensures { result ≡ self.now.model }
    {
        self.model
    }

    /// The log: the accepted entries, followed by the refused one.
    pub fn evidence(&self) -> &[Entry]
        ensures value { result.now ≡ self.now.evidence }
        ensures well_formed { WellFormed self.now.evidence }
        ensures is_final { IsFinal self.now.model self.now.evidence }
    {
        self.evidence.as_slice()
    }

    /// The certificate, which is one for the log under the model.
    pub fn certificate(&self) -> &Certificate
        ensures value { result.now ≡ self.now.certificate }
        ensures certifies { Certifies self.now.model (events self.now.evidence) self.now.certificate }
    {
        &self.certificate
    }

    /// The id of the refused entry, the last of the evidence.
    pub fn refused(&self) -> Id
        ensures { LastIs self.now.evidence result }
    {
        match self.evidence.as_slice() {
            [.., refused] => refused.event.id,
            [] => unreachable!(),
        }
    }

    /// An equal refusal.
    ///
    /// # Errors
    /// `NoMemory` where the evidence or the certificate could not be copied; the refusal stays as
    /// it is.
    pub fn copy(&self, alloc: Global) -> Result<Forbidden, NoMemory>
        ensures { IfOk result (λ f. f ≡ self.now) }
    {
        let evidence = self.evidence.copy(alloc)?;
        let certificate = self.certificate.copy(alloc)?;
        Ok(Forbidden {
            model: self.model,
            evidence,
            certificate,
        })
    }
}
