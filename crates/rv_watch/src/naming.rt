//! How the events of a window are named in a report: by their numbers in the log.
ghost use Rattle.std.specs.Prelude.{◌≡◌, IfOk, map};
ghost use Rattle.rv_watch.specs.Names.{certificate_named, named, step_named};

use rv_cert::{Certificate, Circle};
use rv_cut::Cut;
use rv_event::{Id, NoMemory, Reason};
use std::alloc::Global;

/// How the events of a window are named: each by its number in the log, which is counted from the
/// first number of its hart that is kept, but one by a name of its own. Contracts see the fields.
#[derive(Drop)]
pub(crate) struct Naming<'a> {
    /// Of each hart the number of its first event in the window.
    pub(crate) firsts: &'a Cut,
    /// The event that has a name of its own, and this name.
    pub(crate) refused: Option<(Id, Id)>,
}

impl Naming<'_> {
    /// The name of the event that the window has under this id.
    pub(crate) fn name(&self, id: Id) -> Id
        ensures { result ≡ named self.now.firsts.now self.now.refused id }
    {
        if let Some((refused, own)) = self.refused {
            if refused == id {
                return own;
            }
        }
        Id {
            hart: id.hart,
            seq: id.seq.saturating_add(self.firsts.first(id.hart)),
        }
    }

    /// The steps of a circle of the window, with their names.
    fn steps(&self, alloc: Global, steps: &[(Id, Reason)]) -> Result<Vec<(Id, Reason)>, NoMemory>
        ensures { IfOk result (λ told. told.items ≡ map (step_named self.now.firsts.now self.now.refused) steps.now) }
    {
        let mut told = Vec::new(alloc);
        for step in steps {
            told.push((self.name(step.0), step.1))?;
        }
        Ok(told)
    }

    /// A certificate of the window, with the names of its events.
    ///
    /// # Errors
    /// `NoMemory` where it could not be had.
    pub(crate) fn certificate(
        &self,
        alloc: Global,
        certificate: &Certificate,
    ) -> Result<Certificate, NoMemory>
        ensures { IfOk result (λ told. told
            ≡ certificate_named self.now.firsts.now self.now.refused certificate.now) }
    {
        match certificate {
            Certificate::Circle(circle) => {
                let steps = self.steps(alloc, circle.as_slice())?;
                Ok(Certificate::Circle(Circle::from_vec(steps)))
            }
            Certificate::Stale { load, store } => Ok(Certificate::Stale {
                load: self.name(*load),
                store: self.name(*store),
            }),
        }
    }
}
