//! What came of a trace.
ghost use Rattle.std.specs.Prelude.{◌≡◌, IfOk};
ghost use Rattle.rv_report.specs.Outcomes.{outcome_of};

use rv_cert::{Forbidden, Malformed, Verdict};
use rv_event::NoMemory;
use std::alloc::Global;

/// What came of a trace: each event was accepted, or the first that was not is shown with the
/// cause.
///
/// The refusals are held as they are, since what they say of their log is kept by their types.
#[derive(Drop, Debug)]
pub enum Outcome {
    /// Each event was accepted.
    Allowed {
        /// How many events were accepted, fences, branches and failed SCs among them.
        events: usize,
        /// How many of them are memory operations.
        operations: usize,
        /// How many of these load a version above 0 that no store has written so far.
        waiting: usize,
    },
    /// With the last event of the evidence no order is lawful.
    Forbidden(Forbidden),
    /// The last event of the evidence has a fault.
    Malformed(Malformed),
}

impl From<Verdict> for Outcome {
    ghost from_gives = { λ verdict outcome. outcome ≡ outcome_of verdict };

    /// The outcome of a refusal, with what it holds. It takes no memory.
    fn from(verdict: Verdict) -> Self {
        match verdict {
            Verdict::Forbidden(forbidden) => Outcome::Forbidden(forbidden),
            Verdict::Malformed(malformed) => Outcome::Malformed(malformed),
        }
    }
}

impl Outcome {
    /// An equal outcome.
    ///
    /// # Errors
    /// `NoMemory` where a part could not be copied; the outcome stays as it is.
    pub fn copy(&self, alloc: Global) -> Result<Outcome, NoMemory>
        ensures { IfOk result (λ o. o ≡ self.now) }
    {
        match self {
            Outcome::Allowed {
                events,
                operations,
                waiting,
            } => Ok(Outcome::Allowed {
                events: *events,
                operations: *operations,
                waiting: *waiting,
            }),
            Outcome::Forbidden(forbidden) => Ok(Outcome::Forbidden(forbidden.copy(alloc)?)),
            Outcome::Malformed(malformed) => Ok(Outcome::Malformed(malformed.copy(alloc)?)),
        }
    }
}
