//! Certificates: what shows that no order is lawful for a log.
ghost use Rattle.std.specs.Prelude.{◌≡◌, IfOk};

use rv_event::{Id, NoMemory, Reason};
use std::alloc::Global;
use std::marker::Model;

/// A closed walk of edges, seen by contracts as the list of its steps.
///
/// Each pair gives the edge from its id to the next pair's id, by its reason; the last leads to the
/// first.
#[derive(Drop, Debug)]
pub struct Circle {
    steps: Vec<(Id, Reason)>,
}

impl Model for Circle {
    ghost use Rattle.std.specs.Prelude.{List};
    ghost use Rattle.rv_event.specs.declared.event.Id.{Id};
    ghost use Rattle.rv_event.specs.declared.reason.Reason.{Reason};

    ghost Value = { List (Id × Reason) };

    ghost view = { λ c. c.steps.items };
}

impl Circle {
    /// Takes the steps over. It takes no memory.
    pub fn from_vec(steps: Vec<(Id, Reason)>) -> Self
        ensures { result ≡ steps.items }
    {
        Circle { steps }
    }

    /// The steps, in order.
    pub fn as_slice(&self) -> &[(Id, Reason)]
        ensures { result.now ≡ self.now }
    {
        self.steps.as_slice()
    }

    /// An equal circle.
    ///
    /// # Errors
    /// `NoMemory` where the list could not be had; the circle stays as it is.
    pub fn copy(&self, alloc: Global) -> Result<Circle, NoMemory>
        ensures { IfOk result (λ c. c ≡ self.now) }
    {
        Ok(Circle {
            steps: Vec::from_slice(alloc, self.steps.as_slice())?,
        })
    }
}

/// What shows that no order is lawful for a log (after Gibbons and Korach, "Testing shared
/// memories").
#[derive(Drop, Debug)]
pub enum Certificate {
    /// A closed walk of edges: each would have to go forward in a lawful order.
    Circle(Circle),
    /// A load, and an earlier store of its hart and word with a newer version than the load
    /// returned.
    Stale {
        /// The load.
        load: Id,
        /// The store.
        store: Id,
    },
}

impl Certificate {
    /// An equal certificate.
    ///
    /// # Errors
    /// `NoMemory` where the circle could not be copied; the certificate stays as it is.
    pub fn copy(&self, alloc: Global) -> Result<Certificate, NoMemory>
        ensures { IfOk result (λ c. c ≡ self.now) }
    {
        match self {
            Certificate::Circle(circle) => Ok(Certificate::Circle(circle.copy(alloc)?)),
            Certificate::Stale { load, store } => Ok(Certificate::Stale {
                load: *load,
                store: *store,
            }),
        }
    }
}
