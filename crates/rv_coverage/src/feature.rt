//! What is counted, and each count.
ghost use Rattle.std.specs.Prelude.{Some};
ghost use Rattle.rv_coverage.specs.Features.{feature_text, origin_text};

use crate::kind::Kind;
use rv_event::Reason;
use std::fmt;

/// Where a load got what it returned.
///
/// It is printed as `initial value`, `own hart`, `another hart` or `missing store`.
#[derive(Clone, Copy, PartialEq, Eq, Debug)]
pub enum Origin {
    /// From no store: version 0.
    Initial,
    /// From a store of its own hart.
    Own,
    /// From a store of another hart.
    Other,
    /// From a store that the log does not have.
    Waiting,
}

impl fmt::Display for Origin {
    ghost output = { λ o. Some (origin_text o) };

    fn fmt<W: fmt::Write>(&self, f: &mut fmt::Formatter<W>) -> fmt::Result {
        match self {
            Origin::Initial => write!(f, "initial value"),
            Origin::Own => write!(f, "own hart"),
            Origin::Other => write!(f, "another hart"),
            Origin::Waiting => write!(f, "missing store"),
        }
    }
}

/// What is counted.
///
/// It is printed as what it names.
#[derive(Clone, Copy, PartialEq, Eq, Debug)]
pub enum Feature {
    /// Events of this kind.
    Event(Kind),
    /// Links that are kept, with this reason.
    Link(Reason),
    /// Loads that read from there.
    Read(Origin),
}

impl fmt::Display for Feature {
    ghost output = { λ x. Some (feature_text x) };

    fn fmt<W: fmt::Write>(&self, f: &mut fmt::Formatter<W>) -> fmt::Result {
        match self {
            Feature::Event(kind) => write!(f, "{kind}"),
            Feature::Link(reason) => write!(f, "{reason}"),
            Feature::Read(origin) => write!(f, "{origin}"),
        }
    }
}

/// How often something was met.
#[derive(Clone, Copy, PartialEq, Eq, Debug)]
pub struct Count {
    /// What.
    pub feature: Feature,
    /// How often.
    pub count: usize,
}
