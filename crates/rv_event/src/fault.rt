//! What is wrong with an entry over the entries before it.
ghost use Rattle.std.specs.Prelude.{Some};
ghost use Rattle.rv_event.specs.Texts.{fault_text};

use crate::event::Id;
use std::fmt;

/// What is wrong with an entry over the entries before it. Where several faults hold, the first in
/// this list is meant.
///
/// The faults are this project's own: they tell a trace that names no execution.
#[derive(Clone, Copy, PartialEq, Eq, Debug)]
pub enum Fault {
    /// The hart is above 15.
    Hart,
    /// The event's number is not the number of its hart's events so far, which is named.
    Sequence(u32),
    /// A dependency on an event that is not earlier, on one that returns no value, or of a kind
    /// that the operation does not have.
    Dependency,
    /// A store of version 0, which is the word's initial value.
    VersionZero,
    /// A store of a version that the named event wrote.
    VersionTaken(Id),
    /// An SC where the hart's last LR, SC or failed SC is no LR.
    NoReservation,
    /// The hart has 4,096 events already.
    Full,
    /// The hart's events so far came from another source.
    OtherSource,
    /// More than 8 dependencies.
    TooManyDeps,
}

impl Fault {
    ghost use Rattle.std.specs.Prelude.{◌≡◌};
    ghost use Rattle.rv_event.specs.Texts.{fault_number};

    /// The fault's number, 1 to 9 in the order of the list.
    pub fn number(self) -> u8
        ensures { result ≡ fault_number self }
    {
        match self {
            Fault::Hart => 1,
            Fault::Sequence(_) => 2,
            Fault::Dependency => 3,
            Fault::VersionZero => 4,
            Fault::VersionTaken(_) => 5,
            Fault::NoReservation => 6,
            Fault::Full => 7,
            Fault::OtherSource => 8,
            Fault::TooManyDeps => 9,
        }
    }
}

impl fmt::Display for Fault {
    ghost output = { λ f. Some (fault_text f) };

    fn fmt<W: fmt::Write>(&self, f: &mut fmt::Formatter<W>) -> fmt::Result {
        match self {
            Fault::Hart => write!(f, "hart"),
            Fault::Sequence(expected) => write!(f, "sequence, expected {expected}"),
            Fault::Dependency => write!(f, "dependency"),
            Fault::VersionZero => write!(f, "version zero"),
            Fault::VersionTaken(id) => write!(f, "version taken by {id}"),
            Fault::NoReservation => write!(f, "no reservation"),
            Fault::Full => write!(f, "hart full"),
            Fault::OtherSource => write!(f, "other source"),
            Fault::TooManyDeps => write!(f, "too many dependencies"),
        }
    }
}
