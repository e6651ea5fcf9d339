//! Malformed events in words.
ghost use Rattle.std.specs.Prelude.{◌≡◌, IfOk, Some, string_bytes};
ghost use Rattle.rv_explain.specs.Faults.{expected_text, malformed_text, usual_text, wrong_text};

use crate::cells::{Described, place_of};
use crate::shown::Shown;
use rv_event::{Event, Fault, NoMemory};
use std::alloc::Global;
use std::fmt;

/// What is wrong with an event.
#[derive(Clone, Copy)]
pub struct Wrong<'a> {
    /// The fault.
    pub fault: Fault,
    /// The event that has it.
    pub event: &'a Event,
}

impl<'a> fmt::Display for Wrong<'a> {
    ghost output = { λ w. Some (wrong_text w.fault w.event.now) };

    fn fmt<W: fmt::Write>(&self, f: &mut fmt::Formatter<W>) -> fmt::Result {
        let hart = self.event.id.hart;
        let seq = self.event.id.seq;
        let word = self.event.word;
        let wrote = self.event.wrote;
        match self.fault {
            Fault::Hart => write!(f, "its hart is {hart}"),
            Fault::Sequence(count) => write!(
                f,
                "its seq is {seq}, and its hart had {count} events before it"
            ),
            Fault::Dependency => write!(
                f,
                "one of its dependencies names no event that it can depend on"
            ),
            Fault::VersionZero => write!(f, "it writes version 0 of word {word}"),
            Fault::VersionTaken(id) => write!(
                f,
                "it writes version {wrote} of word {word}, which {id} wrote already"
            ),
            Fault::NoReservation => write!(
                f,
                "the last LR, SC or failed SC of its hart is not an LR"
            ),
            Fault::Full => write!(f, "its hart has 4096 events already"),
            Fault::OtherSource => write!(
                f,
                "the earlier events of its hart came from another source"
            ),
            Fault::TooManyDeps => write!(f, "it has more than 8 dependencies"),
        }
    }
}

/// What was expected in place of a fault.
#[derive(Clone, Copy)]
pub struct Expected {
    /// The fault.
    pub fault: Fault,
}

impl fmt::Display for Expected {
    ghost output = { λ e. Some (expected_text e.fault) };

    fn fmt<W: fmt::Write>(&self, f: &mut fmt::Formatter<W>) -> fmt::Result {
        match self.fault {
            Fault::Hart => write!(f, "a hart from 0 to 15"),
            Fault::Sequence(count) => write!(f, "seq {count}"),
            Fault::Dependency => write!(
                f,
                "earlier L, LR, SC, SF, AMO or I of its hart, each by a letter that its \
                 operation has"
            ),
            Fault::VersionZero => write!(f, "a version from 1 on, as 0 is the initial value"),
            Fault::VersionTaken(_) => write!(f, "a version of its own for each store to a word"),
            Fault::NoReservation => write!(
                f,
                "an LR of its hart with no other LR, SC or failed SC behind it"
            ),
            Fault::Full => write!(f, "at most 4096 events a hart"),
            Fault::OtherSource => write!(f, "all events of a hart in one source"),
            Fault::TooManyDeps => write!(f, "at most 8 dependencies"),
        }
    }
}

/// How traces come to have a fault.
#[derive(Clone, Copy)]
pub struct Usual {
    /// The fault.
    pub fault: Fault,
}

impl fmt::Display for Usual {
    ghost output = { λ u. Some (usual_text u.fault) };

    fn fmt<W: fmt::Write>(&self, f: &mut fmt::Formatter<W>) -> fmt::Result {
        match self.fault {
            Fault::Hart => write!(
                f,
                "harts that are not numbered from 0, or more than 16 of them"
            ),
            Fault::Sequence(_) => write!(
                f,
                "a row that was lost or written twice, or rows out of program order"
            ),
            Fault::Dependency => write!(
                f,
                "a dependency on a store or fence, or rows numbered anew without their deps"
            ),
            Fault::VersionZero => write!(f, "versions that were counted from 0"),
            Fault::VersionTaken(_) => write!(
                f,
                "a store that was logged twice, or stores that each hart numbers by itself"
            ),
            Fault::NoReservation => write!(
                f,
                "an SC that failed, which is SF, or an LR that was not logged"
            ),
            Fault::Full => write!(f, "a run that is longer than a trace may be"),
            Fault::OtherSource => write!(
                f,
                "sources of two runs, or a run that was cut by time and not by hart"
            ),
            Fault::TooManyDeps => write!(
                f,
                "dependencies that rows I could stand for, with --carriers"
            ),
        }
    }
}

/// The text on a malformed event: what is wrong with it, what was expected, and how traces come to
/// have it. `names` are those of the sources, in order.
///
/// # Errors
/// Memory ran out.
pub fn malformed_text(
    alloc: Global,
    names: &[String],
    refused: &Shown<'_>,
    fault: Fault,
) -> Result<String, NoMemory>
    ensures { IfOk result (λ text. string_bytes text ≡ malformed_text names.now refused.now fault) }
{
    let event = &refused.entry.event;
    let id = event.id;
    let place = place_of(names, refused);
    let described = Described { shown: refused };
    let wrong = Wrong { fault, event };
    let expected = Expected { fault };
    let usual = Usual { fault };
    Ok(format!(in alloc;
        "{id} ({place}) is malformed: {described}.\n\n  Wrong: {wrong}.\n  Expected: {expected}.\n  \
         Usual cause: {usual}.\n"
    )?)
}
