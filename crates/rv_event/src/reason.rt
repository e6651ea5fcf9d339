//! Why one memory operation stands before another.
ghost use Rattle.std.specs.Prelude.{Some};
ghost use Rattle.rv_event.specs.Texts.{reason_text};

use crate::event::Id;
use std::fmt;

/// The reason of an edge: why its first operation stands before its second in every lawful order.
///
/// It is printed as `rule K`, `coherence`, `reads-from`, `from-read`, `atomic-in` or `atomic-out`.
#[derive(Clone, Copy, PartialEq, Eq, Debug)]
pub enum Reason {
    /// A rule of preserved program order, by its number in the manual, 1 to 13 (section 14.1).
    Preserved(u8),
    /// A store before a store of the same word with a higher version.
    Coherence,
    /// The writer of what a load returned before the load, unless it is earlier in program order.
    ReadsFrom,
    /// A load before each other store of its word with a higher version than it returned.
    FromRead,
    /// The writer of what a paired LR returned before the SC.
    AtomicIn,
    /// A paired SC before each other hart's store of the LR's word with a higher version than the
    /// LR returned.
    AtomicOut,
}

impl fmt::Display for Reason {
    ghost output = { λ r. Some (reason_text r) };

    fn fmt<W: fmt::Write>(&self, f: &mut fmt::Formatter<W>) -> fmt::Result {
        match self {
            Reason::Preserved(rule) => write!(f, "rule {rule}"),
            Reason::Coherence => write!(f, "coherence"),
            Reason::ReadsFrom => write!(f, "reads-from"),
            Reason::FromRead => write!(f, "from-read"),
            Reason::AtomicIn => write!(f, "atomic-in"),
            Reason::AtomicOut => write!(f, "atomic-out"),
        }
    }
}

/// An edge from or to an event that is known: its other end, and its reason.
#[derive(Clone, Copy, PartialEq, Eq, Debug)]
pub struct Link {
    /// The event at the other end.
    pub id: Id,
    /// Why the edge is there.
    pub reason: Reason,
}
