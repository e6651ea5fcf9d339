//! Ties: the links of a history, each with both of its ends.
ghost use Rattle.std.specs.Prelude.{◌≡◌, ◌++◌, OnOk};
ghost use Rattle.rv_edges.specs.Ties.{ties_around};

use crate::packed_link::PackedLink;
use rv_event::{Id, NoMemory};

/// A link with both of its ends: an edge leads from the one event to the other.
#[derive(Clone, Copy, PartialEq, Eq, Debug)]
pub struct Tie {
    /// The id of the event that comes first in every lawful order.
    pub from: Id,
    /// The id of the other event.
    pub to: Id,
}

/// Adds the ties of the event of this id, whose links these are.
///
/// # Errors
/// `NoMemory` where the list could not grow; it has some of the ties then.
pub fn push_ties(
    ties: &mut Vec<Tie>,
    id: Id,
    before: &[PackedLink],
    after: &[PackedLink],
) -> Result<(), NoMemory>
    ensures { OnOk result (ties.new.items ≡ ties.old.items ++ ties_around id before.now after.now) }
{
    for source in before {
        ties.push(Tie {
            from: source.link().id,
            to: id,
        })?;
    }
    for target in after {
        ties.push(Tie {
            from: id,
            to: target.link().id,
        })?;
    }
    Ok(())
}
