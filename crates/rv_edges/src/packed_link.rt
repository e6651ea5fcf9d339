//! A link, as it is kept.
ghost use Rattle.std.specs.Prelude.{◌≡◌, ◌<◌, ◌++◌, IfOk, OnOk, OnErr, length, take};

use rv_event::{Id, Link, NoMemory, Reason};
use std::marker::Model;

/// A link with two bytes for the number of its event within a hart, which has at most 4,096 events.
///
/// Contracts see the link.
#[derive(Drop)]
pub struct PackedLink {
    seq: u16,
    hart: u8,
    reason: Reason,
}

impl Model for PackedLink {
    ghost use Rattle.rv_event.specs.declared.reason.Link.{Link};

    ghost Value = { Link };

    ghost view = { λ p. record { id = record { hart = p.hart; seq = p.seq }; reason = p.reason } };
}

impl PackedLink {
    /// The link, to be kept.
    ///
    /// # Errors
    /// `NoMemory` where the number of its event within the hart is above 65,535.
    pub fn of(link: Link) -> Result<PackedLink, NoMemory>
        ensures kept { IfOk result (λ packed. packed ≡ link) }
        ensures refused { OnErr result (65535 < link.id.seq) }
    {
        match u16::try_from(link.id.seq) {
            Ok(seq) => Ok(PackedLink {
                seq,
                hart: link.id.hart,
                reason: link.reason,
            }),
            Err(_) => Err(NoMemory),
        }
    }

    /// The link.
    pub fn link(&self) -> Link
        ensures { result ≡ self.now }
    {
        Link {
            id: Id {
                hart: self.hart,
                seq: u32::from(self.seq),
            },
            reason: self.reason,
        }
    }
}

/// Puts the links behind those that the list has.
///
/// # Errors
/// `NoMemory` where a link could not be kept; the list may have some of them then.
#[inline(always)]
pub fn push_links(list: &mut Vec<PackedLink>, links: &[Link]) -> Result<(), NoMemory>
    ensures pushed { OnOk result (list.new.items ≡ list.old.items ++ links.now) }
    ensures kept { take (length list.old.items) list.new.items ≡ list.old.items }
{
    list.reserve(links.len())?;
    for link in links {
        list.push(PackedLink::of(*link)?)?;
    }
    Ok(())
}
