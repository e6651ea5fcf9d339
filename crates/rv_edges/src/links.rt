//! Lists of links.
ghost use Rattle.std.specs.Prelude.{◌≡◌, ◌≢◌, ◌++◌, ◌∷◌, [], IfOk, OnOk, OnErr, ◌≤◌, length, take};
ghost use Rattle.std.specs.List.{flat_map};
ghost use Rattle.rv_event.specs.Log.{events};
ghost use Rattle.rv_edges.specs.Kept.{kept_from};
ghost use Rattle.rv_edges.specs.OwnLinks.{OwnLinks, own_from, total};
ghost use Rattle.rv_edges.specs.Ties.{ties_of};

use crate::packed_link::{PackedLink, push_links};
use crate::ties::{Tie, push_ties};
use rv_event::{Entry, Link, NoMemory};
use std::alloc::Global;
use std::marker::Model;

/// Links, seen by contracts as their list.
#[derive(Drop, Debug)]
pub struct Links {
    items: Vec<Link>,
}

impl Model for Links {
    ghost use Rattle.std.specs.Prelude.{List};
    ghost use Rattle.rv_event.specs.declared.reason.Link.{Link};

    ghost Value = { List Link };

    ghost view = { λ l. l.items.items };
}

impl Links {
    /// Takes a vector over. It takes no memory.
    pub fn from_vec(items: Vec<Link>) -> Self
        ensures { result ≡ items.items }
    {
        Links { items }
    }

    /// The vector of them.
    pub fn into_vec(self) -> Vec<Link>
        ensures { result.items ≡ self }
    {
        self.items
    }

    /// The links, in order.
    pub fn as_slice(&self) -> &[Link]
        ensures { result.now ≡ self.now }
    {
        self.items.as_slice()
    }
}

/// How many links an event has on each side.
#[derive(Clone, Copy, Debug)]
pub struct Sides {
    /// From events before it.
    pub before: u32,
    /// To events before it.
    pub after: u32,
}

impl Sides {
    /// Those of an event with these links.
    ///
    /// # Errors
    /// `NoMemory` where a side has 2^32 links or more, as a count has four bytes.
    fn of(before: &[Link], after: &[Link]) -> Result<Sides, NoMemory>
        ensures { IfOk result (λ s. s ≡ record { before = length before.now; after = length after.now }) }
    {
        match (u32::try_from(before.len()), u32::try_from(after.len())) {
            (Ok(before), Ok(after)) => Ok(Sides { before, after }),
            _ => Err(NoMemory),
        }
    }
}

/// The links of each event of a history: all in one list, and for each event how many there are of
/// it.
#[derive(Drop)]
pub struct KeptLinks {
    links: Vec<PackedLink>,
    sides: Vec<Sides>,
}

impl Model for KeptLinks {
    ghost use Rattle.std.specs.Prelude.{◌≡◌, List, length};
    ghost use Rattle.rv_edges.specs.OwnLinks.{OwnLinks, own_from, total};

    ghost Value = { List OwnLinks };

    ghost view = { λ k. own_from k.links.items k.sides.items };

    ghost invariant = { λ k. total k.sides.items ≡ length k.links.items };
}

impl KeptLinks {
    /// Those of no events. It takes no memory.
    pub fn new(alloc: Global) -> KeptLinks
        ensures { result ≡ [] }
    {
        KeptLinks {
            links: Vec::new(alloc),
            sides: Vec::new(alloc),
        }
    }

    /// All links, one event after the other.
    ///
    /// # Errors
    /// `NoMemory` where the list could not be had.
    pub fn all(&self, alloc: Global) -> Result<Vec<Link>, NoMemory>
        ensures { IfOk result (λ links. links.items ≡ flat_map (λ own. own.before ++ own.after) self.now) }
    {
        unpacked(alloc, self.links.as_slice())
    }

    /// All links with both of their ends, one event of the log after the other.
    ///
    /// # Errors
    /// `NoMemory` where the list could not be had.
    pub fn ties(&self, alloc: Global, log: &[Entry]) -> Result<Vec<Tie>, NoMemory>
        requires { length log.now ≡ length self.now }
        ensures { IfOk result (λ ties. ties.items ≡ ties_of (kept_from (events log.now) self.now)) }
    {
        let links = self.links.as_slice();
        let sides = self.sides.as_slice();
        ties_from(alloc, log, links, sides)
    }

    /// Adds those of one event more.
    ///
    /// # Errors
    /// `NoMemory` where a list could not grow, where a side has 2^32 links or more, and where the
    /// number of a link's event within its hart is above 65,535; nothing changes.
    #[inline(always)]
    pub fn append(&mut self, before: &[Link], after: &[Link]) -> Result<(), NoMemory>
        ensures pushed { OnOk result (self.new ≡ self.old ++ record { before = before.now; after = after.now } ∷ []) }
        ensures unchanged { OnErr result (self.new ≡ self.old) }
    {
        let sides = Sides::of(before, after)?;
        self.sides.reserve(1)?;
        let count = self.links.len();
        let packed = push_both(&mut self.links, before, after);
        if let Err(NoMemory) = packed {
            self.links.truncate(count);
            return Err(NoMemory);
        }
        self.sides.push_reserved(sides);
        Ok(())
    }

    /// Takes those of the last event off. It takes no memory.
    #[inline(never)]
    pub fn drop_last(&mut self)
        requires { self.old ≢ [] }
        ensures { (own : OwnLinks) × (self.old ≡ self.new ++ own ∷ []) }
    {
        if let Some(last) = self.sides.pop() {
            let left = self.links.len() - last.before as usize - last.after as usize;
            self.links.truncate(left);
        }
    }
}

/// Puts the one list's links and then the other's behind those that the list has.
///
/// # Errors
/// `NoMemory` where a link could not be kept; the list may have some of them then.
#[inline(always)]
fn push_both(list: &mut Vec<PackedLink>, before: &[Link], after: &[Link]) -> Result<(), NoMemory>
    ensures pushed { OnOk result (list.new.items ≡ list.old.items ++ (before.now ++ after.now)) }
    ensures kept { take (length list.old.items) list.new.items ≡ list.old.items }
{
    push_links(list, before)?;
    push_links(list, after)
}

/// The links in a list of their own.
fn unpacked(alloc: Global, packed: &[PackedLink]) -> Result<Vec<Link>, NoMemory>
    ensures { IfOk result (λ links. links.items ≡ packed.now) }
{
    let mut links = Vec::with_capacity(alloc, packed.len())?;
    for link in packed {
        links.push(link.link())?;
    }
    Ok(links)
}

/// The links with both of their ends: so many are of the first entry, and so on.
fn ties_from(
    alloc: Global,
    log: &[Entry],
    links: &[PackedLink],
    sides: &[Sides],
) -> Result<Vec<Tie>, NoMemory>
    requires long { length sides.now ≤ length log.now }
    requires total { total sides.now ≡ length links.now }
    ensures { IfOk result (λ ties. ties.items ≡ ties_of (kept_from (events log.now) (own_from links.now sides.now))) }
{
    let mut ties = Vec::with_capacity(alloc, links.len())?;
    let mut rest = links;
    for k in 0..sides.len() {
        let (before, others) = rest.split_at(sides[k].before as usize);
        let (after, others) = others.split_at(sides[k].after as usize);
        push_ties(&mut ties, log[k].event.id, before, after)?;
        rest = others;
    }
    Ok(ties)
}
