//! The nodes by rank, and the ranks by node.
//!
//! Either table takes 4 bytes a node and grows by a quarter, as the head comment of `walk` adds up.
ghost use Rattle.std.specs.Prelude.{◌≡◌, ◌<◌, ◌≤◌, ◌⊎◌, ◌+◌, ℕ, List, [], length};
ghost use Rattle.std.specs.Prelude.{slice_index, slice_set, IfOk};
ghost use Rattle.std.specs.Prelude.{OnOk, vec_len, vec_capacity};
ghost use Rattle.std.specs.List.{All, Contains};
ghost use Rattle.rv_rank.specs.Local.{IsLocal};
ghost use Rattle.rv_rank.specs.Found.{is_ahead_in, is_behind_in, slot_in};
ghost use Rattle.rv_rank.specs.Mended.{members_of, IsMended};
ghost use Rattle.rv_rank.specs.Plan.{members_in, IsPlan, IsRoster};
ghost use Rattle.rv_rank.specs.Order.{IsInverse};

use crate::search::Found;
use crate::walk::reserve_one;
use std::alloc::{AllocError, Global};
use std::marker::Model;

/// The ranks of the nodes, which are the numbers below their count, each once.
#[derive(Drop)]
pub struct Order {
    nodes: Vec<u32>,
    ranks: Vec<u32>,
}

impl Model for Order {
    ghost use Rattle.std.specs.Prelude.{List, ℕ, min, vec_capacity};
    ghost use Rattle.rv_rank.specs.Order.{IsInverse};
    ghost use Rattle.rv_rank.specs.Ordering.{Ordering};

    ghost Value = { Ordering };

    ghost view = { λ o. record {
      nodes = o.nodes.items;
      ranks = o.ranks.items;
      room = min (vec_capacity o.nodes) (vec_capacity o.ranks);
    } };

    ghost invariant = { λ o. IsInverse o.nodes.items o.ranks.items };
}

impl Order {
    pub fn new(alloc: Global) -> Self
        ensures nodes { result.nodes ≡ [] }
        ensures ranks { result.ranks ≡ [] }
    {
        Order {
            nodes: Vec::new(alloc),
            ranks: Vec::new(alloc),
        }
    }

    /// How many nodes there are.
    pub fn len(&self) -> usize
        ensures count { result ≡ length self.now.ranks }
        // What the two tables keep.
        ensures inverse { IsInverse self.now.nodes self.now.ranks }
    {
        self.ranks.len()
    }

    /// The rank of a node.
    pub fn rank(&self, node: u32) -> u32
        requires { node < length self.now.ranks }
        ensures value { result ≡ slice_index self.now.ranks node }
        ensures below { result < length self.now.ranks }
    {
        self.ranks[node as usize]
    }

    /// The node of a rank.
    pub fn node_at(&self, rank: usize) -> u32
        requires { rank < length self.now.ranks }
        ensures value { result ≡ slice_index self.now.nodes rank }
        ensures below { result < length self.now.ranks }
        ensures ranked { slice_index self.now.ranks result ≡ rank }
    {
        self.nodes[rank]
    }

    /// The nodes by rank, in a list of their own.
    pub fn nodes(&self, alloc: Global) -> Result<Vec<u32>, AllocError>
        ensures long { IfOk result (λ nodes. length nodes.items ≡ length self.now.ranks) }
        ensures ranked { IfOk result (λ nodes. (r : ℕ) → r < length self.now.ranks →
            slice_index self.now.ranks (slice_index nodes.items r) ≡ r) }
        ensures placed { IfOk result (λ nodes. (r : ℕ) → r < length self.now.ranks →
            slice_index nodes.items r < length self.now.ranks) }
    {
        Vec::from_slice(alloc, &self.nodes)
    }

    /// The least of the nodes' ranks, or the count where no node is given.
    pub fn least_rank(&self, nodes: &[u32]) -> usize
        requires { All (λ a. a < length self.now.ranks) nodes.now }
        ensures within { result ≤ length self.now.ranks }
        ensures least { All (λ a. result ≤ slice_index self.now.ranks a) nodes.now }
        ensures some { (result ≡ length self.now.ranks)
            ⊎ ((a : ℕ) × Contains nodes.now a × (slice_index self.now.ranks a ≡ result)) }
    {
        let mut least = self.ranks.len();
        for node in nodes {
            let rank = self.ranks[*node as usize] as usize;
            if rank < least {
                least = rank;
            }
        }
        least
    }

    /// Makes room for one node more. Nodes and ranks stay as they are.
    pub fn reserve(&mut self) -> Result<(), AllocError>
        ensures nodes { self.new.nodes ≡ self.old.nodes }
        ensures ranks { self.new.ranks ≡ self.old.ranks }
        ensures room { OnOk result (length self.new.ranks < self.new.room) }
    {
        reserve_one(&mut self.nodes)?;
        reserve_one(&mut self.ranks)?;
        Ok(())
    }

    /// Adds the new node, and gives the affected nodes and it their new ranks. There is room.
    pub fn mend(&mut self, found: &Found, visits: &[u32])
        requires small { length self.old.ranks < 65536 }
        requires plan { IsPlan found.now self.old.nodes self.old.ranks visits.now }
        requires room { length self.old.ranks < self.old.room }
        ensures { IsLocal (is_behind_in found.now self.old.ranks) (is_ahead_in found.now self.old.ranks)
            found.now.low self.old.ranks self.new.ranks }
    {
        place_members(&mut self.nodes, &mut self.ranks, found, visits);
    }
}

/// Writes the members at their new ranks. There is room for one node more.
fn place_members(nodes: &mut Vec<u32>, ranks: &mut Vec<u32>, found: &Found, visits: &[u32])
    requires inverse { IsInverse nodes.old.items ranks.old.items }
    requires small { length nodes.old.items < 65536 }
    requires plan { IsPlan found.now nodes.old.items ranks.old.items visits.now }
    requires room_nodes { vec_len nodes.old < vec_capacity nodes.old }
    requires room_ranks { vec_len ranks.old < vec_capacity ranks.old }
    ensures inverse { IsInverse nodes.new.items ranks.new.items }
    ensures local { IsLocal (is_behind_in found.now ranks.old.items)
        (is_ahead_in found.now ranks.old.items)
        found.now.low ranks.old.items ranks.new.items }
{
    ranks.push(nodes.len() as u32).unwrap();
    let last = mend_all(nodes, ranks, found, visits);
    nodes.push(last).unwrap();
}

/// Puts the members at their new ranks, but for the last, whose rank alone is written. The last is
/// answered.
fn mend_all(nodes: &mut [u32], ranks: &mut [u32], found: &Found, visits: &[u32]) -> u32
    requires small { length nodes.old < 65536 }
    requires roster { IsRoster found.now nodes.old ranks.old visits.now }
    ensures last { result ≡ slice_index (members_in found.now visits.now (length nodes.old))
        (length visits.now) }
    ensures mended { (mid : List ℕ) × (ranks.new ≡ slice_set mid result (length nodes.old))
        × IsMended (slot_in found.now)
        (members_in found.now visits.now (length nodes.old))
        nodes.old ranks.old nodes.new mid (length nodes.old) }
{
    mend(nodes, ranks, found, visits);
    let new = nodes.len() as u32;
    let last = member(visits, found.split, new, visits.len());
    ranks[last as usize] = new;
    last
}

/// Puts the members, in their order, at the ranks of the nodes that were found.
fn mend(nodes: &mut [u32], ranks: &mut [u32], found: &Found, visits: &[u32])
    requires small { length nodes.old < 65536 }
    requires roster { IsRoster found.now nodes.old ranks.old visits.now }
    ensures { IsMended (slot_in found.now)
        (members_in found.now visits.now (length nodes.old))
        nodes.old ranks.old nodes.new ranks.new (length nodes.old) }
{
    let new = nodes.len() as u32;
    let mut next = 0;
    let mut rank = found.low;
    'slots: while let Some(slot) = found.slots.first_from(rank) {
        let node = member(visits, found.split, new, next);
        nodes[slot] = node;
        ranks[node as usize] = slot as u32;
        next += 1;
        rank = slot + 1;
    }
}

/// A member by its place in the new order: those visited backward, last visit first, then the new
/// node, then those visited forward, which are the first `split` visits.
fn member(visits: &[u32], split: usize, new: u32, place: usize) -> u32
    requires split { split ≤ length visits.now }
    requires place { place ≤ length visits.now }
    ensures { result ≡ slice_index (members_of visits.now split new) place }
{
    let behind = visits.len() - split;
    if place < behind {
        visits[visits.len() - 1 - place]
    } else if place == behind {
        new
    } else {
        visits[place - behind - 1]
    }
}
