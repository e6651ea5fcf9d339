//! The search for the nodes that a placement affects, in passes over the ranks.
//!
//! The ranks respect the kept edges. So a pass by rising rank over the nodes found from the
//! successors meets each of them after all that lead to it, and a pass by falling rank over those
//! found from the predecessors meets each before all that lead to it. Neither pass needs a
//! worklist, and each node is visited once. No pass goes above the highest rank that was marked.
ghost use Rattle.std.specs.Prelude.{◌≡◌, ℕ, ◌<◌, [], ◌≤◌, ◌*◌, ◌++◌, length, reverse, true, false};
ghost use Rattle.std.specs.Prelude.{slice_index, IfOk, IfSome, OnOk, IfErr, OnErr, MatchOption};
ghost use Rattle.std.specs.List.{All, Contains, filter};
ghost use Rattle.rv_rows.specs.Bits.{Has, has_bit};
ghost use Rattle.rv_rank.specs.Graph.{IsOrder, IsTrail};
ghost use Rattle.rv_rank.specs.Order.{IsInverse};
ghost use Rattle.rv_rank.specs.Sets.{AreAdded, AreBelow, AreRanks, HasRoomFor, IsJoined, IsLowest, has_slot};
ghost use Rattle.rv_rank.specs.Sets.{IsSearched, IsTraced, OnlyAhead};
ghost use Rattle.rv_rank.specs.Found.{IsSameGraph, IsFound, found_behind, is_traced};
ghost use Rattle.rv_rank.specs.Placing.{IsRefusal, OnlyAffected};

use crate::order::Order;
use crate::ranks::Refused;
use crate::walk::Walk;
use rv_rows::BitSet;
use std::alloc::{AllocError, Global};

/// What a search found: the ranks of the affected nodes and the nodes behind, as sets, the least
/// rank of a successor, and how many of the visits were made forward. The set behind may have nodes
/// of lower ranks than `low`, which are not affected.
///
/// Each search takes out what the one before it found, and uses the room of the sets again.
#[derive(Drop)]
pub struct Found {
    pub low: usize,
    pub split: usize,
    pub behind: BitSet,
    pub slots: BitSet,
}

impl Found {
    /// Nothing, without room. It takes no memory.
    pub fn new(alloc: Global) -> Self
        ensures behind { (a : ℕ) → has_bit result.behind a ≡ false }
        ensures slots { (r : ℕ) → has_bit result.slots r ≡ false }
    {
        Found {
            low: 0,
            split: 0,
            behind: BitSet::new(alloc),
            slots: BitSet::new(alloc),
        }
    }

    /// Takes out what was found: of so many nodes none is affected.
    fn clear(&mut self, count: usize)
        ensures low { self.new.low ≡ count }
        ensures split { self.new.split ≡ 0 }
        ensures behind { (a : ℕ) → has_bit self.new.behind a ≡ false }
        ensures slots { (r : ℕ) → has_bit self.new.slots r ≡ false }
    {
        self.low = count;
        self.split = 0;
        self.behind.clear();
        self.slots.clear();
    }

    /// Makes room for so many nodes. The sets lose nothing.
    ///
    /// # Errors
    /// `AllocError` where the memory was refused.
    fn reserve(&mut self, count: usize) -> Result<(), AllocError>
        ensures behind { (a : ℕ) → has_bit self.new.behind a ≡ has_bit self.old.behind a }
        ensures slots { (r : ℕ) → has_bit self.new.slots r ≡ has_bit self.old.slots r }
        ensures room { OnOk result (HasRoomFor count self.new) }
    {
        self.behind.reserve(count)?;
        self.slots.reserve(count)?;
        Ok(())
    }
}

/// Searches the two sets that a placement affects, and puts what it found in place of what was
/// there. Neither the ranks nor the edges change.
///
/// Without successors it takes no memory, and no step but to take out what was found before.
pub fn search(
    alloc: Global,
    walk: &mut Walk,
    order: &Order,
    preds: &[u32],
    succs: &[u32],
    found: &mut Found,
) -> Result<(), Refused>
    requires ordered { IsOrder walk.old.edges order.now.ranks }
    requires inverse { IsInverse order.now.nodes order.now.ranks }
    requires preds { All (λ p. p < length order.now.ranks) preds.now }
    requires succs { All (λ s. s < length order.now.ranks) succs.now }
    requires begun { walk.old.visits ≡ [] }
    requires small { length order.now.ranks < 65536 }
    requires room { 2 * length walk.old.edges ≤ walk.old.room }
    ensures found { OnOk result (IsFound walk.old.edges order.now preds.now succs.now
        found.new walk.new.visits) }
    ensures refused { IfErr result (IsRefusal walk.old.edges preds.now succs.now) }
    ensures affected { OnErr result
        (OnlyAffected walk.old.edges order.now.ranks preds.now succs.now walk.new.visits) }
    ensures same { IsSameGraph walk.old walk.new }
{
    let count = order.len();
    found.clear(count);
    if succs.is_empty() {
        return Ok(());
    }
    found.reserve(count)?;
    let low = order.least_rank(succs);
    sweep_forward(walk, order, low, succs, &mut found.slots);
    let split = walk.visits().len();
    if let Some(end) = first_of(order, &found.slots, preds) {
        let path = trail(alloc, walk, order, succs, &found.slots, end)?;
        return Err(Refused::Circle(path));
    }
    sweep_backward(walk, order, low, preds, found);
    found.low = low;
    found.split = split;
    Ok(())
}

/// Puts the nodes into the set, which has room for them.
fn put_all(set: &mut BitSet, nodes: &[u32])
    requires { All (λ a. a < 64 * length set.old) nodes.now }
    ensures joined { IsJoined (has_bit set.old) (has_bit set.new) nodes.now }
    ensures room { length set.new ≡ length set.old }
{
    for node in nodes {
        set.insert(*node as usize);
    }
}

/// Puts the nodes into the set, which has room for all there are. Answers the rank behind the
/// highest of them, or `top` where that is higher.
fn put_below(order: &Order, set: &mut BitSet, nodes: &[u32], top: usize) -> usize
    requires room { length order.now.ranks ≤ 64 * length set.old }
    requires nodes { All (λ a. a < length order.now.ranks) nodes.now }
    requires below { AreBelow order.now.ranks set.old top }
    requires within { top ≤ length order.now.ranks }
    ensures joined { IsJoined (has_bit set.old) (has_bit set.new) nodes.now }
    ensures room { length set.new ≡ length set.old }
    ensures below { AreBelow order.now.ranks set.new result }
    ensures higher { top ≤ result }
    ensures within { result ≤ length order.now.ranks }
{
    let mut top = top;
    for node in nodes {
        set.insert(*node as usize);
        top = top.max(order.rank(*node) as usize + 1);
    }
    top
}

/// Puts the nodes' ranks among the slots, which have room for all there are.
fn put_ranks(order: &Order, slots: &mut BitSet, nodes: &[u32])
    requires inverse { IsInverse order.now.nodes order.now.ranks }
    requires room { length order.now.ranks ≤ 64 * length slots.old }
    requires nodes { All (λ a. a < length order.now.ranks) nodes.now }
    requires within { AreRanks order.now.ranks slots.old }
    ensures joined { IsJoined (has_slot order.now.ranks slots.old) (has_slot order.now.ranks slots.new)
        nodes.now }
    ensures within { AreRanks order.now.ranks slots.new }
    ensures room { length slots.new ≡ length slots.old }
{
    for node in nodes {
        slots.insert(order.rank(*node) as usize);
    }
}

/// Finds what edges reach from the successors, visits just those nodes, by rising rank, and puts
/// their ranks among the slots.
fn sweep_forward(walk: &mut Walk, order: &Order, low: usize, succs: &[u32], slots: &mut BitSet)
    requires ordered { IsOrder walk.old.edges order.now.ranks }
    requires inverse { IsInverse order.now.nodes order.now.ranks }
    requires succs { All (λ s. s < length order.now.ranks) succs.now }
    requires low { All (λ s. low ≤ slice_index order.now.ranks s) succs.now }
    requires within { low ≤ length order.now.ranks }
    requires empty { (r : ℕ) → has_bit slots.old r ≡ false }
    requires for_all { length order.now.ranks ≤ 64 * length slots.old }
    requires begun { walk.old.visits ≡ [] }
    requires small { length order.now.ranks < 65536 }
    requires room { 2 * length walk.old.edges ≤ walk.old.room }
    ensures searched { IsSearched walk.old.edges order.now.ranks succs.now low
        (has_slot order.now.ranks slots.new) (length order.now.ranks) }
    ensures visits { walk.new.visits ≡ filter (has_slot order.now.ranks slots.new) order.now.nodes }
    ensures same { IsSameGraph walk.old walk.new }
    ensures ranks { AreRanks order.now.ranks slots.new }
    ensures for_all { length order.now.ranks ≤ 64 * length slots.new }
{
    put_ranks(order, slots, succs);
    let mut rank = low;
    'ranks: while let Some(next) = slots.first_from(rank) {
        let node = order.node_at(next);
        put_ranks(order, slots, walk.forward(node));
        rank = next + 1;
    }
}

/// Finds what reaches the predecessors by edges from rank `low` up, visits those nodes of rank
/// `low` or above, by falling rank, and puts their ranks among the slots.
fn sweep_backward(walk: &mut Walk, order: &Order, low: usize, preds: &[u32], found: &mut Found)
    requires ordered { IsOrder walk.old.edges order.now.ranks }
    requires inverse { IsInverse order.now.nodes order.now.ranks }
    requires preds { All (λ p. p < length order.now.ranks) preds.now }
    requires within { low ≤ length order.now.ranks }
    requires empty { (a : ℕ) → has_bit found.old.behind a ≡ false }
    requires for_all { HasRoomFor (length order.now.ranks) found.old }
    requires few { length walk.old.visits ≤ length order.now.ranks }
    requires room { 2 * length walk.old.edges ≤ walk.old.room }
    ensures traced { IsTraced walk.old.edges order.now.ranks preds.now found.new.behind low }
    ensures visits { walk.new.visits
        ≡ walk.old.visits ++ reverse (found_behind low order.now found.new.behind) }
    ensures same { IsSameGraph walk.old walk.new }
    ensures nodes { (a : ℕ) → Has found.new.behind a → a < length order.now.ranks }
    ensures slots { AreAdded (is_traced low order.now.ranks found.new.behind) order.now.nodes
        found.old.slots found.new.slots }
{
    let end = put_below(order, &mut found.behind, preds, low);
    let mut rank = end;
    while rank > low {
        rank -= 1;
        let node = order.node_at(rank);
        if found.behind.has(node as usize) {
            found.slots.insert(rank);
            put_all(&mut found.behind, walk.backward(node));
        }
    }
}

/// The first of the nodes whose ranks are among the slots.
fn first_of(order: &Order, slots: &BitSet, nodes: &[u32]) -> Option<u32>
    requires { All (λ a. a < length order.now.ranks) nodes.now }
    ensures { MatchOption result
        (All (λ a. has_slot order.now.ranks slots.now a ≡ false) nodes.now)
        (λ a. Contains nodes.now a × (has_slot order.now.ranks slots.now a ≡ true)) }
{
    for node in nodes {
        if slots.has(order.rank(*node) as usize) {
            return Some(*node);
        }
    }
    None
}

/// Of the nodes whose ranks are among the slots, the one of the lowest rank.
fn lowest_of(order: &Order, slots: &BitSet, nodes: &[u32]) -> Option<u32>
    requires { All (λ a. a < length order.now.ranks) nodes.now }
    ensures found { MatchOption result
        (All (λ a. has_slot order.now.ranks slots.now a ≡ false) nodes.now)
        (λ a. Contains nodes.now a × (has_slot order.now.ranks slots.now a ≡ true)) }
    ensures lowest { IfSome result (IsLowest order.now.ranks slots.now nodes.now) }
{
    let mut lowest = first_of(order, slots, nodes)?;
    for node in nodes {
        let rank = order.rank(*node);
        if slots.has(rank as usize) && rank < order.rank(lowest) {
            lowest = *node;
        }
    }
    Some(lowest)
}

/// A way on which edges lead from a successor to `end`, which was found forward. Each node but the
/// first is led to from that of the lowest rank that was found, so the way leaves out what it can.
fn trail(
    alloc: Global,
    walk: &mut Walk,
    order: &Order,
    succs: &[u32],
    slots: &BitSet,
    end: u32,
) -> Result<Vec<u32>, AllocError>
    requires ordered { IsOrder walk.old.edges order.now.ranks }
    requires searched { (low : ℕ) × IsSearched walk.old.edges order.now.ranks succs.now low
        (has_slot order.now.ranks slots.now) (length order.now.ranks) }
    requires found { has_slot order.now.ranks slots.now end ≡ true }
    requires affected { OnlyAhead walk.old.edges order.now.ranks succs.now walk.old.visits }
    requires few { length walk.old.visits ≤ length order.now.ranks }
    requires room { 2 * length walk.old.edges ≤ walk.old.room }
    ensures trail { IfOk result (λ path. IsTrail walk.old.edges succs.now end path.items) }
    ensures affected { OnlyAhead walk.old.edges order.now.ranks succs.now walk.new.visits }
    ensures same { IsSameGraph walk.old walk.new }
{
    let mut path = Vec::new(alloc);
    path.push(end)?;
    let mut node = end;
    while !succs.contains(&node) {
        let Some(from) = lowest_of(order, slots, walk.backward(node)) else {
            unreachable!()
        };
        path.push(from)?;
        node = from;
    }
    path.reverse();
    Ok(path)
}
