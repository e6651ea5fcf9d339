//! The edges of a growing graph, and the list of visits by which alone they are read.
//!
//! # Memory
//!
//! An order keeper takes at most 110 bytes a node and 16 an edge, both directions together and the
//! allocator's own aside. A node has 88 bytes: 72 for its list, which has twelve neighbours in
//! place, and the count of its predecessors here, two places of 4 in the list of visits, and a place
//! of 4 in either table of the order. A full table grows by a quarter and one, so it has room for at
//! most five quarters of its items and one more, and the 88 bytes become 110. An edge has 4 bytes in
//! the list of either end. A list of more than twelve neighbours lies outside of its node, and a
//! full one becomes twice as long, which makes the 8 bytes 16. The list of a successor becomes so
//! where it has room for one alone, since a successor may be a predecessor too. Where one call names
//! an edge twice, both mentions count.
//!
//! Beyond this are some 200 bytes for each keeper, room that a refused placement made in vain, and,
//! until a call returns, the two sets of a placement with successors, a bit for each node in either,
//! the path that `Circle` gives, and the old block of a table or a list that grows.
ghost use Rattle.std.specs.Prelude.{◌≡◌, ◌<◌, ◌≤◌, ◌+◌, ◌*◌, ◌%◌, ◌-◌, ◌^◌, ◌↔◌, ◌++◌, ℕ, [], ◌∷◌, length};
ghost use Rattle.std.specs.Prelude.{slice_index_or, max, ◌/◌, vec_len, vec_capacity, IsTrue, OnOk, OnErr};
ghost use Rattle.std.specs.List.{All, Contains};
ghost use Rattle.std.specs.Borrow.{sem};
ghost use Rattle.rv_rank.specs.Graph.{Edge, IsGrown};
ghost use Rattle.rv_rank.specs.Rows.{outgoing_of, incoming_of, rows_of, other, HasRoom, KeepsRoom};
ghost use Rattle.rv_rank.specs.Rows.{IsAppended, EndsIn};
ghost use Rattle.rv_rank.specs.Walking.{IsMirror};

use crate::node::{Node, Side};
use std::alloc::{AllocError, Global};
use std::marker::Model;

/// A graph whose edges are read node by node, by visits that it lists.
///
/// Nodes are numbers from 0 in the order in which they were added. A round begins with `begin`, and
/// each read of a node's edges after it, in either direction, puts the node at the end of the list
/// of visits.
#[derive(Drop)]
pub struct Walk {
    alloc: Global,
    nodes: Vec<Node>,
    visits: Vec<u32>,
    rounds: u64,
}

impl Model for Walk {
    ghost use Rattle.std.specs.Prelude.{ℕ, vec_capacity};
    ghost use Rattle.rv_rank.specs.Rows.{outgoing_of, incoming_of};
    ghost use Rattle.rv_rank.specs.Walking.{Walking, IsMirror};

    ghost Value = { Walking };

    ghost view = { λ w. record {
      edges = outgoing_of w.nodes.items;
      visits = w.visits.items;
      rounds = w.rounds;
      room = vec_capacity w.visits;
    } };

    ghost invariant = { λ w. IsMirror (outgoing_of w.nodes.items) (incoming_of w.nodes.items) };
}

impl Walk {
    ghost use Rattle.rv_rank.specs.Visits.{EndsVisited};

    /// No node and no round. Takes no memory.
    pub fn new(alloc: Global) -> Self
        ensures edges { result.edges ≡ [] }
        ensures visits { result.visits ≡ [] }
        ensures rounds { result.rounds ≡ 0 }
    {
        Walk {
            alloc,
            nodes: Vec::new(alloc),
            visits: Vec::new(alloc),
            rounds: 0,
        }
    }

    /// Begins a round: makes room in the list of visits for two visits of each node, empties it,
    /// and adds one to `rounds`, wrapping. Out of memory, the only error, leaves all as it was.
    pub fn begin(&mut self) -> Result<(), AllocError>
        ensures edges { self.new.edges ≡ self.old.edges }
        ensures visits { OnOk result (self.new.visits ≡ []) }
        ensures room { OnOk result (2 * length self.old.edges ≤ self.new.room) }
        ensures rounds { OnOk result (self.new.rounds ≡ (self.old.rounds + 1) % 2 ^ 64) }
        ensures err { OnErr result (self.new ≡ self.old) }
    {
        let wanted = 2 * self.nodes.len();
        if wanted > self.visits.capacity() {
            let more = wanted + wanted / 4 - self.visits.len();
            self.visits.try_reserve_exact(more)?;
        }
        self.visits.clear();
        self.rounds = self.rounds.wrapping_add(1);
        Ok(())
    }

    /// The nodes visited since the last `begin`, in the order of the visits.
    pub fn visits(&self) -> &[u32]
        ensures { result.now ≡ self.now.visits }
    {
        self.visits.as_slice()
    }

    /// How many rounds were begun, wrapping.
    pub fn rounds(&self) -> u64
        ensures { result ≡ self.now.rounds }
    {
        self.rounds
    }

    /// How many nodes there are.
    pub fn len(&self) -> usize
        ensures { result ≡ length self.now.edges }
    {
        self.nodes.len()
    }

    /// Whether there is no node.
    pub fn is_empty(&self) -> bool
        ensures { IsTrue result ↔ (self.now.edges ≡ []) }
    {
        self.nodes.is_empty()
    }

    /// Adds the next node, with an edge from each of `preds` and one to each of `succs`. The visits
    /// stay. Out of memory, the only error, leaves all as it was.
    pub fn add(&mut self, preds: &[u32], succs: &[u32]) -> Result<(), AllocError>
        requires preds { All (λ p. p < length self.old.edges) preds.now }
        requires succs { All (λ s. s < length self.old.edges) succs.now }
        requires small { length self.old.edges < 65536 }
        ensures ok { OnOk result (IsGrown self.old.edges self.new.edges preds.now succs.now) }
        ensures visits { self.new.visits ≡ self.old.visits }
        ensures rounds { self.new.rounds ≡ self.old.rounds }
        ensures room { self.new.room ≡ self.old.room }
        ensures err { OnErr result (self.new ≡ self.old) }
    {
        grow(self.alloc, &mut self.nodes, preds, succs)
    }

    /// The nodes that an edge leads to from `node`, which is put at the end of the list of visits.
    /// The list is shorter than the room that `begin` made. Takes no memory.
    pub fn forward(&mut self, node: u32) -> &[u32]
        requires placed { node < length self.old.edges }
        requires room { length self.old.visits < self.old.room }
        ensures* visited { sem 𝓛 (EndsVisited self.entry node) }
        ensures value { result.now ≡ slice_index_or self.old.edges node [] }
    {
        self.visits.push(node).unwrap();
        self.nodes[node as usize].outgoing()
    }

    /// The nodes that an edge leads from to `node`, which is put at the end of the list of visits.
    /// The list is shorter than the room that `begin` made. Takes no memory.
    pub fn backward(&mut self, node: u32) -> &[u32]
        requires placed { node < length self.old.edges }
        requires room { length self.old.visits < self.old.room }
        ensures* visited { sem 𝓛 (EndsVisited self.entry node) }
        ensures value { (a : ℕ) → Contains result.now a ↔ Edge self.old.edges a node }
    {
        self.visits.push(node).unwrap();
        self.nodes[node as usize].incoming()
    }
}

/// Adds a node. All room is made before anything is written.
fn grow(
    alloc: Global,
    nodes: &mut Vec<Node>,
    preds: &[u32],
    succs: &[u32],
) -> Result<(), AllocError>
    requires mirror { IsMirror (outgoing_of nodes.old.items) (incoming_of nodes.old.items) }
    requires preds { All (λ p. p < length nodes.old.items) preds.now }
    requires succs { All (λ s. s < length nodes.old.items) succs.now }
    requires small { length nodes.old.items < 65536 }
    ensures grown { OnOk result
        (IsGrown (outgoing_of nodes.old.items) (outgoing_of nodes.new.items) preds.now succs.now) }
    ensures mirror { IsMirror (outgoing_of nodes.new.items) (incoming_of nodes.new.items) }
    ensures err { OnErr result (outgoing_of nodes.new.items ≡ outgoing_of nodes.old.items) }
{
    let own = Node::new(alloc, preds, succs)?;
    prepare(nodes, preds, succs)?;
    add_node(nodes, preds, succs, own);
    Ok(())
}

/// Makes room for one node more, for one neighbour more of each predecessor, and for two of each
/// successor, which may be a predecessor too.
fn prepare(nodes: &mut Vec<Node>, preds: &[u32], succs: &[u32]) -> Result<(), AllocError>
    requires preds { All (λ p. p < length nodes.old.items) preds.now }
    requires succs { All (λ s. s < length nodes.old.items) succs.now }
    ensures outgoing { outgoing_of nodes.new.items ≡ outgoing_of nodes.old.items }
    ensures incoming { incoming_of nodes.new.items ≡ incoming_of nodes.old.items }
    ensures preds { OnOk result (All (HasRoom nodes.new.items 1) preds.now) }
    ensures succs { OnOk result (All (HasRoom nodes.new.items 2) succs.now) }
    ensures more { OnOk result (vec_len nodes.new < vec_capacity nodes.new) }
{
    reserve_one(nodes)?;
    make_room(nodes, preds, 1)?;
    make_room(nodes, succs, 2)?;
    Ok(())
}

/// Adds a node after its predecessors and before its successors. There is room.
fn add_node(nodes: &mut Vec<Node>, preds: &[u32], succs: &[u32], own: Node)
    requires mirror { IsMirror (outgoing_of nodes.old.items) (incoming_of nodes.old.items) }
    requires placed { All (λ p. p < length nodes.old.items) preds.now }
    requires ahead { All (λ s. s < length nodes.old.items) succs.now }
    requires small { length nodes.old.items < 65536 }
    requires preds { All (HasRoom nodes.old.items 1) preds.now }
    requires succs { All (HasRoom nodes.old.items 2) succs.now }
    requires more { vec_len nodes.old < vec_capacity nodes.old }
    ensures outgoing { IsGrown (outgoing_of nodes.old.items) (outgoing_of nodes.new.items) preds.now own.outgoing }
    ensures incoming { IsGrown (incoming_of nodes.old.items) (incoming_of nodes.new.items) succs.now own.incoming }
{
    let node = nodes.len() as u32;
    add_to(nodes, preds, node, Side::Outgoing);
    add_to(nodes, succs, node, Side::Incoming);
    append(nodes, own);
}

/// Puts an item at the end, where there is room for it.
fn append<T: Drop>(list: &mut Vec<T>, item: T)
    requires { vec_len list.old < vec_capacity list.old }
    ensures { list.new.items ≡ list.old.items ++ item ∷ [] }
{
    let Ok(()) = list.push(item) else {
        unreachable!()
    };
}

/// Whether a row's last item is this node.
fn ends_in(row: &[u32], node: u32) -> bool
    ensures { IsTrue result ↔ EndsIn row.now node }
{
    match row.last() {
        Some(last) => *last == node,
        None => false,
    }
}

/// Makes room for so many neighbours more of each of the nodes.
fn make_room(nodes: &mut [Node], places: &[u32], more: usize) -> Result<(), AllocError>
    requires { All (λ p. p < length nodes.old) places.now }
    ensures outgoing { outgoing_of nodes.new ≡ outgoing_of nodes.old }
    ensures incoming { incoming_of nodes.new ≡ incoming_of nodes.old }
    ensures kept { KeepsRoom nodes.old nodes.new }
    ensures room { OnOk result (All (HasRoom nodes.new more) places.now) }
{
    for place in places {
        nodes[*place as usize].reserve(more)?;
    }
    Ok(())
}

/// Puts `node` at the end of the neighbours of each of these nodes on this side, once.
fn add_to(nodes: &mut [Node], places: &[u32], node: u32, side: Side)
    requires placed { All (λ p. p < length nodes.old) places.now }
    requires room { All (HasRoom nodes.old 1) places.now }
    requires fresh { All (λ row. All (λ a. a < node) row) (rows_of side nodes.old) }
    ensures appended { IsAppended (rows_of side nodes.old) (rows_of side nodes.new) places.now node }
    ensures other { rows_of (other side) nodes.new ≡ rows_of (other side) nodes.old }
    ensures kept { KeepsRoom nodes.old nodes.new }
{
    for place in places {
        let neighbour = &mut nodes[*place as usize];
        if !ends_in(neighbour.row(side), node) {
            neighbour.append(side, node);
        }
    }
}

/// Makes room for one item more. A full list grows by a quarter and one.
pub fn reserve_one<T>(list: &mut Vec<T>) -> Result<(), AllocError>
    ensures items { list.new.items ≡ list.old.items }
    ensures room { OnOk result (vec_len list.new < vec_capacity list.new) }
    ensures kept { vec_capacity list.old ≤ vec_capacity list.new }
    ensures few { vec_capacity list.new
        ≤ max (vec_capacity list.old) (vec_len list.old + vec_len list.old / 4 + 1) }
{
    if list.len() == list.capacity() {
        list.reserve_exact(list.len() / 4 + 1)?;
    }
    Ok(())
}
