//! The order keeper: an order of nodes in which each kept edge goes from the lower rank to the
//! higher.
//!
//! The new ranks of a placement follow David J. Pearce and Paul H. J. Kelly, "A dynamic topological
//! sort algorithm for directed acyclic graphs", ACM Journal of Experimental Algorithmics 11 (2006):
//! only the nodes of two sets, which the successors and the predecessors name, take other ranks,
//! and those are the ranks that the sets had, with the new greatest one.
ghost use Rattle.std.specs.Prelude.{◌≡◌, ◌<◌, ◌↔◌, ℕ, [], length, slice_index, IsTrue, IfOk, IfErr, OnErr};
ghost use Rattle.std.specs.List.{All};
ghost use Rattle.rv_rank.specs.Graph.{IsOrder};
ghost use Rattle.rv_rank.specs.declared.ranks.Refused.TheVariants.{NoMemory};

use crate::order::Order;
use crate::search::{Found, search};
use crate::walk::Walk;
use std::alloc::{AllocError, Global};
use std::marker::Model;

/// What placing a node did.
#[derive(Clone, Copy, Debug, PartialEq, Eq)]
pub struct Placed {
    /// The node's number, which is the count of the nodes before it.
    pub node: u32,
    /// How many older nodes have another rank than before.
    pub moved: u32,
    /// How many visits of nodes the two searches made.
    pub visited: u32,
}

/// Why a node was not placed. After either case ranks and edges are as they were.
#[derive(Debug, Drop)]
pub enum Refused {
    /// A path of kept edges from a successor to a predecessor, which names no node twice. With the
    /// new node's edges it would close a circle. A node that is both gives a path of that node
    /// alone.
    Circle(Vec<u32>),
    /// The allocator refused memory.
    NoMemory,
}

impl From<AllocError> for Refused {
    ghost from_gives = { λ _ e. e ≡ NoMemory };

    fn from(_e: AllocError) -> Refused {
        Refused::NoMemory
    }
}

/// The kept edges, and an order of the nodes in which each of them goes forward.
///
/// Nodes are numbered in the order in which they were placed, from 0, and there are at most 65,536.
/// The ranks are the numbers below the count of nodes, each once. Contracts see the edges, the
/// ranks by node, and the visits and rounds of the `Walk` by which alone the edges are read.
#[derive(Drop)]
pub struct Ranks {
    alloc: Global,
    walk: Walk,
    order: Order,
    found: Found,
}

impl Model for Ranks {
    ghost use Rattle.rv_rank.specs.Graph.{IsOrder};
    ghost use Rattle.rv_rank.specs.Ranking.{Ranking};

    ghost Value = { Ranking };

    ghost view = { λ r. record {
      edges = r.walk.edges;
      ranks = r.order.ranks;
      visits = r.walk.visits;
      rounds = r.walk.rounds;
    } };

    ghost invariant = { λ r. IsOrder r.walk.edges r.order.ranks };
}

impl Ranks {
    ghost use Rattle.rv_rank.specs.Placing.{IsPlacement, IsRefusal, IsRefusedRound};

    /// No node. Takes no memory; the later calls take theirs from `alloc`.
    pub fn new(alloc: Global) -> Self
        ensures edges { result.edges ≡ [] }
        ensures ranks { result.ranks ≡ [] }
        ensures visits { result.visits ≡ [] }
        ensures rounds { result.rounds ≡ 0 }
    {
        Ranks {
            alloc,
            walk: Walk::new(alloc),
            order: Order::new(alloc),
            found: Found::new(alloc),
        }
    }

    /// How many nodes there are. Takes no memory.
    pub fn len(&self) -> usize
        ensures count { result ≡ length self.now.ranks }
        // What each value of the type keeps.
        ensures ordered { IsOrder self.now.edges self.now.ranks }
    {
        self.order.len()
    }

    /// Whether there is no node. Takes no memory.
    pub fn is_empty(&self) -> bool
        ensures { IsTrue result ↔ (self.now.ranks ≡ []) }
    {
        self.len() == 0
    }

    /// The rank of a placed node, from 0. Takes no memory.
    pub fn rank(&self, node: u32) -> u32
        requires { node < length self.now.ranks }
        ensures { result ≡ slice_index self.now.ranks node }
    {
        self.order.rank(node)
    }

    /// Whether the one placed node is of a lower rank than the other. Takes no memory.
    pub fn before(&self, one: u32, other: u32) -> bool
        requires one { one < length self.now.ranks }
        requires other { other < length self.now.ranks }
        ensures { IsTrue result ↔ (slice_index self.now.ranks one < slice_index self.now.ranks other) }
    {
        self.order.rank(one) < self.order.rank(other)
    }

    /// The nodes by rank, from rank 0. The only error is out of memory.
    pub fn order(&self) -> Result<Vec<u32>, AllocError>
        ensures long { IfOk result (λ nodes. length nodes.items ≡ length self.now.ranks) }
        // At each place stands the node of that rank.
        ensures ranked { IfOk result (λ nodes. (r : ℕ) → r < length self.now.ranks →
            slice_index self.now.ranks (slice_index nodes.items r) ≡ r) }
        ensures placed { IfOk result (λ nodes. (r : ℕ) → r < length self.now.ranks →
            slice_index nodes.items r < length self.now.ranks) }
    {
        self.order.nodes(self.alloc)
    }

    /// Places the next node, with an edge from each predecessor and one to each successor.
    ///
    /// It is placed exactly where no successor reaches a predecessor by kept edges, a node reaching
    /// itself. Then only the new node and the affected nodes have new ranks: the successors and
    /// what they reach, and, from the least rank of a successor on, the predecessors and what
    /// reaches them. Together these have the old ranks of the affected nodes and the new greatest
    /// one. Each affected node is visited once, and no other. Without successors the node gets the
    /// greatest rank, and the call costs the length of its two lists.
    ///
    /// A list may name a node twice, which changes nothing in the ranks.
    ///
    /// # Errors
    /// `Circle` with a path from a successor to a predecessor, and `NoMemory` where memory was
    /// refused. After either ranks and edges are as they were. `rounds` has grown by one, wrapping,
    /// where the node was placed and at `Circle`; at `NoMemory` it may also be as it was.
    pub fn place(&mut self, preds: &[u32], succs: &[u32]) -> Result<Placed, Refused>
        requires preds { All (λ p. p < length self.old.ranks) preds.now }
        requires succs { All (λ s. s < length self.old.ranks) succs.now }
        requires room { length self.old.ranks < 65536 }
        ensures placed { IfOk result (IsPlacement self.old self.new preds.now succs.now) }
        ensures refused { IfErr result (IsRefusal self.old.edges preds.now succs.now) }
        ensures round { IfErr result (IsRefusedRound self.old self.new preds.now succs.now) }
        ensures edges { OnErr result (self.new.edges ≡ self.old.edges) }
        ensures ranks { OnErr result (self.new.ranks ≡ self.old.ranks) }
    {
        self.walk.begin()?;
        let node = self.order.len() as u32;
        search(
            self.alloc,
            &mut self.walk,
            &self.order,
            preds,
            succs,
            &mut self.found,
        )?;
        self.order.reserve()?;
        self.walk.add(preds, succs)?;
        self.order.mend(&self.found, self.walk.visits());
        let visited = self.walk.visits().len() as u32;
        Ok(Placed {
            node,
            moved: visited,
            visited,
        })
    }
}
