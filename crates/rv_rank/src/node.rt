//! A node's neighbours, in one list.
ghost use Rattle.std.specs.Prelude.{◌≡◌, ◌<◌, ◌≤◌, ◌+◌, ◌*◌, ◌++◌, [], ◌∷◌, length, max, IfOk, OnOk, OnErr};
ghost use Rattle.rv_rank.specs.Rows.{degree, row_of, other};

use smallvec::SmallVec;
use std::alloc::{AllocError, Global};
use std::marker::Model;

/// How many neighbours a node has room for without an allocation.
const INLINE: usize = 12;

/// A side of a node: the nodes that an edge leads from, or those that one leads to.
#[derive(Clone, Copy, Debug)]
pub(crate) enum Side {
    Incoming,
    Outgoing,
}

/// The neighbours of a node: its predecessors, and then its successors.
///
/// Contracts see the two rows, and how many neighbours there is room for.
#[derive(Drop)]
pub(crate) struct Node {
    neighbours: SmallVec<u32, INLINE>,
    /// How many of the neighbours are predecessors.
    split: usize,
}

impl Model for Node {
    ghost use Rattle.std.specs.Prelude.{◌≤◌, take, drop, length};
    ghost use Rattle.rv_rank.specs.Rows.{Neighbours};

    ghost Value = { Neighbours };

    ghost view = { λ n. record {
      incoming = take n.split n.neighbours.items;
      outgoing = drop n.split n.neighbours.items;
      room = n.neighbours.capacity;
    } };

    ghost invariant = { λ n. n.split ≤ length n.neighbours.items };
}

impl Node {
    /// A node with its neighbours. It has room for twelve, or for twice its neighbours where these
    /// are more than twelve. The only error is out of memory.
    pub(crate) fn new(alloc: Global, preds: &[u32], succs: &[u32]) -> Result<Self, AllocError>
        ensures incoming { IfOk result (λ n. n.incoming ≡ preds.now) }
        ensures outgoing { IfOk result (λ n. n.outgoing ≡ succs.now) }
    {
        let count = preds.len() + succs.len();
        let mut neighbours = SmallVec::new(alloc);
        if count > INLINE {
            neighbours.reserve_exact(2 * count)?;
        }
        neighbours.extend_from_slice(preds)?;
        neighbours.extend_from_slice(succs)?;
        Ok(Node {
            neighbours,
            split: preds.len(),
        })
    }

    /// The nodes that an edge leads from.
    pub(crate) fn incoming(&self) -> &[u32]
        ensures { result.now ≡ self.now.incoming }
    {
        &self.neighbours.as_slice()[..self.split]
    }

    /// The nodes that an edge leads to.
    pub(crate) fn outgoing(&self) -> &[u32]
        ensures { result.now ≡ self.now.outgoing }
    {
        &self.neighbours.as_slice()[self.split..]
    }

    /// Makes room for so many neighbours more. A list that lacks it becomes twice as long, or as
    /// much longer as is asked for. Out of memory, the only error, leaves all as it was.
    pub(crate) fn reserve(&mut self, more: usize) -> Result<(), AllocError>
        ensures incoming { self.new.incoming ≡ self.old.incoming }
        ensures outgoing { self.new.outgoing ≡ self.old.outgoing }
        ensures room { OnOk result (degree self.new + more ≤ self.new.room) }
        ensures kept { self.old.room ≤ self.new.room }
        ensures few { self.new.room ≤ max self.old.room (degree self.old + max (degree self.old) more) }
        ensures err { OnErr result (self.new ≡ self.old) }
    {
        let count = self.neighbours.len();
        if self.neighbours.capacity() - count < more {
            self.neighbours.reserve_exact(count.max(more))?;
        }
        Ok(())
    }

    /// The nodes on this side.
    pub(crate) fn row(&self, side: Side) -> &[u32]
        ensures { result.now ≡ row_of side self.now }
    {
        match side {
            Side::Incoming => self.incoming(),
            Side::Outgoing => self.outgoing(),
        }
    }

    /// Puts a node at the end of those on this side. There is room.
    pub(crate) fn append(&mut self, side: Side, node: u32)
        requires { degree self.old < self.old.room }
        ensures appended { row_of side self.new ≡ row_of side self.old ++ node ∷ [] }
        ensures other { row_of (other side) self.new ≡ row_of (other side) self.old }
        ensures kept { self.old.room ≤ self.new.room }
    {
        match side {
            Side::Incoming => {
                let successors = self.neighbours.len() - self.split;
                self.neighbours.insert(self.split, node).unwrap();
                self.split = self.neighbours.len() - successors;
            }
            Side::Outgoing => self.neighbours.push(node).unwrap(),
        }
    }
}
