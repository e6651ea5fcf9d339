//! An order keeper: it keeps the nodes of a growing graph in an order in which each edge goes
//! forward.
//!
//! A node is placed together with its edges from older nodes (its predecessors) and to older nodes
//! (its successors). Where the new edges would close a circle, a path of kept edges from a
//! successor to a predecessor is given in place of a new order. The crate stands on the sets of
//! `rv_rows`.
//!
//! The one contract above it is that of `Ranks::place`: each edge goes from the lower rank to the
//! higher, or a path shows a circle; only the affected nodes have new ranks, and only they are
//! visited.
//!
//! The search for the affected nodes follows David J. Pearce and Paul H. J. Kelly, "A dynamic
//! topological sort algorithm for directed acyclic graphs", ACM Journal of Experimental
//! Algorithmics 11 (2006). In place of a worklist it goes over the ranks in order, since the ranks
//! respect the kept edges already.
#![tactic(auto)]

mod node;
mod order;
mod ranks;
mod search;
mod walk;

pub use ranks::{Placed, Ranks, Refused};
pub use walk::Walk;
