//! Nodes and ids: node k is the memory operation that came k-th.
ghost use Rattle.std.specs.Prelude.{◌≡◌, ◌<◌, ◌∷◌, ℕ, IfOk, OnOk, IsTrue, length, map, All};
ghost use Rattle.std.specs.List.{Contains};
ghost use Rattle.rv_event.specs.declared.reason.Link.{Link};
ghost use Rattle.rv_book.specs.Arranged.{at};
ghost use Rattle.rv_book.specs.Nodes.{HasNode, AreNodes};

use crate::hints::Hints;
use rv_event::{Id, Link, NoMemory};
use std::alloc::Global;

/// The node of the id: the one that was noted for it, where that is right, and else the one that a
/// search finds.
fn node_of(ids: &[Id], hints: &Hints, id: Id) -> u32
    requires has { HasNode ids.now id }
    requires small { length ids.now < 65536 }
    ensures low { result < length ids.now }
    ensures named { at ids.now result ≡ id }
{
    if let Some(node) = hints.get(id) {
        if is_at(ids, node, id) {
            return node;
        }
    }
    find_node(ids, id)
}

/// Whether the node is the id's.
fn is_at(ids: &[Id], node: u32, id: Id) -> bool
    ensures { IsTrue result → (node < length ids.now) × (at ids.now node ≡ id) }
{
    match ids.get(node as usize) {
        Some(other) => *other == id,
        None => false,
    }
}

/// The node of the id, by a search.
#[inline(never)]
fn find_node(ids: &[Id], id: Id) -> u32
    requires has { HasNode ids.now id }
    requires small { length ids.now < 65536 }
    ensures low { result < length ids.now }
    ensures named { at ids.now result ≡ id }
{
    for k in 0..ids.len() {
        if ids[k] == id {
            return k as u32;
        }
    }
    unreachable!()
}

/// Puts the nodes of the links' ids into the list, in place of what it had. It costs one look for
/// each link whose node was noted, and takes memory only where the list has to grow.
///
/// # Errors
/// `NoMemory` where it could not; the list has some of the nodes then.
#[inline(always)]
pub fn find_nodes(
    ids: &[Id],
    hints: &Hints,
    links: &[Link],
    nodes: &mut Vec<u32>,
) -> Result<(), NoMemory>
    requires has { (l : Link) → Contains links.now l → HasNode ids.now l.id }
    requires small { length ids.now < 65536 }
    ensures { OnOk result (AreNodes ids.now links.now nodes.new.items) }
{
    nodes.clear();
    for link in links {
        nodes.push(node_of(ids, hints, link.id))?;
    }
    Ok(())
}

/// The first id, and those of the path's nodes.
pub fn ids_of(alloc: Global, first: Id, ids: &[Id], path: &[u32]) -> Result<Vec<Id>, NoMemory>
    requires { All (λ a. a < length ids.now) path.now }
    ensures { IfOk result (λ walk. walk.items ≡ first ∷ map (at ids.now) path.now) }
{
    let mut walk = Vec::new(alloc);
    walk.push(first)?;
    for node in path {
        walk.push(ids[*node as usize])?;
    }
    Ok(walk)
}

/// The ids of the nodes.
pub fn ids_at(alloc: Global, ids: &[Id], nodes: &[u32]) -> Result<Vec<Id>, NoMemory>
    requires { All (λ a. a < length ids.now) nodes.now }
    ensures { IfOk result (λ found. found.items ≡ map (at ids.now) nodes.now) }
{
    let mut found = Vec::new(alloc);
    for node in nodes {
        found.push(ids[*node as usize])?;
    }
    Ok(found)
}
