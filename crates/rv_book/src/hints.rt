//! Where each id's node was noted: a guess that the reader checks.
ghost use Rattle.std.specs.Prelude.{◌≡◌, ◌<◌, ◌+◌, ◌^◌, [], OnOk, OnErr, Some, slice_get};
ghost use Rattle.rv_book.specs.Hinted.{place_of};

use rv_event::{Id, NoMemory};
use std::alloc::Global;
use std::marker::Model;

/// For each id the node that was noted for it: a table with 4,096 places a hart, 256 KiB for
/// sixteen full harts. A place where none was noted has any number.
#[derive(Drop)]
pub struct Hints {
    nodes: Vec<u32>,
}

impl Model for Hints {
    ghost use Rattle.std.specs.Prelude.{List, ℕ};

    ghost Value = { List ℕ };

    ghost view = { λ h. h.nodes.items };
}

impl Hints {
    /// An empty table. It takes no memory; the allocator serves the calls to come.
    pub fn new(alloc: Global) -> Hints
        ensures { result ≡ [] }
    {
        Hints {
            nodes: Vec::new(alloc),
        }
    }

    /// The number at the id's place, where the table reaches so far.
    pub fn get(&self, id: Id) -> Option<u32>
        ensures { result ≡ slice_get self.now (place_of id) }
    {
        match self.nodes.get(place(id)) {
            Some(node) => Some(*node),
            None => None,
        }
    }

    /// Notes the id's node.
    ///
    /// # Errors
    /// `NoMemory` where the table could not grow; it stays as it is.
    pub fn note(&mut self, id: Id, node: u32) -> Result<(), NoMemory>
        ensures noted { OnOk result (slice_get self.new (place_of id) ≡ Some node) }
        ensures unchanged { OnErr result (self.new ≡ self.old) }
    {
        let at = place(id);
        if at >= self.nodes.len() {
            self.nodes.resize(at + 1, 0)?;
        }
        self.nodes[at] = node;
        Ok(())
    }
}

/// The id's place in the table.
fn place(id: Id) -> usize
    ensures value { result ≡ place_of id }
    ensures small { result < 2 ^ 33 }
{
    4096 * id.hart as usize + id.seq as usize
}
