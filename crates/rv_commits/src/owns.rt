//! The last store of a hart to each word.
ghost use Rattle.std.specs.Prelude.{◌≡◌, ◌++◌, ◌∷◌, [], List, OnErr, OnOk, nat_eq};
ghost use Rattle.std.specs.HashMap.{get};
ghost use Rattle.rv_log.specs.declared.record.Retired.{Retired};
ghost use Rattle.rv_commits.specs.Owns.{AreOwns, IsLastStore, does_store};

use crate::made::made_by;
use rv_log::Retired;
use std::alloc::{AllocError, Global};
use std::collections::HashMap;

/// Whether an instruction makes a store: it is one, an AMO, or a store-conditional that stored.
pub fn does_store(instruction: &Retired) -> bool
    ensures { result ≡ does_store instruction.now }
{
    match made_by(instruction) {
        Some(made) => made.op.is_store(),
        None => false,
    }
}

/// The last store of a hart to each word. Contracts see the fields.
#[derive(Drop)]
pub struct Owns {
    /// The order of the store, by the address of its word.
    pub lasts: HashMap<u64, u64>,
}

impl Owns {
    /// No stores. It takes no memory.
    pub fn new(alloc: Global) -> Owns
        ensures { AreOwns [] result }
    {
        Owns {
            lasts: HashMap::new(alloc),
        }
    }

    /// The order of the hart's last store to the word that begins at the address.
    pub fn last(&self, address: u64) -> Option<u64>
        ensures { (done : List Retired) → AreOwns done self.now → IsLastStore done address result }
    {
        self.lasts.get(&address).copied()
    }

    /// Takes the hart's next instruction.
    ///
    /// # Errors
    /// Memory ran out. The stores are those of before.
    pub fn add(&mut self, instruction: &Retired) -> Result<(), AllocError>
        ensures added { (done : List Retired) → AreOwns done self.old
            → OnOk result (AreOwns (done ++ instruction.now ∷ []) self.new) }
        ensures kept { (done : List Retired) → AreOwns done self.old
            → OnErr result (AreOwns done self.new) }
    {
        if does_store(instruction) {
            self.lasts.insert(instruction.address, instruction.order)?;
        }
        Ok(())
    }
}
