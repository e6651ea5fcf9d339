//! The versions of words by the values that they hold.
ghost use Rattle.std.specs.Prelude.{◌≡◌, ◌++◌, ◌∷◌, [], IfOk, List, OnOk};
ghost use Rattle.std.specs.HashMap.{get};
ghost use Rattle.rv_log.specs.declared.record.Performed.{Performed};
ghost use Rattle.rv_memory.specs.Stores.{AreStores, same_issuer as same_key};
ghost use Rattle.rv_values.specs.Index.{AreVersions, IsFoundWith, IsIndex, IsWrittenBy};
ghost use Rattle.rv_values.specs.Issues.{AreSingle};
ghost use Rattle.rv_values.specs.Memory.{IsMemory};
ghost use Rattle.rv_values.specs.declared.issues.Issued.{Issued};

use crate::issues::Issued;
use crate::memory::{Memory, low_bytes};
use rv_memory::Stores;
use std::alloc::{AllocError, Global};
use std::collections::HashMap;

/// The versions of a word that hold a value.
#[derive(Clone, Copy, PartialEq, Eq, Debug)]
pub enum Found {
    /// Just this one.
    One(u32),
    /// More than one.
    Several,
}

/// The versions that stores wrote, by the addresses of their words and the values that they hold.
/// Contracts see the field.
#[derive(Drop)]
pub struct Index {
    /// The versions of a word that hold a value, by its address and the value.
    pub versions: HashMap<(u64, u64), Found>,
}

/// What a store wrote.
#[derive(Clone, Copy, PartialEq, Eq, Debug)]
pub struct Written {
    /// The address of its word.
    pub address: u64,
    /// The version that it made.
    pub version: u32,
    /// The value that this holds.
    pub value: u64,
}

/// What the store of an instruction wrote, if it took effect and its value is shown.
fn written_by(stores: &Stores, issued: &Issued) -> Option<Written>
    ensures { (performed : List Performed) → AreStores performed stores.now
        → IsWrittenBy performed issued.now result }
{
    let effect = stores.effect_of(issued.hart, issued.order)?;
    let store = stores.store(effect.address, effect.version)?;
    let value = store.wdata.or(issued.wdata)?;
    Some(Written {
        address: effect.address,
        version: effect.version,
        value: low_bytes(issued.word.size, value),
    })
}

/// Adds what the store of an instruction wrote.
fn add(
    versions: &mut HashMap<(u64, u64), Found>,
    stores: &Stores,
    issued: &Issued,
) -> Result<(), AllocError>
    ensures { (before : List Issued) (performed : List Performed) → AreStores performed stores.now
        → AreSingle (before ++ issued.now ∷ [])
        → AreVersions before performed (get same_key versions.old)
        → OnOk result
        (AreVersions (before ++ issued.now ∷ []) performed (get same_key versions.new)) }
{
    let Some(written) = written_by(stores, issued) else {
        return Ok(());
    };
    let key = (written.address, written.value);
    let found = match versions.get(&key) {
        Some(_) => Found::Several,
        None => Found::One(written.version),
    };
    versions.insert(key, found)?;
    Ok(())
}

impl Index {
    /// The versions that the stores of a memory wrote.
    ///
    /// # Errors
    /// Memory ran out.
    pub fn new(alloc: Global, memory: &Memory) -> Result<Index, AllocError>
        ensures { (issued : List Issued) (performed : List Performed)
            → IsMemory issued performed memory.now → IfOk result (IsIndex issued performed) }
    {
        let mut versions = HashMap::new(alloc);
        'issues: for issued in memory.issues.all() {
            add(&mut versions, &memory.stores, issued)?;
        }
        Ok(Index { versions })
    }

    /// The versions of the word at the address that hold the value; `None` where none does.
    /// `initial` is the value of version 0, where that is known.
    pub fn find(&self, address: u64, value: u64, initial: Option<u64>) -> Option<Found>
        ensures { (issued : List Issued) (performed : List Performed)
            → IsIndex issued performed self.now
            → IsFoundWith issued performed address initial value result }
    {
        let written = self.versions.get(&(address, value)).copied();
        if initial != Some(value) {
            return written;
        }
        match written {
            Some(_) => Some(Found::Several),
            None => Some(Found::One(0)),
        }
    }
}
