//! A map from numbers to numbers.
ghost use Rattle.std.specs.Prelude.{ℕ, ◌≡◌, ◌≢◌, None, Some, IsSome, OnErr, OnOk};
ghost use Rattle.rv_rows.specs.NumberMaps.{number_of};

use std::alloc::{AllocError, Global};
use std::collections::HashMap;

/// The keys below this one stand in the table.
const NEAR: u32 = 4_096;

/// A map from numbers to numbers. A key below 4,096 is looked up in one step, in a table that is as
/// long as the highest of them that was put in; another one in a hash map.
///
/// Contracts read it with `number_of`.
#[derive(Drop)]
pub struct NumberMap {
    near: Vec<Option<u32>>,
    far: HashMap<u32, u32>,
}

impl NumberMap {
    /// The map that has nothing. It takes no memory.
    #[tactic(auto, unfolding(crate::specs::NumberMaps::number_of))]
    pub fn new(alloc: Global) -> NumberMap
        ensures { (key : ℕ) → number_of result key ≡ None }
    {
        NumberMap {
            near: Vec::new(alloc),
            far: HashMap::new(alloc),
        }
    }

    /// What the key has.
    #[tactic(auto, unfolding(crate::specs::NumberMaps::number_of))]
    pub fn get(&self, key: u32) -> Option<u32>
        ensures { result ≡ number_of self.now key }
    {
        if key >= NEAR {
            return self.far.get(&key).copied();
        }
        match self.near.get(key as usize) {
            Some(value) => *value,
            None => None,
        }
    }

    /// Gives the key this value, in place of what it had.
    ///
    /// # Errors
    /// `AllocError` where the memory was refused; the map has what it had.
    #[tactic(auto, unfolding(crate::specs::NumberMaps::number_of))]
    pub fn insert(&mut self, key: u32, value: u32) -> Result<(), AllocError>
        ensures here { OnOk result (number_of self.new key ≡ Some value) }
        ensures others { (other : ℕ) → key ≢ other → number_of self.new other ≡ number_of self.old other }
        ensures unchanged { OnErr result (number_of self.new key ≡ number_of self.old key) }
    {
        if key >= NEAR {
            self.far.insert(key, value)?;
            return Ok(());
        }
        let place = key as usize;
        if place >= self.near.len() {
            self.near.resize(place + 1, None)?;
        }
        self.near[place] = Some(value);
        Ok(())
    }

    /// Gives a key that has a value another one. It takes no memory.
    #[tactic(auto, unfolding(crate::specs::NumberMaps::number_of))]
    pub fn replace(&mut self, key: u32, value: u32)
        requires { IsSome (number_of self.old key) }
        ensures here { number_of self.new key ≡ Some value }
        ensures others { (other : ℕ) → key ≢ other → number_of self.new other ≡ number_of self.old other }
    {
        if key >= NEAR {
            if let Some(place) = self.far.get_mut(&key) {
                *place = value;
            }
        } else if let Some(place) = self.near.get_mut(key as usize) {
            *place = Some(value);
        }
    }

    /// Takes from the key what it has. It takes no memory.
    #[tactic(auto, unfolding(crate::specs::NumberMaps::number_of))]
    pub fn remove(&mut self, key: u32)
        ensures here { number_of self.new key ≡ None }
        ensures others { (other : ℕ) → key ≢ other → number_of self.new other ≡ number_of self.old other }
    {
        if key >= NEAR {
            self.far.remove(&key);
        } else if let Some(place) = self.near.get_mut(key as usize) {
            *place = None;
        }
    }
}
