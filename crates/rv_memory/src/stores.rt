//! The stores that took effect, in their order.
ghost use Rattle.std.specs.Prelude.{◌≡◌, ◌<◌, ◌≤◌, ◌+◌, ◌++◌, ◌∷◌, [], IfOk, IfErr, List, OnErr, Some};
ghost use Rattle.std.specs.Prelude.{length, nat_eq, ℕ, true, false};
ghost use Rattle.rv_log.specs.declared.record.Performed.{Performed};
ghost use Rattle.rv_memory.specs.Stores.{AreNumbers, AreStores, IsEffectOf, IsLast, IsLastOf, IsNext};
ghost use Rattle.rv_memory.specs.Stores.{IsPerformedBy};
ghost use Rattle.rv_memory.specs.Stores.{IsRefused, IsTold};
ghost use Rattle.rv_memory.specs.Stores.{IsVersionAt, IsWrittenAt, at_place, kept_of, lists, of_word};
ghost use Rattle.std.specs.HashMap.{get};

use rv_log::Performed;
use std::alloc::{AllocError, Global};
use std::collections::HashMap;
use std::marker::Model;

/// How many stores a word may have.
const MOST: usize = 4_294_967_294;

/// Why a store is none of the log's.
#[derive(Clone, Copy, PartialEq, Eq, Debug)]
pub enum StoreFault {
    /// Its time is below that of an earlier one, which is this.
    TimeGoesBack(u64),
    /// The store of its instruction took effect before.
    Twice,
    /// Another one of its word took effect at the same time.
    SameTime,
    /// Its word has 4,294,967,294 stores.
    Full,
    /// Memory ran out.
    NoMemory,
}

/// What came of a store that took effect.
#[derive(Clone, Copy, PartialEq, Eq, Debug)]
pub struct Effect {
    /// The address of its word.
    pub address: u64,
    /// The version that it made of its word.
    pub version: u32,
    /// The time.
    pub time: u64,
}

/// The stores that took effect, in their order.
///
/// A word is known by the address at which it begins. Its versions are numbered by its stores: 0
/// is what it held at first, and k what its k-th store wrote.
#[derive(Drop)]
pub struct Stores {
    alloc: Global,
    places: HashMap<u64, usize>,
    words: Vec<Vec<Performed>>,
    effects: HashMap<(u8, u64), Effect>,
    latest: u64,
}

impl Model for Stores {
    ghost use Rattle.std.specs.Prelude.{List, nat_eq};
    ghost use Rattle.std.specs.HashMap.{get};
    ghost use Rattle.rv_memory.specs.Stores.{AreNumbers, AreStores, Kept, lists};
    ghost use Rattle.rv_log.specs.declared.record.Performed.{Performed};

    ghost Value = { Kept };

    ghost view = { λ s. record {
      places = s.places.entries;
      words = lists s.words.items;
      effects = s.effects.entries;
      latest = s.latest;
    } };

    ghost invariant = { λ s. AreNumbers (get nat_eq s.places) (lists s.words.items)
        × ((log : List Performed) × AreStores log (record {
          places = s.places.entries;
          words = lists s.words.items;
          effects = s.effects.entries;
          latest = s.latest;
        })) };
}

impl Stores {
    /// No stores. It takes no memory; the allocator serves the calls to come.
    pub fn new(alloc: Global) -> Stores
        ensures { AreStores [] result }
    {
        Stores {
            alloc,
            places: HashMap::new(alloc),
            words: Vec::new(alloc),
            effects: HashMap::new(alloc),
            latest: 0,
        }
    }

    /// The stores to the word that begins at the address, in their order.
    fn of_word(&self, address: u64) -> &[Performed]
        ensures stores { result.now ≡ kept_of self.now address }
        ensures few { length result.now ≤ 4294967294 }
    {
        match self.places.get(&address) {
            Some(place) => &self.words[*place],
            None => &[],
        }
    }

    /// The effect of the store of a hart's instruction, if that took effect.
    pub fn effect_of(&self, hart: u8, order: u64) -> Option<Effect>
        ensures { (log : List Performed) → AreStores log self.now → IsEffectOf log hart order result }
    {
        self.effects.get(&(hart, order)).copied()
    }

    /// The version of a word at a time: how many of its stores had taken effect. It costs a look-up
    /// and a bisection.
    pub fn version_at(&self, address: u64, time: u64) -> u32
        ensures { (log : List Performed) → AreStores log self.now → IsVersionAt log address time result }
    {
        self.of_word(address)
            .partition_point(|store| store.time <= time) as u32
    }

    /// The store of this version of a word, if that took effect.
    pub fn store(&self, address: u64, version: u32) -> Option<Performed>
        ensures { (log : List Performed) → AreStores log self.now → IsTold log address version result }
    {
        let before = version.checked_sub(1)?;
        self.of_word(address).get(before as usize).copied()
    }

    /// The store of a hart's instruction, if that took effect.
    pub fn performed_by(&self, hart: u8, order: u64) -> Option<Performed>
        ensures { (log : List Performed) → AreStores log self.now → IsPerformedBy log hart order result }
    {
        let effect = self.effect_of(hart, order)?;
        self.store(effect.address, effect.version)
    }

    /// The time of the last store; 0 where there is none.
    pub fn latest(&self) -> u64
        ensures { (log : List Performed) → AreStores log self.now → IsLast log result }
    {
        self.latest
    }

    /// Takes the next store that took effect, and answers its version of its word.
    ///
    /// # Errors
    /// The first of `TimeGoesBack`, `Twice` and `SameTime` that holds, else `Full` and `NoMemory`.
    /// The stores are those of before.
    pub fn push(&mut self, store: Performed) -> Result<u32, StoreFault>
        ensures taken { (log : List Performed) → AreStores log self.old → IfOk result (λ version.
            IsNext log store × AreStores (log ++ store ∷ []) self.new
            × (version ≡ length (of_word store.address log) + 1)) }
        ensures refused { (log : List Performed) → AreStores log self.old → IfErr result (IsRefused log store) }
        ensures kept { (log : List Performed) → AreStores log self.old → OnErr result (AreStores log self.new) }
    {
        if store.time < self.latest {
            return Err(StoreFault::TimeGoesBack(self.latest));
        }
        if self.effect_of(store.hart, store.order).is_some() {
            return Err(StoreFault::Twice);
        }
        if self.is_written_at(store.address, store.time) {
            return Err(StoreFault::SameTime);
        }
        if self.of_word(store.address).len() >= MOST {
            return Err(StoreFault::Full);
        }
        match self.add(store) {
            Ok(version) => Ok(version),
            Err(AllocError) => Err(StoreFault::NoMemory),
        }
    }

    /// The last store to the word that begins at the address.
    fn last_of(&self, address: u64) -> Option<Performed>
        ensures { (log : List Performed) → AreStores log self.now → IsLastOf log address result }
    {
        self.of_word(address).last().copied()
    }

    /// Whether a store to the word took effect at the time, which is not before the last one's.
    fn is_written_at(&self, address: u64, time: u64) -> bool
        ensures written { (log : List Performed) → AreStores log self.now → result ≡ true
            → IsWrittenAt log address time }
        ensures free { (log : List Performed) → AreStores log self.now → result ≡ false
            → self.now.latest ≤ time → IsWrittenAt log address time → ⊥ }
    {
        match self.last_of(address) {
            Some(last) => last.time == time,
            None => false,
        }
    }

    /// Adds a store that may come next.
    fn add(&mut self, store: Performed) -> Result<u32, AllocError>
        requires next { (log : List Performed) → AreStores log self.old → IsNext log store }
        requires few { length (kept_of self.old store.address) < 4294967294 }
        ensures taken { (log : List Performed) → AreStores log self.old → IfOk result (λ version.
            AreStores (log ++ store ∷ []) self.new
            × (version ≡ length (of_word store.address log) + 1)) }
        ensures kept { (log : List Performed) → AreStores log self.old → OnErr result (AreStores log self.new) }
    {
        let place = place_of(self.alloc, &mut self.places, &mut self.words, store.address)?;
        let word = &mut self.words[place];
        word.reserve(1)?;
        let version = word.len() as u32 + 1;
        let effect = Effect {
            address: store.address,
            version,
            time: store.time,
        };
        self.effects.insert((store.hart, store.order), effect)?;
        self.words[place].push_reserved(store);
        self.latest = store.time;
        Ok(version)
    }
}

/// The place of the word, which is given one where it has none.
fn place_of(
    alloc: Global,
    places: &mut HashMap<u64, usize>,
    words: &mut Vec<Vec<Performed>>,
    address: u64,
) -> Result<usize, AllocError>
    requires { AreNumbers (get nat_eq places.old) (lists words.old.items) }
    ensures numbers { AreNumbers (get nat_eq places.new) (lists words.new.items) }
    ensures same { (q : ℕ) → at_place (lists words.new.items) (get nat_eq places.new q)
        ≡ at_place (lists words.old.items) (get nat_eq places.old q) }
    ensures placed { IfOk result (λ place. get nat_eq places.new address ≡ Some place) }
{
    if let Some(place) = places.get(&address) {
        return Ok(*place);
    }
    let place = words.len();
    words.push(Vec::new(alloc))?;
    places.insert(address, place)?;
    Ok(place)
}
