//! The summary of the events that were forgotten.
ghost use Rattle.std.specs.Prelude.{ℕ, ◌≡◌, ◌<◌, ◌≤◌, ◌+◌, ◌++◌, ◌∷◌, ◌↔◌, [], IsSome, IsTrue, List};
ghost use Rattle.std.specs.Prelude.{MatchOption, OnErr, OnOk, nat_eq};
ghost use Rattle.std.specs.HashMap.{get, spare};
ghost use Rattle.std.specs.Option.{option_copied};
ghost use Rattle.rv_event.specs.declared.event.Event.{Event};
ghost use Rattle.rv_past.specs.Before.{ComesBefore, IsEdgeTo, IsFree};
ghost use Rattle.rv_event.specs.Operations.{IsLoad, IsStore};
ghost use Rattle.rv_past.specs.Gone.{AreGone, HasPlaces, IsLate, IsLateBy, IsNewest, IsNewestOf, IsNoted};
ghost use Rattle.rv_past.specs.Gone.{by_others, same_version};
ghost use Rattle.rv_past.specs.Gone.{version_of};

use crate::edge::PastEdge;
use rv_event::{Event, Id, NoMemory, Reason};
use std::alloc::Global;
use std::collections::HashMap;

/// The newest stores of a word among those that were forgotten.
#[derive(Clone, Copy, PartialEq, Eq, Debug)]
pub struct Newest {
    /// The newest version that one of them wrote.
    pub version: u32,
    /// The store that wrote it.
    pub store: Id,
    /// The newest version that a store of another hart than that one's wrote; 0 where none did.
    pub others: u32,
}

/// What is kept of the events that were forgotten. Contracts see the fields, and say for which
/// events it stands. It takes a place for each word that one of them stored to, and one for each
/// version that a load returned and no store had written when the load was added.
#[derive(Drop)]
pub struct Past {
    /// The newest stores of each word.
    pub newest: HashMap<u32, Newest>,
    /// By word and version, a load that returned the version before its store was added.
    pub awaited: HashMap<(u32, u32), Id>,
}

impl Past {
    /// Nothing was forgotten. It takes no memory; the allocator serves the calls to come.
    pub fn new(alloc: Global) -> Past
        ensures { AreGone [] result }
    {
        Past {
            newest: HashMap::new(alloc),
            awaited: HashMap::new(alloc),
        }
    }

    /// The newest stores of the word, where there is one.
    pub fn newest_of(&self, word: u32) -> Option<Newest>
        ensures value { result ≡ get nat_eq self.now.newest word }
        ensures newest { (gone : List Event) → AreGone gone self.now → IsNewest gone word result }
    {
        self.newest.get(&word).copied()
    }

    /// Makes room for so many events.
    ///
    /// # Errors
    /// `NoMemory` where it could not be had; what is kept stays as it is.
    pub fn reserve(&mut self, more: usize) -> Result<(), NoMemory>
        ensures same { (gone : List Event) → AreGone gone self.old → AreGone gone self.new }
        ensures room { OnOk result (HasPlaces self.new more) }
    {
        self.newest.reserve(more)?;
        self.awaited.reserve(more)?;
        Ok(())
    }

    /// Takes an event that is forgotten. Stores are to be added before the loads that returned what
    /// they wrote, else the loads take a place each. It costs two look-ups for each side of an
    /// operation.
    ///
    /// # Errors
    /// `NoMemory` where it could not be kept; what is kept stays as it is.
    pub fn add(&mut self, event: &Event) -> Result<(), NoMemory>
        ensures added { (gone : List Event) → AreGone gone self.old →
            OnOk result (AreGone (gone ++ event.now ∷ []) self.new) }
        ensures unchanged { (gone : List Event) → AreGone gone self.old →
            OnErr result (AreGone gone self.new) }
    {
        self.reserve(1)?;
        self.add_reserved(event);
        Ok(())
    }

    /// Takes an event that is forgotten, and for which room was made, as [`add`](Past::add) does.
    pub fn add_reserved(&mut self, event: &Event)
        requires { HasPlaces self.old 1 }
        ensures added { (gone : List Event) → AreGone gone self.old → AreGone (gone ++ event.now ∷ []) self.new }
        ensures room { (more : ℕ) → HasPlaces self.old (more + 1) → HasPlaces self.new more }
    {
        let version = self.version(event.word);
        note_load(&mut self.awaited, event, version);
        if event.is_store() {
            let newest = newest_with(self.newest_of(event.word), event);
            let Ok(_) = self.newest.insert(event.word, newest) else {
                unreachable!()
            };
        }
    }

    /// An edge from the event to one that was forgotten, where there is one: in each lawful order it
    /// would stand before that one. `lr` is the LR with which the event is paired, where it is. It
    /// costs two look-ups for a load or a store, and one more for an SC.
    pub fn find_edge(&self, event: &Event, lr: Option<&Event>) -> Option<PastEdge>
        ensures { (gone : List Event) → AreGone gone self.now → IsFree gone event.now →
            MatchOption result (ComesBefore gone (option_copied lr.entry) event.now → ⊥)
            (IsEdgeTo gone (option_copied lr.entry) event.now) }
    {
        let word = event.word;
        if self.is_loaded_below(event) {
            let reason = Reason::FromRead;
            let version = self.version(word);
            return Some(PastEdge {
                reason,
                word,
                version,
            });
        }
        if self.is_stored_below(event) {
            let reason = Reason::Coherence;
            let version = self.version(word);
            return Some(PastEdge {
                reason,
                word,
                version,
            });
        }
        if self.is_awaited(event) {
            let (reason, version) = (Reason::ReadsFrom, event.wrote);
            return Some(PastEdge {
                reason,
                word,
                version,
            });
        }
        self.find_late(event, lr)
    }

    /// The newest version of the word that was written; 0 where none was.
    fn version(&self, word: u32) -> u32
        ensures { result ≡ version_of (get nat_eq self.now.newest word) }
    {
        match self.newest.get(&word) {
            Some(newest) => newest.version,
            None => 0,
        }
    }

    /// Whether it loads a version below the newest.
    fn is_loaded_below(&self, event: &Event) -> bool
        ensures { IsTrue result ↔ (IsLoad event.now
            × (event.now.read < version_of (get nat_eq self.now.newest event.now.word))) }
    {
        event.is_load() && event.read < self.version(event.word)
    }

    /// Whether it stores a version below the newest.
    fn is_stored_below(&self, event: &Event) -> bool
        ensures { IsTrue result ↔ (IsStore event.now
            × (event.now.wrote < version_of (get nat_eq self.now.newest event.now.word))) }
    {
        event.is_store() && event.wrote < self.version(event.word)
    }

    /// Whether it stores a version that a load returned before.
    fn is_awaited(&self, event: &Event) -> bool
        ensures { IsTrue result ↔ (IsStore event.now
            × IsSome (get same_version self.now.awaited (event.now.word, event.now.wrote))) }
    {
        event.is_store() && self.awaited.get(&(event.word, event.wrote)).is_some()
    }

    /// The edge of an SC whose LR returned a version below one that another hart wrote.
    fn find_late(&self, event: &Event, lr: Option<&Event>) -> Option<PastEdge>
        ensures { MatchOption result (IsLate self.now event.now (option_copied lr.entry) → ⊥)
            (IsLateBy self.now event.now (option_copied lr.entry)) }
    {
        let lr = lr?;
        let version = self.version_by_others(event.id.hart, lr.word);
        if lr.read >= version {
            return None;
        }
        Some(PastEdge {
            reason: Reason::AtomicOut,
            word: lr.word,
            version,
        })
    }

    /// The newest version of the word that a store of another hart wrote; 0 where none did.
    fn version_by_others(&self, hart: u8, word: u32) -> u32
        ensures { result ≡ by_others hart (get nat_eq self.now.newest word) }
    {
        match self.newest.get(&word) {
            Some(newest) if newest.store.hart == hart => newest.others,
            Some(newest) => newest.version,
            None => 0,
        }
    }
}

/// Notes the version that the event returned, where it is a load and the version is newer than the
/// newest that was written.
fn note_load(awaited: &mut HashMap<(u32, u32), Id>, event: &Event, version: u32)
    requires { 0 < spare awaited.old }
    ensures noted { IsNoted event.now version (get same_version awaited.old) (get same_version awaited.new) }
    ensures room { spare awaited.old ≤ spare awaited.new + 1 }
{
    if event.is_load() && event.read > version {
        let Ok(_) = awaited.insert((event.word, event.read), event.id) else {
            unreachable!()
        };
    }
}

/// The newest stores of a word, with one store more.
fn newest_with(newest: Option<Newest>, event: &Event) -> Newest
    requires { IsStore event.now }
    ensures { (gone : List Event) → IsNewest gone event.now.word newest →
        IsNewestOf (gone ++ event.now ∷ []) event.now.word result }
{
    match newest {
        Some(newest) => joined(newest, event),
        None => Newest {
            version: event.wrote,
            store: event.id,
            others: 0,
        },
    }
}

/// The newest stores of a word that has some, with one store more.
fn joined(newest: Newest, event: &Event) -> Newest
    requires { IsStore event.now }
    ensures { (gone : List Event) → IsNewestOf gone event.now.word newest →
        IsNewestOf (gone ++ event.now ∷ []) event.now.word result }
{
    let is_own = newest.store.hart == event.id.hart;
    let is_newer = event.wrote > newest.version;
    let version = event.wrote;
    let store = event.id;
    match (is_newer, is_own) {
        (true, true) => Newest {
            version,
            store,
            others: newest.others,
        },
        (true, false) => Newest {
            version,
            store,
            others: newest.version,
        },
        (false, true) => newest,
        (false, false) => Newest {
            others: newest.others.max(version),
            ..newest
        },
    }
}
