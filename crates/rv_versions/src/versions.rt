//! A log whose stores, loads and pairs are found by word and version.
ghost use Rattle.std.specs.Prelude.{◌≡◌, ◌≢◌, ◌↔◌, IsTrue, ◌++◌, ◌∷◌, [], None, IfOk, OnOk, OnErr, List};
ghost use Rattle.std.specs.Option.{option_map};
ghost use Rattle.rv_event.specs.Faults.{event_fault};
ghost use Rattle.rv_event.specs.Log.{events, writer};
ghost use Rattle.rv_event.specs.WellFormed.{WellFormedEvents};
ghost use Rattle.rv_event.specs.Edges.{IsEdge};
ghost use Rattle.rv_event.specs.declared.reason.Link.{Link};
ghost use Rattle.rv_event.specs.declared.reason.Reason.{Reason};
ghost use Rattle.rv_event.specs.declared.memory_model.MemoryModel.{MemoryModel};
ghost use Rattle.rv_versions.specs.Indexes.{AreOfWord};
ghost use Rattle.rv_versions.specs.Reserved.{IsReserved};
ghost use Rattle.rv_versions.specs.VersionLinks.{AreVersionLinks};

mod around;
mod links;
mod own;

use self::links::is_unlinked;
use self::own::returns_own;
use crate::accesses::Accesses;
use crate::indexes::Indexes;
use crate::reservation::Reservation;
use rv_event::{Entry, Event, Id, Link, NoMemory};
use std::alloc::Global;
use std::marker::Model;

/// Links from other events to a new one and back, for each reason but the rules of preserved
/// program order.
#[derive(Drop, Debug)]
pub struct VersionLinks {
    /// Links from other events to it, behind those that were given.
    pub before: Vec<Link>,
    /// Links from it to other events.
    pub after: Vec<Link>,
}

/// A log whose stores, loads and pairs are found by word and version.
///
/// Contracts see it as its list of entries. Its type keeps that each event has no fault over those
/// before it, and that the indexes have the log's stores, loads and pairs, and nothing else.
#[derive(Drop)]
pub struct Versions {
    alloc: Global,
    entries: Vec<Entry>,
    reserved: Vec<Option<Reservation>>,
    indexes: Indexes,
}

impl Model for Versions {
    ghost use Rattle.std.specs.Prelude.{List};
    ghost use Rattle.rv_event.specs.Log.{events};
    ghost use Rattle.rv_event.specs.declared.event.Entry.{Entry};
    ghost use Rattle.rv_versions.specs.Indexes.{AreIndexes};

    ghost Value = { List Entry };

    ghost view = { λ v. v.entries.items };

    ghost invariant = { λ v. AreIndexes (events v.entries.items) v.reserved.items v.indexes };
}

impl Versions {
    /// The empty log. It takes no memory; the allocator serves the calls to come.
    pub fn new(alloc: Global) -> Self
        ensures { result ≡ [] }
    {
        Versions {
            alloc,
            entries: Vec::new(alloc),
            reserved: Vec::new(alloc),
            indexes: Indexes::new(alloc),
        }
    }

    /// The entries, in the order in which they came. It takes no memory.
    pub fn entries(&self) -> &[Entry]
        ensures value { result.now ≡ self.now }
        ensures well_formed { WellFormedEvents (events self.now) }
    {
        self.entries.as_slice()
    }

    /// The links of the event, which has no fault over the log, with what its LR returned. Those
    /// into it are added behind the given ones, and those out of it stand in place of what the other
    /// list had.
    ///
    /// Each link is an edge between the event and another one, for one of the reasons that look at
    /// versions: coherence, reads-from, from-read, atomic-in and atomic-out (Unprivileged ISA,
    /// section 14.1, "Memory Model Axioms"). Each edge for such a reason is linked, or another
    /// event splits it.
    ///
    /// It costs a look-up of its word, and two of its LR's where that is another one. Where the
    /// event comes in commit order, a few steps answer each question then; else it searches the
    /// accesses to the word, in logarithmic time. It takes a step more for each link, and for
    /// atomic-out for each store that it passes on the way to another hart's. What is no memory
    /// operation, and has no LR, costs the look-up alone.
    ///
    /// # Errors
    /// `NoMemory` where a list could not grow; nothing changes, but the given lists are gone.
    pub fn around(
        &self,
        event: &Event,
        reserved: Option<Reservation>,
        before: Vec<Link>,
        after: Vec<Link>,
    ) -> Result<VersionLinks, NoMemory>
        requires sound { event_fault (events self.now) event.now ≡ None }
        requires reserved { IsReserved (events self.now) event.now reserved }
        ensures { IfOk result (λ w. (others : List Link) × (w.before.items ≡ before.items ++ others)
            × ((model : MemoryModel) → AreVersionLinks model (events self.now) event.now others w.after.items)) }
    {
        let accesses = self.of_word(event.word);
        let mut none = after;
        none.clear();
        if is_unlinked(event, reserved) {
            return Ok(VersionLinks {
                before,
                after: none,
            });
        }
        let links = self.links_before(accesses, event, reserved, before)?;
        let after = self.links_after(accesses, event, reserved, none)?;
        Ok(VersionLinks {
            before: links,
            after,
        })
    }

    /// Whether an edge leads from the event to itself: where an AMO returned what it writes, or an
    /// SC's LR returned what the SC writes. No rule holds of an event and itself.
    ///
    /// It takes no memory and constant time.
    pub fn has_own_edge(&self, event: &Event, reserved: Option<Reservation>) -> bool
        requires sound { event_fault (events self.now) event.now ≡ None }
        requires reserved { IsReserved (events self.now) event.now reserved }
        ensures { (model : MemoryModel) →
            IsTrue result ↔
            ((r : Reason) × IsEdge model (events self.now ++ event.now ∷ []) event.now.id r event.now.id) }
    {
        // Its contract alone speaks of the log; the two events tell the answer.
        let _ = &self.alloc;
        returns_own(event, reserved)
    }

    /// The store that wrote this version of the word. Version 0, the initial value, has none.
    ///
    /// It takes no memory. Version 0 costs one step. Else it costs a look-up of the word, and a few
    /// steps for its highest version, or a search among its stores.
    #[inline(always)]
    pub fn writer(&self, word: u32, version: u32) -> Option<Id>
        ensures { result ≡ option_map (λ w. w.id) (writer (events self.now) word version) }
    {
        if version == 0 {
            return None;
        }
        self.of_word(word).writer(version)
    }

    /// The accesses of the log to the word.
    fn of_word(&self, word: u32) -> &Accesses
        ensures { AreOfWord (events self.now) word result.now }
    {
        self.indexes.of_word(word)
    }

    /// Adds the entry, whose event has no fault over the log, with what its LR returned.
    ///
    /// It costs a look-up of its word, one of its LR's, and at most three insertions, of a few
    /// steps each where no version of the word is higher. Else each costs a search among the word's
    /// accesses, and the moving of those of a higher version.
    ///
    /// # Errors
    /// `NoMemory` where the entry could not be kept; the log stays as it is, and the entry is gone.
    pub fn push(&mut self, entry: Entry, reserved: Option<Reservation>) -> Result<(), NoMemory>
        requires sound { event_fault (events self.old) entry.event ≡ None }
        requires reserved { IsReserved (events self.old) entry.event reserved }
        ensures pushed { OnOk result (self.new ≡ self.old ++ entry ∷ []) }
        ensures unchanged { OnErr result (self.new ≡ self.old) }
    {
        self.entries.reserve(1)?;
        self.reserved.push(reserved)?;
        if let Err(error) = self.indexes.insert(&entry.event, reserved) {
            self.reserved.pop();
            return Err(error);
        }
        self.entries.push_reserved(entry);
        Ok(())
    }

    /// Takes the last entry off; there is one. It takes no memory.
    ///
    /// It costs the look-ups of an addition, and at most three removals, each as an insertion.
    #[inline(never)]
    pub fn pop(&mut self) -> Entry
        requires { self.old ≢ [] }
        ensures { self.old ≡ self.new ++ result ∷ [] }
    {
        let last = self.entries.pop();
        let Some(entry) = last else { unreachable!() };
        let last_reserved = self.reserved.pop();
        let Some(reserved) = last_reserved else {
            unreachable!()
        };
        self.indexes.remove(&entry.event, reserved);
        entry
    }
}
