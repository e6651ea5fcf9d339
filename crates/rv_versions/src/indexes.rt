//! The stores, the loads and the pairs of a log, by word and version.
ghost use Rattle.std.specs.Prelude.{◌≡◌, Some, OnOk, OnErr, IfOk};
ghost use Rattle.rv_rows.specs.NumberMaps.{number_of};
ghost use Rattle.rv_versions.specs.Indexes.{own_postings, pair_postings, postings_of, ArePostingsTo};
ghost use Rattle.rv_versions.specs.Indexes.{AreInserted, AreRemoved, AreSame, AreAbsent};
ghost use Rattle.rv_versions.specs.Words.{no_accesses, together, AreInPlace, AreThoseTo};

use crate::accesses::{Access, Accesses, Postings};
use crate::reservation::Reservation;
use rv_event::{Event, Id, NoMemory};
use rv_rows::NumberMap;
use std::alloc::Global;
use std::marker::Model;

/// The access of an event to a version of a word.
fn access(word: u32, version: u32, id: Id) -> Access
    ensures { result ≡ record { word = word; version = version; hart = id.hart; seq = id.seq } }
{
    Access {
        word,
        version,
        hart: id.hart,
        seq: id.seq,
    }
}

/// Under which accesses to its own word the event is found: as a store and as a load.
fn own_postings(event: &Event) -> Postings
    ensures { result ≡ own_postings event.now }
{
    let id = event.id;
    Postings {
        store: event
            .is_store()
            .then(|| access(event.word, event.wrote, id)),
        load: event.is_load().then(|| access(event.word, event.read, id)),
        pair: None,
    }
}

/// Under which access to its LR's word an SC is found.
fn pair_postings(sc: Id, reservation: Reservation) -> Postings
    ensures { result ≡ pair_postings sc reservation }
{
    Postings {
        store: None,
        load: None,
        pair: Some(access(reservation.word, reservation.version, sc)),
    }
}

/// The stores, the loads and the pairs of a log.
///
/// Each word has a number, and under that number its accesses. Contracts see those of all words
/// together.
#[derive(Drop)]
pub struct Indexes {
    alloc: Global,
    places: NumberMap,
    words: Vec<Accesses>,
    /// Those to a word that has no number.
    none: Accesses,
}

impl Model for Indexes {
    ghost use Rattle.std.specs.Prelude.{◌≡◌};
    ghost use Rattle.rv_rows.specs.NumberMaps.{number_of};
    ghost use Rattle.rv_versions.specs.Words.{no_accesses, together, AreInPlace};
    ghost use Rattle.rv_versions.specs.declared.accesses.Accesses.{Accesses};

    ghost Value = { Accesses };

    ghost view = { λ a. together a.words.items };

    ghost invariant = { λ a. AreInPlace (number_of a.places) a.words.items × (a.none ≡ no_accesses) };
}

/// The number of the word, which is given one where it has none.
///
/// # Errors
/// `NoMemory`; no access is lost.
#[inline(always)]
fn place_of(
    alloc: Global,
    places: &mut NumberMap,
    words: &mut Vec<Accesses>,
    word: u32,
) -> Result<usize, NoMemory>
    requires { AreInPlace (number_of places.old) words.old.items }
    ensures in_place { AreInPlace (number_of places.new) words.new.items }
    ensures same { together words.new.items ≡ together words.old.items }
    ensures placed { IfOk result (λ place. number_of places.new word ≡ Some place) }
{
    if let Some(place) = places.get(word) {
        return Ok(place as usize);
    }
    let place = words.len();
    let Ok(number) = u32::try_from(place) else {
        return Err(NoMemory);
    };
    words.push(Accesses::new(alloc))?;
    places.insert(word, number)?;
    Ok(place)
}

impl Indexes {
    /// Those of no events. It takes no memory; the allocator serves the calls to come.
    pub fn new(alloc: Global) -> Self
        ensures { result ≡ no_accesses }
    {
        Indexes {
            alloc,
            places: NumberMap::new(alloc),
            words: Vec::new(alloc),
            none: Accesses::new(alloc),
        }
    }

    /// The accesses to the word. It costs a look-up.
    pub fn of_word(&self, word: u32) -> &Accesses
        ensures { AreThoseTo self.now word result.now }
    {
        match self.places.get(word) {
            Some(place) => &self.words[place as usize],
            None => &self.none,
        }
    }

    /// Puts an event in, with what its LR returned.
    ///
    /// It costs a look-up of its word, and one of its LR's. For each list that it joins it costs a
    /// step where the word has no higher version there; else a search, and the moving of what
    /// stands behind it.
    ///
    /// # Errors
    /// `NoMemory`; the accesses are then as they were.
    pub fn insert(&mut self, event: &Event, reserved: Option<Reservation>) -> Result<(), NoMemory>
        requires { AreAbsent self.old (postings_of event.now reserved) }
        ensures inserted { OnOk result (AreInserted self.old (postings_of event.now reserved) self.new) }
        ensures unchanged { OnErr result (AreSame self.old (postings_of event.now reserved) self.new) }
    {
        let own = own_postings(event);
        self.insert_to(event.word, own)?;
        let Some(reservation) = reserved else {
            return Ok(());
        };
        let pair = pair_postings(event.id, reservation);
        let paired = self.insert_to(reservation.word, pair);
        if paired.is_err() {
            self.remove_from(event.word, own);
            return Err(NoMemory);
        }
        Ok(())
    }

    /// Takes an event out, with what its LR returned. It takes no memory.
    ///
    /// It costs the look-ups of an insertion. For each list that it leaves it costs a step for each
    /// access of its version that came later, and the moving of what stands behind it.
    pub fn remove(&mut self, event: &Event, reserved: Option<Reservation>)
        ensures { AreRemoved self.old (postings_of event.now reserved) self.new }
    {
        self.remove_from(event.word, own_postings(event));
        if let Some(reservation) = reserved {
            self.remove_from(reservation.word, pair_postings(event.id, reservation));
        }
    }

    /// Puts the postings in, all of which are of the word. Where there are none, it takes no
    /// memory.
    ///
    /// # Errors
    /// `NoMemory`; the accesses are then as they were.
    #[inline(always)]
    fn insert_to(&mut self, word: u32, postings: Postings) -> Result<(), NoMemory>
        requires absent { AreAbsent self.old postings }
        requires to { ArePostingsTo word postings }
        ensures inserted { OnOk result (AreInserted self.old postings self.new) }
        ensures unchanged { OnErr result (AreSame self.old postings self.new) }
    {
        if postings.store.is_none() && postings.load.is_none() && postings.pair.is_none() {
            return Ok(());
        }
        let place = place_of(self.alloc, &mut self.places, &mut self.words, word)?;
        let accesses = &mut self.words[place];
        accesses.insert(postings)?;
        Ok(())
    }

    /// Takes the postings out, all of which are of the word. It takes no memory.
    fn remove_from(&mut self, word: u32, postings: Postings)
        requires { ArePostingsTo word postings }
        ensures { AreRemoved self.old postings self.new }
    {
        let Some(place) = self.places.get(word) else {
            return;
        };
        let accesses = &mut self.words[place as usize];
        accesses.remove(postings);
    }
}
