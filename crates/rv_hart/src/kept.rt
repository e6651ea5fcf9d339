//! What is kept of a hart's events.
ghost use Rattle.std.specs.Prelude.{ℕ, ◌≡◌, ◌↔◌, ◌++◌, ◌∷◌, [], OnOk, OnErr};
ghost use Rattle.std.specs.Option.{option_copied};
ghost use Rattle.rv_rows.specs.Bits.{Has};
ghost use Rattle.rv_hart.specs.Harts.{Follows, hart_with};
ghost use Rattle.rv_hart.specs.Kept.{hart_of, IsKept, IsPartner, IsStaleBy};
ghost use Rattle.rv_hart.specs.Rows.{IsBefore};

use crate::own_events::OwnEvents;
use crate::sets::{Sets, pop_carried, push_carried, sets_of};
use crate::words::Words;
use rv_event::{Event, Id, MemoryModel, NoMemory, Op};
use rv_rows::{Row, Rows};
use std::alloc::Global;

/// The rows, the sets and the words of a hart's events. Contracts see the fields.
#[derive(Drop)]
pub struct Kept {
    /// Where memory comes from.
    pub alloc: Global,
    /// The memory model.
    pub model: MemoryModel,
    /// The hart's number.
    pub number: u8,
    /// For each event that is a memory operation itself and the events from which rules lead to it,
    /// else nothing.
    pub rows: Rows,
    /// For each event that is a carrier the memory operations behind it, else nothing.
    pub carried: Rows,
    /// What a later event asks of the events so far.
    pub sets: Sets,
    /// The memory operations of each word.
    pub words: Words,
}

impl Kept {
    /// Nothing kept yet of a hart. It takes no memory.
    pub fn new(alloc: Global, model: MemoryModel, number: u8) -> Kept
        ensures model { result.model ≡ model }
        ensures number { result.number ≡ number }
        ensures kept { IsKept [] result }
    {
        let rows = Rows::new(alloc);
        let carried = Rows::new(alloc);
        let sets = Sets::new();
        let words = Words::new(alloc);
        Kept {
            alloc,
            model,
            number,
            rows,
            carried,
            sets,
            words,
        }
    }

    /// Adds the next of the events, which has this row.
    ///
    /// # Errors
    /// `NoMemory` where it could not be kept; what is kept stays as it is.
    pub fn push(&mut self, events: &OwnEvents<'_>, event: &Event, row: &Row) -> Result<(), NoMemory>
        requires kept { IsKept events.now self.old }
        requires follows { Follows (hart_of events.now self.old) event.now }
        requires row { (s : ℕ) → Has row.now s
            ↔ IsBefore (hart_with (hart_of events.now self.old) event.now) s event.now.id.seq }
        ensures model { self.new.model ≡ self.old.model }
        ensures number { self.new.number ≡ self.old.number }
        ensures pushed { OnOk result (IsKept (events.now ++ event.now ∷ []) self.new) }
        ensures unchanged { OnErr result (IsKept events.now self.new) }
    {
        self.rows.push(row)?;
        if let Err(error) = push_carried(event, &self.sets, &mut self.carried) {
            self.rows.pop();
            return Err(NoMemory::from(error));
        }
        if let Err(error) = self.words.add(events, event) {
            pop_carried(&mut self.carried);
            self.rows.pop();
            return Err(error);
        }
        self.sets.absorb(self.model, event, &self.carried);
        Ok(())
    }

    /// Takes the last event off. `events` are those that are left. It takes no memory. The sets are
    /// made again.
    pub fn drop_last(&mut self, events: &OwnEvents<'_>, event: &Event)
        requires kept { IsKept (events.now ++ event.now ∷ []) self.old }
        ensures model { self.new.model ≡ self.old.model }
        ensures number { self.new.number ≡ self.old.number }
        ensures popped { IsKept events.now self.new }
    {
        self.words.drop_last(events, event);
        self.rows.pop();
        pop_carried(&mut self.carried);
        self.sets = sets_of(self.model, events, &self.carried);
    }

    /// The LR with which the event is paired.
    pub fn partner<'a>(&self, events: &OwnEvents<'a>, event: &Event) -> Option<&'a Event>
        requires kept { IsKept events.now self.now }
        requires follows { Follows (hart_of events.now self.now) event.now }
        ensures { IsPartner (hart_of events.now self.now) event.now (option_copied result) }
    {
        if event.op != Op::Sc {
            return None;
        }
        let lr = self.sets.reserved?;
        let partner = events.at(lr as usize);
        Some(partner)
    }

    /// An own earlier store of the event's word, of a higher version than the event, a load,
    /// returned.
    #[inline(always)]
    pub fn stale(&self, events: &OwnEvents<'_>, event: &Event) -> Option<Id>
        requires kept { IsKept events.now self.now }
        requires follows { Follows (hart_of events.now self.now) event.now }
        ensures { IsStaleBy (hart_of events.now self.now) event.now result }
    {
        if !event.is_load() {
            return None;
        }
        let number = self.words.highest_store(events, event.word)?;
        let store = events.at(number as usize);
        if event.read < store.wrote {
            Some(store.id)
        } else {
            None
        }
    }
}
