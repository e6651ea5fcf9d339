//! The memory operations of each word of a hart, linked from the last one back.
ghost use Rattle.std.specs.Prelude.{ℕ, ◌≡◌, ◌≢◌, ◌<◌, ◌++◌, ◌∷◌, [], List, length, OnOk, OnErr, IsSome, Some};
ghost use Rattle.std.specs.Prelude.{slice_index_or};
ghost use Rattle.rv_rows.specs.NumberMaps.{number_of};
ghost use Rattle.rv_event.specs.Operations.{IsMemory};
ghost use Rattle.rv_event.specs.declared.event.Event.{Event};
ghost use Rattle.rv_hart.specs.Words.{AreNumbered, AreWords, IsWordLink, IsBeforeRun, IsHighestStore};

use crate::kept_link::KeptLink;
use crate::own_events::OwnEvents;
use rv_event::{Event, NoMemory};
use rv_rows::NumberMap;
use std::alloc::Global;

/// Where a walk over a word's memory operations goes on from one of them.
#[derive(Clone, Copy)]
pub struct WordLink {
    /// The last memory operation of the word before it.
    pub previous: Option<u32>,
    /// An earlier one, with only loads between the two that returned what this one returned.
    pub before_run: Option<u32>,
    /// The store of the highest version of the word before it.
    pub highest: Option<u32>,
}

/// The memory operations of each word. Contracts see the fields.
#[derive(Drop)]
pub struct Words {
    /// The number of each word's last memory operation.
    pub lasts: NumberMap,
    /// A link for each event of the hart. Those of events that are no memory operations are never
    /// read.
    pub links: Vec<KeptLink>,
}

impl Words {
    /// The words of no events. It takes no memory.
    pub fn new(alloc: Global) -> Words
        ensures { (events : List Event) → events ≡ [] → AreWords events result }
    {
        Words {
            lasts: NumberMap::new(alloc),
            links: Vec::new(alloc),
        }
    }

    /// The number of the word's last memory operation.
    pub fn last(&self, word: u32) -> Option<u32>
        ensures { result ≡ number_of self.now.lasts word }
    {
        self.lasts.get(word)
    }

    /// The number of the word's store of the highest version.
    #[inline(always)]
    pub fn highest_store(&self, events: &OwnEvents<'_>, word: u32) -> Option<u32>
        requires numbered { AreNumbered events.now }
        requires words { AreWords events.now self.now }
        ensures { IsHighestStore events.now word (length events.now) result }
    {
        let number = self.last(word)?;
        self.highest_up_to(events, word, number)
    }

    /// The same, where the word's last memory operation has this number.
    fn highest_up_to(&self, events: &OwnEvents<'_>, word: u32, number: u32) -> Option<u32>
        requires numbered { AreNumbered events.now }
        requires words { AreWords events.now self.now }
        requires last { number_of self.now.lasts word ≡ Some number }
        ensures { IsHighestStore events.now word (length events.now) result }
    {
        let last = events.at(number as usize);
        let before = self.link_at(number as usize).highest;
        if !last.is_store() {
            return before;
        }
        let Some(store) = before else {
            return Some(number);
        };
        let highest = events.at(store as usize);
        if highest.wrote < last.wrote {
            Some(number)
        } else {
            Some(store)
        }
    }

    /// The link of the event with this number.
    pub fn link_at(&self, number: usize) -> WordLink
        requires { number < length self.now.links.items }
        ensures { result ≡ slice_index_or self.now.links.items number result }
    {
        self.links[number].link()
    }

    /// Takes the hart's next event in.
    ///
    /// # Errors
    /// `NoMemory` where it could not be kept; the words stay as they are.
    pub fn add(&mut self, events: &OwnEvents<'_>, event: &Event) -> Result<(), NoMemory>
        requires numbered { AreNumbered events.now }
        requires next { event.now.id.seq ≡ length events.now }
        requires words { AreWords events.now self.old }
        ensures pushed { OnOk result (AreWords (events.now ++ event.now ∷ []) self.new) }
        ensures unchanged { OnErr result (AreWords events.now self.new) }
    {
        self.links.reserve(1)?;
        let link = KeptLink::of(self.link_of(events, event))?;
        if event.is_memory() {
            self.lasts.insert(event.word, event.id.seq)?;
        }
        self.links.push_reserved(link);
        Ok(())
    }

    /// The link of the hart's next event: nothing where it is no memory operation.
    fn link_of(&self, events: &OwnEvents<'_>, event: &Event) -> WordLink
        requires numbered { AreNumbered events.now }
        requires next { event.now.id.seq ≡ length events.now }
        requires words { AreWords events.now self.now }
        ensures { IsMemory event.now → IsWordLink events.now event.now result }
    {
        let none = WordLink {
            previous: None,
            before_run: None,
            highest: None,
        };
        if !event.is_memory() {
            return none;
        }
        let Some(number) = self.last(event.word) else {
            return none;
        };
        WordLink {
            previous: Some(number),
            before_run: self.before_run(events, event, number),
            highest: self.highest_up_to(events, event.word, number),
        }
    }

    /// Where a walk goes on from the hart's next event, where the word's last memory operation has
    /// this number.
    fn before_run(&self, events: &OwnEvents<'_>, event: &Event, number: u32) -> Option<u32>
        requires numbered { AreNumbered events.now }
        requires next { event.now.id.seq ≡ length events.now }
        requires words { AreWords events.now self.now }
        requires last { number_of self.now.lasts event.now.word ≡ Some number }
        ensures { IsBeforeRun events.now event.now result }
    {
        let last = events.at(number as usize);
        if last.is_store() || last.read != event.read {
            return Some(number);
        }
        self.link_at(number as usize).before_run
    }

    /// Takes the last event off. `events` are those that are left. It takes no memory.
    pub fn drop_last(&mut self, events: &OwnEvents<'_>, event: &Event)
        requires numbered { AreNumbered (events.now ++ event.now ∷ []) }
        requires words { AreWords (events.now ++ event.now ∷ []) self.old }
        ensures { AreWords events.now self.new }
    {
        // Its contract alone speaks of these.
        let _ = events;
        let Some(link) = self.links.pop() else {
            return;
        };
        if event.is_memory() {
            self.step_back(event.word, link.link().previous);
        }
    }

    /// Makes the operation with this number the word's last, where there is one, and else forgets
    /// the word.
    fn step_back(&mut self, word: u32, last: Option<u32>)
        requires { IsSome (number_of self.old.lasts word) }
        ensures links { self.new.links ≡ self.old.links }
        ensures here { number_of self.new.lasts word ≡ last }
        ensures others { (other : ℕ) → word ≢ other →
            number_of self.new.lasts other ≡ number_of self.old.lasts other }
    {
        match last {
            Some(number) => self.lasts.replace(word, number),
            None => self.lasts.remove(word),
        }
    }
}
