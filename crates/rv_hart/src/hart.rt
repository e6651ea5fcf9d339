//! The events of one hart, and what its next event asks for.
ghost use Rattle.std.specs.Prelude.{◌≡◌, ◌<◌, ◌++◌, ◌∷◌, [], IfOk, OnOk, OnErr, List, length};
ghost use Rattle.std.specs.Option.{option_copied};
ghost use Rattle.rv_event.specs.Faults.{is_reserved};
ghost use Rattle.rv_event.specs.Log.{events};
ghost use Rattle.rv_event.specs.declared.event.Event.{Event};
ghost use Rattle.rv_hart.specs.Harts.{Follows, IsHart, IsReturned};
ghost use Rattle.rv_hart.specs.Kept.{IsHartOf, IsNext, IsPartner, IsStaleBy, hart_at, hart_of_log};
ghost use Rattle.rv_hart.specs.RuleLinks.{AreRuleLinks, AreEnoughLinks};

use crate::kept::Kept;
use crate::next::Next;
use crate::own_events::OwnEvents;
use rv_event::{Entry, Event, Id, Link, MemoryModel, NoMemory};
use rv_rows::Row;
use std::alloc::Global;

/// What the rules of preserved program order ask of one hart's events at its next one (manual,
/// section 14.1, "Preserved Program Order"), beside the log that has the events.
///
/// Each call takes that log, of the events of all harts. Contracts see the fields, and
/// [`IsHartOf`](specs/Kept.antt) says that they are those of the log's events. An event takes some
/// 30 bytes, and at most n / 8 for event n: 8 for each 64 events from the first operation on that
/// does not lead to it by rules, without those before the first that does.
#[derive(Drop)]
pub struct HartOrder {
    /// The places of the hart's events in the log.
    pub places: Vec<u32>,
    /// What is kept of these events.
    pub kept: Kept,
}

impl HartOrder {
    /// A hart without events. It takes no memory; the allocator serves the calls to come.
    pub fn new(alloc: Global, model: MemoryModel, number: u8) -> Self
        ensures model { result.kept.model ≡ model }
        ensures number { result.kept.number ≡ number }
        ensures none { (log : List Event) → (hart_of_log log result).events ≡ [] → IsHartOf log result }
    {
        let places = Vec::new(alloc);
        let kept = Kept::new(alloc, model, number);
        HartOrder { places, kept }
    }

    /// The hart's events, in program order.
    pub fn events<'a>(&'a self, log: &'a [Entry]) -> OwnEvents<'a>
        requires { IsHartOf (events log.now) self.now }
        ensures value { result ≡ (hart_of_log (events log.now) self.now).events }
        ensures hart { IsHart (hart_of_log (events log.now) self.now) }
    {
        OwnEvents::new(log, self.kept.number, self.places.as_slice())
    }

    /// The links of an event that may follow, from earlier ones, each with the lowest rule of
    /// preserved program order that orders the two. An earlier event that a rule orders before it
    /// has a link, or stands before another that has one.
    ///
    /// `returned` is the number of the hart's own store that the event, a load, returns, where
    /// there is one. The links stand in place of what `list` had.
    ///
    /// It costs a step for each 64 events from the first to the last of the candidates, and for
    /// each link. A store costs a step for each operation of its word back to the hart's last store
    /// of it. A load costs a step for each load of the nearest run, of its word, that returned one
    /// other version. A hart's fences, annotated events and branches cost a pass over their sets
    /// each.
    ///
    /// # Errors
    /// `NoMemory` where the list could not grow; the hart stays as it is, and the list is gone.
    pub fn before(
        &self,
        log: &[Entry],
        event: &Event,
        returned: Option<u32>,
        list: Vec<Link>,
    ) -> Result<Vec<Link>, NoMemory>
        requires of_log { IsHartOf (events log.now) self.now }
        requires follows { Follows (hart_of_log (events log.now) self.now) event.now }
        requires returned { IsReturned (hart_of_log (events log.now) self.now) event.now returned }
        ensures { IfOk result (λ links. AreRuleLinks (hart_of_log (events log.now) self.now) event.now links.items) }
    {
        self.next(log, event, returned).before(list)
    }

    /// Adds the event, which comes next in the log. `links` are links into it, those of other harts
    /// and of other reasons among them; each earlier event that a rule orders before it has one, or
    /// stands before another that has one.
    ///
    /// It costs a step for each 64 events from the first to the last that leads to it by rules, for
    /// each link that names a rule, and what `before` costs more where a link of the hart names no
    /// rule, and no other link leads to its event.
    ///
    /// # Errors
    /// `NoMemory` where it could not be kept, and where the log has 2^32 events or more, as a place
    /// has four bytes; the hart stays as it is.
    pub fn push(
        &mut self,
        log: &[Entry],
        event: &Event,
        returned: Option<u32>,
        links: &[Link],
    ) -> Result<(), NoMemory>
        requires of_log { IsHartOf (events log.now) self.old }
        requires follows { Follows (hart_of_log (events log.now) self.old) event.now }
        requires returned { IsReturned (hart_of_log (events log.now) self.old) event.now returned }
        requires linked { AreEnoughLinks (hart_of_log (events log.now) self.old) event.now links.now }
        ensures model { self.new.kept.model ≡ self.old.kept.model }
        ensures number { self.new.kept.number ≡ self.old.kept.number }
        ensures pushed { OnOk result (IsHartOf (events log.now ++ event.now ∷ []) self.new) }
        ensures unchanged { OnErr result (IsHartOf (events log.now) self.new) }
    {
        let Ok(place) = u32::try_from(log.len()) else {
            return Err(NoMemory);
        };
        let mut row = Row::new();
        self.next(log, event, returned).fill_row(links, &mut row);
        self.places.reserve(1)?;
        let events = OwnEvents::new(log, self.kept.number, self.places.as_slice());
        self.kept.push(&events, event, &row)?;
        self.places.push_reserved(place);
        Ok(())
    }

    /// Takes the last event of the log, which is the hart's, off. `log` is the log without it. It
    /// takes no memory, and costs a few steps for each event of the hart that is left.
    pub fn pop(&mut self, log: &[Entry], event: &Event)
        requires of_log { IsHartOf (events log.now ++ event.now ∷ []) self.old }
        requires own { event.now.id.hart ≡ self.old.kept.number }
        ensures model { self.new.kept.model ≡ self.old.kept.model }
        ensures number { self.new.kept.number ≡ self.old.kept.number }
        ensures popped { IsHartOf (events log.now) self.new }
    {
        self.places.pop();
        let events = OwnEvents::new(log, self.kept.number, self.places.as_slice());
        self.kept.drop_last(&events, event);
    }

    /// Whether the hart's last LR, SC or failed SC is an LR, so that an SC may follow. It costs one
    /// step.
    pub fn is_reserved(&self) -> bool
        ensures { (log : List Event) → IsHartOf log self.now →
            result ≡ is_reserved (hart_of_log log self.now).events self.now.kept.number }
    {
        self.kept.sets.reserved.is_some()
    }

    /// The LR with which an event that may follow is paired, and None where there is none (manual,
    /// section 14.1, "Memory Model Primitives"). It costs one step.
    pub fn partner<'a>(&'a self, log: &'a [Entry], event: &Event) -> Option<&'a Event>
        requires of_log { IsHartOf (events log.now) self.now }
        requires follows { Follows (hart_of_log (events log.now) self.now) event.now }
        ensures { IsPartner (hart_of_log (events log.now) self.now) event.now (option_copied result) }
    {
        self.kept.partner(&self.events(log), event)
    }

    /// An own earlier store of the event's word, of a higher version than the event, a load,
    /// returned, and None where there is none: the event may follow, but no lawful order has such a
    /// pair (manual, section 14.1, "Load Value Axiom"). It costs one look-up.
    pub fn stale(&self, log: &[Entry], event: &Event) -> Option<Id>
        requires of_log { IsHartOf (events log.now) self.now }
        requires follows { Follows (hart_of_log (events log.now) self.now) event.now }
        ensures { IsStaleBy (hart_of_log (events log.now) self.now) event.now result }
    {
        self.kept.stale(&self.events(log), event)
    }

    /// An event that may follow, beside the hart.
    fn next<'a>(&'a self, log: &'a [Entry], event: &'a Event, returned: Option<u32>) -> Next<'a>
        requires of_log { IsHartOf (events log.now) self.now }
        requires follows { Follows (hart_of_log (events log.now) self.now) event.now }
        requires returned { IsReturned (hart_of_log (events log.now) self.now) event.now returned }
        ensures hart { hart_at result ≡ hart_of_log (events log.now) self.now }
        ensures event { result.event.now ≡ event.now }
        ensures next { IsNext result }
    {
        Next {
            kept: &self.kept,
            events: self.events(log),
            event,
            returned,
        }
    }
}
