//! Events, each kept with links to the events before it.
ghost use Rattle.std.specs.Prelude.{◌≡◌, ◌≢◌, ◌↔◌, ◌++◌, ◌∷◌, [], None, IsTrue, IfOk, IfSome, IfNone, OnOk};
ghost use Rattle.std.specs.Prelude.{OnErr, List, ℕ, ◌<◌, ◌≤◌, length, slice_get};
ghost use Rattle.std.specs.List.{list_any};
ghost use Rattle.rv_event.specs.Log.{events, named, of_hart, writer};
ghost use Rattle.rv_event.specs.Preserved.{IsPreserved};
ghost use Rattle.rv_event.specs.declared.event.Event.{Event};
ghost use Rattle.rv_event.specs.Faults.{event_fault, first_faults, lowest, is_reserved};
ghost use Rattle.rv_event.specs.Contexts.{IsContext, is_bad_on};
ghost use Rattle.rv_event.proofs.Indexed.{Indexed};
ghost use Rattle.rv_cover.specs.Paths.{Covers};
ghost use Rattle.rv_cover.specs.Thinned.{IsUnsplit, IsNearest};
ghost use Rattle.rv_hart.specs.Harts.{IsReturned};
ghost use Rattle.rv_hart.specs.RuleLinks.{AreRuleLinks};
ghost use Rattle.rv_versions.specs.Reserved.{IsReserved};
ghost use Rattle.rv_edges.specs.Kept.{Kept, happened, grown, links_of, IsTied};
ghost use Rattle.rv_edges.specs.Histories.{IsLinked, IsCarried, kept_of, with_entry, HasOwnEdge, IsStaleOf};
ghost use Rattle.rv_edges.specs.Indexes.{AreHarts, IsHartIn, hart_in};
ghost use Rattle.rv_edges.specs.KnownEvents.{IsKnown};
ghost use Rattle.rv_edges.specs.Ties.{ties_of};
ghost use Rattle.std.specs.Option.{option_copied, option_map};

use crate::links::{KeptLinks, Links};
use crate::ties::Tie;
use rv_event::{
    Context, Dep, Entry, Event, Fault, Id, Link, MemoryModel, NoMemory, find_deps_fault,
    first_fault, is_bad_dependency, lowest_rule,
};
use rv_hart::{HartOrder, OwnEvents};
use rv_versions::{Reservation, Versions};
use std::alloc::Global;
use std::marker::Model;

/// The edges that a new event would have.
#[derive(Drop, Debug)]
pub struct Around {
    /// Links from other events to it.
    pub before: Links,
    /// Links from it to other events.
    pub after: Links,
    /// Whether an edge leads from the event to itself: an AMO that returned its own version, or an
    /// SC whose LR returned what the SC wrote.
    pub itself: bool,
    /// An earlier store of its hart and word with a higher version than it returned, where there is
    /// one.
    pub stale: Option<Id>,
}

impl Around {
    /// Its lists, whose room is used again. It takes no memory.
    pub fn into_room(self) -> Room
        ensures before { result.before.items ≡ self.before }
        ensures after { result.after.items ≡ self.after }
    {
        Room {
            before: self.before.into_vec(),
            after: self.after.into_vec(),
        }
    }
}

/// Lists whose room is used again; what they have is lost then.
#[derive(Drop, Debug)]
pub struct Room {
    /// For links from other events.
    pub before: Vec<Link>,
    /// For links to other events.
    pub after: Vec<Link>,
}

impl Room {
    /// No room yet. It takes no memory; the allocator serves the calls to come.
    pub fn new(alloc: Global) -> Self
        ensures before { result.before.items ≡ [] }
        ensures after { result.after.items ≡ [] }
    {
        Room {
            before: Vec::new(alloc),
            after: Vec::new(alloc),
        }
    }
}

/// What a history has of a new event in its look-ups.
#[derive(Clone, Copy, Debug)]
pub struct Known {
    /// The number of the store of the event's own hart that the event, a load, returns.
    pub returned: Option<u32>,
    /// What the LR returned with which the event, an SC, is paired.
    pub reserved: Option<Reservation>,
}

/// Events, each kept with links to the events before it.
///
/// Contracts see it as its model, its log, and the log's events with their links. Its type keeps
/// that each event has no fault over those before it, and that each one's links are as
/// [`History::around`] promises.
#[derive(Drop)]
pub struct History {
    alloc: Global,
    model: MemoryModel,
    versions: Versions,
    harts: Vec<HartOrder>,
    links: KeptLinks,
}

impl Model for History {
    ghost use Rattle.rv_event.specs.Log.{events};
    ghost use Rattle.rv_edges.specs.Kept.{Past, kept_from};
    ghost use Rattle.rv_edges.specs.Indexes.{AreIndexes};

    ghost Value = { Past };

    ghost view = { λ h. record {
      model = h.model;
      log = h.versions;
      kept = kept_from (events h.versions) h.links;
    } };

    ghost invariant = { λ h. AreIndexes h.model (events h.versions) h.harts.items h.links };
}

impl History {
    /// No events, under a memory model. It takes no memory; the allocator serves the calls to come.
    pub fn new(alloc: Global, model: MemoryModel) -> Self
        ensures { result ≡ record { model = model; log = []; kept = [] } }
    {
        let versions = Versions::new(alloc);
        let harts = Vec::new(alloc);
        let links = KeptLinks::new(alloc);
        History {
            alloc,
            model,
            versions,
            harts,
            links,
        }
    }

    /// The memory model.
    pub fn model(&self) -> MemoryModel
        ensures value { result ≡ self.now.model }
        ensures carried { IsCarried self.now.model self.now.kept }
    {
        self.model
    }

    /// The lowest rule of preserved program order, 1 to 13, that orders the first event of the
    /// history before the second. None exactly where no rule does. It takes no memory.
    pub fn preserved(&self, a: Id, b: Id) -> Option<u8>
        ensures some { IfSome result (λ k. IsPreserved self.now.model (happened self.now.kept) k a b) }
        ensures lowest { IfSome result (λ k. (j : ℕ) → j < k →
            IsPreserved self.now.model (happened self.now.kept) j a b → ⊥) }
        ensures none { IfNone result ((k : ℕ) → IsPreserved self.now.model (happened self.now.kept) k a b → ⊥) }
    {
        lowest_rule(self.model, self.entries(), a, b)
    }

    /// The fault of the event over the history, all but that of its source: none exactly where it
    /// may join.
    ///
    /// It costs a look-up for each dependency and for the version, and a step for each other fault.
    pub fn fault(&self, event: &Event) -> Option<Fault>
        ensures { result ≡ event_fault (happened self.now.kept) event.now }
    {
        if let Some(fault) = self.first_fault(event) {
            return Some(fault);
        }
        find_deps_fault(event)
    }

    /// The first fault of the event over the history, up to a full hart: all but that of its source
    /// and too many dependencies.
    pub fn first_fault(&self, event: &Event) -> Option<Fault>
        ensures { result ≡ lowest (first_faults (happened self.now.kept) event.now) }
    {
        first_fault(event, &self.context_of(event))
    }

    /// The name of the store that wrote this version of the word. Version 0, the initial value, has
    /// none.
    pub fn writer(&self, word: u32, version: u32) -> Option<Id>
        ensures { result ≡ option_map (λ w. w.id) (writer (happened self.now.kept) word version) }
    {
        self.versions.writer(word, version)
    }

    /// The edges that the event would have, as links.
    ///
    /// Each listed link is an edge of the history with the event, with its reason, a rule under the
    /// number that `preserved` would give; none names the event itself. Listed and kept links cover
    /// every edge, and few are listed: a rule only where no other event stands between by two
    /// rules, coherence only with the known stores of the nearest versions, from-read only over no
    /// other store's version.
    ///
    /// # Errors
    /// `NoMemory` where a list could not be had; nothing changes.
    pub fn around(&self, event: &Event) -> Result<Around, NoMemory>
        requires { event_fault (happened self.now.kept) event.now ≡ None }
        ensures linked { IfOk result (λ a. IsLinked self.now.model self.now.kept (kept_of event.now a)) }
        ensures covered { IfOk result (λ a.
            Covers self.now.model (grown self.now.kept event.now)
            (IsTied (self.now.kept ++ kept_of event.now a ∷ []))) }
        ensures itself { IfOk result (λ a. IsTrue a.itself ↔ HasOwnEdge self.now.model self.now.kept event.now) }
        ensures stale { IfOk result (λ a. IsStaleOf self.now.kept event.now a.stale) }
        ensures unsplit { IfOk result (λ a. IsUnsplit self.now.model (happened self.now.kept) event.now a.before) }
        ensures nearest { IfOk result (λ a. IsNearest (happened self.now.kept) event.now a.before a.after) }
    {
        self.around_in(event, self.known(event), Room::new(self.alloc))
    }

    /// What [`History::around_in`] and [`History::push_known`] have to know of the event.
    ///
    /// It costs a look-up of its word, where it is a load.
    pub fn known(&self, event: &Event) -> Known
        requires { event_fault (happened self.now.kept) event.now ≡ None }
        ensures { IsKnown self.now.model (happened self.now.kept) event.now result }
    {
        Known {
            returned: self.returned(event),
            reserved: self.reserved(event),
        }
    }

    /// The same as [`History::around`], of an event that is known, in lists that may have room.
    ///
    /// # Errors
    /// `NoMemory` where a list could not grow; nothing changes, but the room is gone.
    pub fn around_in(&self, event: &Event, known: Known, room: Room) -> Result<Around, NoMemory>
        requires sound { event_fault (happened self.now.kept) event.now ≡ None }
        requires known { IsKnown self.now.model (happened self.now.kept) event.now known }
        ensures linked { IfOk result (λ a. IsLinked self.now.model self.now.kept (kept_of event.now a)) }
        ensures covered { IfOk result (λ a.
            Covers self.now.model (grown self.now.kept event.now)
            (IsTied (self.now.kept ++ kept_of event.now a ∷ []))) }
        ensures itself { IfOk result (λ a. IsTrue a.itself ↔ HasOwnEdge self.now.model self.now.kept event.now) }
        ensures stale { IfOk result (λ a. IsStaleOf self.now.kept event.now a.stale) }
        ensures unsplit { IfOk result (λ a. IsUnsplit self.now.model (happened self.now.kept) event.now a.before) }
        ensures nearest { IfOk result (λ a. IsNearest (happened self.now.kept) event.now a.before a.after) }
    {
        let Room { before, after } = room;
        let Known { returned, reserved } = known;
        let rules = self.rule_links(event, returned, before)?;
        let links = self.versions.around(event, reserved, rules, after)?;
        let before = Links::from_vec(links.before);
        let after = Links::from_vec(links.after);
        Ok(Around {
            before,
            after,
            itself: self.versions.has_own_edge(event, reserved),
            stale: self.stale(event),
        })
    }

    /// The entries of the history, in the order in which they came.
    pub fn entries(&self) -> &[Entry]
        ensures value { result.now ≡ self.now.log }
        ensures events { events result.now ≡ happened self.now.kept }
        ensures few { length result.now ≤ 65536 }
        ensures indexed { Indexed (happened self.now.kept) }
    {
        self.versions.entries()
    }

    /// The links that the history keeps, one event after the other.
    ///
    /// Each is of an edge of the history, and wherever it has an edge a path of them leads.
    ///
    /// # Errors
    /// `NoMemory` where the list could not be had.
    pub fn links(&self) -> Result<Vec<Link>, NoMemory>
        ensures value { IfOk result (λ links. links.items ≡ links_of self.now.kept) }
        ensures carried { IsCarried self.now.model self.now.kept }
    {
        self.links.all(self.alloc)
    }

    /// The links that the history keeps, each with both of its ends, one event after the other.
    ///
    /// # Errors
    /// `NoMemory` where the list could not be had.
    pub fn ties(&self) -> Result<Vec<Tie>, NoMemory>
        ensures value { IfOk result (λ ties. ties.items ≡ ties_of self.now.kept) }
        ensures carried { IsCarried self.now.model self.now.kept }
    {
        self.links.ties(self.alloc, self.versions.entries())
    }

    /// Adds a copy of the event with its links, as an entry of source 0. The links are as `around`
    /// promises.
    ///
    /// # Errors
    /// `NoMemory` where the event and its links could not be kept; the history stays as it is.
    pub fn push(&mut self, event: &Event, around: &Around) -> Result<(), NoMemory>
        requires sound { event_fault (happened self.old.kept) event.now ≡ None }
        requires linked { IsLinked self.old.model self.old.kept (kept_of event.now around.now) }
        ensures pushed { OnOk result
            (self.new ≡ with_entry self.old (record { source = 0; event = event.now }) around.now) }
        ensures unchanged { OnErr result (self.new ≡ self.old) }
    {
        let event = event.copy(self.alloc)?;
        self.push_entry(Entry { source: 0, event }, around)
    }

    /// Adds the entry with its event's links, which are as `around` promises.
    ///
    /// # Errors
    /// `NoMemory` where the entry and its links could not be kept; the history stays as it is, and
    /// the entry is gone.
    pub fn push_entry(&mut self, entry: Entry, around: &Around) -> Result<(), NoMemory>
        requires sound { event_fault (happened self.old.kept) entry.event ≡ None }
        requires linked { IsLinked self.old.model self.old.kept (kept_of entry.event around.now) }
        ensures pushed { OnOk result (self.new ≡ with_entry self.old entry around.now) }
        ensures unchanged { OnErr result (self.new ≡ self.old) }
    {
        let known = self.known(&entry.event);
        self.push_known(entry, around, known)
    }

    /// The same as [`History::push_entry`], of an event that is known.
    ///
    /// # Errors
    /// `NoMemory` where the entry and its links could not be kept; the history stays as it is, and
    /// the entry is gone.
    #[inline(always)]
    pub fn push_known(
        &mut self,
        entry: Entry,
        around: &Around,
        known: Known,
    ) -> Result<(), NoMemory>
        requires sound { event_fault (happened self.old.kept) entry.event ≡ None }
        requires known { IsKnown self.old.model (happened self.old.kept) entry.event known }
        requires linked { IsLinked self.old.model self.old.kept (kept_of entry.event around.now) }
        ensures pushed { OnOk result (self.new ≡ with_entry self.old entry around.now) }
        ensures unchanged { OnErr result (self.new ≡ self.old) }
    {
        let Known { returned, reserved } = known;
        let number = entry.event.id.hart;
        open_harts(self.alloc, self.model, &mut self.harts, number)?;
        let before = around.before.as_slice();
        self.links.append(before, around.after.as_slice())?;
        let kept = self.versions.push(entry, reserved);
        if let Err(NoMemory) = kept {
            self.links.drop_last();
            return Err(NoMemory);
        }
        let Some((last, log)) = self.versions.entries().split_last() else {
            unreachable!()
        };
        let Some(hart) = self.harts.get_mut(number as usize) else {
            unreachable!()
        };
        let joined = hart.push(log, &last.event, returned, before);
        if let Err(NoMemory) = joined {
            self.versions.pop();
            self.links.drop_last();
            return Err(NoMemory);
        }
        Ok(())
    }

    /// Takes the last entry off with its event's links. It takes no memory.
    #[inline(never)]
    pub fn pop(&mut self) -> Entry
        requires { self.old.kept ≢ [] }
        ensures model { self.new.model ≡ self.old.model }
        ensures log { self.old.log ≡ self.new.log ++ result ∷ [] }
        ensures popped { (front : List Kept) (k : Kept) → self.old.kept ≡ front ++ k ∷ [] → self.new.kept ≡ front }
    {
        let entry = self.versions.pop();
        let Some(hart) = self.harts.get_mut(entry.event.id.hart as usize) else {
            unreachable!()
        };
        hart.pop(self.versions.entries(), &entry.event);
        self.links.drop_last();
        entry
    }

    /// What the history tells the event.
    fn context_of(&self, event: &Event) -> Context
        ensures { IsContext (happened self.now.kept) event.now result }
    {
        let own = self.events_of(event.id.hart);
        Context {
            count: own.len() as u32,
            depends_badly: depends_badly(&own, event),
            writer: self.writer(event.word, event.wrote),
            reserved: self.is_reserved(event.id.hart),
        }
    }

    /// The events of the hart, in program order.
    fn events_of(&self, number: u8) -> OwnEvents<'_>
        ensures value { result ≡ of_hart number (happened self.now.kept) }
        ensures few { length result ≤ 4096 }
        ensures named { (s : ℕ) →
            named (happened self.now.kept) (record { hart = number; seq = s }) ≡ slice_get result s }
    {
        let log = self.entries();
        match self.hart(number) {
            Some(hart) => hart.events(log),
            None => OwnEvents::new(log, number, &[]),
        }
    }

    /// Whether the last LR, SC or failed SC of the hart is an LR.
    fn is_reserved(&self, number: u8) -> bool
        ensures { result ≡ is_reserved (happened self.now.kept) number }
    {
        match self.hart(number) {
            Some(hart) => hart.is_reserved(),
            None => false,
        }
    }

    /// The hart of this number, where it was opened.
    fn hart(&self, number: u8) -> Option<&HartOrder>
        ensures hart { IsHartIn self.now number (option_copied result) }
        ensures indexed { Indexed (happened self.now.kept) }
    {
        self.harts.get(number as usize)
    }

    /// The number of the store of the event's own hart that the event, a load, returns.
    fn returned(&self, event: &Event) -> Option<u32>
        ensures { IsReturned (hart_in self.now event.now.id.hart) event.now result }
    {
        if !event.op.is_load() {
            return None;
        }
        let store = self.versions.writer(event.word, event.read)?;
        if store.hart == event.id.hart {
            Some(store.seq)
        } else {
            None
        }
    }

    /// What the LR returned with which the event is paired.
    fn reserved(&self, event: &Event) -> Option<Reservation>
        requires { event_fault (happened self.now.kept) event.now ≡ None }
        ensures { IsReserved (happened self.now.kept) event.now result }
    {
        let hart = self.hart(event.id.hart)?;
        let lr = hart.partner(self.entries(), event)?;
        Some(Reservation {
            word: lr.word,
            version: lr.read,
        })
    }

    /// The links by rules, in place of what the list had.
    fn rule_links(
        &self,
        event: &Event,
        returned: Option<u32>,
        list: Vec<Link>,
    ) -> Result<Vec<Link>, NoMemory>
        requires sound { event_fault (happened self.now.kept) event.now ≡ None }
        requires returned { IsReturned (hart_in self.now event.now.id.hart) event.now returned }
        ensures { IfOk result (λ links. AreRuleLinks (hart_in self.now event.now.id.hart) event.now links.items) }
    {
        match self.hart(event.id.hart) {
            Some(hart) => hart.before(self.entries(), event, returned, list),
            None => {
                let mut none = list;
                none.clear();
                Ok(none)
            }
        }
    }

    /// An earlier store of the event's hart and word with a higher version than the event, a load,
    /// returned.
    fn stale(&self, event: &Event) -> Option<Id>
        requires { event_fault (happened self.now.kept) event.now ≡ None }
        ensures { IsStaleOf self.now.kept event.now result }
    {
        let hart = self.hart(event.id.hart)?;
        hart.stale(self.entries(), event)
    }
}

/// Whether a dependency of the event on an event of its hart is bad.
fn depends_badly(own: &OwnEvents<'_>, event: &Event) -> bool
    ensures { result ≡ list_any (λ d. is_bad_on event.now d (slice_get own.now d.seq)) event.now.deps }
{
    event.deps.as_slice().iter().any(|d| is_bad(own, event, *d))
}

/// Whether the event's dependency on an event of its hart is bad.
fn is_bad(own: &OwnEvents<'_>, event: &Event, dep: Dep) -> bool
    ensures { result ≡ is_bad_on event.now dep (slice_get own.now dep.seq) }
{
    is_bad_dependency(event, dep, own.get(dep.seq as usize))
}

/// Makes a place for the events of the hart, and of all below it, where there is none.
///
/// # Errors
/// `NoMemory` where the list could not grow; no event comes or goes.
fn open_harts(
    alloc: Global,
    model: MemoryModel,
    harts: &mut Vec<HartOrder>,
    number: u8,
) -> Result<(), NoMemory>
    ensures same { (log : List Event) → AreHarts model log harts.old.items → AreHarts model log harts.new.items }
    ensures open { OnOk result (number < length harts.new.items) }
{
    if (number as usize) < harts.len() {
        return Ok(());
    }
    add_harts(alloc, model, harts, number)
}

/// Makes these places. It is not inlined, as what it has on the stack would be cleared at each event.
///
/// # Errors
/// `NoMemory` where the list could not grow; no event comes or goes.
#[inline(never)]
fn add_harts(
    alloc: Global,
    model: MemoryModel,
    harts: &mut Vec<HartOrder>,
    number: u8,
) -> Result<(), NoMemory>
    ensures same { (log : List Event) → AreHarts model log harts.old.items → AreHarts model log harts.new.items }
    ensures open { OnOk result (number < length harts.new.items) }
{
    for next in harts.len()..number as usize + 1 {
        harts.push(HartOrder::new(alloc, model, next as u8))?;
    }
    Ok(())
}
