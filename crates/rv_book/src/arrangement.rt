//! A history whose memory operations stand in an order that every edge respects.
ghost use Rattle.std.specs.Prelude.{◌≡◌, ◌≢◌, ◌<◌, ◌≤◌, ◌∷◌, [], None, IfOk, OnOk, OnErr, length, map, ℕ};
ghost use Rattle.std.specs.Prelude.{All, AllPairs, Contains};
ghost use Rattle.rv_event.specs.Faults.{event_fault, first_faults, lowest};
ghost use Rattle.rv_event.specs.Operations.{IsMemory};
ghost use Rattle.rv_event.specs.Orders.{Lawful};
ghost use Rattle.rv_event.specs.Log.{writer};
ghost use Rattle.std.specs.Option.{option_map};
ghost use Rattle.rv_edges.specs.Kept.{happened, grown, links_of};
ghost use Rattle.rv_edges.specs.Histories.{IsCarried, kept_of};
ghost use Rattle.rv_edges.specs.KnownEvents.{IsKnown};
ghost use Rattle.rv_edges.specs.Ties.{AreTiesOf};
ghost use Rattle.rv_book.specs.Adding.{IsRefused};
ghost use Rattle.rv_book.specs.Arranged.{at, EachLeads, order_of};
ghost use Rattle.rv_book.specs.Counts.{is_waiting};
ghost use Rattle.rv_book.specs.Nodes.{AreNodes, HasNode};

use crate::closing::close;
use crate::evidence::evidence_of;
use crate::hints::Hints;
use crate::nodes::{find_nodes, ids_at, ids_of};
use rv_cert::{Certificate, Circle, Evidence};
use rv_edges::{Around, History, Known, Room, Tie};
use rv_event::{Entry, Event, Fault, Id, Link, MemoryModel, NoMemory};
use rv_rank::{Ranks, Refused};
use std::alloc::Global;
use std::marker::Model;
use std::mem;

/// Whether an event was taken.
#[derive(Drop, Debug)]
pub enum Added {
    /// It joined the history.
    Taken,
    /// No order is lawful with it, as the certificate shows in the log followed by its entry.
    Refused(Evidence, Certificate),
}

/// A history with an order of its memory operations that every edge respects.
#[derive(Drop)]
pub struct Arrangement {
    alloc: Global,
    history: History,
    ranks: Ranks,
    ids: Vec<Id>,
    hints: Hints,
    /// The nodes before the event that is looked at; what stands here between two events says
    /// nothing.
    preds: Vec<u32>,
    /// Those after it, alike.
    succs: Vec<u32>,
    /// Room for the links of the event that is looked at.
    room: Room,
}

impl Model for Arrangement {
    ghost use Rattle.rv_book.specs.Arranged.{Arranged, IsArranged};

    ghost Value = { Arranged };

    ghost view = { λ a. record {
      model = a.history.model;
      log = a.history.log;
      history = a.history.kept;
      edges = a.ranks.edges;
      ranks = a.ranks.ranks;
      ids = a.ids.items;
    } };

    ghost invariant = { λ a. IsArranged (record {
      model = a.history.model;
      log = a.history.log;
      history = a.history.kept;
      edges = a.ranks.edges;
      ranks = a.ranks.ranks;
      ids = a.ids.items;
    }) };
}

impl Arrangement {
    ghost use Rattle.rv_book.specs.Adding.{IsAdded, IsFit};

    /// No events.
    pub fn new(alloc: Global, model: MemoryModel) -> Self
        ensures model { result.model ≡ model }
        ensures log { result.log ≡ [] }
        ensures history { result.history ≡ [] }
    {
        Arrangement {
            alloc,
            history: History::new(alloc, model),
            ranks: Ranks::new(alloc),
            ids: Vec::new(alloc),
            hints: Hints::new(alloc),
            preds: Vec::new(alloc),
            succs: Vec::new(alloc),
            room: Room::new(alloc),
        }
    }

    /// The memory model. The order is lawful for the history under it.
    pub fn model(&self) -> MemoryModel
        ensures value { result ≡ self.now.model }
        ensures lawful { Lawful self.now.model (happened self.now.history) (order_of self.now.ranks self.now.ids) }
    {
        self.history.model()
    }

    /// The entries whose events are the history, in the order in which they came.
    pub fn log(&self) -> &[Entry]
        ensures { result.now ≡ self.now.log }
    {
        self.history.entries()
    }

    /// The ids of the memory operations, in the order.
    pub fn order(&self) -> Result<Vec<Id>, NoMemory>
        ensures { IfOk result (λ ids. ids.items ≡ order_of self.now.ranks self.now.ids) }
    {
        let nodes = self.ranks.order()?;
        ids_at(self.alloc, self.ids.as_slice(), nodes.as_slice())
    }

    /// The first fault of the event over the history, up to a full hart.
    pub fn first_fault(&self, event: &Event) -> Option<Fault>
        ensures { result ≡ lowest (first_faults (happened self.now.history) event.now) }
    {
        self.history.first_fault(event)
    }

    /// Whether the event is a load that returned a version above 0 which no store of the history
    /// has written.
    pub fn is_waiting(&self, event: &Event) -> bool
        ensures { result ≡ is_waiting (happened self.now.history) event.now }
    {
        event.op.is_load()
            && event.read != 0
            && self.history.writer(event.word, event.read).is_none()
    }

    /// The name of the store that wrote this version of the word, if the history has it.
    pub fn writer(&self, word: u32, version: u32) -> Option<Id>
        ensures { result ≡ option_map (λ w. w.id) (writer (happened self.now.history) word version) }
    {
        self.history.writer(word, version)
    }

    /// The links that the history keeps, one event after the other.
    ///
    /// # Errors
    /// `NoMemory` where the list could not be had.
    pub fn links(&self) -> Result<Vec<Link>, NoMemory>
        ensures value { IfOk result (λ links. links.items ≡ links_of self.now.history) }
        ensures carried { IsCarried self.now.model self.now.history }
    {
        self.history.links()
    }

    /// The links that the history keeps, each with both of its ends.
    ///
    /// # Errors
    /// `NoMemory` where the list could not be had.
    pub fn ties(&self) -> Result<Vec<Tie>, NoMemory>
        ensures { IfOk result (λ ties. AreTiesOf self.now.model (happened self.now.history) ties.items) }
    {
        self.history.ties()
    }

    /// Adds the entry where some order is lawful with its event.
    ///
    /// # Errors
    /// `NoMemory` where it could not be kept; nothing changes, but the entry is gone.
    #[inline(always)]
    pub fn add(&mut self, entry: Entry) -> Result<Added, NoMemory>
        requires sound { event_fault (happened self.old.history) entry.event ≡ None }
        requires room { length self.old.history < 65536 }
        ensures added { IfOk result (IsAdded self.old self.new entry) }
        ensures unchanged { OnErr result (self.new ≡ self.old) }
    {
        let known = self.history.known(&entry.event);
        let room = mem::replace(&mut self.room, Room::new(self.alloc));
        let around = self.history.around_in(&entry.event, known, room)?;
        if around.itself {
            return refuse(self.alloc, &self.history, self.ids.as_slice(), &entry, &[]);
        }
        if let Some(store) = around.stale {
            let evidence = evidence_of(self.alloc, self.history.entries(), &entry)?;
            let load = entry.event.id;
            return Ok(Added::Refused(evidence, Certificate::Stale { load, store }));
        }
        let added = self.add_known(entry, &around, known)?;
        self.room = around.into_room();
        Ok(added)
    }

    /// Adds the entry where its edges close no circle.
    fn add_known(&mut self, entry: Entry, around: &Around, known: Known) -> Result<Added, NoMemory>
        requires fit { IsFit self.old (kept_of entry.event around.now) }
        requires known { IsKnown self.old.model (happened self.old.history) entry.event known }
        requires room { length self.old.history < 65536 }
        ensures added { IfOk result (IsAdded self.old self.new entry) }
        ensures unchanged { OnErr result (self.new ≡ self.old) }
    {
        if entry.event.is_memory() {
            return self.place(entry, around, known);
        }
        self.history.push_known(entry, around, known)?;
        Ok(Added::Taken)
    }

    /// Adds the entry of a memory operation where its edges close no circle.
    fn place(&mut self, entry: Entry, around: &Around, known: Known) -> Result<Added, NoMemory>
        requires fit { IsFit self.old (kept_of entry.event around.now) }
        requires known { IsKnown self.old.model (happened self.old.history) entry.event known }
        requires room { length self.old.history < 65536 }
        requires memory { IsMemory entry.event }
        ensures added { IfOk result (IsAdded self.old self.new entry) }
        ensures unchanged { OnErr result (self.new ≡ self.old) }
    {
        let id = entry.event.id;
        self.ids.reserve(1)?;
        self.hints.note(id, self.ids.len() as u32)?;
        let ids = self.ids.as_slice();
        find_ends(ids, &self.hints, around, &mut self.preds, &mut self.succs)?;
        self.history.push_known(entry, around, known)?;
        let preds = self.preds.as_slice();
        let succs = self.succs.as_slice();
        match self.ranks.place(preds, succs) {
            Ok(_) => {
                self.ids.push(id).unwrap();
                Ok(Added::Taken)
            }
            Err(refused) => {
                let removed = self.history.pop();
                // It is dropped by a call: where the scope ends, the proof would take it apart.
                let Refused::Circle(path) = refused else {
                    drop(removed);
                    return Err(NoMemory);
                };
                let names = self.ids.as_slice();
                let nodes = path.as_slice();
                let refusal = refuse(self.alloc, &self.history, names, &removed, nodes);
                drop(removed);
                refusal
            }
        }
    }
}

/// Puts the nodes of the links into the event and out of it into the two lists, in place of what
/// these had.
fn find_ends(
    ids: &[Id],
    hints: &Hints,
    around: &Around,
    preds: &mut Vec<u32>,
    succs: &mut Vec<u32>,
) -> Result<(), NoMemory>
    requires small { length ids.now < 65536 }
    requires before { (l : Link) → Contains around.now.before l → HasNode ids.now l.id }
    requires after { (l : Link) → Contains around.now.after l → HasNode ids.now l.id }
    ensures before { OnOk result (AreNodes ids.now around.now.before preds.new.items) }
    ensures after { OnOk result (AreNodes ids.now around.now.after succs.new.items) }
{
    let before = around.before.as_slice();
    let after = around.after.as_slice();
    find_nodes(ids, hints, before, preds)?;
    find_nodes(ids, hints, after, succs)
}

/// The refusal of the entry by the circle from its event through the nodes of the path.
#[inline(never)]
fn refuse(
    alloc: Global,
    history: &History,
    ids: &[Id],
    entry: &Entry,
    path: &[u32],
) -> Result<Added, NoMemory>
    requires low { All (λ a. a < length ids.now) path.now }
    requires leads { EachLeads history.now.model (grown history.now.kept entry.now.event)
        (entry.now.event.id ∷ map (at ids.now) path.now) }
    requires once { AllPairs (λ i j. i ≢ j) (entry.now.event.id ∷ map (at ids.now) path.now) }
    ensures { IfOk result (IsRefused history.now entry.now) }
{
    let evidence = evidence_of(alloc, history.entries(), entry)?;
    let walk = ids_of(alloc, entry.event.id, ids, path)?;
    let log = evidence.as_slice();
    let steps = close(alloc, history.model(), log, walk.as_slice())?;
    let circle = Certificate::Circle(Circle::from_vec(steps));
    Ok(Added::Refused(evidence, circle))
}
