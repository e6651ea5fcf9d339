//! A well formed log with an order that is lawful for it.
ghost use Rattle.std.specs.Prelude.{◌≡◌, ◌↔◌, ◌++◌, ◌∷◌, [], ◌<◌, ◌≤◌, ◌+◌, IfOk, OnErr, IsFalse, IsTrue};
ghost use Rattle.std.specs.Prelude.{length, true, count_by};
ghost use Rattle.std.specs.Option.{option_map};
ghost use Rattle.rv_book.specs.Counts.{AreSettled, WaitsAt, is_waiting, operations_of, waiting_of};
ghost use Rattle.rv_book.specs.Linked.{AreLinksOf};
ghost use Rattle.rv_edges.specs.Kept.{happened};
ghost use Rattle.rv_edges.specs.Ties.{AreTiesOf};
ghost use Rattle.rv_event.specs.Log.{events, writer};
ghost use Rattle.rv_event.specs.Faults.{fault_of};
ghost use Rattle.rv_event.specs.Orders.{Lawful};
ghost use Rattle.rv_event.specs.WellFormed.{WellFormed};

use crate::arrangement::{Added, Arrangement};
use crate::counts::count_operations;
use crate::evidence::evidence_of;
use crate::tally::Tally;
use rv_cert::{Forbidden, Malformed, Verdict};
use rv_chunk::{Chunk, unpack};
use rv_edges::Tie;
use rv_event::{Entry, Event, Fault, Id, Link, MemoryModel, NoMemory, find_deps_fault};
use std::alloc::Global;
use std::marker::Model;

/// What an offer came to. On all but `Accepted` the book's log and order are as they were.
#[derive(Drop, Debug)]
pub enum Offer {
    /// The log has grown by the entry, and some order is lawful for it.
    Accepted,
    /// The entry has a fault over the log; the book has stopped.
    Malformed(Malformed),
    /// No order is lawful for the log followed by the entry; the book has stopped.
    Forbidden(Forbidden),
    /// The book had stopped.
    Stopped,
    /// Memory was refused. The entry may be offered again.
    NoMemory,
}

/// What an offered chunk came to.
#[derive(Drop, Debug)]
pub enum ChunkOffer {
    /// So many of its events were accepted, and with them the log holds all of the chunk.
    Applied(usize),
    /// An earlier chunk of the source is missing: so many of the source's events are in the log.
    /// Nothing changed.
    NotYet(usize),
    /// The log holds all of the chunk. Nothing changed.
    Already,
    /// An event was malformed or forbidden; those before it stay accepted, and the book has
    /// stopped.
    Halted(Verdict),
    /// The book had stopped. Nothing changed.
    Stopped,
    /// Memory was refused. The events accepted before stay so, and the chunk may be offered again.
    NoMemory,
}

/// A log of accepted entries, and a global memory order that the model allows for them.
///
/// Its type keeps that the log is well formed and that the order is lawful for it.
#[derive(Drop)]
pub struct Book {
    alloc: Global,
    arrangement: Arrangement,
    tally: Tally,
    /// The entries before this place wait for no store.
    settled: usize,
    stopped: bool,
}

impl Model for Book {
    ghost use Rattle.rv_book.specs.Booked.{Booked, IsBooked, booked_of};
    ghost use Rattle.rv_book.specs.Counts.{AreSettled};
    ghost use Rattle.rv_book.specs.Tallied.{IsTallied};

    ghost Value = { Booked };

    ghost view = { λ b. booked_of b.arrangement.log b.arrangement b.stopped };

    ghost invariant = { λ b.
        IsBooked b.arrangement.log b.arrangement
        × IsTallied b.arrangement.log b.tally.sources b.tally.counts
        × AreSettled b.arrangement.log b.settled };
}

impl Book {
    ghost use Rattle.rv_book.specs.Booked.{IsForbiddenOn, IsJudged, IsMalformedOn, IsTaken};
    ghost use Rattle.rv_book.specs.Offers.{IfForbidden, IfMalformed, OnAccepted, OnRefused, OnUnjudged};
    ghost use Rattle.rv_book.specs.declared.book.Offer.TheVariants as offer;
    ghost use Rattle.rv_book.specs.ChunkOffers.{IfApplied, IfHalted, OnNoMemory, IfNotYet};
    ghost use Rattle.rv_book.specs.ChunkOffers.{OnAlready, OnOffered, OnPassed};
    ghost use Rattle.rv_book.specs.declared.book.ChunkOffer.TheVariants as chunk_offer;
    ghost use Rattle.rv_book.specs.Chunked.{count_of_source, rest_for, first_of, IsTurn};
    ghost use Rattle.rv_book.specs.Chunked.{TakesAll, HaltsWith, RunsOut};

    /// The empty log under a memory model. It takes no memory; the allocator serves the calls to
    /// come.
    pub fn new(alloc: Global, model: MemoryModel) -> Self
        ensures model { result.model ≡ model }
        ensures log { result.log ≡ [] }
        ensures going { IsFalse result.stopped }
    {
        let arrangement = Arrangement::new(alloc, model);
        // For the proof alone, which has the model from this call.
        let _model = arrangement.model();
        Book {
            alloc,
            arrangement,
            tally: Tally::new(),
            settled: 0,
            stopped: false,
        }
    }

    /// The memory model. The order is lawful for the log under it.
    pub fn model(&self) -> MemoryModel
        ensures value { result ≡ self.now.model }
        ensures lawful { Lawful self.now.model (events self.now.log) self.now.order }
    {
        self.arrangement.model()
    }

    /// The accepted entries, in the order in which they were offered.
    pub fn log(&self) -> &[Entry]
        ensures value { result.now ≡ self.now.log }
        ensures well_formed { WellFormed self.now.log }
    {
        self.arrangement.log()
    }

    /// Whether an entry was refused as malformed or forbidden.
    pub fn stopped(&self) -> bool
        ensures { result ≡ self.now.stopped }
    {
        self.stopped
    }

    /// How many entries were accepted. It takes no memory.
    pub fn accepted(&self) -> usize
        ensures { result ≡ length self.now.log }
    {
        self.arrangement.log().len()
    }

    /// How many of them came from the source. It takes no memory, and costs one look-up.
    pub fn given_by(&self, source: u8) -> usize
        ensures { result ≡ count_of_source self.now.log source }
    {
        self.tally.count_of_source(source)
    }

    /// How many of them are memory operations. It takes no memory, and costs one pass over the log.
    pub fn operations(&self) -> usize
        ensures { result ≡ operations_of self.now.log }
    {
        count_operations(self.arrangement.log())
    }

    /// How many of them are loads whose store has not come. It takes no memory, and costs one
    /// look-up for each entry from the first such load on.
    pub fn waiting(&self) -> usize
        ensures { result ≡ waiting_of self.now.log }
    {
        let rest = &self.arrangement.log()[self.settled..];
        count_waiting(&self.arrangement, rest)
    }

    /// Whether the event is a load that returned a version above 0 which no store of the log has
    /// written. It takes no memory, and costs one look-up.
    pub fn is_waiting(&self, event: &Event) -> bool
        ensures { result ≡ is_waiting (events self.now.log) event.now }
    {
        self.arrangement.is_waiting(event)
    }

    /// The name of the store that wrote this version of the word, if the log has it. Version 0, the
    /// initial value, has none. It takes no memory, and costs one look-up.
    pub fn writer(&self, word: u32, version: u32) -> Option<Id>
        ensures { result ≡ option_map (λ w. w.id) (writer (events self.now.log) word version) }
    {
        self.arrangement.writer(word, version)
    }

    /// The links by which the book keeps the edges of its log, one entry after the other: each is
    /// of an edge, and wherever the log has an edge a path of them leads.
    ///
    /// # Errors
    /// `NoMemory` where the list could not be had; the book stays as it is.
    pub fn links(&self) -> Result<Vec<Link>, NoMemory>
        ensures { IfOk result (λ links. AreLinksOf self.now.model (events self.now.log) links.items) }
    {
        self.arrangement.links()
    }

    /// The edges that the book keeps, each with both of its ends: wherever the log has an edge, a path
    /// of them leads.
    ///
    /// # Errors
    /// `NoMemory` where the list could not be had; the book stays as it is.
    pub fn ties(&self) -> Result<Vec<Tie>, NoMemory>
        ensures { IfOk result (λ ties. AreTiesOf self.now.model (events self.now.log) ties.items) }
    {
        self.arrangement.ties()
    }

    /// The ids of the memory operations, in an order that is lawful for the log.
    ///
    /// # Errors
    /// `NoMemory` where the list could not be had; the book stays as it is.
    pub fn order(&self) -> Result<Vec<Id>, NoMemory>
        ensures { IfOk result (λ ids. ids.items ≡ self.now.order) }
    {
        self.arrangement.order()
    }

    /// Takes the entry exactly where it has no fault over the log, and some order is lawful for the
    /// log with it.
    ///
    /// Faults are looked at before consistency. The evidence of a refusal is the log followed by
    /// the entry, and a circle begins with the entry's event. A refusal stops the book, and leaves
    /// its log and its order as they were.
    pub fn offer(&mut self, entry: &Entry) -> Offer
        ensures accepted { OnAccepted result (IsTaken self.old self.new entry.now) }
        ensures malformed { IfMalformed result (IsMalformedOn self.old.model self.old.log entry.now) }
        ensures forbidden { IfForbidden result (IsForbiddenOn self.old.model self.old.log entry.now) }

        ensures refused { OnRefused result (self.new ≡ record self.old { stopped = true }) }
        ensures stopped { (result ≡ offer.Stopped) ↔ IsTrue self.old.stopped }
        ensures unjudged { OnUnjudged result (self.new ≡ self.old) }
    {
        if self.stopped {
            return Offer::Stopped;
        }
        match entry.copy(self.alloc) {
            Ok(copy) => self.take(copy),
            Err(NoMemory) => Offer::NoMemory,
        }
    }

    /// The same as [`Book::offer`] for an entry that is given away: the book keeps it where it takes
    /// it, so none is copied. On `NoMemory` the entry is gone.
    #[inline(always)]
    pub fn take(&mut self, entry: Entry) -> Offer
        ensures accepted { OnAccepted result (IsTaken self.old self.new entry) }
        ensures malformed { IfMalformed result (IsMalformedOn self.old.model self.old.log entry) }
        ensures forbidden { IfForbidden result (IsForbiddenOn self.old.model self.old.log entry) }
        ensures refused { OnRefused result (self.new ≡ record self.old { stopped = true }) }
        ensures stopped { (result ≡ offer.Stopped) ↔ IsTrue self.old.stopped }
        ensures unjudged { OnUnjudged result (self.new ≡ self.old) }
    {
        if self.stopped {
            return Offer::Stopped;
        }
        match self.judge(entry) {
            Ok(None) => Offer::Accepted,
            Ok(Some(Verdict::Malformed(malformed))) => {
                self.stopped = true;
                Offer::Malformed(malformed)
            }
            Ok(Some(Verdict::Forbidden(forbidden))) => {
                self.stopped = true;
                Offer::Forbidden(forbidden)
            }
            Err(NoMemory) => Offer::NoMemory,
        }
    }

    /// Takes the events of the chunk that its source has not given yet, one after the other.
    ///
    /// Where the log has c events of the source, and the chunk has n events and the number k, the
    /// answer is `NotYet(c)` where c is below 8k, `Already` where c is 8k + n or more, and else the
    /// events from place c - 8k on are offered. So a chunk may come twice, and after `NoMemory` the
    /// same chunk goes on where it stopped.
    pub fn offer_chunk(&mut self, chunk: &Chunk) -> ChunkOffer
        ensures turn { OnOffered result (IsTurn (count_of_source self.old.log chunk.now.source) chunk.now) }
        ensures applied { IfApplied result
            (TakesAll self.old self.new chunk.now.source (rest_for self.old.log chunk.now)) }
        ensures halted { IfHalted result
            (HaltsWith self.old self.new chunk.now.source (rest_for self.old.log chunk.now)) }
        ensures no_memory { OnNoMemory result
            (RunsOut self.old self.new chunk.now.source (rest_for self.old.log chunk.now)) }
        ensures not_yet { IfNotYet result (λ count.
            (count ≡ count_of_source self.old.log chunk.now.source) × (count < first_of chunk.now)) }
        ensures already { OnAlready result
            (first_of chunk.now + length chunk.now.events ≤ count_of_source self.old.log chunk.now.source) }
        ensures stopped { (result ≡ chunk_offer.Stopped) ↔ IsTrue self.old.stopped }
        ensures passed { OnPassed result (self.new ≡ self.old) }
    {
        if self.stopped {
            return ChunkOffer::Stopped;
        }
        let count = self.given_by(chunk.source());
        let first = 8 * chunk.number() as usize;
        if count < first {
            return ChunkOffer::NotYet(count);
        }
        if count >= first + chunk.count() {
            return ChunkOffer::Already;
        }
        match unpack(self.alloc, chunk) {
            Ok(mut events) => {
                events.drain(..count - first);
                self.offer_all(chunk.source(), events)
            }
            Err(NoMemory) => ChunkOffer::NoMemory,
        }
    }

    /// Offers the events in order, as entries of a source, to a book that goes on.
    fn offer_all(&mut self, source: u8, events: Vec<Event>) -> ChunkOffer
        requires { IsFalse self.old.stopped }
        ensures applied { IfApplied result (TakesAll self.old self.new source events.items) }
        ensures halted { IfHalted result (HaltsWith self.old self.new source events.items) }
        ensures no_memory { OnNoMemory result (RunsOut self.old self.new source events.items) }
        ensures offered { OnPassed result ⊥ }
    {
        let count = events.len();
        for event in events {
            match self.take(Entry { source, event }) {
                Offer::Accepted => {}
                Offer::Malformed(malformed) => {
                    return ChunkOffer::Halted(Verdict::Malformed(malformed));
                }
                Offer::Forbidden(forbidden) => {
                    return ChunkOffer::Halted(Verdict::Forbidden(forbidden));
                }
                Offer::Stopped => unreachable!(),
                Offer::NoMemory => return ChunkOffer::NoMemory,
            }
        }
        ChunkOffer::Applied(count)
    }

    /// The fault of the entry over the log.
    fn fault(&self, entry: &Entry) -> Option<Fault>
        ensures { result ≡ fault_of self.now.log entry.now }
    {
        if let Some(fault) = self.arrangement.first_fault(&entry.event) {
            return Some(fault);
        }
        if let Some(fault) = self.tally.source_fault(entry) {
            return Some(fault);
        }
        find_deps_fault(&entry.event)
    }

    /// Takes the entry, or says why not.
    fn judge(&mut self, entry: Entry) -> Result<Option<Verdict>, NoMemory>
        ensures judged { IfOk result (IsJudged self.old self.new entry) }
        ensures unchanged { OnErr result (self.new ≡ self.old) }
    {
        let model = self.arrangement.model();
        if let Some(fault) = self.fault(&entry) {
            let evidence = evidence_of(self.alloc, self.arrangement.log(), &entry)?;
            return Ok(Some(Verdict::Malformed(Malformed::new(model, evidence, fault))));
        }
        let added = self.arrangement.add(entry)?;
        // For the proof alone, which has from this call that the model stayed.
        let _unchanged = self.arrangement.model();
        match added {
            Added::Taken => {
                let Some(last) = self.arrangement.log().last() else {
                    unreachable!()
                };
                self.tally.add(last);
                let settled = settle(&self.arrangement, self.settled);
                self.settled = settled;
                Ok(None)
            }
            Added::Refused(evidence, certificate) => {
                Ok(Some(Verdict::Forbidden(Forbidden::new(model, evidence, certificate))))
            }
        }
    }
}

/// How many of the entries are loads whose store has not come.
fn count_waiting(arrangement: &Arrangement, entries: &[Entry]) -> usize
    ensures { result
        ≡ count_by (λ x. is_waiting (happened arrangement.now.history) x.event) entries.now }
{
    entries
        .iter()
        .filter(|x| arrangement.is_waiting(&x.event))
        .count()
}

/// The place of the first entry that waits for a store, or the length of the log. Those before
/// `settled` are known to wait for none.
fn settle(arrangement: &Arrangement, settled: usize) -> usize
    requires same { happened arrangement.now.history ≡ events arrangement.now.log }
    requires settled { AreSettled arrangement.now.log settled }
    ensures settled { AreSettled arrangement.now.log result }
    ensures waits { WaitsAt arrangement.now.log result }
{
    let log = arrangement.log();
    let mut place = settled;
    'entries: while place < log.len() {
        if arrangement.is_waiting(&log[place].event) {
            return place;
        }
        place += 1;
    }
    place
}
