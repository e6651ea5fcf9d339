//! The run with its counts, and when it forgets.
ghost use Rattle.std.specs.Prelude.{ℕ, ◌≡◌, ◌≢◌, ◌↔◌, ◌++◌, ◌∷◌, ◌+◌, [], Contains, IfErr, List, None, OnErr, OnOk};
ghost use Rattle.std.specs.Prelude.{if◌then◌else◌, length, min};
ghost use Rattle.rv_event.specs.Faults.{fault_within};
ghost use Rattle.rv_event.specs.Operations.{is_memory};
ghost use Rattle.rv_event.specs.declared.event.Entry.{Entry};
ghost use Rattle.rv_endless.specs.Forgetting.{IsCutBy};
ghost use Rattle.rv_endless.specs.Runs.{limit};
ghost use Rattle.rv_watch.specs.Watches.{IsCounted, IsStop, IsWatchOf, waiting_in, waits_in};

use crate::stop::Stop;
use rv_endless::{Answer, Endless};
use rv_event::{Entry, Event, MemoryModel, NoMemory};
use std::alloc::Global;

/// How many events of a hart a window has at most.
const MOST_OF_HART: usize = 4_096;

/// How many events a window has before it is looked through for the first time.
const FIRST_LOOK: usize = 8_192;

/// When a run forgets what it may.
#[derive(Clone, Copy, PartialEq, Eq, Debug)]
pub enum CutRule {
    /// After so many events; 0 is taken for 1.
    Every(u32),
    /// Where the window has become four times as large as the last cut left it, and not below 8,192
    /// events. So what cuts cost stays in proportion to the events.
    Grown,
}

/// A run of any length, and what was counted of it. Contracts see the fields, and say for which log
/// it stands.
///
/// Where a hart has 4,096 events in the window, it forgets what it may, whatever the rule says.
#[derive(Drop)]
pub struct Watch {
    /// The run.
    pub run: Endless,
    /// How many events were taken; 2^64 - 1 where there are more.
    pub events: u64,
    /// How many of them are memory operations; 2^64 - 1 where there are more.
    pub operations: u64,
    /// How many loads that were forgotten wait, as they were counted; 2^64 - 1 where there are more.
    pub waiting_gone: u64,
    /// How many events of its hart an LR is kept for that waits for its SC.
    pub patience: u32,
    rule: CutRule,
    /// How many events were taken since the last cut.
    since: u32,
    /// How many events the last cut left.
    kept: usize,
}

impl Watch {
    /// Before any event, under a memory model, where these harts are active. An LR that waits for its SC
    /// is kept until `patience` events of its hart stand behind it. It takes no memory; the
    /// allocator serves the calls to come.
    pub fn new(
        alloc: Global,
        model: MemoryModel,
        active: Vec<u8>,
        rule: CutRule,
        patience: u32,
    ) -> Watch
        ensures stands { IsWatchOf result [] }
        ensures model { result.run.book.model ≡ model }
        ensures active { result.run.active ≡ active }
        ensures rule { result.rule ≡ rule }
        ensures patience { result.patience ≡ patience }
    {
        Watch {
            run: Endless::new(alloc, model, active),
            events: 0,
            operations: 0,
            waiting_gone: 0,
            patience,
            rule,
            since: 0,
            kept: 0,
        }
    }

    /// Takes the entry exactly where it has no fault over the log, and some order is lawful for the
    /// log with it. Before that the run forgets what it may, where the rule says so.
    ///
    /// # Errors
    /// Why it was not taken. After `Beyond` and `NoMemory` the log is as it was.
    pub fn take(&mut self, entry: &Entry) -> Result<(), Stop>
        ensures taken { (log : List Entry) → IsWatchOf self.old log → OnOk result
            ((fault_within limit log entry.now ≡ None) × IsWatchOf self.new (log ++ entry.now ∷ [])) }
        ensures stopped { (log : List Entry) → IsWatchOf self.old log →
            IfErr result (IsStop self.new log entry.now) }
        ensures model { self.new.run.book.model ≡ self.old.run.book.model }
        ensures harts { self.new.run.active ≡ self.old.run.active }
    {
        if self.is_cut_due(entry) {
            if self.cut().is_err() {
                return Err(Stop::NoMemory);
            }
        }
        self.take_uncut(entry)
    }

    /// Takes the entry as [`take`](Watch::take) does, but forgets nothing before.
    ///
    /// # Errors
    /// Why it was not taken. After `Beyond` and `NoMemory` the log is as it was.
    pub fn take_uncut(&mut self, entry: &Entry) -> Result<(), Stop>
        ensures taken { (log : List Entry) → IsWatchOf self.old log → OnOk result
            ((fault_within limit log entry.now ≡ None) × IsWatchOf self.new (log ++ entry.now ∷ [])) }
        ensures stopped { (log : List Entry) → IsWatchOf self.old log →
            IfErr result (IsStop self.new log entry.now) }
        ensures model { self.new.run.book.model ≡ self.old.run.book.model }
        ensures harts { self.new.run.active ≡ self.old.run.active }
        ensures waiting { self.new.waiting_gone ≡ self.old.waiting_gone }
    {
        match self.run.offer(entry) {
            Answer::Accepted => {
                self.count(entry);
                Ok(())
            }
            Answer::Malformed(fault) => Err(Stop::Malformed(fault)),
            Answer::Taken => Err(Stop::Taken),
            Answer::Forbidden(forbidden) => Err(Stop::Forbidden(forbidden)),
            Answer::BeforePast(edge) => Err(Stop::BeforePast(edge)),
            Answer::Beyond(beyond) => Err(Stop::Beyond(beyond)),
            Answer::Stopped => Err(Stop::Stopped),
            Answer::NoMemory => Err(Stop::NoMemory),
        }
    }

    /// Takes that the hart has ended: no more is kept for its sake, and an event of it can't be
    /// judged any more.
    pub fn end(&mut self, hart: u8)
        ensures stands { (log : List Entry) → IsWatchOf self.old log → IsWatchOf self.new log }
        ensures ended { (h : ℕ) → Contains self.new.run.active.items h
            ↔ (Contains self.old.run.active.items h × (h ≢ hart)) }
        ensures model { self.new.run.book.model ≡ self.old.run.book.model }
        ensures waiting { self.new.waiting_gone ≡ self.old.waiting_gone }
    {
        self.run.end(hart);
    }

    /// How many events the window has.
    pub fn window_len(&self) -> usize
        ensures { result ≡ length self.now.run.book.log }
    {
        self.run.book.log().len()
    }

    /// How many loads wait: they returned a version above 0 that no store has written. Those that were
    /// forgotten are as they were counted. It costs a look-up or two for each event of the window.
    pub fn waiting(&self) -> u64
        ensures { result ≡ min (self.now.waiting_gone + waiting_in self.now.run) 18446744073709551615 }
    {
        self.waiting_gone
            .saturating_add(self.waiting_in_window() as u64)
    }

    /// How many loads of the window wait.
    fn waiting_in_window(&self) -> usize
        ensures { result ≡ waiting_in self.now.run }
    {
        self.run
            .book
            .log()
            .iter()
            .filter(|x| self.is_waiting(&x.event))
            .count()
    }

    /// Whether the event is a load with a version that no store of the window has written, and none
    /// that was forgotten.
    fn is_waiting(&self, event: &Event) -> bool
        ensures { result ≡ waits_in self.now.run event.now }
    {
        self.run.book.is_waiting(event) && !self.run.facts.is_written(event.word, event.read)
    }

    /// Forgets what may be forgotten.
    ///
    /// # Errors
    /// `NoMemory` where it could not be had; the log stays as it is.
    pub fn cut(&mut self) -> Result<(), NoMemory>
        ensures stands { (log : List Entry) → IsWatchOf self.old log → IsWatchOf self.new log }
        ensures done { (log : List Entry) → IsWatchOf self.old log →
            OnOk result (IsCutBy self.old.patience self.old.run self.new.run) }
        ensures model { self.new.run.book.model ≡ self.old.run.book.model }
        ensures harts { self.new.run.active ≡ self.old.run.active }
        ensures waiting { OnOk result (IsCounted self.old self.new) }
        ensures kept { OnErr result (self.new.waiting_gone ≡ self.old.waiting_gone) }
    {
        let before = self.waiting_in_window();
        self.run.cut(self.patience)?;
        let gone = before.saturating_sub(self.waiting_in_window());
        self.waiting_gone = self.waiting_gone.saturating_add(gone as u64);
        self.since = 0;
        self.kept = self.window_len();
        Ok(())
    }

    /// Counts an entry that was taken.
    fn count(&mut self, entry: &Entry)
        ensures run { self.new.run ≡ self.old.run }
        ensures waiting { self.new.waiting_gone ≡ self.old.waiting_gone }
        ensures events { self.new.events ≡ min (self.old.events + 1) 18446744073709551615 }
        ensures operations { self.new.operations
            ≡ min (self.old.operations + (if is_memory entry.now.event.op then 1 else 0)) 18446744073709551615 }
    {
        let operations = self.operations;
        if entry.event.is_memory() {
            self.operations = operations.saturating_add(1);
        }
        self.events = self.events.saturating_add(1);
        self.since = self.since.saturating_add(1);
    }

    /// Whether what may be forgotten is to be forgotten before the entry is taken.
    pub(crate) fn is_cut_due(&self, entry: &Entry) -> bool {
        let is_full = match self.run.counts.get(entry.event.id.hart as usize) {
            Some(count) => {
                let first = self.run.firsts.first(entry.event.id.hart);
                count.saturating_sub(first) as usize >= MOST_OF_HART
            }
            None => false,
        };
        is_full
            || match self.rule {
                CutRule::Every(count) => self.since >= count.max(1),
                CutRule::Grown => self.window_len() >= self.kept.saturating_mul(4).max(FIRST_LOOK),
            }
    }
}
