//! A run of any length, judged by a window of its events and by what is known of its past.
ghost use Rattle.std.specs.Prelude.{ℕ, Bool, ◌≡◌, ◌≢◌, ◌<◌, ◌^◌, ◌++◌, ◌∷◌, ◌↔◌, [], Contains, IsFalse};
ghost use Rattle.std.specs.Prelude.{IsTrue, List, MatchOption, None, OnErr, OnOk, Some, length, slice_index_or};
ghost use Rattle.rv_book.specs.Booked.{IsForbiddenOn};
ghost use Rattle.rv_cut.specs.Cuts.{first_of};
ghost use Rattle.rv_event.specs.Faults.{fault_of, fault_within};
ghost use Rattle.rv_event.specs.Log.{events};
ghost use Rattle.rv_event.specs.declared.event.Entry.{Entry};
ghost use Rattle.rv_event.specs.declared.event.Event.{Event};
ghost use Rattle.rv_past.specs.Before.{IsFree};
ghost use Rattle.rv_settle.specs.Past.{ComesBeforePast};
ghost use Rattle.rv_settle.specs.Windows.{window};
ghost use Rattle.rv_endless.specs.Answers.{IfBeforePast, IfBeyond, IfForbidden, IfMalformed, OnAccepted};
ghost use Rattle.rv_endless.specs.Answers.{OnRefused, OnTaken, OnUnjudged};
ghost use Rattle.rv_endless.specs.Forgetting.{IsCutBy};
ghost use Rattle.rv_endless.specs.Runs.{AreForgotten, HasLrForgotten, HasStopped, IsAnswered, IsBeyond, IsEdgeIntoPast};
ghost use Rattle.rv_endless.specs.Runs.{IsForbidden, IsNext};
ghost use Rattle.rv_endless.specs.Runs.{IsTakenBefore, IsWithin, KeepsSettings, StandsFor, in_window, limit};
ghost use Rattle.rv_endless.specs.Runs.{misfit_answer, misfit_number};
ghost use Rattle.rv_endless.specs.Steps.{IsEdgeExplained, IsExplained, IsOffered, IsPastOf, Joins};
ghost use Rattle.rv_endless.specs.declared.answer.Answer.TheVariants as answer;

use crate::answer::{Answer, Beyond};
use crate::exclusives::{Exclusive, forget_exclusives};
use crate::forget::{book_of_kept, forget};
use crate::numbers::full_fault;
use crate::window::{find_partner, renumber};
use rv_book::{Book, Offer};
use rv_cut::{Cut, find_cut, last_exclusive};
use rv_event::{Entry, Event, Fault, MemoryModel, NoMemory, Op, find_fault};
use rv_past::{Facts, Misfit, Past, PastEdge};
use std::alloc::Global;
use std::mem::replace;

/// A run of any length: a window of the events that were accepted last, and what is known of those
/// before, which were forgotten.
///
/// Contracts see the fields, and say for which logs it stands (`StandsFor`): the log itself is in no
/// value.
#[derive(Drop)]
pub struct Endless {
    alloc: Global,
    /// The window's book.
    pub book: Book,
    /// Of each hart the number of its first event in the window.
    pub firsts: Cut,
    /// How many events each hart has.
    pub counts: [u32; 16],
    /// The versions of what was forgotten.
    pub past: Past,
    /// What the faults of new events ask of it.
    pub facts: Facts,
    /// Of each hart, the last LR, SC or failed SC that was forgotten.
    pub exclusives: [Option<Exclusive>; 16],
    /// The harts that are active.
    pub active: Vec<u8>,
    /// Whether an entry was refused.
    pub stopped: bool,
}

impl Endless {
    /// The run before any event, under a memory model, where these harts are active. It takes no
    /// memory; the allocator serves the calls to come.
    pub fn new(alloc: Global, model: MemoryModel, active: Vec<u8>) -> Endless
        ensures stands { StandsFor result [] }
        ensures model { result.book.model ≡ model }
        ensures active { result.active ≡ active }
        ensures going { IsFalse result.stopped }
    {
        let book = Book::new(alloc, model);
        // For the proof alone, which has a lawful order from this call.
        let _ = book.model();
        Endless {
            alloc,
            book,
            firsts: Cut::new(),
            counts: [0; 16],
            past: Past::new(alloc),
            facts: Facts::new(alloc),
            exclusives: [None; 16],
            active,
            stopped: false,
        }
    }

    /// Takes the entry exactly where it has no fault over the log, and some order is lawful for the
    /// log with it; or answers why it can't be judged.
    ///
    /// Faults are looked at before consistency. A refusal stops the run, and leaves its window. It
    /// costs what the window's book takes, and a look-up or two for what was forgotten.
    pub fn offer(&mut self, entry: &Entry) -> Answer
        ensures accepted { (log : List Entry) → StandsFor self.old log → OnAccepted result
            ((fault_within limit log entry.now ≡ None) × StandsFor self.new (log ++ entry.now ∷ [])) }
        ensures malformed { (log : List Entry) → StandsFor self.old log → IfMalformed result (λ fault.
            fault_within limit log entry.now ≡ Some fault) }
        ensures taken { (log : List Entry) → StandsFor self.old log →
            OnTaken result (IsTakenBefore self.old log entry.now) }
        ensures forbidden { (log : List Entry) → StandsFor self.old log → IfForbidden result (λ refusal.
            IsForbidden self.old log entry.now
            × IsForbiddenOn self.old.book.model self.old.book.log (in_window self.old entry.now) refusal) }
        ensures before_past { (log : List Entry) → StandsFor self.old log → IfBeforePast result (λ edge.
            IsForbidden self.old log entry.now × IsEdgeIntoPast self.old log entry.now edge) }
        ensures beyond { (log : List Entry) → StandsFor self.old log →
            IfBeyond result (λ why. (entry.now.event.id.hart < 16) × IsBeyond self.old entry.now why) }
        ensures refused { (log : List Entry) → StandsFor self.old log →
            OnRefused result (HasStopped self.old self.new) }
        ensures going { (log : List Entry) → StandsFor self.old log → result ≢ answer.Stopped }
        ensures stopped { IsTrue self.old.stopped → result ≡ answer.Stopped }
        ensures unjudged { (log : List Entry) → StandsFor self.old log →
            OnUnjudged result (self.new ≡ self.old) }
        ensures settings { KeepsSettings self.old self.new }
    {
        if self.stopped {
            return Answer::Stopped;
        }
        self.judge(entry)
    }

    /// Takes that the hart has ended: it is active no more, so that no more is kept for its sake.
    pub fn end(&mut self, hart: u8)
        ensures stands { (log : List Entry) → StandsFor self.old log → StandsFor self.new log }
        ensures ended { (h : ℕ) → Contains self.new.active.items h
            ↔ (Contains self.old.active.items h × (h ≢ hart)) }
        ensures window { self.new.book ≡ self.old.book }
    {
        self.active.retain(|active| *active != hart);
    }

    /// Forgets what no active hart can come before any more, where something is: these events leave the
    /// window. So a run whose harts synchronise again and again keeps a window of bounded size.
    ///
    /// An LR that waits for its SC is kept, until `patience` events of its hart stand behind it. An SC
    /// that comes still later can't be judged.
    ///
    /// It costs what it takes to find the cut, and to judge anew what is kept.
    ///
    /// # Errors
    /// `NoMemory` where it could not be had; nothing is forgotten.
    pub fn cut(&mut self, patience: u32) -> Result<(), NoMemory>
        ensures stands { (log : List Entry) → StandsFor self.old log → StandsFor self.new log }
        ensures done { (log : List Entry) → StandsFor self.old log →
            OnOk result (IsCutBy patience self.old self.new) }
        ensures kept { OnErr result ((self.new.book ≡ self.old.book) × (self.new.firsts ≡ self.old.firsts)) }
        ensures harts { self.new.active ≡ self.old.active }
        ensures model { self.new.book.model ≡ self.old.book.model }
    {
        let cut = find_cut(self.alloc, &self.book, self.active.as_slice(), patience)?;
        self.past.reserve(self.book.log().len())?;
        self.facts.reserve(self.book.log().len())?;
        let Some(book) = book_of_kept(self.alloc, &self.book, &cut)? else {
            return Ok(());
        };
        let window = self.book.log();
        forget(
            self.alloc,
            &mut self.past,
            &mut self.facts,
            window,
            &self.firsts,
            &cut,
        );
        forget_exclusives(self.alloc, &mut self.exclusives, window, &self.firsts, &cut);
        self.firsts = self.firsts.then(&cut);
        drop(replace(&mut self.book, book));
        Ok(())
    }

    /// Judges an entry offered to a run that goes on.
    fn judge(&mut self, entry: &Entry) -> Answer
        ensures answered { (log : List Entry) → StandsFor self.old log →
            IsAnswered self.old self.new log entry.now result }
        ensures settings { KeepsSettings self.old self.new }
    {
        let event = &entry.event;
        if event.id.hart > 15 {
            self.stopped = true;
            return Answer::Malformed(Fault::Hart);
        }
        if let Some(beyond) = self.find_beyond(event) {
            return Answer::Beyond(beyond);
        }
        let count = self.counts[event.id.hart as usize];
        if event.id.seq != count {
            self.stopped = true;
            return Answer::Malformed(Fault::Sequence(count));
        }
        self.judge_next(entry)
    }

    /// Why the event can't be judged, where it can't.
    fn find_beyond(&self, event: &Event) -> Option<Beyond>
        requires { event.now.id.hart < 16 }
        ensures { (source : ℕ) → MatchOption result
            (IsWithin self.now (record { source = source; event = event.now }))
            (IsBeyond self.now (record { source = source; event = event.now })) }
    {
        if !self.active.contains(&event.id.hart) {
            return Some(Beyond::Inactive);
        }
        if event.op == Op::Carrier {
            return Some(Beyond::Carrier);
        }
        let count = self.counts[event.id.hart as usize];
        if count as usize >= self.firsts.first(event.id.hart) as usize + 4096 {
            return Some(Beyond::WindowFull);
        }
        if count == u32::MAX {
            return Some(Beyond::LastNumber);
        }
        if event.op == Op::Sc && event.id.seq == count && self.has_lr_forgotten(event.id.hart) {
            return Some(Beyond::LrForgotten);
        }
        None
    }

    /// Whether what was forgotten leaves the hart with a reservation, and the window has no LR, SC or
    /// failed SC of it.
    fn has_lr_forgotten(&self, hart: u8) -> bool
        requires { hart < 16 }
        ensures { IsTrue result ↔ HasLrForgotten self.now hart }
    {
        let last = self.exclusives[hart as usize];
        match last {
            Some(last) if last.is_lr => last_exclusive(self.book.log(), hart).is_none(),
            _ => false,
        }
    }

    /// Judges an entry whose number is the next one of its hart.
    fn judge_next(&mut self, entry: &Entry) -> Answer
        requires { IsNext self.old entry.now }
        ensures answered { (log : List Entry) → StandsFor self.old log →
            IsAnswered self.old self.new log entry.now result }
        ensures settings { KeepsSettings self.old self.new }
    {
        let first = self.firsts.first(entry.event.id.hart);
        let Ok(moved) = renumber(self.alloc, entry, first) else {
            return Answer::NoMemory;
        };
        if let Some(misfit) = self.facts.find_misfit(first, entry) {
            self.stopped = true;
            return explain_misfit(self.book.log(), &self.firsts, misfit, &moved);
        }
        if let Some(edge) = self.find_edge(entry, &moved) {
            self.stopped = true;
            return explain_edge(self.book.log(), &self.firsts, edge, &moved);
        }
        self.judge_moved(moved)
    }

    /// An edge from the entry to what was forgotten, where there is one and it has no fault.
    fn find_edge(&self, entry: &Entry, moved: &Entry) -> Option<PastEdge>
        ensures { (log gone : List Entry) (past : Event → Bool) → self.now.book.log ≡ window
            (first_of self.now.firsts) log →
            moved.now ≡ in_window self.now entry.now → AreForgotten self.now log gone → IsPastOf self.now log past →
            IsFree (events gone) entry.now.event → Joins self.now log entry.now →
            MatchOption result (ComesBeforePast (events (log ++ entry.now ∷ [])) past entry.now.event → ⊥) (λ edge.
            ComesBeforePast (events (log ++ entry.now ∷ [])) past entry.now.event
            × IsEdgeIntoPast self.now log entry.now edge) }
    {
        let lr = find_partner(self.book.log(), &moved.event);
        self.past.find_edge(&entry.event, lr)
    }

    /// Judges an entry that fits what was forgotten, by the window.
    fn judge_moved(&mut self, moved: Entry) -> Answer
        requires hart { moved.event.id.hart < 16 }
        requires numbers { slice_index_or self.old.counts moved.event.id.hart 0 < 4294967295 }
        ensures offered { IsOffered self.old self.new moved result }
        ensures settings { KeepsSettings self.old self.new }
    {
        let hart = moved.event.id.hart;
        match self.book.take(moved) {
            Offer::Accepted => {
                self.counts[hart as usize] += 1;
                Answer::Accepted
            }
            Offer::Malformed(malformed) => {
                self.stopped = true;
                Answer::Malformed(full_fault(&self.firsts, hart, malformed.fault()))
            }
            Offer::Forbidden(forbidden) => {
                self.stopped = true;
                Answer::Forbidden(forbidden)
            }
            Offer::Stopped => Answer::Stopped,
            Offer::NoMemory => Answer::NoMemory,
        }
    }
}

/// What is wrong with an entry that doesn't fit what was forgotten: this, or the fault that it has
/// over the window, where that comes first.
fn explain_misfit(window: &[Entry], firsts: &Cut, misfit: Misfit, moved: &Entry) -> Answer
    requires { length window.now < 2 ^ 32 }
    ensures { IsExplained firsts.now moved.now.event.id.hart misfit (fault_of window.now moved.now) result }
{
    match find_fault(window, moved) {
        Some(fault) if fault.number() < number_of(misfit) => {
            Answer::Malformed(full_fault(firsts, moved.event.id.hart, fault))
        }
        _ => answer_of(misfit),
    }
}

/// What is wrong with an entry that comes before what was forgotten: the fault that it has over the
/// window, or else this edge.
fn explain_edge(window: &[Entry], firsts: &Cut, edge: PastEdge, moved: &Entry) -> Answer
    requires { length window.now < 2 ^ 32 }
    ensures { IsEdgeExplained firsts.now moved.now.event.id.hart edge (fault_of window.now moved.now) result }
{
    match find_fault(window, moved) {
        Some(fault) => Answer::Malformed(full_fault(firsts, moved.event.id.hart, fault)),
        None => Answer::BeforePast(edge),
    }
}

/// The number of the fault that an entry has which doesn't fit what was forgotten.
fn number_of(misfit: Misfit) -> u8
    ensures { result ≡ misfit_number misfit }
{
    match misfit {
        Misfit::Depends => 3,
        Misfit::Taken => 5,
        Misfit::OtherSource => 8,
        Misfit::TooManyDeps => 9,
    }
}

/// The fault, as a run answers it.
fn answer_of(misfit: Misfit) -> Answer
    ensures { result ≡ misfit_answer misfit }
{
    match misfit {
        Misfit::Depends => Answer::Malformed(Fault::Dependency),
        Misfit::Taken => Answer::Taken,
        Misfit::OtherSource => Answer::Malformed(Fault::OtherSource),
        Misfit::TooManyDeps => Answer::Malformed(Fault::TooManyDeps),
    }
}
