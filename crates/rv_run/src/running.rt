//! A whole run in threads.
ghost use Rattle.std.specs.Prelude.{◌≡◌, ◌≢◌, ◌↔◌, ◌<◌, ◌≤◌, ◌+◌, IfOk, IfErr, IfSome, IsSome, IsTrue, Err};
ghost use Rattle.std.specs.Prelude.{false, All, vec_len};
ghost use Rattle.rv_run.specs.Completeness.{Lacks};
ghost use Rattle.rv_run.specs.Outcomes.{IfAllowed, IfForbidden, IfMalformed};
ghost use Rattle.rv_run.specs.Ranges.{IsOutOfRange};
ghost use Rattle.rv_replay.specs.Replays.{IsAllowed};
ghost use Rattle.rv_run.specs.Sources.{AreAllowed, AreCovered, AreForbidden, AreMalformed, IsFaultAmong};
ghost use Rattle.rv_run.specs.Sources.{streams_in, streams_of};
ghost use Rattle.rv_run.specs.Strengths.{AreTested, IsToldWhere};
ghost use Rattle.rv_run.specs.declared.fault.RunFault.TheVariants as fault;

use crate::driving::{Shared, drive_shared};
use crate::fault::RunFault;
use crate::gate::BookGate;
use crate::in_turn::run_in_turn;
use crate::judging::{Judged, Question, judge};
use crate::step::InStep;
use rv_event::MemoryModel;
use rv_pipe::Bell;
use rv_report::Outcome;
use rv_slots::{Carrier, Slots, SlotsFault, TableCarrier};
use rv_trace::Dialect;
use rv_verdict::VerdictCell;
use std::alloc::Global;
use std::io::Read;
use std::sync::Wait;
use std::thread::Threads;

/// How a run is made.
#[derive(Clone, Copy, PartialEq, Eq, Debug)]
pub struct Settings {
    /// How many threads offer chunks, 1 to 24.
    pub workers: u8,
    /// How many slots carry chunks, 2 to 16.
    pub slots: u8,
    /// The memory model.
    pub model: MemoryModel,
}

impl Settings {
    /// Whether the numbers, and that of the sources, are in range.
    fn admit(&self, sources: usize) -> bool
        ensures { (result ≡ false) ↔ IsOutOfRange sources self.now }
    {
        1 <= sources
            && sources <= 8
            && 1 <= self.workers
            && self.workers <= 24
            && 2 <= self.slots
            && self.slots <= 16
    }
}

/// How the sources of a run are read.
#[derive(Clone, Copy)]
pub struct Reading<'b> {
    /// Which records they may have. Where they may have end records, the run is to be complete.
    pub dialect: Dialect,
    /// The bell by which their readers are told that the run is over. It is that of no other run.
    pub bell: &'b Bell,
    /// Whether it is counted what of the model they have exercised, where they are allowed.
    pub covering: bool,
    /// Whether it is found how many older reads would be refused, where they are allowed.
    pub testing: bool,
    /// Whether the sources are read and judged in turn, in the thread that calls. Else each is read
    /// in a thread of its own, as those have to be that may keep the others waiting.
    pub in_turn: bool,
}

impl<'b> Reading<'b> {
    /// What is asked of a run with these settings.
    fn question(&self, settings: Settings) -> Question
        ensures { result ≡ record {
          model = settings.model;
          covering = self.now.covering;
          complete = self.now.dialect.end_record;
          testing = self.now.testing;
        } }
    {
        Question {
            model: settings.model,
            covering: self.covering,
            complete: self.dialect.end_record,
            testing: self.testing,
        }
    }
}

/// As [`run_over`], where the sources are read so.
fn run_in<RT: Threads + Wait + Sync, R: Read + Send + Drop, C: Carrier + Sync + Drop>(
    rt: &RT,
    alloc: Global,
    readers: Vec<R>,
    settings: Settings,
    carrier: C,
    seats: Vec<C::Seat>,
    reading: Reading<'_>,
) -> Result<Judged, RunFault>
    requires sources { (0 < vec_len readers) × (vec_len readers ≤ 8) }
    requires workers { 0 < settings.workers }
    requires seats { vec_len readers + settings.workers ≤ vec_len seats }
    requires fits { All (λ s. C.fits carrier s) seats.items }
    ensures allowed { IfOk result (λ j. IfAllowed j.outcome
        (AreAllowed settings.model (streams_in reading.entry.dialect R.remaining readers.items))) }
    ensures forbidden { IfOk result (λ j. IfForbidden j.outcome
        (AreForbidden settings.model (streams_in reading.entry.dialect R.remaining readers.items))) }
    ensures malformed { IfOk result (λ j. IfMalformed j.outcome
        (AreMalformed settings.model (streams_in reading.entry.dialect R.remaining readers.items))) }
    ensures covered { IfOk result (λ j. IfSome j.coverage
        (AreCovered settings.model (streams_in reading.entry.dialect R.remaining readers.items))) }
    ensures asked { IfOk result (λ j.
        IsTrue reading.entry.covering → IsAllowed j.outcome → IsSome j.coverage) }
    ensures only { IfOk result (λ j.
        IsSome j.coverage → IsTrue reading.entry.covering × IsAllowed j.outcome) }
    ensures lacks { IfOk result (λ j. IsTrue reading.entry.dialect.end_record → IsAllowed j.outcome
        → Lacks (streams_in reading.entry.dialect R.remaining readers.items) j.missing) }
    ensures complete { IfOk result (λ j.
        IsSome j.missing → IsTrue reading.entry.dialect.end_record × IsAllowed j.outcome) }
    ensures strength { IfOk result (λ j. IfSome j.strength
        (AreTested settings.model (streams_in reading.entry.dialect R.remaining readers.items))) }
    ensures tested { IfOk result (λ j. IsToldWhere reading.entry.testing j.outcome j.strength) }
    ensures fault { IfErr result
        (IsFaultAmong (streams_in reading.entry.dialect R.remaining readers.items)) }
    ensures settings { result ≢ Err fault.Settings }
{
    let count = readers.len() as u8;
    let cell = VerdictCell::new(alloc);
    let gate = BookGate::new(alloc, settings.model, count);
    let step = InStep::new(carrier, gate, count, reading.bell);
    let shared = Shared {
        rt,
        alloc,
        dialect: reading.dialect,
        carrier: &step,
        gate: &step,
        cell: &cell,
    };
    let driven = drive_shared(shared, readers, settings.workers, seats)?;
    let fed = driven.fed.as_slice();
    let served = driven.served.as_slice();
    let book = step.into_gate().into_book();
    let question = reading.question(settings);
    let judged = judge(alloc, question, fed, served, &cell, &book);
    // By a call: where the scope ends, the proof would take the book apart, field by field.
    drop(book);
    judged
}

/// The same as [`run`], over a carrier of one's own that has not been used yet, with seats of it
/// for all threads.
///
/// There are 1 to 8 readers and at least one worker; the number of slots in the settings is not
/// read. The outcome promises what that of [`run`] does, whatever the carrier does.
///
/// # Errors
/// As [`run`], but for `Settings`.
pub fn run_over<RT: Threads + Wait + Sync, R: Read + Send + Drop, C: Carrier + Sync + Drop>(
    rt: &RT,
    alloc: Global,
    readers: Vec<R>,
    settings: Settings,
    carrier: C,
    seats: Vec<C::Seat>,
) -> Result<Outcome, RunFault>
    requires sources { (0 < vec_len readers) × (vec_len readers ≤ 8) }
    requires workers { 0 < settings.workers }
    requires seats { vec_len readers + settings.workers ≤ vec_len seats }
    requires fits { All (λ s. C.fits carrier s) seats.items }
    ensures allowed { IfOk result (λ o.
        IfAllowed o (AreAllowed settings.model (streams_of R.remaining readers.items))) }
    ensures forbidden { IfOk result (λ o.
        IfForbidden o (AreForbidden settings.model (streams_of R.remaining readers.items))) }
    ensures malformed { IfOk result (λ o.
        IfMalformed o (AreMalformed settings.model (streams_of R.remaining readers.items))) }
    ensures fault { IfErr result (IsFaultAmong (streams_of R.remaining readers.items)) }
    ensures settings { result ≢ Err fault.Settings }
{
    let reading = Reading {
        dialect: Dialect::plain(),
        bell: &Bell::new(),
        covering: false,
        testing: false,
        in_turn: false,
    };
    let judged = run_in(rt, alloc, readers, settings, carrier, seats, reading)?;
    Ok(judged.into_outcome())
}

/// Reads the sources in threads of their own, judges their events in other threads while they are
/// read, and stops at the first event that is malformed or forbidden.
///
/// The sources have the numbers 0, 1 and so on. The events of one source are judged in their order;
/// in which order those of several come, and so which event is refused where several could be,
/// depends on the threads. For readers that tell their bytes: `Allowed` comes only where the
/// sources end whole and their events are a well formed log that has a lawful order, with the
/// counts over all of them. The evidence of a refusal has the first of each source's events and no
/// others, and the model asked for; `Malformed` comes only where the sources are not well formed.
///
/// # Errors
/// In this order: `Settings` exactly where a number is out of range; `NoMemory` where a part or a
/// thread could not be had; where a verdict was found, `Lost` if it is not of what was read, and
/// `NoMemory` if it could not be copied; `Trace` with the lowest source in which a fault was met,
/// which is its own; `NoMemory` where a thread found none; `Lost` where the book is not what was
/// read. The first fault met ends the run, so a lower source's may be left unread.
pub fn run<RT: Threads + Wait + Sync, R: Read + Send + Drop>(
    rt: &RT,
    alloc: Global,
    readers: Vec<R>,
    settings: Settings,
) -> Result<Outcome, RunFault>
    ensures allowed { IfOk result (λ o.
        IfAllowed o (AreAllowed settings.model (streams_of R.remaining readers.items))) }
    ensures forbidden { IfOk result (λ o.
        IfForbidden o (AreForbidden settings.model (streams_of R.remaining readers.items))) }
    ensures malformed { IfOk result (λ o.
        IfMalformed o (AreMalformed settings.model (streams_of R.remaining readers.items))) }
    ensures fault { IfErr result (IsFaultAmong (streams_of R.remaining readers.items)) }
    ensures settings { (result ≡ Err fault.Settings) ↔ IsOutOfRange (vec_len readers) settings }
{
    run_with_bell(rt, alloc, readers, settings, &Bell::new())
}

/// The same as [`run`], where the readers are told by this bell that the run is over, as those of
/// `rv_pipe` are.
///
/// The bell is that of no other run. By it the run knows which source is silent, and puts the
/// events that such a source gave so far as a chunk that is not full. Once the run is decided, or
/// cannot be, the bell says so, and the readers that wait for bytes end.
///
/// # Errors
/// As [`run`]. A read that fails because the run is over is no fault of its source.
pub fn run_with_bell<RT: Threads + Wait + Sync, R: Read + Send + Drop>(
    rt: &RT,
    alloc: Global,
    readers: Vec<R>,
    settings: Settings,
    bell: &Bell,
) -> Result<Outcome, RunFault>
    ensures allowed { IfOk result (λ o.
        IfAllowed o (AreAllowed settings.model (streams_of R.remaining readers.items))) }
    ensures forbidden { IfOk result (λ o.
        IfForbidden o (AreForbidden settings.model (streams_of R.remaining readers.items))) }
    ensures malformed { IfOk result (λ o.
        IfMalformed o (AreMalformed settings.model (streams_of R.remaining readers.items))) }
    ensures fault { IfErr result (IsFaultAmong (streams_of R.remaining readers.items)) }
    ensures settings { (result ≡ Err fault.Settings) ↔ IsOutOfRange (vec_len readers) settings }
{
    let reading = Reading {
        dialect: Dialect::plain(),
        bell,
        covering: false,
        testing: false,
        in_turn: false,
    };
    let judged = run_reading(rt, alloc, readers, settings, reading)?;
    Ok(judged.into_outcome())
}

/// The same as [`run_with_bell`], where the sources' records are of the dialect that is read.
/// Where the sources are allowed, three things more may be told of them.
///
/// What of the model they have exercised is counted where that is asked for. The counts are those
/// of a merge of all of the sources' events: which merge depends on the threads, and with it the
/// counts of links.
///
/// Where the dialect has end records, the first thing is told that the run lacks which would be
/// complete: the end record of a source, or its right number; an event; or the store of the first
/// load that waits, by the loads' names. It lacks nothing where none is told.
///
/// Where it is asked for, at most 200 loads, evenly chosen, are put back to an older version, each
/// by itself, and it is told how many of the logs are refused so. Which loads are chosen depends on
/// the merge.
///
/// Where the sources are to be read in turn, no thread is started, and the numbers of workers and
/// slots are only looked at for their range. Eight events are taken of each source in turn, so
/// which event is refused, where several could be, is the same in each run. A read that waits
/// keeps all sources waiting. The outcome promises the same.
///
/// # Errors
/// As [`run_with_bell`].
pub fn run_reading<RT: Threads + Wait + Sync, R: Read + Send + Drop>(
    rt: &RT,
    alloc: Global,
    readers: Vec<R>,
    settings: Settings,
    reading: Reading<'_>,
) -> Result<Judged, RunFault>
    ensures allowed { IfOk result (λ j. IfAllowed j.outcome
        (AreAllowed settings.model (streams_in reading.entry.dialect R.remaining readers.items))) }
    ensures forbidden { IfOk result (λ j. IfForbidden j.outcome
        (AreForbidden settings.model (streams_in reading.entry.dialect R.remaining readers.items))) }
    ensures malformed { IfOk result (λ j. IfMalformed j.outcome
        (AreMalformed settings.model (streams_in reading.entry.dialect R.remaining readers.items))) }
    ensures covered { IfOk result (λ j. IfSome j.coverage
        (AreCovered settings.model (streams_in reading.entry.dialect R.remaining readers.items))) }
    ensures asked { IfOk result (λ j.
        IsTrue reading.entry.covering → IsAllowed j.outcome → IsSome j.coverage) }
    ensures only { IfOk result (λ j.
        IsSome j.coverage → IsTrue reading.entry.covering × IsAllowed j.outcome) }
    ensures lacks { IfOk result (λ j. IsTrue reading.entry.dialect.end_record → IsAllowed j.outcome
        → Lacks (streams_in reading.entry.dialect R.remaining readers.items) j.missing) }
    ensures complete { IfOk result (λ j.
        IsSome j.missing → IsTrue reading.entry.dialect.end_record × IsAllowed j.outcome) }
    ensures strength { IfOk result (λ j. IfSome j.strength
        (AreTested settings.model (streams_in reading.entry.dialect R.remaining readers.items))) }
    ensures tested { IfOk result (λ j. IsToldWhere reading.entry.testing j.outcome j.strength) }
    ensures fault { IfErr result
        (IsFaultAmong (streams_in reading.entry.dialect R.remaining readers.items)) }
    ensures settings { (result ≡ Err fault.Settings) ↔ IsOutOfRange (vec_len readers) settings }
{
    if !settings.admit(readers.len()) {
        return Err(RunFault::Settings);
    }
    if reading.in_turn {
        let question = reading.question(settings);
        let judged = run_in_turn(rt, alloc, readers, reading.dialect, question);
        reading.bell.end();
        return judged;
    }
    let (slots, seats) = match Slots::new(alloc, settings.slots as usize) {
        Ok(made) => made,
        Err(SlotsFault::Count) => unreachable!(),
        Err(SlotsFault::NoMemory) => return Err(RunFault::NoMemory),
    };
    run_in(
        rt,
        alloc,
        readers,
        settings,
        TableCarrier::new(slots),
        seats,
        reading,
    )
}
