//! A source's chunks, put into the carrier.
ghost use Rattle.std.specs.Prelude.{◌≡◌, ◌<◌, ◌≤◌, All, IfSome, None, Option, length, option_map};
ghost use Rattle.rv_chunk.specs.Chunks.{IsPackable};
ghost use Rattle.rv_trace.specs.Source.{Stream, bytes_say, source_says};
ghost use Rattle.rv_run.specs.Feeds.{GoesOn, IsFedOf, IsFeeding, IsLastOf, IsSettledEnd};
ghost use Rattle.rv_run.specs.declared.feeding.FeedEnd.TheVariants.{Stopped};

use crate::gate::{Awaited, Gate};
use crate::waiting::Patience;
use rv_chunk::{Chunk, pack};
use rv_event::Event;
use rv_slots::{Carrier, Put};
use rv_trace::{Dialect, FaultKind, Trace, TraceFault};
use std::alloc::Global;
use std::io::Read;
use std::marker::Model;
use std::sync::Wait;

/// How many events a chunk has, but for the last and those that are put before a wait.
const FULL: usize = 8;

/// How a feeder ended.
#[derive(Clone, Copy, PartialEq, Eq, Debug)]
pub enum FeedEnd {
    /// The source was read to its end, and each of its chunks was put.
    Whole,
    /// The gate was stopped before the source was read to its end, or before its last chunk was
    /// put.
    Stopped,
    /// The source has this fault.
    Fault(TraceFault),
    /// There was no memory for the list of events.
    NoMemory,
}

/// A source that is to be read.
#[derive(Drop)]
pub(crate) struct Source<R> {
    /// What gives its bytes.
    pub reader: R,
    /// Its number, below 8.
    pub number: u8,
    /// Which rows it may have.
    pub dialect: Dialect,
}

/// The events that a feeder has read, in order, and how it ended.
///
/// Contracts see the list of events, the end, and what the end record says.
#[derive(Drop, Debug)]
pub struct Fed {
    /// The events.
    pub events: Vec<Event>,
    /// How it ended.
    pub end: FeedEnd,
    /// How many rows the source's end record says, where it was read to its end and has one.
    pub said: Option<u32>,
}

impl Model for Fed {
    ghost use Rattle.rv_run.specs.Reads.{SourceRead};

    ghost Value = { SourceRead };

    ghost view = { λ f. record { events = f.events.items; end = f.end; said = f.said } };
}

impl Fed {
    /// The events.
    pub(crate) fn events(&self) -> &[Event]
        ensures { result.now ≡ self.now.events }
    {
        self.events.as_slice()
    }

    /// How the feeder ended.
    pub(crate) fn end(&self) -> FeedEnd
        ensures { result ≡ self.now.end }
    {
        self.end
    }
}

/// Tries until a slot has taken the chunk (`Placed`), or the gate is stopped (`Busy`). Between two
/// tries other threads are given the processor, and after some tries the thread rests until a slot
/// may be free.
fn place<RT: Wait, C: Carrier, G: Gate>(
    rt: &RT,
    carrier: &C,
    mut seat: C::Seat,
    chunk: &Chunk,
    gate: &G,
) -> (C::Seat, Put)
    requires { C.fits carrier.now seat }
    ensures { C.fits carrier.now result.0 }
{
    let mut patience = Patience::new();
    for _ in rt.forever() {
        let seen = gate.news(Awaited::Slot);
        let (back, put) = carrier.put_chunk(rt, seat, chunk);
        seat = back;
        if put == Put::Placed || gate.stopped(rt) {
            return (seat, put);
        }
        patience.wait(rt, gate, Awaited::Slot, seen);
    }
    unreachable!()
}

/// The chunk that the last of the events is in: those from the last multiple of eight on, 1 to 8.
fn last_chunk(events: &[Event], source: u8) -> Chunk
    requires some { 0 < length events.now }
    requires few { length events.now ≤ 65536 }
    requires source { source < 8 }
    requires packable { All IsPackable events.now }
    ensures { IsLastOf events.now source result }
{
    let number = (events.len() - 1) / FULL;
    match pack(&events[FULL * number..], source, number as u32) {
        Ok(chunk) => chunk,
        Err(_) => unreachable!(),
    }
}

/// Puts the chunk that the last of the events is in, and says whether it did: not where the gate
/// was stopped.
///
/// A chunk may be put again once more of its events are there, as the gate takes those that it does
/// not have.
fn put_last<RT: Wait, C: Carrier, G: Gate>(
    rt: &RT,
    events: &[Event],
    source: u8,
    carrier: &C,
    seat: C::Seat,
    gate: &G,
) -> (C::Seat, bool)
    requires some { 0 < length events.now }
    requires few { length events.now ≤ 65536 }
    requires source { source < 8 }
    requires packable { All IsPackable events.now }
    requires seat { C.fits carrier.now seat }
    ensures { C.fits carrier.now result.0 }
{
    let chunk = last_chunk(events, source);
    let (seat, put) = place(rt, carrier, seat, &chunk, gate);
    (seat, put == Put::Placed)
}

/// The source's next event, put at the end of the list, or how the source has ended.
fn read_next<R: Read>(trace: &mut Trace<R>, events: &mut Vec<Event>) -> Option<FeedEnd>
    ensures fed { (start : Option Stream) → IsFeeding start events.old.items trace.old
        → GoesOn start events.new.items trace.new result }
    ensures kept { IfSome result (λ _. events.new.items ≡ events.old.items) }
{
    match trace.next_event() {
        Ok(Some(event)) => {
            let Err(failed) = events.push(event) else {
                return None;
            };
            // By a call: where the scope ends, the proof would take the event apart.
            drop(failed);
            Some(FeedEnd::NoMemory)
        }
        Ok(None) => Some(FeedEnd::Whole),
        Err(fault) => Some(FeedEnd::Fault(fault)),
    }
}

/// How the feeder has ended, where the source ended so. A read that failed while the gate is
/// stopped is no fault of the source: its reader was told to stop.
fn settle_end<RT: Wait, G: Gate>(rt: &RT, end: FeedEnd, is_put: bool, gate: &G) -> FeedEnd
    ensures { IsSettledEnd end is_put result }
{
    match end {
        FeedEnd::Whole if !is_put => FeedEnd::Stopped,
        FeedEnd::Fault(fault) if fault.kind == FaultKind::Read && gate.stopped(rt) => {
            FeedEnd::Stopped
        }
        _ => end,
    }
}

/// What a feeder gives where the gate was stopped.
fn stopped(events: Vec<Event>) -> Fed
    ensures { result ≡ record { events = events.items; end = Stopped; said = None } }
{
    Fed {
        events,
        end: FeedEnd::Stopped,
        said: None,
    }
}

/// Reads the source and puts its chunks into the carrier, one after another. Before a read that
/// would have to wait, the events at hand are put, however few. The gate is asked before each read
/// whether it was told that it is stopped, and after each chunk whether it is.
fn put_all<RT: Wait, R: Read + Drop, C: Carrier, G: Gate>(
    rt: &RT,
    alloc: Global,
    source: Source<R>,
    carrier: &C,
    mut seat: C::Seat,
    gate: &G,
) -> Fed
    requires source { source.number < 8 }
    requires seat { C.fits carrier.now seat }
    ensures { IsFedOf (option_map (bytes_say source.dialect) (R.remaining source.reader)) result }
{
    let number = source.number;
    let mut trace = Trace::with_dialect(alloc, source.reader, number, source.dialect);
    let mut events = Vec::new(alloc);
    let mut put = 0;
    for _ in rt.forever() {
        let count = events.len();
        if put < count && (count % FULL == 0 || gate.is_dry(number)) {
            let (back, is_put) = put_last(rt, events.as_slice(), number, carrier, seat, gate);
            seat = back;
            put = count;
            if !is_put || gate.stopped(rt) {
                return stopped(events);
            }
        }
        if gate.is_over() {
            return stopped(events);
        }
        if let Some(end) = read_next(&mut trace, &mut events) {
            let mut is_put = true;
            if end == FeedEnd::Whole && put < count {
                (_, is_put) = put_last(rt, events.as_slice(), number, carrier, seat, gate);
            }
            let end = settle_end(rt, end, is_put, gate);
            let said = trace.said();
            return Fed { events, end, said };
        }
    }
    unreachable!()
}

/// Reads the source of this number, whose rows are of the plain dialect, puts its chunks into the
/// carrier, and tells the gate how it ended.
///
/// An event is taken into the list before its chunk is put, and a chunk that finds no free slot is
/// tried again until it is placed or the gate is stopped. Where the next row has to be waited for,
/// the events at hand are put as a chunk with fewer than eight, which is put again once it has
/// more. The gate is asked before each read. For a reader that tells its bytes, the events are the
/// first of those that the bytes say, and all of them at `Whole`; a fault of the text is the one
/// that the bytes end in. A fault `Read` or `NoMemory` is the trace's own.
pub fn feed<RT: Wait, R: Read + Drop, C: Carrier, G: Gate>(
    rt: &RT,
    alloc: Global,
    reader: R,
    source: u8,
    carrier: &C,
    seat: C::Seat,
    gate: &G,
) -> Fed
    requires source { source < 8 }
    requires seat { C.fits carrier.now seat }
    ensures { IsFedOf (option_map source_says (R.remaining reader)) result }
{
    let source = Source {
        reader,
        number: source,
        dialect: Dialect::plain(),
    };
    feed_source(rt, alloc, source, carrier, seat, gate)
}

/// The same as [`feed`], where the source's rows are of its dialect.
pub(crate) fn feed_source<RT: Wait, R: Read + Drop, C: Carrier, G: Gate>(
    rt: &RT,
    alloc: Global,
    source: Source<R>,
    carrier: &C,
    seat: C::Seat,
    gate: &G,
) -> Fed
    requires source { source.number < 8 }
    requires seat { C.fits carrier.now seat }
    ensures { IsFedOf (option_map (bytes_say source.dialect) (R.remaining source.reader)) result }
{
    let number = source.number;
    let fed = put_all(rt, alloc, source, carrier, seat, gate);
    match fed.end {
        FeedEnd::Whole => {
            let total = u32::try_from(fed.events.len()).unwrap_or(u32::MAX);
            gate.end_source(rt, number, Some(total));
        }
        FeedEnd::Fault(_) | FeedEnd::NoMemory => gate.end_source(rt, number, None),
        FeedEnd::Stopped => {}
    }
    fed
}
