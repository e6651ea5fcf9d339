//! Out of memory when a verdict is raised: it is handed back, nobody knows it, and the worker ends.
ghost use Rattle.std.specs.Prelude.{All};

use crate::chunks::chunk_of;
use crate::reports::outcome_of;
use crate::traces::{Class, LitmusTest, entries_of, litmus_tests};
use rv_cert::Verdict;
use rv_chunk::Chunk;
use rv_event::{Entry, MemoryModel};
use rv_report::Outcome;
use rv_run::{BookGate, Gate, ServeEnd, serve};
use rv_slots::{Carrier, LockedSlots, Put, Slots, SlotsFault, TableCarrier};
use rv_verdict::{Raise, VerdictCell};
use std::alloc::Global;
use std::process::Abort;
use std::sync::Wait;

/// The verdict on the entries, if they are refused.
fn verdict_of(
    rt: &impl Abort,
    alloc: Global,
    model: MemoryModel,
    entries: &[Entry],
) -> Option<Verdict> {
    match outcome_of(rt, alloc, model, entries) {
        Outcome::Allowed { .. } => None,
        Outcome::Forbidden(forbidden) => Some(Verdict::Forbidden(forbidden)),
        Outcome::Malformed(malformed) => Some(Verdict::Malformed(malformed)),
    }
}

/// Raises the verdict, and raises it again where memory is refused: then it is handed back whole,
/// and neither the note nor the cell knows one.
fn assert_raised(rt: &impl Abort, alloc: Global, verdict: Verdict, entries: &[Entry]) {
    let cell = VerdictCell::new(alloc);
    let mut note = cell.note();
    if let Raise::NoMemory(back) = cell.raise(alloc, &mut note, verdict) {
        assert!(rt; back.evidence() == entries);
        assert!(rt; cell.read(&mut note).is_none());
        assert!(rt; cell.read(&mut cell.note()).is_none());
        assert!(rt; matches!(cell.raise(alloc, &mut note, back), Raise::Raised));
    }
    assert_known(rt, cell.read(&mut note), entries);
    assert_known(rt, cell.read(&mut cell.note()), entries);
}

/// A verdict of these entries is known.
fn assert_known(rt: &impl Abort, known: Option<&Verdict>, entries: &[Entry]) {
    match known {
        Some(verdict) => assert!(rt; verdict.evidence() == entries),
        None => panic!(rt; "no verdict"),
    }
}

#[test]
fn a_verdict_is_handed_back_if_memory_ran_out(rt: HostRuntime) {
    for one in &litmus_tests(&rt, rt.alloc()) {
        let entries = entries_of(&rt, rt.alloc(), one.rows);
        if let Some(verdict) = verdict_of(&rt, rt.alloc(), one.model, entries.as_slice()) {
            assert_raised(&rt, rt.alloc(), verdict, entries.as_slice());
        }
    }
}

/// Puts the chunk into the carrier by the last of its seats, which comes back.
fn put_first<R: Wait + Abort, C: Carrier>(
    rt: &R,
    carrier: &C,
    mut seats: Vec<C::Seat>,
    chunk: &Chunk,
) -> C::Seat
    requires { All (λ s. C.fits carrier.now s) seats.items }
    ensures { C.fits carrier.now result }
{
    let Some(seat) = seats.pop() else {
        panic!(rt; "no seat")
    };
    let (seat, put) = carrier.put_chunk(rt, seat, chunk);
    assert!(rt; put == Put::Placed);
    seat
}

/// Serves what the carrier has. How the worker ended, and whether the cell then holds a verdict.
fn serve_all<R: Wait + Abort, C: Carrier>(
    rt: &R,
    alloc: Global,
    carrier: &C,
    seat: C::Seat,
    gate: &BookGate,
) -> (ServeEnd, bool)
    requires { C.fits carrier.now seat }
{
    let cell = VerdictCell::new(alloc);
    let served = serve(rt, alloc, carrier, seat, gate, &cell, cell.note());
    (served.end, cell.read(&mut cell.note()).is_some())
}

/// The gate is stopped, and its book has the first of the entries alone.
fn assert_stopped<R: Wait + Abort>(rt: &R, gate: BookGate, entries: &[Entry]) {
    assert!(rt; gate.stopped(rt));
    let book = gate.into_book();
    assert!(rt; entries.starts_with(book.log()));
    // By a call: where the scope ends, the proof would take the book apart, field by field.
    drop(book);
}

/// Serves the entries as one chunk. The worker ends as the gate is stopped, and the cell then holds
/// a verdict exactly where the execution is refused; or it ends as memory ran out, and the cell
/// holds none. Whether memory was there.
fn serve_chunk<R: Wait + Abort, C: Carrier + Drop>(
    rt: &R,
    alloc: Global,
    carrier: C,
    seats: Vec<C::Seat>,
    one: &LitmusTest,
) -> bool
    requires { All (λ s. C.fits carrier s) seats.items }
{
    let entries = entries_of(rt, alloc, one.rows);
    let gate = BookGate::new(alloc, one.model, 1);
    gate.end_source(rt, 0, u32::try_from(entries.len()).ok());
    let chunk = chunk_of(rt, alloc, entries.as_slice());
    let seat = put_first(rt, &carrier, seats, &chunk);
    let (end, known) = serve_all(rt, alloc, &carrier, seat, &gate);
    match end {
        ServeEnd::Over => assert_eq!(rt; known, one.class != Class::Allowed, "{}", one.name),
        ServeEnd::NoMemory => assert!(rt; !known, "{}", one.name),
    }
    assert_stopped(rt, gate, entries.as_slice());
    end == ServeEnd::Over
}

/// Serves the execution over slots under one lock. Whether memory was there.
fn serve_locked<R: Wait + Abort>(rt: &R, alloc: Global, one: &LitmusTest) -> bool {
    let (slots, seats) = match LockedSlots::new(alloc, 2) {
        Err(SlotsFault::NoMemory) => LockedSlots::new(alloc, 2).expect(rt, "slots"),
        opened => opened.expect(rt, "slots"),
    };
    serve_chunk(rt, alloc, slots, seats, one)
}

/// Serves the execution over the table without a lock. Whether memory was there.
fn serve_by_table<R: Wait + Abort>(rt: &R, alloc: Global, one: &LitmusTest) -> bool {
    let (slots, seats) = match Slots::new(alloc, 2) {
        Err(SlotsFault::NoMemory) => Slots::new(alloc, 2).expect(rt, "slots"),
        opened => opened.expect(rt, "slots"),
    };
    serve_chunk(rt, alloc, TableCarrier::new(slots), seats, one)
}

#[test]
fn a_worker_ends_if_memory_ran_out(rt: HostRuntime) {
    for one in &litmus_tests(&rt, rt.alloc()) {
        if !one.rows.is_empty() {
            let served = serve_locked(&rt, rt.alloc(), one) || serve_locked(&rt, rt.alloc(), one);
            assert!(rt; served, "{}", one.name);
            let served = serve_by_table(&rt, rt.alloc(), one)
                || serve_by_table(&rt, rt.alloc(), one);
            assert!(rt; served, "{}", one.name);
        }
    }
}
