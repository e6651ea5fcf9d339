//! The gate, and that chunks go through the carrier to several workers.
ghost use Rattle.std.specs.Prelude.{◌≤◌, All, vec_len};
ghost use Rattle.rv_run.specs.Gates.{IsAnswerFor};

use super::rows::{STORE_BUFFERING, source_of};
use rv_book::ChunkOffer;
use rv_chunk::Chunk;
use rv_event::MemoryModel;
use rv_run::{BookGate, FeedEnd, Gate, ServeEnd, drive};
use rv_slots::{Carrier, LockedSlots, Looked, Put, Slots, TableCarrier};
use rv_trace::Chunks;
use rv_verdict::VerdictCell;
use std::alloc::Global;
use std::process::Abort;
use std::sync::Wait;
use std::sync::atomic::{AtomicU64, Ordering};
use std::thread;
use std::thread::Threads;

/// How many turns the first offer waits for the second.
const TURNS: u64 = 1_000_000;

/// From this call on the gate says that it is stopped, so that the test ends.
const ASKED: u64 = 10_000_000;

/// A gate whose first offer waits until its second has been answered.
#[derive(Drop)]
struct HeldGate {
    inner: BookGate,
    entered: AtomicU64,
    answered: AtomicU64,
    late: AtomicU64,
    asked: AtomicU64,
}

impl HeldGate {
    /// Waits until an offer has been answered, and takes down where that is too late.
    fn wait(&self) {
        for _ in 0..TURNS {
            if self.answered.load(Ordering::SeqCst) > 0 {
                return;
            }
            thread::yield_now();
        }
        self.late.store(1, Ordering::SeqCst);
    }
}

impl Gate for HeldGate {
    ghost answers = { λ gate chunk offer. IsAnswerFor chunk offer };

    fn offer_chunk<R: Wait>(&self, rt: &R, chunk: &Chunk) -> ChunkOffer {
        if self.entered.fetch_add(1, Ordering::SeqCst) == 0 {
            self.wait();
        }
        let offer = self.inner.offer_chunk(rt, chunk);
        self.answered.fetch_add(1, Ordering::SeqCst);
        offer
    }

    fn end_source<R: Wait>(&self, rt: &R, source: u8, total: Option<u32>) {
        self.inner.end_source(rt, source, total);
    }

    fn stopped<R: Wait>(&self, rt: &R) -> bool {
        self.asked.fetch_add(1, Ordering::SeqCst) >= ASKED || self.inner.stopped(rt)
    }
}

/// A carrier that counts the chunks that were found.
#[derive(Drop)]
struct Counted<C> {
    inner: C,
    found: AtomicU64,
}

impl<C: Carrier> Carrier for Counted<C> {
    type Seat = C::Seat;

    type Lease = C::Lease;

    ghost fits = { λ t s. C.fits t.inner s };

    ghost holds = { λ t l. C.holds t.inner l };

    ghost looks = { λ t. C.looks t.inner };

    ghost finishes = { λ t. C.finishes t.inner };

    fn put_chunk<R: Wait>(&self, rt: &R, seat: C::Seat, chunk: &Chunk) -> (C::Seat, Put) {
        self.inner.put_chunk(rt, seat, chunk)
    }

    fn read_chunk<R: Wait>(
        &self,
        rt: &R,
        seat: C::Seat,
        index: usize,
    ) -> Looked<C::Seat, C::Lease> {
        let looked = self.inner.read_chunk(rt, seat, index);
        if matches!(&looked, Looked::Found(_, _)) {
            self.found.fetch_add(1, Ordering::SeqCst);
        }
        looked
    }

    fn finish_chunk<R: Wait>(&self, rt: &R, lease: C::Lease, applied: bool) -> C::Seat {
        self.inner.finish_chunk(rt, lease, applied)
    }
}

/// Drives two sources and two workers over the carrier, through a gate that holds the first offer.
fn hold<RT: Threads + Wait + Sync + Abort, C: Carrier + Sync + Drop>(
    rt: &RT,
    alloc: Global,
    carrier: C,
    seats: Vec<C::Seat>,
)
    requires seats { 4 ≤ vec_len seats }
    requires fits { All (λ s. C.fits carrier s) seats.items }
{
    let gate = HeldGate {
        inner: BookGate::new(alloc, MemoryModel::Rvwmo, 2),
        entered: AtomicU64::new(0),
        answered: AtomicU64::new(0),
        late: AtomicU64::new(0),
        asked: AtomicU64::new(0),
    };
    let mut readers = Vec::new(alloc);
    for rows in STORE_BUFFERING {
        readers
            .push(source_of(rt, alloc, rows))
            .expect(rt, "memory");
    }
    assert_eq!(rt; readers.len(), 2);
    let found = AtomicU64::new(0);
    let slots = Counted {
        inner: carrier,
        found,
    };
    let cell = VerdictCell::new(alloc);
    let driven = drive(rt, alloc, readers, 2, &slots, seats, &gate, &cell).expect(rt, "memory");
    assert!(rt; driven.fed.len() == 2 && driven.fed.iter().all(|f| f.end == FeedEnd::Whole));
    assert!(rt; driven.served.len() == 2 && driven.served.iter().all(|s| s.end == ServeEnd::Over));
    assert!(rt; gate.late.load(Ordering::SeqCst) == 0);
    let answered = gate.answered.load(Ordering::SeqCst);
    assert!(rt; answered >= 2 && answered <= slots.found.load(Ordering::SeqCst));
    assert!(rt; gate.asked.load(Ordering::SeqCst) < ASKED);
    assert_eq!(rt; length_of(gate.inner), 4);
}

#[test]
fn held_gate(rt: HostRuntime) {
    let (slots, seats) = LockedSlots::new(rt.alloc(), 2).expect(&rt, "slots");
    hold(&rt, rt.alloc(), slots, seats);
    for _round in 0..100u32 {
        let (slots, seats) = Slots::new(rt.alloc(), 2).expect(&rt, "slots");
        assert!(rt; seats.len() >= 4);
        hold(&rt, rt.alloc(), TableCarrier::new(slots), seats);
    }
}

/// How many entries the gate's book has.
fn length_of(gate: BookGate) -> usize {
    let book = gate.into_book();
    let length = book.log().len();
    // By a call: where the scope ends, the proof would take the book apart, field by field.
    drop(book);
    length
}

/// The first chunk of a source's rows.
fn chunk_of(rt: &impl Abort, alloc: Global, rows: &str, source: u8) -> Chunk {
    assert!(rt; source < 8);
    let mut chunks = Chunks::new(alloc, source_of(rt, alloc, rows), source);
    chunks
        .next_chunk()
        .expect(rt, "a trace")
        .expect(rt, "a chunk")
}

#[test]
fn a_gate_is_stopped_once_every_source_is_in_the_book(rt: HostRuntime) {
    let alloc = rt.alloc();
    let gate = BookGate::new(alloc, MemoryModel::Rvwmo, 2);
    let one = chunk_of(&rt, alloc, STORE_BUFFERING[0], 0);
    let two = chunk_of(&rt, alloc, STORE_BUFFERING[1], 1);
    assert!(rt; !gate.stopped(&rt));
    assert!(rt; matches!(gate.offer_chunk(&rt, &one), ChunkOffer::Applied(2)));
    assert!(rt; matches!(gate.offer_chunk(&rt, &one), ChunkOffer::Already));
    gate.end_source(&rt, 0, Some(2));
    gate.end_source(&rt, 1, Some(2));
    assert!(rt; !gate.stopped(&rt));
    assert!(rt; matches!(gate.offer_chunk(&rt, &two), ChunkOffer::Applied(2)));
    assert!(rt; gate.stopped(&rt));
    let book = gate.into_book();
    assert!(rt; book.log().len() == 4 && !book.stopped());
    drop(book);
}

#[test]
fn a_gate_is_stopped_by_a_source_that_did_not_end_whole(rt: HostRuntime) {
    let gate = BookGate::new(rt.alloc(), MemoryModel::Rvwmo, 2);
    gate.end_source(&rt, 1, None);
    assert!(rt; gate.stopped(&rt));
}

#[test]
fn a_gate_is_stopped_by_a_refused_event(rt: HostRuntime) {
    let gate = BookGate::new(rt.alloc(), MemoryModel::Rvwmo, 1);
    let chunk = chunk_of(&rt, rt.alloc(), "0,0,S,0,,1,,\n0,1,L,0,0,,,\n", 0);
    assert!(rt; matches!(gate.offer_chunk(&rt, &chunk), ChunkOffer::Halted(_)));
    assert!(rt; gate.stopped(&rt));
    assert!(rt; matches!(gate.offer_chunk(&rt, &chunk), ChunkOffer::Stopped));
    assert_eq!(rt; length_of(gate), 1);
}
