//! Sources that keep in step, and threads that rest while there is nothing to do.
//!
//! Where one source runs far ahead of another, each event of the slower one stands before all that
//! the faster one has given, and the book's order is mended over and over. So a chunk that is far
//! ahead is held back for a while.
//!
//! What is put in by one thread and taken out by another passes through here, so here the threads
//! are woken that wait for it, and the readers are told that the run is over. Nothing is promised
//! of either, since nothing rests on them but time.
ghost use Rattle.std.specs.Prelude.{◌≡◌};

use crate::gate::{Awaited, Gate};
use rv_book::ChunkOffer;
use rv_chunk::Chunk;
use rv_pipe::Bell;
use rv_slots::{Carrier, Looked, Put};
use std::sync::atomic::{AtomicU64, Ordering};
use std::sync::{Condvar, Wait};
use std::time::Duration;
use std::{array, thread};

/// How many chunks a source may be ahead of another that is still read.
const AHEAD: u64 = 2;

/// How often other threads are given the processor while a chunk is ahead, before its thread rests.
const TURNS: u64 = 32;

/// How often such a thread then rests, a millisecond at most each time. Then the chunk is put all
/// the same, since a source that is slow to come must not stop the others.
const RESTS: u64 = 20;

/// For how many milliseconds a thread rests at most, for the case that it was not woken.
const REST: u64 = 200;

/// The count of a source that is not read, or not any more.
const ENDED: u64 = u64::MAX;

/// No count of a source.
const NONE: u64 = u64::MAX - 1;

/// How far one source is.
#[derive(Drop)]
struct Lane {
    /// How many chunks were placed, or `ENDED`.
    placed: AtomicU64,
    /// How many chunks the slowest source had placed where this one was held back for it in vain,
    /// or `NONE`. It is not held back again before the slowest has placed more.
    passed: AtomicU64,
    /// Whether its next chunk is held back: 1, else 0.
    held: AtomicU64,
    /// Whether its next chunk found no free slot: 1, else 0.
    wants: AtomicU64,
}

/// A carrier and a gate that are used together, with how far each source is. A worker that rests is
/// woken where a chunk was placed, a source's thread where a slot may be free or another source has
/// caught up, and all where the gate may be stopped. The readers are told by the bell.
#[derive(Drop)]
pub struct InStep<'a, C, G> {
    carrier: C,
    gate: G,
    lanes: [Lane; 8],
    chunks: Condvar,
    slots: Condvar,
    steps: Condvar,
    bell: &'a Bell,
}

impl<'a, C: Drop, G: Drop> InStep<'a, C, G> {
    /// The two, for so many sources that are being read, and the bell of their readers.
    pub fn new(carrier: C, gate: G, sources: u8, bell: &'a Bell) -> InStep<'a, C, G>
        ensures carrier { result.carrier ≡ carrier }
        ensures gate { result.gate ≡ gate }
    {
        let count = sources as usize;
        InStep {
            carrier,
            gate,
            lanes: array::from_fn(|i| Lane {
                placed: AtomicU64::new(if i < count { 0 } else { ENDED }),
                passed: AtomicU64::new(NONE),
                held: AtomicU64::new(0),
                wants: AtomicU64::new(0),
            }),
            chunks: Condvar::new(),
            slots: Condvar::new(),
            steps: Condvar::new(),
            bell,
        }
    }

    /// The gate, once nobody shares them.
    pub fn into_gate(self) -> G
        ensures { result ≡ self.entry.gate }
    {
        self.gate
    }
}

impl<'a, C, G> InStep<'a, C, G> {
    /// How many chunks the slowest source has placed, of those that are still read and whose next
    /// row has come.
    fn slowest(&self) -> u64 {
        let mut least = ENDED;
        for (source, lane) in (0u8..8).zip(&self.lanes) {
            if !self.bell.is_dry(source) {
                least = least.min(lane.placed.load(Ordering::SeqCst));
            }
        }
        least
    }

    /// Whether the source's next chunk, of this number, waits for the slowest one.
    fn is_held(&self, lane: &Lane, number: u64) -> bool {
        let slowest = self.slowest();
        slowest.saturating_add(AHEAD) < number && lane.passed.load(Ordering::SeqCst) != slowest
    }

    /// Holds the chunk back while it is ahead: its thread gives up the processor for some turns,
    /// and then rests, each time until another source has placed a chunk or for a moment. A chunk
    /// that was put before, with fewer events, is not held back.
    fn hold<R: Wait>(&self, rt: &R, lane: &Lane, number: u64) {
        if number < lane.placed.load(Ordering::SeqCst) {
            return;
        }
        for _ in 0..TURNS {
            if !self.is_held(lane, number) {
                return;
            }
            thread::yield_now();
        }
        lane.held.store(1, Ordering::SeqCst);
        for _ in 0..RESTS {
            let seen = self.steps.notifications();
            if !self.is_held(lane, number) {
                lane.held.store(0, Ordering::SeqCst);
                return;
            }
            self.steps.sleep(rt, seen, Duration::from_millis(1));
        }
        lane.held.store(0, Ordering::SeqCst);
        lane.passed.store(self.slowest(), Ordering::SeqCst);
    }

    /// Takes down that a chunk was placed, and wakes a worker and who was held back.
    fn count(&self, lane: &Lane, number: u64) {
        lane.wants.store(0, Ordering::SeqCst);
        if lane.placed.load(Ordering::SeqCst) <= number {
            lane.placed
                .store(number.saturating_add(1), Ordering::SeqCst);
        }
        self.chunks.notify_one();
        if self.holds_back() {
            self.steps.notify_all();
        }
    }

    /// Whether a source's thread rests as its chunk is ahead.
    fn holds_back(&self) -> bool {
        self.lanes
            .iter()
            .any(|lane| lane.held.load(Ordering::SeqCst) > 0)
    }

    /// Whether a source's thread waits for a free slot.
    fn wants_slot(&self) -> bool {
        self.lanes
            .iter()
            .any(|lane| lane.wants.load(Ordering::SeqCst) > 0)
    }

    /// Wakes the threads that rest.
    fn wake_all(&self) {
        self.chunks.notify_all();
        self.slots.notify_all();
        self.steps.notify_all();
    }

    /// Whether no source is read any more.
    fn has_ended(&self) -> bool {
        self.lanes
            .iter()
            .all(|lane| lane.placed.load(Ordering::SeqCst) == ENDED)
    }
}

impl<'a, C: Carrier, G> Carrier for InStep<'a, C, G> {
    type Seat = C::Seat;

    type Lease = C::Lease;

    ghost fits = { λ s seat. C.fits s.carrier seat };

    ghost holds = { λ s lease. C.holds s.carrier lease };

    ghost looks = { λ s. C.looks s.carrier };

    ghost finishes = { λ s. C.finishes s.carrier };

    /// Puts the chunk, after it was held back where its source is ahead. Where no slot is free, it
    /// says so and tries once more, so that no slot is freed unseen.
    fn put_chunk<R: Wait>(&self, rt: &R, seat: C::Seat, chunk: &Chunk) -> (C::Seat, Put) {
        let Some(lane) = self.lanes.get(chunk.source() as usize) else {
            return self.carrier.put_chunk(rt, seat, chunk);
        };
        let number = u64::from(chunk.number());
        self.hold(rt, lane, number);
        let (mut seat, mut put) = self.carrier.put_chunk(rt, seat, chunk);
        if put == Put::Busy {
            lane.wants.store(1, Ordering::SeqCst);
            (seat, put) = self.carrier.put_chunk(rt, seat, chunk);
        }
        if put == Put::Placed {
            self.count(lane, number);
        }
        (seat, put)
    }

    fn read_chunk<R: Wait>(
        &self,
        rt: &R,
        seat: C::Seat,
        index: usize,
    ) -> Looked<C::Seat, C::Lease> {
        self.carrier.read_chunk(rt, seat, index)
    }

    fn finish_chunk<R: Wait>(&self, rt: &R, lease: C::Lease, applied: bool) -> C::Seat {
        let seat = self.carrier.finish_chunk(rt, lease, applied);
        if applied && self.wants_slot() {
            self.slots.notify_all();
        }
        seat
    }
}

impl<'a, C, G: Gate> Gate for InStep<'a, C, G> {
    ghost answers = { λ s. G.answers s.gate };

    fn offer_chunk<R: Wait>(&self, rt: &R, chunk: &Chunk) -> ChunkOffer {
        let offer = self.gate.offer_chunk(rt, chunk);
        match &offer {
            ChunkOffer::Halted(_) | ChunkOffer::NoMemory => {
                self.bell.end();
                self.wake_all();
            }
            ChunkOffer::Applied(_) => {
                if self.has_ended() && self.gate.stopped(rt) {
                    self.wake_all();
                }
            }
            _ => {}
        }
        offer
    }

    /// Ends the source, for which nobody waits from here on. Where it did not end whole, the run is
    /// over.
    fn end_source<R: Wait>(&self, rt: &R, source: u8, total: Option<u32>) {
        if let Some(lane) = self.lanes.get(source as usize) {
            lane.placed.store(ENDED, Ordering::SeqCst);
            lane.wants.store(0, Ordering::SeqCst);
        }
        self.gate.end_source(rt, source, total);
        if total.is_none() {
            self.bell.end();
        }
        self.wake_all();
    }

    fn stopped<R: Wait>(&self, rt: &R) -> bool {
        self.gate.stopped(rt)
    }

    fn is_over(&self) -> bool {
        self.bell.is_over()
    }

    fn is_dry(&self, source: u8) -> bool {
        self.bell.is_dry(source)
    }

    fn news(&self, awaited: Awaited) -> u64 {
        match awaited {
            Awaited::Chunk => self.chunks.notifications(),
            Awaited::Slot => self.slots.notifications(),
        }
    }

    /// Rests until there is more news. A worker's last look, or its last unpin of a chunk that
    /// another has applied, may have freed a slot, so before it rests it wakes whoever waits for
    /// one.
    fn rest<R: Wait>(&self, rt: &R, awaited: Awaited, seen: u64) {
        let time = Duration::from_millis(REST);
        match awaited {
            Awaited::Chunk => {
                if self.wants_slot() {
                    self.slots.notify_all();
                }
                self.chunks.sleep(rt, seen, time);
            }
            Awaited::Slot => self.slots.sleep(rt, seen, time),
        }
    }
}
