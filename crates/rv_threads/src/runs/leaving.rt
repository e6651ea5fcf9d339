//! That a source is asked for no more once the run is decided.
ghost use Rattle.std.specs.Prelude.{◌≤◌, All, length};
ghost use Rattle.rv_run.specs.Gates.{IsAnswerFor};

use super::rows::HEADER;
use rv_book::ChunkOffer;
use rv_chunk::Chunk;
use rv_run::{FeedEnd, Gate, feed};
use rv_slots::{Carrier, LockedSlots, Slots, TableCarrier};
use std::alloc::Global;
use std::io;
use std::io::Read;
use std::process::Abort;
use std::sync::Wait;
use std::sync::atomic::{AtomicU64, Ordering};

/// How many events the source has.
const EVENTS: u32 = 40;

/// A number of reads that never comes.
const NEVER: u64 = u64::MAX;

/// A gate that is told after so many reads that it is stopped, and is stopped after so many.
#[derive(Drop)]
struct Told<'a> {
    reads: &'a AtomicU64,
    told_after: u64,
    stopped_after: u64,
}

impl Gate for Told<'_> {
    ghost answers = { λ gate chunk offer. IsAnswerFor chunk offer };

    fn offer_chunk<R: Wait>(&self, _rt: &R, _chunk: &Chunk) -> ChunkOffer {
        ChunkOffer::Stopped
    }

    fn end_source<R: Wait>(&self, _rt: &R, _source: u8, _total: Option<u32>) {}

    fn stopped<R: Wait>(&self, _rt: &R) -> bool {
        self.reads.load(Ordering::SeqCst) >= self.stopped_after
    }

    fn is_over(&self) -> bool {
        self.reads.load(Ordering::SeqCst) >= self.told_after
    }
}

/// A source that gives a row a read, and counts them.
#[derive(Drop)]
struct Watched<'a> {
    rest: &'a [u8],
    reads: &'a AtomicU64,
}

/// The place behind the first line feed, or that behind the last byte.
fn line_end(bytes: &[u8]) -> usize
    ensures { result ≤ length bytes.now }
{
    match bytes.iter().position(|b| *b == b'\n') {
        Some(at) => at + 1,
        None => bytes.len(),
    }
}

impl Read for Watched<'_> {
    fn read(&mut self, buf: &mut [u8]) -> io::Result<usize> {
        self.reads.fetch_add(1, Ordering::SeqCst);
        let count = line_end(self.rest).min(buf.len());
        let (row, rest) = self.rest.split_at(count);
        buf[..count].copy_from_slice(row);
        self.rest = rest;
        Ok(count)
    }
}

/// A trace of loads.
fn trace_of(rt: &impl Abort, alloc: Global) -> String {
    let mut text = String::new(alloc);
    text.push_str(HEADER).expect(rt, "memory");
    for seq in 0..EVENTS {
        let row = format!(in alloc; "0,{seq},L,1,0,,,\n").expect(rt, "memory");
        text.push_str(row.as_str()).expect(rt, "memory");
    }
    text
}

/// How many reads the header takes, as the CSV reader looks for a byte order mark first.
const HEADER_READS: u64 = 2;

/// Feeds the source to a carrier through a gate that is told after so many reads, and is stopped
/// after so many. It is left with so many events, after a read for each.
fn leave<RT: Wait + Abort, C: Carrier + Drop>(
    rt: &RT,
    alloc: Global,
    carrier: C,
    mut seats: Vec<C::Seat>,
    after: (u64, u64),
    wanted: usize,
)
    requires { All (λ s. C.fits carrier s) seats.items }
{
    let reads = AtomicU64::new(0);
    let (told_after, stopped_after) = after;
    let gate = Told {
        reads: &reads,
        told_after,
        stopped_after,
    };
    let text = trace_of(rt, alloc);
    let reader = Watched {
        rest: text.as_bytes(),
        reads: &reads,
    };
    let seat = seats.pop().expect(rt, "a seat");
    let fed = feed(rt, alloc, reader, 0, &carrier, seat, &gate);
    assert!(rt; fed.end == FeedEnd::Stopped);
    assert_eq!(rt; fed.events.len(), wanted);
    assert_eq!(rt; reads.load(Ordering::SeqCst), wanted as u64 + HEADER_READS);
}

/// Feeds the source through both carriers.
fn leave_both<RT: Wait + Abort>(rt: &RT, alloc: Global, after: (u64, u64), wanted: usize) {
    let (slots, seats) = LockedSlots::new(alloc, 4).expect(rt, "slots");
    leave(rt, alloc, slots, seats, after, wanted);
    let (slots, seats) = Slots::new(alloc, 4).expect(rt, "slots");
    leave(rt, alloc, TableCarrier::new(slots), seats, after, wanted);
}

#[test]
fn a_source_is_asked_for_no_row_once_the_gate_was_told(rt: HostRuntime) {
    leave_both(&rt, rt.alloc(), (HEADER_READS + 3, NEVER), 3);
}

#[test]
fn a_source_is_asked_for_no_row_after_a_chunk_once_the_gate_is_stopped(rt: HostRuntime) {
    leave_both(&rt, rt.alloc(), (NEVER, HEADER_READS), 8);
}
