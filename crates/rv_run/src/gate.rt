//! Where chunks are offered for judgement.
ghost use Rattle.std.specs.Prelude.{◌<◌, ◌≤◌};
ghost use Rattle.rv_chunk.specs.Packing.{Content};
ghost use Rattle.rv_book.specs.declared.book.ChunkOffer.{ChunkOffer};
ghost use Rattle.rv_run.specs.Gates.{IsAnswerFor};

use crate::desk::Desk;
use rv_book::{Book, ChunkOffer};
use rv_chunk::Chunk;
use rv_event::MemoryModel;
use std::alloc::Global;
use std::sync::{Condvar, Mutex, Wait};
use std::time::Duration;

/// For how many milliseconds a thread rests at most where a gate is told of no news.
const REST: u64 = 1;

/// What a thread that finds nothing to do waits for.
#[derive(Clone, Copy, PartialEq, Eq, Debug)]
pub enum Awaited {
    /// A chunk that can be offered.
    Chunk,
    /// A slot that is free.
    Slot,
}

/// Where chunks are offered, and where it is known how far the sources are.
///
/// Several threads call it at once. What it holds changes between two calls, so an answer promises
/// only what follows from the chunk, and what the type of its verdict keeps.
pub trait Gate {
    // the chunk is answered so
    ghost answers: { Self → Content → ChunkOffer → Type 0 };

    /// Offers the chunk's events as [`Book::offer_chunk`] does.
    fn offer_chunk<R: Wait>(&self, rt: &R, chunk: &Chunk) -> ChunkOffer
        ensures answer { IsAnswerFor chunk.now result }
        ensures answers { answers self.now chunk.now result };

    /// Says that a source has ended: whole, with so many events, or else by a fault or as memory
    /// ran out.
    fn end_source<R: Wait>(&self, rt: &R, source: u8, total: Option<u32>);

    /// Whether nothing is left to be offered: the run is decided, or cannot be.
    fn stopped<R: Wait>(&self, rt: &R) -> bool;

    /// Whether this gate was told that it is stopped. One that is told of nothing says no, and is
    /// asked by `stopped`.
    fn is_over(&self) -> bool {
        false
    }

    /// Whether the source's next row has to be waited for. A gate that is told of no waits says no.
    fn is_dry(&self, _source: u8) -> bool {
        false
    }

    /// How often this gate was told so far that what is awaited may be there. A gate that is told
    /// of no news answers 0.
    fn news(&self, _awaited: Awaited) -> u64 {
        0
    }

    /// Waits for a moment, or until there is more news of what is awaited than `seen`. Nothing is
    /// promised of how long.
    fn rest<R: Wait>(&self, rt: &R, _awaited: Awaited, _seen: u64) {
        Condvar::new().sleep(rt, 0, Duration::from_millis(REST));
    }
}

/// A book under a lock.
///
/// Behind the lock stands a [`Book`], whose type keeps that its log is well formed and that its
/// order is lawful for it. So this holds whenever the lock is free.
#[derive(Drop)]
pub struct BookGate {
    desk: Mutex<Desk>,
}

impl BookGate {
    /// An empty book under this model, for so many sources, numbers from 0. It takes no memory; the
    /// allocator serves the calls to come.
    pub fn new(alloc: Global, model: MemoryModel, sources: u8) -> BookGate
        requires { (0 < sources) × (sources ≤ 8) }
    {
        BookGate {
            desk: Mutex::new(Desk::new(alloc, model, sources)),
        }
    }

    /// The book, once nobody shares the gate. It waits for nobody and takes no memory.
    pub fn into_book(self) -> Book {
        self.desk.into_inner().into_book()
    }
}

impl Gate for BookGate {
    ghost answers = { λ gate chunk offer. IsAnswerFor chunk offer };

    /// Offers the chunk to the book, while the lock is held.
    fn offer_chunk<R: Wait>(&self, rt: &R, chunk: &Chunk) -> ChunkOffer {
        self.desk.lock(rt).offer_chunk(chunk)
    }

    fn end_source<R: Wait>(&self, rt: &R, source: u8, total: Option<u32>) {
        self.desk.lock(rt).end_source(source, total);
    }

    /// It is stopped where the book is, where a source ended without a total, where an offer found
    /// no memory, or where every source has ended and its events are in the book.
    fn stopped<R: Wait>(&self, rt: &R) -> bool {
        self.desk.lock(rt).stopped()
    }
}
