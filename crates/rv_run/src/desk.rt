//! What stands behind the gate's lock: the book, and how far each source is.
ghost use Rattle.std.specs.Prelude.{◌≡◌, ◌↔◌, ◌<◌, ◌≤◌, IsSome, IsTrue, None, true, slice_index_or};
ghost use Rattle.rv_book.specs.Chunked.{IsChunkOffered};
ghost use Rattle.rv_book.specs.declared.book.ChunkOffer.TheVariants as offer;
ghost use Rattle.rv_run.specs.Gates.{IsAnswerFor};
ghost use Rattle.rv_run.specs.Desks.{AreComplete, IsComplete, IsOver};

use rv_book::{Book, ChunkOffer};
use rv_chunk::Chunk;
use rv_event::MemoryModel;
use std::alloc::Global;

/// How many sources there may be.
const SOURCES: u8 = 8;

/// A book, and how many events each of the eight sources has in all, once it has ended. Those that
/// were not given count as empty. How many of them are in the book, the book tells.
#[derive(Drop)]
pub(crate) struct Desk {
    book: Book,
    failed: bool,
    totals: [Option<u32>; 8],
}

impl Desk {
    /// An empty book under this model, and so many sources that are being read.
    pub(crate) fn new(alloc: Global, model: MemoryModel, count: u8) -> Desk
        requires { count ≤ 8 }
        ensures model { result.book.model ≡ model }
    {
        let mut totals = [Some(0); 8];
        totals[..count as usize].fill(None);
        Desk {
            book: Book::new(alloc, model),
            failed: false,
            totals,
        }
    }

    /// Offers the chunk to the book.
    pub(crate) fn offer_chunk(&mut self, chunk: &Chunk) -> ChunkOffer
        ensures answer { IsAnswerFor chunk.now result }
        ensures offered { IsChunkOffered self.old.book self.new.book chunk.now result }
        ensures failed { result ≡ offer.NoMemory → self.new.failed ≡ true }
    {
        let offer = self.book.offer_chunk(chunk);
        if let ChunkOffer::NoMemory = &offer {
            self.failed = true;
        }
        offer
    }

    /// Takes down how a source has ended: with so many events, or not whole.
    pub(crate) fn end_source(&mut self, source: u8, total: Option<u32>)
        ensures book { self.new.book ≡ self.old.book }
        ensures failed { total ≡ None → self.new.failed ≡ true }
        ensures ended { source < 8 → IsSome total → slice_index_or self.new.totals source None ≡ total }
    {
        match total {
            None => self.failed = true,
            Some(_) => {
                if source < SOURCES {
                    self.totals[source as usize] = total;
                }
            }
        }
    }

    /// Whether the source has ended and its events are in the book.
    fn is_complete(&self, source: u8) -> bool
        requires { source < 8 }
        ensures { IsTrue result ↔ IsComplete self.now source }
    {
        match self.totals[source as usize] {
            Some(total) => total as usize <= self.book.given_by(source),
            None => false,
        }
    }

    /// Whether nothing is left to be offered.
    pub(crate) fn stopped(&self) -> bool
        ensures { IsTrue result ↔ IsOver self.now }
    {
        self.failed || self.book.stopped() || self.are_complete()
    }

    /// Whether each source has ended and its events are in the book.
    fn are_complete(&self) -> bool
        ensures { IsTrue result ↔ AreComplete self.now }
    {
        for source in 0..SOURCES {
            if !self.is_complete(source) {
                return false;
            }
        }
        true
    }

    /// The book.
    pub(crate) fn into_book(self) -> Book
        ensures { result ≡ self.book }
    {
        self.book
    }
}
