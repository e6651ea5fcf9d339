//! Out of memory in chunks that are offered: what was accepted stays, and the same chunk goes on.
use crate::offers::order_of;
use crate::traces::{Class, LitmusTest, entries_of, litmus_tests};
use rv_book::{Book, ChunkOffer};
use rv_chunk::{Chunk, pack};
use rv_event::{Entry, Event, NoMemory};
use std::alloc::Global;
use std::process::Abort;

/// The events of the entries.
fn list_events(alloc: Global, entries: &[Entry]) -> Result<Vec<Event>, NoMemory> {
    let mut events = Vec::new(alloc);
    for entry in entries {
        events.push(entry.event.copy(alloc)?)?;
    }
    Ok(events)
}

/// The entries as the first chunk of source 0, also where one allocation is refused. To pack takes
/// no memory.
pub fn chunk_of(rt: &impl Abort, alloc: Global, entries: &[Entry]) -> Chunk {
    let events = match list_events(alloc, entries) {
        Ok(events) => events,
        Err(NoMemory) => list_events(alloc, entries).expect(rt, "memory"),
    };
    pack(events.as_slice(), 0, 0).expect(rt, "packable")
}

/// Offers the chunk, and offers it again where memory is refused: then the first of its entries are
/// in the log, and the book goes on.
fn offer_twice(rt: &impl Abort, book: &mut Book, chunk: &Chunk, entries: &[Entry]) -> ChunkOffer {
    match book.offer_chunk(chunk) {
        ChunkOffer::NoMemory => {
            assert!(rt; !book.stopped() && book.accepted() < entries.len());
            assert!(rt; book.log() == &entries[..book.accepted()]);
            assert_eq!(rt; order_of(rt, book).len(), book.operations());
            book.offer_chunk(chunk)
        }
        offer => offer,
    }
}

/// Offers the entries as one chunk, until all are applied or the last is refused.
fn assert_chunk(rt: &impl Abort, alloc: Global, one: &LitmusTest) {
    let entries = entries_of(rt, alloc, one.rows);
    let chunk = chunk_of(rt, alloc, entries.as_slice());
    let mut book = Book::new(alloc, one.model);
    match offer_twice(rt, &mut book, &chunk, entries.as_slice()) {
        ChunkOffer::Applied(count) => {
            assert!(rt;
                count <= entries.len() && one.class == Class::Allowed,
                "{}",
                one.name
            );
            assert!(rt; book.log() == entries.as_slice());
            assert!(rt; matches!(book.offer_chunk(&chunk), ChunkOffer::Already));
        }
        ChunkOffer::Halted(verdict) => {
            assert!(rt; one.class != Class::Allowed, "{}", one.name);
            assert!(rt; verdict.evidence() == entries.as_slice(), "{}", one.name);
            assert!(rt; book.accepted() == entries.len().saturating_sub(1));
            assert!(rt; matches!(book.offer_chunk(&chunk), ChunkOffer::Stopped));
        }
        _ => panic!(rt; "{}: no answer", one.name),
    }
    drop(book);
}

#[test]
fn a_chunk_goes_on_where_it_was_if_memory_ran_out(rt: HostRuntime) {
    for one in &litmus_tests(&rt, rt.alloc()) {
        if !one.rows.is_empty() {
            assert_chunk(&rt, rt.alloc(), one);
        }
    }
}
