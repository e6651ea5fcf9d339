//! Chunks offered to a book: in order, twice, too early, and with an event that no order allows.
use crate::allowed::{AllowedTest, allowed};
use crate::rows::{Bits, Row, X, Y, event_of, load, row, store};
use rv_book::{Book, ChunkOffer};
use rv_chunk::{Chunk, pack, unpack};
use rv_event::{Id, MemoryModel, Op};
use std::alloc::Global;
use std::process::Abort;

/// The rows as a chunk of source 0.
fn chunk_of(rt: &impl Abort, alloc: Global, number: u32, rows: &[Row]) -> Chunk {
    let mut events = Vec::new(alloc);
    for row in rows {
        let event = event_of(alloc, row).expect(rt, "memory");
        events.push(event).expect(rt, "memory");
    }
    pack(events.as_slice(), 0, number).expect(rt, "packable")
}

/// What an offered chunk came to.
#[derive(Clone, Copy, PartialEq, Eq, Debug)]
enum Came {
    Applied(usize),
    NotYet(usize),
    Already,
    Halted,
    Stopped,
    NoMemory,
}

/// Offers the chunk, and says what it came to.
fn offer(book: &mut Book, chunk: &Chunk) -> Came {
    match book.offer_chunk(chunk) {
        ChunkOffer::Applied(count) => Came::Applied(count),
        ChunkOffer::NotYet(count) => Came::NotYet(count),
        ChunkOffer::Already => Came::Already,
        ChunkOffer::Halted(_) => Came::Halted,
        ChunkOffer::Stopped => Came::Stopped,
        ChunkOffer::NoMemory => Came::NoMemory,
    }
}

/// Offers two chunks to a book, the second one too early, and each of them twice. They have so many
/// events.
fn assert_applied_in_order(
    rt: &impl Abort,
    book: &mut Book,
    (first, first_count): (&Chunk, usize),
    (second, second_count): (&Chunk, usize),
) {
    assert!(rt; offer(book, second) == Came::NotYet(0));
    assert!(rt; offer(book, first) == Came::Applied(first_count));
    assert!(rt; offer(book, first) == Came::Already);
    assert!(rt; offer(book, second) == Came::Applied(second_count));
    assert!(rt; offer(book, second) == Came::Already);
}

const EIGHT: &[Row] = &[
    store!(0: 0, X = 1),
    store!(0: 1, X = 2),
    store!(0: 2, X = 3),
    store!(0: 3, X = 4),
    load!(0: 4, X = 4),
    load!(0: 5, Y = 0),
    store!(0: 6, Y = 1),
    load!(0: 7, Y = 1),
];

const TWO: &[Row] = &[store!(0: 8, Y = 2), load!(0: 9, X = 4)];

/// The events of a hart's first chunk and of its second one. What they are is told to no proof.
fn eight_and_two() -> (&'static [Row], &'static [Row]) {
    (EIGHT, TWO)
}

#[test]
fn chunks_are_applied_in_order_and_once(rt: HostRuntime) {
    let alloc = rt.alloc();
    let (eight, two) = eight_and_two();
    let first = chunk_of(&rt, alloc, 0, eight);
    let second = chunk_of(&rt, alloc, 1, two);
    let mut book = Book::new(alloc, MemoryModel::Rvwmo);
    assert_applied_in_order(&rt, &mut book, (&first, 8), (&second, 2));
    assert!(rt; book.accepted() == 10);
    drop(book);
}

/// Nine stores of hart 0 to one word, in the order of their versions.
const NINE: &[Row] = &[
    store!(0: 0, X = 1),
    store!(0: 1, X = 2),
    store!(0: 2, X = 3),
    store!(0: 3, X = 4),
    store!(0: 4, X = 5),
    store!(0: 5, X = 6),
    store!(0: 6, X = 7),
    store!(0: 7, X = 8),
    store!(0: 8, X = 9),
];

/// The nine stores. What they are is told to no proof.
fn nine() -> &'static [Row] {
    NINE
}

#[test]
fn nine_stores_in_two_chunks_stand_in_their_order(rt: HostRuntime) {
    let alloc = rt.alloc();
    let first = chunk_of(&rt, alloc, 0, nine().get(..8).expect(&rt, "eight"));
    let second = chunk_of(&rt, alloc, 1, nine().get(8..).expect(&rt, "one"));
    let mut book = Book::new(alloc, MemoryModel::Rvwmo);
    assert_applied_in_order(&rt, &mut book, (&first, 8), (&second, 1));
    let order = book.order().expect(&rt, "memory");
    assert!(rt; are_ids(order.as_slice(), nine()));
    drop(book);
}

/// Whether these are the ids of the rows.
fn are_ids(ids: &[Id], rows: &[Row]) -> bool {
    ids.len() == rows.len()
        && ids
            .iter()
            .zip(rows)
            .all(|(id, row)| id.hart == row.hart && id.seq == row.seq)
}

#[test]
fn a_chunk_gives_its_events_back_and_they_are_copied(rt: HostRuntime) {
    let alloc = rt.alloc();
    let eight = nine().get(..8).expect(&rt, "eight");
    let chunk = chunk_of(&rt, alloc, 0, eight);
    let events = unpack(alloc, &chunk).expect(&rt, "memory");
    for (event, row) in events.iter().zip(eight) {
        let copy = event.copy(alloc).expect(&rt, "memory");
        assert!(rt; copy == *event);
        assert!(rt; copy == event_of(alloc, row).expect(&rt, "memory"));
    }
    assert!(rt; events.len() == 8);
}

const STALE_INSIDE: &[Row] = &[store!(0: 0, X = 1), load!(0: 1, X = 0), store!(0: 2, Y = 1)];

/// A store, a load that reads below it, and a store more. What they are is told to no proof.
fn stale_inside() -> &'static [Row] {
    STALE_INSIDE
}

#[test]
fn a_chunk_halts_at_its_first_forbidden_event(rt: HostRuntime) {
    let alloc = rt.alloc();
    let stale = chunk_of(&rt, alloc, 0, stale_inside());
    let mut book = Book::new(alloc, MemoryModel::Rvwmo);
    assert!(rt; offer(&mut book, &stale) == Came::Halted);
    assert!(rt; book.stopped() && book.accepted() == 1);
    assert!(rt; offer(&mut book, &stale) == Came::Stopped);
    drop(book);
}

/// The execution is applied as one chunk.
fn assert_applied(rt: &impl Abort, alloc: Global, test: &AllowedTest) {
    let chunk = chunk_of(rt, alloc, 0, test.rows);
    let mut book = Book::new(alloc, test.model);
    let came = offer(&mut book, &chunk);
    assert!(rt; came == Came::Applied(test.rows.len()), "{}", test.name);
    assert!(rt; book.operations() == test.operations, "{}", test.name);
    drop(book);
}

#[test]
fn allowed_executions_are_applied_as_one_chunk(rt: HostRuntime) {
    for test in allowed() {
        if !test.rows.is_empty() && test.rows.len() <= 8 {
            assert_applied(&rt, rt.alloc(), test);
        }
    }
}
