//! Slots under the lock.
use rv_chunk::{Chunk, pack};
use rv_event::{Deps, Event, Id, Op};
use rv_slots::{Carrier, LockedLease, LockedSeat, LockedSlots, Looked, Put, SlotsFault};
use std::alloc::Global;
use std::process::Abort;
use std::sync::Wait;

/// A chunk of one store, with this number.
fn chunk_of(rt: &impl Abort, alloc: Global, number: u32) -> Chunk {
    let store = Event {
        id: Id { hart: 0, seq: 0 },
        op: Op::Store,
        word: 0,
        read: 0,
        wrote: 1,
        acquire: false,
        release: false,
        deps: Deps::from_vec(Vec::new(alloc)),
    };
    pack(&[store], 0, number).expect(rt, "a chunk")
}

/// So many slots, and the first two seats.
fn slots_of(rt: &impl Abort, alloc: Global, slots: u8) -> (LockedSlots, LockedSeat, LockedSeat) {
    let (slots, seats) = LockedSlots::new(alloc, slots).expect(rt, "slots");
    let mut seats = seats.into_iter();
    let first = seats.next().expect(rt, "a seat");
    let second = seats.next().expect(rt, "a seat");
    (slots, first, second)
}

/// Puts a chunk, and wants this answer.
fn assert_put<R: Wait + Abort>(
    rt: &R,
    slots: &LockedSlots,
    seat: LockedSeat,
    chunk: &Chunk,
    wanted: Put,
) -> LockedSeat {
    let (seat, put) = slots.put_chunk(rt, seat, chunk);
    assert!(rt; put == wanted);
    seat
}

/// Reads a slot, which is to hold the chunk of this number.
fn assert_found<R: Wait + Abort>(
    rt: &R,
    slots: &LockedSlots,
    seat: LockedSeat,
    index: usize,
    number: u32,
) -> LockedLease {
    match slots.read_chunk(rt, seat, index) {
        Looked::Found(chunk, lease) => {
            assert_eq!(rt; chunk.number(), number);
            assert_eq!(rt; chunk.count(), 1);
            lease
        }
        Looked::Nothing(_) => panic!(rt; "nothing in slot {index}"),
    }
}

/// Reads a slot in which nothing is to be found.
fn assert_nothing<R: Wait + Abort>(
    rt: &R,
    slots: &LockedSlots,
    seat: LockedSeat,
    index: usize,
) -> LockedSeat {
    match slots.read_chunk(rt, seat, index) {
        Looked::Found(_, _) => panic!(rt; "a chunk in slot {index}"),
        Looked::Nothing(seat) => seat,
    }
}

#[test]
fn seats_are_numbered_and_the_number_of_slots_is_looked_at(rt: HostRuntime) {
    for count in 0..=18u8 {
        match LockedSlots::new(rt.alloc(), count) {
            Ok((_slots, seats)) => {
                assert!(rt; count >= 2 && count <= 16);
                assert_eq!(rt; seats.len(), 32);
                assert!(rt;
                    seats
                        .iter()
                        .enumerate()
                        .all(|(i, s)| s.number() as usize == i)
                );
            }
            Err(SlotsFault::Count) => assert!(rt; count < 2 || count > 16),
            Err(SlotsFault::NoMemory) => panic!(rt; "no memory"),
        }
    }
}

#[test]
fn a_slot_is_freed_once_it_is_done_and_nobody_reads_it(rt: HostRuntime) {
    let (slots, one, two) = slots_of(&rt, rt.alloc(), 2);
    let one = assert_put(&rt, &slots, one, &chunk_of(&rt, rt.alloc(), 4), Put::Placed);
    let one = assert_put(&rt, &slots, one, &chunk_of(&rt, rt.alloc(), 5), Put::Placed);
    let more = chunk_of(&rt, rt.alloc(), 6);
    let one = assert_put(&rt, &slots, one, &more, Put::Busy);
    let one = assert_found(&rt, &slots, one, 0, 4);
    let two = assert_found(&rt, &slots, two, 0, 4);
    let one = slots.finish_chunk(&rt, one, true);
    let one = assert_nothing(&rt, &slots, one, 0);
    let one = assert_put(&rt, &slots, one, &more, Put::Busy);
    let two = slots.finish_chunk(&rt, two, false);
    let two = assert_put(&rt, &slots, two, &more, Put::Placed);
    let two = assert_found(&rt, &slots, two, 0, 6);
    let one = assert_found(&rt, &slots, one, 1, 5);
    let one = slots.finish_chunk(&rt, one, false);
    let one = assert_found(&rt, &slots, one, 1, 5);
    drop((one, two));
}

#[test]
fn nothing_is_found_where_there_is_no_slot(rt: HostRuntime) {
    let (slots, one, two) = slots_of(&rt, rt.alloc(), 2);
    let mut seat = assert_put(&rt, &slots, one, &chunk_of(&rt, rt.alloc(), 0), Put::Placed);
    for index in [1, 2, 16, usize::MAX] {
        seat = assert_nothing(&rt, &slots, seat, index);
    }
    drop((seat, two));
}
