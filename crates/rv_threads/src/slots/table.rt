//! The table call by call, two threads at one slot, and a carrier over a table.
//!
//! What may panic stands in functions of its own, so that few paths lead through a test.
ghost use Rattle.std.specs.Prelude.{◌≡◌, ◌<◌, ℕ, All};

use rv_chunk::{Chunk, pack};
use rv_event::{Deps, Event, Id, Op};
use rv_slots::{
    Carrier, Claim, Filling, Free, Looked, Pin, Pinned, Put, Seat, Slots, SlotsFault, Stray,
    TableCarrier,
};
use std::alloc::Global;
use std::process::Abort;
use std::sync::Wait;
use std::thread;

/// A table of this many slots, and its seats.
fn open(rt: &impl Abort, alloc: Global, count: usize) -> (Slots, Vec<Seat>)
    ensures count { result.0.count ≡ count }
    ensures ours { All (λ s. s.place.table_id ≡ result.0.table.shared.table_id) result.1.items }
{
    match Slots::new(alloc, count) {
        Ok(opened) => opened,
        Err(fault) => panic!(rt; "{fault}"),
    }
}

/// The seat of this number, where those of higher numbers may be let go. The seats that are left
/// are those of lower numbers, in order.
fn take_seat(rt: &impl Abort, slots: &Slots, seats: &mut Vec<Seat>, number: usize) -> Seat
    requires { All (λ s. s.place.table_id ≡ slots.now.table.shared.table_id) seats.old.items }
    ensures seat { result.place.table_id ≡ slots.now.table.shared.table_id }
    ensures left { All (λ s. s.place.table_id ≡ slots.now.table.shared.table_id) seats.new.items }
{
    for _turn in 0..32u8 {
        let Some(seat) = seats.pop() else {
            panic!(rt; "no seat is left")
        };
        if seats.len() == number {
            return seat;
        }
    }
    panic!(rt; "no such seat")
}

/// A chunk of one store.
fn store_chunk(rt: &impl Abort, alloc: Global) -> Chunk {
    let event = Event {
        id: Id { hart: 1, seq: 2 },
        op: Op::Store,
        word: 3,
        read: 0,
        wrote: 4,
        acquire: false,
        release: true,
        deps: Deps::from_vec(Vec::new(alloc)),
    };
    let events = vec![in alloc; event].expect(rt, "memory");
    match pack(events.as_slice(), 5, 6) {
        Ok(chunk) => chunk,
        Err(_fault) => panic!(rt; "one store is packed"),
    }
}

/// Claims a slot.
fn claim_slot(rt: &impl Abort, slots: &Slots, seat: Seat, slot: usize) -> Filling
    requires table { seat.place.table_id ≡ slots.now.table.shared.table_id }
    requires slot { slot < slots.now.count }
    ensures { result.place.table_id ≡ slots.now.table.shared.table_id }
{
    match slots.claim(seat, slot) {
        Claim::Filling(filling) => filling,
        Claim::Busy(_seat) => panic!(rt; "the slot is claimed"),
    }
}

/// Wants to claim a slot that is claimed.
fn claim_in_vain(rt: &impl Abort, slots: &Slots, seat: Seat, slot: usize) -> Seat
    requires table { seat.place.table_id ≡ slots.now.table.shared.table_id }
    requires slot { slot < slots.now.count }
    ensures { result.place.table_id ≡ slots.now.table.shared.table_id }
{
    match slots.claim(seat, slot) {
        Claim::Filling(_filling) => panic!(rt; "the slot is not claimed"),
        Claim::Busy(seat) => seat,
    }
}

/// Claims a slot and fills it with the chunk.
fn fill_slot(rt: &impl Abort, slots: &Slots, seat: Seat, slot: usize, chunk: &Chunk) -> Seat
    requires table { seat.place.table_id ≡ slots.now.table.shared.table_id }
    requires slot { slot < slots.now.count }
    ensures { result.place.table_id ≡ slots.now.table.shared.table_id }
{
    let filling = claim_slot(rt, slots, seat, slot);
    slots.fill(filling, chunk.words())
}

/// Pins a slot that is to be read.
fn pin_slot(rt: &impl Abort, slots: &Slots, seat: Seat, slot: usize) -> Pinned
    requires table { seat.place.table_id ≡ slots.now.table.shared.table_id }
    requires slot { slot < slots.now.count }
    ensures { result.place.table_id ≡ slots.now.table.shared.table_id }
{
    match slots.pin(seat, slot) {
        Pin::Pinned(pinned) => pinned,
        Pin::Stray(_stray) => panic!(rt; "the slot is not to be read"),
    }
}

/// Pins a slot that is not to be read.
fn pin_astray(rt: &impl Abort, slots: &Slots, seat: Seat, slot: usize) -> Stray
    requires table { seat.place.table_id ≡ slots.now.table.shared.table_id }
    requires slot { slot < slots.now.count }
    ensures { result.place.table_id ≡ slots.now.table.shared.table_id }
{
    match slots.pin(seat, slot) {
        Pin::Pinned(_pinned) => panic!(rt; "the slot is to be read"),
        Pin::Stray(stray) => stray,
    }
}

/// The state word of a slot, seen by a pin that is taken off again.
fn look(slots: &Slots, seat: Seat, slot: usize) -> (Seat, u64)
    requires table { seat.place.table_id ≡ slots.now.table.shared.table_id }
    requires slot { slot < slots.now.count }
    ensures { result.0.place.table_id ≡ slots.now.table.shared.table_id }
{
    match slots.pin(seat, slot) {
        Pin::Pinned(pinned) => slots.unpin(pinned),
        Pin::Stray(stray) => slots.unpin_stray(stray),
    }
}

/// The state word of a slot is this one.
fn assert_state(rt: &impl Abort, slots: &Slots, seat: Seat, slot: usize, wanted: u64) -> Seat
    requires table { seat.place.table_id ≡ slots.now.table.shared.table_id }
    requires slot { slot < slots.now.count }
    ensures { result.place.table_id ≡ slots.now.table.shared.table_id }
{
    let (seat, word) = look(slots, seat, slot);
    assert_word(rt, word, wanted);
    seat
}

/// A state word is this one.
fn assert_word(rt: &impl Abort, word: u64, wanted: u64) {
    assert_eq!(rt; word, wanted);
}

/// A free of slot 0 by the word that was seen ends so.
fn assert_free(rt: &impl Abort, slots: &Slots, seat: &mut Seat, seen: u64, wanted: Free)
    requires { seat.old.place.table_id ≡ slots.now.table.shared.table_id }
    ensures { seat.new.place.table_id ≡ slots.now.table.shared.table_id }
{
    let free = slots.free(seat, 0, seen);
    assert_eq!(rt; free, wanted);
}

/// A read of the pinned slot gives the chunk.
fn assert_read(rt: &impl Abort, slots: &Slots, pinned: &mut Pinned, chunk: &Chunk)
    requires { pinned.old.place.table_id ≡ slots.now.table.shared.table_id }
    ensures { pinned.new.place.table_id ≡ slots.now.table.shared.table_id }
{
    let read = slots.read(pinned);
    assert!(rt; read.words() == chunk.words());
}

#[test]
fn a_slot_is_read_by_the_first_seat_and_the_last(rt: HostRuntime) {
    let alloc = rt.alloc();
    let chunk = store_chunk(&rt, alloc);
    let (slots, mut seats) = open(&rt, alloc, 2);
    let last = take_seat(&rt, &slots, &mut seats, 31);
    let eye = take_seat(&rt, &slots, &mut seats, 2);
    let one = take_seat(&rt, &slots, &mut seats, 1);
    let zero = take_seat(&rt, &slots, &mut seats, 0);

    let filling = claim_slot(&rt, &slots, zero, 0);
    let eye = assert_state(&rt, &slots, eye, 0, 0x1_0000_0000);
    let zero = slots.fill(filling, chunk.words());
    let eye = assert_state(&rt, &slots, eye, 0, 0x3_0000_0000);

    let mut one = pin_slot(&rt, &slots, one, 0);
    let mut last = pin_slot(&rt, &slots, last, 0);
    let eye = assert_state(&rt, &slots, eye, 0, 0x3_8000_0002);
    slots.done(&mut one);
    let eye = assert_state(&rt, &slots, eye, 0, 0x7_8000_0002);

    let (mut one, seen) = slots.unpin(one);
    assert_word(&rt, seen, 0x7_8000_0000);
    assert_free(&rt, &slots, &mut one, seen, Free::Held);
    assert_read(&rt, &slots, &mut last, &chunk);
    let (mut last, seen) = slots.unpin(last);
    assert_word(&rt, seen, 0x7_0000_0000);
    assert_free(&rt, &slots, &mut last, seen, Free::Freed);
    let eye = assert_state(&rt, &slots, eye, 0, 0x8_0000_0000);

    let _filling = claim_slot(&rt, &slots, zero, 0);
    let _eye = assert_state(&rt, &slots, eye, 0, 0x9_0000_0000);
    assert_free(&rt, &slots, &mut one, 0xffff_ffff_0000_0000, Free::Worn);
}

#[test]
fn the_last_of_two_readers_frees(rt: HostRuntime) {
    let alloc = rt.alloc();
    let chunk = store_chunk(&rt, alloc);
    let (slots, mut seats) = open(&rt, alloc, 16);
    let three = take_seat(&rt, &slots, &mut seats, 3);
    let two = take_seat(&rt, &slots, &mut seats, 2);
    let one = take_seat(&rt, &slots, &mut seats, 1);
    let zero = take_seat(&rt, &slots, &mut seats, 0);

    let filling = claim_slot(&rt, &slots, zero, 0);
    let stray = pin_astray(&rt, &slots, three, 0);
    let (three, seen) = slots.unpin_stray(stray);
    assert_word(&rt, seen, 0x1_0000_0000);
    let three = claim_in_vain(&rt, &slots, three, 0);
    let zero = slots.fill(filling, chunk.words());

    let mut one = pin_slot(&rt, &slots, one, 0);
    let mut two = pin_slot(&rt, &slots, two, 0);
    slots.done(&mut one);
    let (mut one, seen) = slots.unpin(one);
    assert_word(&rt, seen, 0x7_0000_0004);
    assert_free(&rt, &slots, &mut one, seen, Free::Held);
    assert_read(&rt, &slots, &mut two, &chunk);
    let (mut two, seen) = slots.unpin(two);
    assert_word(&rt, seen, 0x7_0000_0000);
    assert_free(&rt, &slots, &mut two, seen, Free::Freed);

    let (one, _two) = slots.meet(one, two);
    let _one = assert_state(&rt, &slots, one, 0, 0x8_0000_0000);
    let _filling = claim_slot(&rt, &slots, zero, 0);
    let _three = assert_state(&rt, &slots, three, 0, 0x9_0000_0000);
}

#[test]
fn a_stray_pin_holds_back_a_free(rt: HostRuntime) {
    let alloc = rt.alloc();
    let chunk = store_chunk(&rt, alloc);
    let (slots, mut seats) = open(&rt, alloc, 2);
    let three = take_seat(&rt, &slots, &mut seats, 3);
    let eye = take_seat(&rt, &slots, &mut seats, 2);
    let one = take_seat(&rt, &slots, &mut seats, 1);
    let zero = take_seat(&rt, &slots, &mut seats, 0);

    let stray = pin_astray(&rt, &slots, three, 0);
    let eye = assert_state(&rt, &slots, eye, 0, 0x8);
    let filling = claim_slot(&rt, &slots, zero, 0);
    let eye = assert_state(&rt, &slots, eye, 0, 0x1_0000_0008);
    let _zero = slots.fill(filling, chunk.words());
    let eye = assert_state(&rt, &slots, eye, 0, 0x3_0000_0008);
    let mut one = pin_slot(&rt, &slots, one, 0);
    slots.done(&mut one);
    let (mut one, seen) = slots.unpin(one);
    assert_word(&rt, seen, 0x7_0000_0008);
    assert_free(&rt, &slots, &mut one, seen, Free::Held);
    let (mut three, seen) = slots.unpin_stray(stray);
    assert_word(&rt, seen, 0x7_0000_0000);
    assert_free(&rt, &slots, &mut three, seen, Free::Freed);
    let _eye = assert_state(&rt, &slots, eye, 0, 0x8_0000_0000);
}

#[test]
fn the_last_generation_is_not_freed(rt: HostRuntime) {
    let (slots, mut seats) = open(&rt, rt.alloc(), 2);
    let mut zero = take_seat(&rt, &slots, &mut seats, 0);
    assert_free(&rt, &slots, &mut zero, 0xffff_ffff_0000_0000, Free::Worn);
    let _filling = claim_slot(&rt, &slots, zero, 0);
}

#[test]
fn a_table_has_two_to_sixteen_slots_and_32_seats(rt: HostRuntime) {
    let alloc = rt.alloc();
    for count in 0..20usize {
        match Slots::new(alloc, count) {
            Ok((slots, seats)) => {
                assert!(rt; count >= 2 && count <= 16);
                assert_eq!(rt; slots.count(), count);
                assert_eq!(rt; seats.len(), 32);
            }
            Err(SlotsFault::Count) => assert!(rt; count < 2 || count > 16),
            Err(SlotsFault::NoMemory) => panic!(&rt; "memory"),
        }
    }
}

/// A seat's done, unpin and free of the slot that it has pinned.
fn end_reading(slots: &Slots, lease: Pinned, slot: usize) -> Free
    requires table { lease.place.table_id ≡ slots.now.table.shared.table_id }
    requires slot { slot < slots.now.count }
{
    let mut lease = lease;
    slots.done(&mut lease);
    let (mut seat, seen) = slots.unpin(lease);
    slots.free(&mut seat, slot, seen)
}

/// All words of a pinned slot; the pin stays.
fn read_on(slots: &Slots, lease: Pinned) -> (Chunk, Pinned)
    requires { lease.place.table_id ≡ slots.now.table.shared.table_id }
{
    let mut lease = lease;
    (slots.read(&mut lease), lease)
}

#[test]
fn pin_across_free(rt: HostRuntime) {
    let alloc = rt.alloc();
    for _round in 0..100u32 {
        let chunk = store_chunk(&rt, alloc);
        let (slots, mut seats) = open(&rt, alloc, 2);
        let two = take_seat(&rt, &slots, &mut seats, 2);
        let one = take_seat(&rt, &slots, &mut seats, 1);
        let zero = take_seat(&rt, &slots, &mut seats, 0);
        let _zero = fill_slot(&rt, &slots, zero, 0, &chunk);
        let one = pin_slot(&rt, &slots, one, 0);
        let two = pin_slot(&rt, &slots, two, 0);
        let shared = &slots;
        let (free, (read, _two)) = thread::join(
            &rt,
            move || -> Free
                requires { one.place.table_id ≡ shared.now.table.shared.table_id }
            { end_reading(shared, one, 0) },
            move || -> (Chunk, Pinned)
                requires { two.place.table_id ≡ shared.now.table.shared.table_id }
            { read_on(shared, two) },
        );
        assert_eq!(rt; free, Free::Held);
        assert!(rt; read.words() == chunk.words());
    }
}

/// Puts a chunk by a carrier of any kind, and tells whether it was placed.
fn put_by<R: Wait, C: Carrier>(rt: &R, carrier: &C, seat: C::Seat, chunk: &Chunk) -> (C::Seat, Put)
    requires { C.fits carrier.now seat }
    ensures { C.fits carrier.now result.0 }
{
    carrier.put_chunk(rt, seat, chunk)
}

/// Reads a slot by a carrier of any kind, declares it done, and gives its chunk.
fn take_by<R: Wait, C: Carrier>(
    rt: &R,
    carrier: &C,
    seat: C::Seat,
    index: usize,
) -> (C::Seat, Option<Chunk>)
    requires { C.fits carrier.now seat }
    ensures { C.fits carrier.now result.0 }
{
    match carrier.read_chunk(rt, seat, index) {
        Looked::Found(chunk, lease) => (carrier.finish_chunk(rt, lease, true), Some(chunk)),
        Looked::Nothing(seat) => (seat, None),
    }
}

#[test]
fn a_carrier_hands_chunks_on(rt: HostRuntime) {
    let alloc = rt.alloc();
    let chunk = store_chunk(&rt, alloc);
    let (slots, mut seats) = open(&rt, alloc, 2);
    let seat = take_seat(&rt, &slots, &mut seats, 0);
    let carrier = TableCarrier::new(slots);
    let (seat, nothing) = take_by(&rt, &carrier, seat, 0);
    assert!(rt; nothing.is_none());
    let (seat, first) = put_by(&rt, &carrier, seat, &chunk);
    let (seat, second) = put_by(&rt, &carrier, seat, &chunk);
    let (seat, third) = put_by(&rt, &carrier, seat, &chunk);
    assert_eq!(rt;
        (first, second, third),
        (Put::Placed, Put::Placed, Put::Busy)
    );
    let (seat, beyond) = take_by(&rt, &carrier, seat, 2);
    assert!(rt; beyond.is_none());
    let (seat, found) = take_by(&rt, &carrier, seat, 1);
    assert!(rt; found.map(|read| *read.words()) == Some(*chunk.words()));
    let (seat, again) = take_by(&rt, &carrier, seat, 1);
    assert!(rt; again.is_none());
    let (_seat, placed) = put_by(&rt, &carrier, seat, &chunk);
    assert_eq!(rt; placed, Put::Placed);
}
