//! A carrier over the table.
ghost use Rattle.std.specs.Prelude.{◌≡◌, ◌<◌, ◌*◌, ℕ, true, length};
ghost use Rattle.rv_chunk.specs.Chunks.{is_chunk_text};
ghost use Rattle.rv_slots.specs.Calls.{IsSamePinned};
ghost use Rattle.rv_slots.specs.Looks.{LooksFit};
ghost use Rattle.rv_slots.specs.Here.{IsHere, IsLent};
ghost use Rattle.rv_slots.specs.Carried.{IsFilled, IsRead, IsPutOf, IsLook, IsFinish, text_of};

use crate::carrier::{Carrier, Looked, Put};
use crate::seats::{Claim, Filling, Pin, Pinned, Seat};
use crate::slots::Slots;
use rv_chunk::Chunk;
use std::sync::Wait;

/// A carrier whose slots stand in a table without a lock.
///
/// Its calls wait for nobody and take no memory. A seat is a seat of the table, and a lease a seat
/// that has pinned a slot.
#[derive(Drop)]
pub struct TableCarrier {
    pub(crate) slots: Slots,
}

impl TableCarrier {
    /// A carrier over this table, for its seats.
    pub fn new(slots: Slots) -> TableCarrier
        ensures { result.slots ≡ slots }
    {
        TableCarrier { slots }
    }
}

impl Slots {
    /// Fills a slot that the seat has claimed with the words of a chunk, and gives it to be read.
    /// It is a put for each word and then a publish.
    pub fn fill(&self, filling: Filling, words: &[u64; 58]) -> Seat
        requires table { filling.place.table_id ≡ self.now.table.shared.table_id }
        requires text { is_chunk_text words.now ≡ true }
        ensures table { result.place.table_id ≡ self.now.table.shared.table_id }
        ensures filled { IsFilled filling words.now result }
    {
        let mut filling = filling;
        for place in 0..58usize {
            self.put(&mut filling, place, words[place]);
        }
        self.publish(filling)
    }

    /// The chunk of a slot that the seat has pinned, by a get for each word. The pin stays.
    ///
    /// It is a call of its own, so that a look at a slot that has nothing makes no room for a chunk.
    #[inline(never)]
    pub fn read(&self, pinned: &mut Pinned) -> Chunk
        requires { pinned.old.place.table_id ≡ self.now.table.shared.table_id }
        ensures same { IsSamePinned pinned.old pinned.new }
        ensures read { IsRead pinned.old (text_of result) pinned.new }
    {
        let mut words = [0u64; 58];
        for place in 0..58usize {
            words[place] = self.get(pinned, place);
        }
        Chunk::of_text(&words)
    }
}

impl Carrier for TableCarrier {
    type Seat = Seat;

    type Lease = Pinned;

    ghost fits = { IsHere };

    ghost holds = { IsLent };

    ghost looks = { λ carrier seat index looked. IsLook carrier.slots.count seat index looked };

    ghost finishes = { λ carrier lease applied seat. IsFinish lease applied seat };

    /// Tries a claim on each slot in turn, once; `Busy` where all were claimed.
    fn put_chunk<R: Wait>(&self, _rt: &R, seat: Seat, chunk: &Chunk) -> (Seat, Put)
        requires { IsHere self.now seat }
        ensures fits { IsHere self.now result.0 }
        ensures put { IsPutOf self.now.slots.count seat (text_of chunk.now) result.0 result.1 }
    {
        let mut seat = seat;
        for slot in 0..self.slots.count {
            match self.slots.claim(seat, slot) {
                Claim::Filling(filling) => {
                    return (self.slots.fill(filling, chunk.words()), Put::Placed);
                }
                Claim::Busy(again) => seat = again,
            }
        }
        (seat, Put::Busy)
    }

    /// Pins the slot and reads it, if it is one of the table and to be read; else takes the pin off
    /// again, and tries once to free the slot where its word then says done and no pin.
    fn read_chunk<R: Wait>(&self, _rt: &R, seat: Seat, index: usize) -> Looked<Seat, Pinned>
        requires { IsHere self.now seat }
        ensures fits { LooksFit (IsHere self.now) (IsLent self.now) result }
        ensures looks { IsLook self.now.slots.count seat index result }
    {
        if index >= self.slots.count {
            return Looked::Nothing(seat);
        }
        match self.slots.pin(seat, index) {
            Pin::Stray(stray) => {
                let (mut seat, seen) = self.slots.unpin_stray(stray);
                self.slots.free(&mut seat, index, seen);
                Looked::Nothing(seat)
            }
            Pin::Pinned(pinned) => {
                let mut lease = pinned;
                let chunk = self.slots.read(&mut lease);
                Looked::Found(chunk, lease)
            }
        }
    }

    /// Declares the slot done where the chunk was applied, takes the pin off, and tries once to
    /// free the slot where its word then says done and no pin.
    fn finish_chunk<R: Wait>(&self, _rt: &R, lease: Pinned, applied: bool) -> Seat
        requires { IsLent self.now lease }
        ensures fits { IsHere self.now result }
        ensures finishes { IsFinish lease applied result }
    {
        let mut lease = lease;
        let slot = lease.slot;
        if applied {
            self.slots.done(&mut lease);
        }
        let (mut seat, seen) = self.slots.unpin(lease);
        self.slots.free(&mut seat, slot, seen);
        seat
    }
}
