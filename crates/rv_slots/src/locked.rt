//! Slots under one lock.
ghost use Rattle.std.specs.Prelude.{◌≡◌, ◌↔◌, ◌<◌, ◌⊎◌, IfOk, IfSome, IsNone, Err, vec_len, ⊤};
ghost use Rattle.std.specs.List.{range_with_len};
ghost use Rattle.rv_slots.specs.SlotLists.{AreFull, IsChunkOf, IsPutFirst, IsShutAt};
ghost use Rattle.rv_slots.specs.declared.carrier.Put.TheVariants as put;
ghost use Rattle.rv_slots.specs.Leases.{IsLookOf};
ghost use Rattle.rv_slots.specs.declared.fault.SlotsFault.TheVariants as fault;

use crate::carrier::{Carrier, Looked, Put};
use crate::fault::SlotsFault;
use crate::slot::Slot;
use rv_chunk::Chunk;
use rv_slotcore::SEATS_AT_MOST;
use std::alloc::{AllocError, Global};
use std::marker::Model;
use std::sync::{Mutex, Wait};

/// The slots, as whoever has the lock sees them.
#[derive(Drop)]
struct Table {
    slots: Vec<Slot>,
}

impl Table {
    /// Puts the chunk into the first free slot.
    fn put(&mut self, chunk: &Chunk) -> Put
        ensures placed { result ≡ put.Placed
            → IsPutFirst self.old.slots.items chunk.now self.new.slots.items }
        ensures busy { result ≡ put.Busy → AreFull self.old.slots.items (vec_len self.old.slots)
            × (self.new.slots.items ≡ self.old.slots.items) }
    {
        for index in 0..self.slots.len() {
            if let Put::Placed = self.slots[index].put(chunk) {
                return Put::Placed;
            }
        }
        Put::Busy
    }

    /// The chunk of a slot, if there is such a slot and it can be read.
    fn read(&mut self, index: usize) -> Option<Chunk>
        ensures chunk { IfSome result (IsChunkOf self.old.slots.items index) }
        ensures nothing { IsNone result → self.new.slots.items ≡ self.old.slots.items }
        ensures shut { IsNone result → IsShutAt self.old.slots.items index }
    {
        self.slots.get_mut(index)?.read()
    }

    /// Ends the reading of a slot.
    fn finish(&mut self, index: usize, applied: bool) {
        if let Some(slot) = self.slots.get_mut(index) {
            slot.finish(applied);
        }
    }
}

/// A carrier whose slots stand under one lock.
///
/// A slot is freed only where its chunk is done with and nobody reads it. Each call waits for the
/// lock, and for nothing else.
#[derive(Drop)]
pub struct LockedSlots {
    table: Mutex<Table>,
}

/// A seat of such a carrier. Contracts see it as its number.
#[derive(Drop)]
pub struct LockedSeat {
    number: u8,
}

impl Model for LockedSeat {
    ghost use Rattle.std.specs.Prelude.{ℕ};

    ghost Value = { ℕ };

    ghost view = { λ s. s.number };
}

impl LockedSeat {
    /// The seat's number, 0 to 31. It takes no memory.
    pub fn number(&self) -> u8
        ensures { result ≡ self.now }
    {
        self.number
    }
}

/// A seat that reads a slot of such a carrier. Contracts see the seat's number and the slot's
/// index.
#[derive(Drop)]
pub struct LockedLease {
    seat: LockedSeat,
    index: usize,
}

impl Model for LockedLease {
    ghost use Rattle.rv_slots.specs.Leases.{Leased};

    ghost Value = { Leased };

    ghost view = { λ l. record { seat = l.seat; index = l.index } };
}

impl LockedSlots {
    /// So many free slots, and thirty-two seats, numbers 0 to 31.
    ///
    /// # Errors
    /// `Count` exactly where the number of slots is not 2 to 16, and `NoMemory` where a growth was
    /// refused.
    pub fn new(alloc: Global, slots: u8) -> Result<(LockedSlots, Vec<LockedSeat>), SlotsFault>
        ensures seats { IfOk result (λ r. r.1.items ≡ range_with_len 0 32) }
        ensures many { IfOk result (λ r. vec_len r.1 ≡ 32) }
        ensures count { (result ≡ Err fault.Count) ↔ ((slots < 2) ⊎ (16 < slots)) }
    {
        if slots < 2 || slots > 16 {
            return Err(SlotsFault::Count);
        }
        let table = free_slots(alloc, slots)?;
        let seats = idle_seats(alloc)?;
        Ok((
            LockedSlots {
                table: Mutex::new(table),
            },
            seats,
        ))
    }
}

/// So many free slots.
fn free_slots(alloc: Global, count: u8) -> Result<Table, AllocError> {
    let mut slots = Vec::new(alloc);
    for _ in 0..count {
        slots.push(Slot::new())?;
    }
    Ok(Table { slots })
}

/// The seats, in the order of their numbers.
fn idle_seats(alloc: Global) -> Result<Vec<LockedSeat>, AllocError>
    ensures { IfOk result (λ seats. seats.items ≡ range_with_len 0 32) }
{
    let mut seats = Vec::new(alloc);
    for number in 0..SEATS_AT_MOST {
        seats.push(LockedSeat { number })?;
    }
    Ok(seats)
}

impl Carrier for LockedSlots {
    type Seat = LockedSeat;

    type Lease = LockedLease;

    ghost fits = { λ table seat. ⊤ };

    ghost holds = { λ table lease. ⊤ };

    ghost looks = { λ table seat index looked. IsLookOf seat index looked };

    ghost finishes = { λ table lease applied seat. seat ≡ lease.seat };

    /// Puts the chunk into the first slot that is free, and answers `Busy` where none is.
    fn put_chunk<R: Wait>(&self, rt: &R, seat: LockedSeat, chunk: &Chunk) -> (LockedSeat, Put)
        ensures { result.0 ≡ seat }
    {
        let put = self.table.lock(rt).put(chunk);
        (seat, put)
    }

    /// Finds the slot's chunk where the slot is full and not done. Several may read one slot.
    fn read_chunk<R: Wait>(
        &self,
        rt: &R,
        seat: LockedSeat,
        index: usize,
    ) -> Looked<LockedSeat, LockedLease>
        ensures { IsLookOf seat index result }
    {
        let found = self.table.lock(rt).read(index);
        match found {
            Some(chunk) => Looked::Found(chunk, LockedLease { seat, index }),
            None => Looked::Nothing(seat),
        }
    }

    /// Takes the reader off the slot, and frees the slot where its chunk is done with and nobody
    /// reads it.
    fn finish_chunk<R: Wait>(&self, rt: &R, lease: LockedLease, applied: bool) -> LockedSeat
        ensures { result ≡ lease.seat }
    {
        self.table.lock(rt).finish(lease.index, applied);
        lease.seat
    }
}
