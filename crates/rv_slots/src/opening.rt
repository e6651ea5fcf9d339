//! How a table is made, and how two of its seats meet.
ghost use Rattle.std.specs.Prelude.{◌≡◌, ◌<◌, ◌*◌, ℕ, IfOk, IfErr, All};
ghost use Rattle.rv_slotcore.specs.Places.{seats_at_most};
ghost use Rattle.rv_slots.specs.Opening.{AreSeats, IsFault, IsMeet};

use crate::fault::SlotsFault;
use crate::plays::{Cut, Glue, Meets};
use crate::seats::Seat;
use crate::slots::Slots;
use atomic_table::Table;
use rv_slotcore::{LAST_SEAT, SEATS_AT_MOST, SLOT_WORDS, SLOTS_AT_LEAST, SLOTS_AT_MOST};
use std::alloc::Global;

impl Slots {
    /// A table of 2 to 16 slots whose words are all 0, and its 32 seats, idle, numbered from 0 in
    /// their order.
    ///
    /// # Errors
    /// `Count` exactly where the number of slots isn't 2 to 16; else `NoMemory` where memory was
    /// refused.
    pub fn new(alloc: Global, count: usize) -> Result<(Slots, Vec<Seat>), SlotsFault>
        ensures ok { IfOk result (λ r. (r.0.count ≡ count)
            × AreSeats r.0.table.shared.table_id r.1.items seats_at_most) }
        ensures ours { IfOk result (λ r. All (λ s. s.place.table_id ≡ r.0.table.shared.table_id) r.1.items) }
        ensures err { IfErr result (IsFault count) }
    {
        if count < SLOTS_AT_LEAST || count > SLOTS_AT_MOST {
            return Err(SlotsFault::Count);
        }
        let Ok(words) = Vec::from_elem(alloc, 0u64, SLOT_WORDS * count) else {
            return Err(SlotsFault::NoMemory);
        };
        let Ok(mut seats) = Vec::with_capacity(alloc, SEATS_AT_MOST as usize) else {
            return Err(SlotsFault::NoMemory);
        };
        let Ok((table, mut rest)) = Table::of_words(alloc, words.as_slice(), &count) else {
            return Err(SlotsFault::NoMemory);
        };
        for number in 0..LAST_SEAT {
            let next = table.shared.split_seat::<Cut>(&mut rest);
            let seat = Seat {
                number,
                place: rest,
            };
            rest = next;
            let Ok(()) = seats.push(seat) else {
                return Err(SlotsFault::NoMemory);
            };
        }
        let last = Seat {
            number: LAST_SEAT,
            place: rest,
        };
        let Ok(()) = seats.push(last) else {
            return Err(SlotsFault::NoMemory);
        };
        Ok((Slots { table, count }, seats))
    }

    /// How many slots there are. It takes no memory.
    pub fn count(&self) -> usize
        ensures { result ≡ self.now.count }
    {
        self.count
    }

    /// Lets two idle seats meet, for what it promises of their records: two of one slot and
    /// generation agree on each word that both have. Both come back with their own states, records
    /// and marks.
    ///
    /// It is one join, one load of the first word, and one split.
    pub fn meet(&self, first: Seat, second: Seat) -> (Seat, Seat)
        requires first { first.place.table_id ≡ self.now.table.shared.table_id }
        requires second { second.place.table_id ≡ self.now.table.shared.table_id }
        ensures { IsMeet first second result.0 result.1 }
    {
        let Seat {
            number: a,
            mut place,
        } = first;
        let Seat {
            number: b,
            place: other,
        } = second;
        let shared = &self.table.shared;
        shared.join_seat::<Glue>(&mut place, other);
        shared.load::<Meets>(&mut place, 0);
        let other = shared.split_seat::<Cut>(&mut place);
        let first = Seat { number: a, place };
        let second = Seat {
            number: b,
            place: other,
        };
        (first, second)
    }
}
