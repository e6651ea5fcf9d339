//! The table.
ghost use Rattle.std.specs.Prelude.{◌≡◌, ◌<◌, ◌≤◌, ◌*◌, ℕ};
ghost use Rattle.rv_slotcore.specs.Places.{slot_words, slots_at_least, slots_at_most};

use crate::plays::SlotRule;
use crate::views::View;
use atomic_table::Table;
use std::alloc::Global;

/// A table of 2 to 16 slots, each of which holds one chunk, that seats in any threads fill, read
/// and free without a lock.
///
/// Its seats come with it from `new`. Each call takes a seat of this table, or what it became, by
/// value or by an exclusive reference, so that a seat is in one state at a time. Each of the calls
/// claim, put, publish, pin, get, done and unpin makes one atomic exchange, and a free makes one at
/// most; no call but `new` takes memory, and none waits.
///
/// Slots hold no content that a clause could name: other threads change them at any time. What a
/// clause names instead is what the seat knows, and the rule of the table says of all that seats
/// know, between any two exchanges of any threads, that it is a state of the machine of
/// `rv_slotcore`.
#[derive(Drop)]
pub struct Slots {
    pub(crate) table: Table<(), View, usize, SlotRule, Global>,
    pub(crate) count: usize,
    ghost few: { (slots_at_least ≤ count) × (count ≤ slots_at_most) },
    ghost sized: { table.shared.table_id.words ≡ slot_words * count },
    ghost keyed: { table.shared.key ≡ count },
}
