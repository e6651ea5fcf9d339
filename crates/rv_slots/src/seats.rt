//! What a seat becomes from call to call, and what it is answered.
ghost use Rattle.std.specs.Prelude.{◌<◌, ◌*◌};
ghost use Rattle.rv_slotcore.specs.Places.{slot_words};
ghost use Rattle.rv_slots.specs.Knows.{IsIdle, IsFilling, IsPinned, IsStray};

use crate::views::View;

/// The table's own part of a seat.
pub(crate) type Place = atomic_table::Seat<(), View>;

/// A seat that is idle.
#[derive(Drop)]
pub struct Seat {
    pub(crate) number: u8,
    pub(crate) place: Place,
    ghost idle: { IsIdle number place.me },
}

/// A seat that fills a slot.
#[derive(Drop)]
pub struct Filling {
    pub(crate) number: u8,
    pub(crate) slot: usize,
    pub(crate) place: Place,
    ghost fills: { IsFilling number slot place.me },
    ghost inside: { slot_words * slot < place.table_id.words },
}

/// A seat that has pinned a slot and may read it.
#[derive(Drop)]
pub struct Pinned {
    pub(crate) number: u8,
    pub(crate) slot: usize,
    pub(crate) place: Place,
    ghost pinned: { IsPinned number slot place.me },
    ghost inside: { slot_words * slot < place.table_id.words },
}

/// A seat that has its pin on a slot which it may not read.
#[derive(Drop)]
pub struct Stray {
    pub(crate) number: u8,
    pub(crate) slot: usize,
    pub(crate) place: Place,
    ghost stray: { IsStray number slot place.me },
    ghost inside: { slot_words * slot < place.table_id.words },
}

/// The answer to a claim.
#[derive(Drop)]
pub enum Claim {
    /// The slot was not claimed, and the seat fills it now.
    Filling(Filling),
    /// The slot was claimed already. Here is the seat back.
    Busy(Seat),
}

/// The answer to a pin.
#[derive(Drop)]
pub enum Pin {
    /// The slot is full and not done, and the seat may read it.
    Pinned(Pinned),
    /// The slot isn't to be read. The pin is set all the same, until the seat takes it off.
    Stray(Stray),
}

/// The answer to a free.
#[derive(Clone, Copy, PartialEq, Eq, Debug)]
pub enum Free {
    /// The slot is empty, of the next generation.
    Freed,
    /// The word seen isn't one of a slot that may be freed, or isn't the slot's any more.
    Held,
    /// The word seen is of the last generation, so that the slot stays done.
    Worn,
}
