//! What a seat may do, and what it is answered.

/// What a seat does. Slots are numbered from 0; a slot's content is 58 words, at the places 0 to
/// 57.
#[derive(Clone, Copy, PartialEq, Eq, Debug)]
pub enum Act {
    /// An idle seat wants to fill this slot.
    Claim(usize),
    /// A filling seat puts a word at a place.
    Put(usize, u64),
    /// A filling seat has put all words, which are a chunk text, and gives them to be read.
    Publish,
    /// An idle seat pins this slot, so that it isn't freed.
    Pin(usize),
    /// A seat reads a word of the slot that it pinned.
    Get(usize),
    /// A seat says that the words of the slot that it pinned are used up.
    Done,
    /// A seat takes its pin off.
    Unpin,
    /// An idle seat frees this slot, if its state word is still the one that it has seen.
    Free(usize, u64),
}

/// An act of a seat.
#[derive(Clone, Copy, PartialEq, Eq, Debug)]
pub struct Step {
    /// The number of the seat, from 0 on.
    pub seat: u8,
    /// What it does.
    pub act: Act,
}

/// What a step is answered.
#[derive(Clone, Copy, PartialEq, Eq, Debug)]
pub enum Answer {
    /// To a claim: the slot was not claimed, and the seat fills it now.
    Filling,
    /// To a claim: the slot was claimed already.
    Busy,
    /// To a put.
    Stored,
    /// To a publish.
    Published,
    /// To a pin: the slot is full and not done, and the seat may read it.
    Pinned,
    /// To a pin: the slot isn't to be read. The seat's pin is set all the same, until it takes it
    /// off.
    Stray,
    /// To a get: the word.
    Word(u64),
    /// To done.
    Finished,
    /// To an unpin: the state word without the pin.
    Unpinned(u64),
    /// To a free: the slot is empty, of the next generation.
    Freed,
    /// To a free: the word seen isn't one of a slot that may be freed, or isn't the slot's any
    /// more.
    Held,
    /// To a free: the word seen is of the last generation, so that the slot stays done.
    Worn,
    /// A number is out of range, or the seat's state (to a publish, the words that it put, too)
    /// doesn't admit the act.
    Unfit,
}
