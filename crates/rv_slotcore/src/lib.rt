//! The slot table as a pure machine: slots that seats fill, pin, read and free, and the law that no
//! slot is freed or filled anew while a seat reads it.
//!
//! - [`word`]: the state word of a slot, where its parts lie, and what is read of it and made of
//!   it. The layout stands there, in `specs/Places.antt`, and nowhere else.
//! - [`step`]: what a seat may do, and what it is answered.
//! - [`parts`], [`acts`], [`machine`]: the machine as a program, [`Core`], over whole states, for
//!   one thread.
//! - `specs/Machine.antt`: the machine as a definition: the state, the eight acts of a seat,
//!   `Unfit` for what isn't admitted, and runs of steps. `specs/Safe.antt`: what is safe, and the
//!   law. `specs/Word.antt`: a state word read by its bits. `specs/CoreIs.antt`: the machine's
//!   state that a `Core` is in.
//!
//! It stands on `rv_event`, and on the chunk texts of `rv_chunk`, which a seat's words are to be
//! before it publishes them. Its one contract to the crates above is the definition of the
//! machine, with the law that after every list of steps the state is safe.
#![tactic(auto)]

mod acts;
mod machine;
mod parts;
mod step;
mod word;

ghost use Rattle.rv_slotcore.specs.Safe.{SlotsAreSafe};

pub use machine::Core;
pub use parts::{Record, SeatState, SlotState};
pub use step::{Act, Answer, Step};
pub use word::{
    CLAIMED, CLAIMED_BIT, DONE, DONE_BIT, FULL, FULL_BIT, GENERATION_BIT, LAST_GENERATION,
    LAST_SEAT, SEATS_AT_MOST, SLOT_WORDS, SLOTS_AT_LEAST, SLOTS_AT_MOST, generation, is_free_word,
    is_last, next_word, pin_of,
};

/// The law: every list of steps from the start, over any number of slots and up to 32 seats, leads
/// to a safe state.
///
/// In a safe state each pinned slot is full, of the pinned generation and with the pinned content,
/// so that it was neither freed nor filled anew; two records of one slot and generation have one
/// content; and no record of a slot is of a generation above the slot's own. The law speaks of the
/// definitions alone, and the call does nothing.
pub fn slots_are_safe()
    ensures { SlotsAreSafe }
{}
