//! What carries chunks from the threads that read to the threads that judge.
//!
//! A [`Carrier`] has slots, each for one chunk, and seats, one for each thread that takes part. A
//! reading thread puts a chunk into a free slot; a judging thread looks at a slot, holds the chunk
//! that it finds there by a lease, and gives the lease back, saying whether the chunk is done with.
//! There are two: [`TableCarrier`] over [`Slots`], a table of atomic words that no thread waits
//! for, and [`LockedSlots`], whose slots stand under one lock.
//!
//! - [`carrier`]: the trait, with what each call answers; [`fault`]: why no slots were made.
//! - [`slots`], `opening`, `calls`: the table, how it is made, and the calls by which a seat fills,
//!   reads and frees slots; [`seats`]: what a seat becomes from call to call; `views`, `plays`:
//!   what each seat knows, and how each kind of exchange changes that.
//! - [`laws`]: each exchange is a step of the machine of `rv_slotcore`, and what the table's rule
//!   says between any two.
//! - [`table_carrier`]: a whole chunk filled in and read by these calls, and the carrier over the
//!   table. [`locked`], `slot`: the carrier under a lock.
//! - `specs/Rule.antt`: the rule that ties the words of the table, and what all seats know, to a
//!   state of the machine. `specs/Lines.antt`: each exchange's change of what its seat knows.
//!   `specs/Says.antt`, `Steps.antt`: the laws.
//!
//! It stands on `rv_chunk` for chunks, on `rv_slotcore` for the machine and on the kit's
//! `atomic_table` and `thiserror`. Its contract to the others: what is found is a chunk, a seat
//! that comes back is one of the carrier's, and over every interleaving no slot of the table is
//! freed or filled anew while a seat has it pinned.
#![tactic(auto)]

mod calls;
mod carrier;
mod fault;
mod laws;
mod locked;
mod opening;
mod plays;
mod seats;
mod slot;
mod slots;
mod table_carrier;
mod views;

pub use carrier::{Carrier, Looked, Put};
pub use fault::SlotsFault;
pub use laws::{each_exchange_is_a_step, the_rule_says};
pub use locked::{LockedLease, LockedSeat, LockedSlots};
pub use seats::{Claim, Filling, Free, Pin, Pinned, Seat, Stray};
pub use slots::Slots;
pub use table_carrier::TableCarrier;
