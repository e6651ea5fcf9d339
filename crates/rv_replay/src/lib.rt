//! Passes over a list of entries in one thread: what the list comes to, and how much its loads test.
//!
//! - [`replaying`]: offers entries one by one to a book of its own, and answers the outcome
//!   ([`replay`]): allowed, with its counts, or the first entry that is refused, with its verdict.
//! - [`strength`]: how many loads could not have returned the version before the one that they did
//!   ([`strength_of`]).
//! - [`laws`]: that outcomes say what is consistent.
//! - `specs/`: an outcome of a list, and which loads are put back.
//!
//! It stands on `rv_event` and `rv_cert`, on `rv_book` for the judgement, and on `rv_report` for
//! outcomes. Its one contract to the others: a list is allowed exactly where it is a well formed log
//! that has a lawful order.
#![tactic(auto)]

mod laws;
mod replaying;
mod strength;

pub use laws::allowed_where_consistent;
pub use replaying::replay;
pub use strength::{Strength, strength_of};
