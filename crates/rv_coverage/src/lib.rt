//! What of the model a log has exercised: events by kind, links by reason, where loads read from.
//!
//! - `kind`: by what events are told apart. `feature`: what is counted, and each count.
//! - `counting`: the counts over a log and its links. `reads`: where loads read from. `sharing`:
//!   pairs of operations on one word. `waiting`: the loads whose stores have not come.
//! - [`coverage`]: all of it, of a book ([`coverage_of`]).
//! - `specs/`: each count, as a count over the log.
//!
//! It stands on `rv_event` for events and on `rv_book` for logs that are allowed. Its one contract
//! to the others: each number is the count that its name says.
#![tactic(auto)]

mod counting;
mod coverage;
mod feature;
mod kind;
mod reads;
mod sharing;
mod waiting;

pub use coverage::{Coverage, coverage_of};
pub use feature::{Count, Feature, Origin};
pub use kind::Kind;
pub use waiting::{Wait, first_waits};
