//! Sets of numbers as bits, the sweep that thins candidates by such sets, and a map from numbers to
//! numbers.
//!
//! The events of a hart have the numbers below 4,096. So one [`Row`] holds all events of a hart
//! that lead to an event, and sets are joined and subtracted 64 numbers at a time. A sweep of
//! [`take_highest`] takes those of a set of candidates from which no other candidate leads on: the
//! links that remain where all others follow.
//!
//! - `row`: a set of numbers. `rows`: many, kept one after the other in one list of words.
//! - `bit_set`: a set of numbers with room for as many as it was made for.
//! - `number_map`: a number for each of some numbers.
//! - `thinning`: a step of the sweep.
//! - `laws`: what the steps of a whole sweep take.
//! - `specs/`: what a row has (`Bits`), how rows lie one after the other (`Flat`), what a step of a
//!   sweep takes, and when candidates are thinned (`Closure`), the law (`Laws`), what a map has
//!   (`NumberMaps`).
//!
//! It stands on std alone. Its one contract to the others: a step takes the highest candidate, with
//! all that its row has; and the steps of a whole sweep over closed rows thin the candidates.
#![tactic(auto)]

mod bit_set;
mod laws;
mod number_map;
mod row;
mod rows;
mod thinning;

pub use bit_set::BitSet;
pub use laws::sweeps_thin;
pub use number_map::NumberMap;
pub use row::Row;
pub use rows::Rows;
pub use thinning::take_highest;
