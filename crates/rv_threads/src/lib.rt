//! What threads share, part by part, and whole runs: small cases whose answer is known from outside
//! the code.
//!
//! It has tests alone, and they call public functions alone. A crate with tests is proved twice, so
//! they stand here in place of the crates that they test. `tests/threads` runs each a hundred
//! times.
//!
//! - `machine`: runs of the slot machine of `rv_slotcore`.
//! - `slots`: the carriers of `rv_slots`, and its table call by call, by one thread and by two.
//! - `verdict`: the cell of `rv_verdict`, by one thread and by two.
//! - `runs`: passes in one thread and runs in several, of `rv_run`.
//!
//! It stands on each crate that it tests.
#![tactic(auto)]

#[cfg(test)]
mod machine;
#[cfg(test)]
mod runs;
#[cfg(test)]
mod slots;
#[cfg(test)]
mod verdict;
