//! The litmus tests: small traces whose answer is known from outside the code, and what each part
//! of the monitor says of them.
//!
//! Its tables ([`allowed`], [`circles`], [`refused`], `carriers`, `histories`, `malformed`, made of
//! [`rows`]) stand in one place, so that the reference implementation, the checker and all that is
//! built above them are held to the same executions; the first three are there for other crates'
//! tests too. The rest are tests. It stands on each crate that it tests.
#![tactic(auto)]

pub mod allowed;
#[cfg(test)]
mod books;
#[cfg(test)]
mod carriers;
#[cfg(test)]
mod certificates;
#[cfg(test)]
mod chunks;
pub mod circles;
#[cfg(test)]
mod cuts;
#[cfg(test)]
mod edges;
#[cfg(test)]
mod histories;
#[cfg(test)]
mod malformed;
pub mod refused;
pub mod rows;
#[cfg(test)]
mod steps;
#[cfg(test)]
mod thinned;
#[cfg(test)]
mod verdicts;
