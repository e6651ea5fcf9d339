//! Hostile use: sources that are cut, that fail and that never end, writers that fail, and memory
//! that is refused.
//!
//! It has tests alone, over the litmus tests of `rv_litmus`: what each comes to is known from
//! outside the code.
//!
//! - `traces`: the litmus tests as entries and as the text of sources. `readers`, `writers`: those
//!   that fail once.
//! - `fronts`: sources that are cut or that never end. `reads`: each read refused in turn.
//!   `writes`: each write.
//! - `offers`, `chunks`, `histories`, `verdicts`, `reports`, `sources`, `runs`: each takes an
//!   answer that memory ran out as well as the answer itself, and holds what is left after it to
//!   what was there before. With ample memory they see the answers alone; `tests/allocations` runs
//!   each again and again, and refuses one allocation after the other.
//!
//! It stands on each crate that it tests.
#![tactic(auto)]

#[cfg(test)]
mod chunks;
#[cfg(test)]
mod fronts;
#[cfg(test)]
mod histories;
#[cfg(test)]
mod offers;
#[cfg(test)]
mod readers;
#[cfg(test)]
mod reads;
#[cfg(test)]
mod reports;
#[cfg(test)]
mod runs;
#[cfg(test)]
mod sources;
#[cfg(test)]
mod traces;
#[cfg(test)]
mod verdicts;
#[cfg(test)]
mod writers;
#[cfg(test)]
mod writes;
