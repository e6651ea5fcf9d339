//! The lower crates one by one: small cases whose answer is known from outside the code.
//!
//! It has tests alone, and they call public functions alone. A crate with tests is proved twice, so
//! they stand here in place of the crates that they test.
//!
//! - `event`: printed texts and copies of `rv_event`, chunk texts and refusals to pack of
//!   `rv_chunk`.
//! - `rank`: placements by the order keeper of `rv_rank`.
//! - `hart`: the links by rules of a hart's next event, of `rv_hart`.
//! - `versions`: the links by versions of a log's next event, of `rv_versions`.
//! - `reader`: how often the trace reader of `rv_trace` asks its source.
//! - `instructions`: words that GNU binutils disassembles, of `rv_insn`.
//!
//! What the programs print of each wrong row, of wrong words and of commit logs stands in documents,
//! as commands, and second opinions in Python read random ones. It stands on each crate that it tests,
//! and on the definitions of `rv_cover`.
#![tactic(auto)]

#[cfg(test)]
mod event;
#[cfg(test)]
mod hart;
#[cfg(test)]
mod instructions;
#[cfg(test)]
mod rank;
#[cfg(test)]
mod reader;
#[cfg(test)]
mod versions;
