//! What a file says of the rows of sources: `source,row,text`, a line each. The text tells where a
//! row comes from: a program counter, an instruction, an address, a symbol.
//!
//! - [`fault`]: what is wrong with such a file, and in which line.
//! - [`lines`]: the texts that it has ([`texts_from`]).
//! - `specs/`: what a line says, and what a file says as a whole.
//!
//! It stands on `rv_trace` for records and numbers, on `rv_explain` for the texts that are kept,
//! and on the kit's `csv` and `thiserror`. Its one contract to all others: the texts are those of
//! the file's records, or the first fault of these is answered.
#![tactic(auto)]

mod fault;
mod lines;

pub use fault::{LineFault, WhereFault};
pub use lines::texts_from;
