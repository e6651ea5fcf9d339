//! The words of the command line: what they ask of the program, or why they are refused.
//!
//! - [`request`]: what is asked for, and the refusals.
//! - [`words`]: from words to a request.
//! - `command`: the program's command for the kit's `clap`, an argument a function, and `help`, its
//!   text for newcomers.
//! - `specs/`: the same command as a definition, one rule an argument, and what a request says of
//!   its words.
//!
//! It stands on `rv_event` for the memory models, and on the kit's `clap` and `thiserror`. Its one
//! contract to all others: a request says what clap's definition of a simple command finds in the
//! words for this command, in its ranges, and words are refused only where that definition refuses
//! them or finds more than eight files.
#![tactic(auto)]

mod command;
mod help;
mod request;
mod words;

pub use request::{Asked, WordsFault};
pub use words::asked;
