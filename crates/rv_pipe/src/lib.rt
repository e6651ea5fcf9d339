//! Bytes that a thread of their own reads, so that nobody else waits inside a read.
//!
//! A [`pump`] reads a source that may be silent for as long as it likes, and hands what comes over
//! through a [`Pipe`]. A [`Piped`] is the reader at the other end. It waits for bytes too, and ends
//! where the [`Bell`] of the run that it serves says that the run is over. The pump's thread is
//! never joined: it may stand in a read that nothing ends.
//!
//! - [`bell`]: what the readers of a run are told. `lines`: bytes that were handed over and not
//!   taken yet.
//! - [`pipe`]: the two ends. [`piped`]: the reader.
//!
//! - `specs/`: when a row stands among bytes, and where the first one ends (`Rows`).
//!
//! It stands on std alone. Its one contract to the others: whoever takes bytes that are there gets
//! some. What is taken are the first that were handed over, to the end of a row or as many as there
//! is room for, and the others stay.
#![tactic(auto)]

mod bell;
mod lines;
mod pipe;
mod piped;

pub use bell::Bell;
pub use pipe::{End, Pipe, pump};
pub use piped::Piped;
