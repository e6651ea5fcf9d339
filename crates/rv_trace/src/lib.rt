//! The rows of a CSV text as events, one at a time ([`Trace`]) or eight to a chunk ([`Chunks`]).
//!
//! - [`fault`]: what is wrong with a source, and in which row.
//! - [`dialect`]: which operations a trace may have.
//! - `operation`, `dependency`, [`row`]: what one record says: an event, or its first fault
//!   from the left.
//! - [`column`]: the field of a row that has its fault, for who tells it.
//! - `counted`: a reader that may be kept to so many bytes and calls.
//! - [`feed`]: the rows of a source that may have any number of them, and ends of harts among them.
//! - [`trace`], [`chunks`]: the events of a source, and the same in chunks.
//! - [`number`], [`rows`]: parts of it that other tables of rows are read with, too: a field that
//!   is a number, and the records of a reader.
//! - [`laws`]: what is written from events is read as these.
//! - `specs/`: the grammar of a row by cases, and what the bytes of a source say as a whole: its
//!   events in order, and how it ends.
//!
//! It stands on `rv_event` and `rv_chunk`, and on the kit's `csv` and `thiserror`. Its one contract
//! to all others: what is given is what the grammar makes of the records of the source, in order,
//! up to its first fault.
#![tactic(auto)]

mod chunks;
mod column;
mod counted;
mod dependency;
mod dialect;
mod fault;
mod feed;
mod laws;
mod number;
mod operation;
mod row;
mod rows;
mod trace;

pub use chunks::Chunks;
pub use column::{Column, FaultyField, faulty_field};
pub use dialect::Dialect;
pub use fault::{FaultKind, TraceFault};
pub use feed::{Feed, FeedFault, FeedRow};
pub use laws::{texts_tell_events, written_traces_are_read};
pub use number::number_of;
pub use row::field_of;
pub use rows::Rows;
pub use trace::Trace;
