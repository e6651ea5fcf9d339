//! A list of traces: its lines, the files that a line names, and the line of JSON that a trace
//! comes to.
//!
//! - [`lines`]: the lines of a list ([`next_line`]).
//! - [`names`]: the files that a line names, or why it names none ([`names_in`]).
//! - [`line`]: the line of JSON of a trace that was judged ([`judged_line`]), and of one that was
//!   not ([`failed_line`]).
//! - `specs/`: the lines of a list, the names in a line, and what is written byte by byte.
//!
//! It stands on `rv_report` for how a text is written, and on the kit's `serde_json` and
//! `thiserror`. Its one contract to the others: the lines are those that `str::lines` gives, the
//! names are the parts of a line between tabs, and what is written is exactly the compact text of
//! an object.
#![tactic(auto)]

mod line;
mod lines;
mod names;

pub use line::{Failure, failed_line, judged_line};
pub use lines::next_line;
pub use names::{NamesFault, names_in};
