//! What of the model a log has exercised, as text, and what is told beside a report, as JSON.
//!
//! - `text`: the lines of a coverage ([`coverage_text`]).
//! - `json_report`: the JSON report of an outcome with it, with what a run lacks that would be
//!   complete, and with how much its loads test ([`told_json`] and [`told_json_line`]).
//! - `specs/`: both byte by byte.
//!
//! It stands on `rv_coverage` and `rv_replay` for what was counted, on `rv_report` for reports, and
//! on the kit's `serde_json`. Its one contract to the others: what is written is exactly the text of the counts.
#![tactic(auto)]

mod json_report;
mod text;

pub use json_report::{told_json, told_json_line};
pub use text::{Extent, coverage_text};
