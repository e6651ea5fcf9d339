//! Explanations as data: the JSON report of a refusal, with why it was refused.
//!
//! - `explained`: the explanation of a forbidden or a malformed log as a JSON value.
//! - `report`: the report with it ([`explained_json`], [`explained_json_line`]).
//! - `specs/`: the data, by cases over the outcome.
//!
//! It stands on `rv_explain` for explanations and their words, on `rv_report` for the report, and
//! on the kit's `serde_json`. Its one contract to all others: the report is that of `rv_report`,
//! with one member more where an event was refused.
#![tactic(auto)]

mod explained;
mod report;

pub use report::{explained_json, explained_json_line};
