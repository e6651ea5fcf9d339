//! What came of a trace ([`Outcome`]), and its report as text ([`report`], [`report_text`]) and as
//! JSON ([`report_json`] and [`report_json_line`]).
//!
//! - `outcome`: the three outcomes. A refusal is one of the checked structs of `rv_cert`, so no
//!   report can show a certificate that is none for its log, or a fault that its last entry does
//!   not have.
//! - `text`, `json_report`: the two reports. Each is made as a whole before its first byte is
//!   written.
//! - `writing`: the one loop that writes a report.
//! - `specs/`: both reports byte by byte, by cases over the outcome.
//!
//! It stands on `rv_event` for the texts of ids, reasons and faults, on `rv_cert` for refusals, and
//! on the kit's `serde_json`, `json` (in proofs alone) and `thiserror`. Its one contract to all
//! others: what is written is exactly the text of the outcome, after a failed write a part of it
//! from its first byte on, and out of memory nothing.
#![tactic(auto)]

mod fault;
mod json_report;
mod outcome;
mod text;
mod writing;

pub use fault::ReportFault;
pub use json_report::{report_json, report_json_line};
pub use outcome::Outcome;
pub use text::{certificate_text, report, report_text};
pub use writing::write_text;
