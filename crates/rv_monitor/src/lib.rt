//! A monitor for one caller: events are offered one by one in the caller's own thread, and what they
//! come to is asked for whenever it is wanted.
//!
//! - `monitor`: a book that keeps its refusal ([`Monitor`]), and its texts.
//! - `specs/`: what each answer tells, and what the events so far come to.
//!
//! It stands on `rv_event` and `rv_cert`, on `rv_book` for the judgement, on `rv_report` and
//! `rv_explain` for texts, and on the kit's `serde_json`. It takes no threads, no locks and no
//! files. Its one contract to the others: each answer is the book's, and each text is that of what
//! the events so far come to.
#![tactic(auto)]

mod monitor;

pub use monitor::{Answer, Monitor};
