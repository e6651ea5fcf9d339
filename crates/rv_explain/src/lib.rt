//! Refusals explained: which events a certificate speaks of, why each comes before the next, and
//! what is wrong with a malformed event.
//!
//! - [`witness`]: the third event on which the reason of an edge stands, such as a fence, and
//!   [`latest`] for the LR of a pair.
//! - [`step`]: the steps of a cycle, each with its events.
//! - [`row_texts`]: what is said of rows, such as instructions and addresses.
//! - [`shown`]: the events that are shown, with their rows, in a column for each hart.
//! - [`explanation`]: the explanation of a refusal as a value ([`explain`]).
//! - [`wording`], [`faulty`]: events, reasons and faults in words.
//! - [`layout`], [`cells`], [`telling`]: the columns as lines, and the whole as text
//!   ([`explanation_text`]).
//! - [`outcomes`]: what is told of an outcome behind its report ([`story`]).
//! - [`laws`]: that the reasons which speak of a third event have one.
//! - `specs/`: what an explanation shows, by the definitions that the rules are made of, and its
//!   text byte by byte.
//!
//! It stands on `rv_event` for the rules and the texts of ids, on `rv_rows` for sets of carriers,
//! on `rv_cert` for refusals, and on `rv_report` for outcomes. Its one contract to all others: what
//! is said of a refusal is of its certificate and its evidence.
#![tactic(auto)]

mod cells;
mod explanation;
mod faulty;
mod latest;
mod laws;
mod layout;
mod outcomes;
mod row_texts;
mod shown;
mod step;
mod telling;
mod witness;
mod wording;

pub use cells::{Described, Place};
pub use explanation::{Cause, Explanation, explain, refused_of};
pub use faulty::{Expected, Usual, Wrong, malformed_text};
pub use laws::reasons_stand_on_events;
pub use layout::widest;
pub use outcomes::{Sources, story};
pub use row_texts::RowTexts;
pub use shown::{Column, Shown};
pub use step::Step;
pub use telling::{explanation_text, headline, push_cause};
pub use witness::find_witness;
pub use wording::{Deed, StalePair};
