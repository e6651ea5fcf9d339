//! Pictures of refusals, as SVG: the events of an explanation in a column for each hart, and an
//! arrow for each step.
//!
//! - [`grid`]: where the boxes of a picture stand, and where the events of an explanation do.
//! - [`arrow`]: the arrows, as values, and the way that each takes.
//! - [`tile`]: the boxes.
//! - [`page`]: lines of text, and the frame of a picture.
//! - [`escape`]: texts within XML.
//! - [`drawing`]: the picture of an outcome ([`picture`]).
//! - `specs/`: the measures of a picture, and its bytes.
//!
//! It stands on `rv_explain` for explanations and their words, on `rv_cert` for refusals, and on
//! `rv_report` for outcomes. Its one contract to all others: a picture shows what the explanation
//! says.
#![tactic(auto)]

mod arrow;
mod drawing;
mod escape;
mod grid;
mod page;
mod tile;

pub use drawing::picture;
