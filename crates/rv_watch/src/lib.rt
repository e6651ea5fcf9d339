//! A run of any length, watched: events are taken one after another, what may be forgotten is
//! forgotten in time, and where the run stops it is told why.
//!
//! - [`watch`]: the run with its counts, and when it forgets.
//! - [`stop`]: why an entry was not taken.
//! - [`recheck`]: the circle of an event that comes before what was forgotten.
//! - [`text`]: the report of a run; `naming`: how it names the events of a window.
//! - `specs/`: for which logs a watch stands, and what is true where it stops (`Watches`); the texts
//!   and names (`Texts`, `Names`); what a recheck tells (`Rechecks`).
//!
//! It stands on `rv_endless` for the judgement, and on `rv_report` for the text of certificates. Its
//! one contract: a watch stands for the log of the entries that it took, and it stops only where
//! that log says so, or where the entry can't be judged.
#![tactic(auto)]

mod naming;
mod recheck;
mod stop;
mod text;
mod watch;

pub use stop::Stop;
pub use text::{certificate_in_log, forbidden_text, refusal_text};
pub use watch::{CutRule, Watch};
