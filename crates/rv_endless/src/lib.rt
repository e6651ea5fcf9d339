//! Runs of any length, judged by a window of their events and by what is known of those that were
//! forgotten.
//!
//! [`Endless`] stands for a log that is in no value. [`offer`](Endless::offer) answers for each such
//! log whether an entry has a fault over it, whether some order is lawful for the log with the entry,
//! or why it can't be judged ([`Answer`]). [`cut`](Endless::cut) forgets what no active hart can come
//! before any more, and [`end`](Endless::end) tells that a hart is active no more: the run goes on to
//! stand for the same log.
//!
//! - `run`: the run, and how an entry is judged.
//! - `answer`: what an offer came to.
//! - `forget`: what a cut forgets, and the book of what it keeps.
//! - `exclusives`: of each hart, the last LR, SC or failed SC that was forgotten.
//! - `window`: an entry as its window has it, and the LR with which an SC of the window is paired.
//! - `numbers`: faults of the window in the numbers of the log.
//! - `specs/`: for which logs a run stands, and what an answer tells of them (`Runs`, `Answers`); what
//!   the steps of a judgement tell (`Steps`); what a cut forgets (`Forgetting`); the last LR, SC or
//!   failed SC of a hart that was forgotten (`Exclusives`).
//!
//! It stands on `rv_book` for the window, on `rv_settle` for what may be forgotten, and on `rv_past`
//! for what is known of it. `rv_cut` finds what may be forgotten.
#![tactic(auto)]

mod answer;
mod exclusives;
mod forget;
mod numbers;
mod run;
mod window;

pub use answer::{Answer, Beyond};
pub use exclusives::Exclusive;
pub use run::Endless;
pub use window::{find_partner, renumber};
