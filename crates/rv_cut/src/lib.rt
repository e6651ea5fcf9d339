//! Where a log may be cut: which of its events a monitor may forget.
//!
//! [`find_cut`] looks at a book and the harts that are still active. It answers a [`Cut`]: how many
//! events of each hart may be forgotten. What these harts do next can't come before them, and no
//! edge leads to them from what is kept.
//!
//! An operation may be forgotten where edges lead from it to operations of each active hart that
//! stand before all that the hart does later. So the operations of a hart that stand there are
//! marked first, and then whatever has an edge to a marked one.
//!
//! - `cut`: a cut, as a number for each hart.
//! - `marks`: of each event, to the bars of which harts edges lead.
//! - `bars`: the operations of a hart that stand before what it does later, its bars.
//! - `reach`: what edges lead to them.
//! - `exclusive`: the last LR, SC or failed SC of a hart.
//! - `closing`: cuts into which no edge leads, and that leave an LR behind only where its hart went on
//!   for long without an SC.
//! - `find`: the search for a cut.
//! - `specs/`: what a cut promises (`Cuts`), which LR, SC or failed SC of a hart is the last
//!   (`Exclusives`), what marks say (`Marked`).
//!
//! It stands on `rv_book` for the edges of a log and on `rv_settle` for what may be forgotten.
#![tactic(auto)]

mod bars;
mod closing;
mod cut;
mod exclusive;
mod find;
mod marks;
mod ordering;
mod reach;

pub use cut::Cut;
pub use exclusive::last_exclusive;
pub use find::find_cut;
