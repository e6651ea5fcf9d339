//! One verdict for all threads: a cell that is set at most once, and notes of what was seen in it.
//!
//! Each thread that works for a monitor may come upon a verdict. It raises it in the one
//! [`VerdictCell`] that all of them share: the first verdict stays for ever, and whoever comes
//! second gets its own one back. What a thread has learned of the cell stands in its
//! [`VerdictNote`], which takes no bytes when the program runs. A cell takes no lock and never
//! waits.
//!
//! It stands on `rv_cert`, whose [`Verdict`](rv_cert::Verdict) is what a cell holds, and on the
//! kit's `once_cell`. Its one contract to the others: two notes of one cell that know a verdict
//! know the same one, whichever threads made them.
#![tactic(auto)]

mod cell;
mod note;

pub use cell::{Raise, VerdictCell};
pub use note::VerdictNote;
