//! The values of memory: what the versions of words hold, as a commit log shows it.
//!
//! Two records tell of a store: that of its instruction, which retired, and that of its effect.
//! They come in either order.
//!
//! Its modules:
//!
//! - [`issues`]: the stores whose instructions retired.
//! - [`memory`]: these, and the stores that took effect; the two records of a store agree.
//! - [`held`]: the value that a version holds, and whether it is the one that was returned.
//! - [`index`]: the versions of a word that hold a value.
//! - `specs/`: when records agree; which value a version holds.
//!
//! It stands on `rv_log` and `rv_memory`.
#![tactic(auto)]

mod held;
mod index;
mod issues;
mod memory;

pub use held::{Fit, Held};
pub use index::{Found, Index};
pub use issues::{IssueFault, Issued, Issues};
pub use memory::{Memory, MemoryFault, Mismatch, low_bytes};
