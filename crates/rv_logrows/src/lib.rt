//! The rows of a commit log, record by record.
//!
//! Its modules:
//!
//! - [`fault`]: what is wrong with a log.
//! - [`stored`]: the words that instructions access.
//! - [`harts`]: the sixteen harts, each at the place of its number.
//! - [`log`]: what the records tell so far, and the rows that are known.
//! - [`laws`]: the rows of all harts are those of their instructions.
//! - `specs/`: what a record changes, and why it is refused.
//!
//! It stands on `rv_event`, `rv_flow`, `rv_log`, `rv_memory`, `rv_values` and `rv_commits`.
#![tactic(auto)]

mod fault;
mod harts;
mod laws;
mod log;
mod stored;

pub use fault::LogFault;
pub use harts::Harts;
pub use laws::harts_are_whole;
pub use log::{LogRows, StoreId};
