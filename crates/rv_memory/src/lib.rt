//! Memory as a commit log shows it: the words that its accesses have, and the stores that took
//! effect in their order.
//!
//! Its modules:
//!
//! - [`words`]: the words, numbered as they first come.
//! - [`stores`]: the stores that took effect, and the versions of words from them.
//! - [`reads`]: the versions that loads returned.
//! - [`laws`]: a load returned one version.
//! - `specs/`: which bytes accesses have together; the order of stores; what a load returns.
//!
//! It stands on `rv_log`.
#![tactic(auto)]

mod laws;
mod reads;
mod stores;
mod words;

pub use laws::loads_return_one_version;
pub use reads::Load;
pub use stores::{Effect, StoreFault, Stores};
pub use words::{Word, WordFault, Words};
