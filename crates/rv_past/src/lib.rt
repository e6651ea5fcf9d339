//! What a run keeps of the events that it has forgotten: of each word the newest versions, and those
//! that loads returned before their stores came.
//!
//! A new event that comes before the past of a cut does so by versions (`rv_settle`). So these tell
//! it, in a few look-ups, without the events.
//!
//! - [`past`]: the summary, and whether an event comes before what was forgotten.
//! - [`edge`]: why it does.
//! - [`facts`]: what the faults of new events ask of it: sources, numbers that returned a value, and
//!   versions that were written.
//! - [`laws`]: it tells just what `rv_settle` says of a cut's past.
//! - `specs/`: what the summary says of the events (`Gone`), how an event comes before them
//!   (`Before`), what the facts say (`Facts`), the law (`Laws`).
//!
//! It stands on `rv_event` and `rv_settle`, and on `rv_rows` for sets of numbers.
#![tactic(auto)]

mod edge;
mod facts;
mod laws;
mod past;

pub use edge::PastEdge;
pub use facts::{Facts, Misfit};
pub use laws::versions_tell_the_past;
pub use past::{Newest, Past};
