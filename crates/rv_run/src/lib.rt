//! Runs: what whole sources come to.
//!
//! [`run`] judges sources while they are read: a thread for each source puts its events into slots,
//! in chunks, and workers offer the chunks to one book under a lock; the first verdict stops all.
//! Beside it stands [`replay`], the pass over a list in one thread.
//!
//! - [`gate`], `desk`: the book under its lock, and how far each source is.
//! - [`feeding`]: one source's thread. [`serving`]: one worker's thread.
//! - [`driving`]: a thread for each, over any carrier and any gate. `step`: a carrier and a gate by
//!   which no source runs far ahead of the others, and threads are woken that rest; `waiting`: how
//!   they come to rest.
//! - `in_turn`: the same in one thread, for sources that never have to be waited for; `ahead`: such
//!   a source, whose next event may wait for another source's store.
//! - [`running`]: a run's parts, and its settings; `judging`, `comparing`: what the threads'
//!   answers come to; [`missing`]: what a run lacks that would be complete.
//! - [`fault`]: why a run has no outcome; [`laws`]: that outcomes agree.
//! - `specs/`: what each thread tells of its source, and an outcome of all.
//!
//! It stands on `rv_event`, `rv_chunk` and `rv_cert`, on `rv_trace` for sources, on `rv_slots`,
//! `rv_book` and `rv_verdict` for the threads' shared parts, on `rv_coverage` for what sources have
//! exercised, on `rv_replay` for how much their loads test, on `rv_pipe` for the bell by which
//! readers are told that a run is over, on `rv_report` for outcomes, and on the kit's `thiserror`.
//! Its one contract to the others: an outcome is true of the sources' bytes where they are known.
#![tactic(auto)]

mod ahead;
mod comparing;
mod desk;
mod driving;
mod fault;
mod feeding;
mod gate;
mod in_turn;
mod judging;
mod laws;
mod missing;
mod running;
mod serving;
mod step;
mod waiting;

pub use driving::{Driven, drive};
pub use fault::RunFault;
pub use feeding::{Fed, FeedEnd, feed};
pub use gate::{Awaited, BookGate, Gate};
pub use judging::Judged;
pub use laws::outcomes_agree;
pub use missing::Missing;
pub use running::{Reading, Settings, run, run_over, run_reading, run_with_bell};
pub use rv_replay::{allowed_where_consistent, replay};
pub use rv_report::Outcome;
pub use serving::{ServeEnd, Served, serve};
pub use step::InStep;
