//! A history of events, and the edges that a new event would have.
//!
//! A [`History`] is a list of events, each kept with links to the events before it.
//! [`History::around`] finds the links of a new event; [`History::push`] adds the event with them,
//! [`History::pop`] takes the last one off. [`History::known`] looks up once what both ask of the
//! event, for [`History::around_in`] and [`History::push_known`]. Listed and kept links carry every edge: wherever the
//! log has an edge between two events, a path of links leads from the one to the other. So an order
//! that respects the links respects all edges.
//!
//! Few links are listed: each hart keeps closed rows of what rules lead to its events (`rv_hart`),
//! and the stores, loads and pairs of each word stand in the order of their versions
//! (`rv_versions`). So links go only to the nearest events, and the others follow (`rv_cover`): an
//! edge need not be listed where an older event splits it. The reference implementation that
//! decides each edge is `rv_event`'s.
//!
//! - `history`: the history, its links and what it keeps of harts and versions.
//! - `links`: lists of links. `packed_link`: a link in 6 bytes.
//! - `ties`: links with both of their ends.
//! - `specs/`: events with their links (`Kept`), what links promise (`Histories`), links as pairs of
//!   ids (`Ties`), what is kept of harts (`Indexes`).
//!
//! It stands on `rv_event`, `rv_cover`, `rv_hart` and `rv_versions`. Its one contract to the
//! others: listed links are edges, and listed and kept links carry every edge.
#![tactic(auto)]

mod history;
mod links;
mod packed_link;
mod ties;

pub use history::{Around, History, Known, Room};
pub use links::Links;
pub use ties::Tie;
