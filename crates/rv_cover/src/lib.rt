//! Which edges of a new event need no link of their own.
//!
//! A log grows event by event, and each new event brings edges to the events before it: many, of
//! which most follow from others. An older event splits an edge where one half is an edge between
//! old events, and the other one of the same kind that is nearer to the new event. Links that carry
//! each edge of the new event, but for those that are split, cover every edge together with the
//! links kept before: wherever the log has an edge, a path of links leads.
//!
//! - `specs/`: paths of edges and what covers them (`Paths`), which edges may be left out
//!   (`Carries`), the law (`Laws`), and when the listed ones are the nearest (`Thinned`).
//! - `laws`: the law, as a function that does nothing.
//!
//! It stands on `rv_event`. Its one contract to the others: carried links cover.
#![tactic(auto)]

mod laws;

pub use laws::carried_links_cover;
