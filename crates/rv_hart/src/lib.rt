//! The events of one hart, and the links that its next event asks for by preserved program order.
//!
//! Preserved program order is what the manual's thirteen rules order of a hart's operations
//! (section 14.1, "Preserved Program Order"). A [`HartOrder`] lists for a hart's next event the
//! earlier events that a rule orders before it, each with the lowest such rule, and leaves out those
//! from which rules lead on to another listed one. It looks at no pair of events: sets of the hart's
//! events, one bit an event, are joined and subtracted 64 at a time. The events themselves stay in
//! the log, which the calls take: a hart keeps their places there.
//!
//! - [`hart`]: the type. Inside it [`kept`]: rows, sets and words together. [`own_events`]: a hart's
//!   events, read from the log. [`next`]: the hart's next event, of which the rest is asked.
//! - [`sets`]: rows of the events by what a rule asks of them (loads, acquires, what a fence
//!   orders); they grow with the events. [`words`]: each word's operations, linked from the last
//!   one back. [`kept_link`]: such a link in six bytes.
//! - [`rules`]: the table of rules, each with the [`parts`] of the hart that it orders before the
//!   next event. It gives the row of candidates, and the lowest rule of each that is left.
//!   [`walks`]: rules 1 and 2, which walk back over a word's operations. [`links`]: the candidates
//!   thinned, and the next event's links. [`linked`]: the next event's row, from the links into
//!   it. [`rows`]: small steps on rows.
//! - `specs/`: a hart and what may follow (`Harts`), its links (`RuleLinks`), what rows mean
//!   (`Rows`, `RuleRows`, `Linked`), the parts of the table (`Parts`), what the sets and the words
//!   mean (`Sets`, `Words`), what is kept (`Kept`, `Numbers`), and the places in the log
//!   (`Places`).
//! - `proofs/OfHart`, `proofs/Reservations`: rules, pairs, stale pairs, faults and reservations are
//!   the same among a hart's events as in the whole log.
//!
//! It stands on `rv_event`, on the rows of `rv_rows` and on the definitions of `rv_cover`. Its one
//! contract to the others: each link is a rule under its lowest number, and each event that a rule
//! orders before the new one is linked, or another event splits the rule. An event is then added by
//! its links, to which those of other reasons and of other harts may have been put.
#![tactic(auto)]

mod hart;
mod kept;
mod kept_link;
mod linked;
mod links;
mod next;
mod own_events;
mod parts;
mod rows;
mod rules;
mod sets;
mod walks;
mod words;

pub use hart::HartOrder;
pub use own_events::OwnEvents;
