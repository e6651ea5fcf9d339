//! The edges of a new event by the versions of words: all but those by the rules of preserved
//! program order.
//!
//! A [`Versions`] is a log whose stores, loads and pairs of LR and SC are found by word and
//! version. So [`Versions::around`] looks at the neighbours of a new event alone, and not at each
//! event: the stores of the nearest versions, the loads and the SCs between these, and the writer
//! of what the event returned. It looks the event's word up once, and takes a step for each link
//! that it lists.
//!
//! - `reservation`: what an LR returned. The caller knows with which LR an SC is paired.
//! - `by_version`: accesses to one word, in the order of their versions.
//! - `accesses`: three such lists for one word: the stores, the loads, and the SCs under what their
//!   LRs returned, and what is found in them (`lookups`).
//! - `indexes`: the accesses to each word, in one map.
//! - `versions`: the log, and the links of a new event: for each reason, those to a word's accesses
//!   in an interval of versions (`around`, `links`); edges to itself (`own`).
//! - `specs/`: what is promised of the links (`VersionLinks`, with `Reserved`); which accesses are
//!   linked, reason by reason (`Linked`); when an event has an edge to itself (`Own`); what the
//!   indexes have (`Indexes`, with `Words`), and what is found in them (`Accesses`, `Lookups`).
//!
//! It stands on `rv_event` and on what `rv_cover` says of edges that may be left out. Its one
//! contract to the others: listed links are edges, each edge by versions is listed or another event
//! splits it, and links of coherence and from-read go to the nearest versions alone.
#![tactic(auto)]

mod accesses;
mod by_version;
mod indexes;
mod reservation;
mod versions;

pub use reservation::Reservation;
pub use versions::{VersionLinks, Versions};
