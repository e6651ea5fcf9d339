//! The book: a log with a global memory order that is lawful for it, and exact answers to each
//! entry offered.
//!
//! A [`Book`] takes an entry exactly where some order is lawful for the log with it. It refuses one
//! that has a fault, or that leaves no lawful order, with a verdict whose evidence is the log
//! followed by the entry; a forbidden one has a certificate that begins with the refused event. A
//! refusal stops the book, and leaves log and order as they were.
//!
//! Inside, three layers: [`arrangement`] is a history whose memory operations are nodes of an order
//! keeper, so that every edge goes forward; [`book`] adds the entries and the faults, with what
//! [`tally`] counts of the log; [`closing`], [`evidence`] and [`nodes`] make certificates, their logs
//! and node lists, the latter by [`hints`] that are looked at before they are believed.
//!
//! It stands on `rv_event`, `rv_chunk`, `rv_cert`, `rv_cover`, `rv_edges` and `rv_rank`. Its one
//! contract to the others: the log is well formed, its order is lawful, and each answer is exact.
#![tactic(auto)]

mod arrangement;
mod book;
mod closing;
mod counts;
mod evidence;
mod hints;
mod laws;
mod nodes;
mod tally;

pub use book::{Book, ChunkOffer, Offer};
pub use laws::chunks_continue;
