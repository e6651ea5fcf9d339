//! Chunks: one to eight events as 58 words, the form in which events pass between threads.
//!
//! - [`chunk`]: a chunk, how events are packed into one, and how they are read back.
//! - [`codes`]: the fields of its words.
//! - [`pack_fault`]: why events go into no chunk.
//! - `specs/Chunks`: the words of events, and what is read of any words. `specs/Packing`: what a
//!   chunk carries, and when events are refused. `specs/ChunkTexts`: the law that words tell their
//!   content.
//!
//! It stands on `rv_event`. Its one contract to all others: a chunk's words are the chunk text of
//! its events. So who reads them has the events that were packed, and words that no events have are
//! never taken for a chunk.
#![tactic(auto)]

mod chunk;
mod codes;
mod pack_fault;

pub use chunk::{Chunk, chunk_texts_tell, pack, unpack};
pub use pack_fault::PackFault;
