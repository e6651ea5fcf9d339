//! Chunks: one to eight events in 58 words, the form in which events pass between threads.
//!
//! | Word | Bits | Holds |
//! |---|---|---|
//! | 0 | 0 to 31, 32 to 63 | the source, at most 7; the chunk's number |
//! | 1 | all | how many events there are |
//! | 2 + 7e | 0 to 7 | the hart of the event at place e |
//! | | 8 to 11 | 1 load, 2 store, 3 LR, 4 SC, 5 failed SC, 6 AMO, 7 FENCE, 8 FENCE.TSO, 9 branch |
//! | | 12 to 13, 14 to 15 | the sets before and behind a FENCE: 1 for `r`, 2 for `w`, 3 for `rw` |
//! | | 16, 17 | the acquire bit, the release bit |
//! | 3 + 7e | 0 to 31, 32 to 63 | its number in program order; its word |
//! | 4 + 7e | 0 to 31, 32 to 63 | the version read; the version written |
//! | 5 + 7e to 8 + 7e | 0 to 31, 32 to 63 | its dependencies, two to a word |
//!
//! A dependency has the number of the event depended on in its lower thirty bits, and above them 1
//! for the address, 2 for data, 3 for control. All other bits are 0. So words are a chunk text
//! exactly where reading them and writing them anew gives the same words.
ghost use Rattle.std.specs.Prelude.{◌≡◌, ◌↔◌, ℕ, ◌<◌, ◌≤◌, ◌+◌, ◌*◌, ◌^◌, ◌++◌, All, IfOk, IfSome, IfNone};
ghost use Rattle.std.specs.Prelude.{IsTrue, IsSome, length, take, drop, MatchOption, vec_len};
ghost use Rattle.rv_chunk.specs.Chunks.{chunk_text, is_chunk_text, IsPackable, IsTyped, IsChunkText};
ghost use Rattle.rv_chunk.specs.Chunks.{source_of, number_of, count_of, events_of, rewritten, event_words};
ghost use Rattle.rv_chunk.specs.Chunks.{bits};
ghost use Rattle.rv_chunk.specs.Packing.{Content, content_of, IsPacked};
ghost use Rattle.rv_chunk.specs.ChunkTexts.{TestTells, TextsDiffer};

use crate::codes::{event_words, high_half, low_half, read_event, rewritten_words, two};
use crate::pack_fault::PackFault;
use rv_event::{Event, NoMemory};
use std::alloc::Global;
use std::marker::Model;

/// A source, a number and 1 to 8 events, carried by 58 words.
///
/// Contracts see it as these three. Its type keeps that the words are their chunk text.
#[derive(Drop)]
pub struct Chunk {
    words: [u64; 58],
}

impl Model for Chunk {
    ghost Value = { Content };

    ghost view = { λ c. content_of c.words };

    ghost invariant = { λ c. IsTrue (is_chunk_text c.words) };
}

/// Whether an event has words: at most 8 dependencies, each on a number below 2^30.
fn is_packable(event: &Event) -> bool
    ensures { IsTrue result ↔ IsPackable event.now }
{
    let deps = event.deps.as_slice();
    deps.len() <= 8 && deps.iter().all(|d| d.seq < 0x4000_0000)
}

/// Whether each event has words.
fn are_packable(events: &[Event]) -> bool
    ensures { IsTrue result ↔ All IsPackable events.now }
{
    events.iter().all(|e| is_packable(e))
}

/// Writes block k.
fn write_block(words: &mut [u64; 58], k: usize, block: &[u64; 7])
    requires { k < 8 }
    ensures { words.new ≡ take (2 + 7 * k) words.old ++ block.now ++ drop (9 + 7 * k) words.old }
{
    words[2 + 7 * k..9 + 7 * k].copy_from_slice(block);
}

/// The chunk text of events.
fn text_of(events: &[Event], source: u8, number: u32) -> [u64; 58]
    requires few { length events.now ≤ 8 }
    requires packable { All IsPackable events.now }
    ensures words { result ≡ chunk_text source number events.now }
    ensures typed { All IsTyped events.now }
{
    let mut words = [0; 58];
    words[0] = two(u32::from(source), number);
    words[1] = events.len() as u64;
    for k in 0..events.len() {
        let block = event_words(&events[k]);
        write_block(&mut words, k, &block);
    }
    words
}

/// What the words say, written anew.
fn rewritten(words: &[u64; 58]) -> [u64; 58]
    requires { count_of words.now ≤ 8 }
    ensures { result ≡ rewritten words.now }
{
    let mut again = [0; 58];
    again[0] = two(low_half(words[0] % 8), high_half(words[0]));
    again[1] = words[1] % 16;
    for k in 0..(words[1] % 16) as usize {
        let block = rewritten_words(&words[2 + 7 * k..]);
        write_block(&mut again, k, &block);
    }
    again
}

/// Packs 1 to 8 events of a source, 0 to 7, as its chunk with this number. It takes no memory.
///
/// # Errors
/// The first of these that holds, exactly where it holds: `Empty` where there is no event;
/// `TooMany` where there are more than 8; `Range` where the source is above 7, an event has more
/// than 8 dependencies, or a dependency names a number of 2^30 or more.
pub fn pack(events: &[Event], source: u8, number: u32) -> Result<Chunk, PackFault>
    ensures { IsPacked events.now source number result }
{
    if events.is_empty() {
        return Err(PackFault::Empty);
    }
    if events.len() > 8 {
        return Err(PackFault::TooMany);
    }
    if source > 7 || !are_packable(events) {
        return Err(PackFault::Range);
    }
    Ok(Chunk {
        words: text_of(events, source, number),
    })
}

impl Chunk {
    /// The chunk of these words: some exactly where they are a chunk text. It takes no memory.
    pub fn of_words(words: &[u64; 58]) -> Option<Chunk>
        ensures some { IsSome result ↔ IsTrue (is_chunk_text words.now) }
        ensures same { IfSome result (λ c. words.now ≡ chunk_text c.source c.number c.events) }
    {
        let count = words[1] % 16;
        if count < 1 || count > 8 || rewritten(words) != *words {
            return None;
        }
        Some(Chunk { words: *words })
    }

    /// The chunk of words that are known to be a chunk text. It takes no memory, and no look at the
    /// words.
    pub fn of_text(words: &[u64; 58]) -> Chunk
        requires { IsTrue (is_chunk_text words.now) }
        ensures { words.now ≡ chunk_text result.source result.number result.events }
    {
        Chunk { words: *words }
    }

    /// The words: the chunk text of the chunk's source, number and events.
    pub fn words(&self) -> &[u64; 58]
        ensures words { result.now ≡ chunk_text self.now.source self.now.number self.now.events }
        ensures is_text { IsTrue (is_chunk_text result.now) }
    {
        &self.words
    }

    /// The number of the source, 0 to 7.
    pub fn source(&self) -> u8
        ensures { result ≡ self.now.source }
    {
        (self.words[0] % 8) as u8
    }

    /// The chunk's number among those of its source, from 0.
    pub fn number(&self) -> u32
        ensures { result ≡ self.now.number }
    {
        high_half(self.words[0])
    }

    /// How many events it carries, 1 to 8.
    pub fn count(&self) -> usize
        ensures events { result ≡ length self.now.events }
        ensures few { (1 ≤ result) × (result ≤ 8) }
    {
        (self.words[1] % 16) as usize
    }
}

/// The events of a chunk, in order.
///
/// # Errors
/// `NoMemory` where the list or an event's dependencies could not be had.
pub fn unpack(alloc: Global, chunk: &Chunk) -> Result<Vec<Event>, NoMemory>
    ensures { IfOk result (λ v. v.items ≡ chunk.now.events) }
{
    let mut events = Vec::new(alloc);
    for k in 0..chunk.count() {
        let event = read_event(alloc, &chunk.words[2 + 7 * k..])?;
        events.push(event)?;
    }
    Ok(events)
}

/// The law of chunk texts: the test of words holds of the chunk texts and of nothing else, and no
/// two contents have the same text. The function does nothing.
pub fn chunk_texts_tell()
    ensures test { TestTells }
    ensures differ { TextsDiffer }
{}
