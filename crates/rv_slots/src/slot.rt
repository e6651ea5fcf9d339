//! One slot, as whoever has the lock sees it.
ghost use Rattle.std.specs.Prelude.{◌≡◌, ◌<◌, ◌-◌, ◌+◌, ◌⊎◌, IsNone, IsSome, IfSome, Some, true, false};
ghost use Rattle.rv_slots.specs.Held.{HasChunk};
ghost use Rattle.rv_slots.specs.declared.carrier.Put.TheVariants as put;

use crate::carrier::Put;
use rv_chunk::Chunk;

/// A place for one chunk. It is full where it has one.
///
/// Its type keeps that a slot which counts readers is full, so that none is freed under a reader.
#[derive(Drop)]
pub(crate) struct Slot {
    chunk: Option<Chunk>,
    done: bool,
    readers: u8,
    ghost read_full: { 0 < readers → IsSome chunk },
}

/// A chunk of the same words. It takes no memory.
fn copy_of(chunk: &Chunk) -> Chunk
    ensures { HasChunk (Some result) chunk.now }
{
    Chunk::of_text(chunk.words())
}

impl Slot {
    ghost use Rattle.rv_slots.specs.SlotLists.{IsShut};

    /// A free slot.
    pub(crate) fn new() -> Slot
        ensures free { IsNone result.chunk }
        ensures readers { result.readers ≡ 0 }
    {
        Slot {
            chunk: None,
            done: false,
            readers: 0,
        }
    }

    /// Puts the chunk into the slot if it is free.
    pub(crate) fn put(&mut self, chunk: &Chunk) -> Put
        ensures placed { result ≡ put.Placed → IsNone self.old.chunk
            × HasChunk self.new.chunk chunk.now × (self.new.done ≡ false) }
        ensures busy { result ≡ put.Busy → IsSome self.old.chunk × (self.new ≡ self.old) }
    {
        if self.chunk.is_some() {
            return Put::Busy;
        }
        self.chunk = Some(copy_of(chunk));
        self.done = false;
        Put::Placed
    }

    /// The slot's chunk, if it is full and not done, for one reader more.
    pub(crate) fn read(&mut self) -> Option<Chunk>
        ensures chunk { IfSome result (HasChunk self.old.chunk) }
        ensures open { IsSome result → self.old.done ≡ false }
        ensures held { IsSome result → self.new.readers ≡ self.old.readers + 1 }
        ensures same { (self.new.chunk ≡ self.old.chunk) × (self.new.done ≡ self.old.done) }
        ensures nothing { IsNone result → self.new ≡ self.old }
        ensures shut { IsNone result → IsShut self.old }
    {
        if self.done {
            return None;
        }
        let readers = self.readers.checked_add(1)?;
        let copy = copy_of(self.chunk.as_ref()?);
        self.readers = readers;
        Some(copy)
    }

    /// Takes a reader off, and frees the slot where its chunk is done with and nobody reads it.
    pub(crate) fn finish(&mut self, applied: bool)
        ensures readers { self.new.readers ≡ self.old.readers - 1 }
        ensures freed { IsSome self.old.chunk → IsNone self.new.chunk
            → (self.new.readers ≡ 0) × ((applied ≡ true) ⊎ (self.old.done ≡ true)) }
        ensures kept { IsSome self.new.chunk → self.new.chunk ≡ self.old.chunk }
        ensures done { applied ≡ true → IsNone self.new.chunk ⊎ (self.new.done ≡ true) }
    {
        self.done = self.done || applied;
        self.readers = self.readers.saturating_sub(1);
        if self.done && self.readers == 0 {
            self.chunk = None;
        }
    }
}
