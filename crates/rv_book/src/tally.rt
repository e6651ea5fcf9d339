//! What is counted of a log as it grows: where each hart's entries come from, and how many each
//! source gave.
ghost use Rattle.std.specs.Prelude.{◌≡◌, ◌<◌, ◌==◌, ◌++◌, ◌∷◌, [], None, List, length, count_by, slice_index_or};
ghost use Rattle.rv_event.specs.Faults.{source_fault};
ghost use Rattle.rv_event.specs.declared.event.Entry.{Entry};
ghost use Rattle.rv_book.specs.Tallied.{IsTallied};

use rv_event::{Entry, Fault};

/// The source of each hart's entries, and the number of each source's entries. What these say of
/// which log is a clause of each function: it holds of the log whose entries were added, one after
/// another.
#[derive(Drop)]
pub struct Tally {
    sources: [Option<u8>; 16],
    counts: [u32; 256],
}

impl Tally {
    /// That of no entries.
    pub fn new() -> Tally
        ensures { IsTallied [] result.sources result.counts }
    {
        Tally {
            sources: [None; 16],
            counts: [0; 256],
        }
    }

    /// How many entries of the source were added.
    pub fn count_of_source(&self, source: u8) -> usize
        ensures { (log : List Entry) → IsTallied log self.now.sources self.now.counts →
            result ≡ count_by (λ x. source == x.source) log }
    {
        self.counts[source as usize] as usize
    }

    /// The source of the hart's entries, where one of the hart was added.
    fn source_of(&self, hart: u8) -> Option<u8>
        ensures { result ≡ slice_index_or self.now.sources hart None }
    {
        match self.sources.get(hart as usize) {
            Some(source) => *source,
            None => None,
        }
    }

    /// The fault `OtherSource`, where an entry of the same hart came from another source.
    #[inline(never)]
    pub fn source_fault(&self, entry: &Entry) -> Option<Fault>
        ensures { (log : List Entry) → IsTallied log self.now.sources self.now.counts →
            result ≡ source_fault log entry.now }
    {
        let source = self.source_of(entry.event.id.hart)?;
        if source == entry.source {
            None
        } else {
            Some(Fault::OtherSource)
        }
    }

    /// Adds an entry.
    pub fn add(&mut self, entry: &Entry)
        requires hart { entry.now.event.id.hart < 16 }
        ensures { (log : List Entry) → IsTallied log self.old.sources self.old.counts → length log < 65536 →
            source_fault log entry.now ≡ None →
            IsTallied (log ++ entry.now ∷ []) self.new.sources self.new.counts }
    {
        self.sources[entry.event.id.hart as usize] = Some(entry.source);
        self.counts[entry.source as usize] = self.counts[entry.source as usize].wrapping_add(1);
    }
}
