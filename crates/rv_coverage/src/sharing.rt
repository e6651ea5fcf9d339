//! Pairs of memory operations of different harts on one word.
ghost use Rattle.std.specs.Prelude.{◌≡◌, ◌≤◌, ◌<◌, ◌++◌, ◌∷◌, [], IfOk, IsTrue, List, OnOk, count_by, length};
ghost use Rattle.rv_event.specs.Log.{events};
ghost use Rattle.rv_event.specs.Operations.{is_memory};
ghost use Rattle.rv_event.specs.declared.event.Event.{Event};
ghost use Rattle.rv_coverage.specs.Counts.{pairs_of, share_word};
ghost use Rattle.rv_coverage.specs.Shares.{AreMetByHart, AreMetOnWord, times_by, times_on};

use rv_event::{Entry, Event, NoMemory};
use std::alloc::Global;
use std::collections::HashMap;

/// How many memory operations each word had.
#[derive(Drop)]
pub struct WordCounts {
    /// The number of each word, where it is not 0.
    pub counts: HashMap<u32, u32>,
}

impl WordCounts {
    /// How many the word had.
    fn times(&self, word: u32) -> u32
        ensures { result ≡ times_on self.now word }
    {
        self.counts.get(&word).copied().unwrap_or(0)
    }

    /// Counts one of the word's.
    fn count(&mut self, event: &Event) -> Result<(), NoMemory>
        requires { IsTrue (is_memory event.now.op) }
        ensures { OnOk result ((log : List Event) → length log < 65536 → AreMetOnWord log self.old →
            AreMetOnWord (log ++ event.now ∷ []) self.new) }
    {
        let times = self.times(event.word);
        self.counts.insert(event.word, times.saturating_add(1))?;
        Ok(())
    }
}

/// How many memory operations each hart had on each word.
#[derive(Drop)]
pub struct HartCounts {
    /// The number of each word and hart, where it is not 0.
    pub counts: HashMap<(u32, u8), u32>,
}

impl HartCounts {
    /// How many the hart had on the word.
    fn times(&self, word: u32, hart: u8) -> u32
        ensures { result ≡ times_by self.now word hart }
    {
        self.counts.get(&(word, hart)).copied().unwrap_or(0)
    }

    /// Counts one of the hart's on the word.
    fn count(&mut self, event: &Event) -> Result<(), NoMemory>
        requires { IsTrue (is_memory event.now.op) }
        ensures { OnOk result ((log : List Event) → length log < 65536 → AreMetByHart log self.old →
            AreMetByHart (log ++ event.now ∷ []) self.new) }
    {
        let key = (event.word, event.id.hart);
        let times = self.times(event.word, event.id.hart);
        self.counts.insert(key, times.saturating_add(1))?;
        Ok(())
    }
}

/// How many events before this one, a memory operation, are memory operations of other harts on its
/// word.
fn count_others(words: &WordCounts, harts: &HartCounts, event: &Event) -> u32
    requires { IsTrue (is_memory event.now.op) }
    ensures { (log : List Event) → AreMetOnWord log words.now → AreMetByHart log harts.now →
        result ≡ count_by (λ x. share_word x event.now) log }
{
    let word = event.word;
    words
        .times(word)
        .saturating_sub(harts.times(word, event.id.hart))
}

/// How many pairs of the log's events are memory operations of different harts on one word. It
/// costs two look-ups for each memory operation, and memory for each word.
///
/// # Errors
/// `NoMemory` where the words could not be counted.
pub fn count_pairs(alloc: Global, log: &[Entry]) -> Result<usize, NoMemory>
    requires few { length log.now ≤ 65536 }
    ensures { IfOk result (λ pairs. pairs ≡ pairs_of (events log.now)) }
{
    let mut words = WordCounts {
        counts: HashMap::new(alloc),
    };
    let mut harts = HartCounts {
        counts: HashMap::new(alloc),
    };
    let mut pairs: usize = 0;
    'entries: for entry in log {
        let event = &entry.event;
        if event.op.is_memory() {
            pairs += count_others(&words, &harts, event) as usize;
            words.count(event)?;
            harts.count(event)?;
        }
    }
    Ok(pairs)
}
