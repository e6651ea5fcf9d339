//! A set of numbers below 4,096.
ghost use Rattle.std.specs.Prelude.{ℕ, not, ◌≡◌, ◌+◌, ◌/◌, ◌<◌, ◌≤◌, ◌==◌, ◌&&◌, ◌||◌, ◌↔◌, false, length, IsTrue};
ghost use Rattle.std.specs.Prelude.{slice_index_or};
ghost use Rattle.rv_rows.specs.Bits.{Has, has_bit, IsHighest};
ghost use Rattle.rv_rows.specs.Flat.{shifted};

use std::marker::Model;

/// A set of numbers below 4,096. It takes 528 bytes and no memory of the allocator.
///
/// Contracts see it as its words, and read it with `has_bit`. Its type keeps that the words before
/// the place `low` and those from `high` on are 0, so that a small set costs few steps.
#[derive(Drop)]
pub struct Row {
    words: [u64; 64],
    low: usize,
    high: usize,
}

impl Model for Row {
    ghost use Rattle.std.specs.Prelude.{List, ℕ};
    ghost use Rattle.rv_rows.specs.Bits.{IsBetween};

    ghost Value = { List ℕ };

    ghost view = { λ r. r.words };

    ghost invariant = { λ r. IsBetween r.words r.low r.high };
}

impl Row {
    /// The empty set.
    pub fn new() -> Row
        ensures { (i : ℕ) → has_bit result i ≡ false }
    {
        Row {
            words: [0; 64],
            low: 64,
            high: 0,
        }
    }

    /// Whether the set has the number.
    pub fn has(&self, i: usize) -> bool
        requires { i < 4096 }
        ensures { result ≡ has_bit self.now i }
    {
        (self.words[i / 64] >> (i % 64)) & 1 == 1
    }

    /// Puts the number in.
    pub fn insert(&mut self, i: usize)
        requires { i < 4096 }
        ensures { (j : ℕ) → has_bit self.new j ≡ (has_bit self.old j || (i == j)) }
    {
        self.words[i / 64] |= 1u64 << (i % 64);
        self.low = self.low.min(i / 64);
        self.high = self.high.max(i / 64 + 1);
    }

    /// Takes all numbers out. It costs a step for each word from the set's first number to its last.
    pub fn clear(&mut self)
        ensures { (j : ℕ) → has_bit self.new j ≡ false }
    {
        'words: for k in self.low..self.high {
            self.words[k] = 0;
        }
        self.low = 64;
        self.high = 0;
    }

    /// Makes the set the same as the other one. It costs a step for each word of the two, from the
    /// first number of each to its last.
    pub fn assign(&mut self, other: &Row)
        ensures { (j : ℕ) → has_bit self.new j ≡ has_bit other.now j }
    {
        self.clear();
        self.join(other);
    }

    /// Puts in all that the other set has. It costs a step for each word of the other set from its
    /// first number to its last.
    pub fn join(&mut self, other: &Row)
        ensures { (j : ℕ) → has_bit self.new j ≡ (has_bit self.old j || has_bit other.now j) }
    {
        let (first, words) = other.used();
        self.join_words(first, words);
    }

    /// Puts in the numbers that the words have, the first of which stands at the given place.
    pub(crate) fn join_words(&mut self, first: usize, words: &[u64])
        requires { first + length words.now ≤ 64 }
        ensures { (j : ℕ) → has_bit self.new j ≡ (has_bit self.old j || has_bit (shifted first words.now) j) }
    {
        if words.is_empty() {
            return;
        }
        'words: for k in 0..words.len() {
            self.words[first + k] |= words[k];
        }
        self.low = self.low.min(first);
        self.high = self.high.max(first + words.len());
    }

    /// Takes out the numbers that the words have, the first of which stands at the given place.
    pub(crate) fn subtract_words(&mut self, first: usize, words: &[u64])
        requires { first + length words.now ≤ 64 }
        ensures { (j : ℕ) → has_bit self.new j ≡ (has_bit self.old j && not (has_bit (shifted first words.now) j)) }
    {
        let from = first.max(self.low);
        let to = (first + words.len()).min(self.high);
        let mut left = 0;
        'words: for k in from..to {
            let rest = self.words[k] & !words[k - first];
            self.words[k] = rest;
            left |= rest;
        }
        let low = if left == 0 && first <= self.low {
            self.low.max(to)
        } else {
            self.low
        };
        self.low = low;
    }

    /// Takes out all that the other set has. It costs a step for each word that both use.
    pub fn subtract(&mut self, other: &Row)
        ensures { (j : ℕ) → has_bit self.new j ≡ (has_bit self.old j && not (has_bit other.now j)) }
    {
        let (first, words) = other.used();
        self.subtract_words(first, words);
    }

    /// Takes the number out.
    pub fn remove(&mut self, i: usize)
        requires { i < 4096 }
        ensures { (j : ℕ) → has_bit self.new j ≡ (has_bit self.old j && not (i == j)) }
    {
        let mut one = Row::new();
        one.insert(i);
        self.subtract(&one);
    }

    /// Whether the other set has all that the set has. It costs a step for each word of the two.
    pub fn is_within(&self, other: &Row) -> bool
        ensures { IsTrue result ↔ ((j : ℕ) → Has self.now j → Has other.now j) }
    {
        let mut left = Row::new();
        left.join(self);
        left.subtract(other);
        left.highest().is_none()
    }

    /// The highest number of the set, and `None` where it is empty.
    pub fn highest(&self) -> Option<usize>
        ensures { IsHighest self.now result }
    {
        self.highest_below(self.high * 64)
    }

    /// The words that have the set's numbers, and the place of the first of them.
    fn used(&self) -> (usize, &[u64])
        ensures within { result.0 + length result.1.now ≤ 64 }
        ensures same { (j : ℕ) → has_bit (shifted result.0 result.1.now) j ≡ has_bit self.now j }
    {
        self.used_from(0)
    }

    /// The words that have the set's numbers from the given word on, and the place of the first of
    /// them.
    pub(crate) fn used_from(&self, from: usize) -> (usize, &[u64])
        requires { from ≤ 64 }
        ensures behind { from ≤ result.0 }
        ensures within { result.0 + length result.1.now ≤ 64 }
        ensures same { (j : ℕ) → from ≤ j / 64 → has_bit (shifted result.0 result.1.now) j ≡ has_bit self.now j }
    {
        let first = self.low.max(from);
        if first >= self.high {
            return (from, &[]);
        }
        (first, &self.words[first..self.high])
    }

    /// How many words from the beginning on the set has in common with these.
    pub(crate) fn shared_with(&self, words: &[u64]) -> usize
        requires { length words.now ≤ 64 }
        ensures within { result ≤ length words.now }
        ensures same { (k : ℕ) → k < result → slice_index_or words.now k 0 ≡ slice_index_or self.now k 0 }
    {
        'words: for k in 0..words.len() {
            if words[k] != self.words[k] {
                return k;
            }
        }
        words.len()
    }

    /// The highest number of a set whose numbers are all below `limit`, and `None` where it is
    /// empty. The search begins at the limit.
    pub fn highest_below(&self, limit: usize) -> Option<usize>
        requires limit { limit ≤ 4096 }
        requires below { (j : ℕ) → Has self.now j → j < limit }
        ensures { IsHighest self.now result }
    {
        let top = limit.div_ceil(64).min(self.high);
        'words: for k in (self.low..top).rev() {
            let word = self.words[k];
            if word != 0 {
                return Some(k * 64 + (63 - word.leading_zeros() as usize));
            }
        }
        None
    }
}
