//! A set of numbers that takes memory of the allocator.
ghost use Rattle.std.specs.Prelude.{ℕ, ◌≡◌, ◌<◌, ◌≤◌, ◌*◌, ◌||◌, ◌==◌, false, length, OnOk};
ghost use Rattle.rv_rows.specs.Bits.{has_bit, IsFirstFrom};

use std::alloc::{AllocError, Global};
use std::marker::Model;

/// A set of numbers, with a bit for each number that it has room for.
///
/// Contracts see it as its words, and read it with `has_bit`. Its type keeps that the words before
/// the place `low` and those from `high` on are 0, so that it is soon empty where its numbers are
/// near each other.
#[derive(Drop)]
pub struct BitSet {
    words: Vec<u64>,
    low: usize,
    high: usize,
}

impl Model for BitSet {
    ghost use Rattle.std.specs.Prelude.{List, ℕ};
    ghost use Rattle.rv_rows.specs.Bits.{IsUsed};

    ghost Value = { List ℕ };

    ghost view = { λ s. s.words.items };

    ghost invariant = { λ s. IsUsed s.words.items s.low s.high };
}

impl BitSet {
    /// The empty set, with no room. It takes no memory.
    pub fn new(alloc: Global) -> BitSet
        ensures { (i : ℕ) → has_bit result i ≡ false }
    {
        BitSet {
            words: Vec::new(alloc),
            low: usize::MAX,
            high: 0,
        }
    }

    /// Whether the set has the number. It has none that it has no room for.
    pub fn has(&self, i: usize) -> bool
        ensures { result ≡ has_bit self.now i }
    {
        match self.words.get(i / 64) {
            Some(word) => (*word >> (i % 64)) & 1 == 1,
            None => false,
        }
    }

    /// The lowest number of the set from this one on, and `None` where there is none. It costs a
    /// step for each word that it passes.
    pub fn first_from(&self, from: usize) -> Option<usize>
        ensures { IsFirstFrom self.now from result }
    {
        // Where most numbers are in the set, the answer is guessed, and nothing waits for it.
        if self.has(from) {
            return Some(from);
        }
        let first = from / 64;
        if first >= self.high {
            return None;
        }
        let rest = self.words[first] >> (from % 64);
        if rest != 0 {
            return Some(from + rest.trailing_zeros() as usize);
        }
        'words: for k in first + 1..self.high {
            let word = self.words[k];
            if word != 0 {
                return Some(k * 64 + word.trailing_zeros() as usize);
            }
        }
        None
    }

    /// Puts in a number that there is room for.
    pub fn insert(&mut self, i: usize)
        requires { i < 64 * length self.old }
        ensures inserted { (j : ℕ) → has_bit self.new j ≡ (has_bit self.old j || (i == j)) }
        ensures room { length self.new ≡ length self.old }
    {
        // Mostly neither end is written, so the next number need not wait for it.
        if i / 64 < self.low {
            self.low = i / 64;
        }
        if i / 64 >= self.high {
            self.high = i / 64 + 1;
        }
        self.words[i / 64] |= 1u64 << (i % 64);
    }

    /// Takes all numbers out. It costs a step for each word from the set's first number to its last.
    pub fn clear(&mut self)
        ensures empty { (j : ℕ) → has_bit self.new j ≡ false }
        ensures room { length self.new ≡ length self.old }
    {
        'words: for k in self.low..self.high {
            self.words[k] = 0;
        }
        self.low = usize::MAX;
        self.high = 0;
    }

    /// Makes room for the numbers below the limit, a bit for each. It loses no room and no number.
    ///
    /// # Errors
    /// `AllocError` where the memory was refused. The set is then as it was.
    pub fn reserve(&mut self, limit: usize) -> Result<(), AllocError>
        ensures same { (j : ℕ) → has_bit self.new j ≡ has_bit self.old j }
        ensures room { OnOk result (limit ≤ 64 * length self.new) }
        ensures kept { length self.old ≤ length self.new }
    {
        let words = limit.div_ceil(64);
        if self.words.len() < words {
            self.words.resize(words, 0)?;
        }
        Ok(())
    }
}
