//! Rows, each only as long as what it has asks for.
ghost use Rattle.std.specs.Prelude.{ℕ, ◌≡◌, ◌<◌, ◌≤◌, ◌+◌, ◌++◌, ◌∷◌, ◌&&◌, ◌||◌, not, [], List, length};
ghost use Rattle.std.specs.Prelude.{slice_index_or, OnOk, OnErr};
ghost use Rattle.rv_rows.specs.Bits.{Has, has_bit};
ghost use Rattle.rv_rows.specs.Flat.{beginning_at, part_at, shifted, IsPushed};

use crate::row::Row;
use std::alloc::{AllocError, Global};
use std::marker::Model;

/// Where a row lies.
#[derive(Clone, Copy)]
pub struct Place {
    /// Where the first word that is kept of it stands among those of all rows.
    pub start: u32,
    /// How many of its words, from the beginning on, are those of the stem.
    pub shared: u8,
    /// The place in the row of the first word that is kept. Those between are 0.
    pub first: u8,
    /// How many words are kept.
    pub count: u8,
}

/// Rows that grow at their end. Row n has numbers up to n alone.
///
/// A row takes 8 bytes, and 8 for each word that is kept of it. Its words from the beginning on
/// that are also those of the stem are not kept, nor are the empty ones behind these or at its
/// end. The stem has a word for each 64 rows: which of them have their own number. So rows that
/// have all such numbers but some of the last take few words.
///
/// Contracts see the list of the rows, each as its words, and read it with `RowHas`.
#[derive(Drop)]
pub struct Rows {
    words: Vec<u64>,
    places: Vec<Place>,
    /// What rows may share. Its words stay when rows are taken off.
    stem: Vec<u64>,
    /// The next word of the stem: which of the last rows have their own number.
    block: u64,
}

impl Model for Rows {
    ghost use Rattle.std.specs.Prelude.{List, ℕ};
    ghost use Rattle.rv_rows.specs.Flat.{rows_of, AreLaid};

    ghost Value = { List (List ℕ) };

    ghost view = { λ r. rows_of r.stem.items r.words.items r.places.items };

    ghost invariant = { λ r. AreLaid r.stem.items r.words.items r.places.items };
}

impl Rows {
    /// No rows. It takes no memory; the allocator serves the calls to come.
    pub fn new(alloc: Global) -> Rows
        ensures { result ≡ [] }
    {
        Rows {
            words: Vec::new(alloc),
            places: Vec::new(alloc),
            stem: Vec::new(alloc),
            block: 0,
        }
    }

    /// How many rows there are, at most 4,096.
    pub fn len(&self) -> usize
        ensures { result ≡ length self.now }
    {
        self.places.len()
    }

    /// Adds a row with what the set has. It costs a step for each word of the stem that the row
    /// shares, and for each that is kept.
    ///
    /// # Errors
    /// `AllocError` where it could not be kept; the rows stay as they are.
    #[inline(always)]
    pub fn push(&mut self, row: &Row) -> Result<(), AllocError>
        requires few { length self.old < 4096 }
        requires below { (j : ℕ) → Has row.now j → j ≤ length self.old }
        ensures pushed { OnOk result (IsPushed self.old row.now self.new) }
        ensures unchanged { OnErr result (self.new ≡ self.old) }
    {
        let number = self.len();
        self.settle()?;
        let shared = row.shared_with(self.stem.as_slice());
        let (first, words) = row.used_from(shared);
        let place = Place {
            start: self.words.len() as u32,
            shared: shared as u8,
            first: first as u8,
            count: words.len() as u8,
        };
        self.places.reserve(1)?;
        self.words.extend_from_slice(words)?;
        self.block |= (row.has(number) as u64) << (number % 64);
        self.places.push_reserved(place);
        Ok(())
    }

    /// Adds a row that has nothing. It takes no words.
    ///
    /// # Errors
    /// `AllocError` where it could not be kept; the rows stay as they are.
    pub fn push_empty(&mut self) -> Result<(), AllocError>
        requires few { length self.old < 4096 }
        ensures pushed { OnOk result (self.new ≡ self.old ++ [] ∷ []) }
        ensures unchanged { OnErr result (self.new ≡ self.old) }
    {
        self.settle()?;
        self.places.reserve(1)?;
        let start = self.words.len() as u32;
        self.places.push_reserved(Place {
            start,
            shared: 0,
            first: 0,
            count: 0,
        });
        Ok(())
    }

    /// Adds the word of the last 64 rows to the stem, where these have come and it lacks it.
    ///
    /// # Errors
    /// `AllocError` where it could not be kept; the rows stay as they are.
    fn settle(&mut self) -> Result<(), AllocError>
        ensures { self.new ≡ self.old }
    {
        if self.stem.len() * 64 + 64 == self.places.len() {
            self.stem.push(self.block)?;
            self.block = 0;
        }
        Ok(())
    }

    /// Takes the last row off. It takes no memory.
    pub fn pop(&mut self)
        requires { 0 < length self.old }
        ensures { (front : List (List ℕ)) (last : List ℕ) → self.old ≡ front ++ last ∷ [] → self.new ≡ front }
    {
        if let Some(place) = self.places.pop() {
            self.words.truncate(place.start as usize);
        }
    }

    /// Whether the row has the number.
    pub fn has(&self, number: usize, i: usize) -> bool
        requires { number < length self.now }
        ensures { result ≡ has_bit (slice_index_or self.now number []) i }
    {
        let place = self.places[number];
        let words = words_at(self.words.as_slice(), place);
        has_bit(0, beginning_at(self.stem.as_slice(), place), i)
            || has_bit(place.first as usize, words, i)
    }

    /// Puts into the set what the row has.
    pub fn join_into(&self, number: usize, row: &mut Row)
        requires { number < length self.now }
        ensures { (j : ℕ) → has_bit row.new j ≡ (has_bit row.old j || has_bit (slice_index_or self.now number []) j) }
    {
        let place = self.places[number];
        row.join_words(0, beginning_at(self.stem.as_slice(), place));
        row.join_words(place.first as usize, words_at(self.words.as_slice(), place));
    }

    /// Takes out of the set what the row has.
    pub fn subtract_from(&self, number: usize, row: &mut Row)
        requires { number < length self.now }
        ensures { (j : ℕ) → has_bit row.new j ≡ (has_bit row.old j &&
            not (has_bit (slice_index_or self.now number []) j)) }
    {
        let place = self.places[number];
        row.subtract_words(0, beginning_at(self.stem.as_slice(), place));
        row.subtract_words(place.first as usize, words_at(self.words.as_slice(), place));
    }
}

/// Whether the words have the number, where the first of them stands at the given place.
fn has_bit(first: usize, words: &[u64], i: usize) -> bool
    requires { first ≤ 64 }
    ensures { result ≡ has_bit (shifted first words.now) i }
{
    if i / 64 < first {
        return false;
    }
    let k = i / 64 - first;
    if k >= words.len() {
        return false;
    }
    (words[k] >> (i % 64)) & 1 == 1
}

/// The words of the stem that the row at the place shares.
fn beginning_at(stem: &[u64], place: Place) -> &[u64]
    requires { place.shared ≤ length stem.now }
    ensures { result.now ≡ beginning_at stem.now place }
{
    &stem[..place.shared as usize]
}

/// The words that are kept of the row at the place.
fn words_at(words: &[u64], place: Place) -> &[u64]
    requires { place.start + place.count ≤ length words.now }
    ensures { result.now ≡ part_at words.now place }
{
    let start = place.start as usize;
    &words[start..start + place.count as usize]
}
