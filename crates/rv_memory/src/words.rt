//! The words of memory that accesses have.
ghost use Rattle.std.specs.Prelude.{◌≡◌, ◌<◌, [], IfOk, IfErr, OnErr, length};
ghost use Rattle.rv_memory.specs.Words.{IsAligned, IsFound, IsMet, IsNumbered, IsRefused, IsSize};

use std::alloc::{AllocError, Global};
use std::collections::HashMap;
use std::marker::Model;

/// How many words there may be.
const MOST: usize = 4_294_967_295;

/// The bytes of an access.
#[derive(Clone, Copy, PartialEq, Eq, Debug)]
pub struct Word {
    /// The address of the first.
    pub address: u64,
    /// How many there are: 1, 2, 4 or 8.
    pub size: u8,
}

/// Why an access has no word.
#[derive(Clone, Copy, PartialEq, Eq, Debug)]
pub enum WordFault {
    /// Its address is no multiple of its size.
    Misaligned,
    /// It shares bytes with this word, of which it is not just all.
    MixedSizes(Word),
    /// There are 4,294,967,295 words.
    Full,
    /// Memory ran out.
    NoMemory,
}

/// The words of a log's accesses, numbered as they first come.
///
/// Contracts see their list. No byte is in two of them.
#[derive(Drop)]
pub struct Words {
    all: Vec<Word>,
    places: HashMap<u64, u32>,
}

impl Model for Words {
    ghost use Rattle.std.specs.Prelude.{List, nat_eq};
    ghost use Rattle.std.specs.HashMap.{get};
    ghost use Rattle.rv_memory.specs.Words.{AreWords};
    ghost use Rattle.rv_memory.specs.declared.words.Word.{Word};

    ghost Value = { List Word };

    ghost view = { λ w. w.all.items };

    ghost invariant = { λ w. AreWords (get nat_eq w.places) w.all.items };
}

impl Words {
    ghost use Rattle.rv_memory.specs.Words.{IsAdded, IsApart};

    /// No words. It takes no memory; the allocator serves the calls to come.
    pub fn new(alloc: Global) -> Words
        ensures { result ≡ [] }
    {
        Words {
            all: Vec::new(alloc),
            places: HashMap::new(alloc),
        }
    }

    /// The number of the word that an access has: it is given the next one where it comes first.
    ///
    /// # Errors
    /// `Misaligned`, or `MixedSizes` with the word of the lowest address with which it shares
    /// bytes; `Full` and `NoMemory`. The words stay as they are.
    pub fn number(&mut self, word: Word) -> Result<u32, WordFault>
        requires size { IsSize word.size }
        ensures numbered { IfOk result (IsNumbered self.old word self.new) }
        ensures refused { IfErr result (IsRefused self.old word) }
        ensures unchanged { OnErr result (self.new ≡ self.old) }
    {
        if !word.address.is_multiple_of(word.size as u64) {
            return Err(WordFault::Misaligned);
        }
        if let Some(number) = self.number_of(word) {
            return Ok(number);
        }
        if let Some(other) = self.met_by(word) {
            return Err(WordFault::MixedSizes(other));
        }
        if self.all.len() >= MOST {
            return Err(WordFault::Full);
        }
        match self.push(word) {
            Ok(number) => Ok(number),
            Err(AllocError) => Err(WordFault::NoMemory),
        }
    }

    /// The number of a word that is there.
    fn number_of(&self, word: Word) -> Option<u32>
        ensures { IsFound self.now word result }
    {
        let number = *self.places.get(&word.address)?;
        (self.all[number as usize] == word).then_some(number)
    }

    /// The word of the lowest address that shares bytes with an aligned one. All that do begin in
    /// the eight bytes in which it lies.
    fn met_by(&self, word: Word) -> Option<Word>
        requires size { IsSize word.size }
        requires aligned { IsAligned word }
        ensures { IsMet self.now word result }
    {
        let within = word.address % 8;
        let block = word.address - within;
        'offsets: for offset in 0..8 {
            let Some(number) = self.places.get(&(block + offset)) else {
                continue;
            };
            let other = self.all[*number as usize];
            if offset < within + word.size as u64 && within < offset + other.size as u64 {
                return Some(other);
            }
        }
        None
    }

    /// Adds a word of bytes of its own.
    fn push(&mut self, word: Word) -> Result<u32, AllocError>
        requires few { length self.old < 4294967295 }
        requires size { IsSize word.size }
        requires aligned { IsAligned word }
        requires apart { IsApart self.old word }
        ensures added { IfOk result (IsAdded self.old word self.new) }
        ensures unchanged { OnErr result (self.new ≡ self.old) }
    {
        let number = self.all.len() as u32;
        self.all.reserve(1)?;
        self.places.insert(word.address, number)?;
        self.all.push_reserved(word);
        Ok(number)
    }
}
