//! The state word of a slot: where its parts lie, and what is read of it and made of it; and how
//! many slots and seats there are.
//!
//! Bit s is the pin of seat s, for the seats from 0 to 31. Then come the flags claimed, full and
//! done, one bit each, and the generation in the bits above them. At the start all are 0.
ghost use Rattle.std.specs.Prelude.{◌≡◌, ◌<◌, ◌/◌, ◌%◌, ◌+◌, ◌*◌, ◌^◌, ◌==◌, ℕ};
ghost use Rattle.rv_slotcore.specs.Places.{seats_at_most, generation_bit, last_generation};
ghost use Rattle.rv_slotcore.specs.Machine.{is_free_word};

/// How many seats a state word has pins for.
pub const SEATS_AT_MOST: u8 = 32;

/// The number of the last of them.
pub const LAST_SEAT: u8 = SEATS_AT_MOST - 1;

/// How many slots a table has at least.
pub const SLOTS_AT_LEAST: usize = 2;

/// How many slots a table has at most.
pub const SLOTS_AT_MOST: usize = 16;

/// How many words a slot has: its state word, and its content.
pub const SLOT_WORDS: usize = 59;

/// The bit of the flag claimed.
pub const CLAIMED_BIT: u32 = 32;

/// The bit of the flag full.
pub const FULL_BIT: u32 = 33;

/// The bit of the flag done.
pub const DONE_BIT: u32 = 34;

/// The lowest bit of the generation.
pub const GENERATION_BIT: u32 = 35;

/// The flag claimed: a seat fills the slot, or has filled it.
pub const CLAIMED: u64 = 1 << CLAIMED_BIT;

/// The flag full: the slot's words are published.
pub const FULL: u64 = 1 << FULL_BIT;

/// The flag done: the slot's words are used up, and no seat may pin them anew.
pub const DONE: u64 = 1 << DONE_BIT;

/// The generation after which a slot isn't freed any more.
pub const LAST_GENERATION: u64 = 536_870_911;

/// The generation that a state word says.
pub fn generation(word: u64) -> u64
    ensures { result ≡ word / 2 ^ generation_bit }
{
    word >> GENERATION_BIT
}

/// Whether a state word says claimed, full and done, and has no pin.
pub fn is_free_word(seen: u64) -> bool
    ensures { result ≡ is_free_word seen }
{
    (seen % CLAIMED == 0 && (seen >> CLAIMED_BIT) % 2 == 1)
        && ((seen >> FULL_BIT) % 2 == 1 && (seen >> DONE_BIT) % 2 == 1)
}

/// Whether a state word's generation is the last.
pub fn is_last(word: u64) -> bool
    ensures { result ≡ (word / 2 ^ generation_bit == last_generation) }
{
    generation(word) == LAST_GENERATION
}

/// The state word of the next generation, all its lower bits clear. The generation isn't to be the
/// last.
pub fn next_word(word: u64) -> u64
    requires { word / 2 ^ generation_bit < last_generation }
    ensures { result ≡ (word / 2 ^ generation_bit + 1) * 2 ^ generation_bit }
{
    (generation(word) + 1) << GENERATION_BIT
}

/// The pin of a seat, which is to be one of 0 to 31.
pub fn pin_of(seat: u8) -> u64
    requires { seat < seats_at_most }
    ensures { result ≡ 2 ^ seat }
{
    1 << seat
}
