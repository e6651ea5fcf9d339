//! What is wrong with a log.

use rv_memory::{StoreFault, Word};
use rv_values::Mismatch;

/// What is wrong with a log.
#[derive(Clone, Copy, PartialEq, Eq, Debug)]
pub enum LogFault {
    /// An access is to an address that is no multiple of its size.
    Misaligned(Word),
    /// An access shares bytes with another word, which is the second.
    MixedSizes(Word, Word),
    /// A store took effect that may not come next.
    Store(StoreFault),
    /// A store took effect whose instruction made none.
    NoSuchStore,
    /// The two records of a store differ.
    Differs(Mismatch),
    /// A store-conditional failed that took effect.
    Stored,
    /// The instruction retired before.
    RetiredTwice,
    /// The order of an instruction is not the number of its hart's so far, which is this.
    Order(u64),
    /// The hart has more than 4,096 rows.
    TooManyRows,
    /// Its hart is above 15.
    Hart,
    /// A log may not have more words or instructions.
    Full,
    /// Memory ran out.
    NoMemory,
}
