//! The words and the stores of a log's instructions.
ghost use Rattle.std.specs.Prelude.{◌≡◌, IfErr, IfOk, OnErr};
ghost use Rattle.rv_logrows.specs.Stored.{IsWordOf, IsWordRefused, word_by};

use crate::fault::LogFault;
use rv_log::Retired;
use rv_memory::{Word, WordFault, Words};

/// The bytes that an instruction accesses; none at its address where it accesses none.
pub(crate) fn word_by(instruction: &Retired) -> Word
    ensures { result ≡ word_by instruction.now }
{
    let address = instruction.address;
    match instruction.access {
        Some(access) => Word {
            address,
            size: access.size,
        },
        None => Word { address, size: 0 },
    }
}

/// The number of the word that an instruction accesses; 0 where it accesses none.
///
/// # Errors
/// `Misaligned`, `MixedSizes`, `Full` and `NoMemory`, as [`Words::number`] has them. The words stay
/// as they are.
pub(crate) fn word_of(words: &mut Words, instruction: &Retired) -> Result<u32, LogFault>
    ensures numbered { IfOk result (IsWordOf instruction.now words.old words.new) }
    ensures refused { IfErr result (IsWordRefused instruction.now words.old) }
    ensures unchanged { OnErr result (words.new ≡ words.old) }
{
    if instruction.access.is_none() {
        return Ok(0);
    }
    let word = word_by(instruction);
    if !matches!(word.size, 1 | 2 | 4 | 8) {
        return Err(LogFault::Misaligned(word));
    }
    match words.number(word) {
        Ok(number) => Ok(number),
        Err(WordFault::Misaligned) => Err(LogFault::Misaligned(word)),
        Err(WordFault::MixedSizes(other)) => Err(LogFault::MixedSizes(word, other)),
        Err(WordFault::Full) => Err(LogFault::Full),
        Err(WordFault::NoMemory) => Err(LogFault::NoMemory),
    }
}
