//! From bits to an instruction.
ghost use Rattle.std.specs.Prelude.{◌≡◌, ◌<◌, ◌^◌};
ghost use Rattle.rv_insn.specs.Compressed.{compressed};
ghost use Rattle.rv_insn.specs.Decoding.{by_table, decoded, meant};
ghost use Rattle.rv_insn.specs.Encodings.{encodings};

use crate::compressed::COMPRESSED;
use crate::encodings::ENCODINGS;
use crate::insn::{Insn, Width};
use crate::line::{Meaning, meaning_of};
use crate::operands::insn_of;
use crate::undecoded::Undecoded;

/// The instruction that the bits are, at this width of the integer registers.
///
/// Where the low two bits are 11 all 32 bits count, else the low 16 bits alone: they are a
/// compressed instruction, and the answer is the one of 32 bits that it stands for (manual, chapter
/// 24 and section 16.8).
///
/// # Errors
/// Why the bits are no instruction of I, M, A, F, D, Zicsr, Zifencei or C, nor a privileged one:
/// the manual's word where it has one, else `Unknown`.
pub fn decode(bits: u32, width: Width) -> Result<Insn, Undecoded>
    ensures { result ≡ decoded width bits }
{
    if bits % 4 == 3 {
        decode_long(bits, width)
    } else {
        decode_short(bits % 0x1_0000, width)
    }
}

/// By the table of 32 bits.
fn decode_long(bits: u32, width: Width) -> Result<Insn, Undecoded>
    ensures { result ≡ by_table encodings width bits }
{
    meant(meaning_of(&ENCODINGS, width, bits), bits)
}

/// By the table of 16 bits.
fn decode_short(bits: u32, width: Width) -> Result<Insn, Undecoded>
    ensures { result ≡ by_table compressed width bits }
{
    meant(meaning_of(&COMPRESSED, width, bits), bits)
}

/// What a line's meaning makes of the bits that fit it.
fn meant(meaning: Option<Meaning>, bits: u32) -> Result<Insn, Undecoded>
    ensures { result ≡ meant meaning bits }
{
    match meaning {
        Some(Meaning::Is(operation, format)) => Ok(insn_of(operation, format, bits)),
        Some(Meaning::Refused(why)) => Err(why),
        None => Err(Undecoded::Unknown),
    }
}
