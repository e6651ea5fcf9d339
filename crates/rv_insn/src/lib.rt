//! Instructions from their bits, and what each reads and writes: RV32 and RV64, with I, M, A, F, D,
//! Zicsr, Zifencei and C, and the privileged instructions that have no operands.
//!
//! [`decode`] answers an [`Insn`]: what the instruction does, its registers, its immediate and the
//! bits that order memory. A compressed instruction is the one of 32 bits that it stands for. What
//! is no such instruction is refused by the manual's word for it. [`sources`], [`destinations`] and
//! [`carries`] say what it reads and writes, and what goes on from where to where; [`is_branch`]
//! whether later instructions depend on it.
//!
//! - [`insn`], [`operation`], [`undecoded`]: the answer. [`mnemonics`]: the operations' names.
//! - [`line`]: the lines of a table of encodings, and which bits fit them. [`encodings`] and
//!   [`compressed`]: the two tables. [`decoding`]: the line that bits fit.
//! - [`format`]: how fields lie in the bits. [`fields`], [`immediates`]: numbers from bits.
//!   [`operands`]: what each format has in which field.
//! - [`usage`], [`listing`]: what each operation reads and writes. [`unit`]: the registers, and
//!   parts of CSRs, by which dependencies are tracked. [`roles`]: those of an instruction.
//! - [`laws`]: no bits fit two lines.
//! - `specs/`: the tables (`Encodings`, `Compressed`) with their lines (`Lines`), the fields
//!   (`Fields`, `Operands`), and what bits are by them (`Decoding`); the names (`Mnemonics`); the
//!   law (`Apart`); the register listing (`Listing`), units (`Units`), and what an instruction reads,
//!   writes and carries (`Roles`).
//!
//! It stands on std alone. Its one contract to the others: `decode` answers just what the tables of
//! `specs/` say, and the roles are just those of its listing. The manual is "The RISC-V Instruction
//! Set Manual, Volume I: Unprivileged ISA", version 20191213.
#![tactic(auto)]

mod compressed;
mod decoding;
mod encodings;
mod fields;
mod format;
mod immediates;
mod insn;
mod laws;
mod line;
mod listing;
mod mnemonics;
mod operands;
mod operation;
mod roles;
mod undecoded;
mod unit;
mod usage;

pub use decoding::decode;
pub use insn::{Insn, Width};
pub use laws::no_bits_fit_two_lines;
pub use listing::usage_of;
pub use mnemonics::mnemonic;
pub use operation::Operation;
pub use roles::{
    address_source, carried_to, carries, data_source, destinations, is_branch, sources,
};
pub use undecoded::Undecoded;
pub use unit::{Flag, Unit};
pub use usage::{CsrUse, Flags, Operand, Target, Usage};
