//! The units of registers by which dependencies are tracked.
ghost use Rattle.std.specs.Prelude.{◌≡◌};
ghost use Rattle.rv_insn.specs.Units.{flag_of, is_other_csr, is_within, names, names_flags};
ghost use Rattle.rv_insn.specs.Units.{names_frm};
ghost use Rattle.rv_insn.specs.Units.{takes_part};

use crate::usage::Flags;

/// One of the accrued exception flags.
#[derive(Clone, Copy, PartialEq, Eq, Debug)]
pub enum Flag {
    /// Inexact.
    Nx,
    /// Underflow.
    Uf,
    /// Overflow.
    Of,
    /// Divide by zero.
    Dz,
    /// Invalid operation.
    Nv,
}

/// What dependencies are tracked by: a register, or a part of one (manual, section 14.1, "Syntactic
/// Dependencies").
#[derive(Clone, Copy, PartialEq, Eq, Debug)]
pub enum Unit {
    /// An `x` register, 1 to 31.
    X(u8),
    /// An `f` register, 0 to 31.
    F(u8),
    /// One of the five flags of `fflags`.
    Accrued(Flag),
    /// The rounding mode `frm`.
    Frm,
    /// Any other CSR, by its number.
    Csr(u16),
}

/// Whether the flag is one of these.
pub(crate) fn flag_of(flags: Flags, flag: Flag) -> bool
    ensures { result ≡ flag_of flags flag }
{
    match flag {
        Flag::Nx => flags.nx,
        Flag::Uf => flags.uf,
        Flag::Of => flags.of,
        Flag::Dz => flags.dz,
        Flag::Nv => flags.nv,
    }
}

/// Whether the CSR has the flags: `fflags` and `fcsr`.
pub(crate) fn names_flags(csr: u16) -> bool
    ensures { result ≡ names_flags csr }
{
    csr == 1 || csr == 3
}

/// Whether the CSR has the rounding mode: `frm` and `fcsr`.
pub(crate) fn names_frm(csr: u16) -> bool
    ensures { result ≡ names_frm csr }
{
    csr == 2 || csr == 3
}

/// Whether the number is in the range.
fn is_within(csr: u16, low: u16, high: u16) -> bool
    ensures { result ≡ is_within csr low high }
{
    low <= csr && csr <= high
}

/// Whether what is written to the CSR is what is read from it next: not of one that can only be
/// read, nor of one that hardware writes by itself, as status, cause and counters.
fn takes_part(csr: u16) -> bool
    ensures { result ≡ takes_part csr }
{
    !(csr / 0x400 == 3
        || is_within(csr, 0x100, 0x100)
        || is_within(csr, 0x200, 0x200)
        || is_within(csr, 0x300, 0x300)
        || is_within(csr, 0x310, 0x310)
        || is_within(csr, 0x015, 0x015)
        || is_within(csr, 0x141, 0x144)
        || is_within(csr, 0x241, 0x244)
        || is_within(csr, 0x341, 0x344)
        || is_within(csr, 0x34a, 0x34b)
        || is_within(csr, 0x643, 0x644)
        || is_within(csr, 0x7a0, 0x7b3)
        || is_within(csr, 0xb00, 0xb1f)
        || is_within(csr, 0xb80, 0xb9f))
}

/// Whether the CSR is tracked as a whole.
pub(crate) fn is_other_csr(csr: u16) -> bool
    ensures { result ≡ is_other_csr csr }
{
    !names_flags(csr) && !names_frm(csr) && takes_part(csr)
}

/// Whether the CSR has the unit.
pub(crate) fn names(csr: u16, unit: Unit) -> bool
    ensures { result ≡ names csr unit }
{
    match unit {
        Unit::X(_) | Unit::F(_) => false,
        Unit::Accrued(_) => names_flags(csr),
        Unit::Frm => names_frm(csr),
        Unit::Csr(number) => is_other_csr(csr) && number == csr,
    }
}
