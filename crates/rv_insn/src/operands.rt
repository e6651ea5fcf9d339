//! What each format has in which field.
ghost use Rattle.std.specs.Prelude.{◌≡◌, ◌<◌};
ghost use Rattle.rv_insn.specs.Operands.{rd_of, rs1_of, rs2_of, rs3_of, immediate_of, insn_of};
ghost use Rattle.rv_insn.specs.Operands.{csr_of, rounding_of, is_annotated, set_of};

use crate::fields::{field, is_set, popular, register};
use crate::format::Format::{
    self, Atomic, B, Bare, Ca, CbBranch, CbImmediate, CbShift, Ci, CiDouble, CiLoad, CiShift,
    CiStack, CiUpper, CiWord, Ciw, Cj, CjLink, ClDouble, ClWord, CrAdd, CrJump, CrLink, CrMove,
    CsDouble, CsWord, Csr, CsrImmediate, CssDouble, CssWord, FenceSets, I, J, LoadReserved, R, R4,
    Rounded, RoundedUnary, S, Shift, U,
};
use crate::immediates::{
    imm_b, imm_cb, imm_ci, imm_ci_signed, imm_ciw, imm_cj, imm_double, imm_i, imm_j,
    imm_load_double, imm_load_word, imm_s, imm_stack, imm_store_double, imm_store_word, imm_u,
    imm_word,
};
use crate::insn::Insn;
use crate::operation::Operation;

/// The destination register; x0 where there is none.
fn rd_of(format: Format, bits: u32) -> u8
    ensures { result ≡ rd_of format bits }
{
    match format {
        S
        | B
        | FenceSets
        | Bare
        | CsWord
        | CsDouble
        | CssWord
        | CssDouble
        | CbBranch
        | Cj
        | CrJump => 0,
        CjLink | CrLink => 1,
        CiStack => 2,
        Ciw | ClWord | ClDouble => popular(bits, 2),
        CbShift | CbImmediate | Ca => popular(bits, 7),
        _ => register(bits, 7),
    }
}

/// The first source register; x0 where there is none.
fn rs1_of(format: Format, bits: u32) -> u8
    ensures { result ≡ rs1_of format bits }
{
    match format {
        U | J | CsrImmediate | FenceSets | Bare | CiLoad | CiUpper | Cj | CjLink | CrMove => 0,
        Ciw | CiStack | CiWord | CiDouble | CssWord | CssDouble => 2,
        ClWord | ClDouble | CsWord | CsDouble | CbShift | CbImmediate | CbBranch | Ca => popular(
            bits, 7,
        ),
        Ci | CiShift | CrJump | CrLink | CrAdd => register(bits, 7),
        _ => register(bits, 15),
    }
}

/// The second source register; x0 where there is none.
fn rs2_of(format: Format, bits: u32) -> u8
    ensures { result ≡ rs2_of format bits }
{
    match format {
        R | R4 | Rounded | S | B | Atomic => register(bits, 20),
        CsWord | CsDouble | Ca => popular(bits, 2),
        CrMove | CrAdd | CssWord | CssDouble => register(bits, 2),
        _ => 0,
    }
}

/// The third source register; x0 where there is none.
fn rs3_of(format: Format, bits: u32) -> u8
    ensures { result ≡ rs3_of format bits }
{
    match format {
        R4 => register(bits, 27),
        _ => 0,
    }
}

/// The immediate; 0 where there is none.
fn immediate_of(format: Format, bits: u32) -> i32
    ensures { result ≡ immediate_of format bits }
{
    match format {
        I => imm_i(bits),
        S => imm_s(bits),
        B => imm_b(bits),
        U => imm_u(bits),
        J => imm_j(bits),
        Shift => field(bits, 25, 20) as i32,
        CsrImmediate => field(bits, 19, 15) as i32,
        Ci | CiLoad | CbImmediate => imm_ci_signed(bits),
        CiUpper => imm_ci_signed(bits) * 0x1000,
        CiStack => imm_stack(bits),
        CiShift | CbShift => imm_ci(bits),
        Ciw => imm_ciw(bits),
        ClWord | CsWord => imm_word(bits),
        ClDouble | CsDouble => imm_double(bits),
        CiWord => imm_load_word(bits),
        CiDouble => imm_load_double(bits),
        CssWord => imm_store_word(bits),
        CssDouble => imm_store_double(bits),
        CbBranch => imm_cb(bits),
        Cj | CjLink => imm_cj(bits),
        _ => 0,
    }
}

/// The CSR; 0 where there is none.
fn csr_of(format: Format, bits: u32) -> u16
    ensures { result ≡ csr_of format bits }
{
    match format {
        Csr | CsrImmediate => field(bits, 31, 20) as u16,
        _ => 0,
    }
}

/// The rounding mode; 0 where there is none.
fn rounding_of(format: Format, bits: u32) -> u8
    ensures { result ≡ rounding_of format bits }
{
    match format {
        R4 | Rounded | RoundedUnary => field(bits, 14, 12) as u8,
        _ => 0,
    }
}

/// Whether the bit of this place, `aq` or `rl`, is set.
fn is_annotated(format: Format, bits: u32, place: u32) -> bool
    requires { place < 32 }
    ensures { result ≡ is_annotated format bits place }
{
    match format {
        LoadReserved | Atomic => is_set(bits, place),
        _ => false,
    }
}

/// The set of a fence whose four bits begin at this place; 0 where there is none.
fn set_of(format: Format, bits: u32, low: u32) -> u8
    requires { low < 28 }
    ensures { result ≡ set_of format bits low }
{
    match format {
        FenceSets => field(bits, low + 3, low) as u8,
        _ => 0,
    }
}

/// The instruction of this operation whose fields lie so in the bits.
pub(crate) fn insn_of(operation: Operation, format: Format, bits: u32) -> Insn
    ensures { result ≡ insn_of operation format bits }
{
    Insn {
        operation,
        rd: rd_of(format, bits),
        rs1: rs1_of(format, bits),
        rs2: rs2_of(format, bits),
        rs3: rs3_of(format, bits),
        immediate: immediate_of(format, bits),
        csr: csr_of(format, bits),
        rounding: rounding_of(format, bits),
        acquire: is_annotated(format, bits, 26),
        release: is_annotated(format, bits, 25),
        predecessors: set_of(format, bits, 24),
        successors: set_of(format, bits, 20),
    }
}
