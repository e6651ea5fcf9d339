//! Immediates, each from where its bits lie.
ghost use Rattle.std.specs.Prelude.{◌≡◌, pos};
ghost use Rattle.rv_insn.specs.Fields.{imm_i, imm_s, imm_b, imm_u, imm_j, imm_ci, imm_stack};
ghost use Rattle.rv_insn.specs.Fields.{imm_ciw, imm_word, imm_double, imm_load_word};
ghost use Rattle.rv_insn.specs.Fields.{imm_load_double, imm_store_word, imm_store_double, imm_cb};
ghost use Rattle.rv_insn.specs.Fields.{imm_cj, imm_ci_signed};

use crate::fields::{field, signed};

/// Of loads, JALR and the operations with an immediate.
pub fn imm_i(bits: u32) -> i32
    ensures { result ≡ imm_i bits }
{
    let number = field(bits, 31, 20);
    signed(number, 0x800)
}

/// Of stores.
pub fn imm_s(bits: u32) -> i32
    ensures { result ≡ imm_s bits }
{
    let number = field(bits, 31, 25) * 0x20 + field(bits, 11, 7);
    signed(number, 0x800)
}

/// The offset of a branch.
pub fn imm_b(bits: u32) -> i32
    ensures { result ≡ imm_b bits }
{
    let number = field(bits, 31, 31) * 0x1000
        + field(bits, 7, 7) * 0x800
        + field(bits, 30, 25) * 0x20
        + field(bits, 11, 8) * 0x2;
    signed(number, 0x1000)
}

/// The upper 20 bits, of LUI and AUIPC.
pub fn imm_u(bits: u32) -> i32
    ensures { result ≡ imm_u bits }
{
    signed(field(bits, 31, 12), 0x8_0000) * 0x1000
}

/// The offset of JAL.
pub fn imm_j(bits: u32) -> i32
    ensures { result ≡ imm_j bits }
{
    let number = field(bits, 31, 31) * 0x100000
        + field(bits, 19, 12) * 0x1000
        + field(bits, 20, 20) * 0x800
        + field(bits, 30, 21) * 0x2;
    signed(number, 0x100000)
}

/// Six bits without a sign.
pub fn imm_ci(bits: u32) -> i32
    ensures { result ≡ pos (imm_ci bits) }
{
    (field(bits, 12, 12) * 0x20 + field(bits, 6, 2)) as i32
}

/// Of C.ADDI16SP.
pub fn imm_stack(bits: u32) -> i32
    ensures { result ≡ imm_stack bits }
{
    let number = field(bits, 12, 12) * 0x200
        + field(bits, 4, 3) * 0x80
        + field(bits, 5, 5) * 0x40
        + field(bits, 2, 2) * 0x20
        + field(bits, 6, 6) * 0x10;
    signed(number, 0x200)
}

/// Of C.ADDI4SPN.
pub fn imm_ciw(bits: u32) -> i32
    ensures { result ≡ pos (imm_ciw bits) }
{
    (field(bits, 10, 7) * 0x40
        + field(bits, 12, 11) * 0x10
        + field(bits, 5, 5) * 0x8
        + field(bits, 6, 6) * 0x4) as i32
}

/// The offset of a word from a register.
pub fn imm_word(bits: u32) -> i32
    ensures { result ≡ pos (imm_word bits) }
{
    (field(bits, 5, 5) * 0x40 + field(bits, 12, 10) * 0x8 + field(bits, 6, 6) * 0x4) as i32
}

/// The offset of a double word from a register.
pub fn imm_double(bits: u32) -> i32
    ensures { result ≡ pos (imm_double bits) }
{
    (field(bits, 6, 5) * 0x40 + field(bits, 12, 10) * 0x8) as i32
}

/// The offset of a word that is loaded from the stack.
pub fn imm_load_word(bits: u32) -> i32
    ensures { result ≡ pos (imm_load_word bits) }
{
    (field(bits, 3, 2) * 0x40 + field(bits, 12, 12) * 0x20 + field(bits, 6, 4) * 0x4) as i32
}

/// The offset of a double word that is loaded from the stack.
pub fn imm_load_double(bits: u32) -> i32
    ensures { result ≡ pos (imm_load_double bits) }
{
    (field(bits, 4, 2) * 0x40 + field(bits, 12, 12) * 0x20 + field(bits, 6, 5) * 0x8) as i32
}

/// The offset of a word that is stored to the stack.
pub fn imm_store_word(bits: u32) -> i32
    ensures { result ≡ pos (imm_store_word bits) }
{
    (field(bits, 8, 7) * 0x40 + field(bits, 12, 9) * 0x4) as i32
}

/// The offset of a double word that is stored to the stack.
pub fn imm_store_double(bits: u32) -> i32
    ensures { result ≡ pos (imm_store_double bits) }
{
    (field(bits, 9, 7) * 0x40 + field(bits, 12, 10) * 0x8) as i32
}

/// The offset of C.BEQZ and C.BNEZ.
pub fn imm_cb(bits: u32) -> i32
    ensures { result ≡ imm_cb bits }
{
    let number = field(bits, 12, 12) * 0x100
        + field(bits, 6, 5) * 0x40
        + field(bits, 2, 2) * 0x20
        + field(bits, 11, 10) * 0x8
        + field(bits, 4, 3) * 0x2;
    signed(number, 0x100)
}

/// The offset of C.J and C.JAL.
pub fn imm_cj(bits: u32) -> i32
    ensures { result ≡ imm_cj bits }
{
    let number = field(bits, 12, 12) * 0x800
        + field(bits, 8, 8) * 0x400
        + field(bits, 10, 9) * 0x100
        + field(bits, 6, 6) * 0x80
        + field(bits, 7, 7) * 0x40
        + field(bits, 2, 2) * 0x20
        + field(bits, 11, 11) * 0x10
        + field(bits, 5, 3) * 0x2;
    signed(number, 0x800)
}

/// Six bits with a sign.
pub fn imm_ci_signed(bits: u32) -> i32
    ensures { result ≡ imm_ci_signed bits }
{
    let number = field(bits, 12, 12) * 0x20 + field(bits, 6, 2);
    signed(number, 0x20)
}
