//! Instructions.

use crate::operation::Operation;

/// How many bits the integer registers have.
#[derive(Clone, Copy, PartialEq, Eq, Debug)]
pub enum Width {
    /// 32.
    Rv32,
    /// 64.
    Rv64,
}

/// An instruction. A compressed one is the one of 32 bits that it stands for. A field that the
/// operation does not have is 0 or false.
#[derive(Clone, Copy, PartialEq, Eq, Debug)]
pub struct Insn {
    /// What it does.
    pub operation: Operation,
    /// The number of the destination register, 0 to 31: of an `f` register where the operation
    /// writes one, else of an `x` register.
    pub rd: u8,
    /// The number of the first source register, 0 to 31.
    pub rs1: u8,
    /// The number of the second source register, 0 to 31.
    pub rs2: u8,
    /// The number of the third source register, 0 to 31.
    pub rs3: u8,
    /// The immediate, as it is used: an amount to add, an offset in bytes, an amount to shift by,
    /// or the value that LUI and AUIPC put into the upper bits.
    pub immediate: i32,
    /// The number of the CSR, 0 to 4,095.
    pub csr: u16,
    /// The rounding mode, 0 to 7; 7 is that of `frm`.
    pub rounding: u8,
    /// The `aq` bit.
    pub acquire: bool,
    /// The `rl` bit.
    pub release: bool,
    /// The predecessor set of a fence, 0 to 15: 8 for I, 4 for O, 2 for R, 1 for W.
    pub predecessors: u8,
    /// The successor set of a fence, as the predecessor set.
    pub successors: u8,
}
