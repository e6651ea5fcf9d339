//! How the fields of an instruction lie in its bits.

/// A format: which fields the bits have, and where. Those of 32 bits have the manual's names where
/// it has one, and so have those of 16 bits, with what their immediate is of.
#[derive(Clone, Copy, PartialEq, Eq, Debug)]
pub(crate) enum Format {
    /// Three registers.
    R,
    /// Four registers and a rounding mode.
    R4,
    /// Three registers and a rounding mode.
    Rounded,
    /// Two registers.
    Unary,
    /// Two registers and a rounding mode.
    RoundedUnary,
    /// Two registers and an immediate.
    I,
    /// Two registers and an amount to shift by.
    Shift,
    /// Two sources and an immediate, of stores.
    S,
    /// Two sources and an offset, of branches.
    B,
    /// A register and the upper 20 bits of an immediate.
    U,
    /// A register and the offset of a jump.
    J,
    /// Two registers and a CSR.
    Csr,
    /// A register, an immediate of five bits, and a CSR.
    CsrImmediate,
    /// Two registers, `aq` and `rl`.
    LoadReserved,
    /// Three registers, `aq` and `rl`.
    Atomic,
    /// The sets of a fence.
    FenceSets,
    /// No field.
    Bare,
    /// C.ADDI4SPN.
    Ciw,
    /// A load of a word.
    ClWord,
    /// A load of a double word.
    ClDouble,
    /// A store of a word.
    CsWord,
    /// A store of a double word.
    CsDouble,
    /// A register that is source and destination, and an immediate.
    Ci,
    /// C.LI.
    CiLoad,
    /// C.ADDI16SP.
    CiStack,
    /// C.LUI.
    CiUpper,
    /// C.SLLI.
    CiShift,
    /// A load of a word from the stack.
    CiWord,
    /// A load of a double word from the stack.
    CiDouble,
    /// C.J.
    Cj,
    /// C.JAL.
    CjLink,
    /// C.SRLI and C.SRAI.
    CbShift,
    /// C.ANDI.
    CbImmediate,
    /// C.BEQZ and C.BNEZ.
    CbBranch,
    /// Two registers, of which the first is also the destination.
    Ca,
    /// C.JR.
    CrJump,
    /// C.JALR.
    CrLink,
    /// C.MV.
    CrMove,
    /// C.ADD.
    CrAdd,
    /// A store of a word to the stack.
    CssWord,
    /// A store of a double word to the stack.
    CssDouble,
}
