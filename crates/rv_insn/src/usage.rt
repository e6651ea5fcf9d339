//! What an operation reads and writes.

/// How an operation uses a register that it reads.
#[derive(Clone, Copy, PartialEq, Eq, Debug)]
pub enum Operand {
    /// It has no such register.
    Unused,
    /// An `x` register.
    X,
    /// An `f` register.
    F,
    /// An `x` register, for the address of an access.
    AddressX,
    /// An `x` register, for the value that is stored.
    DataX,
    /// An `f` register, for the value that is stored.
    DataF,
}

/// Which register an operation writes.
#[derive(Clone, Copy, PartialEq, Eq, Debug)]
pub enum Target {
    /// None.
    Nowhere,
    /// An `x` register.
    ToX,
    /// An `f` register.
    ToF,
}

/// How an operation uses a CSR.
#[derive(Clone, Copy, PartialEq, Eq, Debug)]
pub enum CsrUse {
    /// It has none.
    NoCsr,
    /// It writes it, and reads it where its destination is not x0.
    Swap,
    /// It reads it, and sets or clears bits of it where its operand is not x0 or 0.
    Change,
}

/// Which of the accrued exception flags an operation may raise.
#[derive(Clone, Copy, PartialEq, Eq, Debug)]
pub struct Flags {
    /// Inexact.
    pub nx: bool,
    /// Underflow.
    pub uf: bool,
    /// Overflow.
    pub of: bool,
    /// Divide by zero.
    pub dz: bool,
    /// Invalid operation.
    pub nv: bool,
}

/// What an operation reads and writes.
#[derive(Clone, Copy, PartialEq, Eq, Debug)]
pub struct Usage {
    /// How it uses rs1.
    pub first: Operand,
    /// How it uses rs2.
    pub second: Operand,
    /// How it uses rs3.
    pub third: Operand,
    /// Where rd is.
    pub to: Target,
    /// Whether what it reads goes on to rd.
    pub carries: bool,
    /// Which flags it may raise.
    pub raises: Flags,
    /// How it uses its CSR.
    pub csr: CsrUse,
}
