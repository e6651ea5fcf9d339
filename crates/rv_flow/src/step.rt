//! One instruction of a hart.
use rv_insn::Insn;

/// An instruction of a hart, in program order, and the number of the event that it made.
#[derive(Clone, Copy, PartialEq, Eq, Debug)]
pub struct Step {
    /// The instruction.
    pub insn: Insn,
    /// The number of the memory operation that it made and that returned a value, if it made one.
    pub event: Option<u32>,
}
