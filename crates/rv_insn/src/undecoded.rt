//! Why bits are no instruction that is known.

/// Why bits were not decoded.
#[derive(Clone, Copy, PartialEq, Eq, Debug)]
pub enum Undecoded {
    /// No line of the tables fits.
    Unknown,
    /// The manual says that these bits are an illegal instruction.
    Illegal,
    /// The manual reserves them.
    Reserved,
    /// A vector instruction.
    Vector,
    /// A floating point instruction of half precision.
    HalfPrecision,
    /// A floating point instruction of quad precision.
    QuadPrecision,
    /// A cache block operation.
    CacheBlock,
    /// An opcode that is left to custom extensions.
    Custom,
    /// A load or store of the hypervisor extension.
    Hypervisor,
}
