//! What an LR returned.

/// The word that an LR loaded, and the version that it returned.
///
/// It is handed in with the SC that is paired with the LR (Unprivileged ISA, section 14.1, "Memory
/// Model Primitives").
#[derive(Clone, Copy, PartialEq, Eq, Debug)]
pub struct Reservation {
    /// The number of the aligned word.
    pub word: u32,
    /// The version of the word; 0 is its initial value.
    pub version: u32,
}
