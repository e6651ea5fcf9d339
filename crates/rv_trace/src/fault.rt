//! What is wrong with a source.
ghost use Rattle.std.specs.Prelude.{◌≡◌};
ghost use Rattle.rv_trace.specs.Faults.{fault_number};

use thiserror::Error;

/// What is wrong with a row, with a source or with the reading of it.
#[derive(Clone, Copy, PartialEq, Eq, Debug, Error)]
pub enum FaultKind {
    /// There is no record at all, or the first one is not the header.
    #[error("the header is not hart,seq,op,word,read,wrote,ann,deps")]
    Header,
    /// The row does not have eight fields.
    #[error("the row does not have eight fields")]
    Fields,
    /// A field is not 1 to 10 digits, or its number is too large.
    #[error("a field is no number, or one that is too large")]
    Number,
    /// The operation is none of the nine.
    #[error("the operation is none of L, S, LR, SC, SF, AMO, F, FT and BR")]
    Op,
    /// A field that must be a number is blank.
    #[error("a field that the operation needs is missing")]
    Missing,
    /// A field that the operation does not have is not blank.
    #[error("a field that the operation does not have is not blank")]
    NotBlank,
    /// The annotation is none of those of the operation.
    #[error("the annotation is none of those that the operation may have")]
    Annotation,
    /// A dependency is no letter of the operation followed by a number of at most 1,073,741,823.
    #[error("a dependency is none of those that the operation may have")]
    Dependency,
    /// There are more than eight dependencies.
    #[error("there are more than eight dependencies")]
    TooManyDeps,
    /// There are more than 65,536 data rows.
    #[error("there are more than 65536 rows")]
    TooLong,
    /// The records could not be told apart. It never comes, since records of any length and of any
    /// bytes are taken.
    #[error("the records could not be told apart")]
    Csv,
    /// The reader failed, or the source is too long.
    #[error("the source could not be read, or is too long")]
    Read,
    /// There was no memory.
    #[error("there is not enough memory")]
    NoMemory,
}

impl FaultKind {
    /// The number by which reports name the kind: 1 to 13, in the order above.
    pub fn number(self) -> u8
        ensures { result ≡ fault_number self }
    {
        match self {
            FaultKind::Header => 1,
            FaultKind::Fields => 2,
            FaultKind::Number => 3,
            FaultKind::Op => 4,
            FaultKind::Missing => 5,
            FaultKind::NotBlank => 6,
            FaultKind::Annotation => 7,
            FaultKind::Dependency => 8,
            FaultKind::TooManyDeps => 9,
            FaultKind::TooLong => 10,
            FaultKind::Csv => 11,
            FaultKind::Read => 12,
            FaultKind::NoMemory => 13,
        }
    }
}

/// What is wrong, and where.
#[derive(Clone, Copy, PartialEq, Eq, Debug, Error)]
#[error("row {row}: {kind}")]
pub struct TraceFault {
    /// What is wrong.
    pub kind: FaultKind,
    /// The row that was being read: 0 for the header, and 1 for the first row of data.
    pub row: u32,
}
