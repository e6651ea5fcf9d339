//! What is wrong with a file of texts.
ghost use Rattle.std.specs.Prelude.{◌≡◌};
ghost use Rattle.rv_where.specs.declared.fault.LineFault.TheVariants as line;

use rv_event::NoMemory;
use std::alloc::AllocError;
use thiserror::Error;

/// What is wrong with a line, with the file or with the reading of it.
#[derive(Clone, Copy, PartialEq, Eq, Debug, Error)]
pub enum LineFault {
    /// There is no line at all, or the first one is not the header.
    #[error("the header is not source,row,text")]
    Header,
    /// The line does not have three fields.
    #[error("the line does not have three fields")]
    Fields,
    /// The source is no number from 0 to 7.
    #[error("the source is no number from 0 to 7")]
    Source,
    /// The row is no number.
    #[error("the row is no number, or one that is too large")]
    Row,
    /// The text is not UTF-8, or has a control character.
    #[error("the text is not UTF-8, or has a control character")]
    Text,
    /// There are more lines than rows that eight sources may have.
    #[error("there are more than 524288 lines")]
    TooLong,
    /// The reader failed, or the file is too long.
    #[error("it could not be read, or is too long")]
    Read,
    /// There was no memory.
    #[error("there is not enough memory")]
    NoMemory,
}

/// What is wrong, and where.
#[derive(Clone, Copy, PartialEq, Eq, Debug, Error)]
#[error("line {line}: {kind}")]
pub struct WhereFault {
    /// What is wrong.
    pub kind: LineFault,
    /// The line that was being read: 0 for the header, and 1 for the first line behind it.
    pub line: u32,
}

impl From<AllocError> for LineFault {
    ghost from_gives = { λ _ kind. kind ≡ line.NoMemory };

    fn from(_error: AllocError) -> Self {
        LineFault::NoMemory
    }
}

impl From<NoMemory> for LineFault {
    ghost from_gives = { λ _ kind. kind ≡ line.NoMemory };

    fn from(_error: NoMemory) -> Self {
        LineFault::NoMemory
    }
}
