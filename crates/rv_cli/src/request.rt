//! What a command line asks for, and why one is refused.
ghost use Rattle.std.specs.Prelude.{◌≡◌};
ghost use Rattle.rv_cli.specs.Answers.{IsFaultOf};
ghost use Rattle.rv_cli.specs.declared.request.WordsFault.TheVariants as fault;

use clap::Error as ParseError;
use clap::error::ErrorKind;
use rv_event::MemoryModel;
use std::alloc::AllocError;
use thiserror::Error;

/// What a command line asks for.
#[derive(PartialEq, Eq, Debug, Drop)]
pub struct Asked {
    /// How many workers, 1 to 24.
    pub workers: u8,
    /// How many slots the chunks of the sources pass through, 2 to 16.
    pub slots: u8,
    /// The memory model that the events are judged by.
    pub model: MemoryModel,
    /// Whether the report is JSON.
    pub json: bool,
    /// Whether the sources may have carriers: rows `I`.
    pub carriers: bool,
    /// Whether a refusal is explained behind the report.
    pub explain: bool,
    /// Whether a picture is printed in place of the report.
    pub svg: bool,
    /// Whether all is counted behind the report that an allowed log has exercised.
    pub coverage: bool,
    /// Whether the run is to be complete: each source ends with an end record that counts its rows,
    /// and no load waits.
    pub complete: bool,
    /// Whether it is told how many older reads would be refused, where the sources are allowed.
    pub strength: bool,
    /// The name of a file that tells where rows come from, if one is named.
    pub where_file: Option<String>,
    /// The name of a file that lists traces, a line each, if one is named. There are then no files,
    /// and nothing is explained or drawn.
    pub list_file: Option<String>,
    /// The names of the sources' files in the order of the words, at most 8. Standard input is the
    /// source where there is none.
    pub files: Vec<String>,
}

/// Why a command line is refused.
#[derive(Debug, Drop, Error)]
pub enum WordsFault {
    /// The parser refused the words, or was asked for help. Its exit code is 2, and 0 for help.
    #[error("{0}")]
    Parse(ParseError),
    /// There was no memory.
    #[error("no memory")]
    NoMemory,
    /// There are more than 8 files.
    #[error("at most 8 sources")]
    TooMany,
    /// A list of traces is named beside a file, or beside what is told of one trace alone.
    #[error("--list stands beside no FILE, --explain, --svg or --where")]
    BesideList,
}

impl From<ParseError> for WordsFault {
    ghost from_gives = { IsFaultOf };

    fn from(error: ParseError) -> Self {
        if error.kind() == ErrorKind::OutOfMemory {
            return WordsFault::NoMemory;
        }
        WordsFault::Parse(error)
    }
}

impl From<AllocError> for WordsFault {
    ghost from_gives = { λ _ answer. answer ≡ fault.NoMemory };

    fn from(_error: AllocError) -> Self {
        WordsFault::NoMemory
    }
}
