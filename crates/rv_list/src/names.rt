//! The files that a line of a list names.
ghost use Rattle.std.specs.Prelude.{◌≡◌, IfErr, IfOk, map, string_bytes};
ghost use Rattle.rv_list.specs.Names.{AreNames, IsName, IsNameFault, IsNamesFault};
ghost use Rattle.rv_list.specs.declared.names.NamesFault.TheVariants as fault;

use std::alloc::{AllocError, Global};
use std::str;
use thiserror::Error;

/// How many files a trace has at most.
const MAX_FILES: usize = 8;

/// Why a line names no trace.
#[derive(Clone, Copy, PartialEq, Eq, Debug, Error)]
pub enum NamesFault {
    /// A name is not UTF-8.
    #[error("a name is not UTF-8")]
    NotText,
    /// There are more than 8 names.
    #[error("there are more than 8 names")]
    TooMany,
    /// A name has no bytes.
    #[error("a name is empty")]
    Empty,
    /// There was no memory.
    #[error("no memory")]
    NoMemory,
}

impl From<AllocError> for NamesFault {
    ghost from_gives = { λ _ answer. answer ≡ fault.NoMemory };

    fn from(_error: AllocError) -> Self {
        NamesFault::NoMemory
    }
}

/// One name of a line.
fn name_in(alloc: Global, part: &[u8]) -> Result<String, NamesFault>
    ensures name { IfOk result (λ name. (string_bytes name ≡ part.now) × IsName part.now) }
    ensures fault { IfErr result (IsNameFault part.now) }
{
    if part.is_empty() {
        return Err(NamesFault::Empty);
    }
    match str::from_utf8(part) {
        Ok(text) => Ok(String::from_str(alloc, text)?),
        Err(_) => Err(NamesFault::NotText),
    }
}

/// The names in a line of a list, without its line feed: its parts between tabs, at most 8.
///
/// # Errors
/// `Empty` or `NotText` where a part is no name, and `TooMany` where there are more than 8. A line
/// with several of these has one of them. `NoMemory` where a name could not be had.
pub fn names_in(alloc: Global, line: &[u8]) -> Result<Vec<String>, NamesFault>
    ensures names { IfOk result (λ names. AreNames line.now (map string_bytes names.items)) }
    ensures fault { IfErr result (IsNamesFault line.now) }
{
    let mut names = Vec::new(alloc);
    for part in line.split(|b| *b == b'\t') {
        if names.len() >= MAX_FILES {
            return Err(NamesFault::TooMany);
        }
        if names.push(name_in(alloc, part)?).is_err() {
            return Err(NamesFault::NoMemory);
        }
    }
    Ok(names)
}
