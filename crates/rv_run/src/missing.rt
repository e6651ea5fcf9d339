//! What a run lacks that would be complete.
ghost use Rattle.std.specs.Prelude.{◌≡◌, ◌≤◌, ◌<◌, ℕ, IfOk, Some, length, slice_index_or};
ghost use Rattle.rv_run.specs.Comparisons.{AreCountedFed, AreEndsLacking, IsEndLacking, IsFedLacking};
ghost use Rattle.rv_run.specs.Comparisons.{IsLacking, IsLogLacking};
ghost use Rattle.rv_run.specs.Completeness.{missing_text};

use crate::feeding::Fed;
use rv_book::Book;
use rv_coverage::{Wait, first_waits};
use rv_event::NoMemory;
use std::alloc::Global;
use std::fmt;

/// What a run lacks that would be complete.
///
/// A run is complete where each source ends with an end record that counts its rows, there is at
/// least one event, and no load waits.
#[derive(Clone, Copy, PartialEq, Eq, Debug)]
pub enum Missing {
    /// The source of this number has no end record.
    EndRecord(u8),
    /// The source has so many rows, and its end record says another number.
    Rows {
        /// The source's number.
        source: u8,
        /// How many rows it has.
        rows: usize,
        /// How many its end record says.
        said: u32,
    },
    /// There is no event.
    Events,
    /// No store has written the version that this load returned.
    Store(Wait),
}

impl fmt::Display for Missing {
    ghost output = { λ m. Some (missing_text m) };

    fn fmt<W: fmt::Write>(&self, f: &mut fmt::Formatter<W>) -> fmt::Result {
        match self {
            Missing::EndRecord(source) => write!(f, "source {source} has no end record"),
            Missing::Rows { source, rows, said } => {
                write!(f, "source {source} ends after {rows} rows, and says {said}")
            }
            Missing::Events => write!(f, "no events"),
            Missing::Store(wait) => write!(f, "{wait}"),
        }
    }
}

/// What the end record of a source lacks that has so many rows, and whose end record, if it has one,
/// says so many.
pub(crate) fn end_lacking(source: u8, rows: usize, said: Option<u32>) -> Option<Missing>
    ensures { IsEndLacking source rows said result }
{
    match said {
        None => Some(Missing::EndRecord(source)),
        Some(said) => {
            if said as usize == rows {
                None
            } else {
                Some(Missing::Rows { source, rows, said })
            }
        }
    }
}

/// The same of a source that a feeder has read.
fn fed_lacking(source: u8, fed: &Fed) -> Option<Missing>
    ensures { IsFedLacking source fed.now result }
{
    end_lacking(source, fed.events().len(), fed.said)
}

/// What the end records lack: that of the lowest source that lacks something.
fn ends_lacking(fed: &[Fed]) -> Option<Missing>
    requires { length fed.now ≤ 8 }
    ensures { AreEndsLacking fed.now result }
{
    for i in 0..fed.len() {
        let lacking = fed_lacking(i as u8, &fed[i]);
        if lacking.is_some() {
            return lacking;
        }
    }
    None
}

/// What the log of a whole run lacks.
pub(crate) fn log_lacking(alloc: Global, book: &Book) -> Result<Option<Missing>, NoMemory>
    ensures { IfOk result (IsLogLacking book.now.log) }
{
    if book.accepted() == 0 {
        return Ok(Some(Missing::Events));
    }
    if book.waiting() == 0 {
        return Ok(None);
    }
    match first_waits(alloc, book)?.first() {
        Some(wait) => Ok(Some(Missing::Store(*wait))),
        None => Ok(None),
    }
}

/// What a whole run lacks: the end record of the lowest source, or else events, or else the store
/// of the first load that waits, by their names. `None` where it is complete.
pub(crate) fn first_lacking(
    alloc: Global,
    fed: &[Fed],
    book: &Book,
) -> Result<Option<Missing>, NoMemory>
    requires { length fed.now ≤ 8 }
    ensures { IfOk result (IsLacking fed.now book.now.log) }
{
    let lacking = ends_lacking(fed);
    if lacking.is_some() {
        return Ok(lacking);
    }
    log_lacking(alloc, book)
}
