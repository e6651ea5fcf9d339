//! What of the model a log has exercised.
ghost use Rattle.std.specs.Prelude.{IfOk};
ghost use Rattle.rv_coverage.specs.Coverages.{IsCoverage};

use crate::counting::{count_harts, event_counts, link_counts};
use crate::feature::Count;
use crate::reads::read_counts;
use crate::sharing::count_pairs;
use crate::waiting::{Wait, first_waits};
use rv_book::Book;
use rv_event::NoMemory;
use std::alloc::Global;

/// What of the model a log has exercised.
#[derive(Drop, Debug)]
pub struct Coverage {
    /// How many events are of each kind that a trace can have.
    pub events: Vec<Count>,
    /// How many links the book keeps with each reason.
    pub links: Vec<Count>,
    /// How many loads read from where.
    pub reads: Vec<Count>,
    /// How many harts have events, 0 to 16.
    pub harts: usize,
    /// How many pairs of events are memory operations of different harts on one word.
    pub pairs: usize,
    /// The first ten loads that wait for a store, by their names.
    pub waiting: Vec<Wait>,
}

/// What of the model the book's log has exercised.
///
/// The links are those that the book keeps, fewer than the log's edges: each is an edge, and
/// wherever the log has an edge a path of them leads. Which ones it keeps depends on the order in
/// which entries came.
///
/// It costs a pass over the log for each kind and each hart, one over the links for each reason,
/// and some look-ups for each memory operation.
///
/// # Errors
/// `NoMemory` where a list could not be had.
pub fn coverage_of(alloc: Global, book: &Book) -> Result<Coverage, NoMemory>
    ensures { IfOk result (IsCoverage book.now.model book.now.log) }
{
    let log = book.log();
    let links = book.links()?;
    Ok(Coverage {
        events: event_counts(alloc, log)?,
        links: link_counts(alloc, links.as_slice())?,
        reads: read_counts(alloc, book)?,
        harts: count_harts(log),
        pairs: count_pairs(alloc, log)?,
        waiting: first_waits(alloc, book)?,
    })
}
