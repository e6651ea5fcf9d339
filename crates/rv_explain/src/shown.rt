//! The events that an explanation shows, in a column for each hart.
ghost use Rattle.std.specs.Prelude.{◌≡◌, ◌<◌, ◌+◌, ◌==◌, ◌↔◌, ℕ, IfOk, IsTrue, Contains, count_by, length, take};
ghost use Rattle.rv_explain.specs.Showing.{AreColumns, AreShown, IsShown, of_hart, row_at};
ghost use Rattle.rv_explain.specs.RowTexts.{said_by};
ghost use Rattle.rv_explain.specs.declared.shown.Shown.{Shown};

use crate::row_texts::RowTexts;
use rv_event::{Entry, Id, NoMemory};
use std::alloc::Global;

/// An event that an explanation shows.
#[derive(Clone, Copy, Debug)]
pub struct Shown<'a> {
    /// The event, with its source.
    pub entry: &'a Entry,
    /// Its place in the evidence, from 0.
    pub place: usize,
    /// Its row in its source: 1 for the first row of data.
    pub row: usize,
    /// What is said of the row.
    pub text: Option<&'a str>,
}

/// The events that are shown of one hart.
#[derive(Drop, Debug)]
pub struct Column<'a> {
    /// The hart.
    pub hart: u8,
    /// Its events, in program order.
    pub events: Vec<Shown<'a>>,
}

/// The row of the entry at a place of the log, which is of this source: how many entries the source
/// gave up to it.
pub fn row_of(log: &[Entry], place: usize, source: u8) -> usize
    requires { place < length log.now }
    ensures { result ≡ row_at log.now place source }
{
    let mut row = 0;
    'entries: for entry in &log[..place + 1] {
        if source == entry.source {
            row += 1;
        }
    }
    row
}

/// Whether the id is one of these.
fn is_among(ids: &[Id], id: Id) -> bool
    ensures { IsTrue result ↔ Contains ids.now id }
{
    ids.contains(&id)
}

/// The entry at a place of the log, with its row. It costs a pass over the log.
pub fn shown_at<'a>(log: &'a [Entry], texts: &'a RowTexts, place: usize) -> Shown<'a>
    requires { place < length log.now }
    ensures shown { IsShown log.now (said_by texts.now) result }
    ensures place { result.place ≡ place }
{
    let entry = &log[place];
    let row = row_of(log, place, entry.source);
    Shown {
        entry,
        place,
        row,
        text: texts.text_of(entry.source, row),
    }
}

/// The entries of the log with these ids, in its order, each with its row.
///
/// It costs a pass over the log for each entry that is shown, and one over the ids for each entry
/// of the log.
///
/// # Errors
/// Memory ran out.
pub fn shown_of<'a>(
    alloc: Global,
    log: &'a [Entry],
    texts: &'a RowTexts,
    ids: &[Id],
) -> Result<Vec<Shown<'a>>, NoMemory>
    ensures { IfOk result (λ shown. AreShown log.now (said_by texts.now) ids.now shown.items) }
{
    let mut shown = Vec::new(alloc);
    'entries: for place in 0..log.len() {
        let entry = &log[place];
        if is_among(ids, entry.event.id) {
            let row = row_of(log, place, entry.source);
            let text = texts.text_of(entry.source, row);
            shown.push(Shown {
                entry,
                place,
                row,
                text,
            })?;
        }
    }
    Ok(shown)
}

/// What is shown of the hart.
fn events_of<'a>(alloc: Global, shown: &[Shown<'a>], hart: u8) -> Result<Vec<Shown<'a>>, NoMemory>
    ensures { IfOk result (λ events. events.items ≡ of_hart hart shown.now) }
{
    let mut events = Vec::new(alloc);
    'shown: for event in shown {
        if hart == event.entry.event.id.hart {
            events.push(*event)?;
        }
    }
    Ok(events)
}

/// A column for each hart of which something is shown, by ascending numbers.
///
/// # Errors
/// Memory ran out.
pub fn columns_of<'a>(alloc: Global, shown: &[Shown<'a>]) -> Result<Vec<Column<'a>>, NoMemory>
    requires { (s : Shown) → Contains shown.now s → s.entry.now.event.id.hart < 16 }
    ensures { IfOk result (λ columns. AreColumns shown.now columns.items) }
{
    let mut columns = Vec::new(alloc);
    'harts: for hart in 0..16 {
        let events = events_of(alloc, shown, hart)?;
        if !events.as_slice().is_empty() {
            columns.push(Column { hart, events })?;
        }
    }
    Ok(columns)
}
