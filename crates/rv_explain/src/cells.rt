//! The columns of an explanation as lines.
ghost use Rattle.std.specs.Prelude.{◌≡◌, IfOk, Some, map, string_bytes};
ghost use Rattle.rv_explain.specs.Layout.{blocks_text};
ghost use Rattle.rv_explain.specs.Telling.{cell_text, column_lines, described_text, id_cell, mark_text, place_cell};
ghost use Rattle.rv_explain.specs.Telling.{place_text};

use crate::layout::{pad, widest};
use crate::shown::{Column, Shown};
use crate::wording::Deed;
use rv_event::NoMemory;
use std::alloc::Global;
use std::fmt;

/// A row of a source, by the names of the sources.
#[derive(Clone, Copy)]
pub struct Place<'a> {
    /// The names of the sources, in order.
    pub names: &'a [String],
    /// The number of the source.
    pub source: u8,
    /// The row: 1 for the first row of data.
    pub row: usize,
}

impl<'a> fmt::Display for Place<'a> {
    ghost output = { λ p. Some (place_text p.names.now p.source p.row) };

    fn fmt<W: fmt::Write>(&self, f: &mut fmt::Formatter<W>) -> fmt::Result {
        let row = self.row;
        match self.names {
            [] | [_] => write!(f, "row {row}"),
            names => match names.get(self.source as usize) {
                Some(name) => write!(f, "{name} row {row}"),
                None => {
                    let source = self.source;
                    write!(f, "source {source} row {row}")
                }
            },
        }
    }
}

/// What an event does, and what is said of its row.
#[derive(Clone, Copy)]
pub struct Described<'a> {
    /// The event.
    pub shown: &'a Shown<'a>,
}

impl<'a> fmt::Display for Described<'a> {
    ghost output = { λ d. Some (described_text d.shown.now) };

    fn fmt<W: fmt::Write>(&self, f: &mut fmt::Formatter<W>) -> fmt::Result {
        let deed = Deed {
            event: &self.shown.entry.event,
        };
        match self.shown.text {
            Some(text) => write!(f, "{deed} [{text}]"),
            None => write!(f, "{deed}"),
        }
    }
}

/// The mark behind the refused event.
#[derive(Clone, Copy)]
struct Mark {
    is_refused: bool,
}

impl fmt::Display for Mark {
    ghost output = { λ m. Some (mark_text m.is_refused) };

    fn fmt<W: fmt::Write>(&self, f: &mut fmt::Formatter<W>) -> fmt::Result {
        if self.is_refused {
            write!(f, "   <- refused")
        } else {
            Ok(())
        }
    }
}

/// How the events of a column are written.
#[derive(Clone, Copy)]
struct Style<'a> {
    names: &'a [String],
    refused: usize,
    id_width: usize,
    place_width: usize,
}

/// The place of an event, in words.
pub fn place_of<'a>(names: &'a [String], shown: &Shown<'_>) -> Place<'a>
    ensures names { result.names.now ≡ names.now }
    ensures source { result.source ≡ shown.now.entry.now.source }
    ensures row { result.row ≡ shown.now.row }
{
    Place {
        names,
        source: shown.entry.source,
        row: shown.row,
    }
}

/// A line for an event.
fn cell(alloc: Global, style: Style<'_>, shown: &Shown<'_>) -> Result<String, NoMemory>
    ensures { IfOk result (λ text. string_bytes text ≡
        cell_text style.entry.names.now style.entry.refused style.entry.id_width style.entry.place_width shown.now) }
{
    let mut id = shown.entry.event.id.to_string(alloc)?;
    pad(&mut id, style.id_width)?;
    let mut place = place_of(style.names, shown).to_string(alloc)?;
    pad(&mut place, style.place_width)?;
    let described = Described { shown };
    let mark = Mark {
        is_refused: shown.place == style.refused,
    };
    Ok(format!(in alloc; "{id}  {place}  {described}{mark}")?)
}

/// The ids of the events.
fn id_cells(alloc: Global, events: &[Shown<'_>]) -> Result<Vec<String>, NoMemory>
    ensures { IfOk result (λ cells. map string_bytes cells.items ≡ map id_cell events.now) }
{
    let mut cells = Vec::new(alloc);
    'events: for shown in events {
        cells.push(shown.entry.event.id.to_string(alloc)?)?;
    }
    Ok(cells)
}

/// The places of the events.
fn place_cells(
    alloc: Global,
    names: &[String],
    events: &[Shown<'_>],
) -> Result<Vec<String>, NoMemory>
    ensures { IfOk result (λ cells. map string_bytes cells.items ≡ map (place_cell names.now) events.now) }
{
    let mut cells = Vec::new(alloc);
    'events: for shown in events {
        cells.push(place_of(names, shown).to_string(alloc)?)?;
    }
    Ok(cells)
}

/// The lines of a column: the hart, and its events.
fn lines_of(
    alloc: Global,
    names: &[String],
    refused: usize,
    column: &Column<'_>,
) -> Result<Vec<String>, NoMemory>
    ensures { IfOk result (λ lines. map string_bytes lines.items ≡ column_lines names.now refused column.now) }
{
    let events = column.events.as_slice();
    let ids = id_cells(alloc, events)?;
    let places = place_cells(alloc, names, events)?;
    let style = Style {
        names,
        refused,
        id_width: widest(ids.as_slice()),
        place_width: widest(places.as_slice()),
    };
    let hart = column.hart;
    let mut lines = Vec::new(alloc);
    lines.push(format!(in alloc; "hart {hart}")?)?;
    'events: for shown in events {
        lines.push(cell(alloc, style, shown)?)?;
    }
    Ok(lines)
}

/// The lines of each column. `refused` is the place of the refused event in the evidence.
///
/// # Errors
/// Memory ran out.
pub fn blocks_of(
    alloc: Global,
    names: &[String],
    refused: usize,
    columns: &[Column<'_>],
) -> Result<Vec<Vec<String>>, NoMemory>
    ensures { IfOk result (λ blocks. blocks_text blocks.items ≡
        map (column_lines names.now refused) columns.now) }
{
    let mut blocks = Vec::new(alloc);
    'columns: for column in columns {
        blocks.push(lines_of(alloc, names, refused, column)?)?;
    }
    Ok(blocks)
}
