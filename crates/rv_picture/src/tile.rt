//! The boxes of a picture: an event each.
ghost use Rattle.std.specs.Prelude.{◌≡◌, ◌++◌, IfOk, OnOk, Some, flat_map, map, string_bytes};
ghost use Rattle.rv_picture.specs.Numbering.{numbered};
ghost use Rattle.rv_picture.specs.Tiles.{box_width, column_text, column_texts, deed_of, event_texts, font_text};
ghost use Rattle.rv_picture.specs.Tiles.{hart_text, heading_text, outline_text, stroke_text, tile_in, tile_text};

use crate::escape::xml_text;
use crate::grid::{Grid, Spot, top};
use rv_event::{NoMemory, Op};
use rv_explain::{Column, Deed, Place, Shown, widest};
use std::alloc::Global;
use std::fmt;
use std::fmt::Write as _;

/// Of whom the boxes are.
#[derive(Clone, Copy, Debug)]
pub struct Scene<'a> {
    /// Where texts are made.
    pub alloc: Global,
    /// The names of the sources as XML has them, in order.
    pub names: &'a [String],
    /// The place of the refused event in the evidence.
    pub refused: usize,
}

/// The first line of a box: the event's id and place, and whether it is the refused one.
#[derive(Clone, Copy)]
struct Heading<'a> {
    names: &'a [String],
    refused: usize,
    shown: Shown<'a>,
}

impl<'a> fmt::Display for Heading<'a> {
    ghost output = { λ h. Some (heading_text h.names.now h.refused h.shown) };

    #[tactic(auto, unfolding(crate::specs::Tiles::heading_text))]
    fn fmt<W: fmt::Write>(&self, f: &mut fmt::Formatter<W>) -> fmt::Result {
        let id = self.shown.entry.event.id;
        let place = Place {
            names: self.names,
            source: self.shown.entry.source,
            row: self.shown.row,
        };
        if self.shown.place == self.refused {
            write!(f, "{id}, {place}, refused")
        } else {
            write!(f, "{id}, {place}")
        }
    }
}

/// The outline of a box at its place: fences have dashes, and the refused event has a thick line
/// and bold texts.
#[derive(Clone, Copy)]
struct Outline {
    grid: Grid,
    spot: Spot,
    is_refused: bool,
    op: Op,
}

impl fmt::Display for Outline {
    ghost output = { λ o. Some (outline_text o.grid.width o.spot o.is_refused o.op) };

    fn fmt<W: fmt::Write>(&self, f: &mut fmt::Formatter<W>) -> fmt::Result {
        let (x, y) = (self.grid.left(self.spot.column), top(self.spot.row));
        let width = self.grid.width;
        let font = Font {
            is_refused: self.is_refused,
        };
        let stroke = Stroke {
            is_refused: self.is_refused,
            op: self.op,
        };
        write!(
            f,
            "<g transform=\"translate({x} {y})\"{font}>\n\
             <rect width=\"{width}\" height=\"44\" fill=\"white\" stroke=\"black\"{stroke}/>\n"
        )
    }
}

/// How a box is lined.
#[derive(Clone, Copy)]
struct Stroke {
    is_refused: bool,
    op: Op,
}

impl fmt::Display for Stroke {
    ghost output = { λ s. Some (stroke_text s.is_refused s.op) };

    fn fmt<W: fmt::Write>(&self, f: &mut fmt::Formatter<W>) -> fmt::Result {
        match self.op {
            _ if self.is_refused => write!(f, " stroke-width=\"3\""),
            Op::Fence { .. } | Op::FenceTso => write!(f, " stroke-dasharray=\"6 4\""),
            _ => Ok(()),
        }
    }
}

/// How the text of a box is set.
#[derive(Clone, Copy)]
struct Font {
    is_refused: bool,
}

impl fmt::Display for Font {
    ghost output = { λ b. Some (font_text b.is_refused) };

    fn fmt<W: fmt::Write>(&self, f: &mut fmt::Formatter<W>) -> fmt::Result {
        if self.is_refused {
            write!(f, " font-weight=\"bold\"")
        } else {
            Ok(())
        }
    }
}

/// The second line of a box: what the event does, and what is said of its row.
fn second_line(alloc: Global, shown: &Shown<'_>) -> Result<String, NoMemory>
    ensures { IfOk result (λ text. string_bytes text ≡ deed_of shown.now) }
{
    let deed = Deed {
        event: &shown.entry.event,
    };
    match shown.text {
        Some(said) => {
            let said = xml_text(alloc, said)?;
            Ok(format!(in alloc; "{deed} [{said}]")?)
        }
        None => Ok(deed.to_string(alloc)?),
    }
}

/// Adds the box of an event.
fn push_tile(
    text: &mut String,
    scene: Scene<'_>,
    grid: Grid,
    spot: Spot,
    shown: &Shown<'_>,
) -> Result<(), NoMemory>
    ensures { OnOk result (string_bytes text.new ≡ string_bytes text.old
        ++ tile_text scene.entry.names.now scene.entry.refused grid.width spot shown.now) }
{
    let outline = Outline {
        grid,
        spot,
        is_refused: shown.place == scene.refused,
        op: shown.entry.event.op,
    };
    let heading = Heading {
        names: scene.names,
        refused: scene.refused,
        shown: *shown,
    };
    let second = second_line(scene.alloc, shown)?;
    write!(text, "{outline}")?;
    writeln!(text, "<text x=\"12\" y=\"18\">{heading}</text>")?;
    writeln!(text, "<text x=\"12\" y=\"36\">{second}</text>\n</g>")?;
    Ok(())
}

/// Adds the boxes of a column's events.
fn push_tiles(
    text: &mut String,
    scene: Scene<'_>,
    grid: Grid,
    column: usize,
    events: &[Shown<'_>],
) -> Result<(), NoMemory>
    ensures { OnOk result (string_bytes text.new ≡ string_bytes text.old
        ++ numbered (tile_in scene.entry.names.now scene.entry.refused grid.width column) 0 events.now) }
{
    'events: for row in 0..events.len() {
        push_tile(text, scene, grid, Spot { column, row }, &events[row])?;
    }
    Ok(())
}

/// Adds the hart of a column, above its boxes.
fn push_hart(text: &mut String, grid: Grid, number: usize, hart: u8) -> Result<(), NoMemory>
    ensures { OnOk result (string_bytes text.new ≡ string_bytes text.old
        ++ hart_text grid.width number hart) }
{
    let x = grid.left(number);
    writeln!(
        text,
        "<text x=\"{x}\" y=\"56\" font-weight=\"bold\">hart {hart}</text>"
    )?;
    Ok(())
}

/// Adds a column: the hart, and the boxes of its events.
fn push_column(
    text: &mut String,
    scene: Scene<'_>,
    grid: Grid,
    number: usize,
    column: &Column<'_>,
) -> Result<(), NoMemory>
    ensures { OnOk result (string_bytes text.new ≡ string_bytes text.old
        ++ column_text scene.entry.names.now scene.entry.refused grid.width number column.now) }
{
    push_hart(text, grid, number, column.hart)?;
    push_tiles(text, scene, grid, number, column.events.as_slice())
}

/// Adds the columns.
///
/// # Errors
/// Memory ran out; some of them may be there.
pub fn push_columns(
    text: &mut String,
    scene: Scene<'_>,
    grid: Grid,
    columns: &[Column<'_>],
) -> Result<(), NoMemory>
    ensures { OnOk result (string_bytes text.new ≡ string_bytes text.old
        ++ numbered (column_text scene.entry.names.now scene.entry.refused grid.width) 0 columns.now) }
{
    'columns: for number in 0..columns.len() {
        push_column(text, scene, grid, number, &columns[number])?;
    }
    Ok(())
}

/// Adds the texts that stand in the boxes of these events.
fn push_texts(
    texts: &mut Vec<String>,
    scene: Scene<'_>,
    events: &[Shown<'_>],
) -> Result<(), NoMemory>
    ensures { OnOk result (map string_bytes texts.new.items ≡ map string_bytes texts.old.items
        ++ flat_map (event_texts scene.entry.names.now scene.entry.refused) events.now) }
{
    'events: for shown in events {
        let heading = Heading {
            names: scene.names,
            refused: scene.refused,
            shown: *shown,
        };
        texts.push(heading.to_string(scene.alloc)?)?;
        texts.push(second_line(scene.alloc, shown)?)?;
    }
    Ok(())
}

/// The texts that stand in the boxes of these columns.
fn texts_of(scene: Scene<'_>, columns: &[Column<'_>]) -> Result<Vec<String>, NoMemory>
    ensures { IfOk result (λ texts. map string_bytes texts.items ≡
        flat_map (column_texts scene.entry.names.now scene.entry.refused) columns.now) }
{
    let mut texts = Vec::new(scene.alloc);
    'columns: for column in columns {
        push_texts(&mut texts, scene, column.events.as_slice())?;
    }
    Ok(texts)
}

/// The grid on which the boxes of these columns have room for their texts.
///
/// # Errors
/// Memory ran out.
pub fn grid_of(scene: Scene<'_>, columns: &[Column<'_>]) -> Result<Grid, NoMemory>
    ensures { IfOk result (λ grid. grid.width ≡ box_width scene.entry.names.now scene.entry.refused columns.now) }
{
    let texts = texts_of(scene, columns)?;
    let longest = widest(texts.as_slice());
    let room = if longest < 1000 { longest as u16 } else { 1000 };
    Ok(Grid {
        width: 24 + 9 * room,
    })
}
