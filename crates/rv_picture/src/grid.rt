//! Where the boxes of a picture stand, in pixels.
ghost use Rattle.std.specs.Prelude.{◌≡◌, ◌+◌, find, length, nat_lt};
ghost use Rattle.rv_picture.specs.Measures.{box_left, box_top, column_of, columns_width, row_of, spot_of};

use rv_event::Id;
use rv_explain::{Column, Shown};

/// Where a box stands: its column and its row, both from 0.
#[derive(Clone, Copy, Debug)]
pub struct Spot {
    /// The column.
    pub column: usize,
    /// The row.
    pub row: usize,
}

/// A grid of boxes.
#[derive(Clone, Copy, Debug)]
pub struct Grid {
    /// The width of each box, in pixels.
    pub width: u16,
}

impl Grid {
    /// The left side of the boxes of a column.
    pub fn left(self, column: usize) -> u128
        ensures { result ≡ box_left self.width column }
    {
        150 + column as u128 * (self.width as u128 + 240)
    }

    /// The width of so many columns.
    pub fn width_of(self, columns: usize) -> u128
        ensures { result ≡ columns_width self.width columns }
    {
        columns as u128 * (self.width as u128 + 240)
    }

    /// The right side of the boxes of a column.
    pub fn right(self, column: usize) -> u128
        ensures { result ≡ box_left self.width column + self.width }
    {
        self.left(column) + self.width as u128
    }
}

/// The top of the boxes of a row.
pub fn top(row: usize) -> u128
    ensures { result ≡ box_top row }
{
    108 + 92 * row as u128
}

/// How many of the events have lower numbers.
fn count_lower(events: &[Shown<'_>], seq: u32) -> usize
    ensures { result ≡ row_of seq events.now }
{
    events
        .iter()
        .filter(|shown| shown.entry.event.id.seq < seq)
        .count()
}

/// How many of the columns are of lower harts.
fn count_left(columns: &[Column<'_>], hart: u8) -> usize
    ensures { result ≡ column_of hart columns.now }
{
    columns.iter().filter(|column| column.hart < hart).count()
}

/// Where the event with this id stands in these columns.
pub fn spot_of(columns: &[Column<'_>], id: Id) -> Spot
    ensures { result ≡ spot_of columns.now id }
{
    let column = count_left(columns, id.hart);
    let row = match columns.get(column) {
        Some(column) => count_lower(column.events.as_slice(), id.seq),
        None => 0,
    };
    Spot { column, row }
}
