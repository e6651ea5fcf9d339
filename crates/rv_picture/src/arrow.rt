//! The arrows of a picture.
ghost use Rattle.std.specs.Prelude.{◌≡◌, ◌≤◌, IfOk, Some, map};
ghost use Rattle.rv_picture.specs.Arrows.{arrow_of, arrows_of, entering, lane_of, label_text, label_x, label_y};
ghost use Rattle.rv_picture.specs.Arrows.{leaving, path_text, route_of, tag_text, track_of, way_text, words_text};

use crate::grid::{Grid, Spot, spot_of, top};
use rv_event::{NoMemory, Reason};
use rv_explain::{Cause, Column, Step};
use std::alloc::Global;
use std::fmt;

/// Why an arrow is there.
#[derive(Clone, Copy, Debug)]
pub enum Tag {
    /// The reason of an edge.
    Edge(Reason),
    /// The load at its end returned an older version than the store at its start wrote.
    Stale,
}

impl fmt::Display for Tag {
    ghost output = { λ t. Some (tag_text t) };

    fn fmt<W: fmt::Write>(&self, f: &mut fmt::Formatter<W>) -> fmt::Result {
        match self {
            Tag::Edge(reason) => write!(f, "{reason}"),
            Tag::Stale => write!(f, "stale"),
        }
    }
}

/// An arrow from one box to another.
#[derive(Clone, Copy, Debug)]
pub struct Arrow {
    /// The box that it leaves.
    pub from: Spot,
    /// The box that it leads to.
    pub to: Spot,
    /// Why it is there.
    pub tag: Tag,
}

/// The arrow of a step.
fn arrow_of(columns: &[Column<'_>], step: &Step<'_>) -> Arrow
    ensures { result ≡ arrow_of columns.now step.now }
{
    Arrow {
        from: spot_of(columns, step.from.id),
        to: spot_of(columns, step.to.id),
        tag: Tag::Edge(step.reason),
    }
}

/// The arrows of the steps, in order.
fn arrows_of_steps(
    alloc: Global,
    columns: &[Column<'_>],
    steps: &[Step<'_>],
) -> Result<Vec<Arrow>, NoMemory>
    ensures { IfOk result (λ arrows. arrows.items ≡ map (arrow_of columns.now) steps.now) }
{
    let mut arrows = Vec::new(alloc);
    'steps: for step in steps {
        arrows.push(arrow_of(columns, step))?;
    }
    Ok(arrows)
}

/// The arrows of a cause: one for each step of a cycle, in its order, or one from the store of a
/// stale pair to its load.
///
/// # Errors
/// Memory ran out.
pub fn arrows_of(
    alloc: Global,
    columns: &[Column<'_>],
    cause: &Cause<'_>,
) -> Result<Vec<Arrow>, NoMemory>
    ensures { IfOk result (λ arrows. arrows.items ≡ arrows_of columns.now cause.now) }
{
    match cause {
        Cause::Cycle(steps) => arrows_of_steps(alloc, columns, steps.as_slice()),
        Cause::Stale { load, store } => {
            let mut arrows = Vec::new(alloc);
            arrows.push(Arrow {
                from: spot_of(columns, store.id),
                to: spot_of(columns, load.id),
                tag: Tag::Stale,
            })?;
            Ok(arrows)
        }
    }
}

/// Between which columns an arrow runs.
#[derive(Clone, Copy, Debug)]
enum Route {
    /// From a column to itself.
    Beside,
    /// To the next column.
    Next,
    /// To the previous column.
    Previous,
    /// To a later column.
    Forward,
    /// To an earlier column.
    Backward,
}

/// The route from one column to another.
fn route_of(from: usize, to: usize) -> Route
    ensures { result ≡ route_of from to }
{
    if from == to {
        Route::Beside
    } else if from < to {
        if to - from == 1 {
            Route::Next
        } else {
            Route::Forward
        }
    } else if from - to == 1 {
        Route::Previous
    } else {
        Route::Backward
    }
}

/// The height at which arrows leave the boxes of a row.
fn leaving(row: usize) -> u128
    ensures { result ≡ leaving row }
{
    top(row) + 32
}

/// The height at which they enter them.
fn entering(row: usize) -> u128
    ensures { result ≡ entering row }
{
    top(row) + 12
}

/// How far from the boxes of a row an arrow runs that leaves or enters one sideways: neighbouring
/// rows have tracks of their own.
fn track_of(row: usize) -> u128
    ensures small { result ≤ 38 }
    ensures track { result ≡ track_of row }
{
    14 + 8 * (row as u128 % 4)
}

/// The way of an arrow between boxes of a grid, as the data of a path.
#[derive(Clone, Copy)]
struct Way {
    grid: Grid,
    from: Spot,
    to: Spot,
}

impl Way {
    /// The height at which an arrow to a column further off runs: above the row that it leads to.
    fn lane(self) -> u128
        ensures { result ≡ lane_of self.from.column self.to.row }
    {
        top(self.to.row) - (6 + 3 * (self.from.column as u128 % 14))
    }
}

impl fmt::Display for Way {
    ghost output = { λ w. Some (way_text w.grid.width (route_of w.from.column w.to.column) w.from w.to) };

    fn fmt<W: fmt::Write>(&self, f: &mut fmt::Formatter<W>) -> fmt::Result {
        let Way { grid, from, to } = *self;
        let (left, right) = (grid.left(from.column), grid.right(from.column));
        let (to_left, to_right) = (grid.left(to.column), grid.right(to.column));
        let (y, to_y) = (leaving(from.row), entering(to.row));
        let (track, to_track) = (track_of(from.row), track_of(to.row) + 4);
        let lane = self.lane();
        match route_of(from.column, to.column) {
            Route::Beside => {
                let turn = left - track;
                write!(f, "M{left} {y}H{turn}V{to_y}H{left}")
            }
            Route::Next => write!(f, "M{right} {y}L{to_left} {to_y}"),
            Route::Previous => write!(f, "M{left} {y}L{to_right} {to_y}"),
            Route::Forward => {
                let (turn, to_turn) = (right + track, to_left - to_track);
                write!(f, "M{right} {y}H{turn}V{lane}H{to_turn}V{to_y}H{to_left}")
            }
            Route::Backward => {
                let (turn, to_turn) = (left - track, to_right + to_track);
                write!(f, "M{left} {y}H{turn}V{lane}H{to_turn}V{to_y}H{to_right}")
            }
        }
    }
}

/// An arrow with its head, as it is drawn.
#[derive(Clone, Copy)]
pub struct Path {
    /// The grid.
    pub grid: Grid,
    /// The arrow.
    pub arrow: Arrow,
}

impl fmt::Display for Path {
    ghost output = { λ p. Some (path_text p.grid.width p.arrow) };

    fn fmt<W: fmt::Write>(&self, f: &mut fmt::Formatter<W>) -> fmt::Result {
        let way = Way {
            grid: self.grid,
            from: self.arrow.from,
            to: self.arrow.to,
        };
        write!(f, "<path d=\"{way}\"/>\n")
    }
}

/// A label, which begins or ends at a place.
#[derive(Clone, Copy)]
struct Words {
    x: u128,
    y: u128,
    begins: bool,
    number: usize,
    tag: Tag,
}

impl fmt::Display for Words {
    ghost output = { λ w. Some (words_text w.begins w.x w.y w.number w.tag) };

    fn fmt<W: fmt::Write>(&self, f: &mut fmt::Formatter<W>) -> fmt::Result {
        let Words {
            x,
            y,
            number,
            tag,
            ..
        } = *self;
        if self.begins {
            write!(f, "<text x=\"{x}\" y=\"{y}\">{number} {tag}</text>\n")
        } else {
            write!(
                f,
                "<text x=\"{x}\" y=\"{y}\" text-anchor=\"end\">{number} {tag}</text>\n"
            )
        }
    }
}

/// The label of an arrow: its number and why it is there, at the box that it leaves.
#[derive(Clone, Copy)]
pub struct Label {
    /// The grid.
    pub grid: Grid,
    /// The arrow.
    pub arrow: Arrow,
    /// The number of its step, from 1.
    pub number: usize,
}

impl Label {
    /// Where the label begins or ends.
    fn x(self, route: Route) -> u128
        ensures { result ≡ label_x self.grid.width route self.arrow.from }
    {
        let Spot { column, row } = self.arrow.from;
        match route {
            Route::Next => self.grid.right(column) + 6,
            Route::Forward => self.grid.right(column) + track_of(row) + 4,
            Route::Previous => self.grid.left(column) - 6,
            Route::Beside | Route::Backward => self.grid.left(column) - track_of(row) - 4,
        }
    }

    /// The height of its base line: by a straight arrow on the side from which that leads away, and
    /// else so that the labels of two columns stand clear of one another.
    fn y(self, route: Route) -> u128
        ensures { result ≡ label_y route self.arrow.from.row self.arrow.to.row }
    {
        let y = leaving(self.arrow.from.row);
        match route {
            Route::Next | Route::Previous if self.arrow.from.row < self.arrow.to.row => y - 5,
            Route::Next | Route::Previous => y + 14,
            Route::Forward => y - 8,
            Route::Beside | Route::Backward => y + 4,
        }
    }
}

impl fmt::Display for Label {
    ghost output = { λ l. Some (label_text l.grid.width l.number l.arrow) };

    fn fmt<W: fmt::Write>(&self, f: &mut fmt::Formatter<W>) -> fmt::Result {
        let route = route_of(self.arrow.from.column, self.arrow.to.column);
        let words = Words {
            x: self.x(route),
            y: self.y(route),
            begins: matches!(route, Route::Next | Route::Forward),
            number: self.number,
            tag: self.arrow.tag,
        };
        write!(f, "{words}")
    }
}
