//! The lines of the tables, and which bits fit them.
ghost use Rattle.std.specs.Prelude.{◌≡◌, map, find, option_map};
ghost use Rattle.rv_insn.specs.Lines.{fits, is_of, line_of};

use crate::format::Format;
use crate::insn::Width;
use crate::operation::Operation;
use crate::undecoded::Undecoded;

/// At which widths of registers a line holds.
#[derive(Clone, Copy, PartialEq, Eq, Debug)]
pub(crate) enum Widths {
    /// At either.
    Both,
    /// At 32 bits.
    Only32,
    /// At 64 bits.
    Only64,
}

/// What bits mean that fit a line.
#[derive(Clone, Copy, PartialEq, Eq, Debug)]
pub(crate) enum Meaning {
    /// An instruction of this operation, with its fields in this format.
    Is(Operation, Format),
    /// None that is known.
    Refused(Undecoded),
}

/// A mask and a pattern: bits that have the pattern under the mask do not fit.
pub(crate) type Exception = (u32, u32);

/// A line of a table: a mask, the pattern that bits have under it which fit, at which widths, what
/// they mean, and two exceptions.
#[derive(Clone, Copy)]
pub(crate) struct Line(
    pub u32,
    pub u32,
    pub Widths,
    pub Meaning,
    pub Exception,
    pub Exception,
);

/// Whether the line holds at this width.
fn is_of(width: Width, widths: Widths) -> bool
    ensures { result ≡ is_of width widths }
{
    match widths {
        Widths::Both => true,
        Widths::Only32 => width == Width::Rv32,
        Widths::Only64 => width == Width::Rv64,
    }
}

/// Whether the bits fit the line.
fn fits(width: Width, bits: u32, line: Line) -> bool
    ensures { result ≡ fits width bits (line_of line) }
{
    is_of(width, line.2)
        && bits & line.0 == line.1
        && bits & line.4.0 != line.4.1
        && bits & line.5.0 != line.5.1
}

/// What the bits mean by the first line that they fit.
pub(crate) fn meaning_of(table: &[Line], width: Width, bits: u32) -> Option<Meaning>
    ensures { result
        ≡ option_map (λ l. l.meaning) (find (fits width bits) (map line_of table.now)) }
{
    for line in table {
        if fits(width, bits, *line) {
            return Some(line.3);
        }
    }
    None
}
