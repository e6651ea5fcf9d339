//! The rows of a hart, with numbers: what each lists, carriers among them.
use crate::{Width, write_end, write_refusal};
use rv_flow::{HartTrace, Lists, Unlisted};
use rv_insn::{Insn, decode};
use std::alloc::{AllocError, Global};
use std::io::{self, Write};

/// How many parts a row lists at most.
const MOST_PARTS: usize = 8;

/// Which row an instruction has, beside those of a branch and of carriers.
#[derive(Clone, Copy)]
enum OwnRow {
    /// None.
    Without,
    /// One of a memory operation that returned a value.
    Value,
    /// Another one.
    Other,
}

/// Why the rows of an instruction were not written.
enum RowFault {
    /// The output was refused.
    Output(io::Error),
    /// A row can't be made.
    Unlisted(Unlisted),
}

impl From<io::Error> for RowFault {
    fn from(error: io::Error) -> Self {
        RowFault::Output(error)
    }
}

impl From<Unlisted> for RowFault {
    fn from(why: Unlisted) -> Self {
        RowFault::Unlisted(why)
    }
}

impl From<AllocError> for RowFault {
    fn from(error: AllocError) -> Self {
        RowFault::Unlisted(Unlisted::from(error))
    }
}

/// A hart's rows so far.
#[derive(Drop)]
pub(crate) struct HartRows {
    trace: HartTrace,
    /// How many carriers were written.
    written: usize,
}

/// A hart without instructions.
pub(crate) fn new_rows(alloc: Global) -> HartRows {
    HartRows {
        trace: HartTrace::new(alloc),
        written: 0,
    }
}

/// Writes the numbers of some rows.
fn write_parts<W: Write>(out: &mut W, parts: &[u32]) -> io::Result<()> {
    for part in parts {
        write!(out, " {part}")?;
    }
    write_end(out, !parts.is_empty())
}

/// Writes a row of a memory operation, or of a fence.
fn write_own<W: Write>(out: &mut W, number: u32, kind: &str, lists: &Lists) -> io::Result<()> {
    write!(out, "{number} {kind}; address")?;
    write_parts(out, &lists.address)?;
    write!(out, "; data")?;
    write_parts(out, &lists.value)?;
    writeln!(out, "")
}

/// Writes a row that has one list.
fn write_listing<W: Write>(out: &mut W, number: u32, kind: &str, parts: &[u32]) -> io::Result<()> {
    write!(out, "{number} {kind};")?;
    write_parts(out, parts)?;
    writeln!(out, "")
}

/// Writes the rows of a branch: those events on which no branch before it depends, eight each.
fn write_branch<W: Write>(out: &mut W, hart: &mut HartRows, insn: Insn) -> Result<(), RowFault> {
    let events = hart.trace.branch(insn)?;
    for parts in events.chunks(MOST_PARTS) {
        let number = hart.trace.number_row()?;
        write_listing(out, number, "branch", parts)?;
    }
    Ok(())
}

/// What the instruction's own row lists. Writes the carriers that this takes.
fn write_carriers<W: Write>(
    out: &mut W,
    hart: &mut HartRows,
    insn: Insn,
) -> Result<Lists, RowFault> {
    let lists = hart.trace.lists(insn)?;
    for carrier in hart.trace.carriers().iter().skip(hart.written) {
        write_listing(out, carrier.number, "carrier", &carrier.list.parts)?;
    }
    hart.written = hart.trace.carriers().len();
    Ok(lists)
}

/// Writes the rows of the instruction, and takes it in.
fn write_insn<W: Write>(
    out: &mut W,
    hart: &mut HartRows,
    insn: Insn,
    own: OwnRow,
) -> Result<(), RowFault> {
    write_branch(out, hart, insn)?;
    match own {
        OwnRow::Without => hart.trace.push(insn)?,
        OwnRow::Value => {
            let lists = write_carriers(out, hart, insn)?;
            let number = hart.trace.push_event(insn)?;
            write_own(out, number, "value", &lists)?;
        }
        OwnRow::Other => {
            let lists = write_carriers(out, hart, insn)?;
            let number = hart.trace.number_row()?;
            hart.trace.push(insn)?;
            write_own(out, number, "row", &lists)?;
        }
    }
    Ok(())
}

/// Writes the rows of a hart's next instruction, which the line tells.
pub(crate) fn write_rows<W: Write>(
    out: &mut W,
    hart: &mut HartRows,
    text: &str,
    width: Width,
) -> io::Result<()> {
    let (word, own) = match text.split_once(' ') {
        Some((word, "value")) => (word, OwnRow::Value),
        Some((word, _)) => (word, OwnRow::Other),
        None => (text, OwnRow::Without),
    };
    let Ok(bits) = u32::from_str_radix(word, 16) else {
        return writeln!(out, "? not a word");
    };
    match decode(bits, width) {
        Ok(insn) => match write_insn(out, hart, insn, own) {
            Ok(()) => Ok(()),
            Err(RowFault::Unlisted(why)) => writeln!(out, "? {why}"),
            Err(RowFault::Output(error)) => Err(error),
        },
        Err(why) => write_refusal(out, why),
    }
}
