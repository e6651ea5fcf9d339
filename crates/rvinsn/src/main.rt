//! Decodes instruction words: for each line of standard input, a word in hexadecimal, a line with
//! the mnemonic and the fields, or why it is no instruction.
//!
//! A line has the mnemonic of the form of 32 bits, then rd, rs1, rs2, rs3, the immediate, the CSR,
//! the rounding mode, `aq`, `rl`, and the two sets of a fence, as numbers. The word `32` on the
//! command line asks for RV32; else it is RV64. `tests/decoding` compares the lines with a
//! disassembler's.
//!
//! With the word `roles` a line has what the instruction reads and writes, the sources of its
//! address and of the value that it stores, and each source and destination between which it carries
//! a dependency, as `SOURCE>DESTINATION`.
//!
//! With the word `deps` the lines are a hart's instructions, each a word and, where it made a memory
//! operation that returned a value, that event's number; an empty line begins another hart. A line
//! of the output has the events on which the address depends, those on which the value depends that
//! is stored, and those on which branches before it depend.
//!
//! With the word `rows` they are a hart's instructions too, each a word and, where the instruction
//! has a row in a trace, `value` if a memory operation of it returned a value, or `row`. A line of
//! the output is a row: its number, what it is, and the numbers of the rows that it lists.
//!
//! Parts of a line have `; ` between them, and `-` stands where there is nothing.
//! `tests/dependencies` compares the lines with the manual's definition.
//!
//! It stands on `rv_insn` and `rv_flow`, and no promise stands on it.
#![tactic(auto)]

mod rows;

use crate::rows::{HartRows, new_rows, write_rows};
use rv_flow::{Flow, Step};
use rv_insn::{
    Flag, Insn, Undecoded, Unit, Width, address_source, carries, data_source, decode, destinations,
    mnemonic, sources,
};
use rv_rows::Row;
use std::alloc::Global;
use std::env;
use std::io::{self, BufRead, BufReader, BufWriter, Write};

/// What a line says of an instruction.
#[derive(Clone, Copy)]
enum Asked {
    /// Its fields.
    Fields,
    /// What it reads, writes and carries.
    Roles,
    /// On which events it depends.
    Deps,
    /// Its rows in a trace.
    Rows,
}

/// What the command line asks for.
#[derive(Clone, Copy)]
struct Request {
    /// The width of the integer registers.
    width: Width,
    /// What a line says.
    asked: Asked,
}

/// Reads the command line.
fn request_of(rt: &HostRuntime) -> io::Result<Request> {
    let mut request = Request {
        width: Width::Rv64,
        asked: Asked::Fields,
    };
    for word in env::args(rt)? {
        match word.as_str() {
            "32" => request.width = Width::Rv32,
            "roles" => request.asked = Asked::Roles,
            "deps" => request.asked = Asked::Deps,
            "rows" => request.asked = Asked::Rows,
            _ => {}
        }
    }
    Ok(request)
}

/// Writes the line of an instruction.
fn write_insn<W: Write>(out: &mut W, insn: Insn) -> io::Result<()> {
    let name = mnemonic(insn.operation);
    write!(
        out,
        "{name} {} {} {} {} ",
        insn.rd, insn.rs1, insn.rs2, insn.rs3
    )?;
    write!(out, "{} {} {} ", insn.immediate, insn.csr, insn.rounding)?;
    let (acquire, release) = (insn.acquire as u8, insn.release as u8);
    writeln!(
        out,
        "{acquire} {release} {} {}",
        insn.predecessors, insn.successors
    )
}

/// Writes a register, or a part of a CSR.
fn write_unit<W: Write>(out: &mut W, unit: Unit) -> io::Result<()> {
    match unit {
        Unit::X(number) => write!(out, "x{number}"),
        Unit::F(number) => write!(out, "f{number}"),
        Unit::Accrued(Flag::Nx) => write!(out, "NX"),
        Unit::Accrued(Flag::Uf) => write!(out, "UF"),
        Unit::Accrued(Flag::Of) => write!(out, "OF"),
        Unit::Accrued(Flag::Dz) => write!(out, "DZ"),
        Unit::Accrued(Flag::Nv) => write!(out, "NV"),
        Unit::Frm => write!(out, "frm"),
        Unit::Csr(number) => write!(out, "csr{number}"),
    }
}

/// Writes the name of a part, and the units that there are.
fn write_units<W: Write>(out: &mut W, name: &str, units: &[Option<Unit>]) -> io::Result<()> {
    write!(out, "{name}")?;
    let mut any = false;
    for unit in units {
        if let Some(unit) = unit {
            any = true;
            write!(out, " ")?;
            write_unit(out, *unit)?;
        }
    }
    write_end(out, any)
}

/// Writes what stands for nothing, where nothing was written.
fn write_end<W: Write>(out: &mut W, any: bool) -> io::Result<()> {
    if any {
        return Ok(());
    }
    write!(out, " -")
}

/// Writes to which destinations the instruction carries from the source, and says whether to any.
fn write_carried<W: Write>(out: &mut W, insn: Insn, from: Unit) -> io::Result<bool> {
    let mut any = false;
    for to in destinations(insn) {
        if let Some(to) = to {
            if carries(insn, from, to) {
                any = true;
                write!(out, " ")?;
                write_unit(out, from)?;
                write!(out, ">")?;
                write_unit(out, to)?;
            }
        }
    }
    Ok(any)
}

/// Writes what the instruction reads, writes and carries.
fn write_roles<W: Write>(out: &mut W, insn: Insn) -> io::Result<()> {
    write_units(out, "reads", &sources(insn))?;
    write_units(out, "; writes", &destinations(insn))?;
    write_units(out, "; address", &[address_source(insn)])?;
    write_units(out, "; value", &[data_source(insn)])?;
    write!(out, "; carries")?;
    let mut any = false;
    for from in sources(insn) {
        if let Some(from) = from {
            let carried = write_carried(out, insn, from)?;
            any = any || carried;
        }
    }
    write_end(out, any)?;
    writeln!(out, "")
}

/// Writes the line of a word.
fn write_word<W: Write>(out: &mut W, text: &str, request: Request) -> io::Result<()> {
    let Ok(bits) = u32::from_str_radix(text, 16) else {
        return writeln!(out, "? not a word");
    };
    match decode(bits, request.width) {
        Ok(insn) => match request.asked {
            Asked::Roles => write_roles(out, insn),
            Asked::Fields | Asked::Deps | Asked::Rows => write_insn(out, insn),
        },
        Err(why) => write_refusal(out, why),
    }
}

/// Writes why a word is no instruction.
fn write_refusal<W: Write>(out: &mut W, why: Undecoded) -> io::Result<()> {
    match why {
        Undecoded::Unknown => writeln!(out, "? unknown"),
        Undecoded::Illegal => writeln!(out, "? illegal"),
        Undecoded::Reserved => writeln!(out, "? reserved"),
        Undecoded::Vector => writeln!(out, "? vector"),
        Undecoded::HalfPrecision => writeln!(out, "? half precision"),
        Undecoded::QuadPrecision => writeln!(out, "? quad precision"),
        Undecoded::CacheBlock => writeln!(out, "? cache block operation"),
        Undecoded::Custom => writeln!(out, "? custom instruction"),
        Undecoded::Hypervisor => writeln!(out, "? hypervisor load or store"),
    }
}

/// The instructions of a hart so far.
#[derive(Drop)]
struct Hart {
    flow: Flow,
    /// A number above that of each event.
    end: u32,
}

/// A hart without instructions.
fn new_hart(alloc: Global) -> Hart {
    Hart {
        flow: Flow::new(alloc),
        end: 0,
    }
}

/// What is kept of the hart whose instructions are read.
#[derive(Drop)]
struct Harts {
    alloc: Global,
    /// For its dependencies.
    deps: Hart,
    /// For its rows.
    rows: HartRows,
}

/// Before any instruction.
fn new_harts(alloc: Global) -> Harts {
    Harts {
        alloc,
        deps: new_hart(alloc),
        rows: new_rows(alloc),
    }
}

/// Writes the name of a part, and the numbers that the row has.
fn write_row<W: Write>(out: &mut W, name: &str, row: &Row, end: u32) -> io::Result<()> {
    write!(out, "{name}")?;
    let mut any = false;
    for number in 0..end.min(4096) {
        if row.has(number as usize) {
            any = true;
            write!(out, " {number}")?;
        }
    }
    write_end(out, any)
}

/// Writes what the hart's next instruction depends on, and takes it in.
fn write_step<W: Write>(out: &mut W, hart: &mut Hart, step: Step) -> io::Result<()> {
    write_row(out, "address", hart.flow.address(step.insn), hart.end)?;
    write_row(out, "; data", hart.flow.data(step.insn), hart.end)?;
    write_row(out, "; control", hart.flow.control(), hart.end)?;
    writeln!(out, "")?;
    match step.event {
        Some(number) if number >= 4096 => return writeln!(out, "? too many events"),
        Some(number) => hart.end = hart.end.max(number + 1),
        None => {}
    }
    if hart.flow.push(step).is_err() {
        return writeln!(out, "? out of memory");
    }
    Ok(())
}

/// Writes the line of a hart's next instruction.
fn write_deps<W: Write>(out: &mut W, hart: &mut Hart, text: &str, width: Width) -> io::Result<()> {
    let (word, event) = match text.split_once(' ') {
        Some((word, event)) => (word, event.parse::<u32>().ok()),
        None => (text, None),
    };
    let Ok(bits) = u32::from_str_radix(word, 16) else {
        return writeln!(out, "? not a word");
    };
    match decode(bits, width) {
        Ok(insn) => write_step(out, hart, Step { insn, event }),
        Err(why) => write_refusal(out, why),
    }
}

/// Writes the lines of a hart's instructions, one after the other, up to an empty line.
fn write_line<W: Write>(
    out: &mut W,
    harts: &mut Harts,
    text: &str,
    request: Request,
) -> io::Result<()> {
    match request.asked {
        Asked::Fields | Asked::Roles => write_word(out, text, request),
        Asked::Deps if !text.is_empty() => write_deps(out, &mut harts.deps, text, request.width),
        Asked::Rows if !text.is_empty() => write_rows(out, &mut harts.rows, text, request.width),
        Asked::Deps | Asked::Rows => {
            *harts = new_harts(harts.alloc);
            writeln!(out, "")
        }
    }
}

/// Writes the lines of all words.
fn write_all(rt: &HostRuntime, alloc: Global) -> io::Result<()> {
    let request = request_of(rt)?;
    let mut out = BufWriter::new(alloc, io::writer(rt))?;
    let mut harts = new_harts(alloc);
    for line in BufReader::new(alloc, rt.reader())?.lines(alloc) {
        write_line(&mut out, &mut harts, line?.as_str(), request)?;
    }
    out.flush()
}

fn main(rt: HostRuntime) -> io::Result<()> {
    write_all(&rt, rt.alloc())
}
