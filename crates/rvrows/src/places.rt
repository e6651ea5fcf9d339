//! Where the rows of a trace come from.

use rv_event::Id;
use rv_insn::{Insn, Operation, is_branch, mnemonic};
use rv_log::{AccessKind, Retired, access_of};
use std::alloc::{AllocError, Global};
use std::fmt;

/// How many harts a log has.
const HARTS: u8 = 16;

/// Where a row comes from. Its text is the program counter, the instruction and the address.
#[derive(Clone, Copy)]
pub(crate) struct Place {
    pc: u64,
    insn: Insn,
    address: Option<u64>,
}

impl Place {
    /// Where the rows of an instruction come from.
    pub(crate) fn of(instruction: &Retired) -> Place {
        Place {
            pc: instruction.pc,
            insn: instruction.insn,
            address: instruction.access.map(|_| instruction.address),
        }
    }
}

/// Writes the operation's name, with what annotates it.
fn write_name<W: fmt::Write>(f: &mut fmt::Formatter<W>, insn: &Insn) -> fmt::Result {
    let name = mnemonic(insn.operation);
    write!(f, "{name}")?;
    match (insn.acquire, insn.release) {
        (true, true) => write!(f, ".aqrl"),
        (true, false) => write!(f, ".aq"),
        (false, true) => write!(f, ".rl"),
        (false, false) => Ok(()),
    }
}

/// The letter of the registers that an access to memory loads and stores.
fn letter_of(operation: Operation) -> char {
    match operation {
        Operation::Flw | Operation::Fld | Operation::Fsw | Operation::Fsd => 'f',
        _ => 'x',
    }
}

/// Writes the registers of an access.
fn write_access<W: fmt::Write>(
    f: &mut fmt::Formatter<W>,
    kind: AccessKind,
    insn: &Insn,
) -> fmt::Result {
    let letter = letter_of(insn.operation);
    let Insn {
        rd,
        rs1,
        rs2,
        immediate,
        ..
    } = *insn;
    match kind {
        AccessKind::Load => write!(f, " {letter}{rd},{immediate}(x{rs1})"),
        AccessKind::Store => write!(f, " {letter}{rs2},{immediate}(x{rs1})"),
        AccessKind::LoadReserved => write!(f, " x{rd},(x{rs1})"),
        AccessKind::StoreConditional | AccessKind::Amo => write!(f, " x{rd},x{rs2},(x{rs1})"),
    }
}

/// Writes a set of a fence.
fn write_set<W: fmt::Write>(f: &mut fmt::Formatter<W>, bits: u8) -> fmt::Result {
    for (bit, letter) in [(8, 'i'), (4, 'o'), (2, 'r'), (1, 'w')] {
        if bits & bit != 0 {
            write!(f, "{letter}")?;
        }
    }
    Ok(())
}

/// Writes an instruction: a compressed one as the one of 32 bits that it stands for.
fn write_insn<W: fmt::Write>(f: &mut fmt::Formatter<W>, insn: &Insn) -> fmt::Result {
    write_name(f, insn)?;
    if let Some(access) = access_of(insn.operation) {
        return write_access(f, access.kind, insn);
    }
    let Insn {
        rd,
        rs1,
        rs2,
        immediate,
        ..
    } = *insn;
    match insn.operation {
        Operation::Fence => {
            write!(f, " ")?;
            write_set(f, insn.predecessors)?;
            write!(f, ",")?;
            write_set(f, insn.successors)
        }
        Operation::Jalr => write!(f, " x{rd},{immediate}(x{rs1})"),
        _ if is_branch(*insn) => write!(f, " x{rs1},x{rs2},{immediate}"),
        _ => Ok(()),
    }
}

impl fmt::Display for Place {
    fn fmt<W: fmt::Write>(&self, f: &mut fmt::Formatter<W>) -> fmt::Result {
        let pc = self.pc;
        write!(f, "{pc:x} ")?;
        write_insn(f, &self.insn)?;
        match self.address {
            Some(address) => write!(f, " at {address:x}"),
            None => Ok(()),
        }
    }
}

/// Where the rows so far come from, by hart and number.
#[derive(Drop)]
pub(crate) struct Places {
    harts: Vec<Vec<Place>>,
}

impl Places {
    /// Those of no rows.
    pub(crate) fn new(alloc: Global) -> Result<Places, AllocError> {
        let mut harts = Vec::new(alloc);
        'harts: for _ in 0..HARTS {
            harts.push(Vec::new(alloc))?;
        }
        Ok(Places { harts })
    }

    /// The rows of a hart below this number that have no place yet are from here.
    pub(crate) fn note(&mut self, hart: u8, end: u32, place: Place) -> Result<(), AllocError> {
        if let Some(places) = self.harts.get_mut(hart as usize) {
            'rows: for _ in places.len()..end as usize {
                places.push(place)?;
            }
        }
        Ok(())
    }

    /// Where a row comes from.
    pub(crate) fn of(&self, id: Id) -> Option<Place> {
        self.harts
            .get(id.hart as usize)?
            .get(id.seq as usize)
            .copied()
    }
}
