//! The numbers and the texts of faults.

use crate::judging::Judgement;
use crate::{FAILED, WRONG_INPUT};
use rv_commits::{RowFault, ValueFault};
use rv_insn::Undecoded;
use rv_log::{Field, RecordFault};
use rv_logrows::{LogFault, StoreId};
use rv_memory::{StoreFault, Word};
use rv_values::Mismatch;
use std::alloc::AllocError;
use std::fmt;
use std::io::{self, Write};

/// What the time of an access tells that it returned.
#[derive(Clone, Copy)]
pub(crate) enum Told {
    /// Nothing: it shows no time.
    Nothing,
    /// What memory held at first.
    Initial,
    /// What this store wrote.
    Store(StoreId),
}

/// What is wrong with a log.
#[derive(Clone, Copy, Drop)]
pub(crate) enum Fault {
    /// It has no header, or another one.
    Header,
    /// What is wrong with a record alone.
    Record(RecordFault),
    /// What is wrong with it among the others.
    Log(LogFault),
    /// What is wrong with the value that a row returned, and what its time tells.
    Value(ValueFault, Told),
    /// A store took effect whose instruction never retired.
    NoInstruction(StoreId),
    /// A store never took effect.
    NeverPerformed(StoreId),
    /// A record stands behind the end.
    AfterEnd,
    /// There is no end.
    NoEnd,
}

/// Why the rows end early.
#[derive(Drop)]
pub(crate) enum Stop {
    /// The log has a fault in this row.
    Fault(u64, Fault),
    /// The rows were judged: one was refused.
    Judged(Judgement),
    /// This file does not open.
    Open(String),
    /// Reading failed.
    Read,
    /// Writing failed.
    Write,
    /// Writing where the rows come from failed.
    WritePlaces,
    /// Memory ran out.
    NoMemory,
}

impl From<AllocError> for Stop {
    fn from(_: AllocError) -> Self {
        Stop::NoMemory
    }
}

impl From<io::Error> for Stop {
    fn from(_: io::Error) -> Self {
        Stop::Write
    }
}

impl Stop {
    /// What comes of a fault of the log in this row: want of memory is none.
    pub(crate) fn of_log(row: u64, fault: LogFault) -> Stop {
        match fault {
            LogFault::NoMemory | LogFault::Store(StoreFault::NoMemory) => Stop::NoMemory,
            _ => Stop::Fault(row, Fault::Log(fault)),
        }
    }

    /// What comes of a fault of a row of the trace, whose time tells this.
    pub(crate) fn of_row(row: u64, fault: RowFault, told: Told) -> Stop {
        match fault {
            RowFault::NoMemory => Stop::NoMemory,
            RowFault::Value(value) => Stop::Fault(row, Fault::Value(value, told)),
        }
    }
}

/// The name of a field.
fn name_of(field: Field) -> &'static str {
    match field {
        Field::Hart => "hart",
        Field::Order => "order",
        Field::Pc => "pc",
        Field::Insn => "insn",
        Field::Addr => "addr",
        Field::Rdata => "rdata",
        Field::Wdata => "wdata",
        Field::Time => "time",
    }
}

/// Why a word is no instruction that is taken.
fn reason_of(why: Undecoded) -> &'static str {
    match why {
        Undecoded::Unknown => "unknown",
        Undecoded::Illegal => "illegal",
        Undecoded::Reserved => "reserved",
        Undecoded::Vector => "vector",
        Undecoded::HalfPrecision => "half precision",
        Undecoded::QuadPrecision => "quad precision",
        Undecoded::CacheBlock => "cache block operation",
        Undecoded::Custom => "custom",
        Undecoded::Hypervisor => "hypervisor load or store",
    }
}

/// Writes the number, the name and the details of a record's fault.
fn write_record<W: fmt::Write>(f: &mut fmt::Formatter<W>, fault: RecordFault) -> fmt::Result {
    match fault {
        RecordFault::Fields => write!(f, "2 fields: a record has nine"),
        RecordFault::Number(field) => {
            let name = name_of(field);
            write!(f, "3 number: {name}")
        }
        RecordFault::Kind => write!(f, "4 kind: C, P or E"),
        RecordFault::Missing(field) => {
            let name = name_of(field);
            write!(f, "5 missing: {name}")
        }
        RecordFault::NotBlank(field) => {
            let name = name_of(field);
            write!(f, "6 not blank: {name}")
        }
        RecordFault::Order(count) => {
            write!(f, "7 order: {count} instructions of the hart came before")
        }
        RecordFault::Instruction(why) => {
            let reason = reason_of(why);
            write!(f, "8 instruction: {reason}")
        }
        RecordFault::Hart => write!(f, "21 hart: 0 to 15"),
        RecordFault::End => write!(f, "23 no end: another number of records came before"),
    }
}

/// Writes the number, the name and the details of a store's fault.
fn write_store<W: fmt::Write>(f: &mut fmt::Formatter<W>, fault: StoreFault) -> fmt::Result {
    match fault {
        StoreFault::TimeGoesBack(time) => {
            write!(f, "11 time goes back: a store took effect at {time}")
        }
        StoreFault::Twice => write!(f, "14 performed twice"),
        StoreFault::SameTime => write!(f, "12 two stores at one time"),
        StoreFault::Full | StoreFault::NoMemory => write!(f, "24 too long: stores of one word"),
    }
}

/// Writes a word.
fn write_word<W: fmt::Write>(f: &mut fmt::Formatter<W>, word: Word) -> fmt::Result {
    let Word { address, size } = word;
    write!(f, "{size} bytes at {address:x}")
}

/// Writes what is wrong with a record among the others.
fn write_log<W: fmt::Write>(f: &mut fmt::Formatter<W>, fault: LogFault) -> fmt::Result {
    match fault {
        LogFault::Misaligned(word) => {
            write!(f, "9 misaligned: ")?;
            write_word(f, word)
        }
        LogFault::MixedSizes(word, other) => {
            write!(f, "10 mixed sizes: ")?;
            write_word(f, word)?;
            write!(f, ", and ")?;
            write_word(f, other)
        }
        LogFault::Store(fault) => write_store(f, fault),
        LogFault::NoSuchStore => write!(f, "13 no such store: the instruction makes none"),
        LogFault::Differs(Mismatch::Address(first, second)) => {
            write!(f, "16 store differs: address {first:x}, and {second:x}")
        }
        LogFault::Differs(Mismatch::Value(first, second)) => {
            write!(f, "16 store differs: value {first:x}, and {second:x}")
        }
        LogFault::Stored => write!(f, "19 success code: it failed, and took effect"),
        LogFault::Order(count) => {
            write!(f, "7 order: {count} instructions of the hart came before")
        }
        LogFault::RetiredTwice => write!(f, "7 order: the instruction retired before"),
        LogFault::Hart => write!(f, "21 hart: 0 to 15"),
        LogFault::TooManyRows => write!(f, "24 too long: a hart has 4096 rows"),
        LogFault::Full | LogFault::NoMemory => write!(f, "24 too long"),
    }
}

/// Writes what is wrong with the value that a row returned.
fn write_value<W: fmt::Write>(
    f: &mut fmt::Formatter<W>,
    fault: ValueFault,
    told: Told,
) -> fmt::Result {
    match fault {
        ValueFault::Unshown => {
            return write!(f, "17 value from nowhere: neither value nor time");
        }
        ValueFault::Nowhere => write!(f, "17 value from nowhere: no store of the word has it")?,
        ValueFault::Several => write!(f, "18 value of several stores")?,
    }
    match told {
        Told::Nothing => Ok(()),
        Told::Initial => write!(f, "; its time tells what memory held at first"),
        Told::Store(StoreId { hart, order }) => {
            write!(f, "; its time tells order {order} of hart {hart}")
        }
    }
}

impl fmt::Display for Fault {
    fn fmt<W: fmt::Write>(&self, f: &mut fmt::Formatter<W>) -> fmt::Result {
        match *self {
            Fault::Header => write!(f, "1 header: kind,hart,order,pc,insn,addr,rdata,wdata,time"),
            Fault::Record(fault) => write_record(f, fault),
            Fault::Log(fault) => write_log(f, fault),
            Fault::Value(fault, told) => write_value(f, fault, told),
            Fault::NoInstruction(StoreId { hart, order }) => {
                write!(
                    f,
                    "13 no such store: order {order} of hart {hart} never retired"
                )
            }
            Fault::NeverPerformed(StoreId { hart, order }) => {
                write!(f, "15 never performed: order {order} of hart {hart}")
            }
            Fault::AfterEnd => write!(f, "22 after the end"),
            Fault::NoEnd => write!(f, "23 no end: the log is cut off"),
        }
    }
}

/// Tells what went wrong, and gives the status. The first word is the name of the program.
pub(crate) fn tell<E: Write>(errors: &mut E, name: &str, row: u64, fault: Fault) -> u8 {
    let _ = writeln!(errors, "{name}: row {row}: fault {fault}");
    WRONG_INPUT
}

/// Tells what failed, and gives the status. The first word is the name of the program.
pub(crate) fn tell_failure<E: Write>(errors: &mut E, name: &str, what: &str) -> u8 {
    let _ = writeln!(errors, "{name}: {what}");
    FAILED
}
