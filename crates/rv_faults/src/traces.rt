//! The litmus tests, as entries and as the text of sources.
use rv_event::{DepKind, Entry, Event, MemoryModel, NoMemory, Op, Set};
use rv_litmus::allowed::allowed;
use rv_litmus::circles::circles;
use rv_litmus::refused::{STALE, TAKEN, UNRESERVED};
use rv_litmus::rows::{Bits, Row, log_of};
use rv_report::Outcome;
use std::alloc::Global;
use std::fmt::Write;
use std::process::Abort;

/// The first line of each source.
pub const HEADER: &str = "hart,seq,op,word,read,wrote,ann,deps\n";

/// What an execution comes to.
#[derive(Clone, Copy, PartialEq, Eq, Debug)]
pub enum Class {
    Allowed,
    Forbidden,
    Malformed,
}

/// The class of the outcome.
pub fn class_of(outcome: &Outcome) -> Class {
    match outcome {
        Outcome::Allowed { .. } => Class::Allowed,
        Outcome::Forbidden(_) => Class::Forbidden,
        Outcome::Malformed(_) => Class::Malformed,
    }
}

/// An execution, in the order of arrival. All of it is allowed, or its last row is refused.
#[derive(Clone, Copy)]
pub struct LitmusTest {
    pub name: &'static str,
    pub model: MemoryModel,
    pub rows: &'static [Row],
    pub class: Class,
}

/// The executions that are refused for another cause than a circle.
const REFUSED: [LitmusTest; 3] = [
    LitmusTest {
        name: "a stale load",
        model: MemoryModel::Rvwmo,
        rows: &STALE,
        class: Class::Forbidden,
    },
    LitmusTest {
        name: "a version that is taken",
        model: MemoryModel::Rvwmo,
        rows: &TAKEN,
        class: Class::Malformed,
    },
    LitmusTest {
        name: "an SC without reservation",
        model: MemoryModel::Rvwmo,
        rows: &UNRESERVED,
        class: Class::Malformed,
    },
];

/// All of them.
fn list_tests(alloc: Global) -> Result<Vec<LitmusTest>, NoMemory> {
    let mut list = Vec::from_slice(alloc, &REFUSED)?;
    for allowed in allowed() {
        list.push(LitmusTest {
            name: allowed.name,
            model: allowed.model,
            rows: allowed.rows,
            class: Class::Allowed,
        })?;
    }
    'circles: for circle in circles() {
        list.push(LitmusTest {
            name: circle.name,
            model: circle.model,
            rows: circle.rows,
            class: Class::Forbidden,
        })?;
    }
    Ok(list)
}

/// All of them, also where one allocation is refused.
pub fn litmus_tests(rt: &impl Abort, alloc: Global) -> Vec<LitmusTest> {
    match list_tests(alloc) {
        Ok(list) => list,
        Err(NoMemory) => list_tests(alloc).expect(rt, "memory"),
    }
}

/// The entries of the rows, as those of one source, also where one allocation is refused.
pub fn entries_of(rt: &impl Abort, alloc: Global, rows: &[Row]) -> Vec<Entry> {
    match log_of(alloc, rows) {
        Ok(entries) => entries,
        Err(NoMemory) => log_of(alloc, rows).expect(rt, "memory"),
    }
}

/// The operation as a trace names it.
fn name_of(op: Op) -> &'static str {
    match op {
        Op::Load => "L",
        Op::Store => "S",
        Op::Lr => "LR",
        Op::Sc => "SC",
        Op::ScFailed => "SF",
        Op::Amo => "AMO",
        Op::Fence { .. } => "F",
        Op::FenceTso => "FT",
        Op::Branch => "BR",
        Op::Carrier => "I",
    }
}

fn set_name(set: Set) -> &'static str {
    match set {
        Set::R => "r",
        Set::W => "w",
        Set::Rw => "rw",
    }
}

/// Adds the fields of the word and of the versions: those that the operation has.
fn push_access(text: &mut String, row: &Row) -> Result<(), NoMemory> {
    if row.op.is_memory() || row.op == Op::ScFailed {
        write!(text, "{}", row.word)?;
    }
    text.push_str(",")?;
    if row.op.is_load() {
        write!(text, "{}", row.read)?;
    }
    text.push_str(",")?;
    if row.op.is_store() {
        write!(text, "{}", row.wrote)?;
    }
    text.push_str(",")?;
    Ok(())
}

/// Adds the field of the annotation.
fn push_annotation(text: &mut String, row: &Row) -> Result<(), NoMemory> {
    match (row.op, row.bits) {
        (Op::Fence { pred, succ }, _) => write!(text, "{}-{}", set_name(pred), set_name(succ))?,
        (_, Bits::Acquire) => text.push_str("A")?,
        (_, Bits::Release) => text.push_str("R")?,
        (_, Bits::None) => {}
    }
    text.push_str(",")?;
    Ok(())
}

/// Adds the line of the row.
fn push_line(text: &mut String, row: &Row) -> Result<(), NoMemory> {
    write!(text, "{},{},{},", row.hart, row.seq, name_of(row.op))?;
    push_access(text, row)?;
    push_annotation(text, row)?;
    let mut gap = "";
    for dep in row.deps {
        let letter = match dep.kind {
            DepKind::Addr => "a",
            DepKind::DataOf => "d",
            DepKind::Ctrl => "c",
        };
        write!(text, "{gap}{letter}{}", dep.seq)?;
        gap = " ";
    }
    text.push_str("\n")?;
    Ok(())
}

/// The header and the lines of the rows, all of them or those of one hart.
fn text_with(alloc: Global, rows: &[Row], hart: Option<u8>) -> Result<String, NoMemory> {
    let mut text = String::new(alloc);
    text.push_str(HEADER)?;
    for row in rows {
        if hart.is_none_or(|number| number == row.hart) {
            push_line(&mut text, row)?;
        }
    }
    Ok(text)
}

/// The source of all rows or of one hart's, also where one allocation is refused. No litmus test has
/// more than two harts.
pub fn text_of(rt: &impl Abort, alloc: Global, rows: &[Row], hart: Option<u8>) -> String {
    match text_with(alloc, rows, hart) {
        Ok(text) => text,
        Err(NoMemory) => text_with(alloc, rows, hart).expect(rt, "memory"),
    }
}

/// Whether the next entry has this event.
pub fn is_next(next: Option<&Entry>, event: &Event) -> bool {
    match next {
        Some(entry) => entry.event == *event,
        None => false,
    }
}

#[test]
fn rows_are_written_as_a_trace_has_them(rt: HostRuntime) {
    let text = text_of(&rt, rt.alloc(), &UNRESERVED, None);
    assert_eq!(rt;
        text.as_str(),
        "hart,seq,op,word,read,wrote,ann,deps\n0,0,LR,0,0,,,\n0,1,SF,0,,,,\n0,2,SC,0,,1,,\n"
    );
    let first = text_of(&rt, rt.alloc(), &TAKEN, Some(0));
    assert_eq!(rt;
        first.as_str(),
        "hart,seq,op,word,read,wrote,ann,deps\n0,0,S,0,,3,,\n"
    );
    let second = text_of(&rt, rt.alloc(), &TAKEN, Some(1));
    assert_eq!(rt;
        second.as_str(),
        "hart,seq,op,word,read,wrote,ann,deps\n1,0,S,0,,3,,\n"
    );
}
