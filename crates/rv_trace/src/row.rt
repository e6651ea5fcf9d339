//! What one record says.
ghost use Rattle.std.specs.Prelude.{◌≡◌, IfOk, IfErr};
ghost use Rattle.csv.specs.Records.{fields_of};
ghost use Rattle.rv_chunk.specs.Chunks.{IsPackable};
ghost use Rattle.rv_trace.specs.Faults.{IsOfTextOrMemory};
ghost use Rattle.rv_trace.specs.Row.{event_of, field};
ghost use Rattle.rv_trace.specs.Steps.{GivesOrMemory};

use crate::dependency::dependencies_of;
use crate::dialect::Dialect;
use crate::fault::FaultKind;
use crate::number::{number_of, value_of};
use crate::operation::{annotated_of, mnemonic_of};
use csv::ByteRecord;
use rv_event::{Event, Id};
use std::alloc::Global;

/// The field at a place, blank where there is none.
pub fn field_of(row: &ByteRecord, i: usize) -> &[u8]
    ensures { result.now ≡ field (fields_of row.now) i }
{
    match row.get(i) {
        Some(text) => text,
        None => &[],
    }
}

/// What a record says in this dialect: its event, or its first fault from the left.
///
/// # Errors
/// The first check that fails, in the order: the number of fields, `hart`, `seq`, `op`, `word`,
/// `read`, `wrote`, `ann`, the number of dependencies, each dependency. `NoMemory` where the list
/// of dependencies could not be had.
#[inline(always)]
#[tactic(auto, unfolding(crate::specs::Row::event_of, crate::specs::Row::eight))]
pub fn event_of_row(alloc: Global, dialect: Dialect, row: &ByteRecord) -> Result<Event, FaultKind>
    ensures value { GivesOrMemory result (event_of dialect (fields_of row.now)) }
    ensures kind { IfErr result IsOfTextOrMemory }
    ensures packable { IfOk result IsPackable }
{
    if row.len() != 8 {
        return Err(FaultKind::Fields);
    }
    let hart = number_of(field_of(row, 0), 255)?;
    let seq = number_of(field_of(row, 1), u32::MAX)?;
    let name = mnemonic_of(dialect, field_of(row, 2))?;
    let columns = name.columns();
    let word = value_of(columns.word, field_of(row, 3))?;
    let read = value_of(columns.read, field_of(row, 4))?;
    let wrote = value_of(columns.wrote, field_of(row, 5))?;
    let (op, acquire, release) = annotated_of(name, field_of(row, 6))?;
    let deps = dependencies_of(alloc, columns, field_of(row, 7))?;
    Ok(Event {
        id: Id {
            hart: hart as u8,
            seq,
        },
        op,
        word,
        read,
        wrote,
        acquire,
        release,
        deps,
    })
}
