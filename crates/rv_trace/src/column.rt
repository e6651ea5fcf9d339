//! The field of a row that has a fault.
ghost use Rattle.std.specs.Prelude.{◌≡◌, false, IfOk, Some, option_map};
ghost use Rattle.csv.specs.Records.{fields_of};
ghost use Rattle.rv_trace.specs.Columns.{IsFieldAtFault, IsFieldInRow, IsRecordAt, column_at_fault, column_for};
ghost use Rattle.rv_trace.specs.Columns.{column_text, place_of};
ghost use Rattle.rv_trace.specs.Source.{text_records};

use crate::dependency::dependencies_of;
use crate::dialect::Dialect;
use crate::fault::FaultKind;
use crate::number::{number_of, value_of};
use crate::operation::{Mnemonic, annotated_of, mnemonic_of};
use crate::row::field_of;
use crate::rows::Rows;
use csv::ByteRecord;
use std::alloc::{AllocError, Global};
use std::fmt;
use std::io::Read;

/// A column of a trace.
#[derive(Clone, Copy, PartialEq, Eq, Debug)]
pub enum Column {
    /// `hart`.
    Hart,
    /// `seq`.
    Seq,
    /// `op`.
    Op,
    /// `word`.
    Word,
    /// `read`.
    Read,
    /// `wrote`.
    Wrote,
    /// `ann`.
    Ann,
    /// `deps`.
    Deps,
}

impl fmt::Display for Column {
    ghost output = { λ c. Some (column_text c) };

    fn fmt<W: fmt::Write>(&self, f: &mut fmt::Formatter<W>) -> fmt::Result {
        match self {
            Column::Hart => write!(f, "hart"),
            Column::Seq => write!(f, "seq"),
            Column::Op => write!(f, "op"),
            Column::Word => write!(f, "word"),
            Column::Read => write!(f, "read"),
            Column::Wrote => write!(f, "wrote"),
            Column::Ann => write!(f, "ann"),
            Column::Deps => write!(f, "deps"),
        }
    }
}

/// The field of a row that has its fault.
#[derive(Drop, Debug)]
pub struct FaultyField {
    /// Its column.
    pub column: Column,
    /// Its bytes, without the quotes of the format.
    pub text: Vec<u8>,
}

/// The column at fault of a row with this operation, from the word on.
#[tactic(auto, unfolding(crate::specs::Columns::column_for))]
fn column_for(alloc: Global, name: Mnemonic, row: &ByteRecord) -> Result<Option<Column>, FaultKind>
    ensures { IfOk result (λ found. found ≡ column_for name (fields_of row.now)) }
{
    let columns = name.columns();
    let Ok(_) = value_of(columns.word, field_of(row, 3)) else {
        return Ok(Some(Column::Word));
    };
    let Ok(_) = value_of(columns.read, field_of(row, 4)) else {
        return Ok(Some(Column::Read));
    };
    let Ok(_) = value_of(columns.wrote, field_of(row, 5)) else {
        return Ok(Some(Column::Wrote));
    };
    let Ok(_) = annotated_of(name, field_of(row, 6)) else {
        return Ok(Some(Column::Ann));
    };
    match dependencies_of(alloc, columns, field_of(row, 7)) {
        Ok(_) => Ok(None),
        Err(FaultKind::NoMemory) => Err(FaultKind::NoMemory),
        Err(_) => Ok(Some(Column::Deps)),
    }
}

/// The first column from the left whose field has a fault; `None` where no field has one, or the
/// row does not have eight.
#[tactic(auto, unfolding(crate::specs::Columns::column_at_fault))]
fn column_at_fault(
    alloc: Global,
    dialect: Dialect,
    row: &ByteRecord,
) -> Result<Option<Column>, FaultKind>
    ensures { IfOk result (λ found. found ≡ column_at_fault dialect (fields_of row.now)) }
{
    if row.len() != 8 {
        return Ok(None);
    }
    let Ok(_) = number_of(field_of(row, 0), 255) else {
        return Ok(Some(Column::Hart));
    };
    let Ok(_) = number_of(field_of(row, 1), u32::MAX) else {
        return Ok(Some(Column::Seq));
    };
    match mnemonic_of(dialect, field_of(row, 2)) {
        Ok(name) => column_for(alloc, name, row),
        Err(_) => Ok(Some(Column::Op)),
    }
}

/// The place of a column, from 0.
fn place_of(column: Column) -> usize
    ensures { result ≡ place_of column }
{
    match column {
        Column::Hart => 0,
        Column::Seq => 1,
        Column::Op => 2,
        Column::Word => 3,
        Column::Read => 4,
        Column::Wrote => 5,
        Column::Ann => 6,
        Column::Deps => 7,
    }
}

/// The field at fault of a row.
fn field_at_fault(
    alloc: Global,
    dialect: Dialect,
    row: &ByteRecord,
) -> Result<Option<FaultyField>, FaultKind>
    ensures { IfOk result (IsFieldAtFault dialect (fields_of row.now)) }
{
    let Some(column) = column_at_fault(alloc, dialect, row)? else {
        return Ok(None);
    };
    match field_of(row, place_of(column)).to_vec(alloc) {
        Ok(text) => Ok(Some(FaultyField { column, text })),
        Err(_) => Err(FaultKind::NoMemory),
    }
}

/// Reads the record behind so many. `false` where there is none.
fn reach<R: Read>(rows: &mut Rows<R>, before: u32) -> Result<bool, FaultKind>
    requires { rows.old.stopped ≡ false }
    ensures { IfOk result (λ found. IsRecordAt before rows.old.left found rows.new.row) }
{
    'records: for _ in 0..before {
        if !rows.next_row()? {
            return Ok(false);
        }
    }
    rows.next_row()
}

/// The field of a data row that has its fault, found in what `reader` gives from its beginning on:
/// the first from the left. `None` where the row has none, has not eight fields, or is not there.
///
/// # Errors
/// `Read` where the reader failed, or `NoMemory`.
pub fn faulty_field<R: Read + Drop>(
    alloc: Global,
    reader: R,
    dialect: Dialect,
    row: u32,
) -> Result<Option<FaultyField>, FaultKind>
    ensures { IfOk result (IsFieldInRow dialect row (option_map text_records (R.remaining reader))) }
{
    let mut rows = Rows::new(alloc, reader);
    if reach(&mut rows, row)? {
        field_at_fault(alloc, dialect, rows.row())
    } else {
        Ok(None)
    }
}
