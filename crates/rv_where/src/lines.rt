//! The texts that a file has.
ghost use Rattle.std.specs.Prelude.{◌≡◌, true, false, IfErr, IfNone, IfOk, IfSome, OnOk, bytes_eq, option_map};
ghost use Rattle.std.specs.List.{list_any};
ghost use Rattle.csv.specs.Records.{fields_of};
ghost use Rattle.rv_trace.specs.Row.{field};
ghost use Rattle.rv_trace.specs.Rows.{NoRow, TakesRow};
ghost use Rattle.rv_trace.specs.Source.{text_records};
ghost use Rattle.rv_explain.specs.RowTexts.{said_by};
ghost use Rattle.rv_where.specs.Lines.{AreTextsFrom, AreTextsOf, IsFaultFrom, IsFaultOf, IsLineFault, IsOutside};
ghost use Rattle.rv_where.specs.Lines.{IsTaken, is_control, is_header, is_text};

use crate::fault::{LineFault, WhereFault};
use csv::ByteRecord;
use rv_explain::RowTexts;
use rv_trace::{FaultKind, Rows, field_of, number_of};
use std::alloc::Global;
use std::io::Read;
use std::str;

/// How many lines a file may have behind its header: as many as eight sources have rows.
const MAX_LINES: u32 = 524_288;

/// Whether the field at a place is this text.
fn field_is(row: &ByteRecord, place: usize, text: &[u8]) -> bool
    ensures { result ≡ bytes_eq (field (fields_of row.now) place) text.now }
{
    field_of(row, place) == text
}

/// Whether a record is the header.
fn is_header(row: &ByteRecord) -> bool
    ensures { result ≡ is_header (fields_of row.now) }
{
    row.len() == 3
        && field_is(row, 0, b"source")
        && field_is(row, 1, b"row")
        && field_is(row, 2, b"text")
}

/// Whether one of the bytes is a control character.
fn has_control(bytes: &[u8]) -> bool
    ensures { result ≡ list_any is_control bytes.now }
{
    bytes.iter().any(|byte| *byte < 32 || *byte == 127)
}

/// The text that these bytes are: UTF-8 without control characters.
fn text_of(bytes: &[u8]) -> Option<&str>
    ensures text { IfSome result (λ text. (text.now ≡ bytes.now) × (is_text bytes.now ≡ true)) }
    ensures none { IfNone result (is_text bytes.now ≡ false) }
{
    if has_control(bytes) {
        return None;
    }
    match str::from_utf8(bytes) {
        Ok(text) => Some(text),
        Err(_) => None,
    }
}

/// Takes the text of a line.
#[tactic(auto, unfolding(crate::specs::Lines::line_fault))]
fn take_line(alloc: Global, texts: &mut RowTexts, line: &ByteRecord) -> Result<(), LineFault>
    ensures taken { OnOk result (IsTaken (said_by texts.old) (fields_of line.now) (said_by texts.new)) }
    ensures fault { IfErr result (IsLineFault (fields_of line.now)) }
{
    if line.len() != 3 {
        return Err(LineFault::Fields);
    }
    let Ok(source) = number_of(field_of(line, 0), 7) else {
        return Err(LineFault::Source);
    };
    let Ok(row) = number_of(field_of(line, 1), u32::MAX) else {
        return Err(LineFault::Row);
    };
    let Some(text) = text_of(field_of(line, 2)) else {
        return Err(LineFault::Text);
    };
    let text = text.to_string(alloc)?;
    texts.note(source as u8, row as usize, text)?;
    Ok(())
}

/// Reads the next record.
fn next<R: Read>(rows: &mut Rows<R>, line: u32) -> Result<bool, WhereFault>
    requires { rows.old.stopped ≡ false }
    ensures found { IfOk result
        (λ found. found ≡ true → TakesRow rows.old.left rows.new.left rows.new.row) }
    ensures end { IfOk result (λ found. found ≡ false → NoRow rows.old.left) }
    ensures goes { IfOk result (λ found. found ≡ true → rows.new.stopped ≡ false) }
    ensures fault { IfErr result (λ f. IsOutside f.kind) }
{
    match rows.next_row() {
        Ok(found) => Ok(found),
        Err(FaultKind::Read) => Err(WhereFault {
            kind: LineFault::Read,
            line,
        }),
        Err(_) => Err(WhereFault {
            kind: LineFault::NoMemory,
            line,
        }),
    }
}

/// Takes the texts of all lines behind the header.
fn take_lines<R: Read>(
    alloc: Global,
    rows: &mut Rows<R>,
    texts: &mut RowTexts,
) -> Result<(), WhereFault>
    requires { rows.old.stopped ≡ false }
    ensures texts { OnOk result (AreTextsFrom (said_by texts.old) rows.old.left (said_by texts.new)) }
    ensures fault { IfErr result (IsFaultFrom rows.old.left) }
{
    'lines: for before in 0..MAX_LINES {
        let line = before + 1;
        if !next(rows, line)? {
            return Ok(());
        }
        if let Err(kind) = take_line(alloc, texts, rows.row()) {
            return Err(WhereFault { kind, line });
        }
    }
    let line = MAX_LINES + 1;
    if next(rows, line)? {
        return Err(WhereFault {
            kind: LineFault::TooLong,
            line,
        });
    }
    Ok(())
}

/// Reads the header and takes the texts of the lines behind it.
fn read_texts<R: Read>(alloc: Global, rows: &mut Rows<R>) -> Result<RowTexts, WhereFault>
    requires { rows.old.stopped ≡ false }
    ensures texts { IfOk result (λ t. AreTextsOf rows.old.left (said_by t)) }
    ensures fault { IfErr result (IsFaultOf rows.old.left) }
{
    let no_header = WhereFault {
        kind: LineFault::Header,
        line: 0,
    };
    if !next(rows, 0)? {
        return Err(no_header);
    }
    if !is_header(rows.row()) {
        return Err(no_header);
    }
    let mut texts = RowTexts::new(alloc);
    take_lines(alloc, rows, &mut texts)?;
    Ok(texts)
}

/// The texts that what `reader` gives has of rows: CSV with the header `source,row,text`, and a
/// line for each row. The source is 0 to 7, the row 1 for the first row of data, and the text
/// anything in UTF-8 without control characters. The last line of a row counts. At most 524,288
/// lines are taken.
///
/// # Errors
/// The first fault of the file, with its line; or `Read`, where the reader failed or the file has
/// more than 64 MiB; or `NoMemory`.
pub fn texts_from<R: Read + Drop>(alloc: Global, reader: R) -> Result<RowTexts, WhereFault>
    ensures texts { IfOk result
        (λ t. AreTextsOf (option_map text_records (R.remaining reader)) (said_by t)) }
    ensures fault { IfErr result (IsFaultOf (option_map text_records (R.remaining reader))) }
{
    let mut rows = Rows::new(alloc, reader);
    read_texts(alloc, &mut rows)
}
