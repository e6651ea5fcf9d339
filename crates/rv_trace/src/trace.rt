//! The events of a source, one at a time.
ghost use Rattle.std.specs.Prelude.{◌≡◌, ◌+◌, ◌<◌, ◌≤◌, true, false, bytes_eq};
ghost use Rattle.std.specs.Prelude.{IfErr, IfSome, OnOk, option_map};
ghost use Rattle.csv.specs.Records.{fields_of};
ghost use Rattle.rv_chunk.specs.Chunks.{IsPackable};
ghost use Rattle.rv_trace.specs.Calls.{IfFirst, IfGiven, IsAtEnd, IsReadWhere, OnEnd};
ghost use Rattle.rv_trace.specs.Taking.{IfEnd, IfRow};
ghost use Rattle.rv_trace.specs.Faults.{NeverCsv};
ghost use Rattle.rv_trace.specs.Row.{field};
ghost use Rattle.rv_trace.specs.Source.{end_in, end_of, is_header, records_say, rows_say};
ghost use Rattle.rv_trace.specs.Dialects.{plain};
ghost use Rattle.rv_trace.specs.Trace.{GoesOn, IsAtRow, IsFaultOf, IsWhole, TakesEvent};
ghost use Rattle.rv_trace.specs.Trace.{fresh_trace, refused_in};

use crate::dialect::Dialect;
use crate::fault::{FaultKind, TraceFault};
use crate::number::number_of;
use crate::row::{event_of_row, field_of};
use crate::rows::Rows;
use csv::ByteRecord;
use rv_event::Event;
use std::alloc::Global;
use std::io::Read;
use std::marker::Model;

/// How many data rows a source may have.
const MAX_ROWS: u32 = 65_536;

/// What a trace reads next.
#[derive(Clone, Copy, PartialEq, Eq, Debug)]
enum Stage {
    /// The header.
    Start,
    /// A data row.
    Rows,
    /// Nothing: the last row was read, and the end record, if there is one, which says so much.
    Ended(Option<u32>),
    /// Nothing: a fault was answered.
    Failed(TraceFault),
}

/// What stands behind the rows that were taken.
#[derive(Drop)]
enum Taken {
    /// A row.
    Row(Event),
    /// The end, and the number of rows that an end record says, if there is one.
    End(Option<u32>),
}

/// The events of a source, read row by row.
///
/// Contracts see what it has left to give (`TraceLeft` of `specs/Trace.antt`). Its `stream` is the
/// events, and the end, that the rest of the source's bytes say; it is `None` where the reader does
/// not tell its bytes, as a file does not.
#[derive(Drop)]
pub struct Trace<R: Read> {
    alloc: Global,
    source: u8,
    dialect: Dialect,
    rows: Rows<R>,
    given: u32,
    stage: Stage,
}

impl<R: Read> Model for Trace<R> {
    ghost use Rattle.rv_trace.specs.Trace.{TraceLeft, trace_left, InStage};

    ghost Value = { TraceLeft };

    ghost view = { λ a. trace_left a.dialect a.source a.given a.stage a.rows };

    ghost invariant = { λ a. InStage a.stage a.given a.rows };
}

/// Whether the field at a place is this text.
pub(crate) fn field_is(row: &ByteRecord, i: usize, text: &[u8]) -> bool
    ensures { result ≡ bytes_eq (field (fields_of row.now) i) text.now }
{
    field_of(row, i) == text
}

/// Whether a record is the header.
pub(crate) fn is_header(row: &ByteRecord) -> bool
    ensures { result ≡ is_header (fields_of row.now) }
{
    row.len() == 8
        && field_is(row, 0, b"hart")
        && field_is(row, 1, b"seq")
        && field_is(row, 2, b"op")
        && field_is(row, 3, b"word")
        && field_is(row, 4, b"read")
        && field_is(row, 5, b"wrote")
        && field_is(row, 6, b"ann")
        && field_is(row, 7, b"deps")
}

/// Reads the header. What comes behind it is of this dialect.
fn take_header<R: Read>(dialect: Dialect, rows: &mut Rows<R>) -> Result<(), TraceFault>
    requires { rows.old.stopped ≡ false }
    ensures header { OnOk result
        (GoesOn
        (option_map (records_say dialect) rows.old.left)
        (option_map (rows_say dialect 1) rows.new.left)) }
    ensures goes { OnOk result (rows.new.stopped ≡ false) }
    ensures good { OnOk result (rows.new.failed ≡ false) }
    ensures fault { IfErr result (IsFaultOf (option_map (records_say dialect) rows.old.left)) }
    ensures row { IfErr result (λ f. f.row ≡ 0) }
    ensures read { IfErr result (IsReadWhere (refused_in rows.new)) }
{
    let no_header = TraceFault {
        kind: FaultKind::Header,
        row: 0,
    };
    match rows.next_row() {
        Ok(found) => {
            if found && is_header(rows.row()) {
                Ok(())
            } else {
                Err(no_header)
            }
        }
        Err(kind) => Err(TraceFault { kind, row: 0 }),
    }
}

/// The number that an end record says, if the record is one.
#[tactic(auto, unfolding(crate::specs::Source::end_of))]
fn end_of(row: &ByteRecord) -> Option<u32>
    ensures { result ≡ end_of (fields_of row.now) }
{
    if row.len() == 2 && field_is(row, 0, b"end") {
        match number_of(field_of(row, 1), u32::MAX) {
            Ok(said) => Some(said),
            Err(_) => None,
        }
    } else {
        None
    }
}

/// The same, where the dialect may have end records.
fn end_in(dialect: Dialect, row: &ByteRecord) -> Option<u32>
    ensures { result ≡ end_in dialect (fields_of row.now) }
{
    if dialect.end_record {
        end_of(row)
    } else {
        None
    }
}

/// Reads what stands behind so many data rows.
///
/// Behind an end record it looks for one record more: it is no end record where one follows.
#[inline(always)]
fn take_row<R: Read>(
    alloc: Global,
    dialect: Dialect,
    rows: &mut Rows<R>,
    given: u32,
) -> Result<Taken, TraceFault>
    requires goes { rows.old.stopped ≡ false }
    requires given { given ≤ MAX_ROWS }
    ensures event { IfRow result
        (TakesEvent
        (option_map (rows_say dialect (given + 1)) rows.old.left)
        (option_map (rows_say dialect (given + 2)) rows.new.left)) }
    ensures packable { IfRow result IsPackable }
    ensures goes { IfRow result (λ _. rows.new.stopped ≡ false) }
    ensures few { IfRow result (λ _. given < MAX_ROWS) }
    ensures whole { IfEnd result (IsWhole (option_map (rows_say dialect (given + 1)) rows.old.left)) }
    ensures good { OnOk result (rows.new.failed ≡ false) }
    ensures fault { IfErr result (IsFaultOf (option_map (rows_say dialect (given + 1)) rows.old.left)) }
    ensures row { IfErr result (λ f. f.row ≡ given + 1) }
    ensures read { IfErr result (IsReadWhere (refused_in rows.new)) }
{
    let row = given + 1;
    match rows.next_row() {
        Ok(true) => {}
        Ok(false) => return Ok(Taken::End(None)),
        Err(kind) => return Err(TraceFault { kind, row }),
    }
    let said = end_in(dialect, rows.row());
    if said.is_some() {
        match rows.next_row() {
            Ok(true) => {}
            Ok(false) => return Ok(Taken::End(said)),
            Err(kind) => return Err(TraceFault { kind, row }),
        }
    }
    if given >= MAX_ROWS {
        let kind = FaultKind::TooLong;
        return Err(TraceFault { kind, row });
    }
    let read = match said {
        Some(_) => Err(FaultKind::Fields),
        None => event_of_row(alloc, dialect, rows.row()),
    };
    match read {
        Ok(event) => Ok(Taken::Row(event)),
        Err(kind) => Err(TraceFault { kind, row }),
    }
}

impl<R: Read> Trace<R> {
    /// The events of what `reader` gives, as those of the source of that number, below 8. A row
    /// `I` is none. It reads nothing and takes no memory.
    pub fn new(alloc: Global, reader: R, source: u8) -> Trace<R>
        requires { source < 8 }
        ensures { result ≡ fresh_trace plain source (R.remaining reader) }
    {
        Trace::with_dialect(alloc, reader, source, Dialect::plain())
    }

    /// The same, where the rows are of this dialect.
    pub fn with_dialect(alloc: Global, reader: R, source: u8, dialect: Dialect) -> Trace<R>
        requires { source < 8 }
        ensures { result ≡ fresh_trace dialect source (R.remaining reader) }
    {
        Trace {
            alloc,
            source,
            dialect,
            rows: Rows::new(alloc, reader),
            given: 0,
            stage: Stage::Start,
        }
    }

    /// How many events it has given.
    pub(crate) fn given(&self) -> u32
        ensures { result ≡ self.now.given }
    {
        self.given
    }

    /// How many rows the end record says that the source has, once it was read. `None` before the
    /// end, and where there is none.
    pub fn said(&self) -> Option<u32>
        ensures { result ≡ self.now.said }
    {
        match self.stage {
            Stage::Ended(said) => said,
            Stage::Start | Stage::Rows | Stage::Failed(_) => None,
        }
    }

    /// The next event, and `None` from the end on.
    ///
    /// # Errors
    /// The fault that the source's text ends in, with its row; or `Read`, only where the reader
    /// underneath failed or refused a read; or `NoMemory`; these with the row that was being read.
    /// Each call after a fault answers the same fault, and reads nothing.
    #[inline(always)]
    pub fn next_event(&mut self) -> Result<Option<Event>, TraceFault>
        ensures event { IfGiven result (TakesEvent self.old.stream self.new.stream) }
        ensures packable { IfGiven result IsPackable }
        ensures count { IfGiven result (λ _. self.new.given ≡ self.old.given + 1) }
        ensures few { IfGiven result (λ _. self.new.given ≤ MAX_ROWS) }

        ensures whole { OnEnd result (IsWhole self.old.stream self.new.said) }
        ensures end { OnEnd result (IsAtEnd self.new.ended self.new.said self.new.stream) }
        ensures still { OnEnd result (self.new.given ≡ self.old.given) }
        ensures stays { self.old.ended ≡ true → (result ≡ Ok None) × (self.new ≡ self.old) }

        ensures fault { IfFirst self.old.fault result (IsFaultOf self.old.stream) }
        ensures row { IfFirst self.old.fault result
            (IsAtRow self.old.unread self.old.given self.old.stream) }
        ensures stuck { IfErr result (λ _. self.new.given ≡ self.old.given) }
        ensures read { IfFirst self.old.fault result (IsReadWhere self.new.refused) }
        ensures never { IfErr result NeverCsv }
        ensures keeps { IfErr result (λ f. self.new.fault ≡ Some f) }
        ensures again { IfSome self.old.fault
            (λ f. (result ≡ Err f) × (self.new ≡ self.old)) }

        ensures begun { OnOk result (self.new.unread ≡ false) }
        ensures good { OnOk result ((self.new.fault ≡ None) × (self.new.refused ≡ false)) }
        ensures source { self.new.source ≡ self.old.source }
    {
        match self.stage {
            Stage::Failed(fault) => return Err(fault),
            Stage::Ended(_) => return Ok(None),
            Stage::Start => {
                if let Err(fault) = take_header(self.dialect, &mut self.rows) {
                    self.stage = Stage::Failed(fault);
                    return Err(fault);
                }
                self.stage = Stage::Rows;
            }
            Stage::Rows => {}
        }
        match take_row(self.alloc, self.dialect, &mut self.rows, self.given) {
            Ok(Taken::Row(event)) => {
                self.given += 1;
                Ok(Some(event))
            }
            Ok(Taken::End(said)) => {
                self.stage = Stage::Ended(said);
                Ok(None)
            }
            Err(fault) => {
                self.stage = Stage::Failed(fault);
                Err(fault)
            }
        }
    }
}
