//! The rows of a source that may have any number of them, one at a time.
ghost use Rattle.std.specs.Prelude.{◌≡◌, ◌↔◌, ◌+◌, ◌≤◌, ◌<◌, true, false, None, IfErr, IfNone, IfOk, IfSome, OnOk};
ghost use Rattle.std.specs.Prelude.{option_map};
ghost use Rattle.csv.specs.Records.{fields_of};
ghost use Rattle.rv_trace.specs.Faults.{IsOfTextOrMemory, is_of_text};
ghost use Rattle.rv_trace.specs.Feeds.{IsAtFeedRow, IsFeedFault, IsOver, Passes, TakesNext, ends_hart, fresh_feed};
ghost use Rattle.rv_trace.specs.Feeds.{hart_end, records_give, row_gives, rows_give};
ghost use Rattle.rv_trace.specs.Steps.{Gives, GivesOrMemory};
ghost use Rattle.rv_trace.specs.Trace.{refused_in};
ghost use Rattle.rv_trace.specs.declared.fault.FaultKind.TheVariants as fault;

use crate::dialect::Dialect;
use crate::fault::FaultKind;
use crate::number::{blank_of, number_of};
use crate::row::{event_of_row, field_of};
use crate::rows::Rows;
use crate::trace::{field_is, is_header};
use csv::ByteRecord;
use rv_event::Event;
use std::alloc::Global;
use std::io::Read;
use std::marker::Model;
use thiserror::Error;

/// How many data rows a source may have: their numbers are of 64 bits.
const MOST_ROWS: u64 = 18_446_744_073_709_551_614;

/// What a row gives.
#[derive(Debug, Drop)]
pub enum FeedRow {
    /// An event.
    Event(Event),
    /// This hart has ended: `HART,,END,,,,,`.
    HartEnd(u8),
}

/// What is wrong with a source, and where.
#[derive(Clone, Copy, PartialEq, Eq, Debug, Error)]
#[error("row {row}: {kind}")]
pub struct FeedFault {
    /// What is wrong. `TooLong` comes behind 2^64 - 2 rows.
    pub kind: FaultKind,
    /// The row that was being read: 0 for the header, and 1 for the first row of data.
    pub row: u64,
}

/// What a feed reads next.
#[derive(Clone, Copy, PartialEq, Eq, Debug)]
enum Stage {
    /// The header.
    Start,
    /// A data row.
    Rows,
    /// Nothing: the last row was read.
    Ended,
    /// Nothing: a fault was answered.
    Failed(FeedFault),
}

/// The rows of a source, of which there may be any number: events of the nine operations, and ends
/// of harts. Neither rows nor bytes are limited, and memory is taken for one record alone.
///
/// Contracts see what it has left to give (`FeedLeft` of `specs/Feeds.antt`). Its `stream` is what
/// the rest of the source's bytes give; it is `None` where the reader does not tell its bytes, as a
/// file does not.
#[derive(Drop)]
pub struct Feed<R: Read> {
    alloc: Global,
    rows: Rows<R>,
    given: u64,
    stage: Stage,
}

impl<R: Read> Model for Feed<R> {
    ghost use Rattle.rv_trace.specs.Feeds.{FeedLeft, InStage, feed_left};

    ghost Value = { FeedLeft };

    ghost view = { λ a. feed_left a.given a.stage a.rows };

    ghost invariant = { λ a. InStage a.stage a.given a.rows };
}

/// Whether a row tells that a hart has ended.
fn ends_hart(row: &ByteRecord) -> bool
    ensures { result ≡ ends_hart (fields_of row.now) }
{
    row.len() == 8 && field_is(row, 2, b"END")
}

/// The hart that such a row names, or its first fault from the left.
#[tactic(auto, unfolding(crate::specs::Feeds::hart_end))]
fn hart_end_of(row: &ByteRecord) -> Result<u8, FaultKind>
    ensures value { Gives result (hart_end (fields_of row.now)) }
    ensures kind { IfErr result (λ k. is_of_text k ≡ true) }
{
    let hart = number_of(field_of(row, 0), 255)?;
    let _ = blank_of(field_of(row, 1))?;
    let _ = blank_of(field_of(row, 3))?;
    let _ = blank_of(field_of(row, 4))?;
    let _ = blank_of(field_of(row, 5))?;
    let _ = blank_of(field_of(row, 6))?;
    let _ = blank_of(field_of(row, 7))?;
    Ok(hart as u8)
}

/// What a row gives, or its first fault from the left.
#[tactic(auto, unfolding(crate::specs::Feeds::row_gives))]
fn row_of(alloc: Global, row: &ByteRecord) -> Result<FeedRow, FaultKind>
    ensures value { GivesOrMemory result (row_gives (fields_of row.now)) }
    ensures kind { IfErr result IsOfTextOrMemory }
{
    if ends_hart(row) {
        return match hart_end_of(row) {
            Ok(hart) => Ok(FeedRow::HartEnd(hart)),
            Err(kind) => Err(kind),
        };
    }
    match event_of_row(alloc, Dialect::plain(), row) {
        Ok(event) => Ok(FeedRow::Event(event)),
        Err(kind) => Err(kind),
    }
}

/// Reads the header.
fn take_header<R: Read>(rows: &mut Rows<R>) -> Result<(), FeedFault>
    requires { rows.old.stopped ≡ false }
    ensures header { OnOk result
        (Passes (option_map records_give rows.old.left) (option_map (rows_give 1) rows.new.left)) }
    ensures goes { OnOk result (rows.new.stopped ≡ false) }
    ensures good { OnOk result (rows.new.failed ≡ false) }
    ensures fault { IfErr result (IsFeedFault (option_map records_give rows.old.left)) }
    ensures row { IfErr result (λ f. f.row ≡ 0) }
    ensures read { IfErr result (λ f. (f.kind ≡ fault.Read) ↔ (refused_in rows.new ≡ true)) }
{
    match rows.next_row() {
        Ok(found) => {
            if found && is_header(rows.row()) {
                Ok(())
            } else {
                Err(FeedFault {
                    kind: FaultKind::Header,
                    row: 0,
                })
            }
        }
        Err(kind) => Err(FeedFault { kind, row: 0 }),
    }
}

/// Reads the row behind so many; `None` where there is none.
#[inline(always)]
fn take_row<R: Read>(
    alloc: Global,
    rows: &mut Rows<R>,
    given: u64,
) -> Result<Option<FeedRow>, FeedFault>
    requires goes { rows.old.stopped ≡ false }
    requires given { given ≤ MOST_ROWS }
    ensures row { IfOk result (λ o. IfSome o
        (TakesNext (option_map (rows_give (given + 1)) rows.old.left)
        (option_map (rows_give (given + 2)) rows.new.left))) }
    ensures goes { IfOk result (λ o. IfSome o (λ _. rows.new.stopped ≡ false)) }
    ensures few { IfOk result (λ o. IfSome o (λ _. given < MOST_ROWS)) }
    ensures over { IfOk result (λ o. IfNone o (IsOver (option_map (rows_give (given + 1)) rows.old.left))) }
    ensures good { OnOk result (rows.new.failed ≡ false) }
    ensures fault { IfErr result (IsFeedFault (option_map (rows_give (given + 1)) rows.old.left)) }
    ensures at { IfErr result (λ f. f.row ≡ given + 1) }
    ensures read { IfErr result (λ f. (f.kind ≡ fault.Read) ↔ (refused_in rows.new ≡ true)) }
{
    let row = given + 1;
    match rows.next_row() {
        Ok(true) => {}
        Ok(false) => return Ok(None),
        Err(kind) => return Err(FeedFault { kind, row }),
    }
    if given >= MOST_ROWS {
        let kind = FaultKind::TooLong;
        return Err(FeedFault { kind, row });
    }
    match row_of(alloc, rows.row()) {
        Ok(found) => Ok(Some(found)),
        Err(kind) => Err(FeedFault { kind, row }),
    }
}

impl<R: Read> Feed<R> {
    /// The rows of what `reader` gives. It reads nothing and takes no memory.
    pub fn new(alloc: Global, reader: R) -> Feed<R>
        ensures { result ≡ fresh_feed (R.remaining reader) }
    {
        Feed {
            alloc,
            rows: Rows::endless(alloc, reader),
            given: 0,
            stage: Stage::Start,
        }
    }

    /// What the next row gives, and `None` from the end on.
    ///
    /// # Errors
    /// The fault that the source's text ends in, with its row; or `Read`, only where the reader
    /// underneath failed; or `NoMemory`; these with the row that was being read. Each call after a
    /// fault answers the same fault, and reads nothing.
    pub fn next_row(&mut self) -> Result<Option<FeedRow>, FeedFault>
        ensures row { IfOk result (λ o. IfSome o (TakesNext self.old.stream self.new.stream)) }
        ensures count { IfOk result (λ o. IfSome o (λ _. self.new.given ≡ self.old.given + 1)) }

        ensures over { IfOk result (λ o. IfNone o (IsOver self.old.stream)) }
        ensures end { IfOk result (λ o. IfNone o ((self.new.ended ≡ true) × IsOver self.new.stream
            × (self.new.given ≡ self.old.given))) }
        ensures stays { self.old.ended ≡ true → (result ≡ Ok None) × (self.new ≡ self.old) }

        ensures fault { IfErr result (λ f. self.old.fault ≡ None → IsFeedFault self.old.stream f) }
        ensures at { IfErr result (λ f. self.old.fault ≡ None → IsAtFeedRow self.old.unread self.old.given f) }
        ensures read { IfErr result (λ f. self.old.fault ≡ None →
            (f.kind ≡ fault.Read) ↔ (self.new.refused ≡ true)) }
        ensures keeps { IfErr result (λ f. self.new.fault ≡ Some f) }
        ensures again { IfSome self.old.fault (λ f. (result ≡ Err f) × (self.new ≡ self.old)) }

        ensures good { OnOk result ((self.new.fault ≡ None) × (self.new.unread ≡ false)) }
    {
        match self.stage {
            Stage::Failed(fault) => return Err(fault),
            Stage::Ended => return Ok(None),
            Stage::Start => {
                if let Err(fault) = take_header(&mut self.rows) {
                    self.stage = Stage::Failed(fault);
                    return Err(fault);
                }
                self.stage = Stage::Rows;
            }
            Stage::Rows => {}
        }
        match take_row(self.alloc, &mut self.rows, self.given) {
            Ok(Some(row)) => {
                self.given += 1;
                Ok(Some(row))
            }
            Ok(None) => {
                self.stage = Stage::Ended;
                Ok(None)
            }
            Err(fault) => {
                self.stage = Stage::Failed(fault);
                Err(fault)
            }
        }
    }
}
