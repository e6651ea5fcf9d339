//! The records of a reader, one at a time. The only module that knows the CSV reader.
ghost use Rattle.std.specs.Prelude.{◌≡◌, true, false, IfOk, IfErr, OnOk, OnErr, option_map};
ghost use Rattle.rv_trace.specs.Counted.{bytes_left, has_ended, last_refused};
ghost use Rattle.rv_trace.specs.Faults.{read_fault};
ghost use Rattle.rv_trace.specs.Rows.{TakesRow, NoRow};
ghost use Rattle.rv_trace.specs.Source.{text_records};

use crate::counted::Counted;
use crate::fault::FaultKind;
use csv::{ByteRecord, Reader, ReaderBuilder};
use std::alloc::Global;
use std::io::Read;
use std::marker::Model;

/// The records of a reader. After the last one, and after a failure, it has stopped.
#[derive(Drop)]
pub struct Rows<R: Read> {
    reader: Reader<Counted<R>>,
    row: ByteRecord,
    stopped: bool,
}

impl<R: Read> Model for Rows<R> {
    ghost use Rattle.rv_trace.specs.Rows.{RowsLeft, rows_left, IsPlain};
    ghost use Rattle.csv.specs.Reading.{has_failed, source_of, reader_source, reader_state};
    ghost use Rattle.rv_trace.specs.Counted.{last_refused, bytes_left};
    ghost use Rattle.std.specs.Prelude.{◌≡◌, false};

    ghost Value = { RowsLeft };

    ghost view = { λ a. rows_left
        a.stopped
        (has_failed a.reader)
        (last_refused (reader_source a.reader))
        (reader_state a.reader)
        (source_of (bytes_left R.remaining) a.reader)
        a.row };

    ghost invariant = { λ a. a.stopped ≡ false → IsPlain a.reader };
}

impl<R: Read> Rows<R> {
    /// The records of `reader`, of which nothing is read yet, and at most 64 MiB are to be. It takes
    /// no memory.
    pub fn new(alloc: Global, reader: R) -> Rows<R>
        ensures left { result.left ≡ option_map text_records (R.remaining reader) }
        ensures stopped { result.stopped ≡ false }
        ensures failed { result.failed ≡ false }
        ensures refused { result.refused ≡ false }
    {
        Rows::of_counted(alloc, Counted::new(reader))
    }

    /// The same, where any number of bytes may be read.
    pub fn endless(alloc: Global, reader: R) -> Rows<R>
        ensures left { result.left ≡ option_map text_records (R.remaining reader) }
        ensures stopped { result.stopped ≡ false }
        ensures failed { result.failed ≡ false }
        ensures refused { result.refused ≡ false }
    {
        Rows::of_counted(alloc, Counted::endless(reader))
    }

    /// The records of a reader that counts, of which nothing is read yet.
    fn of_counted(alloc: Global, reader: Counted<R>) -> Rows<R>
        requires ended { has_ended reader ≡ false }
        requires unrefused { last_refused reader ≡ false }
        ensures left { result.left ≡ option_map text_records (bytes_left R.remaining reader) }
        ensures stopped { result.stopped ≡ false }
        ensures failed { result.failed ≡ false }
        ensures refused { result.refused ≡ false }
    {
        Rows {
            reader: ReaderBuilder::new()
                .has_headers(false)
                .flexible(true)
                .from_reader(alloc, reader),
            row: ByteRecord::new(alloc),
            stopped: false,
        }
    }

    /// Reads the next record. `false` where there is none.
    ///
    /// # Errors
    /// `Read` where the reader underneath refused its last read, else `NoMemory`. Either way the
    /// CSV reader has failed in this call, and no record comes after it.
    pub fn next_row(&mut self) -> Result<bool, FaultKind>
        requires { self.old.stopped ≡ false }
        ensures found { IfOk result
            (λ found. found ≡ true → TakesRow self.old.left self.new.left self.new.row) }
        ensures end { IfOk result (λ found. found ≡ false → NoRow self.old.left) }
        ensures goes { IfOk result (λ found. found ≡ true → self.new.stopped ≡ false) }
        ensures fault { IfErr result (λ k. k ≡ read_fault self.new.refused) }
        ensures fails { OnErr result ((self.old.failed ≡ false) × (self.new.failed ≡ true)) }
        ensures good { OnOk result (self.new.failed ≡ false) }
    {
        match self.reader.read_byte_record(&mut self.row) {
            Ok(found) => {
                self.stopped = !found;
                Ok(found)
            }
            Err(_) => {
                self.stopped = true;
                if self.reader.get_ref().last_refused() {
                    Err(FaultKind::Read)
                } else {
                    Err(FaultKind::NoMemory)
                }
            }
        }
    }

    /// The record that was read last.
    pub fn row(&self) -> &ByteRecord
        ensures { result.now ≡ self.now.row }
    {
        &self.row
    }
}
