//! The rows of a log, record by record.

use crate::fault::{Fault, Stop, Told};
use crate::initial::{Initial, Returned};
use crate::places::Place;
use crate::request::Request;
use crate::sink::Sink;
use csv::ByteRecord;
use rv_commits::{Awaited, Pending, Stage, WaitingHart, versions_of};
use rv_log::{Performed, Record, Retired, record_of};
use rv_logrows::{LogRows, StoreId};
use rv_values::Index;
use std::alloc::{AllocError, Global};
use std::marker::Model;

/// How many harts a log has.
const HARTS: u8 = 16;

/// How many rows a hart has at most.
const MOST_ROWS: u32 = 4096;

/// A log that is translated. Contracts see whether its end was read.
#[derive(Drop)]
pub(crate) struct Translation<S: Sink + Drop> {
    alloc: Global,
    sink: S,
    request: Request,
    log: LogRows,
    initial: Initial,
    /// The time of the last store that took effect.
    time: u64,
    /// How many records were left out, as their addresses are not of the range.
    left_out: u64,
    /// Whether the header of the file at hand was read.
    begun: bool,
    /// Whether the end was read.
    ended: bool,
}

impl<S: Sink + Drop> Model for Translation<S> {
    ghost use Rattle.std.specs.Prelude.{Bool};
    ghost use Rattle.rv_logrows.specs.Harts.{AreHarts};

    ghost Value = { Bool };

    ghost view = { λ t. t.ended };

    ghost invariant = { λ t. AreHarts 16 t.log.harts.all.items };
}

/// Whether a record is the header of a log.
fn is_header(record: &ByteRecord) -> bool {
    let names: [&[u8]; 9] = [
        b"kind", b"hart", b"order", b"pc", b"insn", b"addr", b"rdata", b"wdata", b"time",
    ];
    record.len() == names.len()
        && names
            .iter()
            .enumerate()
            .all(|(i, name)| record.get(i) == Some(*name))
}

impl<S: Sink + Drop> Translation<S> {
    /// No records.
    pub(crate) fn new(
        alloc: Global,
        sink: S,
        request: Request,
    ) -> Result<Translation<S>, AllocError> {
        Ok(Translation {
            alloc,
            sink,
            request,
            log: LogRows::new(alloc)?,
            initial: Initial::new(alloc, request.zero),
            time: 0,
            left_out: 0,
            begun: false,
            ended: false,
        })
    }

    /// The next file begins. It has a header of its own.
    pub(crate) fn begin_file(&mut self) {
        self.begun = false;
    }

    /// A hart of the log.
    fn hart(&self, hart: u8) -> Option<&WaitingHart> {
        self.log.harts.all.get(hart as usize)
    }

    /// The row of the log that a hart's first row that waits is of; that of the last record where
    /// none waits.
    fn waiting_row(&self, hart: u8) -> u64 {
        match self.hart(hart) {
            Some(hart) => hart.first_log_row().unwrap_or(self.log.before.records),
            None => self.log.before.records,
        }
    }

    /// What a hart's first row that waits returned.
    fn returned(&self, hart: u8) -> Option<Returned> {
        let first = self.hart(hart)?.queue.front()?;
        Some(Returned::of(first))
    }

    /// What the time of a hart's first row that waits tells that it returned.
    fn told(&self, hart: u8) -> Told {
        let Some(first) = self.hart(hart).and_then(|hart| hart.queue.front()) else {
            return Told::Nothing;
        };
        let stores = &self.log.memory.stores;
        let Some(versions) = versions_of(stores, hart, &first.waiting.awaited, true) else {
            return Told::Nothing;
        };
        if versions.read == 0 {
            return Told::Initial;
        }
        match stores.store(first.waiting.address, versions.read) {
            Some(Performed { hart, order, .. }) => Told::Store(StoreId { hart, order }),
            None => Told::Nothing,
        }
    }

    /// The row of the log that a store which waits for its effect is of.
    fn row_of(&self, store: StoreId) -> u64 {
        let last = self.log.before.records;
        let Some(hart) = self.hart(store.hart) else {
            return last;
        };
        let is_of = |pending: &&Pending| match pending.waiting.awaited {
            Awaited::Store(order) | Awaited::Amo(order) => order == store.order,
            _ => false,
        };
        match hart.queue.iter().find(is_of) {
            Some(pending) => pending.waiting.log_row,
            None => last,
        }
    }

    /// Gives on a hart's next row, if it is known.
    fn give_row(&mut self, hart: u8, stage: &Stage) -> Result<bool, Stop> {
        let returned = self.returned(hart);
        let initial = self.initial.of(returned);
        match self.log.next_row(hart, initial, stage) {
            Ok(Some(row)) => {
                if let Some(returned) = returned {
                    self.initial.note(returned, &row)?;
                }
                if let Err(stop) = self.sink.take(row) {
                    return Err(stop);
                }
                Ok(true)
            }
            Ok(None) => Ok(false),
            Err(fault) => {
                let told = self.told(hart);
                Err(Stop::of_row(self.waiting_row(hart), fault, told))
            }
        }
    }

    /// Gives on the rows of a hart that are known.
    fn give_rows(&mut self, hart: u8, stage: &Stage) -> Result<(), Stop> {
        'rows: for _ in 0..MOST_ROWS {
            match self.give_row(hart, stage) {
                Ok(true) => {}
                Ok(false) => return Ok(()),
                Err(stop) => return Err(stop),
            }
        }
        Ok(())
    }

    /// Gives on the rows of all harts that are known.
    fn give_all(&mut self, stage: &Stage) -> Result<(), Stop> {
        'harts: for hart in 0..HARTS {
            if let Err(stop) = self.give_rows(hart, stage) {
                return Err(stop);
            }
        }
        Ok(())
    }

    /// Takes an instruction, of this row of the log. An access that is left out makes no row, and
    /// nothing depends on it.
    fn retire(mut self, mut instruction: Retired, row: u64) -> Result<Translation<S>, Stop> {
        if instruction.access.is_some() && !self.request.has(instruction.address) {
            instruction.access = None;
            self.left_out = self.left_out.saturating_add(1);
        }
        if let Err(fault) = self.log.retire(&instruction) {
            return Err(Stop::of_log(row, fault));
        }
        let hart = instruction.hart;
        let rows = match self.hart(hart) {
            Some(hart) => hart.rows.trace.next(),
            None => 0,
        };
        if let Err(stop) = self.sink.note(hart, rows, Place::of(&instruction)) {
            return Err(stop);
        }
        if let Err(stop) = self.give_rows(hart, &Stage::Reading) {
            return Err(stop);
        }
        Ok(self)
    }

    /// Takes a store that took effect, of this row of the log.
    fn perform(&mut self, store: Performed, row: u64) -> Result<(), Stop> {
        if !self.request.has(store.address) {
            self.left_out = self.left_out.saturating_add(1);
            self.log.before.records = row;
            return Ok(());
        }
        if let Err(fault) = self.log.perform(&store) {
            return Err(Stop::of_log(row, fault));
        }
        self.time = store.time;
        self.give_all(&Stage::Reading)
    }

    /// Takes a record, and gives on the rows that it makes known.
    pub(crate) fn take(mut self, record: &ByteRecord) -> Result<Translation<S>, Stop> {
        if !self.begun {
            self.begun = true;
            return if is_header(record) {
                Ok(self)
            } else {
                Err(Stop::Fault(self.log.before.records, Fault::Header))
            };
        }
        let row = self.log.before.records.saturating_add(1);
        if self.ended {
            return Err(Stop::Fault(row, Fault::AfterEnd));
        }
        let mut translation = match record_of(self.request.width, &self.log.before, record) {
            Ok(Record::Retired(instruction)) => match self.retire(instruction, row) {
                Ok(translation) => translation,
                Err(stop) => return Err(stop),
            },
            Ok(Record::Performed(store)) => {
                if let Err(stop) = self.perform(store, row) {
                    return Err(stop);
                }
                self
            }
            Ok(Record::End) => {
                self.ended = true;
                self
            }
            Err(fault) => return Err(Stop::Fault(row, Fault::Record(fault))),
        };
        if let Err(stop) = translation.sink.pause() {
            return Err(stop);
        }
        Ok(translation)
    }

    /// The stores that have not taken effect, in the order of their records.
    fn waiting_stores(&self) -> Result<Vec<Performed>, AllocError> {
        let mut stores = Vec::new(self.alloc);
        'issues: for issued in self.log.memory.issues.all() {
            let (hart, order) = (issued.hart, issued.order);
            if self.log.memory.stores.effect_of(hart, order).is_none() {
                stores.push(Performed {
                    hart,
                    order,
                    address: issued.word.address,
                    wdata: issued.wdata,
                    time: 0,
                })?;
            }
        }
        Ok(stores)
    }

    /// Lets the stores that wait take effect, one after the other.
    fn drain(&mut self) -> Result<(), Stop> {
        let row = self.log.before.records;
        'stores: for mut store in self.waiting_stores()? {
            self.time = self.time.saturating_add(1);
            store.time = self.time;
            if let Err(fault) = self.log.perform(&store) {
                return Err(Stop::of_log(row, fault));
            }
        }
        Ok(())
    }

    /// Gives on the rows that the end of the log makes known. It answers where they went, and how
    /// many records were left out.
    pub(crate) fn finish(mut self) -> Result<(S, u64), Stop> {
        let row = self.log.before.records;
        if !self.begun {
            return Err(Stop::Fault(row, Fault::Header));
        }
        if self.request.complete && !self.ended {
            return Err(Stop::Fault(row.saturating_add(1), Fault::NoEnd));
        }
        if let Some(store) = self.log.unretired() {
            return Err(Stop::Fault(row, Fault::NoInstruction(store)));
        }
        if self.request.pending {
            if let Err(stop) = self.drain() {
                return Err(stop);
            }
        }
        if let Some(store) = self.log.unperformed() {
            return Err(Stop::Fault(self.row_of(store), Fault::NeverPerformed(store)));
        }
        let stage = Stage::Ended(Index::new(self.alloc, &self.log.memory)?);
        if let Err(stop) = self.give_all(&stage) {
            return Err(stop);
        }
        if let Err(stop) = self.sink.pause() {
            return Err(stop);
        }
        Ok((self.sink, self.left_out))
    }
}
