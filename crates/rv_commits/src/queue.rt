//! The rows of a hart that wait, in their order.
ghost use Rattle.std.specs.Prelude.{◌≡◌, ◌<◌, ◌++◌, [], IfErr, IfOk, IfSome, List, None, Ok};
ghost use Rattle.std.specs.Prelude.{OnErr, OnOk, map};
ghost use Rattle.rv_log.specs.declared.record.Performed.{Performed};
ghost use Rattle.rv_log.specs.declared.record.Retired.{Retired};
ghost use Rattle.rv_flow.specs.Traces.{IsTraceOf};
ghost use Rattle.rv_values.specs.Memory.{IsMemory};
ghost use Rattle.rv_values.specs.Values.{MayGrow};
ghost use Rattle.rv_values.specs.declared.issues.Issued.{Issued};
ghost use Rattle.rv_commits.specs.Owns.{AreOwns};
ghost use Rattle.rv_commits.specs.Queues.{HasNumbers, IsAtRest, IsFirst, IsFront, IsGiven};
ghost use Rattle.rv_commits.specs.Queues.{IsFrontRefused, IsNextCarrier, IsRetired, IsRowRefused};
ghost use Rattle.rv_commits.specs.Queues.{first_log_row, pending, pendings};
ghost use Rattle.rv_commits.specs.Settled.{IsAtStage, is_ended};

use crate::hart::{HartRows, NewRows, carrier_row};
use crate::owns::Owns;
use crate::pending::{Pending, Stage, ValueFault, Waiting, waiting_by};
use rv_event::Event;
use rv_flow::Unlisted;
use rv_log::Retired;
use rv_values::Memory;
use std::alloc::{AllocError, Global};
use std::collections::VecDeque;

/// A hart whose rows wait for their versions. Contracts see the fields.
#[derive(Drop)]
pub struct WaitingHart {
    /// Its rows.
    pub rows: HartRows,
    /// Its last store to each word.
    pub owns: Owns,
    /// The rows that wait, in their order; carriers are not among them.
    pub queue: VecDeque<Pending>,
    /// How many of its rows were given: the number of the next one.
    pub given: u32,
    /// How many of its carriers were given.
    pub carriers: usize,
}

/// Why a hart's next row is not given.
#[derive(Clone, Copy, PartialEq, Eq, Debug)]
pub enum RowFault {
    /// The value that it returned tells no version.
    Value(ValueFault),
    /// Memory ran out.
    NoMemory,
}

/// Adds the rows of a branch.
fn push_all(
    queue: &mut VecDeque<Pending>,
    rows: Vec<Event>,
    waiting: Waiting,
) -> Result<(), AllocError>
    ensures { OnOk result (queue.new.items ≡ queue.old.items ++ map (pending waiting) rows.items) }
{
    'rows: for row in rows {
        queue.push_back(Pending { row, waiting })?;
    }
    Ok(())
}

/// Adds the rows that an instruction added to its hart's.
fn push(queue: &mut VecDeque<Pending>, added: NewRows, waiting: Waiting) -> Result<(), AllocError>
    ensures { OnOk result (queue.new.items ≡ queue.old.items ++ pendings added waiting) }
{
    match added {
        NewRows::Nothing => Ok(()),
        NewRows::One(row) => {
            queue.push_back(Pending { row, waiting })?;
            Ok(())
        }
        NewRows::Branch(rows) => push_all(queue, rows, waiting),
    }
}

impl WaitingHart {
    /// No rows of the hart. It takes no memory.
    pub fn new(alloc: Global, hart: u8) -> WaitingHart
        ensures hart { result.rows.hart ≡ hart }
        ensures none { IsTraceOf [] result.rows.trace }
        ensures owns { AreOwns [] result.owns }
        ensures empty { result.queue.items ≡ [] }
        ensures given { result.given ≡ 0 }
        ensures numbers { HasNumbers result }
    {
        let rows = HartRows::new(alloc, hart);
        let given = rows.trace.next();
        let carriers = rows.trace.carriers().len();
        WaitingHart {
            rows,
            owns: Owns::new(alloc),
            queue: VecDeque::new(alloc),
            given,
            carriers,
        }
    }

    /// The row of the log that the first row that waits is of; `None` where no row waits.
    pub fn first_log_row(&self) -> Option<u64>
        ensures { result ≡ first_log_row self.now.queue.items }
    {
        let first = self.queue.front()?;
        Some(first.waiting.log_row)
    }

    /// Takes the hart's next instruction, of this row in the log: its rows wait behind the others.
    /// If it is an access, it is one to this word.
    ///
    /// # Errors
    /// Memory ran out, or the hart would have more than 4,096 rows. The hart is of no more use.
    pub fn retire(&mut self, instruction: &Retired, word: u32, log_row: u64) -> Result<(), Unlisted>
        requires numbers { HasNumbers self.old }
        ensures hart { self.new.rows.hart ≡ self.old.rows.hart }
        ensures given { self.new.given ≡ self.old.given }
        ensures retired { (done : List Retired) → AreOwns done self.old.owns
            → OnOk result (IsRetired done instruction.now word log_row self.old self.new) }
        ensures numbers { OnOk result (HasNumbers self.new) }
    {
        let own = self.owns.last(instruction.address);
        let added = self.rows.add(instruction, word)?;
        push(
            &mut self.queue,
            added,
            waiting_by(instruction, own, log_row),
        )?;
        self.owns.add(instruction)?;
        Ok(())
    }

    /// The first of the rows that wait, once its versions are known; it waits no more. `None` where
    /// no row waits, or the first still does.
    ///
    /// # Errors
    /// The value that it returned tells no version. All stays as it is.
    fn settled(
        &mut self,
        memory: &Memory,
        initial: Option<u64>,
        stage: &Stage,
    ) -> Result<Option<Event>, ValueFault>
        ensures rows { self.new.rows ≡ self.old.rows }
        ensures owns { self.new.owns ≡ self.old.owns }
        ensures given { (self.new.given ≡ self.old.given) × (self.new.carriers ≡ self.old.carriers) }
        ensures taken { IfOk result
            (λ found. IfSome found (IsFront self.old.queue.items self.new.queue.items)) }
        ensures still { result ≡ Ok None → self.new.queue.items ≡ self.old.queue.items }
        ensures first { (issued more : List Issued) (performed later : List Performed)
            → IsMemory issued performed memory.now → MayGrow issued more performed later
            → IsAtStage issued more performed later stage.now
            → IfOk result (λ found. IfSome found (IsFirst (issued ++ more) (performed ++ later) initial
            self.old.queue.items self.new.queue.items)) }
        ensures waits { (issued : List Issued) (performed : List Performed)
            → IsMemory issued performed memory.now → IsAtStage issued [] performed [] stage.now
            → result ≡ Ok None → IsAtRest issued performed initial (is_ended stage.now)
            self.old.queue.items }
        ensures refused { (issued : List Issued) (performed : List Performed)
            → IsMemory issued performed memory.now → IsAtStage issued [] performed [] stage.now
            → IfErr result (IsFrontRefused issued performed initial self.old.queue.items) }
        ensures kept { OnErr result (self.new.queue.items ≡ self.old.queue.items) }
    {
        let Some(front) = self.queue.front_mut() else {
            return Ok(None);
        };
        match front.settle(memory, initial, stage) {
            Ok(true) => {}
            Ok(false) => return Ok(None),
            Err(fault) => return Err(fault),
        }
        match self.queue.pop_front() {
            Some(settled) => Ok(Some(settled.row)),
            None => Ok(None),
        }
    }

    /// The hart's next row, if that is a carrier's.
    fn next_carrier(&self) -> Result<Option<Event>, AllocError>
        ensures next { IfOk result (IsNextCarrier self.now) }
        ensures bound { IfOk result (λ found. IfSome found (λ _. self.now.carriers < 18446744073709551615)) }
    {
        let (alloc, hart) = (self.rows.alloc, self.rows.hart);
        match self.rows.trace.carriers().get(self.carriers) {
            Some(carrier) if carrier.number == self.given => {
                Ok(Some(carrier_row(alloc, hart, carrier)?))
            }
            _ => Ok(None),
        }
    }

    /// The hart's next row, once its versions are known: rows come in the order of their numbers,
    /// carriers among them. `None` where there is no row, or it waits. `initial` is what memory
    /// holds at first, where that is known.
    ///
    /// # Errors
    /// The value that the row returned tells no version, or memory ran out. All stays as it is.
    pub fn next_row(
        &mut self,
        memory: &Memory,
        initial: Option<u64>,
        stage: &Stage,
    ) -> Result<Option<Event>, RowFault>
        requires numbers { HasNumbers self.old }
        ensures rows { self.new.rows ≡ self.old.rows }
        ensures owns { self.new.owns ≡ self.old.owns }
        ensures given { (issued more : List Issued) (performed later : List Performed)
            → IsMemory issued performed memory.now → MayGrow issued more performed later
            → IsAtStage issued more performed later stage.now
            → IfOk result (λ found. IfSome found (IsGiven (issued ++ more) (performed ++ later) initial
            self.old self.new)) }
        ensures waits { (issued : List Issued) (performed : List Performed)
            → IsMemory issued performed memory.now → IsAtStage issued [] performed [] stage.now
            → result ≡ Ok None → IsAtRest issued performed initial (is_ended stage.now)
            self.old.queue.items × (self.new.queue.items ≡ self.old.queue.items) }
        ensures number { IfOk result (λ found. IfSome found (λ row.
            row.id ≡ record { hart = self.old.rows.hart; seq = self.old.given })) }
        ensures numbers { HasNumbers self.new }
        ensures refused { (issued : List Issued) (performed : List Performed)
            → IsMemory issued performed memory.now → IsAtStage issued [] performed [] stage.now
            → IfErr result (IsRowRefused issued performed initial self.old.queue.items) }
        ensures kept { OnErr result ((self.new.queue.items ≡ self.old.queue.items)
            × (self.new.given ≡ self.old.given) × (self.new.carriers ≡ self.old.carriers)) }
    {
        let carrier = match self.next_carrier() {
            Ok(carrier) => carrier,
            Err(AllocError) => return Err(RowFault::NoMemory),
        };
        if let Some(row) = carrier {
            self.carriers += 1;
            self.given += 1;
            return Ok(Some(row));
        }
        let settled = match self.settled(memory, initial, stage) {
            Ok(settled) => settled,
            Err(fault) => return Err(RowFault::Value(fault)),
        };
        let Some(row) = settled else {
            return Ok(None);
        };
        self.given += 1;
        Ok(Some(row))
    }
}
