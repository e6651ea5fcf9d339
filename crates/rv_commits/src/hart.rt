//! The rows that the instructions of a hart make.
ghost use Rattle.std.specs.Prelude.{◌≡◌, ◌≤◌, [], IfOk, OnErr, OnOk, length};
ghost use Rattle.rv_commits.specs.Rows.{IsRowOf};
ghost use Rattle.rv_flow.specs.Flows.{with_next};
ghost use Rattle.rv_flow.specs.Traces.{IsOneRowMore, IsStill, IsTraceOf};
ghost use Rattle.rv_flow.specs.declared.step.Step.{Step};
ghost use Rattle.rv_commits.specs.Harts.{AreOfBranch, IsAccessRow, IsBranchRow, IsFenceRow, IsRow};
ghost use Rattle.rv_commits.specs.Harts.{IsAdded, IsCarrierFields, IsTaken, gives_value, listed_by};

use crate::deps::{access_deps, deps_by};
use crate::made::{Made, made_by};
use rv_event::{DepKind, Deps, Event, Id, Op};
use rv_flow::{Carrier, HartTrace, Unlisted};
use rv_insn::Insn;
use rv_log::Retired;
use std::alloc::{AllocError, Global};

/// How many rows of a hart a trace has at most.
const MOST_ROWS: u32 = 4096;
/// What each row of a branch makes.
const BRANCH: Made = Made {
    op: Op::Branch,
    acquire: false,
    release: false,
};
/// What the row of a carrier makes.
const CARRIER: Made = Made {
    op: Op::Carrier,
    acquire: false,
    release: false,
};
/// How many rows a row lists at most.
const MOST_PARTS: usize = 8;

/// The rows of a hart. Contracts see the fields.
///
/// The carriers that a list takes are rows of their own, the next ones of the hart: `trace` has
/// them.
#[derive(Drop)]
pub struct HartRows {
    /// Where memory comes from.
    pub alloc: Global,
    /// The hart.
    pub hart: u8,
    /// The numbers of its rows, and what each lists.
    pub trace: HartTrace,
}

/// What an instruction adds to the rows of its hart, beside carriers.
#[derive(Drop)]
pub enum NewRows {
    /// Nothing.
    Nothing,
    /// The row of an access to memory or of a fence.
    One(Event),
    /// The rows of a branch.
    Branch(Vec<Event>),
}

/// Whether a later instruction may depend on the operation: it returns a value from memory, or a
/// success code.
fn gives_value(op: Op) -> bool
    ensures { result ≡ gives_value op }
{
    matches!(op, Op::Load | Op::Lr | Op::Sc | Op::Amo)
}

/// The row of this number, with the fields that are known. Its versions are not: they are 0.
fn row_of(hart: u8, seq: u32, made: Made, word: u32, deps: Deps) -> Event
    ensures fields { IsRow hart made word result seq }
    ensures deps { result.deps ≡ deps }
{
    Event {
        id: Id { hart, seq },
        op: made.op,
        word,
        read: 0,
        wrote: 0,
        acquire: made.acquire,
        release: made.release,
        deps,
    }
}

/// The row of a carrier of the hart.
///
/// # Errors
/// Memory ran out.
pub(crate) fn carrier_row(alloc: Global, hart: u8, carrier: &Carrier) -> Result<Event, AllocError>
    ensures id { IfOk result (λ row. row.id ≡ record { hart = hart; seq = carrier.now.number }) }
    ensures fields { IfOk result (IsCarrierFields hart carrier.now.number) }
    ensures row { IfOk result (IsRowOf carrier.now) }
{
    let deps = deps_by(alloc, DepKind::DataOf, &carrier.list.parts)?;
    Ok(row_of(hart, carrier.number, CARRIER, 0, deps))
}

impl HartRows {
    /// No rows of the hart. It takes no memory.
    pub fn new(alloc: Global, hart: u8) -> HartRows
        ensures hart { result.hart ≡ hart }
        ensures none { IsTraceOf [] result.trace }
        ensures rows { (result.trace.rows ≡ 0) × (result.trace.carriers ≡ []) }
    {
        HartRows {
            alloc,
            hart,
            trace: HartTrace::new(alloc),
        }
    }

    /// Takes the hart's next instruction, which makes this operation, and the number of its row.
    ///
    /// # Errors
    /// Memory ran out, or the hart has 4,096 rows. The instructions so far are those of before.
    fn take(&mut self, insn: Insn, op: Op) -> Result<u32, Unlisted>
        ensures hart { self.new.hart ≡ self.old.hart }
        ensures taken { IfOk result (IsTaken insn op self.old.trace self.new.trace) }
        ensures kept { OnErr result (IsStill self.old.trace self.new.trace) }
    {
        if gives_value(op) {
            return self.trace.push_event(insn);
        }
        if self.trace.next() >= MOST_ROWS {
            return Err(Unlisted::Full);
        }
        self.trace.push(insn)?;
        self.trace.number_row()
    }

    /// The row of the hart's next instruction, which is an access to this word. Its versions are
    /// not known yet: they are 0.
    ///
    /// # Errors
    /// Memory ran out, or the hart would have more than 4,096 rows. The instructions so far are
    /// those of before; carriers may have come.
    fn access_row(&mut self, insn: Insn, made: Made, word: u32) -> Result<Event, Unlisted>
        ensures hart { self.new.hart ≡ self.old.hart }
        ensures made { IfOk result
            (IsAccessRow self.old.hart insn made word self.old.trace self.new.trace) }
        ensures kept { OnErr result (IsStill self.old.trace self.new.trace) }
    {
        let lists = self.trace.lists(insn)?;
        let deps = access_deps(self.alloc, &lists)?;
        let seq = self.take(insn, made.op)?;
        Ok(row_of(self.hart, seq, made, word, deps))
    }

    /// The row of the hart's next instruction, which is a fence.
    ///
    /// # Errors
    /// Memory ran out, or the hart has 4,096 rows. The instructions so far are those of before.
    fn fence_row(&mut self, insn: Insn, made: Made) -> Result<Event, Unlisted>
        ensures hart { self.new.hart ≡ self.old.hart }
        ensures made { IfOk result
            (IsFenceRow self.old.hart insn made self.old.trace self.new.trace) }
        ensures kept { OnErr result (IsStill self.old.trace self.new.trace) }
    {
        let seq = self.take(insn, made.op)?;
        let deps = Deps::from_vec(Vec::new(self.alloc));
        Ok(row_of(self.hart, seq, made, 0, deps))
    }

    /// The next row of a branch, which lists these events.
    fn branch_row(&mut self, events: &[u32]) -> Result<Event, Unlisted>
        requires few { length events.now ≤ 8 }
        ensures hart { self.new.hart ≡ self.old.hart }
        ensures row { IfOk result (IsBranchRow self.old.hart self.old.trace.rows) }
        ensures lists { IfOk result (λ row. listed_by row ≡ events.now) }
        ensures one { OnOk result (IsOneRowMore self.old.trace self.new.trace) }
        ensures flow { self.new.trace.flow ≡ self.old.trace.flow }
        ensures still { IsStill self.old.trace self.new.trace }
    {
        let deps = deps_by(self.alloc, DepKind::Ctrl, events)?;
        let seq = self.trace.number_row()?;
        Ok(row_of(self.hart, seq, BRANCH, 0, deps))
    }

    /// The rows of the hart's next instruction, which is a branch: one for each eight events on
    /// which it depends, and no branch before it.
    ///
    /// # Errors
    /// Memory ran out, or the hart would have more than 4,096 rows. The instructions so far are
    /// those of before; numbers of rows may have been taken.
    fn branch_rows(&mut self, insn: Insn) -> Result<Vec<Event>, Unlisted>
        ensures hart { self.new.hart ≡ self.old.hart }
        ensures made { IfOk result (λ rows.
            AreOfBranch self.old.hart insn self.old.trace self.new.trace rows.items) }
        ensures kept { OnErr result (IsStill self.old.trace self.new.trace) }
    {
        let events = self.trace.branch(insn)?;
        let mut rows = Vec::new(self.alloc);
        let mut start = 0;
        'rows: while start < events.len() {
            let end = (start + MOST_PARTS).min(events.len());
            let row = self.branch_row(&events[start..end])?;
            rows.push(row)?;
            start = end;
        }
        self.trace.push(insn)?;
        Ok(rows)
    }

    /// What the hart's next instruction adds to its rows. If it is an access, it is one to this
    /// word.
    ///
    /// # Errors
    /// Memory ran out, or the hart would have more than 4,096 rows. The instructions so far are
    /// those of before; carriers may have come, and numbers of rows may have been taken.
    pub fn add(&mut self, instruction: &Retired, word: u32) -> Result<NewRows, Unlisted>
        ensures hart { self.new.hart ≡ self.old.hart }
        ensures added { IfOk result
            (IsAdded self.old.hart instruction.now word self.old.trace self.new.trace) }
        ensures kept { OnErr result (IsStill self.old.trace self.new.trace) }
    {
        let insn = instruction.insn;
        let Some(made) = made_by(instruction) else {
            self.trace.push(insn)?;
            return Ok(NewRows::Nothing);
        };
        match made.op {
            Op::Branch => Ok(NewRows::Branch(self.branch_rows(insn)?)),
            Op::Fence { .. } | Op::FenceTso => Ok(NewRows::One(self.fence_row(insn, made)?)),
            _ => Ok(NewRows::One(self.access_row(insn, made, word)?)),
        }
    }
}
