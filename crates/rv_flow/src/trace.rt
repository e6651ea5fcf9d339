//! The rows of a hart in a trace: their numbers, and what each lists.
ghost use Rattle.std.specs.Prelude.{ℕ, ◌≡◌, ◌≢◌, [], List, Contains, IfOk, None, OnErr, OnOk, Some};
ghost use Rattle.rv_rows.specs.Bits.{Has};

use crate::carrier::Carrier;
use crate::carriers::{Carriers, Lists, numbers_of};
use crate::flow::Flow;
use crate::step::Step;
use crate::unlisted::Unlisted;
use rv_insn::Insn;
use std::alloc::{AllocError, Global};
use std::marker::Model;

/// The rows of a hart in a trace, made from its instructions: the number of each, and the earlier
/// rows that it lists as its dependencies.
///
/// A row lists at most eight others. Where an instruction depends on more events, rows that only
/// list others come before its row, and it lists these: the carriers. Behind each list are just the
/// events on which the instruction depends (manual, section 14.1, "Syntactic Dependencies").
///
/// For each instruction of the hart, in program order: ask for its [`lists`](HartTrace::lists),
/// or, if it is a branch, for its [`branch`](HartTrace::branch) events; write the carriers that are
/// new, and its row; then [`push`](HartTrace::push) it, or
/// [`push_event`](HartTrace::push_event) if a memory operation of its returned a value.
#[derive(Drop)]
pub struct HartTrace {
    alloc: Global,
    flow: Flow,
    carriers: Carriers,
}

impl Model for HartTrace {
    ghost use Rattle.std.specs.Prelude.{List};
    ghost use Rattle.rv_flow.specs.Traces.{IsTraceOf, Traced};
    ghost use Rattle.rv_flow.specs.declared.step.Step.{Step};

    ghost Value = { Traced };

    ghost view = { λ t. record { flow = t.flow; carriers = t.carriers.all.items; rows = t.carriers.next } };

    ghost invariant = { λ t. (steps : List Step) ×
        IsTraceOf steps (record { flow = t.flow; carriers = t.carriers.all.items; rows = t.carriers.next }) };
}

impl HartTrace {
    ghost use Rattle.rv_flow.specs.Carriers.{AreNextRows, IsGrown};
    ghost use Rattle.rv_flow.specs.Flows.{IsSame, with_next};
    ghost use Rattle.rv_flow.specs.Traces.{AddsControl, IsOneRowMore, IsStill, IsTraceOf, ListsNext};

    /// Before any instruction. It takes no memory.
    pub fn new(alloc: Global) -> HartTrace
        ensures trace { IsTraceOf [] result }
        ensures none { (result.rows ≡ 0) × (result.carriers ≡ []) }
    {
        HartTrace {
            alloc,
            flow: Flow::new(alloc),
            carriers: Carriers::new(alloc),
        }
    }

    /// The number of the hart's next row, 0 to 4,096: how many rows there are.
    pub fn next(&self) -> u32
        ensures { result ≡ self.now.rows }
    {
        self.carriers.next
    }

    /// The carriers among the rows, in the order of their numbers.
    pub fn carriers(&self) -> &[Carrier]
        ensures { result.now ≡ self.now.carriers }
    {
        &self.carriers.all
    }

    /// What the row of the hart's next instruction lists: at most eight rows for its address and
    /// its data together. The carriers that this takes are the hart's next rows.
    ///
    /// # Errors
    ///
    /// Memory ran out, or the hart would have more than 4,096 rows. Nothing changes.
    pub fn lists(&mut self, insn: Insn) -> Result<Lists, Unlisted>
        ensures kept { OnErr result (self.new ≡ self.old) }
        ensures grown { IsGrown self.old.carriers self.old.rows self.new.carriers self.new.rows }
        ensures numbered { AreNextRows self.old.carriers self.old.rows self.new.carriers self.new.rows }
        ensures still { IsStill self.old self.new }
        ensures lists { IfOk result (ListsNext self.old insn self.new) }
    {
        let address = self.flow.address(insn);
        let value = self.flow.data(insn);
        self.carriers.lists(address, value)
    }

    /// The events on which the hart's next instruction depends, if it is a branch, and no branch
    /// before it: what its rows list, up to eight each. Where there are none it needs no row.
    ///
    /// # Errors
    ///
    /// Memory ran out.
    pub fn branch(&self, insn: Insn) -> Result<Vec<u32>, AllocError>
        ensures once { IfOk result (λ events. (n : ℕ) → Contains events.items n →
            Has self.now.flow.tested n → ⊥) }
        ensures control { IfOk result (λ events. AddsControl self.now insn events.items) }
    {
        let mut row = self.flow.tested_by(insn);
        row.subtract(&self.flow.tested);
        numbers_of(self.alloc, &row)
    }

    /// Takes the number of a row that returned no value from memory: of a store, a fence, a branch,
    /// or an SC that failed.
    ///
    /// # Errors
    ///
    /// `Full`: the hart has 4,096 rows. Nothing changes.
    pub fn number_row(&mut self) -> Result<u32, Unlisted>
        ensures full { OnErr result ((self.new ≡ self.old) × (self.old.rows ≡ 4096)) }
        ensures flow { self.new.flow ≡ self.old.flow }
        ensures numbered { IfOk result (λ n. (n ≡ self.old.rows) × IsOneRowMore self.old self.new) }
        ensures still { IsStill self.old self.new }
    {
        self.carriers.number_row()
    }

    /// Takes the hart's next instruction, which returned no value from memory.
    ///
    /// # Errors
    ///
    /// Memory ran out. Each register holds what it held.
    pub fn push(&mut self, insn: Insn) -> Result<(), AllocError>
        ensures rows { (self.new.carriers ≡ self.old.carriers) × (self.new.rows ≡ self.old.rows) }
        ensures kept { OnErr result (IsSame self.old.flow self.new.flow) }
        ensures taken { (steps : List Step) → IsTraceOf steps self.old →
            OnOk result (IsTraceOf (with_next steps (record { insn = insn; event = None })) self.new) }
    {
        self.flow.push(Step { insn, event: None })
    }

    /// Takes the hart's next instruction, which returned a value from memory, and the number of its
    /// row.
    ///
    /// # Errors
    ///
    /// Memory ran out, or the hart has 4,096 rows. Each register holds what it held, and the number
    /// is not taken.
    pub fn push_event(&mut self, insn: Insn) -> Result<u32, Unlisted>
        ensures kept { OnErr result (IsSame self.old.flow self.new.flow) }
        ensures rows { OnErr result ((self.new.carriers ≡ self.old.carriers) × (self.new.rows ≡ self.old.rows)) }
        ensures numbered { IfOk result (λ n. (n ≡ self.old.rows) × IsOneRowMore self.old self.new) }
        ensures taken { (steps : List Step) → IsTraceOf steps self.old → IfOk result (λ n.
            IsTraceOf (with_next steps (record { insn = insn; event = Some n })) self.new) }
    {
        let number = self.carriers.number_row()?;
        let event = Some(number);
        match self.flow.push(Step { insn, event }) {
            Ok(()) => Ok(number),
            Err(_) => {
                self.carriers.next = number;
                Err(Unlisted::NoMemory)
            }
        }
    }
}
