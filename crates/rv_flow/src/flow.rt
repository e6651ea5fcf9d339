//! What each unit of a hart holds, by the events from which it was computed, and what depends on
//! them.
ghost use Rattle.std.specs.Prelude.{ℕ, ◌≡◌, ◌<◌, ◌+◌, ◌↔◌, ◌⊎◌, [], List, Option, None, IsTrue, length};
ghost use Rattle.std.specs.Prelude.{Some, ◌≢◌, IfSome, MatchOption, OnErr, OnOk, false, slice_get};
ghost use Rattle.std.specs.List.{AllPairs};
ghost use Rattle.rv_insn.specs.Roles.{destinations, is_branch};
ghost use Rattle.rv_rows.specs.Bits.{Has, has_bit};

use crate::step::Step;
use rv_insn::{
    Flag, Insn, Unit, address_source, carried_to, data_source, destinations, is_branch, sources,
};
use rv_rows::Row;
use std::alloc::{AllocError, Global};

/// What the units of a hart hold, after so many of its instructions: of each unit the events from
/// which its value was computed (manual, section 14.1, "Syntactic Dependencies"). What the sources
/// of the next instruction hold are the events on which it depends.
///
/// It keeps one row of bits for each unit that was written, and one for the branches so far, so
/// that a hart's flow is as large as the registers that it uses, however long it runs. What a unit
/// holds is lent as it stands; a row is made only of what an instruction writes. Contracts see the
/// fields.
#[derive(Drop)]
pub struct Flow {
    alloc: Global,
    /// The units that were written.
    pub units: Vec<Unit>,
    /// Of each the events, at its place.
    pub rows: Vec<Row>,
    /// The events on which a branch so far depends.
    pub tested: Row,
    /// What a unit holds that was not written: nothing.
    nothing: Row,
    /// Where units are looked for first; a hint may be wrong.
    hints: [u8; 71],
    ghost same: { length units.items ≡ length rows.items },
    ghost distinct: { AllPairs (λ u v. u ≢ v) units.items },
    ghost empty: { (n : ℕ) → has_bit nothing n ≡ false },
}

/// Which hint is the unit's: each has one of its own, but CSRs that are tracked as a whole share
/// one.
fn hint_of(unit: Unit) -> usize
    ensures { result < 71 }
{
    match unit {
        Unit::X(number) => (number % 32) as usize,
        Unit::F(number) => 32 + (number % 32) as usize,
        Unit::Accrued(Flag::Nx) => 64,
        Unit::Accrued(Flag::Uf) => 65,
        Unit::Accrued(Flag::Of) => 66,
        Unit::Accrued(Flag::Dz) => 67,
        Unit::Accrued(Flag::Nv) => 68,
        Unit::Frm => 69,
        Unit::Csr(_) => 70,
    }
}

impl Flow {
    ghost use Rattle.rv_flow.specs.Dependencies.{HasAddress, HasControl, HasData, IsSource};
    ghost use Rattle.rv_flow.specs.Flows.{HasRoom, Holds, IsAfter, IsAfterOthers, IsFlowOf, OfNext};
    ghost use Rattle.rv_flow.specs.Flows.{IsNextSet, IsPlace, IsSame, IsSet, Lacks, Next, Tests};
    ghost use Rattle.rv_flow.specs.Flows.{with_next};

    /// Before any instruction. It takes no memory.
    pub fn new(alloc: Global) -> Flow
        ensures { IsFlowOf [] result }
    {
        Flow {
            alloc,
            units: Vec::new(alloc),
            rows: Vec::new(alloc),
            tested: Row::new(),
            nothing: Row::new(),
            hints: [0; 71],
        }
    }

    /// The events on which the address of the hart's next instruction depends (manual, section
    /// 14.1, "Syntactic Dependencies").
    pub fn address(&self, insn: Insn) -> &Row
        ensures { OfNext HasAddress self.now insn result.now }
    {
        self.held(address_source(insn))
    }

    /// The events on which the value depends that the hart's next instruction stores (as above).
    pub fn data(&self, insn: Insn) -> &Row
        ensures { OfNext HasData self.now insn result.now }
    {
        self.held(data_source(insn))
    }

    /// The events on which the hart's next instruction has a control dependency (as above).
    pub fn control(&self) -> &Row
        ensures { (insn : Insn) → OfNext HasControl self.now insn result.now }
    {
        &self.tested
    }

    /// The events from which the unit's value was computed, where there is a unit.
    fn held(&self, unit: Option<Unit>) -> &Row
        ensures { (n : ℕ) → Has result.now n ↔ ((u : Unit) × (unit ≡ Some u) × Holds self.now u n) }
    {
        match unit {
            Some(unit) => self.held_by(unit),
            None => &self.nothing,
        }
    }

    /// The events from which the unit's value was computed.
    fn held_by(&self, unit: Unit) -> &Row
        ensures { (n : ℕ) → Has result.now n ↔ Holds self.now unit n }
    {
        match self.place(unit) {
            Some(place) => &self.rows[place],
            None => &self.nothing,
        }
    }

    /// The events on which the instruction depends by any of its sources.
    fn held_by_sources(&self, insn: Insn) -> Row
        ensures { (n : ℕ) → Has result n ↔ ((u : Unit) × IsSource insn u × Holds self.now u n) }
    {
        let mut row = Row::new();
        for source in sources(insn) {
            if let Some(from) = source {
                self.gather(from, &mut row);
            }
        }
        row
    }

    /// Whether the unit stands at the place.
    fn is_at(&self, place: usize, unit: Unit) -> bool
        ensures { IsTrue result ↔ (slice_get self.now.units.items place ≡ Some unit) }
    {
        match self.units.get(place) {
            Some(other) => *other == unit,
            None => false,
        }
    }

    /// The first place of the unit.
    fn place(&self, unit: Unit) -> Option<usize>
        ensures { MatchOption result (Lacks self.now.units.items unit)
            (IsPlace self.now.units.items unit) }
    {
        let hint = self.hints[hint_of(unit)] as usize;
        if self.is_at(hint, unit) {
            return Some(hint);
        }
        for (place, other) in self.units.iter().enumerate() {
            if *other == unit {
                return Some(place);
            }
        }
        None
    }

    /// Puts into the row the events from which the unit's value was computed. Those that the row
    /// has stay in it.
    pub fn gather(&self, unit: Unit, row: &mut Row)
        ensures { (n : ℕ) → Has row.new n ↔ (Has row.old n ⊎ Holds self.now unit n) }
    {
        row.join(self.held_by(unit));
    }

    /// Puts the events from which the instruction computes what it puts into the unit in place of
    /// what the row has.
    fn gather_next(&self, step: Step, to: Unit, row: &mut Row)
        requires { IfSome step.event (λ n. n < 4096) }
        ensures { (n : ℕ) → Has row.new n ↔ Next self.now step to n }
    {
        row.clear();
        if let Some(event) = step.event {
            row.insert(event as usize);
        }
        for source in carried_to(step.insn, to) {
            if let Some(from) = source {
                self.gather(from, row);
            }
        }
    }

    /// Makes room for so many units more.
    fn reserve(&mut self, more: usize) -> Result<(), AllocError>
        ensures kept { IsSame self.old self.new }
        ensures room { OnOk result (HasRoom self.new more) }
    {
        self.units.reserve(more)?;
        self.rows.reserve(more)
    }

    /// Gives the unit these events. There is room for one more.
    fn set(&mut self, unit: Unit, row: &Row)
        requires { HasRoom self.old 1 }
        ensures set { IsSet self.old unit row.now self.new }
        ensures tested { self.new.tested ≡ self.old.tested }
        ensures room { (more : ℕ) → HasRoom self.old (more + 1) → HasRoom self.new more }
    {
        match self.place(unit) {
            Some(place) => self.rows[place].assign(row),
            None => self.add(unit, row),
        }
    }

    /// Gives a unit that was not written these events. There is room for one more.
    fn add(&mut self, unit: Unit, row: &Row)
        requires new { Lacks self.old.units.items unit }
        requires room { HasRoom self.old 1 }
        ensures set { IsSet self.old unit row.now self.new }
        ensures tested { self.new.tested ≡ self.old.tested }
        ensures room { (more : ℕ) → HasRoom self.old (more + 1) → HasRoom self.new more }
    {
        let mut own = Row::new();
        own.assign(row);
        self.hints[hint_of(unit)] = (self.units.len() % 256) as u8;
        self.units.push_reserved(unit);
        self.rows.push_reserved(own);
    }

    /// Gives the unit the events from which the instruction computes what it puts there. There is
    /// room for one more.
    fn set_next(&mut self, step: Step, to: Unit)
        requires room { HasRoom self.old 1 }
        requires few { IfSome step.event (λ n. n < 4096) }
        ensures set { IsNextSet self.old step to self.new }
        ensures tested { self.new.tested ≡ self.old.tested }
        ensures room { (more : ℕ) → HasRoom self.old (more + 1) → HasRoom self.new more }
    {
        let mut row = Row::new();
        self.gather_next(step, to, &mut row);
        self.set(to, &row);
    }

    /// Gives each destination of the instruction but rd its events. There is room for seven more.
    ///
    /// The instruction carries to none of them from another one, so each is as the old flow says.
    fn set_others(&mut self, step: Step, to: &[Option<Unit>; 8])
        requires to { to.now ≡ destinations step.insn }
        requires room { HasRoom self.old 7 }
        requires few { IfSome step.event (λ n. n < 4096) }
        ensures after { IsAfterOthers self.old step self.new }
        ensures tested { self.new.tested ≡ self.old.tested }
        ensures room { (more : ℕ) → HasRoom self.old (more + 7) → HasRoom self.new more }
    {
        for place in 0..7 {
            if let Some(unit) = to[place + 1] {
                self.set_next(step, unit);
            }
        }
    }

    /// The events on which the instruction depends, where it is a branch.
    pub(crate) fn tested_by(&self, insn: Insn) -> Row
        ensures { (n : ℕ) → Has result n ↔ (IsTrue (is_branch insn.operation) × (u : Unit) ×
            IsSource insn u × Holds self.now u n) }
    {
        if is_branch(insn) {
            self.held_by_sources(insn)
        } else {
            Row::new()
        }
    }

    /// Puts in the events on which the instruction depends, where it is a branch.
    fn test(&mut self, insn: Insn)
        ensures units { (self.new.units ≡ self.old.units) × (self.new.rows ≡ self.old.rows) }
        ensures tested { Tests self.old insn self.new }
    {
        if is_branch(insn) {
            self.test_sources(insn);
        }
    }

    /// Puts in the events on which the branch depends. A call takes the time to clear a row, so it
    /// is a function of its own.
    fn test_sources(&mut self, branch: Insn)
        ensures units { (self.new.units ≡ self.old.units) × (self.new.rows ≡ self.old.rows) }
        ensures tested { (n : ℕ) → Has self.new.tested n
            ↔ (Has self.old.tested n ⊎ ((u : Unit) × IsSource branch u × Holds self.old u n)) }
    {
        let row = self.held_by_sources(branch);
        self.tested.join(&row);
    }

    /// Gives the destinations of the instruction their events. There is room for eight more.
    fn take(&mut self, step: Step)
        requires room { HasRoom self.old 8 }
        requires few { IfSome step.event (λ n. n < 4096) }
        ensures after { IsAfter self.old step self.new }
        ensures tested { self.new.tested ≡ self.old.tested }
    {
        let to = destinations(step.insn);
        match to[0] {
            Some(unit) => {
                let mut row = Row::new();
                self.gather_next(step, unit, &mut row);
                self.set_others(step, &to);
                self.set(unit, &row);
            }
            None => self.set_others(step, &to),
        }
    }

    /// Takes the hart's next instruction: the flow of some instructions becomes that of these and
    /// the new one. The number of its event is below 4,096.
    ///
    /// # Errors
    ///
    /// Memory ran out. Each unit has the events that it had.
    pub fn push(&mut self, step: Step) -> Result<(), AllocError>
        requires { IfSome step.event (λ n. n < 4096) }
        ensures kept { OnErr result (IsSame self.old self.new) }
        ensures taken { (steps : List Step) → IsFlowOf steps self.old →
            OnOk result (IsFlowOf (with_next steps step) self.new) }
    {
        self.reserve(8)?;
        self.test(step.insn);
        self.take(step);
        Ok(())
    }
}
