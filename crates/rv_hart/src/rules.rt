//! What each rule of preserved program order orders before a hart's next memory operation, as a
//! table (manual, section 14.1, "Preserved Program Order").
//!
//! The candidates are all that the table has; the lowest rule of a candidate is the first whose
//! parts have it. Rules 1 and 2 are not in the table, as their walks stop at operations that all
//! earlier ones lead to.
ghost use Rattle.std.specs.Prelude.{ℕ, ◌≡◌, ◌+◌, ◌<◌, ◌↔◌, ◌⊎◌, IsTrue, false};
ghost use Rattle.rv_event.specs.declared.event.Op.TheVariants.{Amo, Sc};
ghost use Rattle.rv_rows.specs.Bits.{has_bit};
ghost use Rattle.rv_hart.specs.Kept.{hart_at, IsAsked, IsKept};
ghost use Rattle.rv_hart.specs.Parts.{AddsPart, ArePartsFor, IsIn, IsOfPart, IsPartFor, NamesEvents};
ghost use Rattle.rv_hart.specs.Rows.{IsCandidate, IsEnough};
ghost use Rattle.rv_hart.specs.RuleRows.{Adds, ConditionOf, IsApart, IsLeadingRow};
ghost use Rattle.rv_hart.specs.RuleRows.{IsLowestBelow, IsLowestRule};
ghost use Rattle.rv_hart.specs.RuleRows.{IsOperationOf};
ghost use Rattle.rv_hart.specs.Sets.{RowIs};

use crate::next::Next;
use crate::parts::{Part, SetName, part_if};
use crate::sets::{add_dependencies, does_depend};
use rv_event::{DepKind, Event, Op, is_overlapping_store, is_rcsc, is_release};
use rv_rows::Row;

impl Next<'_> {
    /// The table: the two parts that the rule with this number orders before the event. A number
    /// that is no rule's has none.
    #[inline(always)]
    fn parts(&self, rule: u8) -> (Part, Part)
        requires asked { IsAsked self.now }
        requires rule { 2 < rule }
        ensures { ArePartsFor (hart_at self.now) self.now.event.now rule result.0 result.1 }
    {
        match rule {
            3 => (self.atomic_part(), Part::Nothing),
            4 => {
                let loads = part_if(self.event.is_load(), Part::In(SetName::FencedForLoad));
                let stores = part_if(self.event.is_store(), Part::In(SetName::FencedForStore));
                (loads, stores)
            }
            5 => (Part::In(SetName::Acquires), Part::Nothing),
            6 => {
                let release = is_release(self.kept.model, self.event);
                let before_loads = part_if(release, Part::In(SetName::Loads));
                let before_stores = part_if(release, Part::In(SetName::Stores));
                (before_loads, before_stores)
            }
            7 => {
                let rcsc = part_if(
                    is_rcsc(self.kept.model, self.event),
                    Part::In(SetName::Rcsc),
                );
                (rcsc, Part::Nothing)
            }
            8 => (self.paired_part(), Part::Nothing),
            9 => (Part::Named(DepKind::Addr), Part::Nothing),
            10 => (Part::Named(DepKind::DataOf), Part::Nothing),
            11 => {
                let controlled = part_if(self.event.is_store(), Part::In(SetName::Controlled));
                (controlled, Part::Nothing)
            }
            12 => self.sources_of_write(),
            13 => {
                let addressed = part_if(self.event.is_store(), Part::In(SetName::Addressed));
                (addressed, Part::Nothing)
            }
            _ => (Part::Nothing, Part::Nothing),
        }
    }

    /// Rule 3: the own store that the event returns, where that is an AMO or an SC.
    #[inline(always)]
    fn atomic_part(&self) -> Part
        requires asked { IsAsked self.now }
        ensures { IsPartFor (hart_at self.now) self.now.event.now 3 result }
    {
        match self.returned {
            Some(number) => {
                let store = self.events.at(number as usize);
                part_if(is_atomic(store.op), Part::One(number))
            }
            None => Part::Nothing,
        }
    }

    /// Rule 8: the LR with which the event, an SC, is paired.
    #[inline(always)]
    fn paired_part(&self) -> Part
        requires asked { IsAsked self.now }
        ensures { IsPartFor (hart_at self.now) self.now.event.now 8 result }
    {
        match self.kept.sets.reserved {
            Some(lr) => part_if(self.event.op == Op::Sc, Part::One(lr)),
            None => Part::Nothing,
        }
    }

    /// Rule 12: what the own store that the event returns depends on.
    #[inline(always)]
    fn sources_of_write(&self) -> (Part, Part)
        requires asked { IsAsked self.now }
        ensures { ArePartsFor (hart_at self.now) self.now.event.now 12 result.0 result.1 }
    {
        match self.returned {
            Some(store) => (
                Part::NamedBy(store, DepKind::Addr),
                Part::NamedBy(store, DepKind::DataOf),
            ),
            None => (Part::Nothing, Part::Nothing),
        }
    }

    /// The set of this name.
    #[inline(always)]
    fn set(&self, name: SetName) -> &Row
        requires { IsKept self.now.events self.now.kept.now }
        ensures { RowIs result.now (IsIn (hart_at self.now) name) self.now.events }
    {
        match name {
            SetName::Loads => &self.kept.sets.loads,
            SetName::Stores => &self.kept.sets.stores,
            SetName::Acquires => &self.kept.sets.acquires,
            SetName::Rcsc => &self.kept.sets.rcsc,
            SetName::FencedForLoad => &self.kept.sets.fenced_for_load,
            SetName::FencedForStore => &self.kept.sets.fenced_for_store,
            SetName::Controlled => &self.kept.sets.controlled,
            SetName::Addressed => &self.kept.sets.addressed,
        }
    }

    /// Puts in the events of the part.
    #[inline(always)]
    fn add_part(&self, part: Part, row: &mut Row)
        requires asked { IsAsked self.now }
        requires names { NamesEvents (hart_at self.now) part }
        ensures { AddsPart (hart_at self.now) self.now.event.now part row.old row.new }
    {
        let loads = &self.kept.sets.loads;
        let stores = &self.kept.sets.stores;
        let carried = &self.kept.carried;
        match part {
            Part::Nothing => {}
            Part::In(name) => row.join(self.set(name)),
            Part::One(number) => row.insert(number as usize),
            Part::Named(kind) => add_dependencies(row, self.event, kind, loads, stores, carried),
            Part::NamedBy(number, kind) => {
                let store = self.events.at(number as usize);
                add_dependencies(row, store, kind, loads, stores, carried);
            }
        }
    }

    /// Whether the operation is of the part.
    #[inline(always)]
    fn has_part(&self, part: Part, met: &Event) -> bool
        requires asked { IsAsked self.now }
        requires names { NamesEvents (hart_at self.now) part }
        requires met { IsOperationOf (hart_at self.now) met.now }
        ensures { IsTrue result ↔ IsOfPart (hart_at self.now) self.now.event.now part met.now }
    {
        let at = met.id.seq;
        match part {
            Part::Nothing => false,
            Part::In(name) => self.set(name).has(at as usize),
            Part::One(number) => number == at,
            Part::Named(kind) => does_depend(kind, self.event, met, &self.kept.carried),
            Part::NamedBy(number, kind) => {
                let store = self.events.at(number as usize);
                does_depend(kind, store, met, &self.kept.carried)
            }
        }
    }

    /// Puts the candidates into an empty row: what some rule orders before the event, of rules 1
    /// and 2 only what the rest leads to. `reads` is the row of rule 2.
    #[inline(always)]
    pub fn fill_candidates(&self, reads: &Row, row: &mut Row)
        requires asked { IsAsked self.now }
        requires reads { IsLeadingRow (hart_at self.now) self.now.event.now 2 reads.now }
        requires empty { (s : ℕ) → has_bit row.old s ≡ false }
        ensures { IsEnough (hart_at self.now) self.now.event.now row.new }
    {
        self.fill_overlapping(row);
        row.join(reads);
        self.add_rule(3, row);
        self.add_rule(4, row);
        self.add_rule(5, row);
        self.add_rule(6, row);
        self.add_rule(7, row);
        self.add_rule(8, row);
        self.add_rule(9, row);
        self.add_rule(10, row);
        self.add_rule(11, row);
        self.add_rule(12, row);
        self.add_rule(13, row);
    }

    /// Puts in what the rule with this number orders before the event. It is inlined, so a call
    /// that names the rule costs its line of the table alone.
    #[inline(always)]
    fn add_rule(&self, rule: u8, row: &mut Row)
        requires asked { IsAsked self.now }
        requires rule { 2 < rule }
        ensures { Adds (hart_at self.now) self.now.event.now rule row.old row.new }
    {
        let (one, other) = self.parts(rule);
        self.add_part(one, row);
        self.add_part(other, row);
    }

    /// The lowest rule that orders the candidate before the event. `reads` is the row of rule 2,
    /// none of whose other loads the candidate leads to.
    pub fn lowest_rule(&self, reads: &Row, number: usize) -> u8
        requires asked { IsAsked self.now }
        requires reads { IsLeadingRow (hart_at self.now) self.now.event.now 2 reads.now }
        requires apart { IsApart self.now.kept.now.rows reads.now number }
        requires candidate { IsCandidate (hart_at self.now) self.now.event.now number }
        ensures { IsLowestRule (hart_at self.now) self.now.event.now number result }
    {
        match self.lowest_of(self.events.at(number), reads) {
            Some(rule) => rule,
            None => unreachable!(),
        }
    }

    /// The lowest rule whose condition holds between the operation that was met and the event.
    /// `reads` is the row of rule 2, none of whose other loads it leads to.
    #[inline(always)]
    fn lowest_of(&self, met: &Event, reads: &Row) -> Option<u8>
        requires asked { IsAsked self.now }
        requires met { IsOperationOf (hart_at self.now) met.now }
        requires reads { IsLeadingRow (hart_at self.now) self.now.event.now 2 reads.now }
        requires apart { IsApart self.now.kept.now.rows reads.now met.now.id.seq }
        ensures { IsLowestBelow (hart_at self.now) self.now.event.now met.now 14 result }
    {
        let lowest = self.lowest_to(1, None, met, reads);
        let lowest = self.lowest_to(2, lowest, met, reads);
        let lowest = self.lowest_to(3, lowest, met, reads);
        let lowest = self.lowest_to(4, lowest, met, reads);
        let lowest = self.lowest_to(5, lowest, met, reads);
        let lowest = self.lowest_to(6, lowest, met, reads);
        let lowest = self.lowest_to(7, lowest, met, reads);
        let lowest = self.lowest_to(8, lowest, met, reads);
        let lowest = self.lowest_to(9, lowest, met, reads);
        let lowest = self.lowest_to(10, lowest, met, reads);
        let lowest = self.lowest_to(11, lowest, met, reads);
        let lowest = self.lowest_to(12, lowest, met, reads);
        self.lowest_to(13, lowest, met, reads)
    }

    /// The same up to this rule, where `lower` is the lowest of those before it. It is inlined, so
    /// a call that names the rule costs its line of the table alone, and what is found costs
    /// nothing more.
    #[inline(always)]
    fn lowest_to(&self, rule: u8, lower: Option<u8>, met: &Event, reads: &Row) -> Option<u8>
        requires asked { IsAsked self.now }
        requires met { IsOperationOf (hart_at self.now) met.now }
        requires reads { IsLeadingRow (hart_at self.now) self.now.event.now 2 reads.now }
        requires apart { IsApart self.now.kept.now.rows reads.now met.now.id.seq }
        requires rule { 0 < rule }
        requires lower { IsLowestBelow (hart_at self.now) self.now.event.now met.now rule lower }
        ensures { IsLowestBelow (hart_at self.now) self.now.event.now met.now (rule + 1) result }
    {
        match lower {
            Some(found) => Some(found),
            None if self.is_condition(rule, met, reads) => Some(rule),
            None => None,
        }
    }

    /// Whether the condition of the rule with this number holds between the operation that was met
    /// and the event. `reads` is the row of rule 2, none of whose other loads it leads to.
    #[inline(always)]
    fn is_condition(&self, rule: u8, met: &Event, reads: &Row) -> bool
        requires asked { IsAsked self.now }
        requires met { IsOperationOf (hart_at self.now) met.now }
        requires reads { IsLeadingRow (hart_at self.now) self.now.event.now 2 reads.now }
        requires apart { IsApart self.now.kept.now.rows reads.now met.now.id.seq }
        requires rule { 0 < rule }
        ensures { IsTrue result ↔ ConditionOf (hart_at self.now) self.now.event.now rule met.now }
    {
        if rule == 1 {
            return is_overlapping_store(met, self.event);
        }
        if rule == 2 {
            return reads.has(met.id.seq as usize);
        }
        let (one, other) = self.parts(rule);
        self.has_part(one, met) || self.has_part(other, met)
    }
}

/// Whether it is an AMO or an SC.
fn is_atomic(op: Op) -> bool
    ensures { IsTrue result ↔ ((op ≡ Amo) ⊎ (op ≡ Sc)) }
{
    matches!(op, Op::Amo | Op::Sc)
}
