//! Lists of dependencies of any length, by rows of at most eight parts.
ghost use Rattle.std.specs.Prelude.{ℕ, ◌≡◌, ◌<◌, ◌≤◌, ◌+◌, ◌↔◌, ◌⊎◌, [], if◌then◌else◌, IfOk, OnErr, OnOk};
ghost use Rattle.std.specs.Prelude.{Contains, IsTrue, length};
ghost use Rattle.rv_rows.specs.Bits.{Has};
ghost use Rattle.rv_flow.specs.Carriers.{AreCarriers, AreEvents, AreNextRows, AreParts, IsBehind};
ghost use Rattle.rv_flow.specs.Carriers.{IsEvent, IsGrown, IsList, IsSameSet};

use crate::carrier::{Carrier, PartList};
use crate::unlisted::Unlisted;
use rv_rows::Row;
use std::alloc::{AllocError, Global};

/// How many parts a row's dependencies have at most.
const MOST_PARTS: usize = 8;
/// How many rows of a hart a trace has at most.
const MOST_ROWS: u32 = 4096;

/// What a row lists.
#[derive(Drop)]
pub struct Lists {
    /// The numbers of the rows on which its address depends.
    pub address: Vec<u32>,
    /// The numbers of those on which the value depends that it stores.
    pub value: Vec<u32>,
}

/// The carriers among a hart's rows, and the number of its next row.
///
/// A row has at most eight parts. Longer lists name carriers, each a row of its own that lists
/// eight rows or fewer. A list uses the latest carriers that it can, so that a sum that grows by
/// seven events takes one more. Contracts see the fields.
#[derive(Drop)]
pub(crate) struct Carriers {
    alloc: Global,
    /// The carriers, in the order of their numbers.
    pub(crate) all: Vec<Carrier>,
    /// How many rows the hart has: the next one's number. At most 4,096.
    pub(crate) next: u32,
}

/// The set's numbers, from the lowest on.
pub(crate) fn numbers_of(alloc: Global, set: &Row) -> Result<Vec<u32>, AllocError>
    ensures { IfOk result (λ numbers. (n : ℕ) → Has set.now n ↔ Contains numbers.items n) }
{
    let mut rest = Row::new();
    rest.join(set);
    let mut numbers = Vec::new(alloc);
    let mut latest = rest.highest();
    'numbers: while let Some(highest) = latest {
        numbers.push(highest as u32)?;
        rest.remove(highest);
        latest = rest.highest();
    }
    numbers.reverse();
    Ok(numbers)
}

/// Whether the set has all events of a carrier. Most that have not lack its latest, and cost one
/// step.
fn is_covered(events: &Row, set: &Row) -> bool
    ensures { IsTrue result → (n : ℕ) → Has events.now n → Has set.now n }
{
    match events.highest() {
        Some(latest) => set.has(latest) && events.is_within(set),
        None => false,
    }
}

impl Carriers {
    ghost use Rattle.rv_flow.specs.Listed.{AreLists, IsUnchanged};

    /// Before any row. It takes no memory.
    pub(crate) fn new(alloc: Global) -> Carriers
        ensures none { result.all.items ≡ [] }
        ensures first { result.next ≡ 0 }
    {
        Carriers {
            alloc,
            all: Vec::new(alloc),
            next: 0,
        }
    }

    /// Takes the number of a row that is no carrier.
    ///
    /// # Errors
    ///
    /// `Full`: the hart has 4,096 rows. Nothing changes.
    pub(crate) fn number_row(&mut self) -> Result<u32, Unlisted>
        requires carriers { AreCarriers self.old.all.items self.old.next }
        ensures same { self.new.all ≡ self.old.all }
        ensures full { OnErr result ((self.new.next ≡ self.old.next) × (self.old.next ≡ 4096)) }
        ensures numbered { IfOk result (λ n. (n ≡ self.old.next) × (self.new.next ≡ n + 1)) }
        ensures grown { IsGrown self.old.all.items self.old.next self.new.all.items self.new.next }
    {
        if self.next >= MOST_ROWS {
            return Err(Unlisted::Full);
        }
        let number = self.next;
        self.next += 1;
        Ok(number)
    }

    /// Lists the events on which a row's address depends, and those on which the value depends that
    /// it stores: in eight parts at most, some of which may be carriers, new ones among them.
    ///
    /// # Errors
    ///
    /// Memory ran out, or the new carriers would be more than 4,096 rows. Nothing changes.
    pub(crate) fn lists(&mut self, address: &Row, value: &Row) -> Result<Lists, Unlisted>
        requires carriers { AreCarriers self.old.all.items self.old.next }
        requires address { AreEvents self.old.all.items self.old.next address.now }
        requires value { AreEvents self.old.all.items self.old.next value.now }
        ensures kept { OnErr result (IsUnchanged self.old self.new) }
        ensures grown { IsGrown self.old.all.items self.old.next self.new.all.items self.new.next }
        ensures numbered { AreNextRows self.old.all.items self.old.next self.new.all.items self.new.next }
        ensures lists { IfOk result (AreLists self.new address.now value.now) }
    {
        let carriers = self.all.len();
        let next = self.next;
        let lists = self.list_both(address, value);
        if lists.is_err() {
            self.all.truncate(carriers);
            self.next = next;
        }
        lists
    }

    /// The same, but after an error new carriers stay.
    fn list_both(&mut self, address: &Row, value: &Row) -> Result<Lists, Unlisted>
        requires carriers { AreCarriers self.old.all.items self.old.next }
        requires address { AreEvents self.old.all.items self.old.next address.now }
        requires value { AreEvents self.old.all.items self.old.next value.now }
        ensures grown { IsGrown self.old.all.items self.old.next self.new.all.items self.new.next }
        ensures numbered { AreNextRows self.old.all.items self.old.next self.new.all.items self.new.next }
        ensures lists { IfOk result (AreLists self.new address.now value.now) }
    {
        let first = self.collect(address)?;
        let second = self.collect(value)?;
        let are_many = first.parts.len() + second.parts.len() > MOST_PARTS;
        let second = self.fold_if(are_many, second)?;
        let are_many = first.parts.len() + second.parts.len() > MOST_PARTS;
        let first = self.fold_if(are_many, first)?;
        Ok(Lists {
            address: first.parts,
            value: second.parts,
        })
    }

    /// Lists the events of the set.
    fn collect(&mut self, set: &Row) -> Result<PartList, Unlisted>
        requires carriers { AreCarriers self.old.all.items self.old.next }
        requires events { AreEvents self.old.all.items self.old.next set.now }
        ensures grown { IsGrown self.old.all.items self.old.next self.new.all.items self.new.next }
        ensures numbered { AreNextRows self.old.all.items self.old.next self.new.all.items self.new.next }
        ensures list { IfOk result (IsList self.new.all.items self.new.next) }
        ensures events { IfOk result (λ list. IsSameSet list.events set.now) }
    {
        let mut list = PartList {
            parts: Vec::new(self.alloc),
            events: Row::new(),
        };
        let mut rest = Row::new();
        rest.join(set);
        self.cover(&mut list, &mut rest)?;
        let events = numbers_of(self.alloc, &rest)?;
        'events: for event in events.iter() {
            list = self.add(list, *event)?;
        }
        Ok(list)
    }

    /// Adds the latest carriers that have no events but those of the set, and takes theirs out of
    /// it. It costs a step for each carrier.
    fn cover(&self, list: &mut PartList, rest: &mut Row) -> Result<(), AllocError>
        requires carriers { AreCarriers self.now.all.items self.now.next }
        requires list { IsList self.now.all.items self.now.next list.old }
        ensures list { OnOk result (IsList self.now.all.items self.now.next list.new) }
        ensures moved { OnOk result ((n : ℕ) → (Has list.new.events n ⊎ Has rest.new n) ↔
            (Has list.old.events n ⊎ Has rest.old n)) }
    {
        'latest: for age in 0..self.all.len() {
            self.cover_by(age, list, rest)?;
        }
        Ok(())
    }

    /// Adds the carrier that so many came after, where there is one, the set has all its events and
    /// the list has room, and takes these events out of the set.
    fn cover_by(&self, age: usize, list: &mut PartList, rest: &mut Row) -> Result<(), AllocError>
        requires carriers { AreCarriers self.now.all.items self.now.next }
        requires list { IsList self.now.all.items self.now.next list.old }
        ensures list { OnOk result (IsList self.now.all.items self.now.next list.new) }
        ensures moved { OnOk result ((n : ℕ) → (Has list.new.events n ⊎ Has rest.new n) ↔
            (Has list.old.events n ⊎ Has rest.old n)) }
    {
        if age >= self.all.len() || list.parts.len() >= MOST_PARTS {
            return Ok(());
        }
        let carrier = &self.all[self.all.len() - 1 - age];
        if is_covered(&carrier.list.events, rest) {
            list.parts.push(carrier.number)?;
            list.events.join(&carrier.list.events);
            rest.subtract(&carrier.list.events);
        }
        Ok(())
    }

    /// Adds the event. A list of eight parts is folded first.
    fn add(&mut self, list: PartList, event: u32) -> Result<PartList, Unlisted>
        requires carriers { AreCarriers self.old.all.items self.old.next }
        requires list { IsList self.old.all.items self.old.next list }
        requires event { IsEvent self.old.all.items event }
        requires before { event < self.old.next }
        ensures grown { IsGrown self.old.all.items self.old.next self.new.all.items self.new.next }
        ensures numbered { AreNextRows self.old.all.items self.old.next self.new.all.items self.new.next }
        ensures list { IfOk result (IsList self.new.all.items self.new.next) }
        ensures events { IfOk result (λ more. (n : ℕ) →
            Has more.events n ↔ (Has list.events n ⊎ (event ≡ n))) }
    {
        let mut list = self.fold_if(list.parts.len() >= MOST_PARTS, list)?;
        list.parts.push(event)?;
        list.events.insert(event as usize);
        Ok(list)
    }

    /// Makes a carrier of the list where this is asked for.
    fn fold_if(&mut self, is_asked: bool, list: PartList) -> Result<PartList, Unlisted>
        requires carriers { AreCarriers self.old.all.items self.old.next }
        requires list { IsList self.old.all.items self.old.next list }
        requires some { IsTrue is_asked → 0 < length list.parts.items }
        ensures grown { IsGrown self.old.all.items self.old.next self.new.all.items self.new.next }
        ensures numbered { AreNextRows self.old.all.items self.old.next self.new.all.items self.new.next }
        ensures list { IfOk result (IsList self.new.all.items self.new.next) }
        ensures one { IfOk result (λ one. length one.parts.items ≡
            (if is_asked then 1 else length list.parts.items)) }
        ensures events { IfOk result (λ one. IsSameSet one.events list.events) }
    {
        if !is_asked {
            return Ok(list);
        }
        self.fold(list)
    }

    /// Makes a carrier of the list: the list that has it alone.
    fn fold(&mut self, list: PartList) -> Result<PartList, Unlisted>
        requires carriers { AreCarriers self.old.all.items self.old.next }
        requires list { IsList self.old.all.items self.old.next list }
        requires some { 0 < length list.parts.items }
        ensures grown { IsGrown self.old.all.items self.old.next self.new.all.items self.new.next }
        ensures numbered { AreNextRows self.old.all.items self.old.next self.new.all.items self.new.next }
        ensures list { IfOk result (IsList self.new.all.items self.new.next) }
        ensures one { IfOk result (λ one. length one.parts.items ≡ 1) }
        ensures events { IfOk result (λ one. IsSameSet one.events list.events) }
    {
        if self.next >= MOST_ROWS {
            return Err(Unlisted::Full);
        }
        let mut one = PartList {
            parts: Vec::new(self.alloc),
            events: Row::new(),
        };
        one.parts.push(self.next)?;
        one.events.join(&list.events);
        self.all.reserve(1)?;
        self.all.push_reserved(Carrier {
            number: self.next,
            list,
        });
        self.next += 1;
        Ok(one)
    }
}
