//! Events of a hart, as a trace records them.
ghost use Rattle.std.specs.Prelude.{◌≡◌, ◌↔◌, ◌++◌, ◌∷◌, ◌<◌, [], IfOk, IsFalse, IsTrue, OnErr, OnOk};
ghost use Rattle.std.specs.Prelude.{Some, length};
ghost use Rattle.rv_event.specs.Operations.{IsLoad, IsStore, IsMemory};
ghost use Rattle.rv_event.specs.Texts.{id_text};

use crate::no_memory::NoMemory;
use std::alloc::{AllocError, Global};
use std::fmt;
use std::marker::Model;

/// An event's name: its hart, and its place in the hart's program order.
///
/// It is printed as `hH:Q`, hart and place in decimal.
#[derive(Clone, Copy, PartialEq, Eq, Debug)]
pub struct Id {
    /// The hart. A well formed log has harts 0 to 15.
    pub hart: u8,
    /// The number of the hart's events before this one. A well formed log has at most 4,096 a hart.
    pub seq: u32,
}

impl fmt::Display for Id {
    ghost output = { λ i. Some (id_text i) };

    fn fmt<W: fmt::Write>(&self, f: &mut fmt::Formatter<W>) -> fmt::Result {
        let Id { hart, seq } = *self;
        write!(f, "h{hart}:{seq}")
    }
}

/// The memory operations that one side of a fence takes: loads, stores or both. An AMO is in each
/// of them.
#[derive(Clone, Copy, PartialEq, Eq, Debug)]
pub enum Set {
    /// Loads.
    R,
    /// Stores.
    W,
    /// Loads and stores.
    Rw,
}

/// What an event does.
#[derive(Clone, Copy, PartialEq, Eq, Debug)]
pub enum Op {
    /// A plain load.
    Load,
    /// A plain store.
    Store,
    /// A load-reserved.
    Lr,
    /// A store-conditional that stored.
    Sc,
    /// A store-conditional that did not store: no memory operation.
    ScFailed,
    /// An atomic memory operation: one operation that loads and stores.
    Amo,
    /// A FENCE between the operations of its predecessor set and those of its successor set.
    Fence {
        /// The operations before it that it orders.
        pred: Set,
        /// The operations after it that it orders.
        succ: Set,
    },
    /// A FENCE.TSO.
    FenceTso,
    /// A conditional branch or an indirect jump.
    Branch,
    /// A row that lists others, so that a later one names it for all of them. It orders nothing.
    Carrier,
}

impl Op {
    ghost use Rattle.rv_event.specs.Operations.{is_load, is_store, is_memory, has_word, is_exclusive};

    /// Whether it loads a word: a load, an LR or an AMO (manual, section 14.1, "Memory Model
    /// Primitives").
    pub fn is_load(self) -> bool
        ensures { result ≡ is_load self }
    {
        matches!(self, Op::Load | Op::Lr | Op::Amo)
    }

    /// Whether it stores a word: a store, a successful SC or an AMO (as above).
    pub fn is_store(self) -> bool
        ensures { result ≡ is_store self }
    {
        matches!(self, Op::Store | Op::Sc | Op::Amo)
    }

    /// Whether it is a memory operation: it loads, stores or does both.
    pub fn is_memory(self) -> bool
        ensures { result ≡ is_memory self }
    {
        self.is_load() || self.is_store()
    }

    /// Whether it names a word: a memory operation, or a failed SC.
    pub fn has_word(self) -> bool
        ensures { result ≡ has_word self }
    {
        self.is_memory() || matches!(self, Op::ScFailed)
    }

    /// Whether it opens a reservation or ends one: an LR, an SC or a failed SC.
    pub fn is_exclusive(self) -> bool
        ensures { result ≡ is_exclusive self }
    {
        matches!(self, Op::Lr | Op::Sc | Op::ScFailed)
    }
}

/// How an event depends on an earlier one.
#[derive(Clone, Copy, PartialEq, Eq, Debug)]
pub enum DepKind {
    /// Its address is computed from what the earlier event returned.
    Addr,
    /// The value that it stores is computed from it.
    DataOf,
    /// A branch whose outcome is computed from it.
    Ctrl,
}

/// A syntactic dependency on the event of the same hart that has this number.
#[derive(Clone, Copy, PartialEq, Eq, Debug)]
pub struct Dep {
    /// How the event depends on the other.
    pub kind: DepKind,
    /// The other event's place in the hart's program order.
    pub seq: u32,
}

/// How many dependencies stand in place.
const SHORT: usize = 3;

/// What stands in a place that is not used.
const BLANK: Dep = Dep {
    kind: DepKind::Addr,
    seq: 0,
};

/// Up to three dependencies, in place. Contracts see their list.
#[derive(Drop, Debug)]
struct Short {
    /// How many of the places are used: the first so many.
    count: u8,
    items: [Dep; SHORT],
    /// It serves the list that takes their place.
    alloc: Global,
}

impl Model for Short {
    ghost use Rattle.std.specs.Prelude.{List, ◌≤◌, take};
    ghost use Rattle.rv_event.specs.declared.event.Dep.{Dep};

    ghost Value = { List Dep };

    ghost view = { λ s. take s.count s.items };

    ghost invariant = { λ s. s.count ≤ 3 };
}

impl Short {
    /// None.
    fn new(alloc: Global) -> Self
        ensures { result ≡ [] }
    {
        Short {
            count: 0,
            items: [BLANK; SHORT],
            alloc,
        }
    }

    /// The same, with this allocator.
    fn copy(&self, alloc: Global) -> Self
        ensures { result ≡ self.now }
    {
        Short {
            count: self.count,
            items: self.items,
            alloc,
        }
    }

    /// Adds one at the end, where there is a place for it.
    #[inline(always)]
    fn push(&mut self, dep: Dep) -> bool
        ensures room { IsTrue result ↔ (length self.old < SHORT) }
        ensures pushed { IsTrue result → self.new ≡ self.old ++ dep ∷ [] }
        ensures full { IsFalse result → self.new ≡ self.old }
    {
        let place = self.count as usize;
        if place >= SHORT {
            return false;
        }
        self.items[place] = dep;
        self.count += 1;
        true
    }

    /// Those there are, in order.
    fn as_slice(&self) -> &[Dep]
        ensures { result.now ≡ self.now }
    {
        &self.items[..self.count as usize]
    }

    /// A list of them and one more.
    fn list_with(&self, dep: Dep) -> Result<Vec<Dep>, AllocError>
        ensures { IfOk result (λ list. list.items ≡ self.now ++ dep ∷ []) }
    {
        let mut list = Vec::with_capacity(self.alloc, 2 * SHORT)?;
        list.extend_from_slice(self.as_slice())?;
        list.push(dep)?;
        Ok(list)
    }
}

/// Where the dependencies of an event stand.
#[derive(Drop, Debug)]
enum Kept {
    /// In place.
    Short(Short),
    /// In a list.
    Long(Vec<Dep>),
}

/// The dependencies of an event, seen by contracts as their list. Up to three that were added one
/// by one take no memory.
#[derive(Drop, Debug)]
pub struct Deps {
    kept: Kept,
}

impl Model for Deps {
    ghost use Rattle.std.specs.Prelude.{List};
    ghost use Rattle.rv_event.specs.Deps.{kept_deps};
    ghost use Rattle.rv_event.specs.declared.event.Dep.{Dep};

    ghost Value = { List Dep };

    ghost view = { λ d. kept_deps d.kept };
}

impl PartialEq for Deps {
    ghost use Rattle.std.specs.Cmp.Lexicographic.{pointwise, lists_per};
    ghost use Rattle.rv_event.specs.contracts.event.DepPartialEq.TheImpl.Laws.{laws-law};

    ghost eq = { pointwise ⟦<Dep as PartialEq>⟧.eq };

    ghost laws = { lists_per laws-law };

    fn eq(&self, other: &Deps) -> bool {
        self.as_slice() == other.as_slice()
    }
}

impl Deps {
    /// No dependencies. It takes no memory; the allocator serves the calls to come.
    pub fn new(alloc: Global) -> Self
        ensures { result ≡ [] }
    {
        Deps {
            kept: Kept::Short(Short::new(alloc)),
        }
    }

    /// Takes a vector over. It takes no memory.
    pub fn from_vec(items: Vec<Dep>) -> Self
        ensures { result ≡ items.items }
    {
        Deps {
            kept: Kept::Long(items),
        }
    }

    /// Adds a dependency at the end. The first three take no memory.
    ///
    /// # Errors
    /// `NoMemory` where there is no room; the dependencies stay as they are.
    #[inline(always)]
    pub fn push(&mut self, dep: Dep) -> Result<(), NoMemory>
        ensures pushed { OnOk result (self.new ≡ self.old ++ dep ∷ []) }
        ensures unchanged { OnErr result (self.new ≡ self.old) }
    {
        let list = match &mut self.kept {
            Kept::Short(short) => {
                if short.push(dep) {
                    return Ok(());
                }
                short.list_with(dep)?
            }
            Kept::Long(list) => {
                list.push(dep)?;
                return Ok(());
            }
        };
        self.kept = Kept::Long(list);
        Ok(())
    }

    /// Equal dependencies. Up to three that were added one by one take no memory.
    ///
    /// # Errors
    /// `NoMemory` where there is no room; the dependencies stay as they are.
    pub fn copy(&self, alloc: Global) -> Result<Deps, NoMemory>
        ensures { IfOk result (λ deps. deps ≡ self.now) }
    {
        let kept = match &self.kept {
            Kept::Short(short) => Kept::Short(short.copy(alloc)),
            Kept::Long(list) => Kept::Long(Vec::from_slice(alloc, list.as_slice())?),
        };
        Ok(Deps { kept })
    }

    /// The dependencies, in order.
    pub fn as_slice(&self) -> &[Dep]
        ensures { result.now ≡ self.now }
    {
        match &self.kept {
            Kept::Short(short) => short.as_slice(),
            Kept::Long(list) => list.as_slice(),
        }
    }
}

/// One event of a trace. A field that the operation does not use is carried and otherwise ignored.
#[derive(PartialEq, Drop, Debug)]
pub struct Event {
    /// The event's name.
    pub id: Id,
    /// What it does.
    pub op: Op,
    /// The number of the aligned word that it accesses.
    pub word: u32,
    /// The version of the word that it returned; 0 is the word's initial value.
    pub read: u32,
    /// The version of the word that it wrote, above 0.
    pub wrote: u32,
    /// The earlier events of its hart on which it depends syntactically.
    pub deps: Deps,
    /// The instruction's `aq` bit.
    pub acquire: bool,
    /// The instruction's `rl` bit.
    pub release: bool,
}

impl Event {
    /// Whether the event loads a word.
    pub fn is_load(&self) -> bool
        ensures { IsTrue result ↔ IsLoad self.now }
    {
        self.op.is_load()
    }

    /// Whether the event stores a word.
    pub fn is_store(&self) -> bool
        ensures { IsTrue result ↔ IsStore self.now }
    {
        self.op.is_store()
    }

    /// Whether the event is a memory operation.
    pub fn is_memory(&self) -> bool
        ensures { IsTrue result ↔ IsMemory self.now }
    {
        self.op.is_memory()
    }

    /// An equal event.
    ///
    /// # Errors
    /// `NoMemory` where the list of dependencies could not be had; the event stays as it is.
    pub fn copy(&self, alloc: Global) -> Result<Event, NoMemory>
        ensures { IfOk result (λ e. e ≡ self.now) }
    {
        let deps = self.deps.copy(alloc)?;
        Ok(Event {
            id: self.id,
            op: self.op,
            word: self.word,
            read: self.read,
            wrote: self.wrote,
            acquire: self.acquire,
            release: self.release,
            deps,
        })
    }
}

/// An event as a source gave it.
#[derive(PartialEq, Drop, Debug)]
pub struct Entry {
    /// The number of the source, 0 to 7.
    pub source: u8,
    /// The event.
    pub event: Event,
}

impl Entry {
    /// An equal entry.
    ///
    /// # Errors
    /// `NoMemory` where the event could not be copied; the entry stays as it is.
    pub fn copy(&self, alloc: Global) -> Result<Entry, NoMemory>
        ensures { IfOk result (λ x. x ≡ self.now) }
    {
        let event = self.event.copy(alloc)?;
        Ok(Entry {
            source: self.source,
            event,
        })
    }
}

/// Whether two events are equal in every field.
pub fn is_same(a: &Event, b: &Event) -> bool
    ensures { IsTrue result ↔ (a.now ≡ b.now) }
{
    *a == *b
}
