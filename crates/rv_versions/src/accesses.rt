//! Accesses to words: a single one, those under which an event is found, and those to one word.
ghost use Rattle.std.specs.Prelude.{◌≡◌, Contains, Some, OnOk, OnErr};
ghost use Rattle.rv_versions.specs.Accesses.{id_of};
ghost use Rattle.rv_versions.specs.Indexes.{AreInserted, AreRemoved, AreSame, AreAbsent, IsInserted};
ghost use Rattle.rv_versions.specs.Words.{no_accesses};
ghost use Rattle.rv_versions.specs.declared.accesses.Access.{Access};

mod lookups;

use crate::by_version::ByVersion;
use rv_event::{Id, NoMemory};
use std::alloc::Global;

/// An access of an event to a version of a word.
#[derive(Clone, Copy, PartialEq, Eq, Debug)]
pub struct Access {
    /// The word.
    pub word: u32,
    /// The version.
    pub version: u32,
    /// The event's hart.
    pub hart: u8,
    /// The event's place in its hart's program order.
    pub seq: u32,
}

impl Access {
    /// The event's name.
    pub fn id(&self) -> Id
        ensures { result ≡ id_of self.now }
    {
        Id {
            hart: self.hart,
            seq: self.seq,
        }
    }
}

/// Under which accesses an event is found: as a store, as a load, and as an SC that is paired with
/// an LR.
#[derive(Clone, Copy, Debug)]
pub struct Postings {
    /// A store stands under the version that it wrote.
    pub store: Option<Access>,
    /// A load stands under the version that it returned.
    pub load: Option<Access>,
    /// An SC stands under what its LR returned.
    pub pair: Option<Access>,
}

/// The accesses to one word.
#[derive(Drop)]
pub struct Accesses {
    /// Stores, under the versions that they wrote.
    pub(crate) stores: ByVersion,
    /// Loads, under the versions that they returned.
    pub(crate) loads: ByVersion,
    /// SCs, under what their LRs returned.
    pub(crate) pairs: ByVersion,
}

impl Accesses {
    /// No accesses. It takes no memory.
    pub fn new(alloc: Global) -> Self
        ensures { result ≡ no_accesses }
    {
        Accesses {
            stores: ByVersion::new(alloc),
            loads: ByVersion::new(alloc),
            pairs: ByVersion::new(alloc),
        }
    }

    /// Puts an event in.
    ///
    /// # Errors
    /// `NoMemory`; the accesses are then as they were.
    #[inline(always)]
    pub fn insert(&mut self, postings: Postings) -> Result<(), NoMemory>
        requires { AreAbsent self.old postings }
        ensures inserted { OnOk result (AreInserted self.old postings self.new) }
        ensures unchanged { OnErr result (AreSame self.old postings self.new) }
    {
        self.stores.insert_posting(postings.store)?;
        if self.insert_reads(postings).is_err() {
            self.stores.remove_posting(postings.store);
            return Err(NoMemory);
        }
        Ok(())
    }

    /// Puts in what an event, or its LR, returned.
    ///
    /// # Errors
    /// `NoMemory`; the accesses are then as they were.
    fn insert_reads(&mut self, postings: Postings) -> Result<(), NoMemory>
        requires loads { (x : Access) → postings.load ≡ Some x → Contains self.old.loads x → ⊥ }
        requires pairs { (x : Access) → postings.pair ≡ Some x → Contains self.old.pairs x → ⊥ }
        ensures stores { self.new.stores ≡ self.old.stores }
        ensures loads { OnOk result (IsInserted self.old.loads postings.load self.new.loads) }
        ensures pairs { OnOk result (IsInserted self.old.pairs postings.pair self.new.pairs) }
        ensures unchanged { OnErr result (AreSame self.old postings self.new) }
    {
        self.loads.insert_posting(postings.load)?;
        let paired = self.pairs.insert_posting(postings.pair);
        if paired.is_err() {
            self.loads.remove_posting(postings.load);
            return Err(NoMemory);
        }
        Ok(())
    }

    /// Takes an event out. It takes no memory.
    pub fn remove(&mut self, postings: Postings)
        ensures { AreRemoved self.old postings self.new }
    {
        self.stores.remove_posting(postings.store);
        self.loads.remove_posting(postings.load);
        self.pairs.remove_posting(postings.pair);
    }
}
