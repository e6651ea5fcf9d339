//! The stores whose instructions retired.
ghost use Rattle.std.specs.Prelude.{◌≡◌, ◌++◌, ◌∷◌, [], IfErr, OnErr, OnOk};
ghost use Rattle.rv_values.specs.Issues.{IsIssuedBy, IsNew, IsRefused};

use rv_memory::Word;
use std::alloc::{AllocError, Global};
use std::collections::HashMap;
use std::marker::Model;

/// A store whose instruction retired.
#[derive(Clone, Copy, PartialEq, Eq, Debug)]
pub struct Issued {
    /// The hart, 0 to 15.
    pub hart: u8,
    /// The order of its instruction.
    pub order: u64,
    /// Its bytes.
    pub word: Word,
    /// What memory holds after it, where the record of the instruction shows it.
    pub wdata: Option<u64>,
}

/// Why a store is none of the log's.
#[derive(Clone, Copy, PartialEq, Eq, Debug)]
pub enum IssueFault {
    /// Its instruction retired before.
    Twice,
    /// Memory ran out.
    NoMemory,
}

/// The stores whose instructions retired, in the order of their records.
///
/// Contracts see their list. No instruction has two of them.
#[derive(Drop)]
pub struct Issues {
    all: Vec<Issued>,
    places: HashMap<(u8, u64), usize>,
}

impl Model for Issues {
    ghost use Rattle.std.specs.Prelude.{List};
    ghost use Rattle.std.specs.HashMap.{get};
    ghost use Rattle.rv_memory.specs.Stores.{same_issuer};
    ghost use Rattle.rv_values.specs.Issues.{AreIssues};
    ghost use Rattle.rv_values.specs.declared.issues.Issued.{Issued};

    ghost Value = { List Issued };

    ghost view = { λ s. s.all.items };

    ghost invariant = { λ s. AreIssues (get same_issuer s.places) s.all.items };
}

impl Issues {
    /// No stores. It takes no memory; the allocator serves the calls to come.
    pub fn new(alloc: Global) -> Issues
        ensures { result ≡ [] }
    {
        Issues {
            all: Vec::new(alloc),
            places: HashMap::new(alloc),
        }
    }

    /// The stores, in the order of their records.
    pub fn all(&self) -> &[Issued]
        ensures { result.now ≡ self.now }
    {
        &self.all
    }

    /// The store of a hart's instruction, if that retired and is one.
    pub fn issued_by(&self, hart: u8, order: u64) -> Option<Issued>
        ensures { IsIssuedBy self.now hart order result }
    {
        let place = *self.places.get(&(hart, order))?;
        Some(self.all[place])
    }

    /// Takes the store of an instruction that retired.
    ///
    /// # Errors
    /// `Twice` where the instruction retired before, else `NoMemory`. The stores are those of
    /// before.
    pub fn push(&mut self, store: Issued) -> Result<(), IssueFault>
        ensures new { OnOk result (IsNew self.old store) }
        ensures pushed { OnOk result (self.new ≡ self.old ++ store ∷ []) }
        ensures refused { IfErr result (IsRefused self.old store) }
        ensures unchanged { OnErr result (self.new ≡ self.old) }
    {
        if self.issued_by(store.hart, store.order).is_some() {
            return Err(IssueFault::Twice);
        }
        match self.add(store) {
            Ok(()) => Ok(()),
            Err(AllocError) => Err(IssueFault::NoMemory),
        }
    }

    /// Adds the store of an instruction that has none.
    fn add(&mut self, store: Issued) -> Result<(), AllocError>
        requires new { IsNew self.old store }
        ensures pushed { OnOk result (self.new ≡ self.old ++ store ∷ []) }
        ensures unchanged { OnErr result (self.new ≡ self.old) }
    {
        let place = self.all.len();
        self.all.reserve(1)?;
        self.places.insert((store.hart, store.order), place)?;
        self.all.push_reserved(store);
        Ok(())
    }
}
