//! The stores whose instructions retired, with those that took effect.
ghost use Rattle.std.specs.Prelude.{◌≡◌, ◌+◌, ◌++◌, ◌∷◌, [], IfErr, IfOk, List, OnErr, OnOk};
ghost use Rattle.std.specs.Prelude.{length};
ghost use Rattle.rv_log.specs.declared.record.Performed.{Performed};
ghost use Rattle.rv_memory.specs.Stores.{IsNext, of_word};
ghost use Rattle.rv_values.specs.Memory.{IsIssueRefused, IsMemory, IsMismatch};
ghost use Rattle.rv_values.specs.Memory.{IsPerformRefused, low};

use crate::issues::{IssueFault, Issued, Issues};
use rv_log::Performed;
use rv_memory::{StoreFault, Stores};
use std::alloc::Global;

/// What the two records of a store tell differently.
#[derive(Clone, Copy, PartialEq, Eq, Debug)]
pub enum Mismatch {
    /// Its address: first that of its instruction, then that of its effect.
    Address(u64, u64),
    /// What memory holds after it: first by its instruction, then by its effect.
    Value(u64, u64),
}

/// Why a store is none of the log's.
#[derive(Clone, Copy, PartialEq, Eq, Debug)]
pub enum MemoryFault {
    /// Its two records differ.
    Differs(Mismatch),
    /// Its instruction retired before.
    RetiredTwice,
    /// Its effect may not come next.
    Store(StoreFault),
    /// Memory ran out.
    NoMemory,
}

/// The stores whose instructions retired, with those that took effect. Contracts see the fields.
#[derive(Drop)]
pub struct Memory {
    /// The stores that took effect.
    pub stores: Stores,
    /// Those whose instructions retired.
    pub issues: Issues,
}

/// The low bytes of a number that an access of this size has.
pub fn low_bytes(size: u8, value: u64) -> u64
    ensures { result ≡ low size value }
{
    match size {
        1 => value % 256,
        2 => value % 65_536,
        4 => value % 4_294_967_296,
        _ => value,
    }
}

/// What the two records of a store tell differently, if they do.
fn mismatch_of(issued: &Issued, performed: &Performed) -> Option<Mismatch>
    ensures { IsMismatch issued.now performed.now result }
{
    let word = issued.word;
    if word.address != performed.address {
        return Some(Mismatch::Address(word.address, performed.address));
    }
    let first = low_bytes(word.size, issued.wdata?);
    let second = low_bytes(word.size, performed.wdata?);
    (first != second).then_some(Mismatch::Value(first, second))
}

impl Memory {
    /// No stores. It takes no memory; the allocator serves the calls to come.
    pub fn new(alloc: Global) -> Memory
        ensures { IsMemory [] [] result }
    {
        Memory {
            stores: Stores::new(alloc),
            issues: Issues::new(alloc),
        }
    }

    /// Takes the store of an instruction that retired.
    ///
    /// # Errors
    /// `Differs` where it took effect as another record tells it, `RetiredTwice` where its
    /// instruction retired before, else `NoMemory`. The stores are those of before.
    pub fn issue(&mut self, store: Issued) -> Result<(), MemoryFault>
        ensures taken { (issued : List Issued) (performed : List Performed)
            → IsMemory issued performed self.old
            → OnOk result (IsMemory (issued ++ store ∷ []) performed self.new) }
        ensures refused { (issued : List Issued) (performed : List Performed)
            → IsMemory issued performed self.old
            → IfErr result (IsIssueRefused issued performed store) }
        ensures kept { OnErr result (self.new ≡ self.old) }
    {
        if let Some(performed) = self.stores.performed_by(store.hart, store.order) {
            if let Some(mismatch) = mismatch_of(&store, &performed) {
                return Err(MemoryFault::Differs(mismatch));
            }
        }
        match self.issues.push(store) {
            Ok(()) => Ok(()),
            Err(IssueFault::Twice) => Err(MemoryFault::RetiredTwice),
            Err(IssueFault::NoMemory) => Err(MemoryFault::NoMemory),
        }
    }

    /// Takes the next store that took effect, and answers its version of its word.
    ///
    /// # Errors
    /// `Differs` where its instruction's record tells it otherwise; else why it may not come next.
    /// The stores are those of before.
    pub fn perform(&mut self, store: Performed) -> Result<u32, MemoryFault>
        ensures taken { (issued : List Issued) (performed : List Performed)
            → IsMemory issued performed self.old
            → IfOk result (λ version. IsNext performed store × IsMemory issued (performed ++ store ∷ []) self.new
            × (version ≡ length (of_word store.address performed) + 1)) }
        ensures refused { (issued : List Issued) (performed : List Performed)
            → IsMemory issued performed self.old
            → IfErr result (IsPerformRefused issued performed store) }
        ensures kept { (issued : List Issued) (performed : List Performed)
            → IsMemory issued performed self.old
            → OnErr result (IsMemory issued performed self.new) }
    {
        if let Some(issued) = self.issues.issued_by(store.hart, store.order) {
            if let Some(mismatch) = mismatch_of(&issued, &store) {
                return Err(MemoryFault::Differs(mismatch));
            }
        }
        match self.stores.push(store) {
            Ok(version) => Ok(version),
            Err(fault) => Err(MemoryFault::Store(fault)),
        }
    }
}
