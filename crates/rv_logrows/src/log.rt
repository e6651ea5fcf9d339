//! What the records of a log tell so far, and its rows.
ghost use Rattle.std.specs.Prelude.{◌≡◌, ◌≤◌, ◌+◌, ◌++◌, ◌∷◌, [], IfErr, IfOk, IfSome, List, None};
ghost use Rattle.std.specs.Prelude.{Ok, OnOk};
ghost use Rattle.rv_log.specs.declared.record.Performed.{Performed};
ghost use Rattle.rv_values.specs.Values.{MayGrow};
ghost use Rattle.rv_values.specs.declared.issues.Issued.{Issued};
ghost use Rattle.rv_commits.specs.Settled.{IsAtStage, is_ended};
ghost use Rattle.rv_values.specs.Memory.{IsMemory};
ghost use Rattle.rv_logrows.specs.declared.fault.LogFault.TheVariants.{Full};
ghost use Rattle.rv_logrows.specs.Harts.{AreHarts, AreNew, IsGivenBy, IsHartAtRest, IsHartRefused};
ghost use Rattle.rv_logrows.specs.Log.{IsEffectRefused, IsInstructionRefused, IsIssueRefused};
ghost use Rattle.rv_logrows.specs.Log.{HasNoRecords, IsLog, IsPast, IsPerformed, IsRetired};
ghost use Rattle.rv_logrows.specs.Log.{IsUnperformed, IsUnretired, IsUnstored};
ghost use Rattle.rv_logrows.specs.Log.{issue_of, issues};

use crate::fault::LogFault;
use crate::harts::Harts;
use crate::stored::{word_by, word_of};
use rv_commits::{RowFault, Stage, does_store, made_by};
use rv_event::{Event, Op};
use rv_log::{Before, Performed, Retired};
use rv_memory::Words;
use rv_values::{Issued, Memory, MemoryFault};
use std::alloc::{AllocError, Global};

/// What the records of a log tell so far, and its rows. Contracts see the fields.
#[derive(Drop)]
pub struct LogRows {
    /// How many instructions each hart has retired, and how many records there are.
    pub before: Before,
    /// The words of its accesses.
    pub words: Words,
    /// Its stores.
    pub memory: Memory,
    /// Its harts.
    pub harts: Harts,
    /// One more than the highest order of a hart's stores that took effect; 0 where there is none.
    pub past: [u64; 16],
}

/// A store of a hart.
#[derive(Clone, Copy, PartialEq, Eq, Debug)]
pub struct StoreId {
    /// The hart.
    pub hart: u8,
    /// The order of its instruction.
    pub order: u64,
}

/// The store of an instruction, which accesses this word.
fn issue_of(instruction: &Retired) -> Issued
    ensures { result ≡ issue_of instruction.now }
{
    Issued {
        hart: instruction.hart,
        order: instruction.order,
        word: word_by(instruction),
        wdata: instruction.wdata,
    }
}

impl LogRows {
    /// No records.
    ///
    /// # Errors
    /// Memory ran out.
    pub fn new(alloc: Global) -> Result<LogRows, AllocError>
        ensures log { IfOk result (IsLog [] []) }
        ensures harts { IfOk result (λ log. AreHarts 16 log.harts.all.items) }
        ensures new { IfOk result (λ log. AreNew 16 log.harts.all.items) }
        ensures none { IfOk result HasNoRecords }
    {
        Ok(LogRows {
            before: Before {
                retired: [0; 16],
                records: 0,
            },
            words: Words::new(alloc),
            memory: Memory::new(alloc),
            harts: Harts::new(alloc)?,
            past: [0; 16],
        })
    }

    /// Takes the store of an instruction, if it makes one; else checks that no store of it took
    /// effect.
    ///
    /// # Errors
    /// `Differs` where a record of its effect tells the store otherwise; `Stored` where it is a
    /// store-conditional that failed and took effect, and `NoSuchStore` where it makes no store and
    /// took effect; `NoMemory`. Memory stays as it is.
    fn store(&mut self, instruction: &Retired) -> Result<(), LogFault>
        ensures same { (self.new.words ≡ self.old.words) × (self.new.harts ≡ self.old.harts)
            × (self.new.before ≡ self.old.before) × (self.new.past ≡ self.old.past) }
        ensures stored { (issued : List Issued) (performed : List Performed)
            → IsMemory issued performed self.old.memory
            → OnOk result (IsMemory (issued ++ issues instruction.now) performed self.new.memory
            × IsUnstored performed instruction.now) }
        ensures refused { (issued : List Issued) (performed : List Performed)
            → IsMemory issued performed self.old.memory
            → IfErr result (IsIssueRefused issued performed instruction.now) }
    {
        if does_store(instruction) {
            return match self.memory.issue(issue_of(instruction)) {
                Ok(()) => Ok(()),
                Err(MemoryFault::Differs(mismatch)) => Err(LogFault::Differs(mismatch)),
                Err(MemoryFault::RetiredTwice) => Err(LogFault::RetiredTwice),
                Err(_) => Err(LogFault::NoMemory),
            };
        }
        let effect = self
            .memory
            .stores
            .effect_of(instruction.hart, instruction.order);
        if effect.is_none() {
            return Ok(());
        }
        let Some(made) = made_by(instruction) else {
            return Err(LogFault::NoSuchStore);
        };
        match made.op {
            Op::ScFailed => Err(LogFault::Stored),
            _ => Err(LogFault::NoSuchStore),
        }
    }

    /// Takes an instruction that retired, the next of its hart.
    ///
    /// # Errors
    /// The first of: `Hart`, `Order`; `Misaligned`, `MixedSizes`; `Differs`, `Stored`,
    /// `NoSuchStore`; `TooManyRows`; and `Full` and `NoMemory` where they come. The log is of no
    /// more use.
    pub fn retire(&mut self, instruction: &Retired) -> Result<(), LogFault>
        requires harts { AreHarts 16 self.old.harts.all.items }
        ensures retired { (issued : List Issued) (performed : List Performed)
            → IsLog issued performed self.old
            → OnOk result (IsRetired issued performed instruction.now self.old self.new) }
        ensures refused { (issued : List Issued) (performed : List Performed)
            → IsLog issued performed self.old
            → IfErr result (IsInstructionRefused issued performed instruction.now self.old) }
        ensures harts { OnOk result (AreHarts 16 self.new.harts.all.items) }
    {
        let hart = instruction.hart as usize;
        if instruction.hart > 15 {
            return Err(LogFault::Hart);
        }
        let order = self.before.retired[hart];
        if instruction.order != order {
            return Err(LogFault::Order(order));
        }
        let Some(next) = order.checked_add(1) else {
            return Err(LogFault::Full);
        };
        let word = match word_of(&mut self.words, instruction) {
            Ok(word) => word,
            Err(fault) => return Err(fault),
        };
        if let Err(fault) = self.store(instruction) {
            return Err(fault);
        }
        let row = match self.next_record() {
            Ok(row) => row,
            Err(fault) => return Err(fault),
        };
        self.harts.retire(instruction, word, row)?;
        self.before.retired[hart] = next;
        Ok(())
    }

    /// Counts a record, and answers its row.
    fn next_record(&mut self) -> Result<u64, LogFault>
        ensures same { (self.new.words ≡ self.old.words) × (self.new.harts ≡ self.old.harts)
            × (self.new.memory ≡ self.old.memory)
            × (self.new.before.retired ≡ self.old.before.retired)
            × (self.new.past ≡ self.old.past) }
        ensures counted { IfOk result (λ row. (row ≡ self.old.before.records + 1)
            × (self.new.before.records ≡ row)) }
        ensures full { IfErr result (λ fault. (fault ≡ Full)
            × (18446744073709551615 ≤ self.old.before.records)) }
    {
        let Some(row) = self.before.records.checked_add(1) else {
            return Err(LogFault::Full);
        };
        self.before.records = row;
        Ok(row)
    }

    /// Notes the order of a store that took effect, which is one less than this.
    fn pass(&mut self, store: &Performed, past: u64)
        requires hart { store.now.hart ≤ 15 }
        requires order { past ≡ store.now.order + 1 }
        ensures same { (self.new.words ≡ self.old.words) × (self.new.harts ≡ self.old.harts)
            × (self.new.memory ≡ self.old.memory) × (self.new.before ≡ self.old.before) }
        ensures past { (performed : List Performed) → IsPast performed self.old.past
            → IsPast (performed ++ store.now ∷ []) self.new.past }
    {
        let hart = store.hart as usize;
        if self.past[hart] < past {
            self.past[hart] = past;
        }
    }

    /// Takes a store that took effect.
    ///
    /// # Errors
    /// The first of: `Hart`; `NoSuchStore` where its instruction retired and makes no store;
    /// `Differs`; `Store`; and `Full` and `NoMemory` where they come. The log is of no more use.
    pub fn perform(&mut self, store: &Performed) -> Result<(), LogFault>
        ensures performed { (issued : List Issued) (performed : List Performed)
            → IsLog issued performed self.old
            → OnOk result (IsPerformed issued performed store.now self.old self.new) }
        ensures refused { (issued : List Issued) (performed : List Performed)
            → IsLog issued performed self.old
            → IfErr result (IsEffectRefused issued performed store.now self.old) }
        ensures harts { self.new.harts ≡ self.old.harts }
    {
        let hart = store.hart as usize;
        if store.hart > 15 {
            return Err(LogFault::Hart);
        }
        let has_retired = store.order < self.before.retired[hart];
        if has_retired
            && self
                .memory
                .issues
                .issued_by(store.hart, store.order)
                .is_none()
        {
            return Err(LogFault::NoSuchStore);
        }
        let Some(past) = store.order.checked_add(1) else {
            return Err(LogFault::Full);
        };
        if let Err(fault) = self.next_record() {
            return Err(fault);
        }
        match self.memory.perform(*store) {
            Ok(_) => {
                self.pass(store, past);
                Ok(())
            }
            Err(MemoryFault::Differs(mismatch)) => Err(LogFault::Differs(mismatch)),
            Err(MemoryFault::Store(fault)) => Err(LogFault::Store(fault)),
            Err(_) => Err(LogFault::NoMemory),
        }
    }

    /// The next row of a hart, once its versions are known. `None` where it has no row, or the next
    /// one waits. `initial` is what memory holds at first, where that is known.
    ///
    /// # Errors
    /// The value that the row returned tells no version, or memory ran out. What waits stays.
    pub fn next_row(
        &mut self,
        hart: u8,
        initial: Option<u64>,
        stage: &Stage,
    ) -> Result<Option<Event>, RowFault>
        requires harts { AreHarts 16 self.old.harts.all.items }
        ensures same { (self.new.words ≡ self.old.words) × (self.new.memory ≡ self.old.memory)
            × (self.new.before ≡ self.old.before) × (self.new.past ≡ self.old.past) }
        ensures log { (issued : List Issued) (performed : List Performed)
            → IsLog issued performed self.old → IsLog issued performed self.new }
        ensures harts { AreHarts 16 self.new.harts.all.items }
        ensures given { (issued more : List Issued) (performed later : List Performed)
            → IsLog issued performed self.old → MayGrow issued more performed later
            → IsAtStage issued more performed later stage.now
            → IfOk result (λ found. IfSome found (IsGivenBy (issued ++ more) (performed ++ later)
            initial hart self.old.harts.all.items self.new.harts.all.items)) }
        ensures waits { (issued : List Issued) (performed : List Performed)
            → IsLog issued performed self.old → IsAtStage issued [] performed [] stage.now
            → result ≡ Ok None
            → IsHartAtRest issued performed initial (is_ended stage.now) hart
            self.old.harts.all.items }
        ensures refused { (issued : List Issued) (performed : List Performed)
            → IsLog issued performed self.old → IsAtStage issued [] performed [] stage.now
            → IfErr result
            (IsHartRefused issued performed initial hart self.old.harts.all.items) }
    {
        self.harts.next_row(hart, &self.memory, initial, stage)
    }

    /// The first store whose instruction retired and which has not taken effect; `None` where there
    /// is none.
    pub fn unperformed(&self) -> Option<StoreId>
        ensures { (issued : List Issued) (performed : List Performed)
            → IsLog issued performed self.now → IsUnperformed issued performed result }
    {
        'issues: for issued in self.memory.issues.all() {
            let (hart, order) = (issued.hart, issued.order);
            if self.memory.stores.effect_of(hart, order).is_none() {
                return Some(StoreId { hart, order });
            }
        }
        None
    }

    /// A store that took effect and whose instruction has not retired; `None` where there is none.
    pub fn unretired(&self) -> Option<StoreId>
        ensures { (issued : List Issued) (performed : List Performed)
            → IsLog issued performed self.now → IsUnretired performed self.now result }
    {
        'harts: for hart in 0..16 {
            let past = self.past[hart as usize];
            if past > self.before.retired[hart as usize] {
                return Some(StoreId {
                    hart,
                    order: past - 1,
                });
            }
        }
        None
    }
}
