//! The sixteen harts of a log.
ghost use Rattle.std.specs.Prelude.{◌≡◌, ◌++◌, [], IfErr, IfOk, IfSome, List, None, Ok, OnOk};
ghost use Rattle.rv_log.specs.declared.record.Performed.{Performed};
ghost use Rattle.rv_values.specs.Memory.{IsMemory};
ghost use Rattle.rv_values.specs.Values.{MayGrow};
ghost use Rattle.rv_values.specs.declared.issues.Issued.{Issued};
ghost use Rattle.rv_commits.specs.Settled.{IsAtStage, is_ended};
ghost use Rattle.rv_logrows.specs.Harts.{AreHarts, AreNew, IsGivenBy, IsHartAtRest, IsHartRefused};
ghost use Rattle.rv_logrows.specs.Harts.{IsRetireRefused, IsRetiredBy};

use crate::fault::LogFault;
use rv_commits::{RowFault, Stage, WaitingHart};
use rv_event::Event;
use rv_flow::Unlisted;
use rv_log::Retired;
use rv_values::Memory;
use std::alloc::{AllocError, Global};

/// The harts of a log, each at the place of its number. Contracts see the field.
#[derive(Drop)]
pub struct Harts {
    /// They are sixteen.
    pub all: Vec<WaitingHart>,
}

impl Harts {
    /// Sixteen harts without rows.
    ///
    /// # Errors
    /// Memory ran out.
    pub fn new(alloc: Global) -> Result<Harts, AllocError>
        ensures harts { IfOk result (λ harts. AreHarts 16 harts.all.items) }
        ensures new { IfOk result (λ harts. AreNew 16 harts.all.items) }
    {
        let mut all = Vec::new(alloc);
        'harts: for hart in 0..16 {
            all.push(WaitingHart::new(alloc, hart))?;
        }
        Ok(Harts { all })
    }

    /// Takes the next instruction of its hart, of this row in the log. If it is an access, it is
    /// one to this word.
    ///
    /// # Errors
    /// `Hart` where there is none of its number: the harts are those of before. `TooManyRows`,
    /// `NoMemory`: they are of no more use.
    pub fn retire(&mut self, instruction: &Retired, word: u32, log_row: u64) -> Result<(), LogFault>
        requires harts { AreHarts 16 self.old.all.items }
        ensures retired { OnOk result
            (IsRetiredBy instruction.now word log_row self.old.all.items self.new.all.items) }
        ensures harts { OnOk result (AreHarts 16 self.new.all.items) }
        ensures refused { IfErr result (IsRetireRefused instruction.now) }
    {
        if instruction.hart > 15 {
            return Err(LogFault::Hart);
        }
        match self.all[instruction.hart as usize].retire(instruction, word, log_row) {
            Ok(()) => Ok(()),
            Err(Unlisted::Full) => Err(LogFault::TooManyRows),
            Err(Unlisted::NoMemory) => Err(LogFault::NoMemory),
        }
    }

    /// The next row of a hart, once its versions are known. `None` where it has no row, or the next
    /// one waits. `initial` is what memory holds at first, where that is known.
    ///
    /// # Errors
    /// The value that the row returned tells no version, or memory ran out. What waits stays.
    pub fn next_row(
        &mut self,
        hart: u8,
        memory: &Memory,
        initial: Option<u64>,
        stage: &Stage,
    ) -> Result<Option<Event>, RowFault>
        requires harts { AreHarts 16 self.old.all.items }
        ensures harts { AreHarts 16 self.new.all.items }
        ensures given { (issued more : List Issued) (performed later : List Performed)
            → IsMemory issued performed memory.now → MayGrow issued more performed later
            → IsAtStage issued more performed later stage.now
            → IfOk result (λ found. IfSome found (IsGivenBy (issued ++ more) (performed ++ later)
            initial hart self.old.all.items self.new.all.items)) }
        ensures waits { (issued : List Issued) (performed : List Performed)
            → IsMemory issued performed memory.now → IsAtStage issued [] performed [] stage.now
            → result ≡ Ok None
            → IsHartAtRest issued performed initial (is_ended stage.now) hart self.old.all.items }
        ensures refused { (issued : List Issued) (performed : List Performed)
            → IsMemory issued performed memory.now → IsAtStage issued [] performed [] stage.now
            → IfErr result (IsHartRefused issued performed initial hart self.old.all.items) }
    {
        if hart > 15 {
            return Ok(None);
        }
        self.all[hart as usize].next_row(memory, initial, stage)
    }
}
