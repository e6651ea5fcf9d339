//! Rows that wait for their versions.
ghost use Rattle.std.specs.Prelude.{◌≡◌, ◌++◌, [], IfErr, IfOk, IfSome, List, Ok, None};
ghost use Rattle.std.specs.Prelude.{true, false};
ghost use Rattle.rv_log.specs.declared.record.Performed.{Performed};
ghost use Rattle.rv_log.specs.declared.record.Retired.{Retired};
ghost use Rattle.rv_memory.specs.Stores.{AreStores, IsOrder};
ghost use Rattle.rv_values.specs.Memory.{IsMemory};
ghost use Rattle.rv_values.specs.Values.{MayGrow};
ghost use Rattle.rv_values.specs.declared.issues.Issued.{Issued};
ghost use Rattle.rv_commits.specs.Settled.{AreRowVersions, IsAtStage, IsFoundByValue};
ghost use Rattle.rv_commits.specs.Settled.{IsOpenRow, IsSettled, IsValueRefused, is_ended};
ghost use Rattle.rv_commits.specs.Settled.{returned_by, waiting_by};

use crate::awaited::{Awaited, Versions, awaited_by, versions_of};
use rv_event::Event;
use rv_log::{AccessKind, Retired};
use rv_values::{Fit, Found, Index, Memory, low_bytes};

/// What a row waits for.
#[derive(Clone, Copy, PartialEq, Eq, Debug)]
pub struct Waiting {
    /// What its versions come from.
    pub awaited: Awaited,
    /// The address of its word.
    pub address: u64,
    /// The value that it returned from memory, where its record shows that.
    pub returned: Option<u64>,
    /// The row of its instruction in the log, of which the header is row 0.
    pub log_row: u64,
}

/// A row whose versions are not known yet.
#[derive(Drop)]
pub struct Pending {
    /// The row.
    pub row: Event,
    /// What it waits for.
    pub waiting: Waiting,
}

/// How far a log is read.
#[derive(Drop)]
pub enum Stage {
    /// More records may come.
    Reading,
    /// It has ended; these are the versions that hold its values.
    Ended(Index),
}

/// Why the value that a row returned tells no version.
#[derive(Clone, Copy, PartialEq, Eq, Debug)]
pub enum ValueFault {
    /// Its record shows neither a value nor a time.
    Unshown,
    /// No version of its word holds the value.
    Nowhere,
    /// Several versions do.
    Several,
}

/// The value that an instruction returned from memory, where its record shows that.
pub fn returned_by(instruction: &Retired) -> Option<u64>
    ensures { result ≡ returned_by instruction.now }
{
    let access = instruction.access?;
    match access.kind {
        AccessKind::Load | AccessKind::LoadReserved | AccessKind::Amo => {
            Some(low_bytes(access.size, instruction.rdata?))
        }
        AccessKind::Store | AccessKind::StoreConditional => None,
    }
}

/// What the rows of an instruction wait for. `own` is its hart's last earlier store to the word, if
/// there is one, and `log_row` its row in the log.
pub fn waiting_by(instruction: &Retired, own: Option<u64>, log_row: u64) -> Waiting
    ensures { result ≡ waiting_by instruction.now own log_row }
{
    Waiting {
        awaited: awaited_by(instruction, own),
        address: instruction.address,
        returned: returned_by(instruction),
        log_row,
    }
}

impl Stage {
    /// Whether the log has ended.
    pub fn is_ended(&self) -> bool
        ensures { result ≡ is_ended self.now }
    {
        matches!(self, Stage::Ended(_))
    }
}

impl Waiting {
    /// The version whose value the row returned: the only one that holds it; version 0 where
    /// nothing tells what that holds, and no store wrote the value. `None` before the log's end.
    fn version_by_value(
        &self,
        initial: Option<u64>,
        stage: &Stage,
    ) -> Result<Option<u32>, ValueFault>
        ensures found { (issued more : List Issued) (performed later : List Performed)
            → IsAtStage issued more performed later stage.now
            → IfOk result (λ found. IfSome found
            (IsFoundByValue (issued ++ more) (performed ++ later) self.now initial)) }
        ensures refused { (issued : List Issued) (performed : List Performed)
            → IsAtStage issued [] performed [] stage.now
            → IfErr result (IsValueRefused issued performed self.now initial) }
        ensures waits { result ≡ Ok None → is_ended stage.now ≡ false }
    {
        let Stage::Ended(index) = stage else {
            return Ok(None);
        };
        let Some(value) = self.returned else {
            return Err(ValueFault::Unshown);
        };
        let Some(found) = index.find(self.address, value, initial) else {
            return match initial {
                None => Ok(Some(0)),
                Some(_) => Err(ValueFault::Nowhere),
            };
        };
        match found {
            Found::One(version) => Ok(Some(version)),
            Found::Several => Err(ValueFault::Several),
        }
    }
}

impl Pending {
    /// The versions of the row, once no later record can change them: those that the times tell,
    /// where the value that it returned fits them; else, at the log's end, by that value.
    ///
    /// # Errors
    /// The value tells no version.
    fn versions(
        &self,
        memory: &Memory,
        initial: Option<u64>,
        stage: &Stage,
    ) -> Result<Option<Versions>, ValueFault>
        ensures versions { (issued more : List Issued) (performed later : List Performed)
            → IsMemory issued performed memory.now → MayGrow issued more performed later
            → IsAtStage issued more performed later stage.now
            → IfOk result (λ found. IfSome found
            (AreRowVersions (issued ++ more) (performed ++ later) initial self.now)) }
        ensures waits { (issued : List Issued) (performed : List Performed)
            → IsMemory issued performed memory.now → IsAtStage issued [] performed [] stage.now
            → result ≡ Ok None → IsOpenRow issued performed initial (is_ended stage.now) self.now }
        ensures refused { (issued : List Issued) (performed : List Performed)
            → IsMemory issued performed memory.now → IsAtStage issued [] performed [] stage.now
            → IfErr result (IsValueRefused issued performed self.now.waiting initial) }
    {
        let Waiting {
            awaited,
            address,
            returned,
            ..
        } = self.waiting;
        let by_time = versions_of(&memory.stores, self.row.id.hart, &awaited, stage.is_ended());
        let wrote = match by_time {
            Some(versions) => match memory.fit(address, versions.read, initial, returned) {
                Fit::Open => return Ok(None),
                Fit::Agrees => return Ok(Some(versions)),
                Fit::Differs => versions.wrote,
            },
            None => match awaited {
                Awaited::Value => 0,
                _ => return Ok(None),
            },
        };
        match self.waiting.version_by_value(initial, stage) {
            Ok(Some(read)) => Ok(Some(Versions { read, wrote })),
            Ok(None) => Ok(None),
            Err(fault) => Err(fault),
        }
    }

    /// Gives the row its versions, once no later record can change them, and says whether it has
    /// them: those that the times tell, where the value that it returned fits them; else, at the
    /// log's end, by that value. `initial` is what memory holds at first, where that is known.
    ///
    /// `false`: they are open, and the row stays as it is.
    ///
    /// # Errors
    /// The value tells no version. The row stays as it is.
    pub fn settle(
        &mut self,
        memory: &Memory,
        initial: Option<u64>,
        stage: &Stage,
    ) -> Result<bool, ValueFault>
        ensures settled { (issued more : List Issued) (performed later : List Performed)
            → IsMemory issued performed memory.now → MayGrow issued more performed later
            → IsAtStage issued more performed later stage.now → result ≡ Ok true
            → IsSettled (issued ++ more) (performed ++ later) initial self.old self.new }
        ensures waits { (issued : List Issued) (performed : List Performed)
            → IsMemory issued performed memory.now → IsAtStage issued [] performed [] stage.now
            → result ≡ Ok false → IsOpenRow issued performed initial (is_ended stage.now) self.old }
        ensures refused { (issued : List Issued) (performed : List Performed)
            → IsMemory issued performed memory.now → IsAtStage issued [] performed [] stage.now
            → IfErr result (IsValueRefused issued performed self.old.waiting initial) }
        ensures kept { (result ≡ Ok true → ⊥) → self.new ≡ self.old }
        ensures id { self.new.row.id ≡ self.old.row.id }
    {
        match self.versions(memory, initial, stage) {
            Ok(Some(versions)) => {
                self.row.read = versions.read;
                self.row.wrote = versions.wrote;
                Ok(true)
            }
            Ok(None) => Ok(false),
            Err(fault) => Err(fault),
        }
    }
}
