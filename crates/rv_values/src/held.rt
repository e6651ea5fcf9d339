//! The values that versions hold.
ghost use Rattle.std.specs.Prelude.{◌≡◌, ◌++◌, List};
ghost use Rattle.rv_log.specs.declared.record.Performed.{Performed};
ghost use Rattle.rv_values.specs.Memory.{IsMemory};
ghost use Rattle.rv_values.specs.Values.{IsFit, IsHeld, MayGrow};
ghost use Rattle.rv_values.specs.declared.issues.Issued.{Issued};

use crate::memory::{Memory, low_bytes};

/// What is known of the value that a version holds.
#[derive(Clone, Copy, PartialEq, Eq, Debug)]
pub enum Held {
    /// It is not known yet: a record of its store has not come.
    Open,
    /// No record shows it.
    Unshown,
    /// It is this.
    Value(u64),
}

/// Whether the value that a version holds is the one that was returned.
#[derive(Clone, Copy, PartialEq, Eq, Debug)]
pub enum Fit {
    /// It is not known yet.
    Open,
    /// It is, or one of the two is not shown.
    Agrees,
    /// It is not.
    Differs,
}

impl Memory {
    /// What is known of the value that this version of the word at the address holds. `initial` is
    /// the value of version 0, where that is known.
    pub fn held(&self, address: u64, version: u32, initial: Option<u64>) -> Held
        ensures { (issued more : List Issued) (performed later : List Performed)
            → IsMemory issued performed self.now → MayGrow issued more performed later
            → IsHeld issued more performed later address version initial result }
    {
        if version == 0 {
            return match initial {
                Some(value) => Held::Value(value),
                None => Held::Unshown,
            };
        }
        let Some(store) = self.stores.store(address, version) else {
            return Held::Open;
        };
        let Some(issued) = self.issues.issued_by(store.hart, store.order) else {
            return Held::Open;
        };
        match store.wdata.or(issued.wdata) {
            Some(value) => Held::Value(low_bytes(issued.word.size, value)),
            None => Held::Unshown,
        }
    }

    /// Whether this version of the word at the address holds the value that was returned, if that
    /// is shown. `initial` is the value of version 0, where that is known.
    pub fn fit(
        &self,
        address: u64,
        version: u32,
        initial: Option<u64>,
        returned: Option<u64>,
    ) -> Fit
        ensures { (issued more : List Issued) (performed later : List Performed)
            → IsMemory issued performed self.now → MayGrow issued more performed later
            → IsFit issued more performed later address version initial returned result }
    {
        let Some(returned) = returned else {
            return Fit::Agrees;
        };
        match self.held(address, version, initial) {
            Held::Open => Fit::Open,
            Held::Unshown => Fit::Agrees,
            Held::Value(value) if value == returned => Fit::Agrees,
            Held::Value(_) => Fit::Differs,
        }
    }
}
