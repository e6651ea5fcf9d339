//! The log that a verdict shows.
ghost use Rattle.std.specs.Prelude.{◌≡◌, IfOk};

use rv_event::{Entry, NoMemory};
use std::alloc::Global;
use std::marker::Model;

/// The entries of a log, seen by contracts as their list.
#[derive(Drop, Debug)]
pub struct Evidence {
    entries: Vec<Entry>,
}

impl Model for Evidence {
    ghost use Rattle.std.specs.Prelude.{List};
    ghost use Rattle.rv_event.specs.declared.event.Entry.{Entry};

    ghost Value = { List Entry };

    ghost view = { λ l. l.entries.items };
}

impl Evidence {
    /// Takes the entries over. It takes no memory.
    pub fn from_vec(entries: Vec<Entry>) -> Self
        ensures { result ≡ entries.items }
    {
        Evidence { entries }
    }

    /// The entries, in order.
    pub fn as_slice(&self) -> &[Entry]
        ensures { result.now ≡ self.now }
    {
        self.entries.as_slice()
    }

    /// Equal evidence.
    ///
    /// # Errors
    /// `NoMemory` where the list or an entry of it could not be had; the evidence stays as it is.
    pub fn copy(&self, alloc: Global) -> Result<Evidence, NoMemory>
        ensures { IfOk result (λ l. l ≡ self.now) }
    {
        let mut entries = Vec::new(alloc);
        for entry in self.entries.as_slice() {
            entries.push(entry.copy(alloc)?)?;
        }
        Ok(Evidence { entries })
    }
}
