//! What is said of rows, beside the events that they tell.
ghost use Rattle.std.specs.Prelude.{◌≡◌, ℕ, None, OnErr, OnOk, string_bytes};
ghost use Rattle.std.specs.Option.{option_copied};
ghost use Rattle.rv_explain.specs.RowTexts.{AreSame, IsNoted, said_by};

use rv_event::NoMemory;
use std::alloc::Global;
use std::collections::HashMap;

/// A text for each of some rows: an address, a symbol, a program counter, an instruction.
///
/// Contracts see them as `said_by` of `specs/RowTexts` has them.
#[derive(Drop)]
pub struct RowTexts {
    /// The text of each row, by its source and its number.
    pub texts: HashMap<(u8, usize), String>,
}

impl RowTexts {
    /// Nothing of any row. It takes no memory; the allocator serves the calls to come.
    pub fn new(alloc: Global) -> RowTexts
        ensures { (source row : ℕ) → said_by result source row ≡ None }
    {
        RowTexts {
            texts: HashMap::new(alloc),
        }
    }

    /// Takes the text of a row, in place of one that is there.
    ///
    /// # Errors
    /// Memory ran out; the texts stay as they are.
    pub fn note(&mut self, source: u8, row: usize, text: String) -> Result<(), NoMemory>
        ensures noted { OnOk result (IsNoted (said_by self.old) source row (string_bytes text) (said_by self.new)) }
        ensures unchanged { OnErr result (AreSame (said_by self.new) (said_by self.old)) }
    {
        self.texts.insert((source, row), text)?;
        Ok(())
    }

    /// The text of a row, if there is one.
    pub fn text_of(&self, source: u8, row: usize) -> Option<&str>
        ensures { option_copied result ≡ said_by self.now source row }
    {
        let text = self.texts.get(&(source, row))?;
        Some(text.as_str())
    }
}
