//! What memory holds at first, as far as a log tells.

use rv_commits::Pending;
use rv_event::{Event, Op};
use std::alloc::{AllocError, Global};
use std::collections::HashMap;

/// What a row that waits returned from its word.
#[derive(Clone, Copy)]
pub(crate) struct Returned {
    word: u32,
    value: Option<u64>,
}

impl Returned {
    /// What this row returned.
    pub(crate) fn of(pending: &Pending) -> Returned {
        Returned {
            word: pending.row.word,
            value: pending.waiting.returned,
        }
    }
}

/// The values of version 0. The first row that returned it from a word tells that of the word.
#[derive(Drop)]
pub(crate) struct Initial {
    /// Whether all are 0.
    zero: bool,
    told: HashMap<u32, u64>,
}

impl Initial {
    /// All of them are 0, or none is known.
    pub(crate) fn new(alloc: Global, zero: bool) -> Initial {
        Initial {
            zero,
            told: HashMap::new(alloc),
        }
    }

    /// The first value of the word that a row returned from, where it is known.
    pub(crate) fn of(&self, returned: Option<Returned>) -> Option<u64> {
        if self.zero {
            return Some(0);
        }
        self.told.get(&returned?.word).copied()
    }

    /// Takes what a row returned, whose versions are known now.
    pub(crate) fn note(&mut self, returned: Returned, row: &Event) -> Result<(), AllocError> {
        let is_first = matches!(row.op, Op::Load | Op::Lr | Op::Amo) && row.read == 0;
        let Some(value) = returned.value else {
            return Ok(());
        };
        if is_first && !self.zero && !self.told.contains_key(&returned.word) {
            self.told.insert(returned.word, value)?;
        }
        Ok(())
    }
}
