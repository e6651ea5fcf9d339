//! Marks of ids: of each hart two places, for its later loads and its later stores.
ghost use Rattle.std.specs.Prelude.{◌≡◌, ◌⊎◌, IfOk, IsTrue, slice_index_or, ℕ};
ghost use Rattle.rv_event.specs.declared.event.Id.{Id};
ghost use Rattle.rv_cut.specs.Marked.{has_place, mark_of};

use rv_event::{Entry, Id, NoMemory};
use std::alloc::Global;
use std::marker::Model;

/// A mark for each event of a log. Contracts see it as its rows, by hart.
#[derive(Drop)]
pub struct Marks {
    rows: Vec<Vec<u32>>,
}

impl Model for Marks {
    ghost use Rattle.std.specs.Global.{Vec};
    ghost use Rattle.std.specs.Prelude.{List, ℕ};

    ghost Value = { List (Vec ℕ) };

    ghost view = { λ m. m.rows.items };
}

impl Marks {
    /// Marks with no place, for the events of the log.
    ///
    /// # Errors
    /// `NoMemory` where the rows could not be had.
    pub fn new(alloc: Global, log: &[Entry]) -> Result<Marks, NoMemory>
        ensures { IfOk result (λ m. (i : Id) → mark_of m i ≡ 0) }
    {
        let mut rows: Vec<Vec<u32>> = Vec::with_capacity(alloc, 16)?;
        for _ in 0..16 {
            rows.push(Vec::new(alloc))?;
        }
        for entry in log {
            if let Some(row) = rows.get_mut(entry.event.id.hart as usize) {
                row.push(0)?;
            }
        }
        Ok(Marks { rows })
    }

    /// The mark of the id: 0 where the log has no such event.
    pub fn of(&self, id: Id) -> u32
        ensures { result ≡ mark_of self.now id }
    {
        let Some(row) = self.rows.get(id.hart as usize) else {
            return 0;
        };
        match row.get(id.seq as usize) {
            Some(mark) => *mark,
            None => 0,
        }
    }

    /// Adds the places of a mark to that of the id.
    pub fn add(&mut self, id: Id, mark: u32)
        ensures { (i : Id) (k : ℕ) → IsTrue (has_place (mark_of self.new i) k) →
            IsTrue (has_place (mark_of self.old i) k) ⊎ ((i ≡ id) × IsTrue (has_place mark k)) }
    {
        if let Some(row) = self.rows.get_mut(id.hart as usize) {
            add_to(row, id.seq as usize, mark);
        }
    }
}

/// Adds the places of a mark to that of the number, where the row has it.
fn add_to(row: &mut Vec<u32>, seq: usize, mark: u32)
    ensures { (s k : ℕ) → IsTrue (has_place (slice_index_or row.new.items s 0) k) →
        IsTrue (has_place (slice_index_or row.old.items s 0) k) ⊎ ((s ≡ seq) × IsTrue (has_place mark k)) }
{
    if seq < row.len() {
        row[seq] |= mark;
    }
}
