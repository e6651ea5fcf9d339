//! A cut of a log: a number for each hart.
ghost use Rattle.std.specs.Prelude.{◌≡◌, ◌==◌, ◌+◌, ℕ, IsFalse, if◌then◌else◌, length, min};
ghost use Rattle.rv_event.specs.Log.{events, of_hart};
ghost use Rattle.rv_event.proofs.Indexed.{Indexed};
ghost use Rattle.rv_cut.specs.Cuts.{AreLower, first_of, is_past};

use rv_event::{Entry, Id};
use std::marker::Model;

/// A cut of a log: of each hart the number of its first event that is kept. The events before it
/// are the past.
///
/// Contracts see it as the list of the numbers, by hart.
#[derive(Drop, Debug)]
pub struct Cut {
    firsts: [u32; 16],
}

impl Model for Cut {
    ghost use Rattle.std.specs.Prelude.{List, ℕ};

    ghost Value = { List ℕ };

    ghost view = { λ c. c.firsts };
}

impl Cut {
    /// The cut with no past. It takes no memory.
    pub fn new() -> Cut
        ensures { (hart : ℕ) → first_of result hart ≡ 0 }
    {
        Cut { firsts: [0; 16] }
    }

    /// The cut whose past is all of the log.
    pub(crate) fn behind(log: &[Entry]) -> Cut
        requires { Indexed (events log.now) }
        ensures { (hart : ℕ) → first_of result hart ≡ length (of_hart hart (events log.now)) }
    {
        let mut firsts = [0; 16];
        for entry in log {
            firsts[entry.event.id.hart as usize] += 1;
        }
        Cut { firsts }
    }

    /// The number of the hart's first event that is kept; 0 for a hart above 15.
    pub fn first(&self, hart: u8) -> u32
        ensures { result ≡ first_of self.now hart }
    {
        match self.firsts.get(hart as usize) {
            Some(first) => *first,
            None => 0,
        }
    }

    /// Whether an event of this id belongs to the past.
    pub fn is_past(&self, id: Id) -> bool
        ensures { result ≡ is_past self.now id }
    {
        id.seq < self.first(id.hart)
    }

    /// The cut whose window is the next cut's window of this one's: both numbers added. A number that
    /// would be above 2^32 - 1 is that.
    pub fn then(&self, next: &Cut) -> Cut
        ensures { (hart : ℕ) → first_of result hart
            ≡ min (first_of self.now hart + first_of next.now hart) 4294967295 }
    {
        let mut firsts = self.firsts;
        'harts: for hart in 0..16 {
            firsts[hart] = firsts[hart].saturating_add(next.firsts[hart]);
        }
        Cut { firsts }
    }

    /// Keeps the event of this id, and all that come after it on its hart.
    pub(crate) fn keep(&mut self, id: Id)
        ensures numbers { (hart : ℕ) → first_of self.new hart
            ≡ (if hart == id.hart then min (first_of self.old hart) id.seq else first_of self.old hart) }
        ensures kept { IsFalse (is_past self.new id) }
        ensures lower { AreLower self.old self.new }
    {
        let hart = id.hart as usize;
        if hart < 16 {
            self.firsts[hart] = self.firsts[hart].min(id.seq);
        }
    }
}
