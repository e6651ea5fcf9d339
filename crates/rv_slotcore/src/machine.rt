//! The slot table as a machine that runs.
ghost use Rattle.std.specs.Prelude.{◌≡◌, ◌↔◌, ◌≤◌, ◌<◌, ℕ, IfOk, OnErr, IsSome, IfSome, map, vec_len};
ghost use Rattle.rv_slotcore.specs.Places.{seats_at_most, slots_at_least, slots_at_most};
ghost use Rattle.rv_slotcore.specs.Machine.{start, moves, run, answers};
ghost use Rattle.rv_slotcore.specs.CoreIs.{Went, core_of, act_of, step_of, answer_of, slot_of};
ghost use Rattle.rv_slotcore.specs.CoreIs.{state_of};

use crate::parts::{Parts, SeatState, SlotState};
use crate::step::{Answer, Step};
use rv_event::NoMemory;
use std::alloc::Global;
use std::marker::Model;

/// The slots and seats of a slot table, which change step by step.
///
/// Contracts see what its slots and seats hold. Its type keeps that each seat has a pin in a state
/// word, and that each seat's state names a slot of the table.
#[derive(Drop)]
pub struct Core {
    parts: Parts,
}

impl Model for Core {
    ghost use Rattle.rv_slotcore.specs.declared.parts.Parts.{Parts};
    ghost use Rattle.rv_slotcore.specs.CoreIs.{IsWhole};

    ghost Value = { Parts };

    ghost view = { λ c. c.parts };

    ghost invariant = { λ c. IsWhole c.parts };
}

impl Core {
    /// A table of 2 to 16 slots and 1 to 32 seats: all words are 0, and all seats idle without a
    /// record.
    ///
    /// # Errors
    /// Out of memory.
    pub fn new(alloc: Global, slots: usize, seats: u8) -> Result<Core, NoMemory>
        requires slots { (slots_at_least ≤ slots) × (slots ≤ slots_at_most) }
        requires seats { (1 ≤ seats) × (seats ≤ seats_at_most) }
        ensures { IfOk result (λ c. core_of c ≡ start slots seats) }
    {
        let parts = Parts::new(alloc, slots, seats)?;
        Ok(Core { parts })
    }

    /// A slot, if the table has one of this number.
    pub fn slot(&self, slot: usize) -> Option<&SlotState>
        ensures some { IsSome result ↔ (slot < (core_of self.now).slot_count) }
        ensures same { IfSome result (λ x. slot_of x.now ≡ (core_of self.now).slots slot) }
    {
        if slot >= self.parts.slots.len() {
            return None;
        }
        Some(self.parts.slot(slot))
    }

    /// What a seat is doing, if the table has one of this number.
    pub fn seat(&self, seat: u8) -> Option<&SeatState>
        ensures some { IsSome result ↔ (seat < (core_of self.now).seat_count) }
        ensures same { IfSome result (λ x. state_of x.now ≡ ((core_of self.now).seats seat).state) }
    {
        if seat as usize >= self.parts.seats.len() {
            return None;
        }
        Some(self.parts.state(seat))
    }

    /// One step of the machine, and its answer.
    ///
    /// # Errors
    /// Out of memory, for a record. The core is then as it was.
    pub fn step(&mut self, step: Step) -> Result<Answer, NoMemory>
        ensures ok { IfOk result (λ a. Went self.new a (moves (core_of self.old) step.seat (act_of step.act))) }
        ensures err { OnErr result (core_of self.new ≡ core_of self.old) }
    {
        self.parts.step(step)
    }

    /// A second core in the same state.
    fn copy(&self, alloc: Global) -> Result<Core, NoMemory>
        ensures { IfOk result (λ c. core_of c ≡ core_of self.now) }
    {
        let parts = self.parts.copy(alloc)?;
        Ok(Core { parts })
    }

    /// The steps one after another, and their answers in the same order.
    ///
    /// They are made on a copy, which takes the core's place at the end.
    ///
    /// # Errors
    /// Out of memory, at any of the steps too. The core is then as it was.
    pub fn run(&mut self, alloc: Global, steps: &[Step]) -> Result<Vec<Answer>, NoMemory>
        ensures core { IfOk result (λ _. core_of self.new ≡ run (map step_of steps.now) (core_of self.old)) }
        ensures answers { IfOk result (λ v.
            map answer_of v.items ≡ answers (map step_of steps.now) (core_of self.old)) }
        ensures err { OnErr result (core_of self.new ≡ core_of self.old) }
    {
        let mut next = self.copy(alloc)?;
        let mut answers = Vec::with_capacity(alloc, steps.len())?;
        for k in 0..steps.len() {
            answers.push(next.step(steps[k])?)?;
        }
        *self = next;
        Ok(answers)
    }
}
