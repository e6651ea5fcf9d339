//! The slots and seats of a core, and each read and write of one of them.
ghost use Rattle.std.specs.Prelude.{◌≡◌, ◌<◌, ◌&&◌, ◌+◌, not, true, false, OnOk, OnErr, IfOk, ℕ};
ghost use Rattle.std.specs.Prelude.{slice_index, vec_len};
ghost use Rattle.rv_slotcore.specs.Places.{seats_at_most, last_generation};
ghost use Rattle.rv_slotcore.specs.Machine.{with_slot, with_seat, in_state, written_slot};
ghost use Rattle.rv_slotcore.specs.Machine.{claimed_slot, full_slot, done_slot, pinned_slot};
ghost use Rattle.rv_slotcore.specs.Machine.{freed_slot, recorded, start, word_of};
ghost use Rattle.rv_slotcore.specs.CoreIs.{core_of, slot_of, slot_read, state_of, record_of};

use crate::word::{CLAIMED, DONE, FULL, generation, next_word, pin_of};
use rv_event::NoMemory;
use std::alloc::Global;

/// A slot: its state word, and its content.
#[derive(Clone, Copy, PartialEq, Eq, Debug)]
pub struct SlotState {
    /// The state word.
    pub word: u64,
    /// The words of the content, of which the latest fill's stay until the next.
    pub content: [u64; 58],
}

/// What a seat is doing.
#[derive(Clone, Copy, PartialEq, Eq, Debug)]
pub enum SeatState {
    /// Nothing.
    Idle,
    /// It fills this slot, and has put these words.
    Filling(usize, [Option<u64>; 58]),
    /// It has pinned this slot, of this generation and with this content.
    Pinned(usize, u64, [u64; 58]),
    /// It has its pin on this slot, and may not read it.
    Stray(usize),
}

/// What a seat knows of a fill: its slot, its generation and its content.
#[derive(Clone, Copy, PartialEq, Eq, Debug)]
pub struct Record {
    /// The slot.
    pub slot: usize,
    /// The generation.
    pub generation: u64,
    /// The content.
    pub content: [u64; 58],
}

/// A seat: what it is doing, and a record of each fill that it published or pinned, the first at
/// the front.
#[derive(Drop)]
pub(crate) struct SeatEntry {
    pub(crate) state: SeatState,
    pub(crate) records: Vec<Record>,
}

/// The slots and seats of a core.
#[derive(Drop)]
pub(crate) struct Parts {
    pub(crate) slots: Vec<SlotState>,
    pub(crate) seats: Vec<SeatEntry>,
}

impl Parts {
    /// Slots whose words are all 0, and idle seats without a record.
    pub(crate) fn new(alloc: Global, slots: usize, seats: u8) -> Result<Parts, NoMemory>
        ensures { IfOk result (λ p. core_of p ≡ start slots seats) }
    {
        let mut table = Vec::new(alloc);
        table.resize(
            slots,
            SlotState {
                word: 0,
                content: [0; 58],
            },
        )?;
        let mut entries = Vec::with_capacity(alloc, seats as usize)?;
        for number in 0..seats {
            entries.push(SeatEntry {
                state: SeatState::Idle,
                records: Vec::new(alloc),
            })?;
        }
        Ok(Parts {
            slots: table,
            seats: entries,
        })
    }

    /// A second one in the same state.
    pub(crate) fn copy(&self, alloc: Global) -> Result<Parts, NoMemory>
        ensures { IfOk result (λ p. core_of p ≡ core_of self.now) }
    {
        let slots = Vec::from_slice(alloc, self.slots.as_slice())?;
        let mut seats = Vec::with_capacity(alloc, self.seats.len())?;
        for k in 0..self.seats.len() {
            let entry = &self.seats[k];
            let records = Vec::from_slice(alloc, entry.records.as_slice())?;
            seats.push(SeatEntry {
                state: entry.state,
                records,
            })?;
        }
        Ok(Parts { slots, seats })
    }

    /// A slot.
    pub(crate) fn slot(&self, slot: usize) -> &SlotState
        requires { slot < vec_len self.now.slots }
        ensures { slot_of result.now ≡ (core_of self.now).slots slot }
    {
        &self.slots[slot]
    }

    /// The state word of a slot.
    pub(crate) fn word(&self, slot: usize) -> u64
        requires { slot < vec_len self.now.slots }
        ensures read { let x = (core_of self.now).slots slot in x ≡ slot_read result x.content }
        ensures word { result ≡ word_of ((core_of self.now).slots slot) }
    {
        self.slots[slot].word
    }

    /// A word of a slot's content.
    pub(crate) fn content_word(&self, slot: usize, place: usize) -> u64
        requires slot { slot < vec_len self.now.slots }
        requires place { place < 58 }
        ensures { result ≡ slice_index ((core_of self.now).slots slot).content place }
    {
        self.slots[slot].content[place]
    }

    /// A slot's content.
    pub(crate) fn content(&self, slot: usize) -> &[u64; 58]
        requires { slot < vec_len self.now.slots }
        ensures { result.now ≡ ((core_of self.now).slots slot).content }
    {
        &self.slots[slot].content
    }

    /// A slot's generation.
    pub(crate) fn generation(&self, slot: usize) -> u64
        requires { slot < vec_len self.now.slots }
        ensures { result ≡ ((core_of self.now).slots slot).generation }
    {
        generation(self.word(slot))
    }

    /// What a seat is doing.
    pub(crate) fn state(&self, seat: u8) -> &SeatState
        requires { seat < vec_len self.now.seats }
        ensures { ((core_of self.now).seats seat).state ≡ state_of result.now }
    {
        &self.seats[seat as usize].state
    }

    /// Whether a slot is claimed.
    pub(crate) fn is_claimed(&self, slot: usize) -> bool
        requires { slot < vec_len self.now.slots }
        ensures { result ≡ ((core_of self.now).slots slot).claimed }
    {
        self.word(slot) & CLAIMED != 0
    }

    /// Whether a slot is full.
    fn is_full(&self, slot: usize) -> bool
        requires { slot < vec_len self.now.slots }
        ensures { result ≡ ((core_of self.now).slots slot).full }
    {
        self.word(slot) & FULL != 0
    }

    /// Whether a slot is done.
    fn is_done(&self, slot: usize) -> bool
        requires { slot < vec_len self.now.slots }
        ensures { result ≡ ((core_of self.now).slots slot).done }
    {
        self.word(slot) & DONE != 0
    }

    /// Whether a slot is full and not done.
    pub(crate) fn is_readable(&self, slot: usize) -> bool
        requires { slot < vec_len self.now.slots }
        ensures { let x = (core_of self.now).slots slot in result ≡ (x.full && not x.done) }
    {
        self.is_full(slot) && !self.is_done(slot)
    }

    /// Writes a slot's state word.
    fn set_word(&mut self, slot: usize, word: u64)
        requires { slot < vec_len self.old.slots }
        ensures { let c = core_of self.old in
            core_of self.new ≡ with_slot c slot (slot_read word (c.slots slot).content) }
    {
        self.slots[slot].word = word;
    }

    /// Writes a word of a slot's content.
    pub(crate) fn set_content_word(&mut self, slot: usize, place: usize, word: u64)
        requires slot { slot < vec_len self.old.slots }
        requires place { place < 58 }
        ensures { let c = core_of self.old in
            core_of self.new ≡ with_slot c slot (written_slot (c.slots slot) place word) }
    {
        self.slots[slot].content[place] = word;
    }

    /// Changes what a seat is doing.
    pub(crate) fn set_state(&mut self, seat: u8, state: SeatState)
        requires { seat < vec_len self.old.seats }
        ensures { let c = core_of self.old in
            core_of self.new ≡ with_seat c seat (in_state (c.seats seat) (state_of state)) }
    {
        self.seats[seat as usize].state = state;
    }

    /// Changes what a seat is doing and adds a record to it, or changes nothing where there is no
    /// memory.
    pub(crate) fn set_recorded(
        &mut self,
        seat: u8,
        state: SeatState,
        made: Record,
    ) -> Result<(), NoMemory>
        requires { seat < vec_len self.old.seats }
        ensures ok { let c = core_of self.old in OnOk result (core_of self.new
            ≡ with_seat c seat (recorded (c.seats seat) (state_of state) (record_of made))) }
        ensures err { OnErr result (core_of self.new ≡ core_of self.old) }
    {
        let entry = &mut self.seats[seat as usize];
        let Ok(()) = entry.records.push(made) else {
            return Err(NoMemory);
        };
        entry.state = state;
        Ok(())
    }

    /// Sets a slot's flag claimed.
    pub(crate) fn mark_claimed(&mut self, slot: usize)
        requires { slot < vec_len self.old.slots }
        ensures { let c = core_of self.old in core_of self.new ≡ with_slot c slot (claimed_slot (c.slots slot)) }
    {
        self.set_word(slot, self.word(slot) | CLAIMED);
    }

    /// Sets a slot's flag full.
    pub(crate) fn mark_full(&mut self, slot: usize)
        requires { slot < vec_len self.old.slots }
        ensures { let c = core_of self.old in core_of self.new ≡ with_slot c slot (full_slot (c.slots slot)) }
    {
        self.set_word(slot, self.word(slot) | FULL);
    }

    /// Sets a slot's flag done.
    pub(crate) fn mark_done(&mut self, slot: usize)
        requires { slot < vec_len self.old.slots }
        ensures { let c = core_of self.old in core_of self.new ≡ with_slot c slot (done_slot (c.slots slot)) }
    {
        self.set_word(slot, self.word(slot) | DONE);
    }

    /// Sets a seat's pin on a slot.
    pub(crate) fn mark_pin(&mut self, slot: usize, seat: u8)
        requires slot { slot < vec_len self.old.slots }
        requires seat { seat < seats_at_most }
        ensures { let c = core_of self.old in
            core_of self.new ≡ with_slot c slot (pinned_slot (c.slots slot) seat true) }
    {
        self.set_word(slot, self.word(slot) | pin_of(seat));
    }

    /// Takes a seat's pin off a slot, and gives the state word without it.
    pub(crate) fn take_pin(&mut self, slot: usize, seat: u8) -> u64
        requires slot { slot < vec_len self.old.slots }
        requires seat { seat < seats_at_most }
        ensures core { let c = core_of self.old in
            core_of self.new ≡ with_slot c slot (pinned_slot (c.slots slot) seat false) }
        ensures word { result ≡ word_of (pinned_slot ((core_of self.old).slots slot) seat false) }
    {
        let word = self.word(slot) & !pin_of(seat);
        self.set_word(slot, word);
        word
    }

    /// Empties a slot into its next generation. Its generation isn't to be the last.
    pub(crate) fn advance(&mut self, slot: usize)
        requires slot { slot < vec_len self.old.slots }
        requires not_last { ((core_of self.old).slots slot).generation < last_generation }
        ensures { let c = core_of self.old in core_of self.new ≡ with_slot c slot (freed_slot (c.slots slot)) }
    {
        self.set_word(slot, next_word(self.word(slot)));
    }
}
