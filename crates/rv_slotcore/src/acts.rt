//! The eight acts of a seat, and the step that goes by the act.
ghost use Rattle.std.specs.Prelude.{◌≡◌, ◌<◌, ◌≤◌, ◌&&◌, IfOk, OnErr, map, unwrap_or, is_some};
ghost use Rattle.std.specs.Prelude.{vec_len};
ghost use Rattle.std.specs.List.{list_all};
ghost use Rattle.rv_chunk.specs.Chunks.{is_chunk_text};
ghost use Rattle.rv_slotcore.specs.Places.{seats_at_most};
ghost use Rattle.rv_slotcore.specs.Machine.{claims, puts, publishes, pins_on, gets, finishes};
ghost use Rattle.rv_slotcore.specs.Machine.{lets_go, unpins, frees, moves};
ghost use Rattle.rv_slotcore.specs.CoreIs.{Went, core_of, act_of, IsHeld, AllHeld};

use crate::parts::{Parts, Record, SeatState};
use crate::step::{Act, Answer, Step};
use crate::word::{is_free_word, is_last};
use rv_chunk::Chunk;
use rv_event::NoMemory;

/// The words that were put, 0 where there is none.
fn put_words(words: &[Option<u64>; 58]) -> [u64; 58]
    ensures { result ≡ map (λ o. unwrap_or o 0) words.now }
{
    let mut content = [0; 58];
    for place in 0..58usize {
        content[place] = words[place].unwrap_or(0);
    }
    content
}

/// Whether all words were put.
fn all_put(words: &[Option<u64>; 58]) -> bool
    ensures { result ≡ list_all is_some words.now }
{
    words.iter().all(|word| word.is_some())
}

/// Whether all words were put, and these are a chunk text.
fn may_publish(words: &[Option<u64>; 58], content: &[u64; 58]) -> bool
    ensures { result ≡ (list_all is_some words.now && is_chunk_text content.now) }
{
    all_put(words) && Chunk::of_words(content).is_some()
}

impl Parts {
    /// A claim.
    fn claim(&mut self, seat: u8, slot: usize) -> Answer
        requires seat { seat < vec_len self.old.seats }
        requires slot { slot < vec_len self.old.slots }
        ensures { let c = core_of self.old in
            Went self.new result (claims c seat slot (c.seats seat).state (c.slots slot).claimed) }
    {
        let SeatState::Idle = self.state(seat) else {
            return Answer::Unfit;
        };
        if self.is_claimed(slot) {
            return Answer::Busy;
        }
        self.mark_claimed(slot);
        self.set_state(seat, SeatState::Filling(slot, [None; 58]));
        Answer::Filling
    }

    /// A put.
    fn put(&mut self, seat: u8, place: usize, word: u64) -> Answer
        requires seat { seat < vec_len self.old.seats }
        requires place { place < 58 }
        requires held { IsHeld self.old seat }
        ensures { let c = core_of self.old in Went self.new result (puts c seat place word (c.seats seat).state) }
    {
        let SeatState::Filling(slot, words) = self.state(seat) else {
            return Answer::Unfit;
        };
        let slot = *slot;
        let mut words = *words;
        words[place] = Some(word);
        self.set_content_word(slot, place, word);
        self.set_state(seat, SeatState::Filling(slot, words));
        Answer::Stored
    }

    /// A publish. Out of memory leaves all as it was.
    fn publish(&mut self, seat: u8) -> Result<Answer, NoMemory>
        requires seat { seat < vec_len self.old.seats }
        requires held { IsHeld self.old seat }
        ensures ok { let c = core_of self.old in
            IfOk result (λ a. Went self.new a (publishes c seat (c.seats seat).state)) }
        ensures err { OnErr result (core_of self.new ≡ core_of self.old) }
    {
        let SeatState::Filling(slot, words) = self.state(seat) else {
            return Ok(Answer::Unfit);
        };
        let slot = *slot;
        let content = put_words(words);
        if !may_publish(words, &content) {
            return Ok(Answer::Unfit);
        }
        let generation = self.generation(slot);
        let record = Record {
            slot,
            generation,
            content,
        };
        self.set_recorded(seat, SeatState::Idle, record)?;
        self.mark_full(slot);
        Ok(Answer::Published)
    }

    /// A pin. Out of memory leaves all as it was.
    fn pin(&mut self, seat: u8, slot: usize) -> Result<Answer, NoMemory>
        requires seat { seat < vec_len self.old.seats }
        requires seat_bit { seat < seats_at_most }
        requires slot { slot < vec_len self.old.slots }
        ensures ok { let c = core_of self.old in
            IfOk result (λ a. Went self.new a (pins_on c seat slot (c.seats seat).state)) }
        ensures err { OnErr result (core_of self.new ≡ core_of self.old) }
    {
        let SeatState::Idle = self.state(seat) else {
            return Ok(Answer::Unfit);
        };
        if self.is_readable(slot) {
            let generation = self.generation(slot);
            let content = *self.content(slot);
            let record = Record {
                slot,
                generation,
                content,
            };
            self.set_recorded(seat, SeatState::Pinned(slot, generation, content), record)?;
            self.mark_pin(slot, seat);
            Ok(Answer::Pinned)
        } else {
            self.mark_pin(slot, seat);
            self.set_state(seat, SeatState::Stray(slot));
            Ok(Answer::Stray)
        }
    }

    /// A get.
    fn get(&mut self, seat: u8, place: usize) -> Answer
        requires seat { seat < vec_len self.old.seats }
        requires place { place < 58 }
        requires held { IsHeld self.old seat }
        ensures { let c = core_of self.old in Went self.new result (gets c seat place (c.seats seat).state) }
    {
        let SeatState::Pinned(slot, _, _) = self.state(seat) else {
            return Answer::Unfit;
        };
        Answer::Word(self.content_word(*slot, place))
    }

    /// A done.
    fn finish(&mut self, seat: u8) -> Answer
        requires seat { seat < vec_len self.old.seats }
        requires held { IsHeld self.old seat }
        ensures { let c = core_of self.old in Went self.new result (finishes c seat (c.seats seat).state) }
    {
        let SeatState::Pinned(slot, _, _) = self.state(seat) else {
            return Answer::Unfit;
        };
        let slot = *slot;
        self.mark_done(slot);
        Answer::Finished
    }

    /// Takes the seat's pin off the slot.
    fn let_go(&mut self, seat: u8, slot: usize) -> Answer
        requires seat { seat < vec_len self.old.seats }
        requires seat_bit { seat < seats_at_most }
        requires slot { slot < vec_len self.old.slots }
        ensures { Went self.new result (lets_go (core_of self.old) seat slot) }
    {
        let word = self.take_pin(slot, seat);
        self.set_state(seat, SeatState::Idle);
        Answer::Unpinned(word)
    }

    /// An unpin.
    fn unpin(&mut self, seat: u8) -> Answer
        requires seat { seat < vec_len self.old.seats }
        requires seat_bit { seat < seats_at_most }
        requires held { IsHeld self.old seat }
        ensures { let c = core_of self.old in Went self.new result (unpins c seat (c.seats seat).state) }
    {
        match self.state(seat) {
            SeatState::Pinned(slot, _, _) => {
                let slot = *slot;
                self.let_go(seat, slot)
            }
            SeatState::Stray(slot) => {
                let slot = *slot;
                self.let_go(seat, slot)
            }
            _ => Answer::Unfit,
        }
    }

    /// A free.
    fn free(&mut self, seat: u8, slot: usize, seen: u64) -> Answer
        requires seat { seat < vec_len self.old.seats }
        requires slot { slot < vec_len self.old.slots }
        ensures { let c = core_of self.old in Went self.new result (frees c seat slot seen (c.seats seat).state) }
    {
        let SeatState::Idle = self.state(seat) else {
            return Answer::Unfit;
        };
        if !is_free_word(seen) {
            return Answer::Held;
        }
        if is_last(seen) {
            return Answer::Worn;
        }
        if self.word(slot) != seen {
            return Answer::Held;
        }
        self.advance(slot);
        Answer::Freed
    }

    /// One step of the machine. Out of memory leaves all as it was.
    pub(crate) fn step(&mut self, step: Step) -> Result<Answer, NoMemory>
        requires few { vec_len self.old.seats ≤ seats_at_most }
        requires held { AllHeld self.old }
        ensures ok { IfOk result (λ a. Went self.new a (moves (core_of self.old) step.seat (act_of step.act))) }
        ensures err { OnErr result (core_of self.new ≡ core_of self.old) }
    {
        let seat = step.seat;
        if seat as usize >= self.seats.len() {
            return Ok(Answer::Unfit);
        }
        match step.act {
            Act::Claim(slot) if slot < self.slots.len() => Ok(self.claim(seat, slot)),
            Act::Put(place, word) if place < 58 => Ok(self.put(seat, place, word)),
            Act::Publish => self.publish(seat),
            Act::Pin(slot) if slot < self.slots.len() => self.pin(seat, slot),
            Act::Get(place) if place < 58 => Ok(self.get(seat, place)),
            Act::Done => Ok(self.finish(seat)),
            Act::Unpin => Ok(self.unpin(seat)),
            Act::Free(slot, seen) if slot < self.slots.len() => Ok(self.free(seat, slot, seen)),
            _ => Ok(Answer::Unfit),
        }
    }
}
