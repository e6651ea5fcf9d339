//! The calls by which a seat fills, reads and frees slots, each of them one exchange.
ghost use Rattle.std.specs.Prelude.{◌≡◌, ◌<◌, ◌*◌, ℕ, true, Some};
ghost use Rattle.rv_chunk.specs.Chunks.{is_chunk_text};
ghost use Rattle.rv_slotcore.specs.Machine.{all_put, put_words};
ghost use Rattle.rv_slots.specs.Calls.{IsClaim, IsSameFilling, IsPublish, IsPin, IsSamePinned};
ghost use Rattle.rv_slots.specs.Calls.{IsUnpin, IsFree, filling_view, pinned_view, stray_view};
ghost use Rattle.rv_slots.specs.Lines.{put_line, got, finished, known, put_in, pin_words, IsText};

use crate::plays::{Claims, Finishes, Frees, Gets, Pins, Publishes, Puts, Unpins};
use crate::seats::{Claim, Filling, Free, Pin, Pinned, Seat, Stray};
use crate::slots::Slots;
use rv_slotcore::{CLAIMED, DONE, FULL, SLOT_WORDS, is_free_word, is_last, next_word, pin_of};

impl Slots {
    /// Wants to fill a slot: sets its flag claimed. `Busy` comes exactly where it was set already.
    pub fn claim(&self, seat: Seat, slot: usize) -> Claim
        requires table { seat.place.table_id ≡ self.now.table.shared.table_id }
        requires slot { slot < self.now.count }
        ensures { IsClaim seat slot result }
    {
        let Seat { number, mut place } = seat;
        let shared = &self.table.shared;
        let found = shared.fetch_or::<Claims>(&mut place, SLOT_WORDS * slot, CLAIMED);
        if found & CLAIMED == 0 {
            Claim::Filling(Filling {
                number,
                slot,
                place,
            })
        } else {
            Claim::Busy(Seat { number, place })
        }
    }

    /// Puts a word at a place of the slot that the seat fills.
    pub fn put(&self, filling: &mut Filling, place: usize, word: u64)
        requires table { filling.old.place.table_id ≡ self.now.table.shared.table_id }
        requires place { place < 58 }
        ensures step { filling_view filling.new
            ≡ put_line (filling_view filling.old) filling.old.slot place word }
        ensures same { IsSameFilling filling.old filling.new }
    {
        let at = SLOT_WORDS * filling.slot + (1 + place);
        let shared = &self.table.shared;
        shared.store::<Puts>(&mut filling.place, at, word);
    }

    /// Gives the slot that the seat has filled to be read: sets its flag full. All 58 words are to
    /// have been put, and to be a chunk text. The seat then has a record of them.
    pub fn publish(&self, filling: Filling) -> Seat
        requires table { filling.place.table_id ≡ self.now.table.shared.table_id }
        requires whole { all_put (put_in (filling_view filling).state) ≡ true }
        requires text { is_chunk_text (put_words (put_in (filling_view filling).state)) ≡ true }
        ensures { IsPublish filling result }
    {
        let Filling {
            number,
            slot,
            mut place,
        } = filling;
        let shared = &self.table.shared;
        shared.fetch_or::<Publishes>(&mut place, SLOT_WORDS * slot, FULL);
        Seat { number, place }
    }

    /// Sets the seat's pin on a slot, so that it isn't freed. The seat may read it exactly where
    /// the slot was full and not done, and then has a record of the generation found, which is no
    /// lower than that of any record that it has of the slot.
    pub fn pin(&self, seat: Seat, slot: usize) -> Pin
        requires table { seat.place.table_id ≡ self.now.table.shared.table_id }
        requires slot { slot < self.now.count }
        ensures { IsPin seat slot result }
    {
        let Seat { number, mut place } = seat;
        let shared = &self.table.shared;
        let found = shared.fetch_or::<Pins>(&mut place, SLOT_WORDS * slot, pin_of(number));
        if found & FULL != 0 && found & DONE == 0 {
            Pin::Pinned(Pinned {
                number,
                slot,
                place,
            })
        } else {
            Pin::Stray(Stray {
                number,
                slot,
                place,
            })
        }
    }

    /// The word at a place of the slot that the seat has pinned: that of the pinned fill, and so
    /// the same each time.
    pub fn get(&self, pinned: &mut Pinned, place: usize) -> u64
        requires table { pinned.old.place.table_id ≡ self.now.table.shared.table_id }
        requires place { place < 58 }
        ensures step { pinned_view pinned.new
            ≡ got (pinned_view pinned.old) pinned.old.slot place result }
        ensures text { IsText (pin_words (pinned_view pinned.new).records) }
        ensures again { (v : ℕ) → known (pinned_view pinned.old).records place ≡ Some v → result ≡ v }
        ensures same { IsSamePinned pinned.old pinned.new }
    {
        let at = SLOT_WORDS * pinned.slot + (1 + place);
        self.table.shared.load::<Gets>(&mut pinned.place, at)
    }

    /// Says that the words of the slot that the seat has pinned are used up: sets its flag done.
    pub fn done(&self, pinned: &mut Pinned)
        requires table { pinned.old.place.table_id ≡ self.now.table.shared.table_id }
        ensures step { (found : ℕ)
            × (pinned_view pinned.new ≡ finished (pinned_view pinned.old) pinned.old.slot found) }
        ensures same { IsSamePinned pinned.old pinned.new }
    {
        let at = SLOT_WORDS * pinned.slot;
        let shared = &self.table.shared;
        shared.fetch_or::<Finishes>(&mut pinned.place, at, DONE);
    }

    /// Takes the seat's pin off, and gives the state word as it then stands.
    pub fn unpin(&self, pinned: Pinned) -> (Seat, u64)
        requires table { pinned.place.table_id ≡ self.now.table.shared.table_id }
        ensures step { IsUnpin (pinned_view pinned) pinned.slot pinned.number result.0 result.1 }
        ensures table { result.0.place.table_id ≡ pinned.place.table_id }
    {
        let Pinned {
            number,
            slot,
            mut place,
        } = pinned;
        let others = !pin_of(number);
        let shared = &self.table.shared;
        let found = shared.fetch_and::<Unpins>(&mut place, SLOT_WORDS * slot, others);
        (Seat { number, place }, found & others)
    }

    /// Takes the pin of a seat off that may not read, and gives the state word as it then stands.
    pub fn unpin_stray(&self, stray: Stray) -> (Seat, u64)
        requires table { stray.place.table_id ≡ self.now.table.shared.table_id }
        ensures step { IsUnpin (stray_view stray) stray.slot stray.number result.0 result.1 }
        ensures table { result.0.place.table_id ≡ stray.place.table_id }
    {
        let Stray {
            number,
            slot,
            mut place,
        } = stray;
        let others = !pin_of(number);
        let shared = &self.table.shared;
        let found = shared.fetch_and::<Unpins>(&mut place, SLOT_WORDS * slot, others);
        (Seat { number, place }, found & others)
    }

    /// Frees a slot, if its state word is still the one that the seat has seen, and that one says
    /// claimed, full and done and has no pin.
    ///
    /// `Held` without an exchange where the word seen doesn't say so; else `Worn` without an
    /// exchange where its generation is the last; else one exchange is tried: `Freed` exactly where
    /// it found the word seen, else `Held`.
    pub fn free(&self, seat: &mut Seat, slot: usize, seen: u64) -> Free
        requires table { seat.old.place.table_id ≡ self.now.table.shared.table_id }
        requires slot { slot < self.now.count }
        ensures step { IsFree seat.old slot seen result seat.new }
        ensures table { seat.new.place.table_id ≡ seat.old.place.table_id }
        ensures number { seat.new.number ≡ seat.old.number }
    {
        if !is_free_word(seen) {
            return Free::Held;
        }
        if is_last(seen) {
            return Free::Worn;
        }
        let shared = &self.table.shared;
        let at = SLOT_WORDS * slot;
        let found = shared.compare_exchange::<Frees>(&mut seat.place, at, seen, next_word(seen));
        if found == seen {
            Free::Freed
        } else {
            Free::Held
        }
    }
}
