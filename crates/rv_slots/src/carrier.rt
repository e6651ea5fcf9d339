//! What hands chunks from thread to thread.
ghost use Rattle.std.specs.Prelude.{ℕ, Bool};
ghost use Rattle.rv_slots.specs.Looks.{LooksFit};
ghost use Rattle.rv_slots.specs.declared.carrier.Looked.{Looked};

use rv_chunk::Chunk;
use std::sync::Wait;

/// What became of a chunk that was to be put.
#[derive(Clone, Copy, PartialEq, Eq, Debug)]
pub enum Put {
    /// A slot holds it now.
    Placed,
    /// No slot was free; nothing changed.
    Busy,
}

/// What was found in a slot.
#[derive(Drop)]
pub enum Looked<S, L> {
    /// The slot's chunk, and the lease by which the slot is held until it is finished.
    Found(Chunk, L),
    /// There is nothing to be read; here is the seat back.
    Nothing(S),
}

/// Hands chunks from thread to thread through slots, each of which holds one chunk.
///
/// A seat is what a thread needs to take part, and a lease what its seat becomes while it reads a
/// slot. Each call takes the one that it needs and gives one back, so a thread can do one thing at
/// a time. What keeps seats and leases of several carriers apart are two predicates of the
/// implementer's own, which every call asks for and hands on. What a look at a slot and its end do
/// are two relations of the implementer's own, by which a caller's contract can name them.
///
/// No call promises that a chunk is ever placed, or ever found.
pub trait Carrier {
    /// What a thread needs to take part.
    type Seat: Send + Drop;

    /// A seat that reads a slot.
    type Lease: Send + Drop;

    // the seat is of this carrier
    ghost fits: { Self → Self.Seat → Type 0 };

    // the lease is of this carrier
    ghost holds: { Self → Self.Lease → Type 0 };

    // a look with this seat at the slot of this index finds this
    ghost looks: { Self → Self.Seat → ℕ → Looked Self.Seat Self.Lease → Type 0 };

    // the lease is given up for this seat, and says whether its chunk is done with
    ghost finishes: { Self → Self.Lease → Bool → Self.Seat → Type 0 };

    /// Puts the chunk into a free slot, or answers `Busy`. It takes no memory.
    fn put_chunk<R: Wait>(&self, rt: &R, seat: Self::Seat, chunk: &Chunk) -> (Self::Seat, Put)
        requires { fits self.now seat }
        ensures { fits self.now result.0 };

    /// Looks at the slot of this index. `Nothing` is the answer too where there is no such slot, so
    /// that a thread that does not know how many there are can try each index. It takes no memory.
    fn read_chunk<R: Wait>(
        &self,
        rt: &R,
        seat: Self::Seat,
        index: usize,
    ) -> Looked<Self::Seat, Self::Lease>
        requires { fits self.now seat }
        ensures fits { LooksFit (fits self.now) (holds self.now) result }
        ensures looks { looks self.now seat index result };

    /// Ends the reading of a slot, and says whether its chunk is done with. A slot whose chunk is
    /// done with is free again once nobody reads it. It takes no memory.
    fn finish_chunk<R: Wait>(&self, rt: &R, lease: Self::Lease, applied: bool) -> Self::Seat
        requires { holds self.now lease }
        ensures fits { fits self.now result }
        ensures finishes { finishes self.now lease applied result };
}
