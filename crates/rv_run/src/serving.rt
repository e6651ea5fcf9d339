//! Chunks of the carrier, offered to the gate.
ghost use Rattle.std.specs.Prelude.{◌≡◌};
ghost use Rattle.rv_slots.specs.declared.carrier.Looked.{Looked};
ghost use Rattle.rv_run.specs.Turns.{IsServed, IsTurnOf};
ghost use Rattle.rv_verdict.specs.Known.{StillKnows};

use crate::gate::{Awaited, Gate};
use crate::waiting::Patience;
use rv_book::ChunkOffer;
use rv_slots::{Carrier, Looked};
use rv_verdict::{Raise, VerdictCell, VerdictNote};
use std::alloc::Global;
use std::sync::Wait;

/// How many slots a carrier may have.
const MOST_SLOTS: usize = 16;

/// How a worker ended.
#[derive(Clone, Copy, PartialEq, Eq, Debug)]
pub enum ServeEnd {
    /// The gate was stopped.
    Over,
    /// There was no memory to accept an event, or to raise a verdict.
    NoMemory,
}

/// A worker's seat and note, and how it ended.
#[derive(Drop)]
pub struct Served<S> {
    /// The seat, given back.
    pub seat: S,
    /// What the worker has learned of the verdict.
    pub note: VerdictNote,
    /// How it ended.
    pub end: ServeEnd,
}

/// What became of a slot, or of a round over all of them.
#[derive(Clone, Copy, PartialEq, Eq, Debug)]
enum Turn {
    /// No chunk was found, or none that is done with now.
    Idle,
    /// A chunk was offered, and all of it is in the book.
    Applied,
    /// There was no memory.
    NoMemory,
}

impl Turn {
    ghost use Rattle.rv_run.specs.Turns.{is_applied};

    /// Whether all of the chunk is in the book.
    fn is_applied(self) -> bool
        ensures { result ≡ is_applied self }
    {
        matches!(self, Turn::Applied)
    }
}

/// What an answer makes of the chunk that was offered. A verdict is raised in the cell.
fn settle(alloc: Global, cell: &VerdictCell, note: &mut VerdictNote, offer: ChunkOffer) -> Turn
    requires { note.old.cell ≡ cell.now }
    ensures note { StillKnows note.old note.new }
    ensures turn { IsTurnOf offer note.new result }
{
    match offer {
        ChunkOffer::Applied(_) | ChunkOffer::Already => Turn::Applied,
        ChunkOffer::NotYet(_) | ChunkOffer::Stopped => Turn::Idle,
        ChunkOffer::NoMemory => Turn::NoMemory,
        ChunkOffer::Halted(verdict) => match cell.raise(alloc, note, verdict) {
            Raise::NoMemory(_) => Turn::NoMemory,
            Raise::Raised | Raise::Kept(_) => Turn::Idle,
        },
    }
}

/// Looks at one slot, and offers the chunk that is found there. It is done with where all of it is
/// in the book.
fn serve_slot<RT: Wait, C: Carrier, G: Gate>(
    rt: &RT,
    alloc: Global,
    carrier: &C,
    seat: C::Seat,
    index: usize,
    gate: &G,
    cell: &VerdictCell,
    note: &mut VerdictNote,
) -> (C::Seat, Turn)
    requires seat { C.fits carrier.now seat }
    requires note { note.old.cell ≡ cell.now }
    ensures seat { C.fits carrier.now result.0 }
    ensures note { StillKnows note.old note.new }
    ensures served { (looked : Looked C.Seat C.Lease) × C.looks carrier.now seat index looked
        × IsServed (G.answers gate.now) (C.finishes carrier.now) note.new looked result.0 result.1 }
{
    match carrier.read_chunk(rt, seat, index) {
        Looked::Nothing(seat) => (seat, Turn::Idle),
        Looked::Found(chunk, lease) => {
            let turn = settle(alloc, cell, note, gate.offer_chunk(rt, &chunk));
            let seat = carrier.finish_chunk(rt, lease, turn.is_applied());
            (seat, turn)
        }
    }
}

/// Looks at each slot in turn, and offers each chunk that is found. Out of memory ends the round.
fn serve_round<RT: Wait, C: Carrier, G: Gate>(
    rt: &RT,
    alloc: Global,
    carrier: &C,
    mut seat: C::Seat,
    gate: &G,
    cell: &VerdictCell,
    note: &mut VerdictNote,
) -> (C::Seat, Turn)
    requires seat { C.fits carrier.now seat }
    requires note { note.old.cell ≡ cell.now }
    ensures seat { C.fits carrier.now result.0 }
    ensures note { StillKnows note.old note.new }
{
    let mut round = Turn::Idle;
    for index in 0..MOST_SLOTS {
        let (back, turn) = serve_slot(rt, alloc, carrier, seat, index, gate, cell, note);
        seat = back;
        match turn {
            Turn::Idle => {}
            Turn::Applied => round = Turn::Applied,
            Turn::NoMemory => return (seat, Turn::NoMemory),
        }
    }
    (seat, round)
}

/// Offers the chunks that are found in the carrier to the gate, slot by slot and round by round,
/// until the gate is stopped or memory runs out.
///
/// A verdict is raised in the cell. A chunk is done with where all of it is in the book. After a
/// round in which none was, other threads are given the processor, and after some such rounds the
/// thread rests until the gate has news. The note that comes back is of the same cell and knows
/// what it knew.
pub fn serve<RT: Wait, C: Carrier, G: Gate>(
    rt: &RT,
    alloc: Global,
    carrier: &C,
    mut seat: C::Seat,
    gate: &G,
    cell: &VerdictCell,
    mut note: VerdictNote,
) -> Served<C::Seat>
    requires seat { C.fits carrier.now seat }
    requires note { note.cell ≡ cell.now }
    ensures seat { C.fits carrier.now result.seat }
    ensures note { StillKnows note result.note }
{
    let mut patience = Patience::new();
    for _ in rt.forever() {
        let seen = gate.news(Awaited::Chunk);
        if gate.stopped(rt) {
            let end = ServeEnd::Over;
            return Served { seat, note, end };
        }
        let (back, turn) = serve_round(rt, alloc, carrier, seat, gate, cell, &mut note);
        seat = back;
        match turn {
            Turn::Idle => patience.wait(rt, gate, Awaited::Chunk, seen),
            Turn::Applied => patience.renew(),
            Turn::NoMemory => {
                let end = ServeEnd::NoMemory;
                return Served { seat, note, end };
            }
        }
    }
    unreachable!()
}
