//! How a thread of a run waits that finds nothing to do.
use crate::gate::{Awaited, Gate};
use std::sync::Wait;
use std::thread;

/// How often in a row a thread gives up the processor before it rests, as while sources flow the
/// next chunk is near.
const TURNS: u32 = 32;

/// How often in a row a thread has found nothing to do.
#[derive(Drop)]
pub(crate) struct Patience {
    turns: u32,
}

impl Patience {
    /// That of a thread which has not waited yet.
    pub(crate) fn new() -> Patience {
        Patience { turns: 0 }
    }

    /// Something was done.
    pub(crate) fn renew(&mut self) {
        self.turns = 0;
    }

    /// Gives up the processor, or, where that was of no use for some turns, rests until the gate
    /// has more news of what is awaited than was seen before the last look.
    pub(crate) fn wait<RT: Wait, G: Gate>(
        &mut self,
        rt: &RT,
        gate: &G,
        awaited: Awaited,
        seen: u64,
    ) {
        if self.turns < TURNS {
            self.turns += 1;
            thread::yield_now();
        } else {
            gate.rest(rt, awaited, seen);
        }
    }
}
