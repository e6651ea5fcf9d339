//! What the readers of a run are told: that bytes have come, and that the run is over.
use std::array;
use std::sync::atomic::{AtomicBool, Ordering};
use std::sync::{Condvar, Wait};
use std::time::Duration;

/// For how many milliseconds a reader rests at most, for the case that it was not woken.
const REST: u64 = 200;

/// One source: whether its reader would have to wait for a row, and what wakes that reader.
#[derive(Drop)]
struct Side {
    dry: AtomicBool,
    came: Condvar,
}

/// What the readers of one run, of 1 to 8 sources with numbers from 0, are told.
///
/// Any thread may call it at any time. Nothing is promised of what it answers, since nothing rests
/// on it but time: each rest ends by itself, and whoever is told that the run is over asks for
/// itself whether that is so.
#[derive(Drop)]
pub struct Bell {
    over: AtomicBool,
    sides: [Side; 8],
}

impl Bell {
    /// That of a run which is not over, and of sources none of which is waited for.
    pub fn new() -> Bell {
        Bell {
            over: AtomicBool::new(false),
            sides: array::from_fn(|_| Side {
                dry: AtomicBool::new(false),
                came: Condvar::new(),
            }),
        }
    }

    /// Says that the run is over, and wakes all its readers.
    pub fn end(&self) {
        self.over.store(true, Ordering::SeqCst);
        for side in &self.sides {
            side.came.notify_all();
        }
    }

    /// Whether the run is over.
    pub fn is_over(&self) -> bool {
        self.over.load(Ordering::SeqCst)
    }

    /// Whether the source's next row has not come yet. A source that has no pipe is never waited
    /// for.
    pub fn is_dry(&self, source: u8) -> bool {
        match self.sides.get(source as usize) {
            Some(side) => side.dry.load(Ordering::SeqCst),
            None => false,
        }
    }

    /// Says whether the source's next row has not come yet.
    pub(crate) fn tell(&self, source: u8, dry: bool) {
        if let Some(side) = self.sides.get(source as usize) {
            side.dry.store(dry, Ordering::SeqCst);
        }
    }

    /// Wakes the source's reader, as there is something for it.
    pub(crate) fn wake(&self, source: u8) {
        if let Some(side) = self.sides.get(source as usize) {
            side.came.notify_all();
        }
    }

    /// How often the source's reader was woken.
    pub(crate) fn wakes(&self, source: u8) -> u64 {
        match self.sides.get(source as usize) {
            Some(side) => side.came.notifications(),
            None => 0,
        }
    }

    /// Rests until the source's reader was woken more often than `seen`, for a moment at most.
    pub(crate) fn rest<RT: Wait>(&self, rt: &RT, source: u8, seen: u64) {
        if let Some(side) = self.sides.get(source as usize) {
            side.came.sleep(rt, seen, Duration::from_millis(REST));
        }
    }
}
