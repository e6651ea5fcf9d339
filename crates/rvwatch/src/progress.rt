//! How far a run is, told on a terminal.

use rv_watch::Watch;
use std::io::{Stderr, Write};
use std::time::{Duration, Instant};

/// After how many seconds it is told again.
const EVERY: u64 = 10;

/// After how many events the clock is looked at.
const LOOK: u64 = 1_024;

/// How far a run is.
#[derive(Drop)]
pub(crate) struct Progress {
    errors: Stderr,
    /// When the run began, if it is told.
    began: Option<Instant>,
    /// How long after that it was told last.
    told: Duration,
}

impl Progress {
    /// Nothing was judged yet. It is told only where that is asked for, and there is a clock.
    pub(crate) fn new(rt: &HostRuntime, errors: Stderr, is_told: bool) -> Progress {
        Progress {
            errors,
            began: if is_told { Instant::now(rt).ok() } else { None },
            told: Duration::ZERO,
        }
    }

    /// One more event was judged.
    pub(crate) fn note(&mut self, rt: &HostRuntime, watch: &Watch) {
        if watch.events % LOOK != 0 {
            return;
        }
        let Some(began) = &self.began else {
            return;
        };
        let Ok(elapsed) = began.elapsed(rt) else {
            return;
        };
        if elapsed.saturating_sub(self.told) >= Duration::from_secs(EVERY) {
            self.told = elapsed;
            self.tell(watch, elapsed);
        }
    }

    /// The run has ended: what was told is taken off the terminal.
    pub(crate) fn end(&mut self) {
        if self.told > Duration::ZERO {
            let _ = write!(self.errors, "\r\x1b[K");
        }
    }

    /// Writes how far the run is, in place of what stands in the terminal's line.
    fn tell(&mut self, watch: &Watch, elapsed: Duration) {
        let events = watch.events;
        let rate = u128::from(events) * 1000 / elapsed.as_millis().max(1);
        let window = watch.window_len();
        let _ = write!(
            self.errors,
            "\r\x1b[Krvmon: {events} events, {rate} a second, {window} in the window"
        );
    }
}
