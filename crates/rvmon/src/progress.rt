//! How far a list is, told while it is judged.
use std::io::Write;
use std::time::{Duration, Instant};

/// After how many milliseconds it is told again.
const EVERY: u64 = 200;

/// How far a list is.
#[derive(Drop)]
pub struct Progress {
    /// When the list began, if it is told.
    began: Option<Instant>,
    /// How long after that it was told last.
    told: Duration,
    /// How many traces were judged.
    traces: u64,
    /// How many of them are forbidden.
    forbidden: u64,
}

impl Progress {
    /// Nothing was judged yet. It is told only where that is asked for, and there is a clock.
    pub fn new(rt: &HostRuntime, is_told: bool) -> Progress {
        let began = if is_told { Instant::now(rt).ok() } else { None };
        Progress {
            began,
            told: Duration::ZERO,
            traces: 0,
            forbidden: 0,
        }
    }

    /// One more trace was judged.
    pub fn note<E: Write>(&mut self, rt: &HostRuntime, errors: &mut E, is_forbidden: bool) {
        self.traces = self.traces.saturating_add(1);
        if is_forbidden {
            self.forbidden = self.forbidden.saturating_add(1);
        }
        if let Some(elapsed) = self.elapsed(rt) {
            if elapsed.saturating_sub(self.told) >= Duration::from_millis(EVERY) {
                self.told = elapsed;
                self.tell(errors, elapsed);
            }
        }
    }

    /// Whether no trace was judged.
    pub fn is_empty(&self) -> bool {
        self.traces == 0
    }

    /// All traces were judged.
    pub fn end<E: Write>(&self, rt: &HostRuntime, errors: &mut E) {
        if let Some(elapsed) = self.elapsed(rt) {
            self.tell(errors, elapsed);
            let _ = writeln!(errors);
        }
    }

    /// How long ago the list began, if that is told.
    fn elapsed(&self, rt: &HostRuntime) -> Option<Duration> {
        match &self.began {
            Some(began) => began.elapsed(rt).ok(),
            None => None,
        }
    }

    /// Writes how far the list is, in place of what stands in the terminal's line.
    fn tell<E: Write>(&self, errors: &mut E, elapsed: Duration) {
        let (traces, forbidden) = (self.traces, self.forbidden);
        let milliseconds = elapsed.as_millis().max(1);
        let rate = u128::from(traces) * 1000 / milliseconds;
        let _ = write!(
            errors,
            "\rrvmon: {traces} traces, {forbidden} forbidden, {rate} a second"
        );
    }
}
