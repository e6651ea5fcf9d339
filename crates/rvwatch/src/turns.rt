//! Whose row is read next: each source in turn, where one that is silent is passed over.
//!
//! What is read of the others meanwhile is made up for: once a source has rows again, it is read
//! until it is as far as they are. So sources that are faster than the run stay in step, however
//! their bytes come.

use rv_pipe::Bell;

/// How many rows the others may be ahead of a silent source, before they wait for it.
const AHEAD: u64 = 1_024;

/// How many moments they wait then. Whoever writes the silent one may wait for them to be read, so
/// they go on after that.
const RESTS: u32 = 10_000;

/// How many sources there are at most.
const SOURCES: usize = 8;

/// How far a source was read.
#[derive(Clone, Copy)]
struct Place {
    /// How many rows were read of it.
    rows: u64,
    /// How many rows the others may be ahead of it while it is silent.
    ahead: u64,
    /// Whether the others go on without it until it has a row.
    is_left: bool,
    /// Whether it has ended.
    is_over: bool,
}

/// What is to be done next.
#[derive(Clone, Copy)]
pub(crate) enum Next {
    /// A row is read of each source that has one, and of which so many were read.
    Read(u64),
    /// No source has a row.
    Rest,
    /// The sources that have rows wait for one that is silent.
    Hold,
    /// Each source has ended.
    End,
}

/// How far each source was read.
#[derive(Clone, Copy)]
pub(crate) struct Turns {
    places: [Place; SOURCES],
    /// How many sources there are.
    count: usize,
    /// How many moments the others have waited for a silent one.
    rests: u32,
}

impl Turns {
    /// Before a row of so many sources, eight at most, is read.
    pub(crate) fn new(count: usize) -> Turns {
        let place = Place {
            rows: 0,
            ahead: AHEAD,
            is_left: false,
            is_over: false,
        };
        Turns {
            places: [place; SOURCES],
            count: count.min(SOURCES),
            rests: 0,
        }
    }

    /// Whether the next row of the source has not come yet. A single source is waited for.
    fn is_silent(&self, bell: &Bell, source: usize) -> bool {
        self.count > 1 && bell.is_dry((source % 256) as u8)
    }

    /// What is to be done next: of the sources that have rows, those are read that are furthest
    /// behind.
    pub(crate) fn next(&self, bell: &Bell) -> Next {
        let mut lowest = u64::MAX;
        let mut limit = u64::MAX;
        let mut is_over = true;
        for source in 0..SOURCES {
            let place = self.places[source];
            if source >= self.count || place.is_over {
                continue;
            }
            is_over = false;
            if !self.is_silent(bell, source) {
                lowest = lowest.min(place.rows);
            } else if !place.is_left {
                limit = limit.min(place.rows.saturating_add(place.ahead));
            }
        }
        if is_over {
            Next::End
        } else if lowest == u64::MAX {
            Next::Rest
        } else if lowest >= limit {
            Next::Hold
        } else {
            Next::Read(lowest)
        }
    }

    /// Whether a row of the source is read, where those are read of which so many rows were.
    pub(crate) fn is_next(&self, bell: &Bell, source: usize, rows: u64) -> bool {
        match self.places.get(source) {
            Some(place) => {
                source < self.count
                    && !place.is_over
                    && place.rows == rows
                    && !self.is_silent(bell, source)
            }
            None => false,
        }
    }

    /// A row of the source was read. One that the others went on without is now as far as they are.
    pub(crate) fn count_row(&mut self, source: usize) {
        self.rests = 0;
        let mut front = 0;
        for other in 0..SOURCES {
            front = self.places[other].rows.max(front);
        }
        if let Some(place) = self.places.get_mut(source) {
            let next = place.rows.saturating_add(1);
            place.rows = if place.is_left { front.max(next) } else { next };
            place.is_left = false;
        }
    }

    /// The source has ended.
    pub(crate) fn end(&mut self, source: usize) {
        if let Some(place) = self.places.get_mut(source) {
            place.is_over = true;
        }
    }

    /// The others have waited a moment more for those that are silent. After too many they go on
    /// without them, and let them be twice as far behind from then on.
    pub(crate) fn hold(&mut self, bell: &Bell) {
        self.rests = self.rests.saturating_add(1);
        if self.rests < RESTS {
            return;
        }
        self.rests = 0;
        for source in 0..SOURCES {
            if source < self.count && self.is_silent(bell, source) {
                let place = &mut self.places[source];
                place.ahead = place.ahead.saturating_mul(2);
                place.is_left = true;
            }
        }
    }
}
