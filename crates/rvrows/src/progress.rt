//! How far a log is read, told on a terminal.

use std::io::{IsTerminal, Stderr, Write};

/// After how many records it is told.
const EACH: u64 = 65_536;

/// How many records are read. It is told on standard error where that is a terminal.
#[derive(Drop)]
pub(crate) struct Progress {
    errors: Stderr,
    name: &'static str,
    /// Whether it is told.
    shows: bool,
    records: u64,
}

impl Progress {
    /// No record is read by the program of this name. Nothing is told where rows go to the terminal
    /// themselves.
    pub(crate) fn new(errors: Stderr, name: &'static str, has_rows: bool) -> Progress {
        let shows = errors.is_terminal() && !has_rows;
        Progress {
            errors,
            name,
            shows,
            records: 0,
        }
    }

    /// A record is read.
    pub(crate) fn count(&mut self) {
        self.records = self.records.saturating_add(1);
        if self.shows && self.records % EACH == 0 {
            let (name, records) = (self.name, self.records);
            let _ = write!(self.errors, "\r{name}: {records} records");
        }
    }

    /// What was told is taken off the terminal.
    pub(crate) fn end(&mut self) {
        if self.shows && self.records >= EACH {
            let _ = write!(self.errors, "\r\x1b[K");
        }
    }
}
