//! Where the rows of a log go.

use crate::fault::Stop;
use crate::places::{Place, Places};
use rv_event::Event;
use std::alloc::Global;
use std::io::Write;

/// What takes the rows of a log, each once it is known.
pub(crate) trait Sink {
    /// The rows of a hart below this number that have no place yet are from here.
    fn note(&mut self, hart: u8, end: u32, place: Place) -> Result<(), Stop>;

    /// Takes a row.
    fn take(&mut self, row: Event) -> Result<(), Stop>;

    /// No row comes before a record is read.
    fn pause(&mut self) -> Result<(), Stop>;
}

/// How many rows are kept before they are written. So many lines are fewer bytes than a buffered
/// writer keeps, which so writes whole lines alone.
const ROWS_KEPT: u32 = 32;

/// A file that tells where rows come from.
#[derive(Drop)]
pub(crate) struct PlaceFile<F: Write + Drop> {
    out: F,
    places: Places,
    /// How many rows there are.
    rows: u64,
}

impl<F: Write + Drop> PlaceFile<F> {
    /// A file without rows: its header is written.
    pub(crate) fn new(alloc: Global, mut out: F) -> Result<PlaceFile<F>, Stop> {
        if writeln!(out, "source,row,text").is_err() {
            return Err(Stop::WritePlaces);
        }
        Ok(PlaceFile {
            out,
            places: Places::new(alloc)?,
            rows: 0,
        })
    }

    /// Writes where the next row comes from.
    fn take(&mut self, row: &Event) -> Result<(), Stop> {
        self.rows = self.rows.saturating_add(1);
        let number = self.rows;
        let written = match self.places.of(row.id) {
            Some(place) => writeln!(self.out, "0,{number},\"{place}\""),
            None => Ok(()),
        };
        if written.is_err() {
            return Err(Stop::WritePlaces);
        }
        Ok(())
    }

    /// Writes what is not written yet.
    fn flush(&mut self) -> Result<(), Stop> {
        match self.out.flush() {
            Ok(()) => Ok(()),
            Err(_) => Err(Stop::WritePlaces),
        }
    }
}

/// The rows as a trace. Where a row comes from is written before the row: who reads a row finds
/// that in the file, in a whole line.
#[derive(Drop)]
pub(crate) struct TraceFile<W: Write + Drop, F: Write + Drop> {
    out: W,
    places: Option<PlaceFile<F>>,
    /// How many rows there are.
    rows: u64,
    /// How many of them are not written yet.
    kept: u32,
}

impl<W: Write + Drop, F: Write + Drop> TraceFile<W, F> {
    /// A trace without rows: its header is written.
    pub(crate) fn new(mut out: W, places: Option<PlaceFile<F>>) -> Result<TraceFile<W, F>, Stop> {
        writeln!(out, "hart,seq,op,word,read,wrote,ann,deps")?;
        Ok(TraceFile {
            out,
            places,
            rows: 0,
            kept: 0,
        })
    }

    /// Writes the end record.
    pub(crate) fn end(&mut self) -> Result<(), Stop> {
        let rows = self.rows;
        writeln!(self.out, "end,{rows}")?;
        self.pause()
    }
}

impl<W: Write + Drop, F: Write + Drop> Sink for TraceFile<W, F> {
    fn note(&mut self, hart: u8, end: u32, place: Place) -> Result<(), Stop> {
        if let Some(file) = &mut self.places {
            file.places.note(hart, end, place)?;
        }
        Ok(())
    }

    fn take(&mut self, row: Event) -> Result<(), Stop> {
        if let Some(file) = &mut self.places {
            file.take(&row)?;
        }
        writeln!(self.out, "{row}")?;
        self.rows = self.rows.saturating_add(1);
        self.kept = self.kept.saturating_add(1);
        if self.kept < ROWS_KEPT {
            return Ok(());
        }
        self.pause()
    }

    fn pause(&mut self) -> Result<(), Stop> {
        if let Some(file) = &mut self.places {
            file.flush()?;
        }
        self.out.flush()?;
        self.kept = 0;
        Ok(())
    }
}
