//! The rows of a log, judged.

use crate::fault::Stop;
use crate::places::{Place, Places};
use crate::sink::Sink;
use rv_book::{Book, Offer};
use rv_cert::{Certificate, Forbidden, Malformed};
use rv_coverage::{Coverage, coverage_of};
use rv_coverage_report::{Extent, coverage_text};
use rv_event::{Entry, Event, Id, MemoryModel, NoMemory};
use rv_explain::{RowTexts, Sources, story};
use rv_picture::picture;
use rv_replay::{Strength, strength_of};
use rv_report::{Outcome, report, write_text};
use std::alloc::{AllocError, Global};
use std::io::Write;

/// In which form a judgement is told.
#[derive(Clone, Copy, PartialEq, Eq)]
pub(crate) enum Form {
    /// The report, and where the rows that it tells come from.
    Text,
    /// That, and behind it why a row was refused.
    Explained,
    /// A picture in place of the report.
    Picture,
}

/// How a judgement is told.
#[derive(Clone, Copy)]
pub(crate) struct Telling {
    /// In which form.
    pub(crate) form: Form,
    /// Whether all is counted behind the report that an allowed log has exercised.
    pub(crate) coverage: bool,
    /// Whether it is told behind the report how many older reads would be refused.
    pub(crate) strength: bool,
}

impl Telling {
    /// How much is told of what an allowed log has exercised, if anything is.
    fn extent(self) -> Option<Extent> {
        match self.form {
            Form::Picture => None,
            Form::Text | Form::Explained if self.coverage => Some(Extent::All),
            Form::Explained => Some(Extent::Met),
            Form::Text => None,
        }
    }

    /// Whether it is told how many older reads would be refused.
    fn tells_strength(self) -> bool {
        self.strength && self.form != Form::Picture
    }
}

/// A row that is told, and where it comes from.
#[derive(Clone, Copy)]
pub(crate) struct Told {
    id: Id,
    place: Place,
}

/// What came of a log.
#[derive(Drop)]
pub(crate) struct Judgement {
    /// What the rows come to.
    pub(crate) outcome: Outcome,
    /// Where the rows that it tells come from.
    told: Vec<Told>,
    /// The same of each row, where it is explained.
    texts: RowTexts,
    /// What of the model they have exercised, where that is told and they are allowed.
    coverage: Option<Coverage>,
    /// How many older reads would be refused, where that is told and they are allowed.
    strength: Option<Strength>,
}

/// A judge of rows.
#[derive(Drop)]
pub(crate) struct Judge {
    alloc: Global,
    /// It is large, and moves with each record.
    book: Box<Book>,
    places: Places,
    /// How its judgement is told.
    telling: Telling,
}

impl Judge {
    /// A judge by this model who has taken no rows.
    pub(crate) fn new(
        alloc: Global,
        model: MemoryModel,
        telling: Telling,
    ) -> Result<Judge, AllocError> {
        Ok(Judge {
            alloc,
            book: Box::new(alloc, Book::new(alloc, model))?,
            places: Places::new(alloc)?,
            telling,
        })
    }

    /// What came of a log whose rows were all accepted.
    pub(crate) fn allowed(&self) -> Result<Judgement, Stop> {
        Ok(Judgement {
            outcome: Outcome::Allowed {
                events: self.book.accepted(),
                operations: self.book.operations(),
                waiting: self.book.waiting(),
            },
            told: Vec::new(self.alloc),
            texts: RowTexts::new(self.alloc),
            coverage: self.coverage()?,
            strength: self.strength()?,
        })
    }

    /// How many older reads would be refused, where that is told.
    fn strength(&self) -> Result<Option<Strength>, Stop> {
        if !self.telling.tells_strength() {
            return Ok(None);
        }
        match strength_of(self.alloc, &self.book) {
            Ok(strength) => Ok(Some(strength)),
            Err(NoMemory) => Err(Stop::NoMemory),
        }
    }

    /// What of the model the rows have exercised, where that is told.
    fn coverage(&self) -> Result<Option<Coverage>, Stop> {
        if self.telling.extent().is_none() {
            return Ok(None);
        }
        match coverage_of(self.alloc, &self.book) {
            Ok(coverage) => Ok(Some(coverage)),
            Err(NoMemory) => Err(Stop::NoMemory),
        }
    }

    /// Where each row of the log comes from, where a refusal is explained. Its rows are of one
    /// source, in its order.
    fn texts_of(&self, log: &[Entry]) -> Result<RowTexts, AllocError> {
        let mut texts = RowTexts::new(self.alloc);
        if self.telling.form == Form::Text {
            return Ok(texts);
        }
        'rows: for place in 0..log.len() {
            if let Some(from) = self.places.of(log[place].event.id) {
                let Ok(()) = texts.note(0, place + 1, from.to_string(self.alloc)?) else {
                    return Err(AllocError);
                };
            }
        }
        Ok(texts)
    }

    /// Adds where a row comes from, if it is not told yet.
    fn tell(&self, told: &mut Vec<Told>, id: Id) -> Result<(), AllocError> {
        if told.iter().any(|one| one.id == id) {
            return Ok(());
        }
        if let Some(place) = self.places.of(id) {
            told.push(Told { id, place })?;
        }
        Ok(())
    }

    /// What comes of a refusal with a certificate.
    fn forbidden(&self, forbidden: Forbidden) -> Result<Judgement, AllocError> {
        let mut told = Vec::new(self.alloc);
        match forbidden.certificate() {
            Certificate::Circle(circle) => {
                'edges: for (id, _) in circle.as_slice() {
                    self.tell(&mut told, *id)?;
                }
            }
            Certificate::Stale { load, store } => {
                self.tell(&mut told, *load)?;
                self.tell(&mut told, *store)?;
            }
        }
        let texts = self.texts_of(forbidden.evidence())?;
        Ok(Judgement {
            outcome: Outcome::Forbidden(forbidden),
            told,
            texts,
            coverage: None,
            strength: None,
        })
    }

    /// What comes of a refusal of a row with a fault.
    fn malformed(&self, malformed: Malformed) -> Result<Judgement, AllocError> {
        let mut told = Vec::new(self.alloc);
        self.tell(&mut told, malformed.refused())?;
        let texts = self.texts_of(malformed.evidence())?;
        Ok(Judgement {
            outcome: Outcome::Malformed(malformed),
            told,
            texts,
            coverage: None,
            strength: None,
        })
    }
}

impl Sink for Judge {
    fn note(&mut self, hart: u8, end: u32, place: Place) -> Result<(), Stop> {
        self.places.note(hart, end, place)?;
        Ok(())
    }

    fn take(&mut self, row: Event) -> Result<(), Stop> {
        match self.book.take(Entry {
            source: 0,
            event: row,
        }) {
            Offer::Accepted => Ok(()),
            Offer::Forbidden(forbidden) => Err(Stop::Judged(self.forbidden(forbidden)?)),
            Offer::Malformed(malformed) => Err(Stop::Judged(self.malformed(malformed)?)),
            Offer::Stopped | Offer::NoMemory => Err(Stop::NoMemory),
        }
    }

    fn pause(&mut self) -> Result<(), Stop> {
        Ok(())
    }
}

/// Writes a text that is there, if memory was.
fn write_made<W: Write>(out: &mut W, text: Result<String, NoMemory>) -> Result<(), Stop> {
    let Ok(text) = text else {
        return Err(Stop::NoMemory);
    };
    match write_text(out, text.as_str()) {
        Ok(()) => Ok(()),
        Err(_) => Err(Stop::Write),
    }
}

/// Writes the report of a judgement, and where the rows that it tells come from.
fn write_report<W: Write>(alloc: Global, out: &mut W, judgement: &Judgement) -> Result<(), Stop> {
    if report(alloc, out, &judgement.outcome).is_err() {
        return Err(Stop::Write);
    }
    'rows: for Told { id, place } in judgement.told.iter() {
        writeln!(out, "{id}: {place}")?;
    }
    Ok(())
}

/// Writes a judgement in its form. Its rows are those of the trace that `rvrows` writes.
pub(crate) fn write_judgement<W: Write>(
    alloc: Global,
    out: &mut W,
    judgement: &Judgement,
    telling: Telling,
) -> Result<(), Stop> {
    let outcome = &judgement.outcome;
    let sources = Sources {
        names: &[],
        texts: &judgement.texts,
    };
    if telling.form == Form::Picture {
        return write_made(out, picture(alloc, sources, outcome));
    }
    write_report(alloc, out, judgement)?;
    if telling.form == Form::Explained {
        write_made(out, story(alloc, sources, outcome))?;
    }
    if let Some(strength) = judgement.strength {
        writeln!(out, "strength: {strength}")?;
    }
    match (&judgement.coverage, telling.extent()) {
        (Some(coverage), Some(extent)) => write_made(out, coverage_text(alloc, coverage, extent)),
        _ => Ok(()),
    }
}
