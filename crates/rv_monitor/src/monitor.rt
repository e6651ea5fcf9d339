//! A book that keeps its refusal.
ghost use Rattle.std.specs.Prelude.{◌≡◌, IfOk, string_bytes};
ghost use Rattle.rv_event.specs.Texts.{◌⋯◌};
ghost use Rattle.rv_report.specs.Json.{json_text};
ghost use Rattle.rv_report.specs.Texts.{line_feed};
ghost use Rattle.rv_monitor.specs.Watched.{IsExplained};

use rv_book::{Book, Offer};
use rv_event::{Entry, MemoryModel, NoMemory};
use rv_explain::{RowTexts, Sources, story};
use rv_report::{Outcome, report_json, report_text};
use std::alloc::Global;
use std::marker::Model;

/// The compact text of the JSON report, and a line feed.
fn json_line(alloc: Global, outcome: &Outcome) -> Result<String, NoMemory>
    ensures { IfOk result (λ line. string_bytes line ≡ json_text outcome.now ⋯ line_feed) }
{
    let value = report_json(alloc, outcome)?;
    let mut line = value.to_string(alloc)?;
    line.push('\n')?;
    Ok(line)
}

/// The report, and behind it why an event was refused.
fn explained(alloc: Global, outcome: &Outcome) -> Result<String, NoMemory>
    ensures { IfOk result (λ text. IsExplained outcome.now (string_bytes text)) }
{
    let texts = RowTexts::new(alloc);
    let sources = Sources {
        names: &[],
        texts: &texts,
    };
    let report = report_text(alloc, outcome)?;
    let told = story(alloc, sources, outcome)?;
    Ok(format!(in alloc; "{report}{told}")?)
}

/// What an offer came to.
#[derive(Clone, Copy, PartialEq, Eq, Debug)]
pub enum Answer {
    /// Some order is lawful for all events so far.
    Accepted,
    /// The event has a fault over those before it. The monitor has stopped.
    Malformed,
    /// No order is lawful for the events so far and this one. The monitor has stopped.
    Forbidden,
    /// The monitor had stopped.
    Stopped,
    /// Memory was refused. The event may be offered again.
    NoMemory,
}

/// A book, and the refusal by which it stopped, if it did.
#[derive(Drop)]
pub struct Monitor {
    alloc: Global,
    book: Book,
    refusal: Option<Outcome>,
}

impl Model for Monitor {
    ghost use Rattle.std.specs.Prelude.{◌≡◌, IsFalse, None};
    ghost use Rattle.rv_monitor.specs.Watched.{Watched};

    ghost Value = { Watched };

    ghost view = { λ m. record { book = m.book; refusal = m.refusal } };

    ghost invariant = { λ m. IsFalse m.book.stopped → m.refusal ≡ None };
}

impl Monitor {
    ghost use Rattle.std.specs.Prelude.{◌≡◌, [], IfOk, IsFalse, None, length, string_bytes};
    ghost use Rattle.rv_book.specs.Counts.{operations_of, waiting_of};
    ghost use Rattle.rv_event.specs.Texts.{◌⋯◌};
    ghost use Rattle.rv_monitor.specs.Watched.{IsAnswered, IsExplained, outcome_of};
    ghost use Rattle.rv_report.specs.Json.{json_text};
    ghost use Rattle.rv_report.specs.Texts.{line_feed, report_text};

    /// A monitor that has accepted no event, under a memory model. It takes no memory; the
    /// allocator serves the calls to come.
    pub fn new(alloc: Global, model: MemoryModel) -> Self
        ensures model { result.book.model ≡ model }
        ensures log { result.book.log ≡ [] }
        ensures going { IsFalse result.book.stopped }
        ensures refusal { result.refusal ≡ None }
    {
        Monitor {
            alloc,
            book: Book::new(alloc, model),
            refusal: None,
        }
    }

    /// Offers an event with its source, and keeps the refusal.
    ///
    /// After `Malformed` and `Forbidden` the monitor has stopped, and every later answer is
    /// `Stopped`. After `Stopped` and `NoMemory` it is as it was.
    pub fn offer(&mut self, entry: &Entry) -> Answer
        ensures { IsAnswered self.old self.new entry.now result }
    {
        match self.book.offer(entry) {
            Offer::Accepted => Answer::Accepted,
            Offer::Malformed(malformed) => {
                self.refusal = Some(Outcome::Malformed(malformed));
                Answer::Malformed
            }
            Offer::Forbidden(forbidden) => {
                self.refusal = Some(Outcome::Forbidden(forbidden));
                Answer::Forbidden
            }
            Offer::Stopped => Answer::Stopped,
            Offer::NoMemory => Answer::NoMemory,
        }
    }

    /// How many events were accepted.
    pub fn accepted(&self) -> usize
        ensures { result ≡ length self.now.book.log }
    {
        self.book.accepted()
    }

    /// How many of them are memory operations. It costs one pass over the events.
    pub fn operations(&self) -> usize
        ensures { result ≡ operations_of self.now.book.log }
    {
        self.book.operations()
    }

    /// How many of them are loads whose store has not come. It costs one look-up for each event.
    pub fn waiting(&self) -> usize
        ensures { result ≡ waiting_of self.now.book.log }
    {
        self.book.waiting()
    }

    /// That all events were accepted.
    fn allowance(&self) -> Outcome
        ensures { self.now.refusal ≡ None → result ≡ outcome_of self.now }
    {
        Outcome::Allowed {
            events: self.accepted(),
            operations: self.operations(),
            waiting: self.waiting(),
        }
    }

    /// The report of what the events so far come to, each line with its line feed.
    ///
    /// # Errors
    /// `NoMemory` where the text could not be had; the monitor stays as it is.
    pub fn report(&self) -> Result<String, NoMemory>
        ensures { IfOk result (λ text. string_bytes text ≡ report_text (outcome_of self.now)) }
    {
        match &self.refusal {
            Some(outcome) => report_text(self.alloc, outcome),
            None => report_text(self.alloc, &self.allowance()),
        }
    }

    /// The same as a line of JSON: one object, its keys in ascending order, and a line feed.
    ///
    /// # Errors
    /// As [`Monitor::report`].
    pub fn json(&self) -> Result<String, NoMemory>
        ensures { IfOk result (λ line. string_bytes line ≡ json_text (outcome_of self.now) ⋯ line_feed) }
    {
        match &self.refusal {
            Some(outcome) => json_line(self.alloc, outcome),
            None => json_line(self.alloc, &self.allowance()),
        }
    }

    /// The report, and behind it why an event was refused: an empty line and an explanation. Rows
    /// are the places of events in their source, from 1 on.
    ///
    /// # Errors
    /// As [`Monitor::report`].
    pub fn explanation(&self) -> Result<String, NoMemory>
        ensures { IfOk result (λ text. IsExplained (outcome_of self.now) (string_bytes text)) }
    {
        match &self.refusal {
            Some(outcome) => explained(self.alloc, outcome),
            None => explained(self.alloc, &self.allowance()),
        }
    }
}
