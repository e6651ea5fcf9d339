//! The loads whose stores have not come.
ghost use Rattle.std.specs.Prelude.{◌≡◌, ◌==◌, ◌&&◌, ◌++◌, [], IfOk, OnOk, Some, take};
ghost use Rattle.rv_event.specs.Log.{events};
ghost use Rattle.rv_book.specs.Counts.{is_waiting, waiting_of};
ghost use Rattle.rv_coverage.specs.Waits.{wait_of, wait_text, waits, waits_of};

use rv_book::Book;
use rv_event::{Event, Id, NoMemory};
use std::alloc::Global;
use std::fmt;

/// A load that returned a version which no store of the log has written.
///
/// It is printed as `h0:3 waits for version 2 of word 1`.
#[derive(Clone, Copy, PartialEq, Eq, Debug)]
pub struct Wait {
    /// The load.
    pub id: Id,
    /// The word.
    pub word: u32,
    /// The version, above 0.
    pub version: u32,
}

impl fmt::Display for Wait {
    ghost output = { λ w. Some (wait_text w) };

    fn fmt<W: fmt::Write>(&self, f: &mut fmt::Formatter<W>) -> fmt::Result {
        let Wait { id, word, version } = *self;
        write!(f, "{id} waits for version {version} of word {word}")
    }
}

/// For what a load waits.
fn wait_of(load: &Event) -> Wait
    ensures { result ≡ wait_of load.now }
{
    Wait {
        id: load.id,
        word: load.word,
        version: load.read,
    }
}

/// Whether the event is a load of the hart that waits.
fn is_wait_of(book: &Book, hart: u8, event: &Event) -> bool
    ensures { result ≡ ((event.now.id.hart == hart) && is_waiting (events book.now.log) event.now) }
{
    event.id.hart == hart && book.is_waiting(event)
}

/// Adds the loads of the hart that wait, in program order.
fn push_waits(book: &Book, hart: u8, waits: &mut Vec<Wait>) -> Result<(), NoMemory>
    ensures { OnOk result (waits.new.items ≡ waits.old.items ++ waits_of book.now.log hart) }
{
    'entries: for entry in book.log() {
        let event = &entry.event;
        if is_wait_of(book, hart, event) {
            waits.push(wait_of(event))?;
        }
    }
    Ok(())
}

/// The first ten loads that wait, by their names. There is none only where no load waits.
///
/// It costs a pass over the log for each hart, and memory for each load that waits.
///
/// # Errors
/// `NoMemory` where the list could not be had.
pub fn first_waits(alloc: Global, book: &Book) -> Result<Vec<Wait>, NoMemory>
    ensures firsts { IfOk result (λ firsts. firsts.items ≡ take 10 (waits book.now.log)) }
    ensures none { IfOk result (λ firsts. firsts.items ≡ [] → waiting_of book.now.log ≡ 0) }
{
    // For the proof alone, which has from this call that the log is well formed.
    let _log = book.log();
    let harts: [u8; 16] = [0, 1, 2, 3, 4, 5, 6, 7, 8, 9, 10, 11, 12, 13, 14, 15];
    let mut waits = Vec::new(alloc);
    'harts: for hart in harts {
        push_waits(book, hart, &mut waits)?;
    }
    waits.truncate(10);
    Ok(waits)
}
