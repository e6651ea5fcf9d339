//! What a cut forgets: its events go into what is known of the past, and the others into a new
//! window.
ghost use Rattle.std.specs.Prelude.{◌≡◌, ◌≢◌, ◌<◌, ◌+◌, ◌++◌, [], All, IfOk, IfSome, IsFalse, IsSome};
ghost use Rattle.std.specs.Prelude.{IsTrue, List, length};
ghost use Rattle.rv_book.specs.Booked.{IsTaken};
ghost use Rattle.rv_event.specs.declared.event.Op.TheVariants.{Carrier};
ghost use Rattle.rv_event.specs.Log.{events};
ghost use Rattle.rv_event.specs.declared.event.Entry.{Entry};
ghost use Rattle.rv_cut.specs.Cuts.{first_of};
ghost use Rattle.rv_past.specs.Facts.{AreFacts, HasRoom};
ghost use Rattle.rv_past.specs.Gone.{AreGone, HasPlaces};
ghost use Rattle.rv_settle.specs.Windows.{KeepsPairs, window};
ghost use Rattle.rv_endless.specs.Forgetting.{AreFresh, HaveNumbers, IsBookOf, IsRefusedBy};
ghost use Rattle.rv_endless.specs.Forgetting.{forgotten_of, restored};
ghost use Rattle.rv_endless.specs.Runs.{limit};

use crate::window::renumber;
use rv_book::{Book, Offer};
use rv_cut::Cut;
use rv_event::{Deps, Entry, Event, Id, NoMemory};
use rv_past::{Facts, Past};
use rv_settle::windows_are_lawful;
use std::alloc::Global;

/// A new book of what the cut keeps, as its window has it. None where the book refuses an entry, which
/// it never does of a log without carriers, where an SC that is kept is paired with an LR that is kept.
///
/// # Errors
/// `NoMemory` where it could not be had.
pub(crate) fn book_of_kept(alloc: Global, book: &Book, cut: &Cut) -> Result<Option<Book>, NoMemory>
    ensures book { IfOk result (λ new. IfSome new (λ kept. IsBookOf kept book.now.model
        (window (first_of cut.now) book.now.log))) }
    ensures some { All (λ m. m.op ≢ Carrier) (events book.now.log) →
        KeepsPairs (first_of cut.now) (events book.now.log) → IfOk result IsSome }
{
    let mut kept = Book::new(alloc, book.model());
    match take_kept(alloc, &mut kept, book, cut) {
        Ok(true) => Ok(Some(kept)),
        Ok(false) => {
            drop(kept);
            Ok(None)
        }
        Err(error) => {
            drop(kept);
            Err(error)
        }
    }
}

/// Takes what the cut keeps of a book into an empty one. Whether all of it was taken.
///
/// # Errors
/// `NoMemory` where it could not be had.
fn take_kept(alloc: Global, kept: &mut Book, book: &Book, cut: &Cut) -> Result<bool, NoMemory>
    requires { IsBookOf kept.old book.now.model [] }
    ensures taken { IfOk result (λ is. IsTrue is → IsBookOf kept.new book.now.model
        (window (first_of cut.now) book.now.log)) }
    ensures all { All (λ m. m.op ≢ Carrier) (events book.now.log) →
        KeepsPairs (first_of cut.now) (events book.now.log) → IfOk result IsTrue }
{
    // For the proof alone, which has from these calls that the window has a lawful order.
    windows_are_lawful();
    let _ = book.model();
    'entries: for entry in book.log() {
        if cut.is_past(entry.event.id) {
            continue;
        }
        let moved = renumber(alloc, entry, cut.first(entry.event.id.hart))?;
        if !take_in(kept, &moved)? {
            return Ok(false);
        }
    }
    Ok(true)
}

/// Whether the book took the entry.
fn take_in(book: &mut Book, entry: &Entry) -> Result<bool, NoMemory>
    ensures taken { IfOk result (λ is. IsTrue is → IsTaken book.old book.new entry.now) }
    ensures refused { IfOk result (λ is. IsFalse is → IsFalse book.old.stopped →
        IsRefusedBy book.old.model book.old.log entry.now) }
{
    match book.offer(entry) {
        Offer::Accepted => Ok(true),
        Offer::NoMemory => Err(NoMemory),
        Offer::Malformed(_) | Offer::Forbidden(_) | Offer::Stopped => Ok(false),
    }
}

/// Takes what the cut forgets of the window into what is known of the past.
pub(crate) fn forget(
    alloc: Global,
    past: &mut Past,
    facts: &mut Facts,
    window: &[Entry],
    firsts: &Cut,
    cut: &Cut,
)
    requires places { HasPlaces past.old (length window.now) }
    requires room { HasRoom facts.old (length window.now) }
    ensures past { (gone : List Entry) → HaveNumbers firsts.now window.now → AreGone (events gone) past.old →
        AreGone (events (gone ++ forgotten_of firsts.now cut.now window.now)) past.new }
    ensures facts { (gone : List Entry) → HaveNumbers firsts.now window.now →
        AreFresh firsts.now gone window.now → AreFacts gone facts.old →
        AreFacts (gone ++ forgotten_of firsts.now cut.now window.now) facts.new }
{
    'entries: for entry in window {
        if cut.is_past(entry.event.id) {
            let known = restore(alloc, firsts, entry);
            past.add_reserved(&known.event);
            facts.add(&known);
            // By a call: where the scope ends, the proof would take it apart.
            drop(known);
        }
    }
}

/// The entry of the window with its number in the log, and no dependencies.
pub(crate) fn restore(alloc: Global, firsts: &Cut, entry: &Entry) -> Entry
    ensures { entry.now.event.id.seq + first_of firsts.now entry.now.event.id.hart < limit →
        result ≡ restored firsts.now entry.now }
{
    let event = &entry.event;
    Entry {
        source: entry.source,
        event: Event {
            id: Id {
                hart: event.id.hart,
                seq: event.id.seq.saturating_add(firsts.first(event.id.hart)),
            },
            op: event.op,
            word: event.word,
            read: event.read,
            wrote: event.wrote,
            acquire: event.acquire,
            release: event.release,
            deps: Deps::new(alloc),
        },
    }
}
