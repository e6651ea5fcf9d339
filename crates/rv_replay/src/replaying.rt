//! One pass over a list of entries.
ghost use Rattle.std.specs.Prelude.{◌≡◌, [], IfOk, IsFalse};
ghost use Rattle.rv_replay.specs.Replays.{IsReplayed};

use rv_book::{Book, Offer};
use rv_event::{Entry, MemoryModel, NoMemory};
use rv_report::Outcome;
use std::alloc::Global;

/// Offers the entries one by one to an empty book, and says what they come to.
fn pass(book: &mut Book, entries: &[Entry]) -> Result<Outcome, NoMemory>
    requires empty { book.old.log ≡ [] }
    requires going { IsFalse book.old.stopped }
    ensures { IfOk result (IsReplayed book.old.model entries.now) }
{
    // For the proof alone, which has the model from this call.
    let _model = book.model();
    for entry in entries {
        match book.offer(entry) {
            Offer::Accepted => {}
            Offer::Malformed(malformed) => return Ok(Outcome::Malformed(malformed)),
            Offer::Forbidden(forbidden) => return Ok(Outcome::Forbidden(forbidden)),
            Offer::Stopped => unreachable!(),
            Offer::NoMemory => return Err(NoMemory),
        }
    }
    Ok(Outcome::Allowed {
        events: book.accepted(),
        operations: book.operations(),
        waiting: book.waiting(),
    })
}

/// What the entries come to under the model, judged one by one in their order, in one thread.
///
/// `Allowed` exactly where they are a well formed log that has a lawful order, with the numbers of
/// the entries, of the memory operations among them and of the loads whose store is not there. Else
/// the evidence is the shortest beginning of the list whose last entry has a fault (`Malformed`),
/// or that has no lawful order (`Forbidden`); where both hold, `Malformed`.
///
/// # Errors
/// `NoMemory` where a growth was refused; nothing is left of the pass.
pub fn replay(alloc: Global, model: MemoryModel, entries: &[Entry]) -> Result<Outcome, NoMemory>
    ensures { IfOk result (IsReplayed model entries.now) }
{
    let mut book = Book::new(alloc, model);
    let outcome = pass(&mut book, entries);
    // By a call: where the scope ends, the proof would take the book apart, field by field.
    drop(book);
    outcome
}
