//! How much the loads of a log test.
ghost use Rattle.std.specs.Prelude.{◌≡◌, ◌≤◌, ◌<◌, IfOk, Some, false, length, true};
ghost use Rattle.rv_replay.specs.Replays.{IsConsistent};
ghost use Rattle.rv_replay.specs.Strengths.{IsStrength, chosen, has_older, older_version, places, put_back_at};
ghost use Rattle.rv_replay.specs.Strengths.{returned_at, strength_text, wrote_older};

use crate::replaying::replay;
use rv_book::Book;
use rv_event::{Entry, Event, MemoryModel, NoMemory};
use rv_report::Outcome;
use std::alloc::Global;
use std::fmt;

/// At most so many loads are put back.
const MOST: usize = 200;

/// How much the loads of a log test: how many could not have returned an older version.
///
/// It is printed as `42 of 60 older reads would be refused`.
#[derive(Clone, Copy, PartialEq, Eq, Debug)]
pub struct Strength {
    /// How many loads were put back, each by itself: 0 to 200.
    pub tried: usize,
    /// How many of the logs in which one was are refused.
    pub refused: usize,
}

impl fmt::Display for Strength {
    ghost output = { λ s. Some (strength_text s) };

    fn fmt<W: fmt::Write>(&self, f: &mut fmt::Formatter<W>) -> fmt::Result {
        let Strength { tried, refused } = *self;
        write!(f, "{refused} of {tried} older reads would be refused")
    }
}

/// Whether the event is a load that could have returned an older version.
fn has_older(event: &Event) -> bool
    ensures { result ≡ has_older event.now }
{
    event.op.is_load() && event.read > 0
}

/// Whether the event is a store that wrote a version of the word that is older than this one.
fn wrote_older(event: &Event, word: u32, version: u32) -> bool
    ensures { result ≡ wrote_older word version event.now }
{
    event.op.is_store() && event.word == word && event.wrote < version
}

/// The newest version of the word older than this one that the log's stores wrote, or the initial
/// one.
fn older_version(log: &[Entry], word: u32, version: u32) -> u32
    ensures { result ≡ older_version log.now word version }
{
    let mut older = 0;
    for entry in log {
        if wrote_older(&entry.event, word, version) {
            older = older.max(entry.event.wrote);
        }
    }
    older
}

/// The places of the loads that could have returned an older version.
fn places_of(alloc: Global, log: &[Entry]) -> Result<Vec<usize>, NoMemory>
    ensures { IfOk result (λ ns. ns.items ≡ places log.now) }
{
    let mut places = Vec::new(alloc);
    for n in 0..log.len() {
        if has_older(&log[n].event) {
            places.push(n)?;
        }
    }
    Ok(places)
}

/// The places of those that are put back: at most [`MOST`], evenly chosen.
fn choose(alloc: Global, log: &[Entry]) -> Result<Vec<usize>, NoMemory>
    requires { length log.now ≤ 65536 }
    ensures { IfOk result (λ ns. ns.items ≡ chosen log.now) }
{
    let places = places_of(alloc, log)?;
    let count = places.len().min(MOST);
    let mut chosen = Vec::new(alloc);
    for i in 0..count {
        let number = i * places.len() / count;
        chosen.push(places[number])?;
    }
    Ok(chosen)
}

/// A copy of the log.
fn copy_of(alloc: Global, log: &[Entry]) -> Result<Vec<Entry>, NoMemory>
    ensures { IfOk result (λ copy. copy.items ≡ log.now) }
{
    let mut copy = Vec::new(alloc);
    for entry in log {
        copy.push(entry.copy(alloc)?)?;
    }
    Ok(copy)
}

/// Whether the list is a well formed log that has a lawful order.
fn is_consistent(alloc: Global, model: MemoryModel, log: &[Entry]) -> Result<bool, NoMemory>
    ensures allowed { IfOk result (λ is_so. is_so ≡ true → IsConsistent model log.now) }
    ensures refused { IfOk result (λ is_so. is_so ≡ false → IsConsistent model log.now → ⊥) }
{
    match replay(alloc, model, log)? {
        Outcome::Allowed { .. } => Ok(true),
        Outcome::Forbidden(_) | Outcome::Malformed(_) => Ok(false),
    }
}

/// Has the load at the place return this version.
fn set_read(log: &mut [Entry], place: usize, version: u32)
    requires { place < length log.old }
    ensures { log.new ≡ returned_at version log.old place }
{
    log[place].event.read = version;
}

/// Whether the log would be consistent, had the load at the place returned the version before. The
/// log is as it was.
fn allows_older(
    alloc: Global,
    model: MemoryModel,
    log: &mut [Entry],
    place: usize,
) -> Result<bool, NoMemory>
    requires { place < length log.old }
    ensures allowed { IfOk result (λ is_so. is_so ≡ true → IsConsistent model (put_back_at log.old log.old place)) }
    ensures refused { IfOk result (λ is_so.
        is_so ≡ false → IsConsistent model (put_back_at log.old log.old place) → ⊥) }
    ensures kept { log.new ≡ log.old }
{
    let event = &log[place].event;
    let (word, read) = (event.word, event.read);
    let older = older_version(log, word, read);
    set_read(log, place, older);
    let answer = is_consistent(alloc, model, log);
    set_read(log, place, read);
    answer
}

/// How much the loads of the book's log test.
///
/// A load that did not return the initial value is put back to the newest older version of its word
/// that a store of the log wrote, or to the initial one, and the whole log is judged again. So is
/// each of at most 200 loads, evenly chosen among these, and each by itself.
///
/// It costs a copy of the log, and for each load that is put back as much as to judge the log, or
/// that part of it after which no order is left.
///
/// # Errors
/// `NoMemory` where the copy, or a pass over it, was refused memory.
pub fn strength_of(alloc: Global, book: &Book) -> Result<Strength, NoMemory>
    ensures { IfOk result (IsStrength book.now.model book.now.log) }
{
    let model = book.model();
    let log = book.log();
    let chosen = choose(alloc, log)?;
    let mut copy = copy_of(alloc, log)?;
    let changed = copy.as_mut_slice();
    let mut refused = 0;
    'places: for place in chosen.as_slice() {
        if !allows_older(alloc, model, changed, *place)? {
            refused += 1;
        }
    }
    drop(copy);
    Ok(Strength {
        tried: chosen.len(),
        refused,
    })
}
