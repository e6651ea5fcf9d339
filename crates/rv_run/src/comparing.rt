//! Whether a log has the entries that were read.
ghost use Rattle.std.specs.Prelude.{◌≡◌, ◌<◌, ◌≤◌, ℕ, IfSome, IsTrue, All, length, take, slice_index_or};
ghost use Rattle.rv_book.specs.Chunked.{given_by};
ghost use Rattle.rv_run.specs.Comparisons.{IsBegun, IsBegunIn, IsWhole, IsWholeIn};

use crate::feeding::{Fed, FeedEnd};
use rv_event::{Entry, Event, is_same};

/// How many events the log has of a source, if they are the first of these.
fn count_first(log: &[Entry], source: u8, events: &[Event]) -> Option<usize>
    ensures few { IfSome result (λ n. n ≤ length events.now) }
    ensures first { IfSome result (λ n. given_by source log.now ≡ take n events.now) }
{
    let mut count = 0;
    for entry in log {
        if entry.source == source {
            if count >= events.len() || !is_same(&events[count], &entry.event) {
                return None;
            }
            count += 1;
        }
    }
    Some(count)
}

/// Whether each entry is of one of so many sources.
fn are_of_sources(log: &[Entry], sources: usize) -> bool
    ensures { IsTrue result → All (λ x. x.source < sources) log.now }
{
    log.iter().all(|x| (x.source as usize) < sources)
}

/// Whether the log's events of the source are the first that were read.
fn is_begun_in(log: &[Entry], source: u8, fed: &Fed) -> bool
    ensures { IsTrue result → IsBegunIn log.now source fed.now }
{
    count_first(log, source, fed.events()).is_some()
}

/// Whether the source was read to its end, and the log's events of it are all that were read.
fn is_whole_in(log: &[Entry], source: u8, fed: &Fed) -> bool
    ensures { IsTrue result → IsWholeIn log.now source fed.now }
{
    matches!(fed.end(), FeedEnd::Whole)
        && count_first(log, source, fed.events()) == Some(fed.events().len())
}

/// Whether the log has the first of each source's events, and no others.
pub(crate) fn is_begun(log: &[Entry], fed: &[Fed]) -> bool
    requires { length fed.now ≤ 8 }
    ensures { IsTrue result → IsBegun log.now fed.now }
{
    for i in 0..fed.len() {
        if !is_begun_in(log, i as u8, &fed[i]) {
            return false;
        }
    }
    are_of_sources(log, fed.len())
}

/// Whether each source was read to its end, and the log has all of their events, and no others.
pub(crate) fn is_whole(log: &[Entry], fed: &[Fed]) -> bool
    requires { length fed.now ≤ 8 }
    ensures { IsTrue result → IsWhole log.now fed.now }
{
    for i in 0..fed.len() {
        if !is_whole_in(log, i as u8, &fed[i]) {
            return false;
        }
    }
    are_of_sources(log, fed.len())
}
