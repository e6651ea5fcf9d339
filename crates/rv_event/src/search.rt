//! Look-ups in a log, and program order, by scans.
ghost use Rattle.std.specs.Prelude.{◌≡◌, ◌↔◌, IsTrue, Some};
ghost use Rattle.std.specs.Option.{option_copied};
ghost use Rattle.rv_event.specs.Log.{events, did_write, named, writer, Earlier, Between};

use crate::event::{Entry, Event, Id, is_same};

/// Whether a is earlier than b in program order.
pub fn is_earlier(a: &Event, b: &Event) -> bool
    ensures { IsTrue result ↔ Earlier a.now b.now }
{
    a.id.hart == b.id.hart && a.id.seq < b.id.seq
}

/// Whether m stands between a and b in program order.
pub fn is_between(a: &Event, m: &Event, b: &Event) -> bool
    ensures { IsTrue result ↔ Between a.now m.now b.now }
{
    is_earlier(a, m) && is_earlier(m, b)
}

/// The event that the id names: the first of the log that has it.
///
/// It costs one pass over the log.
pub fn find_named(log: &[Entry], id: Id) -> Option<&Event>
    ensures { option_copied result ≡ named (events log.now) id }
{
    for entry in log {
        if id == entry.event.id {
            return Some(&entry.event);
        }
    }
    None
}

/// Whether the event wrote this version of the word.
fn is_write_of(event: &Event, word: u32, version: u32) -> bool
    ensures { result ≡ did_write word version event.now }
{
    event.is_store() && word == event.word && version == event.wrote
}

/// The first store of the log that wrote this version of the word. Version 0, the initial value,
/// has none.
///
/// It costs one pass over the log.
pub fn find_writer(log: &[Entry], word: u32, version: u32) -> Option<&Event>
    ensures { option_copied result ≡ writer (events log.now) word version }
{
    if version == 0 {
        return None;
    }
    for entry in log {
        if is_write_of(&entry.event, word, version) {
            return Some(&entry.event);
        }
    }
    None
}

/// Whether the event is the writer of this version of the word.
pub fn is_writer(log: &[Entry], word: u32, version: u32, event: &Event) -> bool
    ensures { IsTrue result ↔ (writer (events log.now) word version ≡ Some event.now) }
{
    match find_writer(log, word, version) {
        Some(store) => is_same(store, event),
        None => false,
    }
}
