//! The reservation that an SC may end.
ghost use Rattle.std.specs.Prelude.{◌↔◌, ◌++◌, ◌∷◌, [], List, IsTrue};
ghost use Rattle.rv_event.specs.Log.{events};
ghost use Rattle.rv_event.specs.declared.event.Event.{Event};
ghost use Rattle.rv_explain.specs.Latest.{IsAbove, IsExclusiveBefore, IsLatest};

use rv_event::{Entry, Event, is_earlier};

/// Whether m is an LR, an SC or a failed SC earlier than this one in program order.
fn is_exclusive_before(sc: &Event, m: &Event) -> bool
    ensures { IsTrue result ↔ IsExclusiveBefore sc.now m.now }
{
    m.op.is_exclusive() && is_earlier(m, sc)
}

/// Whether the number is above the other, where there is one.
fn is_above(latest: Option<u32>, number: u32) -> bool
    ensures { IsTrue result ↔ IsAbove latest number }
{
    match latest {
        Some(other) => other < number,
        None => true,
    }
}

/// The number of the event, where it is the last LR, SC or failed SC before the SC so far.
fn later_of(latest: Option<u32>, sc: &Event, event: &Event) -> Option<u32>
    ensures { (log : List Event) → IsLatest log sc.now latest → IsLatest (log ++ event.now ∷ []) sc.now result }
{
    if is_exclusive_before(sc, event) && is_above(latest, event.id.seq) {
        Some(event.id.seq)
    } else {
        latest
    }
}

/// The number of the last LR, SC or failed SC before the SC in program order, where there is one.
///
/// It costs one pass over the log.
pub fn latest_exclusive(log: &[Entry], sc: &Event) -> Option<u32>
    ensures { IsLatest (events log.now) sc.now result }
{
    let mut latest: Option<u32> = None;
    'entries: for entry in log {
        latest = later_of(latest, sc, &entry.event);
    }
    latest
}
