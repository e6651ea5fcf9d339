//! The last event of a hart that opens or closes a reservation.
ghost use Rattle.std.specs.Prelude.{◌++◌, ◌∷◌, [], List};
ghost use Rattle.std.specs.Option.{option_copied};
ghost use Rattle.rv_event.specs.Log.{events};
ghost use Rattle.rv_event.specs.declared.event.Event.{Event};
ghost use Rattle.rv_cut.specs.Exclusives.{IsLastExclusive};

use rv_event::{Entry, Event};

/// The hart's LR, SC or failed SC with the highest number, in whatever order the log has them. It
/// costs a pass over the log.
pub fn last_exclusive(log: &[Entry], hart: u8) -> Option<&Event>
    ensures { IsLastExclusive (events log.now) hart (option_copied result) }
{
    let mut last = None;
    for entry in log {
        last = later_exclusive(last, hart, &entry.event);
    }
    last
}

/// The event, where it is one of the hart's with a higher number, and else the one before.
fn later_exclusive<'a>(last: Option<&'a Event>, hart: u8, event: &'a Event) -> Option<&'a Event>
    ensures { (log : List Event) → IsLastExclusive log hart (option_copied last.entry) →
        IsLastExclusive (log ++ event.now ∷ []) hart (option_copied result) }
{
    if event.id.hart != hart || !event.op.is_exclusive() {
        return last;
    }
    let Some(before) = last else {
        return Some(event);
    };
    if event.id.seq < before.id.seq {
        last
    } else {
        Some(event)
    }
}
