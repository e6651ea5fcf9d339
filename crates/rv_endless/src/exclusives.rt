//! Of each hart, the last LR, SC or failed SC that was forgotten.
ghost use Rattle.std.specs.Prelude.{◌<◌, ◌++◌, ◌∷◌, [], IsTrue, List};
ghost use Rattle.rv_event.specs.Log.{events};
ghost use Rattle.rv_event.specs.Operations.{is_exclusive};
ghost use Rattle.rv_event.specs.declared.event.Entry.{Entry};
ghost use Rattle.rv_event.specs.declared.event.Event.{Event};
ghost use Rattle.rv_endless.specs.Exclusives.{AreLast, IsLastOf};
ghost use Rattle.rv_endless.specs.Forgetting.{AreFresh, HaveNumbers, forgotten_of};

use crate::forget::restore;
use rv_cut::Cut;
use rv_event::{Entry, Event, Op};
use std::alloc::Global;

/// An LR, SC or failed SC that was forgotten.
#[derive(Clone, Copy, PartialEq, Eq, Debug)]
pub struct Exclusive {
    /// Its number in the log.
    pub seq: u32,
    /// Whether it is an LR.
    pub is_lr: bool,
}

/// Takes what the cut forgets of the window into the last LR, SC or failed SC of each hart.
pub(crate) fn forget_exclusives(
    alloc: Global,
    last: &mut [Option<Exclusive>; 16],
    window: &[Entry],
    firsts: &Cut,
    cut: &Cut,
)
    ensures { (gone : List Entry) → HaveNumbers firsts.now window.now →
        AreFresh firsts.now gone window.now → AreLast (events gone) last.old →
        AreLast (events (gone ++ forgotten_of firsts.now cut.now window.now)) last.new }
{
    'entries: for entry in window {
        if cut.is_past(entry.event.id) {
            let known = restore(alloc, firsts, entry);
            note(last, &known.event);
            // By a call: where the scope ends, the proof would take it apart.
            drop(known);
        }
    }
}

/// Notes an event that was forgotten.
fn note(last: &mut [Option<Exclusive>; 16], event: &Event)
    ensures { (gone : List Event) → event.now.id.hart < 16 → AreLast gone last.old →
        AreLast (gone ++ event.now ∷ []) last.new }
{
    let hart = event.id.hart as usize;
    if hart < 16 && event.op.is_exclusive() {
        last[hart] = later(last[hart], event);
    }
}

/// The one with the higher number of the last one so far and the event, an LR, SC or failed SC.
fn later(last: Option<Exclusive>, event: &Event) -> Option<Exclusive>
    ensures { (gone : List Event) → IsTrue (is_exclusive event.now.op) → IsLastOf gone event.now.id.hart last →
        IsLastOf (gone ++ event.now ∷ []) event.now.id.hart result }
{
    let seq = event.id.seq;
    let is_lr = event.op == Op::Lr;
    match last {
        Some(known) if seq < known.seq => last,
        _ => Some(Exclusive { seq, is_lr }),
    }
}
