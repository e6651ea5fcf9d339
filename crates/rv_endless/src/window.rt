//! An entry as a window has it, and the LR with which an SC is paired.
ghost use Rattle.std.specs.Prelude.{◌≡◌, ◌++◌, ◌∷◌, ◌≤◌, [], IfOk, List, length};
ghost use Rattle.std.specs.Option.{option_copied};
ghost use Rattle.rv_event.specs.Log.{events, of_hart};
ghost use Rattle.rv_event.specs.declared.event.Event.{Event};
ghost use Rattle.rv_event.proofs.Indexed.{Indexed};
ghost use Rattle.rv_settle.specs.Windows.{counted_from, deps_from};
ghost use Rattle.rv_past.specs.Laws.{IsPartner};
ghost use Rattle.rv_cut.specs.Exclusives.{IsLastExclusive};

use rv_cut::last_exclusive;
use rv_event::{Dep, Deps, Entry, Event, Id, NoMemory, Op};
use std::alloc::Global;

/// The entry as a window has it that begins with this number of its hart: numbers are counted from
/// there, and dependencies on what came before are left out.
///
/// # Errors
/// `NoMemory` where it could not be had.
pub fn renumber(alloc: Global, entry: &Entry, first: u32) -> Result<Entry, NoMemory>
    ensures { IfOk result (λ x. x ≡ record entry.now { event = counted_from first entry.now.event }) }
{
    let event = &entry.event;
    Ok(Entry {
        source: entry.source,
        event: Event {
            id: Id {
                hart: event.id.hart,
                seq: event.id.seq.saturating_sub(first),
            },
            op: event.op,
            word: event.word,
            read: event.read,
            wrote: event.wrote,
            acquire: event.acquire,
            release: event.release,
            deps: renumber_deps(alloc, &event.deps, first)?,
        },
    })
}

/// The dependencies on the events from this number on, counted from there.
fn renumber_deps(alloc: Global, deps: &Deps, first: u32) -> Result<Deps, NoMemory>
    ensures { IfOk result (λ kept. kept ≡ deps_from first deps.now) }
{
    let mut kept = Deps::new(alloc);
    for dep in deps.as_slice() {
        if dep.seq >= first {
            kept.push(Dep {
                kind: dep.kind,
                seq: dep.seq - first,
            })?;
        }
    }
    Ok(kept)
}

/// The LR with which the event is paired that comes after all of its hart's in the log, where it is
/// an SC with one. It costs a step for each event since that one for an SC where the log is in the
/// order of the hart's numbers, else a pass over the log; and nothing for another event.
pub fn find_partner<'a>(log: &'a [Entry], event: &Event) -> Option<&'a Event>
    ensures { Indexed (events log.now) → length (of_hart event.now.id.hart (events log.now)) ≤ event.now.id.seq →
        IsPartner (events log.now ++ event.now ∷ []) event.now (option_copied result) }
{
    if event.op != Op::Sc {
        return None;
    }
    let last = exclusive_before(log, event.id)?;
    if last.op == Op::Lr { Some(last) } else { None }
}

/// The last LR, SC or failed SC of the hart before its next event, which has this id. It looks at
/// the log from its end for as long as the hart's numbers come one below the other.
fn exclusive_before(log: &[Entry], next: Id) -> Option<&Event>
    ensures { Indexed (events log.now) → length (of_hart next.hart (events log.now)) ≤ next.seq →
        IsLastExclusive (events log.now) next.hart (option_copied result) }
{
    let mut number = next.seq;
    let mut rest = log.len();
    'later: while rest > 0 {
        rest -= 1;
        let event = &log[rest].event;
        if event.id.hart == next.hart {
            if number == 0 || event.id.seq != number - 1 {
                break;
            }
            if event.op.is_exclusive() {
                return Some(event);
            }
            number -= 1;
        }
    }
    last_exclusive(log, next.hart)
}
