//! Cuts into which no edge leads, and that leave an LR behind only where its hart went on for long
//! without an SC.
ghost use Rattle.std.specs.Prelude.{ℕ, ◌≡◌, ◌↔◌, ◌<◌, ◌+◌, ◌==◌, ◌&&◌, if◌then◌else◌};
ghost use Rattle.std.specs.Prelude.{IfOk, IsTrue, false, filter, slice_index_or};
ghost use Rattle.rv_event.specs.Faults.{is_lr, is_reserved};
ghost use Rattle.rv_event.specs.Log.{events};
ghost use Rattle.rv_event.specs.Operations.{is_exclusive};
ghost use Rattle.rv_event.proofs.Indexed.{Indexed};
ghost use Rattle.rv_event.specs.declared.event.Event.{Event};
ghost use Rattle.rv_settle.specs.Windows.{LeavesReserved};
ghost use Rattle.rv_cut.specs.Cuts.{AreClosed, AreLower, HasWaited, first_of, is_past};

use crate::cut::Cut;
use crate::exclusive::last_exclusive;
use crate::ordering::in_order;
use rv_edges::Tie;
use rv_event::{Entry, Event, Id, NoMemory, Op};
use std::alloc::Global;

/// Keeps more where that is needed, until no tie leads into the past from an event that is kept, and
/// no LR of the past is without an SC of the past behind it, but for one behind which `patience`
/// events of its hart or more stand, none of them an LR, an SC or a failed SC. Whether that was
/// reached: it always is, which is not promised.
///
/// `late_first` are the ties once more, those from operations that come late in an order first. So
/// one pass over them mostly does.
///
/// # Errors
/// `NoMemory` where a list could not be had; the cut may be lower than before.
pub fn close(
    alloc: Global,
    log: &[Entry],
    ties: &[Tie],
    late_first: &[Tie],
    patience: u32,
    cut: &mut Cut,
) -> Result<bool, NoMemory>
    requires { Indexed (events log.now) }
    ensures lower { AreLower cut.old cut.new }
    ensures closed { IfOk result (λ is. IsTrue is → AreClosed cut.new ties.now) }
    ensures waited { IfOk result (λ is. IsTrue is →
        (hart : ℕ) → LeavesReserved (first_of cut.new) (events log.now) hart →
        HasWaited patience (events log.now) cut.new hart) }
{
    keep_pulled(late_first, cut);
    if is_whole(log, ties, patience, cut) {
        return Ok(true);
    }
    keep_open(alloc, log, ties, patience, cut)?;
    Ok(is_whole(log, ties, patience, cut))
}

/// Whether no tie leads into the past from an event that is kept, and the past leaves a hart with a
/// reservation only where its LR has waited for long.
fn is_whole(log: &[Entry], ties: &[Tie], patience: u32, cut: &Cut) -> bool
    requires { Indexed (events log.now) }
    ensures closed { IsTrue result → AreClosed cut.now ties.now }
    ensures waited { IsTrue result → (hart : ℕ) → LeavesReserved (first_of cut.now) (events log.now) hart →
        HasWaited patience (events log.now) cut.now hart }
{
    is_closed(ties, cut) && have_waited(log, patience, cut)
}

/// Keeps what the ties pull, the last of them first.
fn keep_pulled(late_first: &[Tie], cut: &mut Cut)
    ensures { AreLower cut.old cut.new }
{
    'ties: for k in 0..late_first.len() {
        let tie = late_first[late_first.len() - 1 - k];
        if !cut.is_past(tie.from) {
            cut.keep(tie.to);
        }
    }
}

/// Keeps more, until the cut is closed as [`close`] says. It looks at each edge and each LR once.
///
/// What pulls another event with it has the shape of a tie: where the event `from` is kept, the
/// event `to` has to be.
///
/// # Errors
/// `NoMemory` where a list could not be had; the cut may be lower than before.
fn keep_open(
    alloc: Global,
    log: &[Entry],
    ties: &[Tie],
    patience: u32,
    cut: &mut Cut,
) -> Result<(), NoMemory>
    requires { Indexed (events log.now) }
    ensures { AreLower cut.old cut.new }
{
    let mut pulls = Vec::from_slice(alloc, ties)?;
    push_pairs(log, patience, &mut pulls, cut)?;
    let mut by_hart = by_hart(alloc, pulls.as_slice())?;
    'rounds: for _ in 0..ties.len() + log.len() {
        if !pull_all(&mut by_hart, cut) {
            break;
        }
    }
    Ok(())
}

/// Adds that each LR is kept with the next LR, SC or failed SC of its hart. A last LR, with none of
/// these behind it, is kept at once, where fewer than `patience` events of the hart stand behind it.
fn push_pairs(
    log: &[Entry],
    patience: u32,
    pulls: &mut Vec<Tie>,
    cut: &mut Cut,
) -> Result<(), NoMemory>
    requires { Indexed (events log.now) }
    ensures { AreLower cut.old cut.new }
{
    let mut open = [None; 16];
    for entry in log {
        let id = entry.event.id;
        let op = entry.event.op;
        if op.is_exclusive() && id.hart < 16 {
            if let Some(lr) = open[id.hart as usize] {
                pulls.push(Tie { from: id, to: lr })?;
            }
            open[id.hart as usize] = if op == Op::Lr { Some(id) } else { None };
        }
    }
    let counts = Cut::behind(log);
    for hart in 0..16 {
        if let Some(lr) = open[hart] {
            if !is_long(lr, patience, &counts) {
                cut.keep(lr);
            }
        }
    }
    Ok(())
}

/// Whether `patience` events of the hart or more stand behind this one, where it has so many.
fn is_long(lr: Id, patience: u32, counts: &Cut) -> bool
    ensures { IsTrue result ↔ lr.seq + patience < first_of counts.now lr.hart }
{
    let last = lr.seq.saturating_add(patience);
    last < counts.first(lr.hart)
}

/// The pulls by the hart of the event that pulls, each hart's in the order of its events.
fn by_hart(alloc: Global, pulls: &[Tie]) -> Result<Vec<Vec<Tie>>, NoMemory> {
    let mut keys = Vec::with_capacity(alloc, pulls.len())?;
    for pull in pulls {
        keys.push(pull.from.seq as usize)?;
    }
    let mut harts = Vec::with_capacity(alloc, 16)?;
    for _ in 0..16 {
        harts.push(Vec::new(alloc))?;
    }
    for pull in in_order(alloc, pulls, keys.as_slice())?.iter() {
        push_pull(&mut harts, *pull)?;
    }
    Ok(harts)
}

/// Adds a pull to those of its hart.
fn push_pull(harts: &mut Vec<Vec<Tie>>, pull: Tie) -> Result<(), NoMemory> {
    if let Some(hart) = harts.get_mut(pull.from.hart as usize) {
        hart.push(pull)?;
    }
    Ok(())
}

/// Keeps what the events pull that are kept. Whether there was one.
fn pull_all(pulls: &mut Vec<Vec<Tie>>, cut: &mut Cut) -> bool
    ensures { AreLower cut.old cut.new }
{
    let mut did_pull = false;
    for hart in 0..pulls.len() {
        did_pull |= pull_hart(&mut pulls[hart], cut);
    }
    did_pull
}

/// Keeps what the events of the hart pull that are kept, and takes these pulls off. Whether there
/// was one.
fn pull_hart(pulls: &mut Vec<Tie>, cut: &mut Cut) -> bool
    ensures { AreLower cut.old cut.new }
{
    let mut did_pull = false;
    for _ in 0..pulls.len() {
        let Some(pull) = pulls.last().copied() else {
            break;
        };
        if cut.is_past(pull.from) {
            break;
        }
        cut.keep(pull.to);
        pulls.pop();
        did_pull = true;
    }
    did_pull
}

/// Whether each tie to an event of the past leads from one of the past.
fn is_closed(ties: &[Tie], cut: &Cut) -> bool
    ensures { IsTrue result ↔ AreClosed cut.now ties.now }
{
    ties.iter()
        .all(|tie| !cut.is_past(tie.to) || cut.is_past(tie.from))
}

/// Whether the past leaves a hart with a reservation only where its LR has waited for long: it is the
/// hart's last LR, SC or failed SC, and `patience` events of the hart or more stand behind it.
fn have_waited(log: &[Entry], patience: u32, cut: &Cut) -> bool
    requires { Indexed (events log.now) }
    ensures { IsTrue result → (hart : ℕ) → LeavesReserved (first_of cut.now) (events log.now) hart →
        HasWaited patience (events log.now) cut.now hart }
{
    let reserved = reserved_by(log, cut);
    'harts: for hart in 0..16 {
        if reserved[hart as usize] && !has_waited(log, hart, patience, cut) {
            return false;
        }
    }
    true
}

/// Whether the hart's last LR, SC or failed SC is of the past, and `patience` events of the hart or
/// more stand behind it.
fn has_waited(log: &[Entry], hart: u8, patience: u32, cut: &Cut) -> bool
    requires { Indexed (events log.now) }
    ensures { IsTrue result → HasWaited patience (events log.now) cut.now hart }
{
    let Some(last) = last_exclusive(log, hart) else {
        return false;
    };
    let counts = Cut::behind(log);
    cut.is_past(last.id) && is_long(last.id, patience, &counts)
}

/// Of each hart, whether the past leaves it with a reservation.
fn reserved_by(log: &[Entry], cut: &Cut) -> [bool; 16]
    requires { Indexed (events log.now) }
    ensures { (hart : ℕ) → slice_index_or result hart false
        ≡ is_reserved (filter (λ (e : Event). is_past cut.now e.id) (events log.now)) hart }
{
    let mut reserved = [false; 16];
    for entry in log {
        if cut.is_past(entry.event.id) {
            note_reservation(&mut reserved, &entry.event);
        }
    }
    reserved
}

/// Notes whether the event leaves its hart with a reservation: an LR does, an SC or a failed SC
/// does not.
fn note_reservation(reserved: &mut [bool; 16], event: &Event)
    requires { event.now.id.hart < 16 }
    ensures { (hart : ℕ) → slice_index_or reserved.new hart false
        ≡ (if (hart == event.now.id.hart) && is_exclusive event.now.op then is_lr event.now.op
        else slice_index_or reserved.old hart false) }
{
    if event.op.is_exclusive() {
        reserved[event.id.hart as usize] = event.op == Op::Lr;
    }
}
