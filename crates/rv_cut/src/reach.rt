//! Operations from which edges lead to where nothing comes before them.
ghost use Rattle.std.specs.Prelude.{◌<◌, ◌≡◌, ℕ, Contains, IsTrue, List, OnOk};
ghost use Rattle.rv_event.specs.Log.{events};
ghost use Rattle.rv_event.specs.Operations.{IsMemory};
ghost use Rattle.rv_event.specs.declared.event.Event.{Event};
ghost use Rattle.rv_event.specs.declared.memory_model.MemoryModel.{MemoryModel};
ghost use Rattle.rv_settle.specs.Settled.{IsSettled};
ghost use Rattle.rv_cut.specs.Cuts.{AreLower, is_past};
ghost use Rattle.rv_cut.specs.Marked.{AreEdges, AreMarked, HasAll, HasPlaces, mark_of};

use crate::bars::{Later, mark_bars};
use crate::cut::Cut;
use crate::marks::Marks;
use rv_edges::Tie;
use rv_event::{Entry, Event, MemoryModel, NoMemory};
use std::alloc::Global;

/// Keeps each operation from which the ties don't lead to an operation of each active hart that
/// stands before its later loads, and to one that stands before its later stores. So the past that
/// is left is settled.
///
/// It finds all that lead there where the ties stand in falling order: those from operations that
/// come late in a global memory order first.
///
/// # Errors
/// `NoMemory` where the marks could not be had; the cut may be lower than before.
pub fn keep_unsettled(
    alloc: Global,
    model: MemoryModel,
    log: &[Entry],
    ties: &[Tie],
    active: &[u8],
    cut: &mut Cut,
) -> Result<(), NoMemory>
    requires edges { AreEdges model (events log.now) ties.now }
    requires harts { (hart : ℕ) → Contains active.now hart → hart < 16 }
    ensures settled { OnOk result ((p : Event) → Contains (events log.now) p → IsMemory p →
        IsTrue (is_past cut.new p.id) → IsSettled model (events log.now) active.now p) }
    ensures lower { AreLower cut.old cut.new }
{
    let mut marks = Marks::new(alloc, log)?;
    mark_bars(model, log, &mut marks);
    mark_sources(ties, &mut marks);
    keep_unmarked(log, &marks, places_of(active), cut);
    Ok(())
}

/// The mark with both places of each of these harts.
fn places_of(active: &[u8]) -> u32
    requires { (hart : ℕ) → Contains active.now hart → hart < 16 }
    ensures { HasAll active.now result }
{
    let mut all = 0;
    for hart in active {
        all = all | Later::Loads.mark(*hart) | Later::Stores.mark(*hart);
    }
    all
}

/// Adds the places of each marked event to those of the events from which a tie leads to it, in the
/// order of the ties.
fn mark_sources(ties: &[Tie], marks: &mut Marks)
    ensures { (model : MemoryModel) (log : List Event) → AreEdges model log ties.now →
        AreMarked model log marks.old → AreMarked model log marks.new }
{
    for tie in ties {
        let mark = marks.of(tie.to);
        marks.add(tie.from, mark);
    }
}

/// Keeps each memory operation whose mark lacks one of the places.
fn keep_unmarked(log: &[Entry], marks: &Marks, wanted: u32, cut: &mut Cut)
    ensures marked { (p : Event) → Contains (events log.now) p → IsMemory p →
        IsTrue (is_past cut.new p.id) → HasPlaces wanted (mark_of marks.now p.id) }
    ensures lower { AreLower cut.old cut.new }
{
    for entry in log {
        keep_if_unmarked(&entry.event, marks, wanted, cut);
    }
}

/// Keeps the event where it is a memory operation whose mark lacks one of the places.
fn keep_if_unmarked(event: &Event, marks: &Marks, wanted: u32, cut: &mut Cut)
    ensures marked { IsMemory event.now → IsTrue (is_past cut.new event.now.id) →
        HasPlaces wanted (mark_of marks.now event.now.id) }
    ensures lower { AreLower cut.old cut.new }
{
    if event.is_memory() && !has_places(marks.of(event.id), wanted) {
        cut.keep(event.id);
    }
}

/// Whether the mark has all of these places.
fn has_places(mark: u32, wanted: u32) -> bool
    ensures { IsTrue result → HasPlaces wanted mark }
{
    mark & wanted == wanted
}
