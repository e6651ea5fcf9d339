//! The steps of a cycle.
ghost use Rattle.std.specs.Prelude.{◌≡◌, ◌++◌, IfOk, OnOk, Some};
ghost use Rattle.std.specs.Option.{option_copied};
ghost use Rattle.rv_event.specs.Edges.{IsEdge};
ghost use Rattle.rv_event.specs.Log.{events, named};
ghost use Rattle.rv_event.specs.declared.event.Event.{Event};
ghost use Rattle.rv_event.specs.declared.memory_model.MemoryModel.{MemoryModel};
ghost use Rattle.rv_cert.specs.Certificates.{IsClosedWalk};
ghost use Rattle.rv_explain.specs.Steps.{AreStepsOfCycle, IsStepOf, ids_of_step, ids_of_steps};

use crate::witness::find_witness;
use rv_cert::start_of;
use rv_event::{Entry, Event, Id, NoMemory, Reason, find_named};
use std::alloc::Global;

/// A step of a cycle: an edge with its ends, and what its reason stands on.
#[derive(Clone, Copy, Debug)]
pub struct Step<'a> {
    /// The event that has to come first.
    pub from: &'a Event,
    /// Why it has to.
    pub reason: Reason,
    /// The event that has to come behind it.
    pub to: &'a Event,
    /// The first event that the reason stands on, where it speaks of one (see [`find_witness`]).
    pub witness: Option<&'a Event>,
}

/// The event that the id names.
pub fn event_named<'a>(log: &'a [Entry], id: Id) -> &'a Event
    requires { (e : Event) × (named (events log.now) id ≡ Some e) }
    ensures { named (events log.now) id ≡ Some result.now }
{
    match find_named(log, id) {
        Some(event) => event,
        None => unreachable!(),
    }
}

/// The step of an edge.
fn step_of<'a>(log: &'a [Entry], from: Id, reason: Reason, to: Id) -> Step<'a>
    requires { (model : MemoryModel) × IsEdge model (events log.now) from reason to }
    ensures { IsStepOf (events log.now) from reason to result }
{
    let from = event_named(log, from);
    let to = event_named(log, to);
    Step {
        from,
        reason,
        to,
        witness: find_witness(log, reason, from, to),
    }
}

/// The steps of a cycle of edges, in its order.
///
/// It costs a few passes over the log for each.
///
/// # Errors
/// Memory ran out.
pub fn steps_of<'a>(
    alloc: Global,
    log: &'a [Entry],
    edges: &[(Id, Reason)],
) -> Result<Vec<Step<'a>>, NoMemory>
    requires { (model : MemoryModel) × IsClosedWalk model (events log.now) edges.now }
    ensures { IfOk result (λ steps. AreStepsOfCycle (events log.now) edges.now steps.items) }
{
    let mut steps = Vec::new(alloc);
    let Some((first, _)) = edges.split_first() else {
        unreachable!()
    };
    let end = first.0;
    let mut rest = edges;
    'edges: while let Some((edge, after)) = rest.split_first() {
        let (from, reason) = *edge;
        let to = start_of(after, end);
        steps.push(step_of(log, from, reason, to))?;
        rest = after;
    }
    Ok(steps)
}

/// Adds the ids of the events of a step.
fn push_ids(ids: &mut Vec<Id>, step: &Step<'_>) -> Result<(), NoMemory>
    ensures { OnOk result (ids.new.items ≡ ids.old.items ++ ids_of_step step.now) }
{
    ids.push(step.from.id)?;
    ids.push(step.to.id)?;
    if let Some(witness) = step.witness {
        ids.push(witness.id)?;
    }
    Ok(())
}

/// Adds the ids of the events of the steps, in order.
///
/// # Errors
/// Memory ran out; some of them may be there.
pub fn push_ids_of_steps(ids: &mut Vec<Id>, steps: &[Step<'_>]) -> Result<(), NoMemory>
    ensures { OnOk result (ids.new.items ≡ ids.old.items ++ ids_of_steps steps.now) }
{
    'steps: for step in steps {
        push_ids(ids, step)?;
    }
    Ok(())
}
