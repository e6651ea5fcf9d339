//! Circles of ids, and the reasons of their edges.
ghost use Rattle.std.specs.Prelude.{◌≡◌, ◌<◌, IfOk, length};
ghost use Rattle.rv_event.specs.Log.{events};
ghost use Rattle.rv_event.specs.Edges.{IsEdge};
ghost use Rattle.rv_event.specs.declared.reason.Reason.{Reason};
ghost use Rattle.rv_cert.specs.Certificates.{IsClosedWalk};
ghost use Rattle.rv_book.specs.Arranged.{next_id, EachLeads, walked};

use rv_event::{Entry, Id, MemoryModel, NoMemory, Reason, find_reason};
use std::alloc::Global;

/// The id after place k of the circle.
fn next_of(ids: &[Id], k: usize) -> Id
    requires { k < length ids.now }
    ensures { result ≡ next_id ids.now k }
{
    if k + 1 < ids.len() {
        ids[k + 1]
    } else {
        ids[0]
    }
}

/// The reason of an edge that is there.
fn reason_of(model: MemoryModel, log: &[Entry], from: Id, to: Id) -> Reason
    requires { (r : Reason) × IsEdge model (events log.now) from r to }
    ensures { IsEdge model (events log.now) from result to }
{
    match find_reason(model, log, from, to) {
        Some(reason) => reason,
        None => unreachable!(),
    }
}

/// The circle with its reasons.
#[inline(never)]
pub fn close(
    alloc: Global,
    model: MemoryModel,
    log: &[Entry],
    ids: &[Id],
) -> Result<Vec<(Id, Reason)>, NoMemory>
    requires some { 0 < length ids.now }
    requires leads { EachLeads model (events log.now) ids.now }
    ensures closed { IfOk result (λ steps. IsClosedWalk model (events log.now) steps.items) }
    ensures walked { IfOk result (λ steps. walked steps.items ≡ ids.now) }
{
    let mut steps = Vec::new(alloc);
    for k in 0..ids.len() {
        let reason = reason_of(model, log, ids[k], next_of(ids, k));
        steps.push((ids[k], reason))?;
    }
    Ok(steps)
}
