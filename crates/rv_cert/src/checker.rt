//! The checker of certificates.
ghost use Rattle.std.specs.Prelude.{◌↔◌, IsTrue, List};
ghost use Rattle.rv_event.specs.Log.{events};
ghost use Rattle.rv_event.specs.Orders.{Lawful};
ghost use Rattle.rv_event.specs.declared.event.Id.{Id};
ghost use Rattle.rv_cert.specs.Certificates.{IsWalk, IsClosedWalk, Certifies};
ghost use Rattle.rv_cert.specs.Refusals.{IsFinal, IsRefusal};

use crate::certificate::Certificate;
use rv_event::{Entry, Id, MemoryModel, Reason, is_edge, is_stale, is_well_formed};

/// Whether the steps are a walk of edges that leads to the end.
fn is_walk(model: MemoryModel, log: &[Entry], steps: &[(Id, Reason)], end: Id) -> bool
    ensures { IsTrue result ↔ IsWalk model (events log.now) steps.now end }
{
    for i in 0..steps.len() {
        let (from, reason) = steps[i];
        let to = if i + 1 < steps.len() {
            steps[i + 1].0
        } else {
            end
        };
        if !is_edge(model, log, from, reason, to) {
            return false;
        }
    }
    true
}

/// Whether the steps are a closed walk of at least one edge.
fn is_closed_walk(model: MemoryModel, log: &[Entry], steps: &[(Id, Reason)]) -> bool
    ensures { IsTrue result ↔ IsClosedWalk model (events log.now) steps.now }
{
    match steps {
        [] => false,
        [first, ..] => is_walk(model, log, steps, first.0),
    }
}

/// Whether the certificate is one for the log under the model: a closed walk of at least one edge,
/// each with the reason named, or a stale pair. A rule counts where it holds, lowest or not.
///
/// It takes no memory, stands on the reference implementation alone, and is exact on every log, well
/// formed or not. It costs a few passes over the log for each edge. What a certificate says of
/// orders holds for a well formed log: [`confirm`] looks at that too.
pub fn check(model: MemoryModel, log: &[Entry], certificate: &Certificate) -> bool
    ensures { IsTrue result ↔ Certifies model (events log.now) certificate.now }
{
    match certificate {
        Certificate::Circle(circle) => is_closed_walk(model, log, circle.as_slice()),
        Certificate::Stale { load, store } => is_stale(log, *load, *store),
    }
}

/// Whether no order can be lawful, by this certificate: the entries are a well formed log, and the
/// certificate is one for it under the model. Then no order is lawful for the entries, nor for any
/// well formed log that continues them.
///
/// This function and the definitions are all that whoever distrusts the monitor has to believe. It
/// takes no memory. It costs a few passes over the log for each entry and for each edge.
pub fn confirm(model: MemoryModel, entries: &[Entry], certificate: &Certificate) -> bool
    ensures refuted { IsTrue result → (order : List Id) → Lawful model (events entries.now) order → ⊥ }
    ensures continued { IsTrue result → IsFinal model entries.now }
    ensures exact { IsTrue result ↔ IsRefusal model entries.now certificate.now }
{
    is_well_formed(entries) && check(model, entries, certificate)
}
