//! Counts over a log and over links.
ghost use Rattle.std.specs.Prelude.{◌≡◌, ◌==◌, IfOk, count_by};
ghost use Rattle.std.specs.List.{list_any};
ghost use Rattle.rv_coverage.specs.Counts.{event_counts, harts_of, link_counts, reasons, same_reason};
ghost use Rattle.rv_coverage.specs.Kinds.{is_of};

use crate::feature::{Count, Feature};
use crate::kind::{Kind, is_of, kinds};
use rv_event::{Entry, Link, NoMemory, Reason};
use std::alloc::Global;

/// How many events are of the kind.
fn count_events(log: &[Entry], kind: Kind) -> usize
    ensures { result ≡ count_by (λ x. is_of kind x.event) log.now }
{
    log.iter().filter(|x| is_of(kind, &x.event)).count()
}

/// How many events are of each kind. It costs a pass over the log for each.
///
/// # Errors
/// `NoMemory` where the list could not be had.
pub fn event_counts(alloc: Global, log: &[Entry]) -> Result<Vec<Count>, NoMemory>
    ensures { IfOk result (λ counts. counts.items ≡ event_counts log.now) }
{
    let mut counts = Vec::new(alloc);
    'kinds: for kind in kinds() {
        let feature = Feature::Event(kind);
        let count = count_events(log, kind);
        counts.push(Count { feature, count })?;
    }
    Ok(counts)
}

/// The reasons that links may have: the thirteen rules of preserved program order and the other
/// five.
fn reasons() -> [Reason; 18]
    ensures { result ≡ reasons }
{
    [
        Reason::Preserved(1),
        Reason::Preserved(2),
        Reason::Preserved(3),
        Reason::Preserved(4),
        Reason::Preserved(5),
        Reason::Preserved(6),
        Reason::Preserved(7),
        Reason::Preserved(8),
        Reason::Preserved(9),
        Reason::Preserved(10),
        Reason::Preserved(11),
        Reason::Preserved(12),
        Reason::Preserved(13),
        Reason::Coherence,
        Reason::ReadsFrom,
        Reason::FromRead,
        Reason::AtomicIn,
        Reason::AtomicOut,
    ]
}

/// How many links have the reason.
fn count_links(links: &[Link], reason: Reason) -> usize
    ensures { result ≡ count_by (λ l. same_reason reason l.reason) links.now }
{
    links.iter().filter(|l| l.reason == reason).count()
}

/// How many links have each reason. It costs a pass over the links for each.
///
/// # Errors
/// `NoMemory` where the list could not be had.
pub fn link_counts(alloc: Global, links: &[Link]) -> Result<Vec<Count>, NoMemory>
    ensures { IfOk result (λ counts. counts.items ≡ link_counts links.now) }
{
    let mut counts = Vec::new(alloc);
    'reasons: for reason in reasons() {
        let feature = Feature::Link(reason);
        let count = count_links(links, reason);
        counts.push(Count { feature, count })?;
    }
    Ok(counts)
}

/// Whether the log has an event of the hart.
fn has_hart(log: &[Entry], hart: u8) -> bool
    ensures { result ≡ list_any (λ x. hart == x.event.id.hart) log.now }
{
    log.iter().any(|x| x.event.id.hart == hart)
}

/// How many harts have events. It costs a pass over the log for each that may have.
pub fn count_harts(log: &[Entry]) -> usize
    ensures { result ≡ harts_of log.now }
{
    let harts: [u8; 16] = [0, 1, 2, 3, 4, 5, 6, 7, 8, 9, 10, 11, 12, 13, 14, 15];
    harts.iter().filter(|h| has_hart(log, **h)).count()
}
