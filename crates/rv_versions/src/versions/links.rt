//! Lists of links that grow by those to a word's accesses in an interval of versions.
ghost use Rattle.std.specs.Prelude.{ℕ, ◌≡◌, ◌≢◌, ◌↔◌, Contains, IfOk, IsTrue, None, Some};
ghost use Rattle.rv_versions.specs.Linked.{Covers, IsExtended, IsBelow, IsAbove, stored, returned, held};

use crate::by_version::ByVersion;
use crate::reservation::Reservation;
use rv_event::{Event, Link, NoMemory, Reason};

/// The versions from one on and below another.
#[derive(Clone, Copy, Debug)]
pub(crate) struct Interval {
    /// The first version.
    pub from: u64,
    /// The version behind the last.
    pub to: u64,
}

impl Interval {
    /// This version alone, where there is one.
    #[inline(always)]
    pub(crate) fn of(version: Option<u32>) -> Self
        ensures { (v : ℕ) → Covers result v ↔ (version ≡ Some v) }
    {
        match version {
            Some(version) => Interval {
                from: u64::from(version),
                to: u64::from(version) + 1,
            },
            None => Interval { from: 0, to: 0 },
        }
    }

    /// The versions from one on and below this one, where there is one.
    #[inline(always)]
    pub(crate) fn below(from: u32, version: Option<u32>) -> Self
        ensures { (v : ℕ) → Covers result v ↔ IsBelow from version v }
    {
        match version {
            Some(version) => Interval {
                from: u64::from(from),
                to: u64::from(version),
            },
            None => Interval { from: 0, to: 0 },
        }
    }

    /// The versions above this one, where there is one, and before the end.
    #[inline(always)]
    pub(crate) fn above(version: Option<u32>, end: u64) -> Self
        ensures { (v : ℕ) → Covers result v ↔ IsAbove version end v }
    {
        match version {
            Some(version) => Interval {
                from: u64::from(version) + 1,
                to: end,
            },
            None => Interval { from: 0, to: 0 },
        }
    }
}

/// The version that the event wrote, if it stores.
#[inline(always)]
pub(crate) fn stored(event: &Event) -> Option<u32>
    ensures { result ≡ stored event.now }
{
    if event.is_store() {
        Some(event.wrote)
    } else {
        None
    }
}

/// The version that the event returned, if it loads.
#[inline(always)]
pub(crate) fn returned(event: &Event) -> Option<u32>
    ensures { result ≡ returned event.now }
{
    if event.is_load() {
        Some(event.read)
    } else {
        None
    }
}

/// The version that the event's LR returned, if it has one.
#[inline(always)]
pub(crate) fn held(reserved: Option<Reservation>) -> Option<u32>
    ensures { result ≡ held reserved }
{
    match reserved {
        Some(reservation) => Some(reservation.version),
        None => None,
    }
}

/// Whether no access is linked with the event: it is no memory operation, and has no LR.
pub(crate) fn is_unlinked(event: &Event, reserved: Option<Reservation>) -> bool
    ensures { IsTrue result ↔ ((stored event.now ≡ None) × (returned event.now ≡ None) × (reserved ≡ None)) }
{
    !event.is_memory() && reserved.is_none()
}

/// Adds a link to the event of each access of these versions, for this reason. Those of one hart
/// may be left aside.
///
/// # Errors
/// `NoMemory` where the list could not grow.
#[inline(always)]
pub(crate) fn append(
    before: Vec<Link>,
    accesses: &ByVersion,
    versions: Interval,
    aside: Option<u8>,
    reason: Reason,
) -> Result<Vec<Link>, NoMemory>
    ensures { IfOk result (λ links. IsExtended before.items links.items reason
        (λ x. Contains accesses.now x × Covers versions x.version × (aside ≢ Some x.hart))) }
{
    let mut links = before;
    let found = accesses.between(versions.from, versions.to);
    for access in found {
        if aside != Some(access.hart) {
            links.push(Link {
                id: access.id(),
                reason,
            })?;
        }
    }
    Ok(links)
}
