//! Edges from an event to itself.
ghost use Rattle.std.specs.Prelude.{◌↔◌, IsTrue};
ghost use Rattle.rv_versions.specs.Own.{ReservedOwn, ReturnsOwn};

use crate::reservation::Reservation;
use rv_event::Event;

/// Whether the event's LR returned what the event writes.
fn has_reserved_own(event: &Event, reserved: Option<Reservation>) -> bool
    ensures { IsTrue result ↔ ReservedOwn event.now reserved }
{
    match reserved {
        Some(r) => r.word == event.word && r.version == event.wrote,
        None => false,
    }
}

/// Whether the event stores, and it or its LR returned what it stores.
pub(crate) fn returns_own(event: &Event, reserved: Option<Reservation>) -> bool
    ensures { IsTrue result ↔ ReturnsOwn event.now reserved }
{
    event.is_store()
        && (event.is_load() && event.read == event.wrote || has_reserved_own(event, reserved))
}
