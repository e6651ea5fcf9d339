//! The events of one hart, read from the log that has them.
ghost use Rattle.std.specs.Prelude.{ℕ, ◌≡◌, ◌<◌, length, slice_get, slice_index_or};
ghost use Rattle.std.specs.Option.{option_copied};
ghost use Rattle.rv_event.specs.Log.{events, of_hart};
ghost use Rattle.rv_hart.specs.Places.{places_of};

use rv_event::{Entry, Event};
use std::marker::Model;

/// The events of one hart, in program order: a log, and the places of the hart's events in it.
///
/// Contracts see the events.
#[derive(Drop)]
pub struct OwnEvents<'a> {
    log: &'a [Entry],
    number: u8,
    places: &'a [u32],
}

impl<'a> Model for OwnEvents<'a> {
    ghost use Rattle.std.specs.Prelude.{◌≡◌, List};
    ghost use Rattle.rv_event.specs.Log.{events, of_hart};
    ghost use Rattle.rv_event.specs.declared.event.Event.{Event};
    ghost use Rattle.rv_hart.specs.Places.{places_of};

    ghost Value = { List Event };

    ghost view = { λ o. of_hart o.number (events o.log.now) };

    ghost invariant = { λ o. o.places.now ≡ places_of o.number (events o.log.now) };
}

impl<'a> OwnEvents<'a> {
    /// The events of the hart with this number, by their places in the log.
    pub fn new(log: &'a [Entry], number: u8, places: &'a [u32]) -> Self
        requires { places.now ≡ places_of number (events log.now) }
        ensures { result ≡ of_hart number (events log.now) }
    {
        OwnEvents {
            log,
            number,
            places,
        }
    }

    /// How many there are.
    pub fn len(&self) -> usize
        ensures { result ≡ length self.now }
    {
        self.places.len()
    }

    /// The event with this number, which is below their count.
    pub fn at(&self, number: usize) -> &'a Event
        requires { number < length self.now }
        ensures { result.now ≡ slice_index_or self.now number result.now }
    {
        let Some(place) = self.places.get(number) else {
            unreachable!()
        };
        let entry = &self.log[*place as usize];
        &entry.event
    }

    /// The event with this number, and None where the hart has fewer.
    pub fn get(&self, number: usize) -> Option<&'a Event>
        ensures { option_copied result ≡ slice_get self.now number }
    {
        if number < self.len() {
            Some(self.at(number))
        } else {
            None
        }
    }
}
