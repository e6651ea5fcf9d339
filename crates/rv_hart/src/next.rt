//! The next event of a hart.

use crate::kept::Kept;
use crate::own_events::OwnEvents;
use rv_event::Event;

/// The next event of a hart, beside the hart. Contracts see the fields.
#[derive(Drop)]
pub struct Next<'a> {
    /// What is kept of the hart's events.
    pub kept: &'a Kept,
    /// These events.
    pub events: OwnEvents<'a>,
    /// The next one.
    pub event: &'a Event,
    /// The number of the hart's own store that the event, a load, returns, where there is one.
    pub returned: Option<u32>,
}
