//! The links between a new event and others.
ghost use Rattle.std.specs.Prelude.{◌≡◌, ◌++◌, [], List, IfOk};
ghost use Rattle.rv_event.specs.Log.{events};
ghost use Rattle.rv_event.specs.declared.reason.Link.{Link};
ghost use Rattle.rv_versions.specs.Indexes.{AreOfWord};
ghost use Rattle.rv_versions.specs.Linked.{AreTheirs, AreBefore, AreAfter};

use super::Versions;
use super::links::{Interval, append, held, returned, stored};
use crate::accesses::Accesses;
use crate::reservation::Reservation;
use rv_event::{Event, Link, NoMemory, Reason};

impl Versions {
    /// Adds all links into the event, behind those that are there. The accesses to the event's word
    /// are given.
    ///
    /// Stores and loads are linked down to the store of the next lower version, and SCs of other
    /// harts down to where a store parts them from the event.
    ///
    /// # Errors
    /// `NoMemory` where the list could not grow.
    pub(crate) fn links_before(
        &self,
        own: &Accesses,
        event: &Event,
        reserved: Option<Reservation>,
        before: Vec<Link>,
    ) -> Result<Vec<Link>, NoMemory>
        requires { AreOfWord (events self.now) event.now.word own.now }
        ensures { IfOk result (λ links. (others : List Link) × (links.items ≡ before.items ++ others)
            × AreBefore (events self.now) event.now reserved others) }
    {
        let hart = Some(event.id.hart);
        let lr = self.of_reserved(own, event, reserved);
        let wrote = stored(event);
        let low = own.lower_store(wrote);
        let parted = own.unparted_from(wrote, event.id.hart);
        let nearest = Interval::below(low, wrote);
        let unparted = Interval::below(parted, wrote);
        let read = Interval::of(returned(event));
        let held = Interval::of(held(reserved));
        let coherence = append(before, &own.stores, nearest, None, Reason::Coherence)?;
        let reads_from = append(coherence, &own.stores, read, hart, Reason::ReadsFrom)?;
        let from_read = append(reads_from, &own.loads, nearest, None, Reason::FromRead)?;
        let atomic_in = append(from_read, &lr.stores, held, None, Reason::AtomicIn)?;
        let links = append(atomic_in, &own.pairs, unparted, hart, Reason::AtomicOut)?;
        Ok(links)
    }

    /// Adds all links out of the event to an empty list. The accesses to the event's word are given.
    ///
    /// Of the stores of higher versions those of the next one are linked.
    ///
    /// # Errors
    /// `NoMemory` where the list could not grow.
    pub(crate) fn links_after(
        &self,
        own: &Accesses,
        event: &Event,
        reserved: Option<Reservation>,
        none: Vec<Link>,
    ) -> Result<Vec<Link>, NoMemory>
        requires own { AreOfWord (events self.now) event.now.word own.now }
        requires empty { none.items ≡ [] }
        ensures { IfOk result (λ links. AreAfter (events self.now) event.now reserved links.items) }
    {
        let hart = Some(event.id.hart);
        let lr = self.of_reserved(own, event, reserved);
        let wrote = stored(event);
        let read = returned(event);
        let held = held(reserved);
        let end_wrote = own.higher_store(wrote, None);
        let end_read = own.higher_store(read, None);
        let end_held = lr.higher_store(held, hart);
        let next = Interval::above(wrote, end_wrote);
        let above = Interval::above(read, end_read);
        let foreign = Interval::above(held, end_held);
        let own_version = Interval::of(wrote);
        let coherence = append(none, &own.stores, next, None, Reason::Coherence)?;
        let reads_from = append(coherence, &own.loads, own_version, None, Reason::ReadsFrom)?;
        let from_read = append(reads_from, &own.stores, above, None, Reason::FromRead)?;
        let atomic_in = append(from_read, &own.pairs, own_version, None, Reason::AtomicIn)?;
        let links = append(atomic_in, &lr.stores, foreign, hart, Reason::AtomicOut)?;
        Ok(links)
    }

    /// The accesses of the log to the word of the event's LR, where it has one and those to the
    /// event's own word are at hand. Mostly it is the same word, and then it costs no look-up.
    fn of_reserved<'a>(
        &'a self,
        own: &'a Accesses,
        event: &Event,
        reserved: Option<Reservation>,
    ) -> &'a Accesses
        requires { AreOfWord (events self.now) event.now.word own.now }
        ensures { AreTheirs (events self.now) event.now reserved own.now result.now }
    {
        match reserved {
            Some(reservation) if reservation.word != event.word => self.of_word(reservation.word),
            _ => own,
        }
    }
}
