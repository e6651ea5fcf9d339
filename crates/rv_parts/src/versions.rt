//! Small logs with ample memory, and the links of one event more.
ghost use Rattle.std.specs.Prelude.{◌≡◌, ◌≢◌, ◌++◌, ◌∷◌, [], None, IfOk};
ghost use Rattle.rv_event.specs.Faults.{event_fault};
ghost use Rattle.rv_event.specs.Log.{events};
ghost use Rattle.rv_versions.specs.Reserved.{IsReserved};

use rv_event::{Deps, Entry, Event, Id, Link, NoMemory, Op, Reason, find_event_fault, is_paired};
use rv_versions::{Reservation, VersionLinks, Versions};
use std::alloc::Global;
use std::process::Abort;

/// An event of a word, with neither annotations nor dependencies.
fn event(alloc: Global, op: Op, id: Id, word: u32, versions: (u32, u32)) -> Event {
    let (read, wrote) = versions;
    Event {
        id,
        op,
        word,
        read,
        wrote,
        acquire: false,
        release: false,
        deps: Deps::from_vec(Vec::new(alloc)),
    }
}

fn id(hart: u8, seq: u32) -> Id {
    Id { hart, seq }
}

/// What the LR of the entries returned that is paired with the event.
fn find_reservation(entries: &[Entry], log: &[Entry], event: &Event) -> Option<Reservation>
    requires { events log.now ≡ events entries.now ++ event.now ∷ [] }
    ensures { IsReserved (events entries.now) event.now result }
{
    for entry in entries {
        if is_paired(log, &entry.event, event) {
            return Some(Reservation {
                word: entry.event.word,
                version: entry.event.read,
            });
        }
    }
    None
}

/// The entries followed by the event.
fn with_event(alloc: Global, entries: &[Entry], event: &Event) -> Result<Vec<Entry>, NoMemory>
    ensures { IfOk result (λ log. events log.items ≡ events entries.now ++ event.now ∷ []) }
{
    let mut log = Vec::new(alloc);
    for entry in entries {
        log.push(entry.copy(alloc)?)?;
    }
    log.push(Entry {
        source: 0,
        event: event.copy(alloc)?,
    })?;
    Ok(log)
}

/// What the event's LR returned.
fn reservation(
    alloc: Global,
    entries: &[Entry],
    event: &Event,
) -> Result<Option<Reservation>, NoMemory>
    ensures { IfOk result (λ r. IsReserved (events entries.now) event.now r) }
{
    let log = with_event(alloc, entries, event)?;
    Ok(find_reservation(entries, &log, event))
}

/// Stops where the event has a fault.
fn assert_sound(rt: &impl Abort, versions: &Versions, event: &Event)
    ensures { event_fault (events versions.now) event.now ≡ None }
{
    let entries = versions.entries();
    assert!(rt; entries.len() < 100);
    assert!(rt; find_event_fault(entries, event).is_none());
}

fn push(rt: &impl Abort, alloc: Global, versions: &mut Versions, event: &Event)
    ensures { versions.new ≢ [] }
{
    assert_sound(rt, versions, event);
    let reserved = reservation(alloc, versions.entries(), event).expect(rt, "memory");
    let event = event.copy(alloc).expect(rt, "memory");
    let entry = Entry { source: 0, event };
    versions.push(entry, reserved).expect(rt, "memory");
}

fn around(rt: &impl Abort, alloc: Global, versions: &Versions, event: &Event) -> VersionLinks {
    assert_sound(rt, versions, event);
    let reserved = reservation(alloc, versions.entries(), event).expect(rt, "memory");
    versions
        .around(event, reserved, Vec::new(alloc), Vec::new(alloc))
        .expect(rt, "memory")
}

/// Whether the event would have an edge to itself. It is let go here, so that no test holds
/// several.
fn has_own_edge(rt: &impl Abort, alloc: Global, versions: &Versions, event: Event) -> bool {
    assert_sound(rt, versions, &event);
    let reserved = reservation(alloc, versions.entries(), &event).expect(rt, "memory");
    versions.has_own_edge(&event, reserved)
}

fn link(hart: u8, seq: u32, reason: Reason) -> Link {
    Link {
        id: id(hart, seq),
        reason,
    }
}

/// The log of these events.
fn log_of(rt: &impl Abort, alloc: Global, events: &[Event]) -> Versions {
    let mut versions = Versions::new(alloc);
    for event in events {
        push(rt, alloc, &mut versions, event);
    }
    versions
}

/// Holds the links of one event more against those that are expected.
fn assert_around(
    rt: &impl Abort,
    alloc: Global,
    versions: &Versions,
    event: &Event,
    before: &[Link],
    after: &[Link],
) {
    let links = around(rt, alloc, versions, event);
    assert!(rt; links.before.as_slice() == before);
    assert!(rt; links.after.as_slice() == after);
}

/// The same, over the log of these events.
fn assert_links(
    rt: &impl Abort,
    alloc: Global,
    log: &[Event],
    event: &Event,
    before: &[Link],
    after: &[Link],
) {
    let versions = log_of(rt, alloc, log);
    assert_around(rt, alloc, &versions, event, before, after);
}

#[test]
fn a_store_between_two_is_linked_to_both(rt: HostRuntime) {
    let alloc = rt.alloc();
    assert_links(
        &rt,
        alloc,
        &[
            event(alloc, Op::Store, id(0, 0), 7, (0, 1)),
            event(alloc, Op::Store, id(1, 0), 7, (0, 3)),
            event(alloc, Op::Store, id(1, 1), 8, (0, 1)),
        ],
        &event(alloc, Op::Store, id(2, 0), 7, (0, 2)),
        &[link(0, 0, Reason::Coherence)],
        &[link(1, 0, Reason::Coherence)],
    );
}

#[test]
fn a_store_has_the_loads_that_wait_for_it(rt: HostRuntime) {
    let alloc = rt.alloc();
    assert_links(
        &rt,
        alloc,
        &[
            event(alloc, Op::Load, id(0, 0), 7, (0, 0)),
            event(alloc, Op::Load, id(0, 1), 7, (5, 0)),
            event(alloc, Op::Load, id(0, 2), 7, (6, 0)),
        ],
        &event(alloc, Op::Store, id(1, 0), 7, (0, 5)),
        &[link(0, 0, Reason::FromRead)],
        &[link(0, 1, Reason::ReadsFrom)],
    );
}

#[test]
fn loads_are_linked_to_the_nearest_stores(rt: HostRuntime) {
    let alloc = rt.alloc();
    let log = [
        event(alloc, Op::Store, id(0, 0), 7, (0, 1)),
        event(alloc, Op::Store, id(0, 1), 7, (0, 2)),
        event(alloc, Op::Load, id(1, 0), 7, (1, 0)),
        event(alloc, Op::Load, id(1, 1), 7, (2, 0)),
    ];
    let load = event(alloc, Op::Load, id(2, 0), 7, (0, 0));
    assert_links(
        &rt,
        alloc,
        &log,
        &load,
        &[],
        &[link(0, 0, Reason::FromRead)],
    );
    let load = event(alloc, Op::Load, id(2, 0), 7, (2, 0));
    assert_links(
        &rt,
        alloc,
        &log,
        &load,
        &[link(0, 1, Reason::ReadsFrom)],
        &[],
    );
    let own = event(alloc, Op::Load, id(0, 2), 7, (2, 0));
    assert_links(&rt, alloc, &log, &own, &[], &[]);
    let store = event(alloc, Op::Store, id(2, 0), 7, (0, 3));
    let before = [link(0, 1, Reason::Coherence), link(1, 1, Reason::FromRead)];
    assert_links(&rt, alloc, log.as_slice(), &store, &before, &[]);
}

#[test]
fn an_amo_loads_and_stores(rt: HostRuntime) {
    let alloc = rt.alloc();
    assert_links(
        &rt,
        alloc,
        &[
            event(alloc, Op::Amo, id(0, 0), 7, (0, 1)),
            event(alloc, Op::Amo, id(2, 0), 7, (2, 3)),
        ],
        &event(alloc, Op::Amo, id(1, 0), 7, (1, 2)),
        &[link(0, 0, Reason::Coherence), link(0, 0, Reason::ReadsFrom)],
        &[
            link(2, 0, Reason::Coherence),
            link(2, 0, Reason::ReadsFrom),
            link(2, 0, Reason::FromRead),
        ],
    );
}

#[test]
fn an_sc_comes_after_what_its_lr_returned(rt: HostRuntime) {
    let alloc = rt.alloc();
    assert_links(
        &rt,
        alloc,
        &[
            event(alloc, Op::Store, id(1, 0), 7, (0, 1)),
            event(alloc, Op::Store, id(2, 0), 7, (0, 3)),
            event(alloc, Op::Lr, id(0, 0), 7, (1, 0)),
        ],
        &event(alloc, Op::Sc, id(0, 1), 8, (0, 1)),
        &[link(1, 0, Reason::AtomicIn)],
        &[link(2, 0, Reason::AtomicOut)],
    );
}

#[test]
fn a_store_has_the_scs_whose_lrs_wait_for_it(rt: HostRuntime) {
    let alloc = rt.alloc();
    assert_links(
        &rt,
        alloc,
        &[
            event(alloc, Op::Lr, id(0, 0), 7, (3, 0)),
            event(alloc, Op::Sc, id(0, 1), 7, (0, 4)),
        ],
        &event(alloc, Op::Store, id(1, 0), 7, (0, 3)),
        &[],
        &[
            link(0, 1, Reason::Coherence),
            link(0, 0, Reason::ReadsFrom),
            link(0, 1, Reason::AtomicIn),
        ],
    );
}

#[test]
fn a_store_of_a_third_hart_parts_an_sc(rt: HostRuntime) {
    let alloc = rt.alloc();
    assert_links(
        &rt,
        alloc,
        &[
            event(alloc, Op::Lr, id(0, 0), 7, (0, 0)),
            event(alloc, Op::Sc, id(0, 1), 7, (0, 1)),
            event(alloc, Op::Lr, id(1, 0), 7, (1, 0)),
            event(alloc, Op::Sc, id(1, 1), 7, (0, 2)),
        ],
        &event(alloc, Op::Store, id(2, 0), 7, (0, 3)),
        &[link(1, 1, Reason::Coherence), link(1, 1, Reason::AtomicOut)],
        &[],
    );
}

#[test]
fn an_own_version_is_an_edge_to_itself(rt: HostRuntime) {
    let alloc = rt.alloc();
    let log = [event(alloc, Op::Lr, id(0, 0), 7, (2, 0))];
    let versions = log_of(&rt, alloc, &log);
    let amo = event(alloc, Op::Amo, id(1, 0), 7, (1, 1));
    assert!(rt; has_own_edge(&rt, alloc, &versions, amo));
    let other = event(alloc, Op::Amo, id(1, 0), 7, (1, 2));
    assert!(rt; !has_own_edge(&rt, alloc, &versions, other));
    let sc = event(alloc, Op::Sc, id(0, 1), 7, (0, 2));
    assert!(rt; has_own_edge(&rt, alloc, &versions, sc));
    let elsewhere = event(alloc, Op::Sc, id(0, 1), 8, (0, 2));
    assert!(rt; !has_own_edge(&rt, alloc, &versions, elsewhere));
}

#[test]
fn what_is_popped_is_found_no_more(rt: HostRuntime) {
    let alloc = rt.alloc();
    let mut versions = log_of(&rt, alloc, &[]);
    push(
        &rt,
        alloc,
        &mut versions,
        &event(alloc, Op::Store, id(0, 0), 7, (0, 3)),
    );
    assert!(rt; versions.writer(7, 3) == Some(id(0, 0)));
    assert!(rt; versions.writer(7, 0).is_none());
    assert!(rt; versions.writer(7, 2).is_none());
    assert!(rt; versions.writer(8, 3).is_none());
    versions.pop();
    assert!(rt; versions.entries().is_empty());
    assert!(rt; versions.writer(7, 3).is_none());
}

/// Stores and loads of a word whose higher versions come first, with loads of one version by two
/// harts.
fn late_events(rt: &impl Abort, alloc: Global) -> Vec<Event> {
    let mut events = Vec::new(alloc);
    for (op, hart, versions) in [
        (Op::Store, 0, (0, 4)),
        (Op::Load, 1, (4, 0)),
        (Op::Store, 2, (0, 2)),
        (Op::Load, 3, (2, 0)),
        (Op::Load, 4, (2, 0)),
    ] {
        events
            .push(event(alloc, op, id(hart, 0), 7, versions))
            .expect(rt, "memory");
    }
    events
}

#[test]
fn what_comes_late_stands_by_its_version(rt: HostRuntime) {
    let alloc = rt.alloc();
    let log = late_events(&rt, alloc);
    let before = [
        link(2, 0, Reason::Coherence),
        link(3, 0, Reason::FromRead),
        link(4, 0, Reason::FromRead),
    ];
    let after = [link(0, 0, Reason::Coherence)];
    let store = event(alloc, Op::Store, id(5, 0), 7, (0, 3));
    assert_links(&rt, alloc, log.as_slice(), &store, &before, &after);
    let load = event(alloc, Op::Load, id(5, 0), 7, (2, 0));
    let writer = [link(2, 0, Reason::ReadsFrom)];
    let next = [link(0, 0, Reason::FromRead)];
    assert_links(&rt, alloc, log.as_slice(), &load, &writer, &next);
    let lowest = event(alloc, Op::Store, id(5, 0), 7, (0, 1));
    let above = [link(2, 0, Reason::Coherence)];
    assert_links(&rt, alloc, log.as_slice(), &lowest, &[], &above);
}

#[test]
fn what_came_late_is_taken_out_of_the_middle(rt: HostRuntime) {
    let alloc = rt.alloc();
    let mut versions = log_of(&rt, alloc, late_events(&rt, alloc).as_slice());
    let store = event(alloc, Op::Store, id(5, 0), 7, (0, 3));
    push(&rt, alloc, &mut versions, &store);
    assert!(rt; versions.writer(7, 3) == Some(id(5, 0)));
    versions.pop();
    assert!(rt; versions.writer(7, 3).is_none());
    push(
        &rt,
        alloc,
        &mut versions,
        &event(alloc, Op::Load, id(6, 0), 7, (2, 0)),
    );
    versions.pop();
    let before = [
        link(2, 0, Reason::Coherence),
        link(3, 0, Reason::FromRead),
        link(4, 0, Reason::FromRead),
    ];
    let after = [link(0, 0, Reason::Coherence)];
    assert_around(&rt, alloc, &versions, &store, &before, &after);
}
