//! Small histories with ample memory: which events are linked to the next one, and by which rule.
ghost use Rattle.std.specs.Prelude.{◌≡◌, map, IsTrue};
ghost use Rattle.rv_event.specs.Log.{events};
ghost use Rattle.rv_event.specs.declared.reason.Link.{Link};
ghost use Rattle.rv_event.specs.declared.reason.Reason.TheVariants.{Coherence};
ghost use Rattle.rv_hart.specs.Harts.{Hart, Follows, IsHart, IsReturned};
ghost use Rattle.rv_hart.specs.Kept.{IsHartOf, hart_of_log};
ghost use Rattle.rv_hart.specs.RuleLinks.{AreEnoughLinks};

use rv_event::{
    Dep, DepKind, Deps, Entry, Event, Id, Link, MemoryModel, Op, Reason, Set, find_event_fault,
    find_writer,
};
use rv_hart::{HartOrder, OwnEvents};
use std::alloc::Global;
use std::process::Abort;

/// An event of hart 0, and the links that it has: the events that they come from, by number, each
/// with its rule.
#[derive(Clone, Copy)]
struct Step {
    op: Op,
    word: u32,
    read: u32,
    wrote: u32,
    acquire: bool,
    release: bool,
    deps: &'static [Dep],
    links: &'static [(u32, u8)],
}

/// A store of version 1 to word 0, without annotations, dependencies and links.
const STORE: Step = Step {
    op: Op::Store,
    word: 0,
    read: 0,
    wrote: 1,
    acquire: false,
    release: false,
    deps: &[],
    links: &[],
};

/// A load of version 0 of word 0, alike.
const LOAD: Step = Step {
    op: Op::Load,
    ..STORE
};

/// An AMO on word 0 that returns version 0 and writes version 1, alike.
const AMO: Step = Step {
    op: Op::Amo,
    ..STORE
};

/// The event of a step at this place.
fn event_of(rt: &impl Abort, alloc: Global, seq: u32, step: &Step) -> Event
    ensures { result.id.hart ≡ 0 }
{
    Event {
        id: Id { hart: 0, seq },
        op: step.op,
        word: step.word,
        read: step.read,
        wrote: step.wrote,
        acquire: step.acquire,
        release: step.release,
        deps: Deps::from_vec(Vec::from_slice(alloc, step.deps).expect(rt, "memory")),
    }
}

/// Dependencies: of the address and of the data on event 0, and of a branch on event 2.
const ADDRESS_0: Dep = Dep {
    kind: DepKind::Addr,
    seq: 0,
};

const DATA_0: Dep = Dep {
    kind: DepKind::DataOf,
    seq: 0,
};

const CONTROL_2: Dep = Dep {
    kind: DepKind::Ctrl,
    seq: 2,
};

/// A log, and what is kept of one of its harts.
#[derive(Drop)]
struct Lone {
    log: Vec<Entry>,
    hart: HartOrder,
}

/// The events as entries of one source.
fn entries_of(rt: &impl Abort, alloc: Global, past: &OwnEvents<'_>) -> Vec<Entry>
    ensures { events result.items ≡ past.now }
{
    let mut entries = Vec::new(alloc);
    for number in 0..past.len() {
        let event = past.at(number).copy(alloc).expect(rt, "memory");
        entries
            .push(Entry { source: 0, event })
            .expect(rt, "memory");
    }
    entries
}

/// The number of the store that the event, a load, returns.
fn own_store(entries: &[Entry], event: &Event) -> Option<u32>
    ensures { (h : Hart) → IsHart h → h.events ≡ events entries.now → IsReturned h event.now result }
{
    if !event.is_load() {
        return None;
    }
    match find_writer(entries, event.word, event.read) {
        Some(store) => Some(store.id.seq),
        None => None,
    }
}

/// The number of the own store that an event without a fault, a load, returns.
fn returned_by(rt: &impl Abort, alloc: Global, lone: &Lone, event: &Event) -> Option<u32>
    requires of_log { IsHartOf (events lone.now.log.items) lone.now.hart }
    requires own { lone.now.hart.kept.number ≡ event.now.id.hart }
    ensures follows { Follows (hart_of_log (events lone.now.log.items) lone.now.hart) event.now }
    ensures returned { IsReturned (hart_of_log (events lone.now.log.items) lone.now.hart) event.now result }
{
    let own = lone.hart.events(lone.log.as_slice());
    let entries = entries_of(rt, alloc, &own);
    assert!(rt; entries.len() < 4096);
    assert!(rt; find_event_fault(&entries, event).is_none());
    own_store(&entries, event)
}

/// Puts the event into the log, and has the hart keep it by these links.
fn join(
    rt: &impl Abort,
    alloc: Global,
    lone: &mut Lone,
    event: &Event,
    returned: Option<u32>,
    links: &[Link],
)
    requires of_log { IsHartOf (events lone.old.log.items) lone.old.hart }
    requires follows { Follows (hart_of_log (events lone.old.log.items) lone.old.hart) event.now }
    requires returned { IsReturned (hart_of_log (events lone.old.log.items) lone.old.hart) event.now returned }
    requires linked { AreEnoughLinks (hart_of_log (events lone.old.log.items) lone.old.hart) event.now links.now }
    ensures of_log { IsHartOf (events lone.new.log.items) lone.new.hart }
    ensures number { lone.new.hart.kept.number ≡ lone.old.hart.kept.number }
{
    assert!(rt; lone.log.len() < 4096);
    lone.hart
        .push(lone.log.as_slice(), event, returned, links)
        .expect(rt, "memory");
    let event = event.copy(alloc).expect(rt, "memory");
    lone.log
        .push(Entry { source: 0, event })
        .expect(rt, "memory");
}

/// Adds an event that has no fault, and says what its links were.
fn follow(rt: &impl Abort, alloc: Global, lone: &mut Lone, event: &Event) -> Vec<Link>
    requires of_log { IsHartOf (events lone.old.log.items) lone.old.hart }
    requires own { lone.old.hart.kept.number ≡ event.now.id.hart }
    ensures of_log { IsHartOf (events lone.new.log.items) lone.new.hart }
    ensures number { lone.new.hart.kept.number ≡ lone.old.hart.kept.number }
{
    let returned = returned_by(rt, alloc, lone, event);
    let log = lone.log.as_slice();
    let list = Vec::new(alloc);
    let links = lone
        .hart
        .before(log, event, returned, list)
        .expect(rt, "memory");
    join(rt, alloc, lone, event, returned, links.as_slice());
    links
}

/// Links from the same events, for a reason that is no rule.
fn without_rules(rt: &impl Abort, alloc: Global, links: &[Link]) -> Vec<Link>
    ensures { result.items ≡ map (λ (l : Link). record l { reason = Coherence }) links.now }
{
    let mut others = Vec::new(alloc);
    for link in links {
        others
            .push(Link {
                reason: Reason::Coherence,
                ..*link
            })
            .expect(rt, "memory");
    }
    others
}

/// Adds an event that has no fault, by links of which none names a rule.
fn follow_without_rules(rt: &impl Abort, alloc: Global, lone: &mut Lone, event: &Event)
    requires of_log { IsHartOf (events lone.old.log.items) lone.old.hart }
    requires own { lone.old.hart.kept.number ≡ event.now.id.hart }
    ensures of_log { IsHartOf (events lone.new.log.items) lone.new.hart }
    ensures number { lone.new.hart.kept.number ≡ lone.old.hart.kept.number }
{
    let returned = returned_by(rt, alloc, lone, event);
    let log = lone.log.as_slice();
    let list = Vec::new(alloc);
    let by_rules = lone
        .hart
        .before(log, event, returned, list)
        .expect(rt, "memory");
    let named = by_rules.as_slice();
    let links = without_rules(rt, alloc, named);
    join(rt, alloc, lone, event, returned, links.as_slice());
}

/// Whether these are links from the events with these numbers, by these rules.
fn are_links(links: &[Link], expected: &[(u32, u8)]) -> bool {
    links.len() == expected.len()
        && links.iter().zip(expected).all(|(link, (seq, rule))| link.id.seq == *seq
            && link.reason == Reason::Preserved(*rule))
}

/// The hart after the steps, each of which has the links that it names.
fn hart_of(rt: &impl Abort, alloc: Global, model: MemoryModel, steps: &[Step]) -> Lone
    ensures of_log { IsHartOf (events result.log.items) result.hart }
    ensures number { result.hart.kept.number ≡ 0 }
{
    let mut lone = Lone {
        log: Vec::new(alloc),
        hart: HartOrder::new(alloc, model, 0),
    };
    for step in steps {
        let seq = lone.log.len();
        assert!(rt; seq < 4096);
        let event = event_of(rt, alloc, seq as u32, step);
        let links = follow(rt, alloc, &mut lone, &event);
        assert!(rt; are_links(links.as_slice(), step.links));
    }
    lone
}

/// Whether the event has no fault over the hart's events.
fn may_follow(rt: &impl Abort, alloc: Global, lone: &Lone, event: &Event) -> bool
    requires of_log { IsHartOf (events lone.now.log.items) lone.now.hart }
    requires own { lone.now.hart.kept.number ≡ event.now.id.hart }
    ensures { IsTrue result → Follows (hart_of_log (events lone.now.log.items) lone.now.hart) event.now }
{
    let own = lone.hart.events(lone.log.as_slice());
    let entries = entries_of(rt, alloc, &own);
    entries.len() < 4096 && find_event_fault(&entries, event).is_none()
}

/// The event of a step that may be the second of hart 0.
fn second_of(rt: &impl Abort, alloc: Global, lone: &Lone, step: &Step) -> Event
    requires of_log { IsHartOf (events lone.now.log.items) lone.now.hart }
    requires own { lone.now.hart.kept.number ≡ 0 }
    ensures { Follows (hart_of_log (events lone.now.log.items) lone.now.hart) result }
{
    let event = event_of(rt, alloc, 1, step);
    assert!(rt; may_follow(rt, alloc, lone, &event));
    event
}

#[test]
fn the_last_store_of_three_is_linked_from_the_second(rt: HostRuntime) {
    let steps = [
        STORE,
        Step {
            wrote: 2,
            links: &[(0, 1)],
            ..STORE
        },
        Step {
            wrote: 3,
            links: &[(1, 1)],
            ..STORE
        },
    ];
    let lone = hart_of(&rt, rt.alloc(), MemoryModel::Rvwmo, &steps);
    assert_eq!(rt; count(&lone), 3);
}

/// The steps are linked as each of them says.
fn assert_linked(rt: &impl Abort, alloc: Global, steps: &[Step]) {
    let lone = hart_of(rt, alloc, MemoryModel::Rvwmo, steps);
    assert_eq!(rt; count(&lone), steps.len());
}

#[test]
fn a_fence_orders_what_is_before_it(rt: HostRuntime) {
    let fence = Op::Fence {
        pred: Set::W,
        succ: Set::R,
    };
    let steps = [
        STORE,
        Step { word: 1, ..STORE },
        Step { op: fence, ..STORE },
        Step {
            word: 2,
            links: &[(1, 4), (0, 4)],
            ..LOAD
        },
    ];
    assert_linked(&rt, rt.alloc(), &steps);
}

#[test]
fn annotations_order(rt: HostRuntime) {
    let steps = [
        Step {
            acquire: true,
            ..AMO
        },
        Step {
            word: 1,
            links: &[(0, 5)],
            ..LOAD
        },
        Step {
            word: 2,
            release: true,
            links: &[(1, 6)],
            ..AMO
        },
    ];
    assert_linked(&rt, rt.alloc(), &steps);
}

#[test]
fn annotations_of_both_order(rt: HostRuntime) {
    let steps = [
        Step {
            release: true,
            ..AMO
        },
        Step {
            word: 1,
            acquire: true,
            links: &[(0, 7)],
            ..AMO
        },
    ];
    assert_linked(&rt, rt.alloc(), &steps);
}

#[test]
fn an_address_orders_a_load_and_later_stores(rt: HostRuntime) {
    let steps = [
        LOAD,
        Step {
            word: 1,
            deps: &[ADDRESS_0],
            links: &[(0, 9)],
            ..LOAD
        },
        Step {
            word: 2,
            links: &[(0, 13)],
            ..STORE
        },
    ];
    assert_linked(&rt, rt.alloc(), &steps);
}

#[test]
fn data_and_branches_order_stores(rt: HostRuntime) {
    let steps = [
        LOAD,
        Step {
            word: 1,
            deps: &[DATA_0],
            links: &[(0, 10)],
            ..STORE
        },
        Step { word: 2, ..LOAD },
        Step {
            op: Op::Branch,
            deps: &[CONTROL_2],
            ..STORE
        },
        Step {
            word: 3,
            links: &[(2, 11)],
            ..STORE
        },
    ];
    assert_linked(&rt, rt.alloc(), &steps);
}

#[test]
fn a_load_of_an_own_store_is_linked_from_what_it_stands_on(rt: HostRuntime) {
    let steps = [
        LOAD,
        Step {
            word: 1,
            deps: &[DATA_0],
            links: &[(0, 10)],
            ..STORE
        },
        Step {
            word: 1,
            read: 1,
            links: &[(0, 12)],
            ..LOAD
        },
    ];
    assert_linked(&rt, rt.alloc(), &steps);
}

#[test]
fn a_load_of_an_own_sc_is_linked_from_it(rt: HostRuntime) {
    let steps = [
        Step { op: Op::Lr, ..LOAD },
        Step {
            op: Op::Sc,
            links: &[(0, 1)],
            ..STORE
        },
        Step {
            read: 1,
            links: &[(1, 3)],
            ..LOAD
        },
    ];
    assert_linked(&rt, rt.alloc(), &steps);
}

#[test]
fn a_load_that_spins_is_linked_from_other_versions_alone(rt: HostRuntime) {
    let again = Step {
        read: 1,
        links: &[(0, 2)],
        ..LOAD
    };
    assert_linked(&rt, rt.alloc(), &[LOAD, again, again]);
}

/// The second event of a hart is paired with its first.
fn check_partner(rt: &impl Abort, alloc: Global, first: &Step, second: &Step) {
    let lone = hart_of(rt, alloc, MemoryModel::Rvwmo, &[*first]);
    let event = second_of(rt, alloc, &lone, second);
    let partner = lone.hart.partner(lone.log.as_slice(), &event);
    assert_eq!(rt; partner.map(|lr| lr.id.seq), Some(0));
}

#[test]
fn an_sc_is_paired_with_the_lr_before_it(rt: HostRuntime) {
    let alloc = rt.alloc();
    let lr = Step { op: Op::Lr, ..LOAD };
    let sc = Step {
        op: Op::Sc,
        word: 1,
        links: &[(0, 8)],
        ..STORE
    };
    check_partner(&rt, alloc, &lr, &sc);
    assert_linked(&rt, alloc, &[lr, sc]);
}

#[test]
fn links_that_name_no_rule_lose_no_event(rt: HostRuntime) {
    let alloc = rt.alloc();
    let acquire = Step {
        acquire: true,
        ..AMO
    };
    let mut lone = hart_of(&rt, alloc, MemoryModel::Rvwmo, &[acquire]);
    let second = event_of(&rt, alloc, 1, &Step { word: 1, ..acquire });
    follow_without_rules(&rt, alloc, &mut lone, &second);
    let third = event_of(&rt, alloc, 2, &Step { word: 2, ..LOAD });
    let links = follow(&rt, alloc, &mut lone, &third);
    assert!(rt; are_links(links.as_slice(), &[(1, 5)]));
}

/// The second event of the hart is stale by this one, where there is one.
fn check_stale(rt: &impl Abort, alloc: Global, lone: &Lone, step: &Step, by: Option<Id>)
    requires of_log { IsHartOf (events lone.now.log.items) lone.now.hart }
    requires own { lone.now.hart.kept.number ≡ 0 }
{
    let event = second_of(rt, alloc, lone, step);
    assert_eq!(rt; lone.hart.stale(lone.log.as_slice(), &event), by);
}

#[test]
fn an_older_version_than_an_own_one_is_stale(rt: HostRuntime) {
    let alloc = rt.alloc();
    let lone = hart_of(&rt, alloc, MemoryModel::Rvwmo, &[STORE]);
    let first = Id { hart: 0, seq: 0 };
    check_stale(&rt, alloc, &lone, &LOAD, Some(first));
    check_stale(&rt, alloc, &lone, &Step { read: 1, ..LOAD }, None);
}

/// Takes the last event off.
fn pop(rt: &impl Abort, lone: &mut Lone)
    requires of_log { IsHartOf (events lone.old.log.items) lone.old.hart }
    ensures of_log { IsHartOf (events lone.new.log.items) lone.new.hart }
{
    let entry = lone.log.pop().expect(rt, "an event");
    assert!(rt; entry.event.id.hart == lone.hart.kept.number);
    lone.hart.pop(lone.log.as_slice(), &entry.event);
}

/// How many events the hart has.
fn count(lone: &Lone) -> usize
    requires { IsHartOf (events lone.now.log.items) lone.now.hart }
{
    lone.hart.events(lone.log.as_slice()).len()
}

#[test]
fn what_is_popped_is_forgotten(rt: HostRuntime) {
    let store = Step {
        word: 1,
        links: &[(0, 5)],
        ..STORE
    };
    let mut lone = hart_of(&rt, rt.alloc(), MemoryModel::Ztso, &[LOAD, store]);
    assert_eq!(rt; count(&lone), 2);
    pop(&rt, &mut lone);
    assert_eq!(rt; count(&lone), 1);
    pop(&rt, &mut lone);
    assert_eq!(rt; count(&lone), 0);
}
