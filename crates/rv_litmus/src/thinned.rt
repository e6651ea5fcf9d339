//! Links that leave out what follows from others: the nearest alone are listed. That they reach what
//! all edges reach is a clause of `History::around` (`Covers`).
use crate::edges::{around_of, history_of};
use crate::rows::{Bits, Row, X, id, row, store};
use rv_edges::{Around, History};
use rv_event::{Deps, Event, Id, Link, MemoryModel, Op, Reason};
use std::alloc::Global;
use std::process::Abort;

/// A history, the next row, and the links that are listed of it.
struct LinksTest {
    name: &'static str,
    rows: &'static [Row],
    next: Row,
    before: &'static [Link],
    after: &'static [Link],
}

macro_rules! link {
    ($hart:literal : $seq:literal, $reason:expr) => {
        Link { id: id!($hart: $seq), reason: $reason }
    };
}

const LISTED: &[LinksTest] = &[
    LinksTest {
        name: "a store is linked from the one before alone",
        rows: &[store!(0: 0, X = 1), store!(0: 1, X = 2)],
        next: store!(0: 2, X = 3),
        before: &[
            link!(0: 1, Reason::Preserved(1)),
            link!(0: 1, Reason::Coherence),
        ],
        after: &[],
    },
    LinksTest {
        name: "a store between two versions is linked to both alone",
        rows: &[store!(0: 0, X = 1), store!(1: 0, X = 3)],
        next: store!(2: 0, X = 2),
        before: &[link!(0: 0, Reason::Coherence)],
        after: &[link!(1: 0, Reason::Coherence)],
    },
];

/// The histories with what is listed. What they are is told to no proof.
fn listed() -> &'static [LinksTest] {
    LISTED
}

/// Just these links are listed.
fn assert_listed(rt: &impl Abort, alloc: Global, test: &LinksTest) {
    let history = history_of(rt, alloc, MemoryModel::Rvwmo, test.rows);
    let around = around_of(rt, alloc, &history, &test.next);
    assert!(rt; around.before.as_slice() == test.before, "{}", test.name);
    assert!(rt; around.after.as_slice() == test.after, "{}", test.name);
    drop(history);
}

#[test]
fn the_nearest_links_alone_are_listed(rt: HostRuntime) {
    for test in listed() {
        assert_listed(&rt, rt.alloc(), test);
    }
}

/// A store of hart 0 to the word X that writes the version one above its number.
fn store_of(alloc: Global, seq: u32) -> Event {
    Event {
        id: Id { hart: 0, seq },
        op: Op::Store,
        word: X,
        read: 0,
        wrote: seq.wrapping_add(1),
        acquire: false,
        release: false,
        deps: Deps::from_vec(Vec::new(alloc)),
    }
}

/// Adds the event with the links that are found, and gives these.
fn grow(rt: &impl Abort, history: &mut History, event: &Event) -> Around {
    assert!(rt; history.fault(event).is_none());
    let around = history.around(event).expect(rt, "memory");
    history.push(event, &around).expect(rt, "memory");
    around
}

#[test]
fn the_last_of_4096_stores_is_linked_from_the_one_before_alone(rt: HostRuntime) {
    let mut history = History::new(rt.alloc(), MemoryModel::Rvwmo);
    for seq in 0..4095 {
        grow(&rt, &mut history, &store_of(rt.alloc(), seq));
    }
    let around = grow(&rt, &mut history, &store_of(rt.alloc(), 4095));
    assert!(rt; around.before.as_slice().len() <= 2);
    assert!(rt;
        around
            .before
            .as_slice()
            .iter()
            .all(|l| l.id == Id { hart: 0, seq: 4094 })
    );
    assert!(rt; !around.before.as_slice().is_empty() && around.after.as_slice().is_empty());
}
