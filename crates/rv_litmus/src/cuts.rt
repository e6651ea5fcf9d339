//! What may be forgotten of small executions: the cut that is found in a book.
use crate::books::book_of;
use crate::rows::{Bits, FENCE_ALL, FENCE_STORES, Row, X, Y, Z, amo, load, lr, other, row, store};
use rv_cut::find_cut;
use rv_event::{MemoryModel, Op};
use std::alloc::Global;
use std::process::Abort;

/// An execution, the harts that are still active, and how many events of the first two harts may be
/// forgotten then.
struct CutTest {
    name: &'static str,
    rows: &'static [Row],
    active: &'static [u8],
    firsts: [u32; 2],
}

/// Two harts store, pass a barrier of full fences and AMOs, and look at it. The second one opens a
/// reservation then.
const BARRIER: &[Row] = &[
    store!(0:0, X = 1),
    store!(1:0, Y = 1),
    other!(0:1, FENCE_ALL),
    other!(1:1, FENCE_ALL),
    amo!(0:2, Z, 0, 1),
    amo!(1:2, Z, 1, 2),
    other!(0:3, FENCE_ALL),
    other!(1:3, FENCE_ALL),
    load!(0:4, Z = 2),
    other!(0:5, FENCE_ALL),
    load!(1:4, Z = 2),
    lr!(1:5, X = 1),
    other!(1:6, FENCE_ALL),
];

/// A store stands before a fence of stores alone.
const STORES: &[Row] = &[
    store!(0:0, X = 1),
    other!(0:1, FENCE_STORES),
    store!(0:2, Y = 1),
    other!(0:3, FENCE_ALL),
    store!(0:4, X = 2),
    other!(0:5, FENCE_STORES),
];

/// The second hart's store of Y is returned and settled, but its store of Z before it is not.
const NOT_CLOSED: &[Row] = &[
    store!(1:0, Z = 1),
    store!(1:1, Y = 1),
    load!(0:0, Y = 1),
    other!(0:1, FENCE_ALL),
];

/// An LR waits for its SC, and three events of its hart stand behind it.
const WAITS: &[Row] = &[
    lr!(0:0, X = 0),
    other!(0:1, FENCE_ALL),
    store!(0:2, Y = 1),
    other!(0:3, FENCE_ALL),
];

/// A fourth event stands behind it.
const HAS_WAITED: &[Row] = &[
    lr!(0:0, X = 0),
    other!(0:1, FENCE_ALL),
    store!(0:2, Y = 1),
    other!(0:3, FENCE_ALL),
    other!(0:4, FENCE_ALL),
];

/// An LR is kept until so many events of its hart stand behind it.
const PATIENCE: u32 = 4;

const TESTS: &[CutTest] = &[
    CutTest {
        name: "a barrier of both harts",
        rows: BARRIER,
        active: &[0, 1],
        firsts: [4, 4],
    },
    CutTest {
        name: "the second hart has ended",
        rows: BARRIER,
        active: &[0],
        firsts: [6, 4],
    },
    CutTest {
        name: "all harts have ended, and one with a reservation",
        rows: BARRIER,
        active: &[],
        firsts: [6, 5],
    },
    CutTest {
        name: "a third hart has not begun",
        rows: BARRIER,
        active: &[0, 1, 2],
        firsts: [0, 0],
    },
    CutTest {
        name: "a fence of stores alone",
        rows: STORES,
        active: &[0],
        firsts: [4, 0],
    },
    CutTest {
        name: "an edge would lead into the past",
        rows: NOT_CLOSED,
        active: &[0],
        firsts: [0, 0],
    },
    CutTest {
        name: "an LR waits for its SC",
        rows: WAITS,
        active: &[0],
        firsts: [0, 0],
    },
    CutTest {
        name: "an LR has waited for long",
        rows: HAS_WAITED,
        active: &[0],
        firsts: [5, 0],
    },
];

/// The cut of the execution is the one that was told.
fn assert_cut(rt: &impl Abort, alloc: Global, test: &CutTest) {
    let book = book_of(rt, alloc, MemoryModel::Rvwmo, test.rows);
    let cut = find_cut(alloc, &book, test.active, PATIENCE).expect(rt, "memory");
    drop(book);
    let found = [cut.first(0), cut.first(1)];
    assert_eq!(rt; found, test.firsts, "{}", test.name);
    assert_eq!(rt; cut.first(2), 0, "{}", test.name);
}

#[test]
fn what_is_settled_may_be_forgotten(rt: HostRuntime) {
    for test in TESTS {
        assert_cut(&rt, rt.alloc(), test);
    }
}
