//! LitmusTest traces, a source for each hart, and what reads them.
use rv_event::{Entry, MemoryModel};
use rv_run::{Outcome, RunFault, Settings, run, run_over};
use rv_slots::LockedSlots;
use rv_trace::Trace;
use std::alloc::Global;
use std::io::Cursor;
use std::process::Abort;
use std::sync::Wait;
use std::thread::Threads;

pub(super) const HEADER: &str = "hart,seq,op,word,read,wrote,ann,deps\n";

/// The class of an outcome.
#[derive(Clone, Copy, PartialEq, Eq, Debug)]
pub(super) enum Class {
    Allowed,
    Forbidden,
    Malformed,
}

/// The rows of two harts, and the class of their outcome under RVWMO.
pub(super) struct LitmusTest {
    pub name: &'static str,
    pub harts: [&'static str; 2],
    pub class: Class,
}

/// Two harts that each store a word and then load the other's.
pub(super) const STORE_BUFFERING: [&str; 2] = [
    "0,0,S,0,,1,,\n0,1,L,1,0,,,\n",
    "1,0,S,1,,1,,\n1,1,L,0,0,,,\n",
];

/// The same with a fence between.
pub(super) const FENCED_STORE_BUFFERING: [&str; 2] = [
    "0,0,S,0,,1,,\n0,1,F,,,,rw-rw,\n0,2,L,1,0,,,\n",
    "1,0,S,1,,1,,\n1,1,F,,,,rw-rw,\n1,2,L,0,0,,,\n",
];

/// The litmus tests.
const TESTS: &[LitmusTest] = &[
    LitmusTest {
        name: "store buffering",
        harts: STORE_BUFFERING,
        class: Class::Allowed,
    },
    LitmusTest {
        name: "store buffering with fences",
        harts: FENCED_STORE_BUFFERING,
        class: Class::Forbidden,
    },
    LitmusTest {
        name: "store buffering with FENCE.TSO",
        harts: [
            "0,0,S,0,,1,,\n0,1,FT,,,,,\n0,2,L,1,0,,,\n",
            "1,0,S,1,,1,,\n1,1,FT,,,,,\n1,2,L,0,0,,,\n",
        ],
        class: Class::Allowed,
    },
    LitmusTest {
        name: "message passing with a fence and an address",
        harts: [
            "0,0,S,0,,1,,\n0,1,F,,,,w-w,\n0,2,S,1,,1,,\n",
            "1,0,L,1,1,,,\n1,1,L,0,0,,,a0\n",
        ],
        class: Class::Forbidden,
    },
    LitmusTest {
        name: "message passing with a fence alone",
        harts: [
            "0,0,S,0,,1,,\n0,1,F,,,,w-w,\n0,2,S,1,,1,,\n",
            "1,0,L,1,1,,,\n1,1,L,0,0,,,\n",
        ],
        class: Class::Allowed,
    },
    LitmusTest {
        name: "load buffering",
        harts: [
            "0,0,L,0,1,,,\n0,1,S,1,,1,,\n",
            "1,0,L,1,1,,,\n1,1,S,0,,1,,\n",
        ],
        class: Class::Allowed,
    },
    LitmusTest {
        name: "the loads of load buffering alone",
        harts: ["0,0,L,0,1,,,\n", "1,0,L,1,1,,,\n"],
        class: Class::Allowed,
    },
    LitmusTest {
        name: "load buffering with data",
        harts: [
            "0,0,L,0,1,,,\n0,1,S,1,,1,,d0\n",
            "1,0,L,1,1,,,\n1,1,S,0,,1,,d0\n",
        ],
        class: Class::Forbidden,
    },
    LitmusTest {
        name: "loads of one word in the wrong order",
        harts: ["0,0,S,0,,1,,\n", "1,0,L,0,1,,,\n1,1,L,0,0,,,\n"],
        class: Class::Forbidden,
    },
    LitmusTest {
        name: "a stale load",
        harts: ["0,0,S,0,,1,,\n0,1,L,0,0,,,\n", ""],
        class: Class::Forbidden,
    },
    LitmusTest {
        name: "a store between a pair",
        harts: ["0,0,LR,0,0,,,\n0,1,SC,0,,2,,\n", "1,0,S,0,,1,,\n"],
        class: Class::Forbidden,
    },
    LitmusTest {
        name: "a pair over two words",
        harts: [
            "0,0,S,0,,1,,\n0,1,LR,0,1,,,\n0,2,SC,1,,1,,\n",
            "1,0,L,1,1,,,\n1,1,L,0,0,,,a0\n",
        ],
        class: Class::Forbidden,
    },
    LitmusTest {
        name: "a store between an AMO's halves",
        harts: ["0,0,AMO,0,0,2,,\n", "1,0,S,0,,1,,\n"],
        class: Class::Forbidden,
    },
    LitmusTest {
        name: "an AMO that reads its own version",
        harts: ["0,0,AMO,0,1,1,,\n", ""],
        class: Class::Forbidden,
    },
    LitmusTest {
        name: "forwarding",
        harts: [
            "0,0,S,0,,1,,\n0,1,L,0,1,,,\n0,2,L,1,0,,,a1\n",
            "1,0,S,1,,1,,\n1,1,F,,,,rw-rw,\n1,2,L,0,0,,,\n",
        ],
        class: Class::Allowed,
    },
    LitmusTest {
        name: "no forwarding from an SC",
        harts: [
            "0,0,LR,0,0,,,\n0,1,SC,0,,1,,\n0,2,L,0,1,,,\n0,3,L,1,0,,,a2\n",
            "1,0,S,1,,1,,\n1,1,F,,,,rw-rw,\n1,2,L,0,0,,,\n",
        ],
        class: Class::Forbidden,
    },
    LitmusTest {
        name: "no forwarding from an AMO",
        harts: [
            "0,0,AMO,0,0,1,,\n0,1,L,0,1,,,\n0,2,L,1,0,,,a1\n",
            "1,0,S,1,,1,,\n1,1,F,,,,rw-rw,\n1,2,L,0,0,,,\n",
        ],
        class: Class::Forbidden,
    },
    LitmusTest {
        name: "a load of what depends on a load",
        harts: [
            "0,0,L,0,1,,,\n0,1,S,1,,1,,d0\n0,2,L,1,1,,,\n0,3,S,2,,1,,d2\n",
            "1,0,L,2,1,,,\n1,1,S,0,,1,,d0\n",
        ],
        class: Class::Forbidden,
    },
    LitmusTest {
        name: "a store after a dependent address",
        harts: [
            "0,0,L,0,1,,,\n0,1,L,2,0,,,a0\n0,2,S,1,,1,,\n",
            "1,0,L,1,1,,,\n1,1,S,0,,1,,d0\n",
        ],
        class: Class::Forbidden,
    },
    LitmusTest {
        name: "a store after a branch",
        harts: [
            "0,0,L,0,1,,,\n0,1,BR,,,,,c0\n0,2,S,1,,1,,\n",
            "1,0,L,1,1,,,\n1,1,S,0,,1,,d0\n",
        ],
        class: Class::Forbidden,
    },
    LitmusTest {
        name: "release and acquire",
        harts: [
            "0,0,S,0,,1,,\n0,1,AMO,1,0,1,R,\n",
            "1,0,LR,1,1,,A,\n1,1,L,0,0,,,\n",
        ],
        class: Class::Forbidden,
    },
    LitmusTest {
        name: "an SC without reservation",
        harts: [
            "0,0,LR,0,0,,,\n0,1,SF,0,,,,\n0,2,SC,0,,1,,\n",
            "1,0,S,1,,1,,\n",
        ],
        class: Class::Malformed,
    },
    LitmusTest {
        name: "a version that is taken",
        harts: ["0,0,S,0,,3,,\n", "1,0,S,0,,3,,\n"],
        class: Class::Malformed,
    },
];

/// The litmus tests. What they are is told to no proof, as a table of this size is dear in each
/// function that names it.
pub(super) fn litmus_tests() -> &'static [LitmusTest] {
    TESTS
}

/// The class of the outcome.
pub(super) fn class_of(outcome: &Outcome) -> Class {
    match outcome {
        Outcome::Allowed { .. } => Class::Allowed,
        Outcome::Forbidden(_) => Class::Forbidden,
        Outcome::Malformed(_) => Class::Malformed,
    }
}

/// A source of these rows.
pub(super) fn source_of(rt: &impl Abort, alloc: Global, rows: &str) -> Cursor<Vec<u8>> {
    let mut bytes = Vec::from_slice(alloc, HEADER.as_bytes()).expect(rt, "memory");
    bytes
        .extend_from_slice(rows.as_bytes())
        .expect(rt, "memory");
    Cursor::new(bytes)
}

/// Adds the entries of a source's rows.
pub(super) fn read_rows(
    rt: &impl Abort,
    alloc: Global,
    rows: &str,
    source: u8,
    entries: &mut Vec<Entry>,
) {
    assert!(rt; source < 8);
    let mut trace = Trace::new(alloc, source_of(rt, alloc, rows), source);
    for _ in 0..1000u32 {
        match trace.next_event().expect(rt, "a trace") {
            Some(event) => entries.push(Entry { source, event }).expect(rt, "memory"),
            None => return,
        }
    }
    panic!(rt; "no end");
}

/// A reader for each source of these rows.
fn readers_of(rt: &impl Abort, alloc: Global, sources: &[&str]) -> Vec<Cursor<Vec<u8>>> {
    let mut readers = Vec::new(alloc);
    for rows in sources {
        readers
            .push(source_of(rt, alloc, rows))
            .expect(rt, "memory");
    }
    readers
}

/// What sources of these rows come to, with these settings.
pub(super) fn run_rows_with<RT: Threads + Wait + Sync + Abort>(
    rt: &RT,
    alloc: Global,
    sources: &[&str],
    settings: Settings,
) -> Result<Outcome, RunFault> {
    run(rt, alloc, readers_of(rt, alloc, sources), settings)
}

/// What sources of these rows come to under RVWMO, with so many workers and slots.
pub(super) fn run_rows<RT: Threads + Wait + Sync + Abort>(
    rt: &RT,
    alloc: Global,
    sources: &[&str],
    workers: u8,
    slots: u8,
) -> Result<Outcome, RunFault> {
    let settings = Settings {
        workers,
        slots,
        model: MemoryModel::Rvwmo,
    };
    run_rows_with(rt, alloc, sources, settings)
}

/// The same, over slots under one lock.
pub(super) fn run_rows_locked<RT: Threads + Wait + Sync + Abort>(
    rt: &RT,
    alloc: Global,
    sources: &[&str],
    workers: u8,
    slots: u8,
) -> Result<Outcome, RunFault> {
    let settings = Settings {
        workers,
        slots,
        model: MemoryModel::Rvwmo,
    };
    let readers = readers_of(rt, alloc, sources);
    assert!(rt; 1 <= readers.len() && readers.len() <= 8);
    assert!(rt; 1 <= workers && workers <= 24);
    let (slots, seats) = LockedSlots::new(alloc, slots).expect(rt, "slots");
    run_over(rt, alloc, readers, settings, slots, seats)
}
