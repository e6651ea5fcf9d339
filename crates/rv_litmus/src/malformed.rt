//! Logs whose next entry has a fault.
use crate::rows::{
    ADDRESS_0, Bits, Row, X, Y, event_of, id, load, log_of, lr, other, row, sc, store,
};
use rv_event::{Dep, DepKind, Deps, Entry, Event, Fault, Id, NoMemory, Op, find_fault};
use std::alloc::Global;
use std::process::Abort;

/// A log of one source, the next row, and what is wrong with it.
struct Malformed {
    rows: &'static [Row],
    next: Row,
    source: u8,
    fault: Fault,
    text: &'static str,
}

const MALFORMED: &[Malformed] = &[
    Malformed {
        rows: &[],
        next: store!(16: 0, X = 1),
        source: 0,
        fault: Fault::Hart,
        text: "hart",
    },
    Malformed {
        rows: &[],
        next: store!(0: 1, X = 1),
        source: 0,
        fault: Fault::Sequence(0),
        text: "sequence, expected 0",
    },
    Malformed {
        rows: &[store!(0: 0, X = 1)],
        next: store!(0: 0, X = 2),
        source: 0,
        fault: Fault::Sequence(1),
        text: "sequence, expected 1",
    },
    Malformed {
        rows: &[store!(0: 0, X = 1)],
        next: load!(0: 1, Y = 0, ADDRESS_0),
        source: 0,
        fault: Fault::Dependency,
        text: "dependency",
    },
    Malformed {
        rows: &[],
        next: store!(0: 0, X = 0),
        source: 0,
        fault: Fault::VersionZero,
        text: "version zero",
    },
    Malformed {
        rows: &[store!(0: 0, X = 3)],
        next: store!(1: 0, X = 3),
        source: 0,
        fault: Fault::VersionTaken(id!(0: 0)),
        text: "version taken by h0:0",
    },
    Malformed {
        rows: &[lr!(0: 0, X = 0), other!(0: 1, Op::ScFailed)],
        next: sc!(0: 2, X = 1),
        source: 0,
        fault: Fault::NoReservation,
        text: "no reservation",
    },
    Malformed {
        rows: &[lr!(0: 0, X = 0), sc!(0: 1, X = 1)],
        next: sc!(0: 2, X = 2),
        source: 0,
        fault: Fault::NoReservation,
        text: "no reservation",
    },
    Malformed {
        rows: &[store!(0: 0, X = 1)],
        next: store!(0: 1, X = 2),
        source: 1,
        fault: Fault::OtherSource,
        text: "other source",
    },
];

/// The fault of the entry over the log, which is short.
fn fault_over(rt: &impl Abort, log: &[Entry], next: &Entry) -> Option<Fault> {
    assert!(rt; log.len() <= 65_536);
    find_fault(log, next)
}

#[test]
fn faults_have_their_data_and_texts(rt: HostRuntime) {
    for case in MALFORMED {
        let log = log_of(rt.alloc(), case.rows).expect(&rt, "memory");
        let event = event_of(rt.alloc(), &case.next).expect(&rt, "memory");
        let next = Entry {
            source: case.source,
            event,
        };
        let found = fault_over(&rt, log.as_slice(), &next).expect(&rt, case.text);
        assert_eq!(rt; found, case.fault);
        let text = format!(in rt.alloc(); "{found}").expect(&rt, "memory");
        assert_eq!(rt; text.as_str(), case.text);
    }
}

/// A store of hart 0, its version one above its number.
fn next_store(alloc: Global, seq: u32) -> Result<Entry, NoMemory> {
    let event = event_of(
        alloc,
        &Row {
            seq,
            wrote: seq.saturating_add(1),
            ..store!(0: 0, X = 1)
        },
    )?;
    Ok(Entry { source: 0, event })
}

#[test]
fn a_hart_is_full_at_4096_events(rt: HostRuntime) {
    let mut log = Vec::new(rt.alloc());
    for seq in 0..4096 {
        let next = next_store(rt.alloc(), seq).expect(&rt, "memory");
        log.push(next).expect(&rt, "memory");
    }
    let last = log.pop().expect(&rt, "a store");
    assert_eq!(rt; fault_over(&rt, log.as_slice(), &last), None);
    log.push(last).expect(&rt, "memory");
    let more = next_store(rt.alloc(), 4096).expect(&rt, "memory");
    assert_eq!(rt; fault_over(&rt, log.as_slice(), &more), Some(Fault::Full));
}

/// Loads of hart 0, the last of which depends on each of the others.
fn loads(alloc: Global, count: u32) -> Result<Vec<Entry>, NoMemory> {
    let mut log = Vec::new(alloc);
    let mut deps = Vec::new(alloc);
    for seq in 0..count {
        let event = event_of(
            alloc,
            &Row {
                seq,
                ..load!(0: 0, X = 0)
            },
        )?;
        log.push(Entry { source: 0, event })?;
        deps.push(Dep {
            kind: DepKind::Addr,
            seq,
        })?;
    }
    let last = Event {
        deps: Deps::from_vec(deps),
        ..event_of(
            alloc,
            &Row {
                seq: count,
                ..load!(0: 0, X = 0)
            },
        )?
    };
    log.push(Entry {
        source: 0,
        event: last,
    })?;
    Ok(log)
}

#[test]
fn nine_dependencies_are_too_many(rt: HostRuntime) {
    let mut log = loads(rt.alloc(), 9).expect(&rt, "memory");
    let last = log.pop().expect(&rt, "a load");
    assert_eq!(rt;
        fault_over(&rt, log.as_slice(), &last),
        Some(Fault::TooManyDeps)
    );
    let mut log = loads(rt.alloc(), 8).expect(&rt, "memory");
    let last = log.pop().expect(&rt, "a load");
    assert_eq!(rt; fault_over(&rt, log.as_slice(), &last), None);
}
