//! Sources that are cut after any byte, that never end, and that have the same events.
use crate::readers::Endless;
use crate::traces::HEADER;
use rv_event::{Fault, Id, MemoryModel};
use rv_run::{Outcome, RunFault, Settings, run};
use rv_trace::{FaultKind, TraceFault};
use std::alloc::Global;
use std::io::Read;
use std::process::Abort;
use std::sync::Wait;
use std::thread::Threads;

/// Store buffering: 37 bytes of header and four lines of 13.
const STORE_BUFFERING: &str =
    "hart,seq,op,word,read,wrote,ann,deps\n0,0,S,0,,1,,\n0,1,L,1,0,,,\n1,0,S,1,,1,,\n1,1,L,0,0,,,\n";

/// What one source or two come to under RVWMO.
fn run_all<RT: Threads + Wait + Sync + Abort, R: Read + Send + Drop>(
    rt: &RT,
    alloc: Global,
    readers: Vec<R>,
) -> Result<Outcome, RunFault> {
    let settings = Settings {
        workers: 2,
        slots: 2,
        model: MemoryModel::Rvwmo,
    };
    run(rt, alloc, readers, settings)
}

/// What texts come to.
fn run_texts<RT: Threads + Wait + Sync + Abort>(
    rt: &RT,
    alloc: Global,
    texts: &[&[u8]],
) -> Result<Outcome, RunFault> {
    let readers = Vec::from_slice(alloc, texts).expect(rt, "memory");
    run_all(rt, alloc, readers)
}

/// The end of a front of so many bytes: how many events are allowed, or the fault.
fn end_of_front(length: u8) -> Result<u8, TraceFault> {
    // The header needs no line feed.
    if length < 36 {
        return Err(TraceFault {
            kind: FaultKind::Header,
            row: 0,
        });
    }
    let bytes = length.saturating_sub(37);
    let lines = bytes / 13;
    // The last of a row's seven commas is its last byte.
    match bytes % 13 {
        0 => Ok(lines),
        12 => Ok(lines + 1),
        _ => Err(TraceFault {
            kind: FaultKind::Fields,
            row: lines as u32 + 1,
        }),
    }
}

/// Wants this end.
fn assert_end(rt: &impl Abort, ran: Result<Outcome, RunFault>, wanted: Result<u8, TraceFault>) {
    match (ran, wanted) {
        (Ok(Outcome::Allowed { events, .. }), Ok(count)) => {
            assert_eq!(rt; events, count as usize);
        }
        (Err(RunFault::Trace { source, fault }), Err(wanted)) => {
            assert_eq!(rt; (source, fault), (0, wanted));
        }
        (_, wanted) => panic!(rt; "not {wanted:?}"),
    }
}

#[test]
fn every_front(rt: HostRuntime) {
    let text = STORE_BUFFERING.as_bytes();
    assert_eq!(rt; text.len(), 89);
    for length in 0..90u8 {
        let ran = run_texts(&rt, rt.alloc(), &[&text[..length as usize]]);
        assert_end(&rt, ran, end_of_front(length));
    }
}

#[test]
fn a_cut_source_is_answered_whichever_it_is(rt: HostRuntime) {
    let whole = "hart,seq,op,word,read,wrote,ann,deps\n0,0,S,0,,1,,\n".as_bytes();
    let cut = "hart,seq,op,word,read,wrote,ann,deps\n1,0,S,1,,1,,\n1,1,L,0,0,,".as_bytes();
    let wanted = TraceFault {
        kind: FaultKind::Fields,
        row: 2,
    };
    assert_fault(&rt, run_texts(&rt, rt.alloc(), &[whole, cut]), 1, wanted);
    assert_fault(&rt, run_texts(&rt, rt.alloc(), &[cut, whole]), 0, wanted);
}

/// Wants the fault of this source.
fn assert_fault(rt: &impl Abort, ran: Result<Outcome, RunFault>, number: u8, wanted: TraceFault) {
    match ran {
        Err(RunFault::Trace { source, fault }) => {
            assert_eq!(rt; (source, fault), (number, wanted));
        }
        _ => panic!(rt; "no fault"),
    }
}

#[test]
fn the_same_event_from_two_sources_is_malformed_whichever_comes_first(rt: HostRuntime) {
    let one = "hart,seq,op,word,read,wrote,ann,deps\n0,0,S,0,,1,,\n".as_bytes();
    let other = "hart,seq,op,word,read,wrote,ann,deps\n0,0,S,0,,2,,\n".as_bytes();
    assert_twice(&rt, run_texts(&rt, rt.alloc(), &[one, other]));
    assert_twice(&rt, run_texts(&rt, rt.alloc(), &[other, one]));
    assert_twice(&rt, run_texts(&rt, rt.alloc(), &[one, one]));
}

/// The first event of hart 0 came from both sources.
fn assert_twice(rt: &impl Abort, ran: Result<Outcome, RunFault>) {
    let Ok(Outcome::Malformed(malformed)) = ran else {
        panic!(rt; "not malformed");
    };
    assert_eq!(rt; malformed.fault(), Fault::Sequence(1));
    assert_eq!(rt; malformed.refused(), Id { hart: 0, seq: 0 });
    match malformed.evidence() {
        [first, second] => assert!(rt; first.source != second.source),
        _ => panic!(rt; "not two entries"),
    }
}

/// A part of a record that never ends.
const ZEROS: [u8; 4096] = [b'0'; 4096];

#[test]
fn a_record_that_never_ends_is_a_fault_of_the_run(rt: HostRuntime) {
    let mut readers = Vec::new(rt.alloc());
    let left = HEADER.as_bytes();
    let again = &ZEROS;
    readers.push(Endless { left, again }).expect(&rt, "memory");
    let wanted = TraceFault {
        kind: FaultKind::Read,
        row: 1,
    };
    assert_fault(&rt, run_all(&rt, rt.alloc(), readers), 0, wanted);
}
