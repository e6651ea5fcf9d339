//! Whole runs in threads.
use super::rows::{
    Class, FENCED_STORE_BUFFERING, HEADER, LitmusTest, STORE_BUFFERING, class_of, litmus_tests,
    read_rows, run_rows, run_rows_locked, run_rows_with,
};
use rv_cert::check;
use rv_event::{Fault, Id, MemoryModel};
use rv_run::{Outcome, RunFault, Settings, replay, run};
use rv_trace::{FaultKind, TraceFault};
use std::alloc::Global;
use std::io;
use std::io::Read;
use std::process::Abort;
use std::sync::Wait;
use std::thread::Threads;

/// What a pass over the entries of both harts comes to.
fn replayed(rt: &impl Abort, alloc: Global, model: MemoryModel, harts: &[&str]) -> Outcome {
    let mut entries = Vec::new(alloc);
    let mut source = 0u8;
    for rows in harts {
        read_rows(rt, alloc, rows, source, &mut entries);
        source = source.wrapping_add(1);
    }
    replay(alloc, model, entries.as_slice()).expect(rt, "memory")
}

/// The counts of an outcome that is allowed.
fn counts_of(outcome: &Outcome) -> Option<[usize; 3]> {
    match outcome {
        Outcome::Allowed {
            events,
            operations,
            waiting,
        } => Some([*events, *operations, *waiting]),
        Outcome::Forbidden(_) | Outcome::Malformed(_) => None,
    }
}

/// Wants an outcome of the class that the test says.
fn assert_class(rt: &impl Abort, test: &LitmusTest, ran: &Result<Outcome, RunFault>) {
    match ran {
        Ok(outcome) => assert!(rt; class_of(outcome) == test.class, "{}", test.name),
        Err(fault) => panic!(rt; "{}: {fault}", test.name),
    }
}

#[test]
fn same_class(rt: HostRuntime) {
    for test in litmus_tests() {
        let pass = replayed(&rt, rt.alloc(), MemoryModel::Rvwmo, &test.harts);
        assert!(rt; class_of(&pass) == test.class, "{}", test.name);
        drop(pass);
        for (workers, slots) in [(1, 2), (8, 16), (24, 16)] {
            let table = run_rows(&rt, rt.alloc(), &test.harts, workers, slots);
            assert_class(&rt, test, &table);
            drop(table);
            let locked = run_rows_locked(&rt, rt.alloc(), &test.harts, workers, slots);
            assert_class(&rt, test, &locked);
            drop(locked);
        }
    }
}

/// With ample memory each run of the rows has an outcome, and the counts of a pass.
fn assert_counted(
    rt: &(impl Threads + Wait + Sync + Abort),
    alloc: Global,
    model: MemoryModel,
    test: &LitmusTest,
) {
    let pass = replayed(rt, alloc, model, &test.harts);
    let counts = counts_of(&pass);
    drop(pass);
    for (workers, slots) in [(1, 2), (4, 8), (24, 16)] {
        let settings = Settings {
            workers,
            slots,
            model,
        };
        let ran = run_rows_with(rt, alloc, &test.harts, settings);
        match &ran {
            Ok(outcome) => assert_eq!(rt; counts_of(outcome), counts, "{}", test.name),
            Err(fault) => panic!(rt; "{}: {fault}", test.name),
        }
        drop(ran);
    }
}

#[test]
fn ample_memory(rt: HostRuntime) {
    for test in litmus_tests() {
        assert_counted(&rt, rt.alloc(), MemoryModel::Rvwmo, test);
        assert_counted(&rt, rt.alloc(), MemoryModel::Ztso, test);
    }
}

#[test]
fn counts_are_those_of_all_sources(rt: HostRuntime) {
    let ran = run_rows(&rt, rt.alloc(), &STORE_BUFFERING, 4, 8);
    assert!(rt;
        matches!(
            ran,
            Ok(Outcome::Allowed {
                events: 4,
                operations: 4,
                waiting: 0
            })
        )
    );
    let ran = run_rows(
        &rt,
        rt.alloc(),
        &["", "", "2,0,L,0,1,,,\n2,1,FT,,,,,\n"],
        4,
        8,
    );
    assert!(rt;
        matches!(
            ran,
            Ok(Outcome::Allowed {
                events: 2,
                operations: 1,
                waiting: 1
            })
        )
    );
}

/// Wants one of the two loads to be refused, with a certificate that the checker takes.
fn assert_certificate(rt: &impl Abort, ran: &Result<Outcome, RunFault>) {
    let Ok(Outcome::Forbidden(forbidden)) = ran else {
        panic!(rt; "not forbidden");
    };
    let id = forbidden.refused();
    assert!(rt; id == Id { hart: 0, seq: 2 } || id == Id { hart: 1, seq: 2 });
    assert_eq!(rt; forbidden.evidence().len(), 6);
    assert!(rt;
        check(
            MemoryModel::Rvwmo,
            forbidden.evidence(),
            forbidden.certificate()
        )
    );
}

#[test]
fn a_refused_load_has_a_certificate(rt: HostRuntime) {
    for (workers, slots) in [(1, 2), (8, 16), (24, 16)] {
        let table = run_rows(&rt, rt.alloc(), &FENCED_STORE_BUFFERING, workers, slots);
        assert_certificate(&rt, &table);
        drop(table);
        let locked = run_rows_locked(&rt, rt.alloc(), &FENCED_STORE_BUFFERING, workers, slots);
        assert_certificate(&rt, &locked);
        drop(locked);
    }
}

#[test]
fn one_hart_in_two_sources_is_malformed(rt: HostRuntime) {
    let sources = ["0,0,S,0,,1,,\n", "0,0,S,0,,2,,\n"];
    for _ in 0..5 {
        let ran = run_rows(&rt, rt.alloc(), &sources, 4, 8);
        let Ok(Outcome::Malformed(malformed)) = ran else {
            panic!(rt; "not malformed");
        };
        assert_eq!(rt; malformed.fault(), Fault::Sequence(1));
        assert_eq!(rt; malformed.evidence().len(), 2);
    }
}

#[test]
fn the_fault_of_a_source_is_answered_where_there_is_no_verdict(rt: HostRuntime) {
    let sources = ["0,0,S,0,,1,,\n", "1,0,S,1,,1,,\n1,1,S\n"];
    let fault = TraceFault {
        kind: FaultKind::Fields,
        row: 2,
    };
    let ran = run_rows(&rt, rt.alloc(), &sources, 2, 2);
    assert!(rt; matches!(ran, Err(RunFault::Trace { source: 1, fault: found }) if found == fault));
}

#[test]
fn numbers_out_of_range_are_refused(rt: HostRuntime) {
    let sources = ["", "", "", "", "", "", "", "", ""];
    let cases = [
        (0, 4, 8),
        (9, 4, 8),
        (1, 0, 8),
        (1, 25, 8),
        (1, 4, 1),
        (1, 4, 17),
    ];
    for (count, workers, slots) in cases {
        let ran = run_rows(&rt, rt.alloc(), &sources[..count], workers, slots);
        assert!(rt;
            matches!(ran, Err(RunFault::Settings)),
            "{count} {workers} {slots}"
        );
    }
    let ran = run_rows(&rt, rt.alloc(), &sources[..8], 24, 16);
    assert!(rt; matches!(ran, Ok(Outcome::Allowed { events: 0, .. })));
}

/// A source that gives its header and then one row for ever.
#[derive(Drop)]
struct Endless {
    rest: &'static [u8],
}

impl Read for Endless {
    fn read(&mut self, buf: &mut [u8]) -> io::Result<usize> {
        let count = self.rest.len().min(buf.len());
        buf[..count].copy_from_slice(&self.rest[..count]);
        self.rest = &self.rest[count..];
        if self.rest.is_empty() {
            self.rest = "0,0,S,0,,1,,\n".as_bytes();
        }
        Ok(count)
    }
}

#[test]
fn an_endless_source_ends_at_its_first_refused_event(rt: HostRuntime) {
    let mut readers = Vec::new(rt.alloc());
    let rest = HEADER.as_bytes();
    readers.push(Endless { rest }).expect(&rt, "memory");
    let settings = Settings {
        workers: 4,
        slots: 8,
        model: MemoryModel::Rvwmo,
    };
    let Ok(Outcome::Malformed(malformed)) = run(&rt, rt.alloc(), readers, settings) else {
        panic!(rt; "not malformed");
    };
    assert_eq!(rt; malformed.fault(), Fault::Sequence(1));
    assert_eq!(rt; malformed.refused(), Id { hart: 0, seq: 0 });
    assert_eq!(rt; malformed.evidence().len(), 2);
}
