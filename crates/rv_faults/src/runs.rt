//! Out of memory in whole passes and runs: it is answered as such, or the outcome is that of the
//! execution.
use crate::traces::{Class, LitmusTest, class_of, entries_of, litmus_tests, text_of};
use rv_event::NoMemory;
use rv_run::{RunFault, Settings, replay, run};
use rv_trace::FaultKind;
use std::alloc::Global;
use std::process::Abort;
use std::sync::Wait;
use std::thread::Threads;

#[test]
fn a_pass_says_so_if_memory_ran_out(rt: HostRuntime) {
    for one in &litmus_tests(&rt, rt.alloc()) {
        let entries = entries_of(&rt, rt.alloc(), one.rows);
        let answer = match replay(rt.alloc(), one.model, entries.as_slice()) {
            Ok(outcome) => Ok(outcome),
            Err(NoMemory) => replay(rt.alloc(), one.model, entries.as_slice()),
        };
        assert!(rt;
            answer.is_ok_and(|x| class_of(&x) == one.class),
            "{}",
            one.name
        );
    }
}

/// Readers of the texts.
fn list_readers<'a>(alloc: Global, texts: &[&'a [u8]]) -> Result<Vec<&'a [u8]>, NoMemory> {
    Ok(Vec::from_slice(alloc, texts)?)
}

/// Readers of the texts, also where one allocation is refused.
fn readers_of<'a>(rt: &impl Abort, alloc: Global, texts: &[&'a [u8]]) -> Vec<&'a [u8]> {
    match list_readers(alloc, texts) {
        Ok(readers) => readers,
        Err(NoMemory) => list_readers(alloc, texts).expect(rt, "memory"),
    }
}

/// The class of what the sources come to, if memory is not refused.
fn class_of_run<RT: Threads + Wait + Sync + Abort>(
    rt: &RT,
    alloc: Global,
    texts: &[&[u8]],
    settings: Settings,
) -> Option<Class> {
    let readers = readers_of(rt, alloc, texts);
    match run(rt, alloc, readers, settings) {
        Ok(outcome) => Some(class_of(&outcome)),
        Err(RunFault::NoMemory) => None,
        Err(RunFault::Trace { fault, .. }) => {
            assert_eq!(rt; fault.kind, FaultKind::NoMemory);
            None
        }
        Err(fault) => panic!(rt; "{fault}"),
    }
}

/// Runs the execution as a source for each hart, and runs it again where memory is refused. Whether
/// it was refused.
fn assert_run<RT: Threads + Wait + Sync + Abort>(
    rt: &RT,
    alloc: Global,
    one: &LitmusTest,
    workers: u8,
    slots: u8,
) -> bool {
    let settings = Settings {
        workers,
        slots,
        model: one.model,
    };
    let first = text_of(rt, alloc, one.rows, Some(0));
    let second = text_of(rt, alloc, one.rows, Some(1));
    let texts = [first.as_str().as_bytes(), second.as_str().as_bytes()];
    let first = class_of_run(rt, alloc, &texts, settings);
    let class = match first {
        Some(class) => Some(class),
        None => class_of_run(rt, alloc, &texts, settings),
    };
    assert_eq!(rt; class, Some(one.class), "{}", one.name);
    first.is_none()
}

/// Runs the executions, up to the one at which memory is refused: it is refused once, so the others
/// run as ever.
fn assert_runs<RT: Threads + Wait + Sync + Abort>(rt: &RT, alloc: Global, workers: u8, slots: u8) {
    for one in &litmus_tests(rt, alloc) {
        if assert_run(rt, alloc, one, workers, slots) {
            return;
        }
    }
}

#[test]
fn a_run_by_one_worker_says_so_if_memory_ran_out(rt: HostRuntime) {
    assert_runs(&rt, rt.alloc(), 1, 2);
}

#[test]
fn a_run_by_eight_workers_says_so_if_memory_ran_out(rt: HostRuntime) {
    assert_runs(&rt, rt.alloc(), 8, 16);
}
