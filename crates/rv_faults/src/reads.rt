//! Each read of a source fails once: what was read before it is given, then the fault with its row,
//! for ever.
use crate::readers::Failing;
use crate::traces::{HEADER, LitmusTest, class_of, entries_of, is_next, litmus_tests, text_of};
use rv_chunk::unpack;
use rv_event::{Entry, NoMemory};
use rv_run::{Outcome, RunFault, Settings, run};
use rv_trace::{Chunks, FaultKind, Trace, TraceFault};
use std::alloc::Global;
use std::fmt::Write;
use std::process::Abort;
use std::sync::Wait;
use std::thread::Threads;

/// The fault of a read that fails in this row.
fn read_fault(row: u32) -> TraceFault {
    let kind = FaultKind::Read;
    TraceFault { kind, row }
}

/// How many lines end in these bytes. The next row has this number, as the header's is 0.
fn count_lines(bytes: &[u8]) -> u32 {
    let lines = bytes.iter().filter(|byte| **byte == b'\n').count();
    u32::try_from(lines).unwrap_or(u32::MAX)
}

/// Reads the trace of the text until a call fails, and wants the rows whose lines were read whole,
/// and then the fault for ever. Whether the text was read to its end.
fn assert_rows(
    rt: &impl Abort,
    trace: &mut Trace<Failing<'_>>,
    text: &[u8],
    calls: usize,
    entries: &[Entry],
) -> bool {
    let mut given = entries.iter();
    for row in 1..1000u32 {
        match trace.next_event() {
            Ok(Some(event)) => assert!(rt; is_next(given.next(), &event), "row {row}"),
            Ok(None) => {
                assert!(rt; given.next().is_none());
                return true;
            }
            Err(fault) => {
                let lines = count_lines(&text[..calls.min(text.len())]);
                assert_eq!(rt; fault, read_fault(lines), "at {calls}");
                assert_eq!(rt; row, lines.max(1), "at {calls}");
                assert_eq!(rt; trace.next_event().err(), Some(fault));
                assert_eq!(rt; trace.next_event().err(), Some(fault));
                return false;
            }
        }
    }
    panic!(rt; "no end")
}

/// The same, of a new trace.
fn assert_trace(
    rt: &impl Abort,
    alloc: Global,
    text: &[u8],
    calls: usize,
    entries: &[Entry],
) -> bool {
    let mut trace = Trace::new(alloc, Failing { text, calls }, 0);
    let is_whole = assert_rows(rt, &mut trace, text, calls, entries);
    drop(trace);
    is_whole
}

/// Reads the text with each call failing in turn, until none fails.
fn assert_traces(rt: &impl Abort, alloc: Global, text: &str, entries: &[Entry]) {
    for calls in 0..10_000 {
        if assert_trace(rt, alloc, text.as_bytes(), calls, entries) {
            assert!(rt; calls > text.len());
            return;
        }
    }
    panic!(rt; "no end")
}

#[test]
fn each_read_of_a_trace_fails(rt: HostRuntime) {
    for one in &litmus_tests(&rt, rt.alloc()) {
        let text = text_of(&rt, rt.alloc(), one.rows, None);
        let entries = entries_of(&rt, rt.alloc(), one.rows);
        assert_traces(&rt, rt.alloc(), text.as_str(), entries.as_slice());
    }
}

/// A source of one hart with so many stores.
fn stores(alloc: Global, count: u32) -> Result<String, NoMemory> {
    let mut text = String::new(alloc);
    text.push_str(HEADER)?;
    for seq in 0..count {
        writeln!(text, "0,{seq},S,{seq},,1,,")?;
    }
    Ok(text)
}

/// Reads the stores in chunks until a call fails, and wants the chunks whose lines were read whole,
/// and then the fault for ever. Whether the text was read to its end.
fn assert_chunks(rt: &impl Abort, alloc: Global, text: &[u8], calls: usize) -> bool {
    let mut chunks = Chunks::new(alloc, Failing { text, calls }, 0);
    for number in 0..1000u32 {
        match chunks.next_chunk() {
            Ok(Some(chunk)) => {
                assert_eq!(rt; chunk.number(), number);
                let events = unpack(alloc, &chunk).expect(rt, "memory");
                assert!(rt;
                    events
                        .iter()
                        .all(|x| x.id.seq / 8 == number && x.id.seq == x.word)
                );
            }
            Ok(None) => return true,
            Err(fault) => {
                let lines = count_lines(&text[..calls.min(text.len())]);
                assert_eq!(rt; fault, read_fault(lines), "at {calls}");
                assert_eq!(rt; number, lines.saturating_sub(1) / 8, "at {calls}");
                assert_eq!(rt; chunks.next_chunk().err(), Some(fault));
                assert_eq!(rt; chunks.next_chunk().err(), Some(fault));
                return false;
            }
        }
    }
    panic!(rt; "no end")
}

#[test]
fn each_read_of_chunks_fails(rt: HostRuntime) {
    let text = stores(rt.alloc(), 20).expect(&rt, "memory");
    let bytes = text.as_str().as_bytes();
    for calls in 0..10_000 {
        if assert_chunks(&rt, rt.alloc(), bytes, calls) {
            assert!(rt; calls > bytes.len());
            return;
        }
    }
    panic!(rt; "no end")
}

/// Two readers, one of which fails after so many calls.
fn readers_of<'a>(
    alloc: Global,
    texts: [&'a str; 2],
    failing: u8,
    calls: usize,
) -> Result<Vec<Failing<'a>>, NoMemory> {
    let mut readers = Vec::new(alloc);
    let mut source = 0u8;
    for text in texts {
        readers.push(Failing {
            text: text.as_bytes(),
            calls: if source == failing { calls } else { usize::MAX },
        })?;
        source = 1;
    }
    Ok(readers)
}

/// Wants the fault of the read that fails, or the class of the execution where it is refused by the
/// other source alone.
fn assert_failed(
    rt: &impl Abort,
    ran: Result<Outcome, RunFault>,
    one: &LitmusTest,
    failing: u8,
    row: u32,
) {
    let outcome = match ran {
        Err(RunFault::Trace { source, fault }) => {
            assert_eq!(rt; (source, fault), (failing, read_fault(row)), "{}", one.name);
            return;
        }
        Err(fault) => panic!(rt; "{}: {fault}", one.name),
        Ok(outcome) => outcome,
    };
    let evidence = match &outcome {
        Outcome::Allowed { .. } => panic!(rt; "{}: allowed in part", one.name),
        Outcome::Forbidden(forbidden) => forbidden.evidence(),
        Outcome::Malformed(malformed) => malformed.evidence(),
    };
    assert_eq!(rt; class_of(&outcome), one.class);
    assert!(rt;
        evidence.iter().all(|x| x.source != failing),
        "{}",
        one.name
    );
}

/// Runs the two sources, one of which fails after so many calls. Whether it was read to its end.
fn assert_run<RT: Threads + Wait + Sync + Abort>(
    rt: &RT,
    alloc: Global,
    one: &LitmusTest,
    texts: [&str; 2],
    failing: u8,
    calls: usize,
) -> bool {
    let settings = Settings {
        workers: 1,
        slots: 2,
        model: one.model,
    };
    let readers = readers_of(alloc, texts, failing, calls).expect(rt, "memory");
    let ran = run(rt, alloc, readers, settings);
    let text = if failing == 0 { texts[0] } else { texts[1] };
    if calls > text.len() {
        assert!(rt;
            ran.is_ok_and(|outcome| class_of(&outcome) == one.class),
            "{}",
            one.name
        );
        return true;
    }
    let row = count_lines(&text.as_bytes()[..calls]);
    assert_failed(rt, ran, one, failing, row);
    false
}

/// The executions that are run with each read failing.
const RUN: [&str; 4] = [
    "a stale load",
    "a version that is taken",
    "store buffering",
    "store buffering with fences",
];

/// Runs the execution as two sources, with each read of one of them failing in turn.
fn assert_runs<RT: Threads + Wait + Sync + Abort>(
    rt: &RT,
    alloc: Global,
    one: &LitmusTest,
    failing: u8,
) {
    let first = text_of(rt, alloc, one.rows, Some(0));
    let second = text_of(rt, alloc, one.rows, Some(1));
    let texts = [first.as_str(), second.as_str()];
    for calls in 0..10_000 {
        if assert_run(rt, alloc, one, texts, failing, calls) {
            return;
        }
    }
    panic!(rt; "no end")
}

#[test]
fn each_read_of_a_run_fails(rt: HostRuntime) {
    for one in &litmus_tests(&rt, rt.alloc()) {
        if RUN.contains(&one.name) {
            assert_runs(&rt, rt.alloc(), one, 0);
            assert_runs(&rt, rt.alloc(), one, 1);
        }
    }
}
