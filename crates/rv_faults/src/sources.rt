//! Out of memory while a source is read: the events before it are given, then the fault with the
//! row that was being read, for ever.
use crate::traces::{entries_of, is_next, litmus_tests, text_of};
use rv_chunk::{Chunk, unpack};
use rv_event::Entry;
use rv_trace::{Chunks, FaultKind, Trace};
use std::alloc::Global;
use std::process::Abort;

/// Reads on in this row: the event that comes next, the end where none does, or the fault of
/// memory, for ever. `None` for an event, else whether it was the end.
fn ended(
    rt: &impl Abort,
    trace: &mut Trace<&[u8]>,
    next: Option<&Entry>,
    row: u32,
) -> Option<bool> {
    match trace.next_event() {
        Ok(Some(event)) => {
            assert!(rt; is_next(next, &event));
            None
        }
        Ok(None) => {
            assert!(rt; next.is_none());
            Some(true)
        }
        Err(fault) => {
            assert_eq!(rt; fault.kind, FaultKind::NoMemory);
            assert!(rt; fault.row == row || (fault.row, row) == (0, 1), "row {row}");
            assert_eq!(rt; trace.next_event().err(), Some(fault));
            assert_eq!(rt; trace.next_event().err(), Some(fault));
            Some(false)
        }
    }
}

/// Reads the text event by event, to its end or until memory is refused. Whether it was read to its
/// end.
fn read_events(rt: &impl Abort, alloc: Global, text: &str, entries: &[Entry]) -> bool {
    let mut trace = Trace::new(alloc, text.as_bytes(), 0);
    let mut given = entries.iter();
    for row in 1..1000u32 {
        if let Some(whole) = ended(rt, &mut trace, given.next(), row) {
            return whole;
        }
    }
    panic!(rt; "no end")
}

/// Whether the chunk is the first of a source and has just these events.
fn holds(rt: &impl Abort, alloc: Global, chunk: &Chunk, entries: &[Entry]) -> bool {
    let events = match unpack(alloc, chunk) {
        Ok(events) => events,
        Err(_) => unpack(alloc, chunk).expect(rt, "memory"),
    };
    let mut given = entries.iter();
    for event in events.iter() {
        if !is_next(given.next(), event) {
            return false;
        }
    }
    chunk.number() == 0 && given.next().is_none()
}

/// Reads chunks to their end or until memory is refused. Whether they were read to their end.
fn read_on(rt: &impl Abort, alloc: Global, chunks: &mut Chunks<&[u8]>, entries: &[Entry]) -> bool {
    let mut given = 0;
    for _ in 0..1000u32 {
        match chunks.next_chunk() {
            Ok(Some(chunk)) => {
                assert!(rt; given == 0 && holds(rt, alloc, &chunk, entries));
                given = entries.len();
            }
            Ok(None) => {
                assert_eq!(rt; given, entries.len());
                return true;
            }
            Err(fault) => {
                assert_eq!(rt; fault.kind, FaultKind::NoMemory);
                assert!(rt; given == 0 && fault.row as usize <= entries.len() + 1);
                assert_eq!(rt; chunks.next_chunk().err(), Some(fault));
                assert_eq!(rt; chunks.next_chunk().err(), Some(fault));
                return false;
            }
        }
    }
    panic!(rt; "no end")
}

/// Reads the text as chunks, to its end or until memory is refused. Whether it was read to its end.
fn read_chunks(rt: &impl Abort, alloc: Global, text: &str, entries: &[Entry]) -> bool {
    let mut chunks = Chunks::new(alloc, text.as_bytes(), 0);
    let is_whole = read_on(rt, alloc, &mut chunks, entries);
    drop(chunks);
    is_whole
}

#[test]
fn a_source_has_its_fault_for_ever_if_memory_ran_out(rt: HostRuntime) {
    for one in &litmus_tests(&rt, rt.alloc()) {
        let text = text_of(&rt, rt.alloc(), one.rows, None);
        let list = entries_of(&rt, rt.alloc(), one.rows);
        let (text, entries) = (text.as_str(), list.as_slice());
        let whole = read_events(&rt, rt.alloc(), text, entries)
            || read_events(&rt, rt.alloc(), text, entries);
        assert!(rt; whole, "{}", one.name);
        let whole = read_chunks(&rt, rt.alloc(), text, entries)
            || read_chunks(&rt, rt.alloc(), text, entries);
        assert!(rt; whole, "{}", one.name);
    }
}
