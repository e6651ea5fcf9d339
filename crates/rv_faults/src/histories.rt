//! Out of memory in histories: an event that could not be kept leaves no trace.
use crate::traces::{Class, LitmusTest, entries_of, litmus_tests};
use rv_edges::{Around, History};
use rv_event::{Event, Fault, NoMemory};
use std::alloc::Global;
use std::process::Abort;

/// Whether both list the same edges.
fn is_same(one: &Around, other: &Around) -> bool {
    one.before.as_slice() == other.before.as_slice()
        && one.after.as_slice() == other.after.as_slice()
        && one.itself == other.itself
        && one.stale == other.stale
}

/// Adds the event, and adds it again where memory is refused: then it has the edges that it had, so
/// nothing was kept.
fn push_twice(rt: &impl Abort, history: &mut History, event: &Event) {
    assert!(rt; history.fault(event).is_none());
    let around = match history.around(event) {
        Ok(around) => around,
        Err(NoMemory) => history.around(event).expect(rt, "memory"),
    };
    if history.push(event, &around).is_err() {
        assert!(rt; history.fault(event).is_none());
        let again = history.around(event).expect(rt, "memory");
        assert!(rt; is_same(&around, &again));
        history.push(event, &again).expect(rt, "memory");
    }
    let next = event.id.seq.saturating_add(1);
    assert!(rt; history.fault(event) == Some(Fault::Sequence(next)));
}

/// Adds the events of the execution one by one.
fn assert_pushes(rt: &impl Abort, alloc: Global, one: &LitmusTest) {
    let mut history = History::new(alloc, one.model);
    for entry in entries_of(rt, alloc, one.rows).iter() {
        push_twice(rt, &mut history, &entry.event);
    }
    drop(history);
}

#[test]
fn a_history_is_as_it_was_if_memory_ran_out(rt: HostRuntime) {
    for one in &litmus_tests(&rt, rt.alloc()) {
        if one.class != Class::Malformed {
            assert_pushes(&rt, rt.alloc(), one);
        }
    }
}
