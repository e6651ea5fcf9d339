//! Histories of the litmus tests: preserved program order in them, and the links of each circle's
//! last event.
use crate::carriers::carrier_circles;
use crate::circles::{ForbiddenTest, circles, total_store_circles};
use crate::histories::histories;
use crate::rows::{Bits, Row, X, Y, event_of, id, load, row, store};
use rv_edges::{Around, History};
use rv_event::{Event, Id, Link, MemoryModel, Op, Reason};
use std::alloc::Global;
use std::process::Abort;

/// Adds the event with the links that are found.
fn add(rt: &impl Abort, history: &mut History, event: &Event) {
    assert!(rt; history.fault(event).is_none());
    let around = history.around(event).expect(rt, "memory");
    history.push(event, &around).expect(rt, "memory");
}

/// The history of rows.
pub fn history_of(rt: &impl Abort, alloc: Global, model: MemoryModel, rows: &[Row]) -> History {
    let mut history = History::new(alloc, model);
    for row in rows {
        let event = event_of(alloc, row).expect(rt, "memory");
        add(rt, &mut history, &event);
    }
    history
}

/// The edges that the next row would have.
pub fn around_of(rt: &impl Abort, alloc: Global, history: &History, row: &Row) -> Around {
    let event = event_of(alloc, row).expect(rt, "memory");
    assert!(rt; history.fault(&event).is_none());
    history.around(&event).expect(rt, "memory")
}

/// Whether the circle leaves its first event by a link that is listed, and comes back by one.
fn lists_ends(around: &Around, edges: &[(Id, Reason)]) -> bool {
    let ([first, second, ..], [.., last]) = (edges, edges) else {
        return false;
    };
    let out = Link {
        id: second.0,
        reason: first.1,
    };
    let back = Link {
        id: last.0,
        reason: last.1,
    };
    around.after.as_slice().contains(&out) && around.before.as_slice().contains(&back)
}

/// The circle's last event lists the circle's edges at it, or has an edge to itself.
fn assert_listed(rt: &impl Abort, alloc: Global, circle: &ForbiddenTest) {
    let [before @ .., last] = circle.rows else {
        return;
    };
    let history = history_of(rt, alloc, circle.model, before);
    let around = around_of(rt, alloc, &history, last);
    if circle.edges.len() == 1 {
        assert!(rt; around.itself, "{}", circle.name);
    } else {
        assert!(rt; !around.itself, "{}", circle.name);
        assert!(rt; lists_ends(&around, circle.edges), "{}", circle.name);
    }
    assert!(rt; around.stale.is_none(), "{}", circle.name);
}

#[test]
fn the_last_event_of_a_circle_lists_its_edges(rt: HostRuntime) {
    for circle in circles() {
        assert_listed(&rt, rt.alloc(), circle);
    }
    for circle in total_store_circles() {
        assert_listed(&rt, rt.alloc(), circle);
    }
    for circle in carrier_circles() {
        assert_listed(&rt, rt.alloc(), circle);
    }
}

#[test]
fn histories_preserve_program_order_by_the_lowest_rule(rt: HostRuntime) {
    for test in histories() {
        let history = history_of(&rt, rt.alloc(), test.model, test.rows);
        let from = Id {
            hart: 0,
            seq: test.from,
        };
        let to = Id {
            hart: 0,
            seq: test.to,
        };
        assert_eq!(rt; history.preserved(from, to), test.rule, "{}", test.name);
    }
}

#[test]
fn a_load_names_the_own_store_that_it_reads_below(rt: HostRuntime) {
    let history = history_of(&rt, rt.alloc(), MemoryModel::Rvwmo, &[store!(0: 0, X = 1)]);
    let around = around_of(&rt, rt.alloc(), &history, &load!(0: 1, X = 0));
    assert_eq!(rt; around.stale, Some(id!(0: 0)));
}

/// Adds the event, looks at the rule between the two, and takes the event off again.
fn rule_while_added(
    rt: &impl Abort,
    history: &mut History,
    event: &Event,
    from: Id,
    to: Id,
) -> Option<u8> {
    assert!(rt; history.fault(event).is_none());
    let around = history.around(event).expect(rt, "memory");
    history.push(event, &around).expect(rt, "memory");
    let rule = history.preserved(from, to);
    history.pop();
    rule
}

#[test]
fn an_event_that_is_taken_off_leaves_no_link(rt: HostRuntime) {
    let mut history = history_of(&rt, rt.alloc(), MemoryModel::Rvwmo, &[store!(0: 0, X = 1)]);
    let event = event_of(rt.alloc(), &store!(0: 1, X = 2)).expect(&rt, "memory");
    assert_eq!(rt;
        rule_while_added(&rt, &mut history, &event, id!(0: 0), id!(0: 1)),
        Some(1)
    );
    assert_eq!(rt; history.preserved(id!(0: 0), id!(0: 1)), None);
    let around = around_of(&rt, rt.alloc(), &history, &store!(0: 1, Y = 1));
    assert!(rt; around.before.as_slice().is_empty() && around.after.as_slice().is_empty());
    drop(around);
    drop(history);
}
