//! The checker over the circles of the litmus tests: each is taken, and refused when anything in it
//! is changed.
use crate::carriers::carrier_circles;
use crate::circles::{ForbiddenTest, circles, total_store_circles};
use crate::rows::{Bits, Row, X, id, load, log_of, row, store};
use rv_cert::{Certificate, Circle, check, confirm};
use rv_event::{Entry, Id, MemoryModel, Op, Reason};
use std::alloc::{AllocError, Global};
use std::process::Abort;

/// Whether the checker takes the steps for a circle of the log.
fn takes(model: MemoryModel, log: &[Entry], steps: Vec<(Id, Reason)>) -> bool {
    check(model, log, &Certificate::Circle(Circle::from_vec(steps)))
}

/// A reason that holds of no two events of which the other one does, in these tables.
fn other_reason(reason: Reason) -> Reason {
    match reason {
        Reason::Preserved(_) => Reason::AtomicIn,
        Reason::Coherence => Reason::ReadsFrom,
        Reason::ReadsFrom => Reason::FromRead,
        Reason::FromRead => Reason::Coherence,
        Reason::AtomicIn => Reason::AtomicOut,
        Reason::AtomicOut => Reason::AtomicIn,
    }
}

/// The circle begun at another of its steps.
fn begun_at(
    alloc: Global,
    edges: &[(Id, Reason)],
    first: usize,
) -> Result<Vec<(Id, Reason)>, AllocError> {
    edges
        .iter()
        .cycle()
        .skip(first)
        .take(edges.len())
        .copied()
        .collect(alloc)
}

/// The circle with another reason at one step.
fn with_other_reason(
    alloc: Global,
    edges: &[(Id, Reason)],
    at: usize,
) -> Result<Vec<(Id, Reason)>, AllocError> {
    let mut steps = Vec::from_slice(alloc, edges)?;
    if let Some(step) = steps.get_mut(at) {
        step.1 = other_reason(step.1);
    }
    Ok(steps)
}

/// The circle with another id at one step.
fn with_id(
    alloc: Global,
    edges: &[(Id, Reason)],
    at: usize,
    id: Id,
) -> Result<Vec<(Id, Reason)>, AllocError> {
    let mut steps = Vec::from_slice(alloc, edges)?;
    if let Some(step) = steps.get_mut(at) {
        step.0 = id;
    }
    Ok(steps)
}

/// The circle without one of its steps.
fn without(
    alloc: Global,
    edges: &[(Id, Reason)],
    at: usize,
) -> Result<Vec<(Id, Reason)>, AllocError> {
    let mut steps = Vec::new(alloc);
    for (i, edge) in edges.iter().enumerate() {
        if i != at {
            steps.push(*edge)?;
        }
    }
    Ok(steps)
}

/// The walk through the same ids the other way round, each edge with its reason.
fn turned(alloc: Global, edges: &[(Id, Reason)]) -> Result<Vec<(Id, Reason)>, AllocError> {
    let targets = edges.iter().cycle().skip(1);
    let mut steps = Vec::new(alloc);
    for (edge, next) in edges.iter().zip(targets) {
        steps.push((next.0, edge.1))?;
    }
    steps.reverse();
    Ok(steps)
}

/// Refuses the circle with one change at one step.
fn assert_changes_refused(
    rt: &impl Abort,
    alloc: Global,
    circle: &ForbiddenTest,
    log: &[Entry],
    at: usize,
) {
    let edges = circle.edges;
    let steps = with_other_reason(alloc, edges, at).expect(rt, "memory");
    assert!(rt;
        !takes(circle.model, log, steps),
        "{}: another reason at {at}",
        circle.name
    );
    let steps = with_id(alloc, edges, at, id!(9: 0)).expect(rt, "memory");
    assert!(rt;
        !takes(circle.model, log, steps),
        "{}: an id of nothing at {at}",
        circle.name
    );
    let steps = without(alloc, edges, at).expect(rt, "memory");
    assert!(rt;
        !takes(circle.model, log, steps),
        "{}: without {at}",
        circle.name
    );
    let steps = begun_at(alloc, edges, at).expect(rt, "memory");
    assert!(rt;
        takes(circle.model, log, steps),
        "{}: begun at {at}",
        circle.name
    );
}

/// Takes the circle, and refuses it with any change.
fn assert_exact(rt: &impl Abort, alloc: Global, circle: &ForbiddenTest) {
    let log = log_of(alloc, circle.rows).expect(rt, "memory");
    let log = log.as_slice();
    let steps = Vec::from_slice(alloc, circle.edges).expect(rt, "memory");
    assert!(rt; takes(circle.model, log, steps), "{}", circle.name);
    for at in 0..circle.edges.len() {
        assert_changes_refused(rt, alloc, circle, log, at);
    }
    if circle.edges.len() > 1 {
        let steps = turned(alloc, circle.edges).expect(rt, "memory");
        assert!(rt; !takes(circle.model, log, steps), "{}: turned", circle.name);
    }
    assert!(rt;
        !takes(circle.model, log, Vec::new(alloc)),
        "{}: no step",
        circle.name
    );
}

#[test]
fn circles_are_taken_and_their_changes_refused(rt: HostRuntime) {
    for circle in circles() {
        assert_exact(&rt, rt.alloc(), circle);
    }
    for circle in carrier_circles() {
        assert_exact(&rt, rt.alloc(), circle);
    }
}

#[test]
fn circles_of_total_store_ordering_are_taken_by_their_model_alone(rt: HostRuntime) {
    for circle in total_store_circles() {
        assert_exact(&rt, rt.alloc(), circle);
        let log = log_of(rt.alloc(), circle.rows).expect(&rt, "memory");
        let steps = Vec::from_slice(rt.alloc(), circle.edges).expect(&rt, "memory");
        assert!(rt;
            !takes(MemoryModel::Rvwmo, log.as_slice(), steps),
            "{}",
            circle.name
        );
    }
}

#[test]
fn stale_pairs_are_taken_and_exchanged_refused(rt: HostRuntime) {
    let log = log_of(rt.alloc(), &[store!(0: 0, X = 1), load!(0: 1, X = 0)]).expect(&rt, "memory");
    let log = log.as_slice();
    let stale = Certificate::Stale {
        load: id!(0: 1),
        store: id!(0: 0),
    };
    assert!(rt; check(MemoryModel::Rvwmo, log, &stale));
    assert!(rt; check(MemoryModel::Ztso, log, &stale));
    let exchanged = Certificate::Stale {
        load: id!(0: 0),
        store: id!(0: 1),
    };
    assert!(rt; !check(MemoryModel::Rvwmo, log, &exchanged));
}

#[test]
fn a_certificate_of_a_log_with_a_fault_is_not_confirmed(rt: HostRuntime) {
    let stale = Certificate::Stale {
        load: id!(0: 1),
        store: id!(0: 0),
    };
    let log = log_of(rt.alloc(), &[store!(0: 0, X = 1), load!(0: 1, X = 0)]).expect(&rt, "memory");
    assert!(rt; confirm(MemoryModel::Rvwmo, log.as_slice(), &stale));
    // The version was written by another store.
    let log = log_of(
        rt.alloc(),
        &[store!(0: 0, X = 1), load!(0: 1, X = 0), store!(1: 0, X = 1)],
    );
    let log = log.expect(&rt, "memory");
    assert!(rt; check(MemoryModel::Rvwmo, log.as_slice(), &stale));
    assert!(rt; !confirm(MemoryModel::Rvwmo, log.as_slice(), &stale));
}
