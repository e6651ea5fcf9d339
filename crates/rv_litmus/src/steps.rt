//! The steps of circles, which are edges, and the stale pair, which is one.
use crate::circles::{circles, total_store_circles};
use crate::refused::STALE;
use crate::rows::{Bits, Row, X, id, load, log_of, row, store};
use rv_event::{Entry, Id, MemoryModel, Op, Reason, is_edge, is_stale};

/// Whether each pair gives an edge to the next pair's id, and the last to the first.
fn has_edges(model: MemoryModel, log: &[Entry], edges: &[(Id, Reason)]) -> bool {
    let targets = edges.iter().skip(1).chain(edges.iter().take(1));
    edges
        .iter()
        .zip(targets)
        .all(|(edge, next)| is_edge(model, log, edge.0, edge.1, next.0))
}

#[test]
fn each_step_of_a_circle_is_an_edge(rt: HostRuntime) {
    for circle in circles() {
        let log = log_of(rt.alloc(), circle.rows).expect(&rt, "memory");
        assert!(rt;
            has_edges(circle.model, log.as_slice(), circle.edges),
            "{}",
            circle.name
        );
    }
}

#[test]
fn circles_of_total_store_ordering_are_none_of_rvwmo(rt: HostRuntime) {
    for circle in total_store_circles() {
        let log = log_of(rt.alloc(), circle.rows).expect(&rt, "memory");
        assert!(rt;
            has_edges(circle.model, log.as_slice(), circle.edges),
            "{}",
            circle.name
        );
        assert!(rt;
            !has_edges(MemoryModel::Rvwmo, log.as_slice(), circle.edges),
            "{}",
            circle.name
        );
    }
}

#[test]
fn forwarding_is_no_edge(rt: HostRuntime) {
    let log = log_of(rt.alloc(), &[store!(0: 0, X = 1), load!(0: 1, X = 1)]).expect(&rt, "memory");
    let log = log.as_slice();
    assert!(rt;
        !is_edge(
            MemoryModel::Rvwmo,
            log,
            id!(0: 0),
            Reason::ReadsFrom,
            id!(0: 1)
        )
    );
}

#[test]
fn a_load_below_an_own_store_is_stale(rt: HostRuntime) {
    let log = log_of(rt.alloc(), &STALE).expect(&rt, "memory");
    let log = log.as_slice();
    assert!(rt; is_stale(log, id!(0: 1), id!(0: 0)));
    assert!(rt; !is_stale(log, id!(0: 0), id!(0: 1)));
}
