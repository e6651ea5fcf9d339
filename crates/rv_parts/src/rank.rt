//! Worked placements.
use rv_rank::{Placed, Ranks, Refused};
use std::alloc::Global;
use std::process::Abort;

/// Places a node whose neighbours are tested to be placed.
fn place(
    rt: &impl Abort,
    ranks: &mut Ranks,
    preds: &[u32],
    succs: &[u32],
) -> Result<Placed, Refused> {
    assert!(rt; ranks.len() < 65536);
    assert!(rt; preds.iter().all(|p| (*p as usize) < ranks.len()));
    assert!(rt; succs.iter().all(|s| (*s as usize) < ranks.len()));
    ranks.place(preds, succs)
}

fn check_order(rt: &impl Abort, ranks: &Ranks, want: &[u32]) {
    let nodes = ranks.order().expect(rt, "memory");
    assert_eq!(rt; nodes.as_slice(), want);
}

/// A placement, and what it comes to.
struct Worked {
    preds: &'static [u32],
    succs: &'static [u32],
    /// The new node, how many nodes move, and how many are visited; nothing of it where the node is
    /// refused.
    placed: [u32; 3],
    /// The path that refuses the node; none where it is placed.
    circle: &'static [u32],
    /// The nodes by rank after it.
    order: &'static [u32],
}

/// Placements one after another, after four nodes without edges.
const WORKED: [Worked; 5] = [
    Worked {
        preds: &[3],
        succs: &[1],
        placed: [4, 2, 2],
        circle: &[],
        order: &[0, 3, 2, 4, 1],
    },
    Worked {
        preds: &[1],
        succs: &[3],
        placed: [0, 0, 0],
        circle: &[3, 4, 1],
        order: &[0, 3, 2, 4, 1],
    },
    Worked {
        preds: &[0],
        succs: &[2],
        placed: [5, 1, 1],
        circle: &[],
        order: &[0, 3, 5, 4, 1, 2],
    },
    Worked {
        preds: &[0],
        succs: &[0],
        placed: [0, 0, 0],
        circle: &[0],
        order: &[0, 3, 5, 4, 1, 2],
    },
    Worked {
        preds: &[2],
        succs: &[],
        placed: [6, 0, 0],
        circle: &[],
        order: &[0, 3, 5, 4, 1, 2, 6],
    },
];

/// The placements.
fn placements() -> &'static [Worked] {
    &WORKED
}

/// Places a node, and looks at the answer and the order.
fn check_worked(rt: &impl Abort, ranks: &mut Ranks, want: &Worked) {
    match &place(rt, ranks, want.preds, want.succs) {
        Ok(placed) => {
            assert_eq!(rt; [placed.node, placed.moved, placed.visited], want.placed);
            assert!(rt; want.circle.is_empty());
        }
        Err(Refused::Circle(path)) => assert_eq!(rt; path.as_slice(), want.circle),
        Err(Refused::NoMemory) => assert!(rt; false),
    }
    check_order(rt, ranks, want.order);
}

/// Four nodes without edges, each placed as the greatest.
fn four_nodes(rt: &impl Abort, alloc: Global) -> Ranks {
    let mut ranks = Ranks::new(alloc);
    assert!(rt; ranks.is_empty());
    for node in 0..4 {
        let placed = place(rt, &mut ranks, &[], &[]).expect(rt, "placed");
        assert_eq!(rt; [placed.node, placed.moved, placed.visited], [node, 0, 0]);
    }
    ranks
}

/// Looks at the ranks after the last worked placement.
fn check_ranks(rt: &impl Abort, ranks: &Ranks) {
    assert_eq!(rt; ranks.len(), 7);
    assert!(rt; 5 < ranks.len());
    assert_eq!(rt; ranks.rank(5), 2);
    assert!(rt; ranks.before(5, 4));
    assert!(rt; !ranks.before(4, 5));
}

#[test]
fn worked_placements(rt: HostRuntime) {
    let mut ranks = four_nodes(&rt, rt.alloc());
    check_order(&rt, &ranks, &[0, 1, 2, 3]);
    for one in placements() {
        check_worked(&rt, &mut ranks, one);
    }
    check_ranks(&rt, &ranks);
}
