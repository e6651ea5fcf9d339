//! The rule of preserved program order between two events of small histories.
use crate::rows::{
    ADDRESS_0, Bits, CONTROL_0, DATA_0, FENCE_ALL, FENCE_LOADS, FENCE_STORES, Row, X, Y, Z, amo,
    id, load, log_of, lr, other, row, sc, store,
};
use rv_event::{Id, MemoryModel, Op, is_preserved_by, lowest_rule};

/// A history of one hart, two of its events, and the lowest rule between them.
pub struct HistoryTest {
    pub name: &'static str,
    pub model: MemoryModel,
    pub rows: &'static [Row],
    pub from: u32,
    pub to: u32,
    pub rule: Option<u8>,
}

const HISTORIES: &[HistoryTest] = &[
    HistoryTest {
        name: "a store of the word of an earlier load",
        model: MemoryModel::Rvwmo,
        rows: &[load!(0: 0, X = 0), store!(0: 1, X = 1)],
        from: 0,
        to: 1,
        rule: Some(1),
    },
    HistoryTest {
        name: "loads of one word that return one version",
        model: MemoryModel::Rvwmo,
        rows: &[load!(0: 0, X = 1), load!(0: 1, X = 1)],
        from: 0,
        to: 1,
        rule: None,
    },
    HistoryTest {
        name: "an acquire before a load",
        model: MemoryModel::Rvwmo,
        rows: &[lr!(0: 0, X = 0, Acquire), load!(0: 1, Y = 0)],
        from: 0,
        to: 1,
        rule: Some(5),
    },
    HistoryTest {
        name: "a release after a store",
        model: MemoryModel::Rvwmo,
        rows: &[store!(0: 0, X = 1), amo!(0: 1, Y, 0, 1, Release)],
        from: 0,
        to: 1,
        rule: Some(6),
    },
    HistoryTest {
        name: "a release before an acquire, both RCsc",
        model: MemoryModel::Rvwmo,
        rows: &[amo!(0: 0, X, 0, 1, Release), amo!(0: 1, Y, 0, 1, Acquire)],
        from: 0,
        to: 1,
        rule: Some(7),
    },
    HistoryTest {
        name: "an address that depends on a load",
        model: MemoryModel::Rvwmo,
        rows: &[load!(0: 0, X = 0), load!(0: 1, Y = 0, ADDRESS_0)],
        from: 0,
        to: 1,
        rule: Some(9),
    },
    HistoryTest {
        name: "data that depend on a load",
        model: MemoryModel::Rvwmo,
        rows: &[load!(0: 0, X = 0), store!(0: 1, Y = 1, DATA_0)],
        from: 0,
        to: 1,
        rule: Some(10),
    },
    HistoryTest {
        name: "a store after a branch on a load",
        model: MemoryModel::Rvwmo,
        rows: &[
            load!(0: 0, X = 0),
            other!(0: 1, Op::Branch, CONTROL_0),
            store!(0: 2, Y = 1),
        ],
        from: 0,
        to: 2,
        rule: Some(11),
    },
    HistoryTest {
        name: "a branch is no memory operation",
        model: MemoryModel::Rvwmo,
        rows: &[
            load!(0: 0, X = 0),
            other!(0: 1, Op::Branch, CONTROL_0),
            store!(0: 2, Y = 1),
        ],
        from: 0,
        to: 1,
        rule: None,
    },
    HistoryTest {
        name: "a load that returns what a dependent store wrote",
        model: MemoryModel::Rvwmo,
        rows: &[
            load!(0: 0, X = 1),
            store!(0: 1, Y = 1, DATA_0),
            load!(0: 2, Y = 1),
        ],
        from: 0,
        to: 2,
        rule: Some(12),
    },
    HistoryTest {
        name: "forwarding alone orders nothing",
        model: MemoryModel::Rvwmo,
        rows: &[
            load!(0: 0, X = 1),
            store!(0: 1, Y = 1, DATA_0),
            load!(0: 2, Y = 1),
        ],
        from: 1,
        to: 2,
        rule: None,
    },
    HistoryTest {
        name: "a store after an address that depends on a load",
        model: MemoryModel::Rvwmo,
        rows: &[
            load!(0: 0, X = 0),
            load!(0: 1, Z = 0, ADDRESS_0),
            store!(0: 2, Y = 1),
        ],
        from: 0,
        to: 2,
        rule: Some(13),
    },
    HistoryTest {
        name: "a store after a load of another word",
        model: MemoryModel::Rvwmo,
        rows: &[
            load!(0: 0, X = 0),
            load!(0: 1, Z = 0, ADDRESS_0),
            store!(0: 2, Y = 1),
        ],
        from: 1,
        to: 2,
        rule: None,
    },
    HistoryTest {
        name: "a load after a store of another word",
        model: MemoryModel::Rvwmo,
        rows: &[store!(0: 0, X = 1), load!(0: 1, Y = 0)],
        from: 0,
        to: 1,
        rule: None,
    },
    HistoryTest {
        name: "a pair of two words",
        model: MemoryModel::Rvwmo,
        rows: &[lr!(0: 0, X = 0), sc!(0: 1, Y = 1)],
        from: 0,
        to: 1,
        rule: Some(8),
    },
    HistoryTest {
        name: "a load of what an AMO wrote: the lower of two rules",
        model: MemoryModel::Rvwmo,
        rows: &[amo!(0: 0, X, 0, 1), load!(0: 1, X = 1)],
        from: 0,
        to: 1,
        rule: Some(2),
    },
    HistoryTest {
        name: "a load of what an SC wrote",
        model: MemoryModel::Rvwmo,
        rows: &[lr!(0: 0, X = 0), sc!(0: 1, X = 1), load!(0: 2, X = 1)],
        from: 1,
        to: 2,
        rule: Some(3),
    },
    HistoryTest {
        name: "a load of what an AMO wrote, past a store",
        model: MemoryModel::Rvwmo,
        rows: &[amo!(0: 0, X, 0, 1), store!(0: 1, X = 2), load!(0: 2, X = 1)],
        from: 0,
        to: 2,
        rule: Some(3),
    },
    HistoryTest {
        name: "a fence of all operations",
        model: MemoryModel::Rvwmo,
        rows: &[
            store!(0: 0, X = 1),
            other!(0: 1, FENCE_ALL),
            load!(0: 2, Y = 0),
        ],
        from: 0,
        to: 2,
        rule: Some(4),
    },
    HistoryTest {
        name: "a fence of loads orders no store",
        model: MemoryModel::Rvwmo,
        rows: &[
            store!(0: 0, X = 1),
            other!(0: 1, FENCE_LOADS),
            load!(0: 2, Y = 0),
        ],
        from: 0,
        to: 2,
        rule: None,
    },
    HistoryTest {
        name: "a fence of stores takes an AMO",
        model: MemoryModel::Rvwmo,
        rows: &[
            amo!(0: 0, X, 0, 1),
            other!(0: 1, FENCE_STORES),
            store!(0: 2, Y = 1),
        ],
        from: 0,
        to: 2,
        rule: Some(4),
    },
    HistoryTest {
        name: "FENCE.TSO leaves a store before a load unordered",
        model: MemoryModel::Rvwmo,
        rows: &[
            store!(0: 0, X = 1),
            other!(0: 1, Op::FenceTso),
            load!(0: 2, Y = 0),
        ],
        from: 0,
        to: 2,
        rule: None,
    },
    HistoryTest {
        name: "FENCE.TSO orders a load before a store",
        model: MemoryModel::Rvwmo,
        rows: &[
            load!(0: 0, X = 0),
            other!(0: 1, Op::FenceTso),
            store!(0: 2, Y = 1),
        ],
        from: 0,
        to: 2,
        rule: Some(4),
    },
    HistoryTest {
        name: "total store ordering: an SC before an LR, both RCpc",
        model: MemoryModel::Ztso,
        rows: &[lr!(0: 0, X = 0), sc!(0: 1, X = 1), lr!(0: 2, Y = 0)],
        from: 1,
        to: 2,
        rule: None,
    },
    HistoryTest {
        name: "total store ordering: an SC before an LR, both RCsc",
        model: MemoryModel::Ztso,
        rows: &[
            lr!(0: 0, X = 0),
            sc!(0: 1, X = 1, Release),
            lr!(0: 2, Y = 0, Acquire),
        ],
        from: 1,
        to: 2,
        rule: Some(7),
    },
    HistoryTest {
        name: "total store ordering: a load before a load",
        model: MemoryModel::Ztso,
        rows: &[load!(0: 0, X = 0), load!(0: 1, Y = 0)],
        from: 0,
        to: 1,
        rule: Some(5),
    },
    HistoryTest {
        name: "total store ordering: a store before a store",
        model: MemoryModel::Ztso,
        rows: &[store!(0: 0, X = 1), store!(0: 1, Y = 1)],
        from: 0,
        to: 1,
        rule: Some(6),
    },
    HistoryTest {
        name: "total store ordering: a store before a load",
        model: MemoryModel::Ztso,
        rows: &[store!(0: 0, X = 1), load!(0: 1, Y = 0)],
        from: 0,
        to: 1,
        rule: None,
    },
    HistoryTest {
        name: "total store ordering: AMOs are RCsc",
        model: MemoryModel::Ztso,
        rows: &[amo!(0: 0, X, 0, 1), amo!(0: 1, Y, 0, 1)],
        from: 0,
        to: 1,
        rule: Some(5),
    },
];

/// The histories. What they are is told to no proof, as a table of this size is dear in each
/// function that names it.
pub fn histories() -> &'static [HistoryTest] {
    HISTORIES
}

#[test]
fn lowest_rules(rt: HostRuntime) {
    for history in histories() {
        let log = log_of(rt.alloc(), history.rows).expect(&rt, "memory");
        let from = Id {
            hart: 0,
            seq: history.from,
        };
        let to = Id {
            hart: 0,
            seq: history.to,
        };
        let found = lowest_rule(history.model, log.as_slice(), from, to);
        assert_eq!(rt; found, history.rule, "{}", history.name);
    }
}

#[test]
fn a_higher_rule_holds_beside_the_lowest(rt: HostRuntime) {
    let rows = [amo!(0: 0, X, 0, 1), load!(0: 1, X = 1)];
    let log = log_of(rt.alloc(), &rows).expect(&rt, "memory");
    let log = log.as_slice();
    assert!(rt; is_preserved_by(MemoryModel::Rvwmo, log, 2, id!(0: 0), id!(0: 1)));
    assert!(rt; is_preserved_by(MemoryModel::Rvwmo, log, 3, id!(0: 0), id!(0: 1)));
    assert!(rt; !is_preserved_by(MemoryModel::Rvwmo, log, 1, id!(0: 0), id!(0: 1)));
}
