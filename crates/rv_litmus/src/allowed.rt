//! Executions that a memory model allows, with their counts.
use crate::rows::{
    ADDRESS_1, Bits, FENCE_ALL, FENCE_STORES, Row, X, Y, amo, load, lr, other, row, sc, store,
};
use rv_event::{MemoryModel, Op};

/// An execution, in the order of arrival, with its memory operations and its loads that wait for
/// their store.
pub struct AllowedTest {
    pub name: &'static str,
    pub model: MemoryModel,
    pub rows: &'static [Row],
    pub operations: usize,
    pub waiting: usize,
}

const ALLOWED: &[AllowedTest] = &[
    AllowedTest {
        name: "nothing",
        model: MemoryModel::Rvwmo,
        rows: &[],
        operations: 0,
        waiting: 0,
    },
    AllowedTest {
        name: "store buffering",
        model: MemoryModel::Rvwmo,
        rows: &[
            store!(0: 0, X = 1),
            load!(0: 1, Y = 0),
            store!(1: 0, Y = 1),
            load!(1: 1, X = 0),
        ],
        operations: 4,
        waiting: 0,
    },
    AllowedTest {
        name: "store buffering under total store ordering",
        model: MemoryModel::Ztso,
        rows: &[
            store!(0: 0, X = 1),
            load!(0: 1, Y = 0),
            store!(1: 0, Y = 1),
            load!(1: 1, X = 0),
        ],
        operations: 4,
        waiting: 0,
    },
    AllowedTest {
        name: "store buffering with FENCE.TSO",
        model: MemoryModel::Rvwmo,
        rows: &[
            store!(0: 0, X = 1),
            other!(0: 1, Op::FenceTso),
            load!(0: 2, Y = 0),
            store!(1: 0, Y = 1),
            other!(1: 1, Op::FenceTso),
            load!(1: 2, X = 0),
        ],
        operations: 4,
        waiting: 0,
    },
    AllowedTest {
        name: "message passing with a fence and no address",
        model: MemoryModel::Rvwmo,
        rows: &[
            store!(0: 0, X = 1),
            other!(0: 1, FENCE_STORES),
            store!(0: 2, Y = 1),
            load!(1: 0, Y = 1),
            load!(1: 1, X = 0),
        ],
        operations: 4,
        waiting: 0,
    },
    AllowedTest {
        name: "load buffering, one hart after the other",
        model: MemoryModel::Rvwmo,
        rows: &[
            load!(0: 0, X = 1),
            store!(0: 1, Y = 1),
            load!(1: 0, Y = 1),
            store!(1: 1, X = 1),
        ],
        operations: 4,
        waiting: 0,
    },
    AllowedTest {
        name: "load buffering, the loads first",
        model: MemoryModel::Rvwmo,
        rows: &[
            load!(0: 0, X = 1),
            load!(1: 0, Y = 1),
            store!(0: 1, Y = 1),
            store!(1: 1, X = 1),
        ],
        operations: 4,
        waiting: 0,
    },
    AllowedTest {
        name: "load buffering, the loads alone",
        model: MemoryModel::Rvwmo,
        rows: &[load!(0: 0, X = 1), load!(1: 0, Y = 1)],
        operations: 2,
        waiting: 2,
    },
    AllowedTest {
        name: "forwarding",
        model: MemoryModel::Rvwmo,
        rows: &[
            store!(0: 0, X = 1),
            load!(0: 1, X = 1),
            load!(0: 2, Y = 0, ADDRESS_1),
            store!(1: 0, Y = 1),
            other!(1: 1, FENCE_ALL),
            load!(1: 2, X = 0),
        ],
        operations: 5,
        waiting: 0,
    },
    AllowedTest {
        name: "an own store between an LR and its SC",
        model: MemoryModel::Rvwmo,
        rows: &[lr!(0: 0, X = 0), store!(0: 1, X = 1), sc!(0: 2, X = 3)],
        operations: 3,
        waiting: 0,
    },
    AllowedTest {
        name: "a load of a version that nobody wrote yet",
        model: MemoryModel::Rvwmo,
        rows: &[load!(1: 0, X = 2)],
        operations: 1,
        waiting: 1,
    },
    AllowedTest {
        name: "message passing",
        model: MemoryModel::Rvwmo,
        rows: &[
            store!(0: 0, X = 1),
            store!(0: 1, Y = 1),
            load!(1: 0, Y = 1),
            load!(1: 1, X = 0),
        ],
        operations: 4,
        waiting: 0,
    },
    AllowedTest {
        name: "store buffering with AMOs",
        model: MemoryModel::Rvwmo,
        rows: &[
            amo!(0: 0, X, 0, 1),
            load!(0: 1, Y = 0),
            amo!(1: 0, Y, 0, 1),
            load!(1: 1, X = 0),
        ],
        operations: 4,
        waiting: 0,
    },
];

/// The executions that the model allows. What they are is told to no proof, as a table of this size
/// is dear in each function that names it.
pub fn allowed() -> &'static [AllowedTest] {
    ALLOWED
}
