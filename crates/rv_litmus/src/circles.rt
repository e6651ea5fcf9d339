//! Executions that a memory model forbids, each with the circle of edges that shows it.
use crate::rows::{
    ADDRESS_0, ADDRESS_1, ADDRESS_2, Bits, CONTROL_0, DATA_0, DATA_2, FENCE_ALL, FENCE_LOADS,
    FENCE_STORES, FENCE_STORES_LOADS, Row, X, Y, Z, amo, id, load, lr, other, row, sc, store,
};
use rv_event::{Id, MemoryModel, Op, Reason};

/// An execution, in the order of arrival, and a circle of edges: each leads to the next one's id,
/// the last to the first.
pub struct ForbiddenTest {
    pub name: &'static str,
    pub model: MemoryModel,
    pub rows: &'static [Row],
    pub edges: &'static [(Id, Reason)],
}

const CIRCLES: &[ForbiddenTest] = &[
    ForbiddenTest {
        name: "store buffering with fences",
        model: MemoryModel::Rvwmo,
        rows: &[
            store!(0: 0, X = 1),
            other!(0: 1, FENCE_ALL),
            load!(0: 2, Y = 0),
            store!(1: 0, Y = 1),
            other!(1: 1, FENCE_ALL),
            load!(1: 2, X = 0),
        ],
        edges: &[
            (id!(1: 2), Reason::FromRead),
            (id!(0: 0), Reason::Preserved(4)),
            (id!(0: 2), Reason::FromRead),
            (id!(1: 0), Reason::Preserved(4)),
        ],
    },
    ForbiddenTest {
        name: "message passing with a fence and an address",
        model: MemoryModel::Rvwmo,
        rows: &[
            store!(0: 0, X = 1),
            other!(0: 1, FENCE_STORES),
            store!(0: 2, Y = 1),
            load!(1: 0, Y = 1),
            load!(1: 1, X = 0, ADDRESS_0),
        ],
        edges: &[
            (id!(1: 1), Reason::FromRead),
            (id!(0: 0), Reason::Preserved(4)),
            (id!(0: 2), Reason::ReadsFrom),
            (id!(1: 0), Reason::Preserved(9)),
        ],
    },
    ForbiddenTest {
        name: "load buffering with data",
        model: MemoryModel::Rvwmo,
        rows: &[
            load!(0: 0, X = 1),
            store!(0: 1, Y = 1, DATA_0),
            load!(1: 0, Y = 1),
            store!(1: 1, X = 1, DATA_0),
        ],
        edges: &[
            (id!(1: 1), Reason::ReadsFrom),
            (id!(0: 0), Reason::Preserved(10)),
            (id!(0: 1), Reason::ReadsFrom),
            (id!(1: 0), Reason::Preserved(10)),
        ],
    },
    ForbiddenTest {
        name: "reads of one word go back",
        model: MemoryModel::Rvwmo,
        rows: &[store!(0: 0, X = 1), load!(1: 0, X = 1), load!(1: 1, X = 0)],
        edges: &[
            (id!(1: 1), Reason::FromRead),
            (id!(0: 0), Reason::ReadsFrom),
            (id!(1: 0), Reason::Preserved(2)),
        ],
    },
    ForbiddenTest {
        name: "a foreign store between an LR and its SC",
        model: MemoryModel::Rvwmo,
        rows: &[lr!(0: 0, X = 0), sc!(0: 1, X = 2), store!(1: 0, X = 1)],
        edges: &[
            (id!(1: 0), Reason::Coherence),
            (id!(0: 1), Reason::AtomicOut),
        ],
    },
    ForbiddenTest {
        name: "a foreign store past an own one between an LR and its SC",
        model: MemoryModel::Rvwmo,
        rows: &[
            lr!(0: 0, X = 0),
            store!(0: 1, X = 1),
            sc!(0: 2, X = 3),
            store!(1: 0, X = 2),
        ],
        edges: &[
            (id!(1: 0), Reason::Coherence),
            (id!(0: 2), Reason::AtomicOut),
        ],
    },
    ForbiddenTest {
        name: "the writer of what an LR returned stands before the SC",
        model: MemoryModel::Rvwmo,
        rows: &[
            store!(0: 0, X = 1),
            lr!(0: 1, X = 1),
            sc!(0: 2, Y = 1),
            load!(1: 0, Y = 1),
            load!(1: 1, X = 0, ADDRESS_0),
        ],
        edges: &[
            (id!(1: 1), Reason::FromRead),
            (id!(0: 0), Reason::AtomicIn),
            (id!(0: 2), Reason::ReadsFrom),
            (id!(1: 0), Reason::Preserved(9)),
        ],
    },
    ForbiddenTest {
        name: "an LR that returned what its own SC wrote",
        model: MemoryModel::Rvwmo,
        rows: &[lr!(0: 0, X = 1), sc!(0: 1, X = 1)],
        edges: &[(id!(0: 1), Reason::AtomicIn)],
    },
    ForbiddenTest {
        name: "a store inside an AMO",
        model: MemoryModel::Rvwmo,
        rows: &[amo!(0: 0, X, 0, 2), store!(1: 0, X = 1)],
        edges: &[
            (id!(1: 0), Reason::Coherence),
            (id!(0: 0), Reason::FromRead),
        ],
    },
    ForbiddenTest {
        name: "an AMO that returned what it wrote",
        model: MemoryModel::Rvwmo,
        rows: &[amo!(0: 0, X, 1, 1)],
        edges: &[(id!(0: 0), Reason::ReadsFrom)],
    },
    ForbiddenTest {
        name: "no forwarding from an SC",
        model: MemoryModel::Rvwmo,
        rows: &[
            lr!(0: 0, X = 0),
            sc!(0: 1, X = 1),
            load!(0: 2, X = 1),
            load!(0: 3, Y = 0, ADDRESS_2),
            store!(1: 0, Y = 1),
            other!(1: 1, FENCE_ALL),
            load!(1: 2, X = 0),
        ],
        edges: &[
            (id!(1: 2), Reason::FromRead),
            (id!(0: 1), Reason::Preserved(3)),
            (id!(0: 2), Reason::Preserved(9)),
            (id!(0: 3), Reason::FromRead),
            (id!(1: 0), Reason::Preserved(4)),
        ],
    },
    ForbiddenTest {
        name: "no forwarding from an AMO, by the lower rule",
        model: MemoryModel::Rvwmo,
        rows: &[
            amo!(0: 0, X, 0, 1),
            load!(0: 1, X = 1),
            load!(0: 2, Y = 0, ADDRESS_1),
            store!(1: 0, Y = 1),
            other!(1: 1, FENCE_ALL),
            load!(1: 2, X = 0),
        ],
        edges: &[
            (id!(1: 2), Reason::FromRead),
            (id!(0: 0), Reason::Preserved(2)),
            (id!(0: 1), Reason::Preserved(9)),
            (id!(0: 2), Reason::FromRead),
            (id!(1: 0), Reason::Preserved(4)),
        ],
    },
    ForbiddenTest {
        name: "no forwarding from an AMO, by the higher rule",
        model: MemoryModel::Rvwmo,
        rows: &[
            amo!(0: 0, X, 0, 1),
            load!(0: 1, X = 1),
            load!(0: 2, Y = 0, ADDRESS_1),
            store!(1: 0, Y = 1),
            other!(1: 1, FENCE_ALL),
            load!(1: 2, X = 0),
        ],
        edges: &[
            (id!(1: 2), Reason::FromRead),
            (id!(0: 0), Reason::Preserved(3)),
            (id!(0: 1), Reason::Preserved(9)),
            (id!(0: 2), Reason::FromRead),
            (id!(1: 0), Reason::Preserved(4)),
        ],
    },
    ForbiddenTest {
        name: "a load of what a dependent store wrote",
        model: MemoryModel::Rvwmo,
        rows: &[
            load!(0: 0, X = 1),
            store!(0: 1, Y = 1, DATA_0),
            load!(0: 2, Y = 1),
            store!(0: 3, Z = 1, DATA_2),
            load!(1: 0, Z = 1),
            store!(1: 1, X = 1, DATA_0),
        ],
        edges: &[
            (id!(1: 1), Reason::ReadsFrom),
            (id!(0: 0), Reason::Preserved(12)),
            (id!(0: 2), Reason::Preserved(10)),
            (id!(0: 3), Reason::ReadsFrom),
            (id!(1: 0), Reason::Preserved(10)),
        ],
    },
    ForbiddenTest {
        name: "a store after a dependent address",
        model: MemoryModel::Rvwmo,
        rows: &[
            load!(0: 0, X = 1),
            load!(0: 1, Z = 0, ADDRESS_0),
            store!(0: 2, Y = 1),
            load!(1: 0, Y = 1),
            store!(1: 1, X = 1, DATA_0),
        ],
        edges: &[
            (id!(1: 1), Reason::ReadsFrom),
            (id!(0: 0), Reason::Preserved(13)),
            (id!(0: 2), Reason::ReadsFrom),
            (id!(1: 0), Reason::Preserved(10)),
        ],
    },
    ForbiddenTest {
        name: "a store after a branch",
        model: MemoryModel::Rvwmo,
        rows: &[
            load!(0: 0, X = 1),
            other!(0: 1, Op::Branch, CONTROL_0),
            store!(0: 2, Y = 1),
            load!(1: 0, Y = 1),
            store!(1: 1, X = 1, DATA_0),
        ],
        edges: &[
            (id!(1: 1), Reason::ReadsFrom),
            (id!(0: 0), Reason::Preserved(11)),
            (id!(0: 2), Reason::ReadsFrom),
            (id!(1: 0), Reason::Preserved(10)),
        ],
    },
    ForbiddenTest {
        name: "a fence of loads takes an AMO whole",
        model: MemoryModel::Rvwmo,
        rows: &[
            amo!(0: 0, Y, 0, 1),
            other!(0: 1, FENCE_LOADS),
            load!(0: 2, X = 0),
            store!(1: 0, X = 1),
            other!(1: 1, FENCE_STORES_LOADS),
            load!(1: 2, Y = 0),
        ],
        edges: &[
            (id!(1: 2), Reason::FromRead),
            (id!(0: 0), Reason::Preserved(4)),
            (id!(0: 2), Reason::FromRead),
            (id!(1: 0), Reason::Preserved(4)),
        ],
    },
    ForbiddenTest {
        name: "message passing with a release and an acquire",
        model: MemoryModel::Rvwmo,
        rows: &[
            store!(0: 0, X = 1),
            amo!(0: 1, Y, 0, 1, Release),
            lr!(1: 0, Y = 1, Acquire),
            load!(1: 1, X = 0),
        ],
        edges: &[
            (id!(1: 1), Reason::FromRead),
            (id!(0: 0), Reason::Preserved(6)),
            (id!(0: 1), Reason::ReadsFrom),
            (id!(1: 0), Reason::Preserved(5)),
        ],
    },
];

/// The executions that a circle of edges forbids. What they are is told to no proof, as a table of
/// this size is dear in each function that names it.
pub fn circles() -> &'static [ForbiddenTest] {
    CIRCLES
}

/// Executions that total store ordering forbids and RVWMO allows.
const TOTAL_STORE_CIRCLES: &[ForbiddenTest] = &[
    ForbiddenTest {
        name: "message passing",
        model: MemoryModel::Ztso,
        rows: &[
            store!(0: 0, X = 1),
            store!(0: 1, Y = 1),
            load!(1: 0, Y = 1),
            load!(1: 1, X = 0),
        ],
        edges: &[
            (id!(1: 1), Reason::FromRead),
            (id!(0: 0), Reason::Preserved(6)),
            (id!(0: 1), Reason::ReadsFrom),
            (id!(1: 0), Reason::Preserved(5)),
        ],
    },
    ForbiddenTest {
        name: "load buffering",
        model: MemoryModel::Ztso,
        rows: &[
            load!(0: 0, X = 1),
            store!(0: 1, Y = 1),
            load!(1: 0, Y = 1),
            store!(1: 1, X = 1),
        ],
        edges: &[
            (id!(1: 1), Reason::ReadsFrom),
            (id!(0: 0), Reason::Preserved(5)),
            (id!(0: 1), Reason::ReadsFrom),
            (id!(1: 0), Reason::Preserved(5)),
        ],
    },
    ForbiddenTest {
        name: "store buffering with AMOs",
        model: MemoryModel::Ztso,
        rows: &[
            amo!(0: 0, X, 0, 1),
            load!(0: 1, Y = 0),
            amo!(1: 0, Y, 0, 1),
            load!(1: 1, X = 0),
        ],
        edges: &[
            (id!(1: 1), Reason::FromRead),
            (id!(0: 0), Reason::Preserved(5)),
            (id!(0: 1), Reason::FromRead),
            (id!(1: 0), Reason::Preserved(5)),
        ],
    },
];

/// The circles that total store ordering alone forbids, as `circles`.
pub fn total_store_circles() -> &'static [ForbiddenTest] {
    TOTAL_STORE_CIRCLES
}
