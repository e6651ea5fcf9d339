//! Executions with carriers: dependencies that an event lists by a row which stands for others.
use crate::allowed::AllowedTest;
use crate::circles::ForbiddenTest;
use crate::rows::{
    ADDRESS_1, ADDRESS_2, Bits, CONTROL_1, DATA_0, DATA_1, DATA_2, DATA_3, FENCE_STORES, Row, X, Y,
    Z, id, load, other, row, store,
};
use rv_event::{Id, MemoryModel, Op, Reason};

const CARRIER_CIRCLES: &[ForbiddenTest] = &[
    ForbiddenTest {
        name: "message passing with an address through a carrier",
        model: MemoryModel::Rvwmo,
        rows: &[
            store!(0: 0, X = 1),
            other!(0: 1, FENCE_STORES),
            store!(0: 2, Y = 1),
            load!(1: 0, Y = 1),
            other!(1: 1, Op::Carrier, DATA_0),
            load!(1: 2, X = 0, ADDRESS_1),
        ],
        edges: &[
            (id!(1: 2), Reason::FromRead),
            (id!(0: 0), Reason::Preserved(4)),
            (id!(0: 2), Reason::ReadsFrom),
            (id!(1: 0), Reason::Preserved(9)),
        ],
    },
    ForbiddenTest {
        name: "load buffering with data through two carriers",
        model: MemoryModel::Rvwmo,
        rows: &[
            load!(0: 0, X = 1),
            other!(0: 1, Op::Carrier, DATA_0),
            other!(0: 2, Op::Carrier, DATA_1),
            store!(0: 3, Y = 1, DATA_2),
            load!(1: 0, Y = 1),
            store!(1: 1, X = 1, DATA_0),
        ],
        edges: &[
            (id!(1: 1), Reason::ReadsFrom),
            (id!(0: 0), Reason::Preserved(10)),
            (id!(0: 3), Reason::ReadsFrom),
            (id!(1: 0), Reason::Preserved(10)),
        ],
    },
    ForbiddenTest {
        name: "a store after a branch on a carrier",
        model: MemoryModel::Rvwmo,
        rows: &[
            load!(0: 0, X = 1),
            other!(0: 1, Op::Carrier, DATA_0),
            other!(0: 2, Op::Branch, CONTROL_1),
            store!(0: 3, Y = 1),
            load!(1: 0, Y = 1),
            store!(1: 1, X = 1, DATA_0),
        ],
        edges: &[
            (id!(1: 1), Reason::ReadsFrom),
            (id!(0: 0), Reason::Preserved(11)),
            (id!(0: 3), Reason::ReadsFrom),
            (id!(1: 0), Reason::Preserved(10)),
        ],
    },
    ForbiddenTest {
        name: "a load of what a store wrote whose data is a carrier's",
        model: MemoryModel::Rvwmo,
        rows: &[
            load!(0: 0, X = 1),
            other!(0: 1, Op::Carrier, DATA_0),
            store!(0: 2, Z = 1, DATA_1),
            load!(0: 3, Z = 1),
            store!(0: 4, Y = 1, DATA_3),
            load!(1: 0, Y = 1),
            store!(1: 1, X = 1, DATA_0),
        ],
        edges: &[
            (id!(1: 1), Reason::ReadsFrom),
            (id!(0: 0), Reason::Preserved(12)),
            (id!(0: 3), Reason::Preserved(10)),
            (id!(0: 4), Reason::ReadsFrom),
            (id!(1: 0), Reason::Preserved(10)),
        ],
    },
    ForbiddenTest {
        name: "a store after an address through a carrier",
        model: MemoryModel::Rvwmo,
        rows: &[
            load!(0: 0, X = 1),
            other!(0: 1, Op::Carrier, DATA_0),
            load!(0: 2, Z = 0, ADDRESS_1),
            store!(0: 3, Y = 1),
            load!(1: 0, Y = 1),
            store!(1: 1, X = 1, DATA_0),
        ],
        edges: &[
            (id!(1: 1), Reason::ReadsFrom),
            (id!(0: 0), Reason::Preserved(13)),
            (id!(0: 3), Reason::ReadsFrom),
            (id!(1: 0), Reason::Preserved(10)),
        ],
    },
];

const CARRIER_ALLOWED: &[AllowedTest] = &[
    AllowedTest {
        name: "message passing with a carrier of another load",
        model: MemoryModel::Rvwmo,
        rows: &[
            store!(0: 0, X = 1),
            other!(0: 1, FENCE_STORES),
            store!(0: 2, Y = 1),
            load!(1: 0, Y = 1),
            load!(1: 1, Z = 0),
            other!(1: 2, Op::Carrier, DATA_1),
            load!(1: 3, X = 0, ADDRESS_2),
        ],
        operations: 5,
        waiting: 0,
    },
    AllowedTest {
        name: "load buffering with carriers that nobody lists",
        model: MemoryModel::Rvwmo,
        rows: &[
            load!(0: 0, X = 1),
            other!(0: 1, Op::Carrier, DATA_0),
            store!(0: 2, Y = 1),
            load!(1: 0, Y = 1),
            other!(1: 1, Op::Carrier, DATA_0),
            store!(1: 2, X = 1),
        ],
        operations: 4,
        waiting: 0,
    },
];

/// The circles of executions with carriers, as those of [`circles`](crate::circles::circles).
pub fn carrier_circles() -> &'static [ForbiddenTest] {
    CARRIER_CIRCLES
}

/// The executions with carriers that the model allows.
pub fn carrier_allowed() -> &'static [AllowedTest] {
    CARRIER_ALLOWED
}
