//! Executions that are refused for another cause than a circle: at its last row each is forbidden
//! by a stale pair, or malformed.
use crate::rows::{Bits, Row, X, load, lr, other, row, sc, store};
use rv_event::Op;

/// A load that returns the initial version after an own store.
pub const STALE: [Row; 2] = [store!(0: 0, X = 1), load!(0: 1, X = 0)];

/// Two stores of one version.
pub const TAKEN: [Row; 2] = [store!(0: 0, X = 3), store!(1: 0, X = 3)];

/// An SC after a failed one.
pub const UNRESERVED: [Row; 3] = [
    lr!(0: 0, X = 0),
    other!(0: 1, Op::ScFailed),
    sc!(0: 2, X = 1),
];
