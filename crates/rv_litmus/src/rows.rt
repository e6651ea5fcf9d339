//! Rows of traces as constants, and the logs made of them.
use rv_event::{Dep, DepKind, Deps, Entry, Event, Id, NoMemory, Op, Set};
use std::alloc::Global;

/// Three words.
pub const X: u32 = 0;

pub const Y: u32 = 1;

pub const Z: u32 = 2;

/// Dependencies: of the address, of the data or of a branch, on the event with the number named.
pub const ADDRESS_0: Dep = Dep {
    kind: DepKind::Addr,
    seq: 0,
};

pub const ADDRESS_1: Dep = Dep {
    kind: DepKind::Addr,
    seq: 1,
};

pub const ADDRESS_2: Dep = Dep {
    kind: DepKind::Addr,
    seq: 2,
};

pub const DATA_0: Dep = Dep {
    kind: DepKind::DataOf,
    seq: 0,
};

pub const DATA_1: Dep = Dep {
    kind: DepKind::DataOf,
    seq: 1,
};

pub const DATA_2: Dep = Dep {
    kind: DepKind::DataOf,
    seq: 2,
};

pub const DATA_3: Dep = Dep {
    kind: DepKind::DataOf,
    seq: 3,
};

pub const CONTROL_0: Dep = Dep {
    kind: DepKind::Ctrl,
    seq: 0,
};

pub const CONTROL_1: Dep = Dep {
    kind: DepKind::Ctrl,
    seq: 1,
};

/// The fences of the tables.
pub const FENCE_ALL: Op = Op::Fence {
    pred: Set::Rw,
    succ: Set::Rw,
};

pub const FENCE_STORES: Op = Op::Fence {
    pred: Set::W,
    succ: Set::W,
};

pub const FENCE_STORES_LOADS: Op = Op::Fence {
    pred: Set::W,
    succ: Set::R,
};

pub const FENCE_LOADS: Op = Op::Fence {
    pred: Set::R,
    succ: Set::R,
};

/// The annotations of a row.
#[derive(Clone, Copy, PartialEq, Eq)]
pub enum Bits {
    None,
    Acquire,
    Release,
}

/// One row of a trace.
#[derive(Clone, Copy)]
pub struct Row {
    pub hart: u8,
    pub seq: u32,
    pub op: Op,
    pub word: u32,
    pub read: u32,
    pub wrote: u32,
    pub bits: Bits,
    pub deps: &'static [Dep],
}

macro_rules! row {
    ($hart:literal, $seq:literal, $op:expr, $word:expr, $read:expr, $wrote:expr, $bits:expr, $deps:expr) => {
        Row { hart: $hart, seq: $seq, op: $op, word: $word, read: $read, wrote: $wrote, bits: $bits, deps: $deps }
    };
}

macro_rules! load {
    ($hart:literal : $seq:literal, $word:ident = $read:literal) => {
        row!($hart, $seq, Op::Load, $word, $read, 0, Bits::None, &[])
    };
    ($hart:literal : $seq:literal, $word:ident = $read:literal, $dep:ident) => {
        row!($hart, $seq, Op::Load, $word, $read, 0, Bits::None, &[$dep])
    };
}

macro_rules! store {
    ($hart:literal : $seq:literal, $word:ident = $wrote:literal) => {
        row!($hart, $seq, Op::Store, $word, 0, $wrote, Bits::None, &[])
    };
    ($hart:literal : $seq:literal, $word:ident = $wrote:literal, $dep:ident) => {
        row!($hart, $seq, Op::Store, $word, 0, $wrote, Bits::None, &[$dep])
    };
}

macro_rules! lr {
    ($hart:literal : $seq:literal, $word:ident = $read:literal) => {
        row!($hart, $seq, Op::Lr, $word, $read, 0, Bits::None, &[])
    };
    ($hart:literal : $seq:literal, $word:ident = $read:literal, $bits:ident) => {
        row!($hart, $seq, Op::Lr, $word, $read, 0, Bits::$bits, &[])
    };
}

macro_rules! sc {
    ($hart:literal : $seq:literal, $word:ident = $wrote:literal) => {
        row!($hart, $seq, Op::Sc, $word, 0, $wrote, Bits::None, &[])
    };
    ($hart:literal : $seq:literal, $word:ident = $wrote:literal, $bits:ident) => {
        row!($hart, $seq, Op::Sc, $word, 0, $wrote, Bits::$bits, &[])
    };
}

macro_rules! amo {
    ($hart:literal : $seq:literal, $word:ident, $read:literal, $wrote:literal) => {
        row!($hart, $seq, Op::Amo, $word, $read, $wrote, Bits::None, &[])
    };
    ($hart:literal : $seq:literal, $word:ident, $read:literal, $wrote:literal, $bits:ident) => {
        row!($hart, $seq, Op::Amo, $word, $read, $wrote, Bits::$bits, &[])
    };
}

macro_rules! other {
    ($hart:literal : $seq:literal, $op:expr) => {
        row!($hart, $seq, $op, 0, 0, 0, Bits::None, &[])
    };
    ($hart:literal : $seq:literal, $op:expr, $dep:ident) => {
        row!($hart, $seq, $op, 0, 0, 0, Bits::None, &[$dep])
    };
}

macro_rules! id {
    ($hart:literal : $seq:literal) => {
        Id { hart: $hart, seq: $seq }
    };
}

pub(crate) use amo;
pub(crate) use id;
pub(crate) use load;
pub(crate) use lr;
pub(crate) use other;
pub(crate) use row;
pub(crate) use sc;
pub(crate) use store;

/// The event of a row.
pub fn event_of(alloc: Global, row: &Row) -> Result<Event, NoMemory> {
    Ok(Event {
        id: Id {
            hart: row.hart,
            seq: row.seq,
        },
        op: row.op,
        word: row.word,
        read: row.read,
        wrote: row.wrote,
        acquire: row.bits == Bits::Acquire,
        release: row.bits == Bits::Release,
        deps: Deps::from_vec(Vec::from_slice(alloc, row.deps)?),
    })
}

/// The log of rows that come from one source.
pub fn log_of(alloc: Global, rows: &[Row]) -> Result<Vec<Entry>, NoMemory> {
    let mut log = Vec::new(alloc);
    for row in rows {
        log.push(Entry {
            source: 0,
            event: event_of(alloc, row)?,
        })?;
    }
    Ok(log)
}
