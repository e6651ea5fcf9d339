//! The events of a recorded execution, the definitions of the memory model over them, and a plain
//! program that decides each definition.
//!
//! - [`event`], [`reason`], [`fault`], [`memory_model`]: the types that every other crate speaks
//!   of.
//! - `specs/`: the definitions, one file a topic, each with the section of the RISC-V manual that
//!   it restates. They are relations over lists of events, and take the memory model as a
//!   parameter.
//! - [`search`], [`relations`], [`carriers`], [`rules`], [`preserved`], [`edges`], [`faults`]: the
//!   reference implementation. It takes no memory, and each function is exact against its definition.
//!   [`context`] has the faults of an event by what a log tells of it, for the reference
//!   implementation's scans and for whoever keeps an index.
//! - [`laws`]: what the definitions say of one another.
//! - `text`: the row of a trace that an event is printed as.
//!
//! It stands on std and on the sets of `rv_rows`. Its one contract to all others: what the reference
//! implementation answers is what the definition says.
#![tactic(auto)]

mod carriers;
mod context;
mod edges;
mod event;
mod fault;
mod faults;
mod laws;
mod memory_model;
mod no_memory;
mod preserved;
mod reason;
mod relations;
mod rules;
mod search;
mod text;

pub use carriers::{carriers_of, depends_by, depends_through, is_carrier};
pub use context::{Context, find_deps_fault, first_fault, is_bad_dependency};
pub use edges::{find_reason, is_edge, is_stale};
pub use event::{Dep, DepKind, Deps, Entry, Event, Id, Op, Set, is_same};
pub use fault::Fault;
pub use faults::{find_event_fault, find_fault, find_first_fault, is_well_formed};
pub use laws::{
    edges_stay, logs_are_bounded, merges_are_well_formed, merges_share_orders,
    new_edges_end_at_the_new_event, without_carriers_dependencies_are_listed,
};
pub use memory_model::MemoryModel;
pub use no_memory::NoMemory;
pub use preserved::{is_preserved_by, lowest_rule};
pub use reason::{Link, Reason};
pub use relations::{
    depends_on, does_order, is_acquire, is_fenced, is_paired, is_rcsc, is_release,
};
pub use rules::{does_return, is_overlapping_store, reads_atomic_write};
pub use search::{find_named, find_writer, is_between, is_earlier};
