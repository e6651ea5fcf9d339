//! What the instructions of a commit log make in a trace.
//!
//! Its modules:
//!
//! - [`made`]: the operation that an instruction makes.
//! - [`deps`]: the dependencies of a row, from what it lists.
//! - [`hart`]: the rows of a hart, instruction by instruction.
//! - [`awaited`]: the versions of a row, from the order of stores.
//! - [`pending`]: rows that wait for their versions.
//! - [`queue`]: the rows of a hart that wait, in their order.
//! - [`owns`]: the last store of a hart to each word.
//! - [`laws`]: what the rows of a hart depend on, by carriers, and that none is lost or added.
//! - `specs/`: the same by cases, with the manual's sections.
//!
//! It stands on `rv_insn`, `rv_event`, `rv_flow`, `rv_log` and `rv_memory`; proofs name `rv_rows`.
//! Its contracts to the others: an operation is what the cases say; a row lists just what its
//! instruction depends on, and has the versions that the order of stores gives it.
#![tactic(auto)]

mod awaited;
mod deps;
mod hart;
mod laws;
mod made;
mod owns;
mod pending;
mod queue;

pub use awaited::{Awaited, Versions, awaited_by, versions_of};
pub use hart::{HartRows, NewRows};
pub use laws::{rows_are_whole, rows_depend_as_listed};
pub use made::{Made, has_stored, made_by};
pub use owns::{Owns, does_store};
pub use pending::{Pending, Stage, ValueFault, Waiting, returned_by, waiting_by};
pub use queue::{RowFault, WaitingHart};
