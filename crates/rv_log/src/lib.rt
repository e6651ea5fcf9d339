//! Commit logs: what each record says.
//!
//! A commit log is what a design or a simulator tells of its harts, as CSV with the header
//! `kind,hart,order,pc,insn,addr,rdata,wdata,time`. `hart`, `order` and `time` are decimal numbers
//! of at most 20 digits, the others hexadecimal ones of at most 16, `insn` of 8. A record is:
//!
//! - `C`: an instruction retired. `order` is how many of its hart's retired before it, `insn` the
//!   word as it was fetched. An access to memory has its `addr`; and, where something shows them,
//!   `rdata` is what memory returned (of an SC the success code), and `wdata` what memory holds
//!   after it. `time` is when a load took its value, where the design knows it.
//! - `P`: the store of the instruction with this `hart` and `order` took effect, at `time`.
//! - `E`: the end. `order` is how many records there are before it.
//!
//! Its modules:
//!
//! - [`access`]: which accesses to memory the operations make.
//! - [`fault`]: what is wrong with a record.
//! - `number`, [`record`]: what a record says, or its first fault from the left.
//! - `specs/`: the grammar of a record by cases.
//!
//! It stands on `rv_insn`, and on the kit's `csv`. Its one contract to the others:
//! what is given is what the grammar makes of the record.
#![tactic(auto)]

mod access;
mod fault;
mod number;
mod record;

pub use access::{Access, AccessKind, access_of};
pub use fault::{Field, RecordFault};
pub use record::{Before, Performed, Record, Retired, record_of};
