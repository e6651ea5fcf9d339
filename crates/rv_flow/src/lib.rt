//! Syntactic dependencies between the instructions of a hart, by the registers that they read and
//! write.
//!
//! - [`step`]: an instruction and the number of its event. [`flow`]: what each register, or part of
//!   a CSR, holds: the events from which its value was computed. So it answers on which events the
//!   address, the data and the control of the next instruction depend.
//! - [`trace`]: the rows that a hart has in a trace, their numbers, and the rows that each lists.
//!   [`carrier`], [`carriers`]: rows that only list others, for lists of more than eight.
//!   [`unlisted`]: why a row can't be made.
//! - [`laws`]: what registers hold is what the manual's definition says.
//! - `specs/`: the manual's definition (`Dependencies`); what a register holds, instruction by
//!   instruction (`Leading`); that the two agree (`Laws`); what a flow says (`Flows`); and which
//!   events are behind a row (`Carriers`, `Listed`, `Traces`).
//!
//! It stands on `rv_insn`, which says what an instruction reads, writes and carries, on `rv_rows`,
//! and on the kit's `thiserror`. Its contract to the others: what a flow answers, and what is behind
//! a row's lists, are just the events of the manual's definitions. The manual is "The RISC-V
//! Instruction Set Manual, Volume I: Unprivileged ISA", version 20191213.
#![tactic(auto)]

mod carrier;
mod carriers;
mod flow;
mod laws;
mod step;
mod trace;
mod unlisted;

pub use carrier::{Carrier, PartList};
pub use carriers::Lists;
pub use flow::Flow;
pub use laws::dependencies_lead;
pub use step::Step;
pub use trace::HartTrace;
pub use unlisted::Unlisted;
