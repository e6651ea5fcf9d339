//! Certificates that no order is lawful, the checker that confirms them, verdicts, and the laws
//! that make them final.
//!
//! Whoever distrusts the rest of the monitor has to believe two things only: [`confirm`], which is a
//! few lines over the reference implementation of `rv_event`, and the definitions in `specs/`. That
//! a certificate of a well formed log leaves no lawful order, for it and for every well formed log
//! that continues it, is a law over the definitions alone ([`refusal_is_final`]).
//!
//! It stands on `rv_event`. Its one contract to the others: `check` says yes exactly for
//! certificates, and a [`Verdict`] holds what it says.
#![tactic(auto)]

mod certificate;
mod checker;
mod evidence;
mod forbidden;
mod laws;
mod malformed;
mod verdict;
mod walk;

pub use certificate::{Certificate, Circle};
pub use checker::{check, confirm};
pub use evidence::Evidence;
pub use forbidden::Forbidden;
pub use laws::{edges_suffice, none_lawful, refusal_is_final};
pub use malformed::Malformed;
pub use verdict::Verdict;
pub use walk::start_of;
