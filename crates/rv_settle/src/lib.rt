//! When an operation of a log is settled: nothing that an active hart can still do comes before it.
//!
//! Some operations of a hart stand before all of its later loads, or all of its later stores,
//! because a rule of preserved program order already has all that it asks for. An operation is
//! settled where edges lead from it to such operations of every active hart. Whatever these harts
//! do next, no lawful order has a new event before it.
//!
//! - `laws`: what the definitions say.
//! - `specs/`: operations that stand before what comes (`Bars`), settled operations (`Settled`),
//!   what may be forgotten (`Cuts`), how an event can come before it (`Past`), what an event asks
//!   of it (`Fitting`), what is kept, with its numbers counted anew (`Windows`), the laws (`Laws`).
//!
//! It stands on `rv_event`, `rv_cert` and `rv_cover`, and has no code but the laws.
#![tactic(auto)]

mod laws;

pub use laws::{
    cut_stays, cuts_compose, kept_decides, nothing_comes_before_settled, orders_join,
    pairs_are_kept, pairs_stay_kept, past_is_seen, pasts_add, settled_stays, window_decides,
    windows_are_lawful, windows_are_well_formed, windows_compose, windows_have_the_edges,
    windows_have_the_faults, windows_have_the_stale_pairs,
};
