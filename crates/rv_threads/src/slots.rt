//! Both carriers of `rv_slots`, and its table call by call.
mod locked;
mod table;
