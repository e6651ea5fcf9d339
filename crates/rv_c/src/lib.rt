//! The monitor as C calls it: `include/rvmon.h` documents each call.
//!
//! - `reply`: what each call says ([`reply::Reply`]), and its number.
//! - `event`: an event as C writes it.
//! - `counts`, `form`: counts of events, and the forms of a text.
//! - `calls`: what each call does; `exports`: the calls as C sees them.
//! - `slot`, `parts`: how C holds a monitor: a pointer, which owns the box that it came from.
//! - `specs/`: what the numbers of an event say, and what each reply tells.
//!
//! It stands on `rv_event` and on `rv_monitor`, and takes neither threads nor files. Its one
//! contract to C: a reply is the monitor's answer to the event that the numbers say, and every
//! other reply has a reason and changes nothing.
#![tactic(auto)]

mod calls;
mod counts;
mod event;
mod exports;
mod form;
mod parts;
mod reply;
mod slot;
