//! Why an entry was not taken.
use rv_cert::Forbidden;
use rv_endless::Beyond;
use rv_event::Fault;
use rv_past::PastEdge;

/// Why an entry was not taken. The log is that of the entries before it.
#[derive(Drop, Debug)]
pub enum Stop {
    /// It has this fault over the log.
    Malformed(Fault),
    /// A store that was forgotten wrote its version: the fault is `VersionTaken`, of a store whose
    /// name is known no more.
    Taken,
    /// No order is lawful for the log with it. The evidence is the window with the entry, in the
    /// window's numbers.
    Forbidden(Forbidden),
    /// No order is lawful for the log with it, as it comes before what was forgotten by this edge.
    BeforePast(PastEdge),
    /// It can't be judged. The log stays as it is.
    Beyond(Beyond),
    /// The run had stopped before.
    Stopped,
    /// Memory was refused. The log stays as it is, and the entry may be offered again.
    NoMemory,
}
