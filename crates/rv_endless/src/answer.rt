//! What an offer to a run came to.
use rv_cert::Forbidden;
use rv_event::Fault;
use rv_past::PastEdge;

/// What an offer came to. The log is that of all entries that were accepted.
#[derive(Drop, Debug)]
pub enum Answer {
    /// The log has grown by the entry, and some order is lawful for it.
    Accepted,
    /// The entry has this fault over the log; the run has stopped.
    Malformed(Fault),
    /// A store that was forgotten wrote the version: the fault is `VersionTaken`, of a store whose
    /// name is known no more; the run has stopped.
    Taken,
    /// No order is lawful for the log followed by the entry; the run has stopped. The evidence is
    /// the window with the entry, in the window's numbers.
    Forbidden(Forbidden),
    /// No order is lawful for the log followed by the entry, as it comes before what was forgotten
    /// by this edge; the run has stopped.
    BeforePast(PastEdge),
    /// The entry can't be judged. Nothing changed.
    Beyond(Beyond),
    /// The run had stopped. Nothing changed.
    Stopped,
    /// Memory was refused. The entry may be offered again.
    NoMemory,
}

/// Why an entry can't be judged.
#[derive(Clone, Copy, PartialEq, Eq, Debug)]
pub enum Beyond {
    /// Its hart isn't one of those that are active.
    Inactive,
    /// It is a carrier.
    Carrier,
    /// The window has 4,096 events of its hart.
    WindowFull,
    /// Its hart has as many events as there are numbers.
    LastNumber,
    /// It is an SC, and the LR with which it would be paired was forgotten: so many events of its hart
    /// stand between them as a cut waits for, or more.
    LrForgotten,
}
