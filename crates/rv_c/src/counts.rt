//! Counts of events.

/// Counts of the accepted events.
#[repr(C)]
#[derive(Drop)]
pub struct RvmonCounts {
    /// All of them.
    pub events: usize,
    /// Those that are memory operations.
    pub operations: usize,
    /// The loads whose store has not come.
    pub waiting: usize,
}
