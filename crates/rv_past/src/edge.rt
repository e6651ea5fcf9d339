//! An edge from a new event to one that was forgotten.

use rv_event::Reason;

/// Why a new event comes before one that was forgotten, and what is known of that one.
#[derive(Clone, Copy, PartialEq, Eq, Debug)]
pub struct PastEdge {
    /// The reason of the edge between the two: from-read, coherence, reads-from or atomic-out.
    pub reason: Reason,
    /// The word of the forgotten operation.
    pub word: u32,
    /// The version that it wrote; the one that it returned, where the reason is reads-from.
    pub version: u32,
}
