//! Why events go into no chunk.

/// Why events go into no chunk: the first of these that holds.
#[derive(Clone, Copy, PartialEq, Eq, Debug)]
pub enum PackFault {
    /// There is no event.
    Empty,
    /// There are more than 8 events.
    TooMany,
    /// The source is above 7, an event has more than 8 dependencies, or a dependency names a number
    /// of 2^30 or more.
    Range,
}
