//! What a seat knows of the table. No value of these types is made: they stand in proofs alone,
//! where an array of a type that no value has is a list of any length.

/// A fill that a seat has declared done, or a generation that it has freed.
pub struct Mark {
    /// The slot.
    pub slot: u64,
    /// The generation.
    pub generation: u64,
}

/// What a seat knows of a fill: those words that it put or got, by their places. It is whole where
/// it has all 58.
pub struct Record {
    /// The slot.
    pub slot: u64,
    /// The generation.
    pub generation: u64,
    /// The words, by their places.
    pub words: [Option<u64>; 0],
}

/// What a seat is doing.
pub enum SeatState {
    /// Nothing.
    Idle,
    /// It fills this slot, and has put these words.
    Filling(u64, [Option<u64>; 0]),
    /// It has pinned this slot, of this generation.
    Pinned(u64, u64),
    /// It has its pin on this slot, and may not read it.
    Stray(u64),
}

/// The kinds of step.
pub enum Kind {
    /// A claim.
    Claiming,
    /// A put.
    Putting,
    /// A publish.
    Publishing,
    /// A pin.
    Pinning,
    /// A get.
    Getting,
    /// A done.
    Finishing,
    /// An unpin.
    Unpinning,
    /// A free.
    Freeing,
}

/// A seat's last step.
pub struct Last {
    /// Its kind.
    pub kind: Kind,
    /// The slot.
    pub slot: u64,
    /// The word that the exchange found; a put's store finds none.
    pub found: Option<u64>,
}

/// What one seat knows.
pub struct SeatView {
    /// Its number.
    pub number: u64,
    /// What it is doing.
    pub state: SeatState,
    /// What it knows of fills, the latest first.
    pub records: [Record; 0],
    /// The fills that it declared done, the latest first.
    pub dones: [Mark; 0],
    /// The generations that it freed, the latest first.
    pub frees: [Mark; 0],
    /// Its last step, if it has made one.
    pub last: Option<Last>,
}

/// What one holder of the table knows: one seat; more while seats are split off or joined; none
/// where a join took it.
pub struct View {
    /// The seats.
    pub seats: [SeatView; 0],
}
