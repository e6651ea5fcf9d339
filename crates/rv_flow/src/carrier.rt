//! A row that stands for several.
use rv_rows::Row;

/// Some rows of a hart by their numbers, and the events behind them: those of the rows that are
/// events, and those behind the rows that are carriers.
#[derive(Drop)]
pub struct PartList {
    /// The numbers of the rows.
    pub parts: Vec<u32>,
    /// The events behind them.
    pub events: Row,
}

/// A row that lists others, so that a later row names it for all of them. It orders nothing itself.
#[derive(Drop)]
pub struct Carrier {
    /// Its number among the rows of its hart.
    pub number: u32,
    /// What it lists: at most eight rows before it.
    pub list: PartList,
}
