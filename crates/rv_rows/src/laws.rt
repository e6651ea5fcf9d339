//! The law of the sweep. The function does nothing: its contract is the law.
ghost use Rattle.rv_rows.specs.Laws.{SweepsThin};

/// Where the row of each number has that number, none above it, and with a number all that the row
/// of that number has, the steps of a sweep that goes on until no candidate is left take just the
/// candidates that stand in no other candidate's row, and each candidate stands in the row of one
/// that they took.
pub fn sweeps_thin()
    ensures { SweepsThin }
{}
