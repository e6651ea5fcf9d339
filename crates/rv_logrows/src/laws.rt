//! Laws over the definitions alone. Each function does nothing: its contract is the law.
ghost use Rattle.rv_logrows.specs.Whole.{HartsAreWhole};

use rv_commits::rows_are_whole;

/// Carriers apart, the rows that a log's harts give are just those of their instructions, each
/// hart's in their order: what its calls promise step by step, for all of them.
pub fn harts_are_whole()
    ensures { HartsAreWhole }
{
    rows_are_whole();
}
