//! Laws over the definitions alone. Each function does nothing: its contract is the law.
ghost use Rattle.rv_commits.specs.Rows.{RowsDependAsListed};
ghost use Rattle.rv_commits.specs.Whole.{RowsAreWhole};

/// Where carriers stand for what `rv_flow` says, a row depends on just the rows behind its list, in
/// the sense of the memory model's rules.
pub fn rows_depend_as_listed()
    ensures { RowsDependAsListed }
{}

/// Carriers apart, the rows that a hart gives are just those of its instructions, in their order:
/// what its calls promise step by step, for all of them.
pub fn rows_are_whole()
    ensures { RowsAreWhole }
{}
