//! Laws over the definitions alone. Each function does nothing: its contract is the law.
ghost use Rattle.rv_past.specs.Laws.{VersionsTellThePast};

/// An event comes before the past of a log, as `rv_settle` says it, exactly where it comes before the
/// events that are of the past.
pub fn versions_tell_the_past()
    ensures { VersionsTellThePast }
{}
