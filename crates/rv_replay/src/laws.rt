//! Laws over the definitions alone. Each function does nothing: its contract is the law.
ghost use Rattle.rv_replay.specs.Replays.{AllowedWhereConsistent};

/// A pass over entries answers allowed exactly where they are a well formed log that has a lawful
/// order.
pub fn allowed_where_consistent()
    ensures { AllowedWhereConsistent }
{}
