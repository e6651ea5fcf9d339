//! Laws over the definitions alone. Each function does nothing: its contract is the law.
ghost use Rattle.rv_memory.specs.Laws.{LoadsReturnOneVersion};

/// The order of stores leaves a load one version to return.
pub fn loads_return_one_version()
    ensures { LoadsReturnOneVersion }
{}
