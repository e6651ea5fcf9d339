//! Laws over the definitions alone. Each function does nothing: its contract is the law.
ghost use Rattle.rv_run.specs.Sources.{PassesAgree, RunsAgree};

/// What is true of sources whose bytes are known agrees: no run over them is allowed where another
/// run over them, or a pass over their entries in whatever merge, is refused, as forbidden or as
/// malformed. Nor is such a pass allowed where a run is refused.
pub fn outcomes_agree()
    ensures runs { RunsAgree }
    ensures passes { PassesAgree }
{}
