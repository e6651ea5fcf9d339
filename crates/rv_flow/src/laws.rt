//! What a unit holds is what the chapter's relation says.
ghost use Rattle.rv_flow.specs.Laws.{DependenciesLead};

/// The chapter's relation between instructions holds exactly where what a register holds was
/// computed step by step.
pub fn dependencies_lead()
    ensures { DependenciesLead }
{}
