//! Laws over the definitions alone. Each function does nothing: its contract is the law.
ghost use Rattle.rv_explain.specs.Laws.{ReasonsStandOnEvents};

/// Where rule 4, 11, 12 or 13 or an atomic reason holds of two events, there is an event on which
/// it stands. So [`crate::find_witness`] finds one for each edge of these reasons.
pub fn reasons_stand_on_events()
    ensures { ReasonsStandOnEvents }
{}
