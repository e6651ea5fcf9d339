//! Laws over the definitions alone. Each function does nothing: its contract is the law.
ghost use Rattle.rv_event.specs.Laws.{MergesAreWellFormed, MergesShareOrders, LogsAreBounded, EdgesStay};
ghost use Rattle.rv_event.specs.Laws.{NewEdgesEndAtTheNewEvent, WithoutCarriersDependenciesAreListed};

/// Whether sources are well formed does not depend on how they are merged.
pub fn merges_are_well_formed()
    ensures { MergesAreWellFormed }
{}

/// The orders that are lawful for sources do not depend on how they are merged.
pub fn merges_share_orders()
    ensures { MergesShareOrders }
{}

/// A well formed log has at most 65,536 entries.
pub fn logs_are_bounded()
    ensures { LogsAreBounded }
{}

/// Edges stay when a log goes on.
pub fn edges_stay()
    ensures { EdgesStay }
{}

/// Where no event is a carrier, a dependency is one that an event lists.
pub fn without_carriers_dependencies_are_listed()
    ensures { WithoutCarriersDependenciesAreListed }
{}

/// A new edge has the new event at an end.
pub fn new_edges_end_at_the_new_event()
    ensures { NewEdgesEndAtTheNewEvent }
{}
