//! The law by which links may be left out. The function does nothing: its contract is the law.
ghost use Rattle.rv_cover.specs.Laws.{CarriedLinksCover};

/// Where kept links cover every edge of a history, and those listed for a new event carry its
/// edges, the two together cover every edge of the history with the event. Of the edges of the new
/// event only those may be left out that an older event splits.
pub fn carried_links_cover()
    ensures { CarriedLinksCover }
{}
