//! Laws over the definitions alone. Each function does nothing: its contract is the law.
ghost use Rattle.rv_settle.specs.Laws.{CutStays, CutsCompose, KeptDecides, NothingComesBeforeSettled, OrdersJoin};
ghost use Rattle.rv_settle.specs.Laws.{PairsAreKept, PairsStayKept, PastIsSeen, PastsAdd, SettledStays, WindowDecides};
ghost use Rattle.rv_settle.specs.Laws.{WindowsAreLawful, WindowsAreWellFormed, WindowsCompose};
ghost use Rattle.rv_settle.specs.Laws.{WindowsHaveTheEdges, WindowsHaveTheFaults, WindowsHaveTheStalePairs};

/// No lawful order has a new event of an active hart before a settled operation, under either
/// model: where an edge leads from the one to the other, no order is lawful.
pub fn nothing_comes_before_settled()
    ensures { NothingComesBeforeSettled }
{}

/// A settled operation stays settled in every well formed log with one event more, under either
/// model.
pub fn settled_stays()
    ensures { SettledStays }
{}

/// A cut stays one with one event more of an active hart, as long as some order is lawful, under
/// either model.
pub fn cut_stays()
    ensures { CutStays }
{}

/// Where no pair of a well formed log is stale, any order of the past of a cut and any order of the
/// rest, in which edges go forward, make a lawful order together, under either model.
pub fn orders_join()
    ensures { OrdersJoin }
{}

/// An edge leads from a new event into the past of a cut exactly where the versions of the past
/// tell so, under either model.
pub fn past_is_seen()
    ensures { PastIsSeen }
{}

/// Where some order was lawful before a new event of an active hart, whether one is with it is told
/// by what is kept and by the versions of the past, under either model.
pub fn kept_decides()
    ensures { KeptDecides }
{}

/// A window has just the edges of its log between events that are kept, for the same reasons, under
/// either model. A window's numbers are counted from each hart's first event that is kept. No event
/// of the log is a carrier, and an SC that is kept is paired with an LR that is kept.
pub fn windows_have_the_edges()
    ensures { WindowsHaveTheEdges }
{}

/// A window has just the stale pairs of its log between events that are kept.
pub fn windows_have_the_stale_pairs()
    ensures { WindowsHaveTheStalePairs }
{}

/// Where some order was lawful before a new event of an active hart, some is with it exactly where
/// the event does not come before the past by its versions, and some order is lawful for the window
/// with it, under either model. So the window judges a log of any length, with the versions of the
/// past. No event of the log is a carrier, an SC that is kept is paired with an LR that is kept, and
/// no hart keeps more than 4,096 events.
pub fn window_decides()
    ensures { WindowDecides }
{}

/// The window of a well formed log is well formed, where an SC that is kept is paired with an LR
/// that is kept, and no hart keeps more than 4,096 events.
pub fn windows_are_well_formed()
    ensures { WindowsAreWellFormed }
{}

/// The past of a cut, with the past of a cut of its window, is the past of a cut, under either
/// model. So a run may forget more by its window alone.
pub fn cuts_compose()
    ensures { CutsCompose }
{}

/// Where some order is lawful for a log, some order is lawful for its window, under either model.
/// So a window is judged anew without a refusal. No event of the log is a carrier, an SC that is
/// kept is paired with an LR that is kept, and no hart keeps more than 4,096 events.
pub fn windows_are_lawful()
    ensures { WindowsAreLawful }
{}

/// The window of a window is the window of the log, from where both begin.
pub fn windows_compose()
    ensures { WindowsCompose }
{}

/// Where what a well formed log forgets leaves a hart with a reservation only if it has each LR, SC
/// and failed SC of the hart, an SC that is kept is paired with an LR that is kept.
pub fn pairs_are_kept()
    ensures { PairsAreKept }
{}

/// Where a log keeps the LR of each SC that it keeps, and its window does too, both together do.
pub fn pairs_stay_kept()
    ensures { PairsStayKept }
{}

/// The past of a log with the past of its window is what stands below the numbers of both.
pub fn pasts_add()
    ensures { PastsAdd }
{}

/// The fault of an entry over a log is its fault over the window, in the log's numbers, where the
/// event fits what was forgotten (`FitsPast`) and its number is one of 4,096 of the window. An SC
/// that is kept, or the entry's own, is paired with an LR that is kept. What is forgotten is no more
/// of the entry's hart than it has. No hart keeps more than 4,096 events.
pub fn windows_have_the_faults()
    ensures { WindowsHaveTheFaults }
{}
