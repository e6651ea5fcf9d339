//! Laws over the definitions alone. Each function does nothing: its contract is the law.
ghost use Rattle.rv_cert.specs.Laws.{NoneLawful, EdgesSuffice, RefusalIsFinal};

/// A certificate of a well formed log leaves no lawful order, under either model.
pub fn none_lawful()
    ensures { NoneLawful }
{}

/// Where no pair of a well formed log is stale, an order in which every edge goes forward is
/// lawful, under either model.
pub fn edges_suffice()
    ensures { EdgesSuffice }
{}

/// A certificate leaves no lawful order for any well formed log that continues this one, under
/// either model.
pub fn refusal_is_final()
    ensures { RefusalIsFinal }
{}
