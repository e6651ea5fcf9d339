//! The parts of which the table of rules is made: some of a hart's events.
ghost use Rattle.std.specs.Prelude.{◌≡◌, if◌then◌else◌};
ghost use Rattle.rv_hart.specs.declared.parts.Part.TheVariants as variant;

use rv_event::DepKind;

/// A set that a hart keeps of its events.
#[derive(Clone, Copy, Debug)]
pub enum SetName {
    /// The loads.
    Loads,
    /// The stores.
    Stores,
    /// What has an acquire annotation.
    Acquires,
    /// What has an RCsc annotation.
    Rcsc,
    /// What a fence orders before a later load.
    FencedForLoad,
    /// What a fence orders before a later store.
    FencedForStore,
    /// What a branch depends on.
    Controlled,
    /// What an address depends on.
    Addressed,
}

/// Some of a hart's events.
#[derive(Clone, Copy, Debug)]
pub enum Part {
    /// None.
    Nothing,
    /// Those of a set.
    In(SetName),
    /// The one with this number.
    One(u32),
    /// The memory operations on which the next event has such a dependency.
    Named(DepKind),
    /// Those on which the event with this number has one.
    NamedBy(u32, DepKind),
}

/// The part, where the test passes.
#[inline(always)]
pub fn part_if(test: bool, part: Part) -> Part
    ensures { result ≡ (if test then part else variant.Nothing) }
{
    if test { part } else { Part::Nothing }
}
