//! Faults of the window, in the numbers of the log.
ghost use Rattle.std.specs.Prelude.{◌≡◌};
ghost use Rattle.rv_cut.specs.Cuts.{first_of};
ghost use Rattle.rv_settle.specs.Fitting.{in_full};
ghost use Rattle.rv_endless.specs.Runs.{HasNumber};

use rv_cut::Cut;
use rv_event::{Fault, Id};

/// The fault over the window, as it reads over the log: its numbers are counted from the hart's first
/// event, where they are numbers of 32 bits.
pub(crate) fn full_fault(firsts: &Cut, hart: u8, fault: Fault) -> Fault
    ensures { HasNumber (in_full (first_of firsts.now) hart fault) → result ≡ in_full (first_of firsts.now) hart fault }
{
    match fault {
        Fault::Sequence(number) => Fault::Sequence(number.saturating_add(firsts.first(hart))),
        Fault::VersionTaken(id) => Fault::VersionTaken(Id {
            hart: id.hart,
            seq: id.seq.saturating_add(firsts.first(id.hart)),
        }),
        other => other,
    }
}
