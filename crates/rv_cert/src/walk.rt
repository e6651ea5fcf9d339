//! The walks of certificates.
ghost use Rattle.std.specs.Prelude.{◌≡◌};
ghost use Rattle.rv_cert.specs.Certificates.{start_of};

use rv_event::{Id, Reason};

/// The id of the first step, or the walk's end: where an edge leads that these steps follow.
pub fn start_of(steps: &[(Id, Reason)], end: Id) -> Id
    ensures { result ≡ start_of steps.now end }
{
    match steps {
        [] => end,
        [step, ..] => step.0,
    }
}
