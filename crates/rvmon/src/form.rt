//! The form in which an outcome is printed.
ghost use Rattle.std.specs.Prelude.{◌≡◌};
ghost use Rattle.rvmon.specs.Starting.{IsFormAsked, extent_asked};

use crate::backing::{Backing, backing_of};
use crate::ending::Ending;
use crate::opening::Opener;
use rv_cli::Asked;
use rv_coverage_report::Extent;
use std::alloc::Global;

/// The form in which an outcome is printed.
#[derive(Drop)]
pub enum Form {
    /// The report as text.
    Text,
    /// The report as text, and behind it all that was counted of an allowed trace.
    Covered,
    /// The report as a line of JSON.
    Json,
    /// That, with why an event was refused.
    JsonExplained(Backing),
    /// The report as text, and behind it why an event or a row was refused, or so much of what was
    /// counted of an allowed trace.
    Explained(Backing, Extent),
    /// A picture in place of the report.
    Picture(Backing),
}

/// How much is told of what was counted: all where that is asked for.
fn extent_of(asked: &Asked) -> Extent
    ensures { result ≡ extent_asked asked.now }
{
    if asked.coverage {
        Extent::All
    } else {
        Extent::Met
    }
}

/// The form that is asked for: JSON where it is asked for, with an explanation or without, else a
/// picture where that is, else an explanation where that is.
pub fn form_of<O: Opener>(alloc: Global, opener: &O, asked: Asked, ending: &Ending) -> Form
    ensures { IsFormAsked (O.known opener.now) asked ending.now result }
{
    let (json, svg, explain) = (asked.json, asked.svg, asked.explain);
    let extent = extent_of(&asked);
    if json && !explain {
        return Form::Json;
    }
    if !json && !svg && !explain {
        return match extent {
            Extent::All => Form::Covered,
            Extent::Met => Form::Text,
        };
    }
    let backing = backing_of(alloc, opener, asked, ending);
    if json {
        Form::JsonExplained(backing)
    } else if svg {
        Form::Picture(backing)
    } else {
        Form::Explained(backing, extent)
    }
}
