//! The lines of a coverage.
ghost use Rattle.std.specs.Prelude.{◌≡◌, ◌++◌, IfOk, OnOk, string_bytes};
ghost use Rattle.rv_coverage_report.specs.Texts.{counts_text, coverage_text, is_told, numbers_text, waits_text};

use rv_coverage::{Count, Coverage, Wait};
use rv_event::NoMemory;
use std::alloc::Global;
use std::fmt::Write as _;

/// Which counts are told.
#[derive(Clone, Copy, PartialEq, Eq, Debug)]
pub enum Extent {
    /// Those above 0.
    Met,
    /// All of them.
    All,
}

/// Whether a count is told.
fn is_told(extent: Extent, count: usize) -> bool
    ensures { result ≡ is_told extent count }
{
    match extent {
        Extent::Met => count > 0,
        Extent::All => true,
    }
}

/// Adds a line for each count that is told, with the noun of its group.
fn push_counts(
    text: &mut String,
    group: &str,
    counts: &[Count],
    extent: Extent,
) -> Result<(), NoMemory>
    ensures { OnOk result
        (string_bytes text.new ≡ string_bytes text.old ++ counts_text group.now extent counts.now) }
{
    'counts: for counted in counts {
        let Count { feature, count } = *counted;
        if is_told(extent, count) {
            writeln!(text, "  {group} {feature}: {count}")?;
        }
    }
    Ok(())
}

/// Adds the lines of what is one number.
fn push_numbers(text: &mut String, harts: usize, pairs: usize) -> Result<(), NoMemory>
    ensures { OnOk result (string_bytes text.new ≡ string_bytes text.old ++ numbers_text harts pairs) }
{
    write!(
        text,
        "  harts: {harts}\n  pairs of harts' operations on one word: {pairs}\n"
    )?;
    Ok(())
}

/// Adds a line for each load that waits.
fn push_waits(text: &mut String, waits: &[Wait]) -> Result<(), NoMemory>
    ensures { OnOk result (string_bytes text.new ≡ string_bytes text.old ++ waits_text waits.now) }
{
    'waits: for wait in waits {
        writeln!(text, "  {wait}")?;
    }
    Ok(())
}

/// What of the model a log has exercised: an empty line, a heading, and a line for each count that
/// is told and each load that waits.
///
/// # Errors
/// `NoMemory` where the text could not be had.
pub fn coverage_text(alloc: Global, coverage: &Coverage, extent: Extent) -> Result<String, NoMemory>
    ensures { IfOk result (λ text. string_bytes text ≡ coverage_text extent coverage.now) }
{
    let mut text = String::from_str(alloc, "\ncoverage:\n")?;
    push_counts(&mut text, "event", coverage.events.as_slice(), extent)?;
    push_counts(&mut text, "link", coverage.links.as_slice(), extent)?;
    push_counts(&mut text, "read from", coverage.reads.as_slice(), extent)?;
    push_numbers(&mut text, coverage.harts, coverage.pairs)?;
    push_waits(&mut text, coverage.waiting.as_slice())?;
    Ok(text)
}
