//! The JSON report of an outcome with what is told beside it.
ghost use Rattle.std.specs.Prelude.{◌≡◌, false, Err, IfOk, OnOk, codes, map, option_map, string_bytes};
ghost use Rattle.std.specs.Option.{option_copied};
ghost use Rattle.std.specs.Io.KnownBytes.{Appends};
ghost use Rattle.serde_json.specs.Data.{object, string};
ghost use Rattle.serde_json.specs.View.{members_view, view};
ghost use Rattle.serde_json.specs.Written.{has_float};
ghost use Rattle.rv_event.specs.Texts.{◌⋯◌};
ghost use Rattle.rv_report.specs.Texts.{line_feed};
ghost use Rattle.rv_report.specs.Writing.{IsCutShort};
ghost use Rattle.rv_report.specs.declared.fault.ReportFault.TheVariants as fault;
ghost use Rattle.rv_report.specs.declared.outcome.Outcome.TheVariants as outcome;
ghost use Rattle.rv_coverage_report.specs.JsonData.{allowed_members, and_told, counts_data, coverage_data};
ghost use Rattle.rv_coverage_report.specs.JsonData.{strength_data, told_data, told_json_text, wait_data};

use rv_coverage::{Count, Coverage, Wait};
use rv_event::NoMemory;
use rv_replay::Strength;
use rv_report::{Outcome, ReportFault, report_json, write_text};
use serde_json::{Map, Value, json, put};
use std::alloc::{AllocError, Global};
use std::io::Write;

/// The counts of a group, each under its name.
fn counts_value(alloc: Global, counts: &[Count]) -> Result<Value, AllocError>
    ensures { IfOk result (λ v. view v ≡ counts_data counts.now) }
{
    let mut members = Map::new(alloc);
    let mut rest = counts;
    'counts: while let Some((counted, after)) = rest.split_first() {
        let Count { feature, count } = *counted;
        let name = feature.to_string(alloc)?;
        let count = json!(in alloc; count)?;
        put(&mut members, alloc, name.as_str(), count)?;
        rest = after;
    }
    Ok(Value::Object(members))
}

/// A load that waits.
fn wait_value(alloc: Global, wait: Wait) -> Result<Value, AllocError>
    ensures { IfOk result (λ v. view v ≡ wait_data wait) }
{
    let Wait { id, word, version } = wait;
    let event = id.to_string(alloc)?;
    json!(in alloc; {"event": event.as_str(), "version": version, "word": word})
}

/// Loads that wait.
fn wait_values(alloc: Global, waits: &[Wait]) -> Result<Vec<Value>, AllocError>
    ensures { IfOk result (λ vs. map view vs.items ≡ map wait_data waits.now) }
{
    let mut values = Vec::new(alloc);
    'waits: for wait in waits {
        values.push(wait_value(alloc, *wait)?)?;
    }
    Ok(values)
}

/// What of the model a log has exercised.
fn coverage_value(alloc: Global, coverage: &Coverage) -> Result<Value, AllocError>
    ensures { IfOk result (λ v. view v ≡ coverage_data coverage.now) }
{
    let events = counts_value(alloc, coverage.events.as_slice())?;
    let harts = coverage.harts;
    let links = counts_value(alloc, coverage.links.as_slice())?;
    let pairs = coverage.pairs;
    let reads = counts_value(alloc, coverage.reads.as_slice())?;
    let waiting = wait_values(alloc, coverage.waiting.as_slice())?;
    json!(in alloc; {
        "events": events,
        "harts": harts,
        "links": links,
        "pairs": pairs,
        "reads": reads,
        "waiting": Value::Array(waiting)
    })
}

/// How much the loads of a log test.
fn strength_value(alloc: Global, strength: Strength) -> Result<Value, AllocError>
    ensures { IfOk result (λ v. view v ≡ strength_data strength) }
{
    let Strength { tried, refused } = strength;
    json!(in alloc; {"refused": refused, "tried": tried})
}

/// The members of the report of accepted events.
fn allowed_members(
    alloc: Global,
    events: usize,
    operations: usize,
    waiting: usize,
) -> Result<Map<String, Value>, AllocError>
    ensures { IfOk result (λ ms.
        members_view ms.entries ≡ allowed_members events operations waiting) }
{
    let mut members = Map::new(alloc);
    put(&mut members, alloc, "events", json!(in alloc; events)?)?;
    put(
        &mut members,
        alloc,
        "operations",
        json!(in alloc; operations)?,
    )?;
    put(&mut members, alloc, "outcome", json!(in alloc; "allowed")?)?;
    put(&mut members, alloc, "waiting", json!(in alloc; waiting)?)?;
    Ok(members)
}

/// Adds what the events have exercised, if it was counted.
fn put_coverage(
    members: &mut Map<String, Value>,
    alloc: Global,
    coverage: Option<&Coverage>,
) -> Result<(), AllocError>
    ensures { OnOk result (members_view members.new.entries
        ≡ and_told (codes "coverage") (option_map coverage_data (option_copied coverage.entry))
        (members_view members.old.entries)) }
{
    if let Some(coverage) = coverage {
        let coverage = coverage_value(alloc, coverage)?;
        put(members, alloc, "coverage", coverage)?;
    }
    Ok(())
}

/// Adds what their run lacks, if it lacks anything.
fn put_incomplete(
    members: &mut Map<String, Value>,
    alloc: Global,
    incomplete: Option<&str>,
) -> Result<(), AllocError>
    ensures { OnOk result (members_view members.new.entries
        ≡ and_told (codes "incomplete") (option_map string (option_copied incomplete.entry))
        (members_view members.old.entries)) }
{
    if let Some(incomplete) = incomplete {
        let incomplete = json!(in alloc; incomplete)?;
        put(members, alloc, "incomplete", incomplete)?;
    }
    Ok(())
}

/// Adds how much their loads test, if that was found out.
fn put_strength(
    members: &mut Map<String, Value>,
    alloc: Global,
    strength: Option<Strength>,
) -> Result<(), AllocError>
    ensures { OnOk result (members_view members.new.entries
        ≡ and_told (codes "strength") (option_map strength_data strength)
        (members_view members.old.entries)) }
{
    if let Some(strength) = strength {
        let strength = strength_value(alloc, strength)?;
        put(members, alloc, "strength", strength)?;
    }
    Ok(())
}

/// The report of accepted events with these members, and what is told beside.
fn beside_value(
    alloc: Global,
    members: Map<String, Value>,
    coverage: Option<&Coverage>,
    incomplete: Option<&str>,
    strength: Option<Strength>,
) -> Result<Value, AllocError>
    ensures { IfOk result (λ v. view v ≡ object
        (and_told (codes "strength") (option_map strength_data strength)
        (and_told (codes "incomplete") (option_map string (option_copied incomplete.entry))
        (and_told (codes "coverage") (option_map coverage_data (option_copied coverage.entry))
        (members_view members.entries))))) }
{
    let mut members = members;
    put_coverage(&mut members, alloc, coverage)?;
    put_incomplete(&mut members, alloc, incomplete)?;
    put_strength(&mut members, alloc, strength)?;
    Ok(Value::Object(members))
}

/// The JSON report of an outcome, as a value: one object, its keys in ascending order and its
/// numbers whole. Of accepted events `coverage` says what they have exercised, `incomplete` what
/// their run lacks that would be complete, and `strength` how many older reads would be refused,
/// where these are given.
///
/// # Errors
/// `NoMemory` where a part of it could not be had.
#[tactic(auto, using(crate::proofs::NoFloats::told_none))]
pub fn told_json(
    alloc: Global,
    outcome: &Outcome,
    coverage: Option<&Coverage>,
    incomplete: Option<&str>,
    strength: Option<Strength>,
) -> Result<Value, NoMemory>
    ensures data { IfOk result (λ v. view v
        ≡ told_data outcome.now (option_copied coverage.entry) (option_copied incomplete.entry) strength) }
    ensures no_float { IfOk result (λ v. has_float (view v) ≡ false) }
{
    match outcome {
        Outcome::Allowed {
            events,
            operations,
            waiting,
        } => {
            let members = allowed_members(alloc, *events, *operations, *waiting)?;
            Ok(beside_value(alloc, members, coverage, incomplete, strength)?)
        }
        Outcome::Forbidden(_) | Outcome::Malformed(_) => report_json(alloc, outcome),
    }
}

/// The compact text of the JSON report, and a line feed.
fn line_of(
    alloc: Global,
    outcome: &Outcome,
    coverage: Option<&Coverage>,
    incomplete: Option<&str>,
    strength: Option<Strength>,
) -> Result<String, NoMemory>
    ensures { IfOk result (λ line. string_bytes line
        ≡ told_json_text outcome.now (option_copied coverage.entry) (option_copied incomplete.entry) strength
        ⋯ line_feed) }
{
    let value = told_json(alloc, outcome, coverage, incomplete, strength)?;
    let mut line = value.to_string(alloc)?;
    line.push('\n')?;
    Ok(line)
}

/// Writes the compact text of the JSON report with what is told beside it, and one line feed.
///
/// # Errors
/// - `Write` where the writer failed or took no byte: it then has a part of the text, from its
///   first byte on. A failed write is not tried again.
/// - `NoMemory` where the text could not be had: the writer is then as it was.
pub fn told_json_line<W: Write>(
    alloc: Global,
    writer: &mut W,
    outcome: &Outcome,
    coverage: Option<&Coverage>,
    incomplete: Option<&str>,
    strength: Option<Strength>,
) -> Result<(), ReportFault>
    ensures written { OnOk result (Appends (W.contents writer.old) (W.contents writer.new)
        (told_json_text outcome.now (option_copied coverage.entry) (option_copied incomplete.entry) strength
        ⋯ line_feed)) }
    ensures cut { result ≡ Err fault.Write → IsCutShort (W.contents writer.old) (W.contents writer.new)
        (told_json_text outcome.now (option_copied coverage.entry) (option_copied incomplete.entry) strength
        ⋯ line_feed) }
    ensures untouched { result ≡ Err fault.NoMemory → writer.new ≡ writer.old }
{
    let line = line_of(alloc, outcome, coverage, incomplete, strength)?;
    write_text(writer, line.as_str())
}
