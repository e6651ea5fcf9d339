//! The JSON report of an outcome, with the explanation of a refusal.
ghost use Rattle.std.specs.Prelude.{◌≡◌, false, Err, IfOk, OnOk, string_bytes};
ghost use Rattle.std.specs.Io.KnownBytes.{Appends};
ghost use Rattle.serde_json.specs.Data.{Data};
ghost use Rattle.serde_json.specs.View.{view};
ghost use Rattle.serde_json.specs.Written.{compact_text, has_float};
ghost use Rattle.rv_event.specs.Texts.{◌⋯◌};
ghost use Rattle.rv_report.specs.Texts.{line_feed};
ghost use Rattle.rv_report.specs.declared.fault.ReportFault.TheVariants as fault;
ghost use Rattle.rv_explain.specs.RowTexts.{said_by};
ghost use Rattle.rv_explain_json.specs.Reports.{IsCutExplained, IsExplained, IsExplainedLine, with_explanation};

use crate::explained::{explanation_value, fault_value};
use rv_cert::{Forbidden, Malformed};
use rv_event::NoMemory;
use rv_explain::{Sources, explain, refused_of};
use rv_report::{Outcome, ReportFault, report_json, write_text};
use serde_json::{Value, put};
use std::alloc::{AllocError, Global};
use std::io::Write;

/// The report with an explanation.
fn with_explanation(alloc: Global, report: Value, explanation: Value) -> Result<Value, AllocError>
    ensures { IfOk result (λ v. view v ≡ with_explanation (view explanation) (view report)) }
{
    match report {
        Value::Object(mut members) => {
            put(&mut members, alloc, "explanation", explanation)?;
            Ok(Value::Object(members))
        }
        _ => Ok(report),
    }
}

/// The JSON report of an outcome, as a value: one object, its keys in ascending order and its
/// numbers whole. Where an event was refused, `explanation` says why: the events in columns and the
/// steps, or what is wrong with the last event.
///
/// It costs what [`explain`] costs.
///
/// # Errors
/// Memory ran out; the outcome stays as it is.
pub fn explained_json(
    alloc: Global,
    sources: Sources<'_>,
    outcome: &Outcome,
) -> Result<Value, NoMemory>
    ensures data { IfOk result (λ v. IsExplained
        sources.entry.names.now (said_by sources.entry.texts.now) outcome.now (view v)) }
    ensures no_float { IfOk result (λ v. has_float (view v) ≡ false) }
{
    let report = report_json(alloc, outcome)?;
    match outcome {
        Outcome::Allowed { .. } => Ok(report),
        Outcome::Forbidden(forbidden) => {
            let explanation = explain(alloc, forbidden, sources.texts)?;
            let value = explanation_value(alloc, sources.names, &explanation)?;
            Ok(with_explanation(alloc, report, value)?)
        }
        Outcome::Malformed(malformed) => {
            let refused = refused_of(malformed.evidence(), sources.texts);
            let value = fault_value(alloc, sources.names, &refused, malformed.fault())?;
            Ok(with_explanation(alloc, report, value)?)
        }
    }
}

/// The compact text of the JSON report with an explanation, and a line feed.
fn line_of(alloc: Global, sources: Sources<'_>, outcome: &Outcome) -> Result<String, NoMemory>
    ensures { IfOk result (λ line. (d : Data)
        × IsExplained sources.entry.names.now (said_by sources.entry.texts.now) outcome.now d
        × (string_bytes line ≡ compact_text d ⋯ line_feed)) }
{
    let value = explained_json(alloc, sources, outcome)?;
    let mut line = value.to_string(alloc)?;
    line.push('\n')?;
    Ok(line)
}

/// Writes the compact text of the JSON report with an explanation, and one line feed.
///
/// # Errors
/// - `Write` where the writer failed or took no byte: it then has a part of the text, from its
///   first byte on. A failed write is not tried again.
/// - `NoMemory` where the text could not be had: the writer is then as it was.
pub fn explained_json_line<W: Write>(
    alloc: Global,
    writer: &mut W,
    sources: Sources<'_>,
    outcome: &Outcome,
) -> Result<(), ReportFault>
    ensures written { OnOk result
        (IsExplainedLine sources.entry.names.now (said_by sources.entry.texts.now) outcome.now
        (W.contents writer.old) (W.contents writer.new)) }
    ensures cut { result ≡ Err fault.Write →
        IsCutExplained sources.entry.names.now (said_by sources.entry.texts.now) outcome.now
        (W.contents writer.old) (W.contents writer.new) }
    ensures untouched { result ≡ Err fault.NoMemory → writer.new ≡ writer.old }
{
    let line = line_of(alloc, sources, outcome)?;
    write_text(writer, line.as_str())
}
