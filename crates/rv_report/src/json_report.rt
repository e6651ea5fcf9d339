//! The report as JSON.
ghost use Rattle.std.specs.Prelude.{◌≡◌, false, Err, IfOk, OnOk, map, string_bytes};
ghost use Rattle.std.specs.Io.KnownBytes.{Appends};
ghost use Rattle.serde_json.specs.View.{view};
ghost use Rattle.serde_json.specs.Written.{compact_text, has_float};
ghost use Rattle.rv_event.specs.Texts.{◌⋯◌, id_text};
ghost use Rattle.rv_report.specs.declared.fault.ReportFault.TheVariants as fault;
ghost use Rattle.rv_report.specs.Json.{json_text};
ghost use Rattle.rv_report.specs.JsonData.{allowed_data, edge_data, edges_data, stale_data};
ghost use Rattle.rv_report.specs.JsonData.{certificate_data, forbidden_data, malformed_data, report_data};
ghost use Rattle.rv_report.specs.Texts.{line_feed};
ghost use Rattle.rv_report.specs.Writing.{IsCutShort};

use crate::fault::ReportFault;
use crate::outcome::Outcome;
use crate::writing::write_text;
use rv_cert::{Certificate, start_of};
use rv_event::{Fault, Id, NoMemory, Reason};
use serde_json::{Value, json};
use std::alloc::{AllocError, Global};
use std::io::Write;

/// An edge, with its ends.
fn edge_value(alloc: Global, from: Id, reason: Reason, to: Id) -> Result<Value, AllocError>
    ensures { IfOk result (λ v. view v ≡ edge_data from reason to) }
{
    let from = from.to_string(alloc)?;
    let reason = reason.to_string(alloc)?;
    let to = to.to_string(alloc)?;
    json!(in alloc; {
        "from": from.as_str(),
        "reason": reason.as_str(),
        "to": to.as_str()
    })
}

/// The edges of a circle, in order.
fn edge_values(alloc: Global, steps: &[(Id, Reason)]) -> Result<Vec<Value>, AllocError>
    ensures { IfOk result (λ edges. map view edges.items ≡ edges_data steps.now) }
{
    let mut edges = Vec::new(alloc);
    let Some((first, _)) = steps.split_first() else {
        return Ok(edges);
    };
    let end = first.0;
    let mut rest = steps;
    'edges: while let Some((step, after)) = rest.split_first() {
        let (from, reason) = *step;
        let to = start_of(after, end);
        let edge = edge_value(alloc, from, reason, to)?;
        edges.push(edge)?;
        rest = after;
    }
    Ok(edges)
}

/// A stale pair.
fn stale_value(alloc: Global, load: Id, store: Id) -> Result<Value, AllocError>
    ensures { IfOk result (λ v. view v ≡ stale_data load store) }
{
    let load = load.to_string(alloc)?;
    let store = store.to_string(alloc)?;
    json!(in alloc; {"stale": {"load": load.as_str(), "store": store.as_str()}})
}

/// A certificate.
fn certificate_value(alloc: Global, certificate: &Certificate) -> Result<Value, AllocError>
    ensures { IfOk result (λ v. view v ≡ certificate_data certificate.now) }
{
    match certificate {
        Certificate::Circle(circle) => {
            let edges = edge_values(alloc, circle.as_slice())?;
            json!(in alloc; {"circle": Value::Array(edges)})
        }
        Certificate::Stale { load, store } => stale_value(alloc, *load, *store),
    }
}

/// The report of accepted events.
fn allowed_value(
    alloc: Global,
    events: usize,
    operations: usize,
    waiting: usize,
) -> Result<Value, AllocError>
    ensures { IfOk result (λ v. view v ≡ allowed_data events operations waiting) }
{
    json!(in alloc; {
        "events": events,
        "operations": operations,
        "outcome": "allowed",
        "waiting": waiting
    })
}

/// The report of a log that a certificate forbids.
fn forbidden_value(
    alloc: Global,
    after: usize,
    certificate: &Certificate,
    refused: Id,
) -> Result<Value, AllocError>
    ensures { IfOk result
        (λ v. view v ≡ forbidden_data after (certificate_data certificate.now) (id_text refused)) }
{
    let event = refused.to_string(alloc)?;
    let certificate = certificate_value(alloc, certificate)?;
    json!(in alloc; {
        "after": after,
        "certificate": certificate,
        "event": event.as_str(),
        "outcome": "forbidden"
    })
}

/// The report of a log whose last entry has a fault.
fn malformed_value(
    alloc: Global,
    after: usize,
    refused: Id,
    fault: Fault,
) -> Result<Value, AllocError>
    ensures { IfOk result (λ v. view v ≡ malformed_data after (id_text refused) fault) }
{
    let event = refused.to_string(alloc)?;
    let number = fault.number();
    let text = fault.to_string(alloc)?;
    json!(in alloc; {
        "after": after,
        "event": event.as_str(),
        "fault": number,
        "outcome": "malformed",
        "text": text.as_str()
    })
}

/// The report of an outcome.
fn value_of(alloc: Global, outcome: &Outcome) -> Result<Value, AllocError>
    ensures { IfOk result (λ v. view v ≡ report_data outcome.now) }
{
    match outcome {
        Outcome::Allowed {
            events,
            operations,
            waiting,
        } => allowed_value(alloc, *events, *operations, *waiting),
        Outcome::Forbidden(forbidden) => {
            let refused = forbidden.refused();
            let after = forbidden.evidence().len() - 1;
            forbidden_value(alloc, after, forbidden.certificate(), refused)
        }
        Outcome::Malformed(malformed) => {
            let refused = malformed.refused();
            let after = malformed.evidence().len() - 1;
            malformed_value(alloc, after, refused, malformed.fault())
        }
    }
}

/// The report of an outcome as a JSON value: one object, its keys in ascending order and its
/// numbers whole. So its `to_string` is exactly the compact text.
///
/// # Errors
/// `NoMemory` where a part of it could not be had; the outcome stays as it is.
#[tactic(auto, using(crate::proofs::JsonText::text_of_data, crate::proofs::JsonText::data_has_no_float))]
pub fn report_json(alloc: Global, outcome: &Outcome) -> Result<Value, NoMemory>
    ensures text { IfOk result (λ v. compact_text (view v) ≡ json_text outcome.now) }
    ensures data { IfOk result (λ v. view v ≡ report_data outcome.now) }
    ensures no_float { IfOk result (λ v. has_float (view v) ≡ false) }
{
    Ok(value_of(alloc, outcome)?)
}

/// The compact text of the JSON report, and a line feed.
fn line_of(alloc: Global, outcome: &Outcome) -> Result<String, NoMemory>
    ensures { IfOk result (λ line. string_bytes line ≡ json_text outcome.now ⋯ line_feed) }
{
    let value = report_json(alloc, outcome)?;
    let mut line = value.to_string(alloc)?;
    line.push('\n')?;
    Ok(line)
}

/// Writes the compact text of the JSON report, and one line feed.
///
/// # Errors
/// - `Write` where the writer failed or took no byte: it then has a part of the text, from its
///   first byte on. A failed write is not tried again.
/// - `NoMemory` where the text could not be had: the writer is then as it was.
pub fn report_json_line<W: Write>(
    alloc: Global,
    writer: &mut W,
    outcome: &Outcome,
) -> Result<(), ReportFault>
    ensures written { OnOk result
        (Appends (W.contents writer.old) (W.contents writer.new) (json_text outcome.now ⋯ line_feed)) }
    ensures cut { result ≡ Err fault.Write →
        IsCutShort (W.contents writer.old) (W.contents writer.new) (json_text outcome.now ⋯ line_feed) }
    ensures untouched { result ≡ Err fault.NoMemory → writer.new ≡ writer.old }
{
    let line = line_of(alloc, outcome)?;
    write_text(writer, line.as_str())
}
