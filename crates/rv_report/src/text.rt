//! The report as text.
ghost use Rattle.std.specs.Prelude.{◌≡◌, ◌++◌, Err, IfOk, OnOk, string_bytes};
ghost use Rattle.std.specs.Io.KnownBytes.{Appends};
ghost use Rattle.rv_report.specs.declared.fault.ReportFault.TheVariants as fault;
ghost use Rattle.rv_report.specs.Texts.{circle_lines, certificate_text, forbidden_text, malformed_text};
ghost use Rattle.rv_report.specs.Texts.{report_text};
ghost use Rattle.rv_report.specs.Writing.{IsCutShort};

use crate::fault::ReportFault;
use crate::outcome::Outcome;
use crate::writing::write_text;
use rv_cert::{Certificate, Forbidden, Malformed, start_of};
use rv_event::{Id, NoMemory, Reason};
use std::alloc::Global;
use std::fmt::Write as _;
use std::io::Write;

/// Adds a line for each edge of a circle.
fn push_circle(text: &mut String, steps: &[(Id, Reason)]) -> Result<(), NoMemory>
    ensures { OnOk result (string_bytes text.new ≡ string_bytes text.old ++ circle_lines steps.now) }
{
    let Some((first, _)) = steps.split_first() else {
        return Ok(());
    };
    let end = first.0;
    let mut rest = steps;
    'edges: while let Some((step, after)) = rest.split_first() {
        let (from, reason) = *step;
        let to = start_of(after, end);
        writeln!(text, "{from} {reason} {to}")?;
        rest = after;
    }
    Ok(())
}

/// Adds the lines of a certificate.
fn push_certificate(text: &mut String, certificate: &Certificate) -> Result<(), NoMemory>
    ensures { OnOk result
        (string_bytes text.new ≡ string_bytes text.old ++ certificate_text certificate.now) }
{
    match certificate {
        Certificate::Circle(circle) => {
            let steps = circle.as_slice();
            let count = steps.len();
            writeln!(text, "circle of {count}")?;
            push_circle(text, steps)
        }
        Certificate::Stale { load, store } => {
            writeln!(text, "stale: {load} reads below {store}")?;
            Ok(())
        }
    }
}

/// The lines of a certificate: `circle of K` and a line for each edge, or `stale: ..`. An edge leads
/// from the id before its reason to the one behind it.
///
/// # Errors
/// Memory ran out; the certificate stays as it is.
pub fn certificate_text(alloc: Global, certificate: &Certificate) -> Result<String, NoMemory>
    ensures { IfOk result (λ text. string_bytes text ≡ certificate_text certificate.now) }
{
    let mut text = String::new(alloc);
    push_certificate(&mut text, certificate)?;
    Ok(text)
}

/// The report of a forbidden log.
fn forbidden_text(alloc: Global, forbidden: &Forbidden) -> Result<String, NoMemory>
    ensures { IfOk result (λ text. string_bytes text ≡ forbidden_text forbidden.now) }
{
    let refused = forbidden.refused();
    let after = forbidden.evidence().len() - 1;
    let mut text = format!(in alloc; "forbidden: {refused} after {after} events\n")?;
    push_certificate(&mut text, forbidden.certificate())?;
    Ok(text)
}

/// The report of a malformed log.
fn malformed_text(alloc: Global, malformed: &Malformed) -> Result<String, NoMemory>
    ensures { IfOk result (λ text. string_bytes text ≡ malformed_text malformed.now) }
{
    let refused = malformed.refused();
    let after = malformed.evidence().len() - 1;
    let fault = malformed.fault();
    let number = fault.number();
    Ok(format!(in alloc; "malformed: {refused} after {after} events: fault {number} {fault}\n")?)
}

/// The report of an outcome, each line with its line feed.
///
/// # Errors
/// Memory ran out; the outcome stays as it is.
pub fn report_text(alloc: Global, outcome: &Outcome) -> Result<String, NoMemory>
    ensures { IfOk result (λ text. string_bytes text ≡ report_text outcome.now) }
{
    match outcome {
        Outcome::Allowed {
            events,
            operations,
            waiting,
        } => Ok(format!(in alloc;
            "allowed: {events} events, {operations} operations, {waiting} waiting loads\n"
        )?),
        Outcome::Forbidden(forbidden) => forbidden_text(alloc, forbidden),
        Outcome::Malformed(malformed) => malformed_text(alloc, malformed),
    }
}

/// Writes the report of an outcome, each line with its line feed.
///
/// # Errors
/// - `Write` where the writer failed or took no byte: it then has a part of the text, from its
///   first byte on. A failed write is not tried again.
/// - `NoMemory` where the text could not be had: the writer is then as it was.
pub fn report<W: Write>(alloc: Global, writer: &mut W, outcome: &Outcome) -> Result<(), ReportFault>
    ensures written { OnOk result
        (Appends (W.contents writer.old) (W.contents writer.new) (report_text outcome.now)) }
    ensures cut { result ≡ Err fault.Write →
        IsCutShort (W.contents writer.old) (W.contents writer.new) (report_text outcome.now) }
    ensures untouched { result ≡ Err fault.NoMemory → writer.new ≡ writer.old }
{
    let text = report_text(alloc, outcome)?;
    write_text(writer, text.as_str())
}
