//! The line of JSON that a trace of a list comes to.
ghost use Rattle.std.specs.Prelude.{◌≡◌, false, Err, IfOk, OnOk, codes, map, string_bytes};
ghost use Rattle.std.specs.Io.KnownBytes.{Appends};
ghost use Rattle.serde_json.specs.Data.{string};
ghost use Rattle.serde_json.specs.View.{members_view, view};
ghost use Rattle.serde_json.specs.Written.{compact_text, has_float};
ghost use Rattle.rv_event.specs.Texts.{◌⋯◌};
ghost use Rattle.rv_report.specs.Texts.{line_feed};
ghost use Rattle.rv_report.specs.Writing.{IsCutShort};
ghost use Rattle.rv_report.specs.declared.fault.ReportFault.TheVariants as fault;
ghost use Rattle.rv_list.specs.Lines.{and_number, failed_text, failure_data, judged_text, line_data};
ghost use Rattle.rv_list.specs.Lines.{trace_members};

use rv_event::NoMemory;
use rv_report::{ReportFault, write_text};
use serde_json::{Map, Value, json, put};
use std::alloc::{AllocError, Global};
use std::io::Write;

/// Why a trace has no report.
#[derive(Clone, Copy)]
pub struct Failure<'a> {
    /// The number of the source that is at fault, from 0, if it is one.
    pub source: Option<u8>,
    /// The row at fault: 0 is the header, and 1 the row below it.
    pub row: Option<u32>,
    /// The number of the fault, 1 to 13.
    pub fault: Option<u8>,
    /// Why, in words.
    pub text: &'a str,
}

/// The names of a trace's files.
fn names_value(alloc: Global, names: &[String]) -> Result<Vec<Value>, AllocError>
    ensures { IfOk result (λ vs. map view vs.items ≡ map string (map string_bytes names.now)) }
{
    let mut values = Vec::new(alloc);
    'names: for name in names {
        values.push(json!(in alloc; name.as_str())?)?;
    }
    Ok(values)
}

/// The members that each line has.
fn trace_members(
    alloc: Global,
    names: &[String],
    status: u8,
) -> Result<Map<String, Value>, AllocError>
    ensures { IfOk result (λ ms.
        members_view ms.entries ≡ trace_members (map string_bytes names.now) status) }
{
    let names = names_value(alloc, names)?;
    let mut members = Map::new(alloc);
    put(&mut members, alloc, "status", json!(in alloc; status)?)?;
    put(&mut members, alloc, "trace", Value::Array(names))?;
    Ok(members)
}

/// Adds a number, if it is known.
fn put_number(
    members: &mut Map<String, Value>,
    alloc: Global,
    name: &str,
    number: Option<u32>,
) -> Result<(), AllocError>
    ensures { OnOk result (members_view members.new.entries
        ≡ and_number name.now number (members_view members.old.entries)) }
{
    if let Some(number) = number {
        put(members, alloc, name, json!(in alloc; number)?)?;
    }
    Ok(())
}

/// What is wrong with a trace.
fn failure_value(alloc: Global, failure: Failure<'_>) -> Result<Value, NoMemory>
    ensures { IfOk result (λ v. view v ≡ failure_data
        failure.entry.source failure.entry.row failure.entry.fault failure.entry.text.now) }
{
    let mut members = Map::new(alloc);
    put(&mut members, alloc, "text", json!(in alloc; failure.text)?)?;
    put_number(&mut members, alloc, "source", failure.source.map(u32::from))?;
    put_number(&mut members, alloc, "row", failure.row)?;
    put_number(&mut members, alloc, "fault", failure.fault.map(u32::from))?;
    Ok(Value::Object(members))
}

/// A line, as a value.
fn line_value(
    alloc: Global,
    names: &[String],
    status: u8,
    name: &str,
    what: Value,
) -> Result<Value, NoMemory>
    ensures { IfOk result (λ v.
        view v ≡ line_data name.now (view what) (map string_bytes names.now) status) }
{
    let mut members = trace_members(alloc, names, status)?;
    put(&mut members, alloc, name, what)?;
    Ok(Value::Object(members))
}

/// The compact text of a line, and a line feed.
#[tactic(auto, using(crate::proofs::NoFloats::line_none))]
fn line_of(
    alloc: Global,
    names: &[String],
    status: u8,
    name: &str,
    what: Value,
) -> Result<String, NoMemory>
    requires { has_float (view what) ≡ false }
    ensures { IfOk result (λ line. string_bytes line ≡
        compact_text (line_data name.now (view what) (map string_bytes names.now) status) ⋯ line_feed) }
{
    let value = line_value(alloc, names, status, name, what)?;
    let mut line = value.to_string(alloc)?;
    line.push('\n')?;
    Ok(line)
}

/// Writes the line of a trace that was judged: the names of its files, the status and the report.
///
/// # Errors
/// - `Write` where the writer failed or took no byte: it then has a part of the line, from its
///   first byte on. A failed write is not tried again.
/// - `NoMemory` where the line could not be had: the writer is then as it was.
pub fn judged_line<W: Write>(
    alloc: Global,
    writer: &mut W,
    names: &[String],
    status: u8,
    report: Value,
) -> Result<(), ReportFault>
    requires { has_float (view report) ≡ false }
    ensures written { OnOk result (Appends (W.contents writer.old) (W.contents writer.new)
        (judged_text (map string_bytes names.now) status (view report) ⋯ line_feed)) }
    ensures cut { result ≡ Err fault.Write → IsCutShort (W.contents writer.old) (W.contents writer.new)
        (judged_text (map string_bytes names.now) status (view report) ⋯ line_feed) }
    ensures untouched { result ≡ Err fault.NoMemory → writer.new ≡ writer.old }
{
    let line = line_of(alloc, names, status, "report", report)?;
    write_text(writer, line.as_str())
}

/// Writes the line of a trace that has no report: the names of its files, the status and why.
///
/// # Errors
/// As [`judged_line`].
pub fn failed_line<W: Write>(
    alloc: Global,
    writer: &mut W,
    names: &[String],
    status: u8,
    failure: Failure<'_>,
) -> Result<(), ReportFault>
    ensures written { OnOk result (Appends (W.contents writer.old) (W.contents writer.new)
        (failed_text (map string_bytes names.now) status (failure_data failure.entry.source
        failure.entry.row failure.entry.fault failure.entry.text.now) ⋯ line_feed)) }
    ensures cut { result ≡ Err fault.Write → IsCutShort (W.contents writer.old) (W.contents writer.new)
        (failed_text (map string_bytes names.now) status (failure_data failure.entry.source
        failure.entry.row failure.entry.fault failure.entry.text.now) ⋯ line_feed) }
    ensures untouched { result ≡ Err fault.NoMemory → writer.new ≡ writer.old }
{
    let what = failure_value(alloc, failure)?;
    let line = line_of(alloc, names, status, "fault", what)?;
    write_text(writer, line.as_str())
}
