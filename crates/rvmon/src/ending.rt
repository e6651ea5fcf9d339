//! How the program ends: what it prints, and with which status.
ghost use Rattle.std.specs.Prelude.{◌≡◌, ◌⊎◌, false, IfOk, OnOk, option_map, string_bytes};
ghost use Rattle.std.specs.Io.KnownBytes.{Appends};
ghost use Rattle.serde_json.specs.View.{view};
ghost use Rattle.serde_json.specs.Written.{has_float};
ghost use Rattle.rv_event.specs.Texts.{◌⋯◌};
ghost use Rattle.rv_report.specs.Texts.{line_feed, report_text};
ghost use Rattle.rv_explain.specs.RowTexts.{said_by};
ghost use Rattle.rv_coverage_report.specs.JsonData.{told_data};
ghost use Rattle.rv_coverage_report.specs.declared.text.Extent.TheVariants as extent;
ghost use Rattle.rv_run.specs.Completeness.{missing_text};
ghost use Rattle.rvmon.specs.Endings.{IsJsonExplained, IsPrinted, IsPrintedBehind, IsPrintedPicture, IsSettled};
ghost use Rattle.rvmon.specs.Endings.{IsToldBehind, beside_text, covered_text, incomplete_text, json_of};
ghost use Rattle.rvmon.specs.Endings.{lines_text, tested_text};
ghost use Rattle.rvmon.specs.Endings.{status_of, status_of_kind};

use crate::backing::{Backing, Silence};
use crate::form::Form;
use clap::Error as ParseError;
use rv_cli::WordsFault;
use rv_coverage_report::{Extent, coverage_text, told_json, told_json_line};
use rv_event::NoMemory;
use rv_explain::{Sources, story};
use rv_explain_json::explained_json_line;
use rv_picture::picture;
use rv_report::{Outcome, ReportFault, report, write_text};
use rv_run::{Judged, RunFault};
use rv_trace::{FaultKind, FaultyField, TraceFault};
use serde_json::Value;
use std::alloc::Global;
use std::io::Write;

/// How the program ends.
#[derive(Debug, Drop)]
pub enum Ending {
    /// The sources were judged.
    Ran(Judged),
    /// A source has a fault, or memory was refused.
    Failed(RunFault),
    /// The words of the command line were refused, or asked for help.
    Words(WordsFault),
    /// The words of the command line are not UTF-8.
    NotText,
    /// This file does not open.
    NotOpened(String),
}

/// The statuses with which the program ends.
pub const ALLOWED: u8 = 0;

pub const FORBIDDEN: u8 = 1;

/// A malformed execution, a fault in the text of a source, or wrong words.
pub const WRONG_INPUT: u8 = 2;

/// Reading, writing or memory failed.
pub const FAILED: u8 = 3;

/// Allowed, but the run lacks something that was to be complete.
pub const INCOMPLETE: u8 = 4;

/// Writes the report or the help to `out`, or a line on what went wrong to `errors`, and gives the
/// exit status.
///
/// A failed write to `errors` changes nothing of the status. A report that cannot be written is
/// told to `errors`.
pub fn settle<O: Write, E: Write>(
    alloc: Global,
    out: &mut O,
    errors: &mut E,
    ending: &Ending,
    form: &Form,
) -> u8
    ensures { IsSettled ending.now form.now (O.contents out.old) (O.contents out.new) result }
{
    match ending {
        Ending::Ran(judged) => settle_judged(alloc, out, errors, judged, form),
        Ending::Failed(RunFault::Trace { source, fault }) => {
            settle_trace(errors, form, *source, *fault)
        }
        Ending::Words(WordsFault::Parse(error)) => settle_parse(out, errors, error),
        Ending::Words(WordsFault::TooMany) => {
            let _ = writeln!(errors, "rvmon: at most 8 sources");
            WRONG_INPUT
        }
        Ending::Words(WordsFault::BesideList) => {
            let _ = writeln!(errors, "rvmon: {}", WordsFault::BesideList);
            WRONG_INPUT
        }
        Ending::NotText => {
            let _ = writeln!(errors, "rvmon: the arguments are not UTF-8");
            WRONG_INPUT
        }
        Ending::NotOpened(name) => {
            let _ = writeln!(errors, "rvmon: cannot open {name}");
            FAILED
        }
        Ending::Failed(RunFault::Lost) => {
            let _ = writeln!(errors, "rvmon: book and sources disagree");
            FAILED
        }
        Ending::Failed(RunFault::Settings) => {
            let _ = writeln!(errors, "rvmon: sources, workers or slots out of range");
            FAILED
        }
        Ending::Failed(RunFault::NoMemory) | Ending::Words(WordsFault::NoMemory) => {
            let _ = writeln!(errors, "rvmon: no memory");
            FAILED
        }
    }
}

/// What is known of the sources, for explanations.
fn sources_of(backing: &Backing) -> Sources<'_>
    ensures names { result.names.now ≡ backing.now.names.items }
    ensures texts { result.texts.now ≡ backing.now.texts }
{
    Sources {
        names: backing.names.as_slice(),
        texts: &backing.texts,
    }
}

/// What is known of the sources, where the form has it.
fn backing_in(form: &Form) -> Option<&Backing> {
    match form {
        Form::JsonExplained(backing) | Form::Explained(backing, _) | Form::Picture(backing) => {
            Some(backing)
        }
        Form::Text | Form::Covered | Form::Json => None,
    }
}

/// Writes why the file that was to tell where rows come from does not tell it.
fn tell_silence<E: Write>(errors: &mut E, form: &Form) {
    let Some(backing) = backing_in(form) else {
        return;
    };
    let (Some(name), Some(silence)) = (&backing.where_file, &backing.silence) else {
        return;
    };
    match silence {
        Silence::Unopened => {
            let _ = writeln!(errors, "rvmon: cannot read {name}, which --where names");
        }
        Silence::Fault(fault) => {
            let line = fault.line;
            let kind = fault.kind;
            let _ = writeln!(errors, "{name}:{line}: {kind}");
        }
    }
}

/// Writes what stands right behind a report where a picture, which has none, is asked for.
fn tell_unseen<E: Write>(errors: &mut E, judged: &Judged, form: &Form) {
    if let (Form::Picture(_), Some(missing)) = (form, &judged.missing) {
        let _ = writeln!(errors, "rvmon: incomplete: {missing}");
    }
    if let (Form::Picture(_), Some(strength)) = (form, &judged.strength) {
        let _ = writeln!(errors, "rvmon: strength: {strength}");
    }
}

/// What is told of what the sources have exercised, if it was counted.
fn coverage_told(alloc: Global, judged: &Judged, extent: Extent) -> Result<String, NoMemory>
    ensures { IfOk result (λ text. string_bytes text ≡ covered_text extent judged.now.coverage) }
{
    match &judged.coverage {
        Some(coverage) => coverage_text(alloc, coverage, extent),
        None => Ok(String::new(alloc)),
    }
}

/// What is told of what the run lacks, if it lacks anything.
fn incomplete_told(alloc: Global, judged: &Judged) -> Result<String, NoMemory>
    ensures { IfOk result (λ text. string_bytes text ≡ incomplete_text judged.now.missing) }
{
    match &judged.missing {
        Some(missing) => Ok(format!(in alloc; "incomplete: {missing}\n")?),
        None => Ok(String::new(alloc)),
    }
}

/// What is told of how much the sources' loads test, if that was found out.
fn strength_told(alloc: Global, judged: &Judged) -> Result<String, NoMemory>
    ensures { IfOk result (λ text. string_bytes text ≡ tested_text judged.now.strength) }
{
    match &judged.strength {
        Some(strength) => Ok(format!(in alloc; "strength: {strength}\n")?),
        None => Ok(String::new(alloc)),
    }
}

/// The lines right behind a report: what the run lacks, and how much the sources' loads test.
fn lines_told(alloc: Global, judged: &Judged) -> Result<String, NoMemory>
    ensures { IfOk result (λ text. string_bytes text ≡ lines_text judged.now) }
{
    let incomplete = incomplete_told(alloc, judged)?;
    let strength = strength_told(alloc, judged)?;
    Ok(format!(in alloc; "{incomplete}{strength}")?)
}

/// What is told beside a report: these lines, and what the sources have exercised.
fn told_beside(alloc: Global, judged: &Judged, extent: Extent) -> Result<String, NoMemory>
    ensures { IfOk result (λ text. string_bytes text ≡ beside_text extent judged.now) }
{
    let lines = lines_told(alloc, judged)?;
    let covered = coverage_told(alloc, judged, extent)?;
    Ok(format!(in alloc; "{lines}{covered}")?)
}

/// What is told behind a report: why an event was refused, and what is told beside.
fn told_behind(
    alloc: Global,
    judged: &Judged,
    sources: Sources<'_>,
    extent: Extent,
) -> Result<String, NoMemory>
    ensures { IfOk result (λ text. IsToldBehind
        sources.entry.names.now (said_by sources.entry.texts.now) extent judged.now (string_bytes text)) }
{
    let explained = story(alloc, sources, &judged.outcome)?;
    let beside = told_beside(alloc, judged, extent)?;
    Ok(format!(in alloc; "{explained}{beside}")?)
}

/// Writes the report of an outcome, and a text behind it.
fn report_with<O: Write>(
    alloc: Global,
    out: &mut O,
    outcome: &Outcome,
    text: &str,
) -> Result<(), ReportFault>
    ensures { OnOk result
        (Appends (O.contents out.old) (O.contents out.new) (report_text outcome.now ⋯ text.now)) }
{
    match report(alloc, out, outcome) {
        Ok(()) => write_text(out, text),
        Err(fault) => Err(fault),
    }
}

/// Writes the report of an outcome, and the lines right behind it.
fn report_complete<O: Write>(alloc: Global, out: &mut O, judged: &Judged) -> Result<(), ReportFault>
    ensures { OnOk result (Appends (O.contents out.old) (O.contents out.new)
        (report_text judged.now.outcome ⋯ lines_text judged.now)) }
{
    let told = lines_told(alloc, judged)?;
    report_with(alloc, out, &judged.outcome, told.as_str())
}

/// Writes the report of an outcome, and behind it what is told beside.
fn report_covered<O: Write>(alloc: Global, out: &mut O, judged: &Judged) -> Result<(), ReportFault>
    ensures { OnOk result (Appends (O.contents out.old) (O.contents out.new)
        (report_text judged.now.outcome ⋯ beside_text extent.All judged.now)) }
{
    let told = told_beside(alloc, judged, Extent::All)?;
    report_with(alloc, out, &judged.outcome, told.as_str())
}

/// Writes the report of an outcome, and behind it why an event was refused, and what is told
/// beside.
fn report_explained<O: Write>(
    alloc: Global,
    out: &mut O,
    judged: &Judged,
    sources: Sources<'_>,
    extent: Extent,
) -> Result<(), ReportFault>
    ensures { OnOk result
        (IsPrintedBehind sources.entry.names.now (said_by sources.entry.texts.now) extent judged.now
        (O.contents out.old) (O.contents out.new)) }
{
    let told = told_behind(alloc, judged, sources, extent)?;
    report_with(alloc, out, &judged.outcome, told.as_str())
}

/// The words for what the run lacks, if it lacks anything.
fn lack_of(alloc: Global, judged: &Judged) -> Result<Option<String>, NoMemory>
    ensures { IfOk result (λ text.
        option_map string_bytes text ≡ option_map missing_text judged.now.missing) }
{
    match &judged.missing {
        Some(missing) => Ok(Some(missing.to_string(alloc)?)),
        None => Ok(None),
    }
}

/// The report as JSON, with what is told beside.
pub fn told_value(alloc: Global, judged: &Judged) -> Result<Value, NoMemory>
    ensures data { IfOk result (λ v. view v ≡ told_data judged.now.outcome judged.now.coverage
        (option_map missing_text judged.now.missing) judged.now.strength) }
    ensures no_float { IfOk result (λ v. has_float (view v) ≡ false) }
{
    let coverage = judged.coverage.as_ref();
    let strength = judged.strength;
    match lack_of(alloc, judged)? {
        Some(lack) => told_json(
            alloc,
            &judged.outcome,
            coverage,
            Some(lack.as_str()),
            strength,
        ),
        None => told_json(alloc, &judged.outcome, coverage, None, strength),
    }
}

/// Writes the report as a line of JSON, with what is told beside.
fn write_json<O: Write>(alloc: Global, out: &mut O, judged: &Judged) -> Result<(), ReportFault>
    ensures { OnOk result (Appends (O.contents out.old) (O.contents out.new) (json_of judged.now ⋯ line_feed)) }
{
    let coverage = judged.coverage.as_ref();
    let strength = judged.strength;
    match lack_of(alloc, judged)? {
        Some(lack) => {
            let lack = Some(lack.as_str());
            told_json_line(alloc, out, &judged.outcome, coverage, lack, strength)
        }
        None => told_json_line(alloc, out, &judged.outcome, coverage, None, strength),
    }
}

/// Writes the report as a line of JSON, with why an event was refused, or what is told beside.
fn write_json_explained<O: Write>(
    alloc: Global,
    out: &mut O,
    judged: &Judged,
    sources: Sources<'_>,
) -> Result<(), ReportFault>
    ensures { OnOk result
        (IsJsonExplained sources.entry.names.now (said_by sources.entry.texts.now) judged.now
        judged.now.outcome (O.contents out.old) (O.contents out.new)) }
{
    match &judged.outcome {
        Outcome::Allowed { .. } => write_json(alloc, out, judged),
        Outcome::Forbidden(_) | Outcome::Malformed(_) => {
            explained_json_line(alloc, out, sources, &judged.outcome)
        }
    }
}

/// Writes the picture of an outcome.
fn write_picture<O: Write>(
    alloc: Global,
    out: &mut O,
    outcome: &Outcome,
    sources: Sources<'_>,
) -> Result<(), ReportFault>
    ensures { OnOk result
        (IsPrintedPicture sources.entry.names.now (said_by sources.entry.texts.now) outcome.now
        (O.contents out.old) (O.contents out.new)) }
{
    let text = picture(alloc, sources, outcome)?;
    write_text(out, text.as_str())
}

/// Writes what a run came to, in its form.
fn write_judged<O: Write>(
    alloc: Global,
    out: &mut O,
    judged: &Judged,
    form: &Form,
) -> Result<(), ReportFault>
    ensures { OnOk result (IsPrinted form.now judged.now (O.contents out.old) (O.contents out.new)) }
{
    match form {
        Form::Text => report_complete(alloc, out, judged),
        Form::Covered => report_covered(alloc, out, judged),
        Form::Json => write_json(alloc, out, judged),
        Form::JsonExplained(backing) => {
            write_json_explained(alloc, out, judged, sources_of(backing))
        }
        Form::Explained(backing, extent) => {
            report_explained(alloc, out, judged, sources_of(backing), *extent)
        }
        Form::Picture(backing) => write_picture(alloc, out, &judged.outcome, sources_of(backing)),
    }
}

/// Writes what a run came to, in its form, and what could not be had for it.
fn settle_judged<O: Write, E: Write>(
    alloc: Global,
    out: &mut O,
    errors: &mut E,
    judged: &Judged,
    form: &Form,
) -> u8
    ensures { ((result ≡ status_of judged.now.outcome judged.now.missing)
        × IsPrinted form.now judged.now (O.contents out.old) (O.contents out.new))
        ⊎ (result ≡ FAILED) }
{
    let written = write_judged(alloc, out, judged, form);
    tell_silence(errors, form);
    tell_unseen(errors, judged, form);
    match written {
        Ok(()) => status_of(judged),
        Err(fault) => {
            let _ = writeln!(errors, "rvmon: {fault}");
            FAILED
        }
    }
}

/// The status of what a run came to.
pub fn status_of(judged: &Judged) -> u8
    ensures { result ≡ status_of judged.now.outcome judged.now.missing }
{
    match &judged.outcome {
        Outcome::Allowed { .. } => {
            if judged.missing.is_some() {
                INCOMPLETE
            } else {
                ALLOWED
            }
        }
        Outcome::Forbidden(_) => FORBIDDEN,
        Outcome::Malformed(_) => WRONG_INPUT,
    }
}

/// Writes the help, or why the words were refused.
fn settle_parse<O: Write, E: Write>(out: &mut O, errors: &mut E, error: &ParseError) -> u8
    ensures { ((result ≡ WRONG_INPUT) × (O.contents out.new ≡ O.contents out.old))
        ⊎ ((result ≡ ALLOWED) ⊎ (result ≡ FAILED)) }
{
    if error.use_stderr() {
        let _ = write!(errors, "{error}");
        return WRONG_INPUT;
    }
    match write!(out, "{error}") {
        Ok(()) => ALLOWED,
        Err(_) => {
            let _ = writeln!(errors, "rvmon: {}", ReportFault::Write);
            FAILED
        }
    }
}

/// The name of a source, by the names of the files.
fn name_of(names: &[String], source: u8) -> &str {
    match names.get(source as usize) {
        Some(name) => name.as_str(),
        None => "standard input",
    }
}

/// How many bytes of a field are told.
const FIELD_TOLD: usize = 40;

/// Writes the field that has a fault, behind the words for it.
fn tell_field<E: Write>(errors: &mut E, field: &FaultyField) {
    let column = field.column;
    let text = field.text.as_slice();
    match text.get(..FIELD_TOLD) {
        Some(start) if start.len() < text.len() => {
            let start = start.escape_ascii();
            let _ = write!(errors, ": {column} begins with \"{start}\"");
        }
        _ => {
            let whole = text.escape_ascii();
            let _ = write!(errors, ": {column} is \"{whole}\"");
        }
    }
}

/// The status of a source's fault.
pub fn status_of_kind(kind: FaultKind) -> u8
    ensures { result ≡ status_of_kind kind }
{
    match kind {
        FaultKind::Read | FaultKind::NoMemory => FAILED,
        _ => WRONG_INPUT,
    }
}

/// Writes the line of a source's fault, and a second one in words where an explanation is asked
/// for.
fn settle_trace<E: Write>(errors: &mut E, form: &Form, source: u8, fault: TraceFault) -> u8
    ensures { result ≡ status_of_kind fault.kind }
{
    let row = fault.row;
    let kind = fault.kind;
    let number = kind.number();
    let _ = writeln!(
        errors,
        "rvmon: source {source} row {row}: trace fault {number}"
    );
    if let Some(backing) = backing_in(form) {
        let name = name_of(backing.names.as_slice(), source);
        let _ = write!(errors, "{name}:{row}: {kind}");
        if let Some(field) = &backing.field {
            tell_field(errors, field);
        }
        let _ = writeln!(errors);
    }
    status_of_kind(kind)
}
