//! The report of a run that refused an event.
ghost use Rattle.std.specs.Prelude.{◌≡◌, ◌++◌, IfOk, None, option_map, string_bytes};
ghost use Rattle.rv_event.specs.declared.event.Id.{Id};
ghost use Rattle.rv_event.specs.Texts.{id_text};
ghost use Rattle.rv_report.specs.Texts.{certificate_text, forbidden_line};
ghost use Rattle.rv_watch.specs.Names.{certificate_named};
ghost use Rattle.rv_watch.specs.Texts.{past_line, refusal_text};

use crate::naming::Naming;
use crate::stop::Stop;
use crate::watch::Watch;
use rv_cert::{Certificate, Forbidden};
use rv_event::{Id, NoMemory};
use rv_past::PastEdge;
use rv_report::certificate_text;
use std::alloc::Global;

/// The first line of the report of a run that forbids an event.
fn forbidden_line(alloc: Global, id: Id, events: u64) -> Result<String, NoMemory>
    ensures { IfOk result (λ text. string_bytes text ≡ forbidden_line (id_text id) events) }
{
    Ok(format!(in alloc; "forbidden: {id} after {events} events\n")?)
}

/// The line for an event that comes before what was forgotten: the reason of the edge that leads
/// there, and the word and version of where it leads.
fn past_line(alloc: Global, id: Id, edge: PastEdge) -> Result<String, NoMemory>
    ensures { IfOk result (λ text. string_bytes text ≡ past_line (id_text id) edge) }
{
    let PastEdge {
        reason,
        word,
        version,
    } = edge;
    Ok(format!(in alloc; "past: {id} {reason} word {word} version {version}\n")?)
}

/// The report of a run that forbids an event: its first line, and what shows it.
fn forbidden_report(alloc: Global, id: Id, events: u64, shown: &str) -> Result<String, NoMemory>
    ensures { IfOk result (λ text. string_bytes text ≡ forbidden_line (id_text id) events ++ shown.now) }
{
    let mut text = forbidden_line(alloc, id, events)?;
    text.push_str(shown)?;
    Ok(text)
}

/// The certificate of a refusal by the window, with the numbers of the log.
///
/// # Errors
/// Memory ran out; all stays as it is.
pub fn certificate_in_log(
    alloc: Global,
    watch: &Watch,
    forbidden: &Forbidden,
) -> Result<Certificate, NoMemory>
    ensures { IfOk result (λ told. told
        ≡ certificate_named watch.now.run.firsts None forbidden.now.certificate) }
{
    let naming = Naming {
        firsts: &watch.run.firsts,
        refused: None,
    };
    naming.certificate(alloc, forbidden.certificate())
}

/// The report of a run that forbids the event of this id after so many others, with a certificate
/// that shows it, each line with its line feed.
///
/// # Errors
/// Memory ran out; all stays as it is.
pub fn forbidden_text(
    alloc: Global,
    id: Id,
    events: u64,
    certificate: &Certificate,
) -> Result<String, NoMemory>
    ensures { IfOk result (λ text. string_bytes text
        ≡ forbidden_line (id_text id) events ++ certificate_text certificate.now) }
{
    let lines = certificate_text(alloc, certificate)?;
    forbidden_report(alloc, id, events, lines.as_str())
}

/// The report of a run that refused the event of this id, each line with its line feed; `None` where
/// it was not refused, but could not be judged. Numbers are those of the log.
///
/// # Errors
/// Memory ran out; all stays as it is.
pub fn refusal_text(
    alloc: Global,
    watch: &Watch,
    id: Id,
    stop: &Stop,
) -> Result<Option<String>, NoMemory>
    ensures { IfOk result (λ text. option_map string_bytes text ≡ refusal_text watch.now id stop.now) }
{
    let events = watch.events;
    match stop {
        Stop::Malformed(fault) => {
            let number = fault.number();
            Ok(Some(format!(in alloc;
                "malformed: {id} after {events} events: fault {number} {fault}\n"
            )?))
        }
        Stop::Taken => Ok(Some(format!(in alloc;
            "malformed: {id} after {events} events: fault 5 version taken\n"
        )?)),
        Stop::Forbidden(forbidden) => {
            let told = certificate_in_log(alloc, watch, forbidden)?;
            Ok(Some(forbidden_text(alloc, id, events, &told)?))
        }
        Stop::BeforePast(edge) => {
            let line = past_line(alloc, id, *edge)?;
            Ok(Some(forbidden_report(alloc, id, events, line.as_str())?))
        }
        Stop::Beyond(_) | Stop::Stopped | Stop::NoMemory => Ok(None),
    }
}
