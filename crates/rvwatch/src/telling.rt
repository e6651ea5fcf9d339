//! What is printed of a run, and the exit status.

use crate::following::End;
use rv_cert::Certificate;
use rv_endless::Beyond;
use rv_event::{Id, NoMemory};
use rv_report::write_text;
use rv_trace::{FaultKind, FeedFault};
use rv_watch::{Stop, Watch, forbidden_text, refusal_text};
use std::alloc::{AllocError, Global};
use std::io::{Stderr, Write};

/// The status where each event was taken.
pub(crate) const ALLOWED: u8 = 0;

/// The status where an event is forbidden.
pub(crate) const FORBIDDEN: u8 = 1;

/// The status where an event is malformed, a source is not in the format, or the words are wrong.
pub(crate) const WRONG_INPUT: u8 = 2;

/// The status where reading, writing or memory failed, or an event can't be judged.
pub(crate) const FAILED: u8 = 3;

/// Tells what failed, and gives the status for it.
pub(crate) fn tell_failure(errors: &mut Stderr, what: &str) -> u8 {
    let _ = writeln!(errors, "rvmon: {what}");
    FAILED
}

/// What a run has come to so far.
fn counts_text(alloc: Global, watch: &Watch) -> Result<String, AllocError> {
    let (events, operations) = (watch.events, watch.operations);
    let waiting = watch.waiting();
    format!(in alloc; "{events} events, {operations} operations, {waiting} waiting loads")
}

/// Writes a report, and gives the status of what it tells.
fn write_report<O: Write>(out: &mut O, errors: &mut Stderr, text: &str, status: u8) -> u8 {
    match write_text(out, text) {
        Ok(()) => status,
        Err(_) => tell_failure(errors, "the report can't be written"),
    }
}

/// Writes why an event can't be judged.
fn tell_beyond(errors: &mut Stderr, id: Id, beyond: Beyond) {
    let hart = id.hart;
    let _ = match beyond {
        Beyond::Inactive => writeln!(
            errors,
            "rvmon: hart {hart} not declared at {id}, or it has ended"
        ),
        Beyond::WindowFull => writeln!(
            errors,
            "rvmon: window full at {id}: 4096 events of hart {hart} wait for a hart that has not passed them"
        ),
        Beyond::Carrier => writeln!(errors, "rvmon: {id} is a carrier"),
        Beyond::LastNumber => writeln!(errors, "rvmon: no number left for hart {hart} at {id}"),
        Beyond::LrForgotten => writeln!(
            errors,
            "rvmon: LR forgotten at {id}: its SC stands too many events behind it; see --sc-within"
        ),
    };
}

/// Writes the line of a source's fault, and a second one with its file and what is wrong.
fn settle_fault(errors: &mut Stderr, files: &[String], source: u8, fault: FeedFault) -> u8 {
    let (row, kind) = (fault.row, fault.kind);
    let number = kind.number();
    let _ = writeln!(
        errors,
        "rvmon: source {source} row {row}: trace fault {number}"
    );
    let name = match files.get(source as usize) {
        Some(name) => name.as_str(),
        None => "standard input",
    };
    let _ = writeln!(errors, "{name}:{row}: {kind}");
    match kind {
        FaultKind::Read | FaultKind::NoMemory => FAILED,
        _ => WRONG_INPUT,
    }
}

/// Prints why the event of this id was not taken, and gives the status.
fn settle_stop<O: Write>(
    alloc: Global,
    out: &mut O,
    errors: &mut Stderr,
    watch: &Watch,
    id: Id,
    stop: &Stop,
) -> Result<u8, AllocError> {
    match refusal_text(alloc, watch, id, stop) {
        Ok(Some(text)) => {
            let status = match stop {
                Stop::Malformed(_) | Stop::Taken => WRONG_INPUT,
                _ => FORBIDDEN,
            };
            return Ok(write_report(out, errors, text.as_str(), status));
        }
        Ok(None) => {}
        Err(NoMemory) => return Err(AllocError),
    }
    let counts = counts_text(alloc, watch)?;
    let _ = writeln!(errors, "rvmon: allowed so far: {counts}");
    match stop {
        Stop::Beyond(beyond) => {
            tell_beyond(errors, id, *beyond);
            Ok(FAILED)
        }
        _ => Ok(tell_failure(errors, "no memory")),
    }
}

/// Prints that the event of this id is forbidden, as the certificate shows, and gives the status.
fn settle_shown<O: Write>(
    alloc: Global,
    out: &mut O,
    errors: &mut Stderr,
    watch: &Watch,
    id: Id,
    certificate: &Certificate,
) -> Result<u8, AllocError> {
    match forbidden_text(alloc, id, watch.events, certificate) {
        Ok(text) => Ok(write_report(out, errors, text.as_str(), FORBIDDEN)),
        Err(NoMemory) => Err(AllocError),
    }
}

/// Prints what came of a run, and gives the status.
pub(crate) fn settle<O: Write>(
    alloc: Global,
    out: &mut O,
    errors: &mut Stderr,
    watch: &Watch,
    files: &[String],
    end: &End,
) -> Result<u8, AllocError> {
    match end {
        End::Over => {
            let counts = counts_text(alloc, watch)?;
            let text = format!(in alloc; "allowed: {counts}\n")?;
            Ok(write_report(out, errors, text.as_str(), ALLOWED))
        }
        End::Stopped(entry, stop) => settle_stop(alloc, out, errors, watch, entry.event.id, stop),
        End::Shown(id, certificate) => settle_shown(alloc, out, errors, watch, *id, certificate),
        End::Faulty(source, fault) => Ok(settle_fault(errors, files, *source, *fault)),
    }
}
