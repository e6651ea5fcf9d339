//! The sources read again, for the circle of an event that comes before what was forgotten.
//!
//! From where the operation would be forgotten to which the edge leads, nothing is forgotten any
//! more. So what is kept has the circle, as soon as the event comes; or the window is full before,
//! and the event is offered to what is kept until then.

use crate::following::{End, Follower, Mode};
use crate::request::Words;
use crate::sources::open_all;
use rv_cert::Certificate;
use rv_event::{Entry, NoMemory};
use rv_past::PastEdge;
use rv_watch::{Stop, certificate_in_log};
use std::alloc::AllocError;
use std::io::{Stderr, Write};
use std::sync::Wait;
use std::thread::Threads;

/// Reads the files again, keeps from then on what the edge leads to, and shows by what is kept why
/// the entry is forbidden. `None` where that can't be had.
fn recheck<RT: Threads + Wait + Copy + Send + 'static>(
    rt: &HostRuntime,
    threads: &RT,
    words: &Words,
    entry: &Entry,
    edge: PastEdge,
) -> Result<Option<Certificate>, AllocError> {
    let Ok(mut sources) = open_all(rt, threads, words.files.as_slice())? else {
        return Ok(None);
    };
    let mut follower = Follower::new(rt, words, Mode::Until(edge))?;
    let end = follower.follow(rt, sources.feeds.as_mut_slice(), &sources.bell);
    let shown = match &end {
        End::Stopped(stopped, Stop::Forbidden(forbidden)) if stopped.event.id == entry.event.id => {
            match certificate_in_log(rt.alloc(), &follower.watch, forbidden) {
                Ok(certificate) => Ok(Some(certificate)),
                Err(NoMemory) => Err(NoMemory),
            }
        }
        _ if matches!(follower.mode, Mode::Held) => {
            follower.watch.explain_past(rt.alloc(), entry, edge)
        }
        _ => Ok(None),
    };
    drop(end);
    drop(follower);
    drop(sources);
    match shown {
        Ok(shown) => Ok(shown),
        Err(NoMemory) => Err(AllocError),
    }
}

/// What a recheck, where it is asked for, makes of the end of a run over files.
pub(crate) fn rechecked<RT: Threads + Wait + Copy + Send + 'static>(
    rt: &HostRuntime,
    threads: &RT,
    words: &Words,
    end: End,
    errors: &mut Stderr,
) -> Result<End, AllocError> {
    let shown = match &end {
        End::Stopped(entry, Stop::BeforePast(edge)) if words.recheck => {
            recheck(rt, threads, words, entry, *edge)?.map(|shown| End::Shown(
                entry.event.id,
                shown,
            ))
        }
        _ => return Ok(end),
    };
    if shown.is_none() {
        let _ = writeln!(
            errors,
            "rvmon: the files give no circle when they are read again"
        );
    }
    Ok(shown.unwrap_or(end))
}

/// Tells that a recheck is asked for and can't be had, as a FIFO is read once.
pub(crate) fn tell_unread(words: &Words, end: &End, errors: &mut Stderr) {
    if words.recheck && matches!(end, End::Stopped(_, Stop::BeforePast(_))) {
        let _ = writeln!(
            errors,
            "rvmon: a FIFO can't be read again, so no circle is shown"
        );
    }
}
