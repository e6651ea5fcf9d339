//! Judges runs of any length: `rvmon --harts LIST [WORD..] [FILE..]`.
//!
//! The rows of the sources are taken in turn, and each event is judged when it is read.
//! What no active hart can come before any more is forgotten, so that memory does not grow with the
//! run where its harts synchronise again and again. Where an event comes before what was forgotten,
//! `--recheck` reads the files again, keeps that from then on, and shows a circle.
//!
//! - `request`: what the words of the command line ask for.
//! - `sources`: the files, and threads that read those which may be silent.
//! - `following`: the sources, row by row. `turns`: whose row is read next.
//! - `progress`: how far the run is, told on a terminal.
//! - `rechecking`: the sources once more, for a circle.
//! - `telling`: what is printed, and the exit status.
//!
//! It stands on `rv_watch` for the judgement and the texts of refusals, on `rv_trace` for the rows,
//! on `rv_pipe` for sources that may be silent, on the crates whose types these name, and on the
//! kit's `either` and `thiserror`. Each event is judged as `rv_watch` says; no promise stands on how
//! the program reads and writes.
#![tactic(auto)]

mod following;
mod progress;
mod rechecking;
mod request;
mod sources;
mod telling;
mod turns;

use crate::following::{End, Follower, Mode};
use crate::rechecking::{rechecked, tell_unread};
use crate::request::{HELP, Words, WordsFault, request_of};
use crate::sources::open_all;
use crate::telling::{ALLOWED, WRONG_INPUT, settle, tell_failure};
use rv_pipe::Bell;
use rv_trace::Feed;
use std::alloc::AllocError;
use std::io::{self, Stderr, Write};
use std::process::ExitCode;
use std::sync::Wait;
use std::thread::Threads;

/// Prints what came of a run, and gives the status.
fn tell(rt: &HostRuntime, words: &Words, follower: &Follower, end: &End) -> Result<u8, AllocError> {
    let mut out = io::writer(rt);
    let mut errors = rt.stderr();
    settle(
        rt.alloc(),
        &mut out,
        &mut errors,
        &follower.watch,
        words.files.as_slice(),
        end,
    )
}

/// Follows standard input.
fn follow_input(rt: &HostRuntime, follower: &mut Follower) -> Result<Option<End>, AllocError> {
    let mut feeds = Vec::new(rt.alloc());
    feeds.push(Feed::new(rt.alloc(), rt.reader()))?;
    let end = follower.follow(rt, feeds.as_mut_slice(), &Bell::new());
    drop(feeds);
    Ok(Some(end))
}

/// Follows the files that the words name; `None` where one does not open, which is told.
fn follow_files<RT: Threads + Wait + Copy + Send + 'static>(
    rt: &HostRuntime,
    threads: &RT,
    words: &Words,
    follower: &mut Follower,
    errors: &mut Stderr,
) -> Result<Option<End>, AllocError> {
    let mut sources = match open_all(rt, threads, words.files.as_slice())? {
        Ok(sources) => sources,
        Err(name) => {
            let _ = writeln!(errors, "rvmon: cannot open {name}");
            return Ok(None);
        }
    };
    let end = follower.follow(rt, sources.feeds.as_mut_slice(), &sources.bell);
    sources.bell.end();
    let unopened = sources.first_unopened(threads);
    let has_pipe = sources.has_pipe();
    drop(sources);
    if let Some(place) = unopened {
        if let Some(name) = words.files.as_slice().get(place) {
            let _ = writeln!(errors, "rvmon: cannot open {name}");
            drop(end);
            return Ok(None);
        }
    }
    if has_pipe {
        tell_unread(words, &end, errors);
        return Ok(Some(end));
    }
    let end = rechecked(rt, threads, words, end, errors)?;
    Ok(Some(end))
}

/// Does what the words ask for, and gives the status.
fn answer<RT: Threads + Wait + Copy + Send + 'static>(
    rt: &HostRuntime,
    threads: &RT,
    words: &Words,
    errors: &mut Stderr,
) -> Result<u8, AllocError> {
    let mut follower = Follower::new(rt, words, Mode::Ruled)?;
    let end = if words.files.is_empty() {
        follow_input(rt, &mut follower)
    } else {
        follow_files(rt, threads, words, &mut follower, errors)
    };
    let status = match &end {
        Ok(Some(end)) => tell(rt, words, &follower, end),
        Ok(None) => Ok(telling::FAILED),
        Err(AllocError) => Err(AllocError),
    };
    drop(end);
    drop(follower);
    status
}

fn main(rt: HostRuntime) -> ExitCode {
    let mut errors = rt.stderr();
    let words = match request_of(&rt) {
        Ok(words) => words,
        Err(WordsFault::NoMemory) => return ExitCode::from(tell_failure(&mut errors, "no memory")),
        Err(why) => {
            let _ = writeln!(errors, "rvmon: {why}; see --harts --help");
            return ExitCode::from(WRONG_INPUT);
        }
    };
    if words.help {
        let mut out = io::writer(&rt);
        let _ = writeln!(out, "{HELP}");
        return ExitCode::from(ALLOWED);
    }
    match answer(&rt, &rt, &words, &mut errors) {
        Ok(status) => ExitCode::from(status),
        Err(AllocError) => ExitCode::from(tell_failure(&mut errors, "no memory")),
    }
}
