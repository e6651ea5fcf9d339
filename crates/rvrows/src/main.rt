//! Writes the rows of a commit log, or judges them: `rvrows [WORD..] [LOG..]`.
//!
//! A row comes as soon as it is known. Where the log has a fault, the rows before it stay, a line
//! on standard error names its row, its number, its name and what is wrong, and the status is 2. It
//! is 3 where reading, writing or memory failed. With `--log` the rows are judged as they come, and
//! the outcome is told as `rvmon` tells it, each row with its program counter.
//!
//! - `request`: what the words of the command line ask for.
//! - `fault`: the numbers and the texts of faults.
//! - `places`: the program counter, the instruction and the address of each row.
//! - `progress`: how far the log is read, told on a terminal.
//! - `initial`: what memory holds at first, as far as the log tells.
//! - `sink`: where rows go; `judging`: a book that takes them.
//! - `translating`: the rows, record by record.
//!
//! It stands on `rv_logrows` for the rows, on `rv_book` and `rv_report` for the judgement, on
//! `rv_explain` and `rv_picture` for what is said of a refusal, on `rv_coverage`,
//! `rv_coverage_report` and `rv_replay` for what an allowed log has exercised and tests, on the
//! crates whose types these name, and on the kit's `csv` and `thiserror`. The rows are those that
//! `rv_logrows` gives, and the judgement is the book's; no promise stands on how the program reads
//! and writes.
#![tactic(auto)]

mod fault;
mod initial;
mod judging;
mod places;
mod progress;
mod request;
mod sink;
mod translating;

use crate::fault::{Stop, tell, tell_failure};
use crate::judging::{Judge, Judgement, write_judgement};
use crate::progress::Progress;
use crate::request::{HELP, Words, name_called, request_of};
use crate::sink::{PlaceFile, Sink, TraceFile};
use crate::translating::Translation;
use csv::ReaderBuilder;
use rv_report::Outcome;
use std::fs::File;
use std::io::{self, BufWriter, IsTerminal, Read, Write};
use std::process::ExitCode;

/// The status where each row was accepted, or written.
const ALLOWED: u8 = 0;

/// The status where a row is forbidden.
const FORBIDDEN: u8 = 1;

/// The status where the log has a fault or is malformed, or the words are wrong.
const WRONG_INPUT: u8 = 2;

/// The status where reading, writing or memory failed.
const FAILED: u8 = 3;

/// The name that the program is called by.
fn name_of(words: &Words) -> &'static str {
    if words.judges { "rvmon" } else { "rvrows" }
}

/// Translates what a reader gives of a log.
fn translate<R: Read + Drop, S: Sink + Drop>(
    rt: &HostRuntime,
    input: R,
    mut translation: Translation<S>,
    progress: &mut Progress,
) -> Result<Translation<S>, Stop> {
    let reader = ReaderBuilder::new()
        .has_headers(false)
        .flexible(true)
        .from_reader(rt.alloc(), input);
    translation.begin_file();
    for record in reader.into_byte_records() {
        let Ok(record) = record else {
            return Err(Stop::Read);
        };
        progress.count();
        translation = translation.take(&record)?;
    }
    Ok(translation)
}

/// Translates the files that the words name, or standard input.
fn translate_files<S: Sink + Drop>(
    rt: &HostRuntime,
    words: &Words,
    sink: S,
    progress: &mut Progress,
) -> Result<Translation<S>, Stop> {
    let mut translation = Translation::new(rt.alloc(), sink, words.request)?;
    if words.files.is_empty() {
        return translate(rt, rt.reader(), translation, progress);
    }
    for name in words.files.iter() {
        let Ok(file) = File::open(rt, name.as_str()) else {
            return Err(Stop::Open(String::from_str(rt.alloc(), name.as_str())?));
        };
        translation = translate(rt, file, translation, progress)?;
    }
    Ok(translation)
}

/// Translates the log that the words ask for. It answers where the rows went, and how many records
/// were left out.
fn translate_log<S: Sink + Drop>(
    rt: &HostRuntime,
    words: &Words,
    sink: S,
) -> Result<(S, u64), Stop> {
    let has_rows = !words.judges && rt.stdout().is_terminal();
    let mut progress = Progress::new(rt.stderr(), name_of(words), has_rows);
    let translated = translate_files(rt, words, sink, &mut progress);
    progress.end();
    translated?.finish()
}

/// The file that tells where rows come from, if one is asked for.
fn place_file(rt: &HostRuntime, words: &Words) -> Result<Option<PlaceFile<BufWriter<File>>>, Stop> {
    let Some(name) = &words.places else {
        return Ok(None);
    };
    let Ok(file) = File::create(rt, name.as_str()) else {
        return Err(Stop::WritePlaces);
    };
    let file = PlaceFile::new(rt.alloc(), BufWriter::new(rt.alloc(), file)?)?;
    Ok(Some(file))
}

/// Writes the rows of the log. It answers how many records were left out.
fn write_rows(rt: &HostRuntime, words: &Words) -> Result<u64, Stop> {
    let out = BufWriter::new(rt.alloc(), io::writer(rt))?;
    let sink = TraceFile::new(out, place_file(rt, words)?)?;
    let (mut file, left_out) = translate_log(rt, words, sink)?;
    if words.ends {
        file.end()?;
    }
    Ok(left_out)
}

/// Judges the rows of the log. It answers what came of them, and how many records were left out.
fn judge_rows(rt: &HostRuntime, words: &Words) -> Result<(Judgement, u64), Stop> {
    let judge = Judge::new(rt.alloc(), words.model, words.telling)?;
    let (judge, left_out) = translate_log(rt, words, judge)?;
    Ok((judge.allowed()?, left_out))
}

/// Tells how many records were left out, if any were.
fn tell_left_out<E: Write>(errors: &mut E, name: &str, left_out: u64) {
    if left_out > 0 {
        let _ = writeln!(
            errors,
            "{name}: {left_out} records out of the range left out"
        );
    }
}

/// Prints a judgement, and gives the status.
fn settle<E: Write>(rt: &HostRuntime, words: &Words, errors: &mut E, judgement: &Judgement) -> u8 {
    let mut out = io::writer(rt);
    match write_judgement(rt.alloc(), &mut out, judgement, words.telling) {
        Ok(()) => {}
        Err(Stop::NoMemory) => return tell_failure(errors, "rvmon", "no memory"),
        Err(_) => return tell_failure(errors, "rvmon", "the report can't be written"),
    }
    match &judgement.outcome {
        Outcome::Allowed { .. } => ALLOWED,
        Outcome::Forbidden(_) => FORBIDDEN,
        Outcome::Malformed(_) => WRONG_INPUT,
    }
}

/// Tells why the rows end early, and gives the status.
fn settle_stop<E: Write>(rt: &HostRuntime, words: &Words, errors: &mut E, stop: &Stop) -> u8 {
    let name = name_of(words);
    match stop {
        Stop::Fault(row, fault) => tell(errors, name, *row, *fault),
        Stop::Judged(judgement) => settle(rt, words, errors, judgement),
        Stop::Open(file) => {
            let _ = writeln!(errors, "{name}: cannot open {file}");
            FAILED
        }
        Stop::Read => tell_failure(errors, name, "the log can't be read"),
        Stop::Write => tell_failure(errors, name, "the rows can't be written"),
        Stop::WritePlaces => tell_failure(errors, name, "the file of --where can't be written"),
        Stop::NoMemory => tell_failure(errors, name, "no memory"),
    }
}

/// Does what the words ask for, and gives the status.
fn answer<E: Write>(rt: &HostRuntime, words: &Words, errors: &mut E) -> u8 {
    let name = name_of(words);
    if words.judges {
        return match judge_rows(rt, words) {
            Ok((judgement, left_out)) => {
                tell_left_out(errors, name, left_out);
                settle(rt, words, errors, &judgement)
            }
            Err(stop) => settle_stop(rt, words, errors, &stop),
        };
    }
    match write_rows(rt, words) {
        Ok(left_out) => {
            tell_left_out(errors, name, left_out);
            ALLOWED
        }
        Err(stop) => settle_stop(rt, words, errors, &stop),
    }
}

fn main(rt: HostRuntime) -> ExitCode {
    let mut errors = rt.stderr();
    let words = match request_of(&rt) {
        Ok(words) => words,
        Err(why) => {
            let name = name_called(&rt);
            let _ = writeln!(errors, "{name}: {why}; see --help");
            return ExitCode::from(WRONG_INPUT);
        }
    };
    if words.help {
        let mut out = io::writer(&rt);
        let _ = writeln!(out, "{HELP}");
        return ExitCode::from(ALLOWED);
    }
    ExitCode::from(answer(&rt, &words, &mut errors))
}
