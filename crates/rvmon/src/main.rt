//! The program: it takes its words, opens the sources, judges them and prints the report.
//!
//! - `words`: the words of the command line, as texts.
//! - [`work`]: what they have the program do.
//! - `opening`: the sources, from the names of their files.
//! - [`backing`]: what is known of the sources beside their events: their names, what a file says
//!   of their rows, the field of a fault.
//! - [`form`]: whether the report is text, text with an explanation, a picture, or JSON with
//!   an explanation or without.
//! - [`ending`]: what is printed, and the exit status.
//! - [`listing`]: the traces of a list, judged one after another, with `progress`, which tells how
//!   far it is.
//! - `specs/`: which ending comes of what, what each ending prints, and what is told of a list.
//!
//! It stands on `rv_cli` for its words, on `rv_pipe` for sources that may be silent, on `rv_run`
//! for the judgement, on `rv_report` for the reports, on `rv_explain`, `rv_coverage_report` and
//! `rv_replay` for what is said behind them, on `rv_where` for what a file says of rows, on `rv_picture` for
//! pictures, on `rv_list` for lists of traces, on the crates whose types these name, and on the
//! kit's `clap` and `either`. Its one contract: each ending is of the step that it names, a report
//! is that of an outcome of the sources, and each line of a list is told so.
#![tactic(auto)]

ghost use Rattle.clap.specs.Walk.{texts};
ghost use Rattle.rv_cli.specs.Asked.{AreInRange};
ghost use Rattle.rvmon.specs.Starting.{EndsAsked, IsWork, IsWorkBy, nothing_known};

mod backing;
mod ending;
mod form;
mod listing;
mod opening;
mod progress;
mod words;
mod work;

use backing::{dialect_of, is_covering};
use ending::{Ending, settle};
use form::{Form, form_of};
use listing::Judge;
use opening::{Opened, Opener, SystemFiles, first_unopened, open_all};
use rv_cli::{Asked, asked};
use rv_pipe::Bell;
use rv_run::{Reading, RunFault, Settings, run_reading};
use std::io;
use std::io::IsTerminal;
use std::process::ExitCode;
use std::sync::{Arc, Wait};
use std::thread::Threads;
use words::{texts_of, words_of};
use work::Work;

/// What comes of a request. Its files are those of the opener, and are read and judged in turn.
/// Where one of several sources may be silent, they are judged in threads of the second handle
/// instead. Such a source is read in a thread that is left behind where the others decide, and so it
/// ends with the program.
fn answer<RT: Threads + Wait + Sync + Copy + Send + 'static, O: Opener>(
    rt: &HostRuntime,
    threads: &RT,
    opener: &O,
    asked: &Asked,
) -> Ending
    requires { AreInRange asked.now }
    ensures { EndsAsked (O.known opener.now) asked.now result }
{
    let names = asked.files.as_slice();
    let Ok(bell) = Arc::new(rt.alloc(), Bell::new()) else {
        return Ending::Failed(RunFault::NoMemory);
    };
    let Opened { inputs, pipes } = match open_all(rt, threads, opener, names, &bell) {
        Ok(opened) => opened,
        Err(ending) => return ending,
    };
    let settings = Settings {
        workers: asked.workers,
        slots: asked.slots,
        model: asked.model,
    };
    // A source that may keep the others waiting has a thread of its own.
    let in_turn = inputs.len() == 1 || pipes.iter().all(|pipe| pipe.is_none());
    let reading = Reading {
        dialect: dialect_of(asked),
        bell: &bell,
        covering: is_covering(asked),
        testing: asked.strength,
        in_turn,
    };
    match run_reading(threads, rt.alloc(), inputs, settings, reading) {
        Ok(judged) => Ending::Ran(judged),
        Err(fault) => match first_unopened(rt.alloc(), threads, names, pipes.as_slice()) {
            Some(ending) => ending,
            None => Ending::Failed(fault),
        },
    }
}

/// What comes of the words: they are answered, unless they ask for a list.
fn answer_words<RT: Threads + Wait + Sync + Copy + Send + 'static, O: Opener>(
    rt: &HostRuntime,
    threads: &RT,
    opener: &O,
    words: &[&str],
) -> Work
    ensures { IsWorkBy (O.known opener.now) (texts words.now) result }
{
    match asked(rt.alloc(), words) {
        Ok(asked) => {
            if asked.list_file.is_some() {
                return Work::Many(asked);
            }
            let ending = answer(rt, threads, opener, &asked);
            let form = form_of(rt.alloc(), opener, asked, &ending);
            Work::Ended(ending, form)
        }
        Err(fault) => Work::Ended(Ending::Words(fault), Form::Text),
    }
}

/// What the program does.
fn work_of<RT: Threads + Wait + Sync + Copy + Send + 'static>(
    rt: &HostRuntime,
    threads: &RT,
) -> Work
    ensures { IsWork nothing_known result }
{
    let words = match words_of(rt) {
        Ok(words) => words,
        Err(ending) => return Work::Ended(ending, Form::Text),
    };
    match texts_of(rt, words.as_slice()) {
        Ok(texts) => answer_words(rt, threads, &SystemFiles::new(*rt), texts.as_slice()),
        Err(ending) => Work::Ended(ending, Form::Text),
    }
}

fn main(rt: HostRuntime) -> ExitCode {
    let mut out = io::writer(&rt);
    let mut errors = rt.stderr();
    let status = match work_of(&rt, &rt) {
        Work::Ended(ending, form) => settle(rt.alloc(), &mut out, &mut errors, &ending, &form),
        Work::Many(asked) => {
            let judge = Judge {
                rt,
                threads: &rt,
                opener: &SystemFiles::new(rt),
                asked: &asked,
            };
            // Where the lines stand in the terminal too, they tell how far it is.
            let is_told = errors.is_terminal() && !rt.stdout().is_terminal();
            judge.judge_list(&mut out, &mut errors, is_told)
        }
    };
    ExitCode::from(status)
}
