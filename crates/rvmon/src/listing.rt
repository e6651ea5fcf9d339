//! The traces of a list, judged one after another.
ghost use Rattle.std.specs.Prelude.{◌≡◌, ◌≤◌, ◌⊎◌, IfOk, List, ℕ, length, map, string_bytes};
ghost use Rattle.rv_list.specs.Names.{IsNamesFault};
ghost use Rattle.rv_cli.specs.Asked.{AreInRange};
ghost use Rattle.rvmon.specs.Endings.{status_of_kind};
ghost use Rattle.rvmon.specs.Listing.{AreTold, IsFailureTold, IsFaultTold, IsJudgedTold, IsLineTold, IsListTold};
ghost use Rattle.rvmon.specs.Listing.{IsNoTraceTold, IsRequestOf, IsTraceTold, Writes, graver, gravity, list_bytes};
ghost use Rattle.rvmon.specs.Listing.{list_status, status_of_names};
ghost use Rattle.rvmon.specs.Starting.{IsForList, IsOfSources};
ghost use Rattle.rvmon.specs.declared.listing.ListFault.TheVariants as list_fault;

use crate::answer;
use crate::ending::{
    ALLOWED, Ending, FAILED, FORBIDDEN, INCOMPLETE, WRONG_INPUT, status_of, status_of_kind,
    told_value,
};
use crate::opening::{Opener, Unopened};
use crate::progress::Progress;
use either::Either;
use rv_cli::Asked;
use rv_event::NoMemory;
use rv_list::{Failure, NamesFault, failed_line, judged_line, names_in, next_line};
use rv_report::ReportFault;
use rv_run::{Judged, RunFault};
use rv_trace::TraceFault;
use std::alloc::Global;
use std::fmt::Display;
use std::fs::File;
use std::io::{BufRead, BufReader, Read, Stdin, Write};
use std::sync::Wait;
use std::thread::Threads;
use thiserror::Error;

/// Why a list ends before its last trace is told.
#[derive(Clone, Copy, PartialEq, Eq, Debug, Error)]
pub enum ListFault {
    /// The list does not open.
    #[error("cannot open")]
    Open,
    /// The list cannot be read, or memory was refused for one of its lines.
    #[error("cannot read")]
    Read,
    /// There are more traces than are counted.
    #[error("more than 4294967294 traces are in")]
    TooLong,
    /// A line could not be written, or memory was refused for it.
    #[error("{0}")]
    Report(ReportFault),
}

impl From<ReportFault> for ListFault {
    ghost from_gives = { λ error fault. fault ≡ list_fault.Report error };

    fn from(error: ReportFault) -> Self {
        ListFault::Report(error)
    }
}

/// The request of one trace: these files, with the settings of the whole.
fn request_of(whole: &Asked, files: Vec<String>) -> Asked
    requires range { AreInRange whole.now }
    requires few { length files.items ≤ 8 }
    ensures request { IsRequestOf whole.now (map string_bytes files.items) result }
    ensures range { AreInRange result }
{
    Asked {
        workers: whole.workers,
        slots: whole.slots,
        model: whole.model,
        json: true,
        carriers: whole.carriers,
        explain: false,
        svg: false,
        coverage: whole.coverage,
        complete: whole.complete,
        strength: whole.strength,
        where_file: None,
        list_file: None,
        files,
    }
}

/// Writes the line of a trace that was judged.
fn tell_judged<W: Write>(
    alloc: Global,
    out: &mut W,
    names: &[String],
    judged: &Judged,
) -> Result<u8, ReportFault>
    ensures { IfOk result (λ status. Writes (W.contents out.old) (W.contents out.new)
        (λ text. IsJudgedTold (map string_bytes names.now) judged.now text status)) }
{
    let status = status_of(judged);
    let report = told_value(alloc, judged)?;
    judged_line(alloc, out, names, status, report)?;
    Ok(status)
}

/// A fault in words.
fn words<D: Display>(alloc: Global, fault: &D) -> Result<String, NoMemory> {
    Ok(fault.to_string(alloc)?)
}

/// Words for a file that does not open.
fn unopened_words(alloc: Global, name: &String) -> Result<String, NoMemory> {
    Ok(format!(in alloc; "cannot open {name}")?)
}

/// Words for a line that names no trace.
fn no_trace_words(alloc: Global, number: u32, fault: NamesFault) -> Result<String, NoMemory> {
    Ok(format!(in alloc; "line {number}: {fault}")?)
}

/// Writes the line of a trace whose source has a fault.
fn tell_fault<W: Write>(
    alloc: Global,
    out: &mut W,
    names: &[String],
    source: u8,
    fault: TraceFault,
) -> Result<u8, ReportFault>
    ensures { IfOk result (λ status. Writes (W.contents out.old) (W.contents out.new)
        (λ text. IsFaultTold (map string_bytes names.now) source fault text status)) }
{
    let status = status_of_kind(fault.kind);
    let text = words(alloc, &fault.kind)?;
    let failure = Failure {
        source: Some(source),
        row: Some(fault.row),
        fault: Some(fault.kind.number()),
        text: text.as_str(),
    };
    failed_line(alloc, out, names, status, failure)?;
    Ok(status)
}

/// Writes the line of a trace that was not judged for this reason.
fn tell_failure<W: Write>(
    alloc: Global,
    out: &mut W,
    names: &[String],
    status: u8,
    text: &str,
) -> Result<u8, ReportFault>
    ensures { IfOk result (λ s. (s ≡ status) × Writes (W.contents out.old) (W.contents out.new)
        (IsFailureTold (map string_bytes names.now) status)) }
{
    let failure = Failure {
        source: None,
        row: None,
        fault: None,
        text,
    };
    failed_line(alloc, out, names, status, failure)?;
    Ok(status)
}

/// Writes the line of a trace that ends so.
fn tell_ending<W: Write>(
    alloc: Global,
    out: &mut W,
    names: &[String],
    ending: &Ending,
) -> Result<u8, ReportFault>
    requires { IsOfSources ending.now }
    ensures { IfOk result (λ status. Writes (W.contents out.old) (W.contents out.new)
        (λ text. IsTraceTold (map string_bytes names.now) ending.now text status)) }
{
    match ending {
        Ending::Ran(judged) => tell_judged(alloc, out, names, judged),
        Ending::Failed(RunFault::Trace { source, fault }) => {
            tell_fault(alloc, out, names, *source, *fault)
        }
        Ending::Failed(fault) => {
            let text = words(alloc, fault)?;
            tell_failure(alloc, out, names, FAILED, text.as_str())
        }
        Ending::NotOpened(name) => {
            let text = unopened_words(alloc, name)?;
            tell_failure(alloc, out, names, FAILED, text.as_str())
        }
        Ending::Words(_) | Ending::NotText => unreachable!(),
    }
}

/// The status of a line that names no trace.
fn status_of_names(fault: NamesFault) -> u8
    ensures { result ≡ status_of_names fault }
{
    match fault {
        NamesFault::NoMemory => FAILED,
        NamesFault::NotText | NamesFault::TooMany | NamesFault::Empty => WRONG_INPUT,
    }
}

/// Writes the line of a trace that the list does not name.
fn tell_no_trace<W: Write>(
    alloc: Global,
    out: &mut W,
    number: u32,
    line: &[u8],
    fault: NamesFault,
) -> Result<u8, ReportFault>
    requires { IsNamesFault line.now fault }
    ensures { IfOk result (λ status. Writes (W.contents out.old) (W.contents out.new)
        (λ text. IsNoTraceTold line.now text status)) }
{
    let text = no_trace_words(alloc, number, fault)?;
    tell_failure(alloc, out, &[], status_of_names(fault), text.as_str())
}

/// How grave a status is: from 3, over 2, 1 and 4, down to 0.
fn gravity(status: u8) -> u8
    ensures { result ≡ gravity status }
{
    match status {
        FORBIDDEN => 2,
        WRONG_INPUT => 3,
        FAILED => 4,
        INCOMPLETE => 1,
        _ => 0,
    }
}

/// The graver one of two statuses.
fn graver(first: u8, second: u8) -> u8
    ensures { result ≡ graver first second }
{
    if gravity(first) < gravity(second) {
        second
    } else {
        first
    }
}

/// The status of a list by the gravest one of its traces: a list without a trace is not complete.
fn list_status(is_empty: bool, complete: bool, status: u8) -> u8
    ensures { result ≡ list_status is_empty complete status }
{
    if is_empty && complete {
        INCOMPLETE
    } else {
        status
    }
}

/// Where a list is read.
type ListInput<F> = Either<F, Either<File, Stdin>>;

/// What the traces of a list are judged with: its files are those of the opener, and are judged in
/// threads of the second handle.
#[derive(Drop)]
pub struct Judge<'a, RT, O> {
    /// The system.
    pub rt: HostRuntime,
    /// What starts threads.
    pub threads: &'a RT,
    /// What opens files.
    pub opener: &'a O,
    /// The settings of each trace.
    pub asked: &'a Asked,
}

impl<'a, RT: Threads + Wait + Sync + Copy + Send + 'static, O: Opener> Judge<'a, RT, O> {
    /// Judges the trace that a line names, and writes its line.
    fn tell_line<W: Write>(&self, out: &mut W, line: &[u8], number: u32) -> Result<u8, ReportFault>
        requires { AreInRange self.now.asked.now }
        ensures { IfOk result (λ status. Writes (W.contents out.old) (W.contents out.new)
            (λ text. IsLineTold (O.known self.now.opener.now) self.now.asked.now line.now text status)) }
    {
        let alloc = self.rt.alloc();
        let files = match names_in(alloc, line) {
            Ok(files) => files,
            Err(fault) => return tell_no_trace(alloc, out, number, line, fault),
        };
        let asked = request_of(self.asked, files);
        let ending = answer(&self.rt, self.threads, self.opener, &asked);
        tell_ending(alloc, out, asked.files.as_slice(), &ending)
    }

    /// Judges the traces of a list one after another, writes the line of each as soon as it is
    /// judged, and gives the gravest status.
    fn tell_lines<R: BufRead, W: Write, E: Write>(
        &self,
        reader: &mut R,
        out: &mut W,
        errors: &mut E,
        progress: &mut Progress,
    ) -> Result<u8, ListFault>
        requires { AreInRange self.now.asked.now }
        ensures { IfOk result (AreTold (O.known self.now.opener.now) self.now.asked.now
            (R.remaining reader.old) (W.contents out.old) (W.contents out.new)) }
    {
        let mut line = Vec::new(self.rt.alloc());
        let mut gravest = ALLOWED;
        'lines: for number in 1..u32::MAX {
            let Ok(found) = next_line(reader, &mut line) else {
                return Err(ListFault::Read);
            };
            if !found {
                return Ok(list_status(number == 1, self.asked.complete, gravest));
            }
            let status = self.tell_line(out, line.as_slice(), number)?;
            if out.flush().is_err() {
                return Err(ListFault::Report(ReportFault::Write));
            }
            progress.note(&self.rt, errors, status == FORBIDDEN);
            gravest = graver(gravest, status);
        }
        Err(ListFault::TooLong)
    }
    /// Opens the list of this name: standard input for `-`.
    fn open_list(&self, name: &String) -> Result<ListInput<O::File>, ListFault>
        ensures { IfOk result (λ input. ⟦<ListInput<O::File> as Read>⟧.remaining input
            ≡ list_bytes (O.known self.now.opener.now) (string_bytes name.now)) }
    {
        if name.as_str() == "-" {
            return Ok(Either::Right(Either::Right(self.rt.stdin())));
        }
        match self.opener.open(name) {
            Ok(Some(file)) => Ok(Either::Left(file)),
            Ok(None) => match File::open(&self.rt, name.as_str()) {
                Ok(file) => Ok(Either::Right(Either::Left(file))),
                Err(_) => Err(ListFault::Open),
            },
            Err(Unopened) => Err(ListFault::Open),
        }
    }

    /// Judges the traces of the list of this name.
    fn tell_list<W: Write, E: Write>(
        &self,
        name: &String,
        out: &mut W,
        errors: &mut E,
        progress: &mut Progress,
    ) -> Result<u8, ListFault>
        requires { AreInRange self.now.asked.now }
        ensures { IfOk result (AreTold (O.known self.now.opener.now) self.now.asked.now
            (list_bytes (O.known self.now.opener.now) (string_bytes name.now))
            (W.contents out.old) (W.contents out.new)) }
    {
        let input = self.open_list(name)?;
        let Ok(mut reader) = BufReader::new(self.rt.alloc(), input) else {
            return Err(ListFault::Read);
        };
        self.tell_lines(&mut reader, out, errors, progress)
    }

    /// Judges the traces of the list that is asked for, and gives the exit status. How far it is is
    /// told to `errors` where that is asked for. Where the list cannot be read or a line not be
    /// written, that is told there too, and the lines before it stand.
    pub fn judge_list<W: Write, E: Write>(&self, out: &mut W, errors: &mut E, is_told: bool) -> u8
        requires { IsForList self.now.asked.now }
        ensures { IsListTold (O.known self.now.opener.now) self.now.asked.now
            (W.contents out.old) (W.contents out.new) result ⊎ (result ≡ FAILED) }
    {
        let Some(name) = &self.asked.list_file else {
            unreachable!()
        };
        let mut progress = Progress::new(&self.rt, is_told);
        let told = self.tell_list(name, out, errors, &mut progress);
        progress.end(&self.rt, errors);
        match told {
            Ok(status) => {
                if status == INCOMPLETE && progress.is_empty() {
                    let _ = writeln!(errors, "rvmon: incomplete: no traces");
                }
                status
            }
            Err(ListFault::Report(fault)) => {
                let _ = writeln!(errors, "rvmon: {fault}");
                FAILED
            }
            Err(fault) => {
                let _ = writeln!(errors, "rvmon: {fault} {name}");
                FAILED
            }
        }
    }
}
