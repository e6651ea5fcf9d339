//! Where the sources' bytes come from.
ghost use Rattle.std.specs.Prelude.{◌≡◌, ◌≤◌, ◌++◌, ◌∷◌, [], ℕ, List, Option, None};
ghost use Rattle.std.specs.Prelude.{IfErr, IfNone, IfOk, IfSome, length, map, string_bytes};
ghost use Rattle.clap.specs.Words.{Text};
ghost use Rattle.rvmon.specs.Starting.{IsUnopened, IsUnopenedFile, bytes_asked, nothing_known};

use crate::ending::Ending;
use either::Either;
use rv_pipe::{Bell, End, Pipe, Piped, pump};
use rv_run::RunFault;
use std::alloc::{AllocError, Global};
use std::fs::File;
use std::io::Read;
use std::sync::{Arc, Wait};
use std::thread::Threads;
use std::{fs, thread};

/// What opens files by their names.
pub trait Opener {
    /// Where the bytes of a file are read.
    type File: Read + Send + Drop;

    // the bytes of the file of a name, where they are known
    ghost known: { Self → Text → Option (List ℕ) };

    /// Opens the file of this name, if its bytes are all there, and so are read where they are
    /// used. `None` where a thread of its own has to wait for them.
    ///
    /// # Errors
    /// The file is not there, or may not be read.
    fn open(&self, name: &String) -> Result<Option<Self::File>, Unopened>
        ensures opened { IfOk result (λ file. IfSome file (λ f.
            Self.File.remaining f ≡ known self.now (string_bytes name.now))) }
        ensures silent { IfOk result (λ file. IfNone file
            (known self.now (string_bytes name.now) ≡ None)) };
}

/// A file that is not there, or may not be read.
#[derive(Debug, Drop)]
pub struct Unopened;

/// The files of a system. Nothing is known of their bytes.
#[derive(Drop)]
pub struct SystemFiles {
    rt: HostRuntime,
}

impl SystemFiles {
    /// Those of this system.
    pub fn new(rt: HostRuntime) -> SystemFiles {
        SystemFiles { rt }
    }
}

impl Opener for SystemFiles {
    type File = File;

    ghost known = { λ files. nothing_known };

    fn open(&self, name: &String) -> Result<Option<File>, Unopened> {
        let Ok(found) = fs::metadata(&self.rt, name.as_str()) else {
            return Err(Unopened);
        };
        if !found.is_file() && !found.is_dir() {
            return Ok(None);
        }
        match File::open(&self.rt, name.as_str()) {
            Ok(file) => Ok(Some(file)),
            Err(_) => Err(Unopened),
        }
    }
}

/// The bytes of a source: a file that is open, or what a thread of its own reads.
pub type Input<F, RT> = Either<F, Piped<RT>>;

/// A source that is open, with its pipe where a thread of its own reads it.
#[derive(Drop)]
struct Source<F, RT: Wait> {
    input: Input<F, RT>,
    pipe: Option<Arc<Pipe, Global>>,
}

/// The sources, in order, and of each the pipe where a thread of its own reads it.
#[derive(Drop)]
pub struct Opened<F, RT: Wait> {
    /// Where each source is read.
    pub inputs: Vec<Input<F, RT>>,
    /// Through what the bytes of each source come, if they come from another thread.
    pub pipes: Vec<Option<Arc<Pipe, Global>>>,
}

impl<F: Drop, RT: Wait + Copy> Opened<F, RT> {
    /// No sources.
    fn new(alloc: Global) -> Opened<F, RT>
        ensures { result.inputs.items ≡ [] }
    {
        Opened {
            inputs: Vec::new(alloc),
            pipes: Vec::new(alloc),
        }
    }

    /// Adds a source, or leaves the inputs as they are.
    fn push(&mut self, source: Source<F, RT>) -> Result<(), AllocError>
        ensures { IfOk result (λ _.
            self.new.inputs.items ≡ self.old.inputs.items ++ source.input ∷ []) }
    {
        self.pipes.push(source.pipe)?;
        self.inputs.push(source.input)?;
        Ok(())
    }
}

/// Reads the file of this name in a thread that nobody waits for. It is opened there too, since a
/// FIFO opens only once its writer has come.
fn pump_file<RT: Threads + Wait + Copy + Send + 'static>(
    rt: HostRuntime,
    threads: &RT,
    name: String,
    pipe: Arc<Pipe, Global>,
) -> Result<(), AllocError> {
    let theirs = *threads;
    let _detached = thread::spawn(threads, move || match File::open(&rt, name.as_str()) {
        Ok(mut file) => pump(&theirs, &mut file, &pipe),
        Err(_) => pipe.end(&theirs, End::Unopened),
    })?;
    Ok(())
}

/// Reads standard input in a thread that nobody waits for.
fn pump_stdin<RT: Threads + Wait + Copy + Send + 'static>(
    rt: HostRuntime,
    threads: &RT,
    pipe: Arc<Pipe, Global>,
) -> Result<(), AllocError> {
    let theirs = *threads;
    let _detached = thread::spawn(threads, move || {
        let mut input = rt.stdin();
        pump(&theirs, &mut input, &pipe);
    })?;
    Ok(())
}

/// The source of this number, read by a thread of its own: the file of the name, or standard input
/// where there is none.
fn piped<F: Read + Drop, RT: Threads + Wait + Copy + Send + 'static>(
    rt: &HostRuntime,
    threads: &RT,
    name: Option<&String>,
    number: u8,
    bell: &Arc<Bell, Global>,
) -> Result<Source<F, RT>, AllocError>
    ensures { IfOk result (λ s. ⟦<Input<F, RT> as Read>⟧.remaining s.input ≡ None) }
{
    let alloc = rt.alloc();
    let pipe = Arc::new(alloc, Pipe::new(number, Arc::try_clone(bell)?))?;
    match name {
        Some(name) => {
            let name = String::from_str(alloc, name.as_str())?;
            pump_file(*rt, threads, name, Arc::try_clone(&pipe)?)?;
        }
        None => pump_stdin(*rt, threads, Arc::try_clone(&pipe)?)?,
    }
    let input = Either::Right(Piped::new(*threads, Arc::try_clone(&pipe)?));
    Ok(Source {
        input,
        pipe: Some(pipe),
    })
}

/// Standard input as the only source.
fn standard_input<F: Read + Drop, RT: Threads + Wait + Copy + Send + 'static>(
    rt: &HostRuntime,
    threads: &RT,
    bell: &Arc<Bell, Global>,
) -> Result<Opened<F, RT>, AllocError>
    ensures { IfOk result (λ opened.
        map ⟦<Input<F, RT> as Read>⟧.remaining opened.inputs.items ≡ None ∷ []) }
{
    let mut opened = Opened::new(rt.alloc());
    opened.push(piped(rt, threads, None, 0, bell)?)?;
    Ok(opened)
}

/// The file of this name is not there, or may not be read.
fn not_opened(alloc: Global, name: &String) -> Ending
    ensures { IsUnopenedFile (string_bytes name.now) result }
{
    match String::from_str(alloc, name.as_str()) {
        Ok(name) => Ending::NotOpened(name),
        Err(_) => Ending::Failed(RunFault::NoMemory),
    }
}

/// The source of this number, of the file of this name. A file whose bytes are all there is read
/// where it is used.
fn open<O: Opener, RT: Threads + Wait + Copy + Send + 'static>(
    rt: &HostRuntime,
    threads: &RT,
    opener: &O,
    name: &String,
    number: u8,
    bell: &Arc<Bell, Global>,
) -> Result<Source<O::File, RT>, Ending>
    ensures opened { IfOk result (λ s. ⟦<Input<O::File, RT> as Read>⟧.remaining s.input
        ≡ O.known opener.now (string_bytes name.now)) }
    ensures refused { IfErr result (IsUnopenedFile (string_bytes name.now)) }
{
    match opener.open(name) {
        Ok(Some(file)) => Ok(Source {
            input: Either::Left(file),
            pipe: None,
        }),
        Ok(None) => match piped(rt, threads, Some(name), number, bell) {
            Ok(source) => Ok(source),
            Err(_) => Err(Ending::Failed(RunFault::NoMemory)),
        },
        Err(Unopened) => Err(not_opened(rt.alloc(), name)),
    }
}

/// The files, in order; standard input where there is none. Nobody waits for a file that is not
/// there yet.
pub fn open_all<O: Opener, RT: Threads + Wait + Copy + Send + 'static>(
    rt: &HostRuntime,
    threads: &RT,
    opener: &O,
    names: &[String],
    bell: &Arc<Bell, Global>,
) -> Result<Opened<O::File, RT>, Ending>
    requires { length names.now ≤ 8 }
    ensures opened { IfOk result (λ opened.
        map ⟦<Input<O::File, RT> as Read>⟧.remaining opened.inputs.items
        ≡ bytes_asked (O.known opener.now) names.now) }
    ensures refused { IfErr result (IsUnopened (map string_bytes names.now)) }
{
    if names.is_empty() {
        return match standard_input(rt, threads, bell) {
            Ok(opened) => Ok(opened),
            Err(_) => Err(Ending::Failed(RunFault::NoMemory)),
        };
    }
    let mut opened = Opened::new(rt.alloc());
    for name in names {
        let number = opened.inputs.len() as u8;
        let source = match open(rt, threads, opener, name, number, bell) {
            Ok(source) => source,
            Err(ending) => return Err(ending),
        };
        if opened.push(source).is_err() {
            return Err(Ending::Failed(RunFault::NoMemory));
        }
    }
    Ok(opened)
}

/// The first of the files that did not open, of those that a thread of their own was to open.
pub fn first_unopened<RT: Wait>(
    alloc: Global,
    threads: &RT,
    names: &[String],
    pipes: &[Option<Arc<Pipe, Global>>],
) -> Option<Ending>
    ensures { IfSome result (IsUnopened (map string_bytes names.now)) }
{
    let mut pipes = pipes.iter();
    for name in names {
        if let Some(Some(pipe)) = pipes.next() {
            if pipe.is_unopened(threads) {
                return Some(not_opened(alloc, name));
            }
        }
    }
    None
}
