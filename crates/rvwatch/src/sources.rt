//! Where the rows of a run come from.
//!
//! A file whose bytes are all there is read where it is used. A FIFO or a device may be silent for
//! as long as it likes, so a thread of its own opens and reads it. Nobody waits for that thread, and
//! it ends with the program.

use either::Either;
use rv_pipe::{Bell, End, Pipe, Piped, pump};
use rv_trace::Feed;
use std::alloc::{AllocError, Global};
use std::fs::{self, File};
use std::sync::{Arc, Wait};
use std::thread;
use std::thread::Threads;

/// The bytes of a source: a file that is open, or what a thread of its own reads.
type Input<RT> = Either<File, Piped<RT>>;

/// The files of a run, in order.
#[derive(Drop)]
pub(crate) struct Sources<RT: Wait> {
    /// Where the rows of each file are read.
    pub(crate) feeds: Vec<Feed<Input<RT>>>,
    /// Tells which files give no row yet.
    pub(crate) bell: Arc<Bell, Global>,
    /// Through what the bytes of each file come, where another thread reads it.
    pipes: Vec<Option<Arc<Pipe, Global>>>,
}

impl<RT: Threads + Wait + Copy + Send + 'static> Sources<RT> {
    /// No files.
    fn new(alloc: Global) -> Result<Sources<RT>, AllocError> {
        Ok(Sources {
            feeds: Vec::new(alloc),
            bell: Arc::new(alloc, Bell::new())?,
            pipes: Vec::new(alloc),
        })
    }

    /// Adds the file of this name. `false` where it is not there, or may not be read.
    fn push(&mut self, rt: &HostRuntime, threads: &RT, name: &str) -> Result<bool, AllocError> {
        let Ok(found) = fs::metadata(rt, name) else {
            return Ok(false);
        };
        if !found.is_file() && !found.is_dir() {
            self.push_piped(rt, threads, name)?;
            return Ok(true);
        }
        let Ok(file) = File::open(rt, name) else {
            return Ok(false);
        };
        self.pipes.push(None)?;
        self.feeds.push(Feed::new(rt.alloc(), Either::Left(file)))?;
        Ok(true)
    }

    /// Adds the file of this name, which a thread of its own opens and reads.
    fn push_piped(&mut self, rt: &HostRuntime, threads: &RT, name: &str) -> Result<(), AllocError> {
        let number = (self.feeds.len() % 256) as u8;
        let bell = Arc::try_clone(&self.bell)?;
        let pipe = Arc::new(rt.alloc(), Pipe::new(number, bell))?;
        let name = String::from_str(rt.alloc(), name)?;
        pump_file(*rt, threads, name, Arc::try_clone(&pipe)?)?;
        let input = Piped::new(*threads, Arc::try_clone(&pipe)?);
        self.pipes.push(Some(pipe))?;
        self.feeds
            .push(Feed::new(rt.alloc(), Either::Right(input)))?;
        Ok(())
    }

    /// The place of the first file that its thread could not open.
    pub(crate) fn first_unopened(&self, threads: &RT) -> Option<usize> {
        for place in 0..self.pipes.len() {
            if let Some(pipe) = &self.pipes[place] {
                if pipe.is_unopened(threads) {
                    return Some(place);
                }
            }
        }
        None
    }

    /// Whether a thread of its own reads one of the files, so that they can't be read twice.
    pub(crate) fn has_pipe(&self) -> bool {
        self.pipes.iter().any(|pipe| pipe.is_some())
    }
}

/// Opens and reads the file of this name in a thread that nobody waits for. A FIFO opens only once
/// its writer has come.
fn pump_file<RT: Threads + Wait + Copy + Send + 'static>(
    rt: HostRuntime,
    threads: &RT,
    name: String,
    pipe: Arc<Pipe, Global>,
) -> Result<(), AllocError> {
    let theirs = *threads;
    let _detached = thread::spawn(threads, move || match File::open(&rt, name.as_str()) {
        Ok(mut file) => pump(&theirs, &mut file, &pipe),
        Err(_) => pipe.end(&theirs, End::Unopened),
    })?;
    Ok(())
}

/// The files of these names, in their order; the name of one that does not open.
pub(crate) fn open_all<RT: Threads + Wait + Copy + Send + 'static>(
    rt: &HostRuntime,
    threads: &RT,
    names: &[String],
) -> Result<Result<Sources<RT>, String>, AllocError> {
    let mut sources = Sources::new(rt.alloc())?;
    for name in names {
        if !sources.push(rt, threads, name.as_str())? {
            drop(sources);
            return Ok(Err(String::from_str(rt.alloc(), name.as_str())?));
        }
    }
    Ok(Ok(sources))
}
