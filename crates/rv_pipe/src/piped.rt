//! The reader of a pipe.
ghost use Rattle.std.specs.Prelude.{◌≡◌};

use crate::pipe::{End, Lack, Pipe};
use std::alloc::Global;
use std::io;
use std::io::{ErrorKind, Read};
use std::sync::{Arc, Wait};

/// Reads what comes through a pipe, a row at a time at most, and waits for it.
///
/// It does not tell its bytes, as a file does not.
///
/// # Errors
/// A read fails, with the kind `Other`, where one of the source's has, where the source could not
/// be opened, and where nothing is there while the run is over. The next read tries again.
#[derive(Drop)]
pub struct Piped<RT: Wait> {
    rt: RT,
    pipe: Arc<Pipe, Global>,
}

impl<RT: Wait> Piped<RT> {
    /// The reader of this pipe, which waits by this handle.
    pub fn new(rt: RT, pipe: Arc<Pipe, Global>) -> Piped<RT>
        ensures rt { result.rt ≡ rt }
        ensures pipe { result.pipe ≡ pipe }
    {
        Piped { rt, pipe }
    }
}

impl<RT: Wait> Read for Piped<RT> {
    fn read(&mut self, buf: &mut [u8]) -> io::Result<usize> {
        if buf.is_empty() {
            return Ok(0);
        }
        for _ in self.rt.forever() {
            let seen = self.pipe.wakes();
            match self.pipe.take(&self.rt, buf) {
                Ok(count) => return Ok(count),
                Err(Lack::Ended(End::Whole)) => return Ok(0),
                Err(Lack::Ended(End::Failed | End::Unopened)) => {
                    return Err(io::Error::from(ErrorKind::Other));
                }
                Err(Lack::Yet) => {}
            }
            if self.pipe.is_over() {
                return Err(io::Error::from(ErrorKind::Other));
            }
            self.pipe.rest(&self.rt, seen);
        }
        unreachable!()
    }
}
