//! A writer that fails once, and takes no memory.
use std::io;
use std::io::Write;

/// How many bytes a writer has room for: more than each report of the litmus tests has.
const ROOM: usize = 1024;

/// Takes one byte a call, but for one call that fails: after it, it goes on. It takes no memory.
#[derive(Drop)]
pub struct Failing {
    taken: [u8; ROOM],
    length: usize,
    calls: usize,
}

impl Failing {
    /// A writer whose call after so many is the one that fails.
    pub fn after(calls: usize) -> Self {
        Failing {
            taken: [0; ROOM],
            length: 0,
            calls,
        }
    }

    /// What it has taken.
    pub fn taken(&self) -> &[u8] {
        &self.taken[..self.length.min(ROOM)]
    }
}

impl Write for Failing {
    fn write(&mut self, buf: &[u8]) -> io::Result<usize> {
        if self.calls == 0 {
            self.calls = usize::MAX;
            return Err(io::Error::from(io::ErrorKind::Interrupted));
        }
        self.calls -= 1;
        let Some(first) = buf.first() else {
            return Ok(0);
        };
        if self.length >= ROOM {
            return Ok(0);
        }
        self.taken[self.length] = *first;
        self.length += 1;
        Ok(1)
    }

    fn flush(&mut self) -> io::Result<()> {
        Ok(())
    }
}
