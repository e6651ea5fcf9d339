//! A reader that fails once, and one that never ends.
use std::io;
use std::io::Read;

/// Gives one byte a call, but for one call that fails: after it, it goes on.
#[derive(Drop)]
pub struct Failing<'a> {
    /// What is left.
    pub text: &'a [u8],
    /// How many calls are left before the one that fails.
    pub calls: usize,
}

impl Read for Failing<'_> {
    fn read(&mut self, buf: &mut [u8]) -> io::Result<usize> {
        if self.calls == 0 {
            self.calls = usize::MAX;
            return Err(io::Error::from(io::ErrorKind::Interrupted));
        }
        self.calls -= 1;
        if buf.is_empty() {
            return Ok(0);
        }
        let Some((first, rest)) = self.text.split_first() else {
            return Ok(0);
        };
        buf[0] = *first;
        self.text = rest;
        Ok(1)
    }
}

/// Gives a front, and then one text for ever.
#[derive(Drop)]
pub struct Endless {
    /// What is left of the text that is being given.
    pub left: &'static [u8],
    /// What comes then, again and again.
    pub again: &'static [u8],
}

impl Read for Endless {
    fn read(&mut self, buf: &mut [u8]) -> io::Result<usize> {
        if self.left.is_empty() {
            self.left = self.again;
        }
        let count = self.left.len().min(buf.len());
        buf[..count].copy_from_slice(&self.left[..count]);
        self.left = &self.left[count..];
        Ok(count)
    }
}
