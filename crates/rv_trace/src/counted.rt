//! A reader that may be kept to so many bytes and calls, and that has ended once and for all.
ghost use Rattle.std.specs.Prelude.{◌≡◌, ◌+◌, ◌≤◌, ◌<◌, ◌⊎◌, ◌^◌, ◌-◌, min, IfOk, IsErr, is_err, length, true, false};
ghost use Rattle.std.specs.Io.{ReadsAtMost};
ghost use Rattle.std.specs.Io.KnownBytes.{ReadConsumes};
ghost use Rattle.rv_trace.specs.Counted.{bytes_taken, calls_made, last_refused, has_ended, bytes_left, limit_of};

use std::io;
use std::io::Read;

/// How many bytes, and how many calls, a source may take before each further read is refused.
pub const LIMIT: u64 = 67_108_864;

/// A reader that counts the bytes and the calls, and refuses each read from its limit on. So a
/// source that never ends is left in the end, where there is one. Once a read gave nothing, the reader underneath is
/// not asked again: a terminal, or a file that grows, may have more after its end.
#[derive(Drop)]
pub struct Counted<R> {
    inner: R,
    limit: u64,
    bytes: u64,
    calls: u64,
    refused: bool,
    ended: bool,
}

impl<R: Read> Counted<R> {
    /// Over `inner`, with nothing counted yet, and kept to the limit of a source.
    pub fn new(inner: R) -> Counted<R>
        ensures remaining { ⟦<Counted<R> as Read>⟧.remaining result ≡ R.remaining inner }
        ensures limit { limit_of result ≡ LIMIT }
        ensures bytes { bytes_taken result ≡ 0 }
        ensures calls { calls_made result ≡ 0 }
        ensures refused { last_refused result ≡ false }
        ensures ended { has_ended result ≡ false }
    {
        Counted::with_limit(inner, LIMIT)
    }

    /// The same, where there is no limit but that of the counts themselves.
    pub fn endless(inner: R) -> Counted<R>
        ensures remaining { ⟦<Counted<R> as Read>⟧.remaining result ≡ R.remaining inner }
        ensures limit { limit_of result ≡ u64.MAX }
        ensures bytes { bytes_taken result ≡ 0 }
        ensures calls { calls_made result ≡ 0 }
        ensures refused { last_refused result ≡ false }
        ensures ended { has_ended result ≡ false }
    {
        Counted::with_limit(inner, u64::MAX)
    }

    /// The same, kept to this limit.
    fn with_limit(inner: R, limit: u64) -> Counted<R>
        ensures remaining { ⟦<Counted<R> as Read>⟧.remaining result ≡ R.remaining inner }
        ensures limit { limit_of result ≡ limit }
        ensures bytes { bytes_taken result ≡ 0 }
        ensures calls { calls_made result ≡ 0 }
        ensures refused { last_refused result ≡ false }
        ensures ended { has_ended result ≡ false }
    {
        Counted {
            inner,
            limit,
            bytes: 0,
            calls: 0,
            refused: false,
            ended: false,
        }
    }

    /// Whether the last read answered an error.
    pub fn last_refused(&self) -> bool
        ensures { result ≡ last_refused self.now }
    {
        self.refused
    }
}

impl<R: Read> Read for Counted<R> {
    ghost remaining = { bytes_left R.remaining };

    fn read(&mut self, buf: &mut [u8]) -> io::Result<usize>
        ensures bound { ReadsAtMost result buf.new }
        ensures bytes { ReadConsumes
            (bytes_left R.remaining self.old) (bytes_left R.remaining self.new) result buf.new }
        ensures limit { (limit_of self.old ≤ bytes_taken self.old) ⊎ (limit_of self.old ≤ calls_made self.old)
            → IsErr result }
        ensures kept { limit_of self.new ≡ limit_of self.old }
        ensures refused { last_refused self.new ≡ is_err result }
        ensures calls { calls_made self.old < limit_of self.old → bytes_taken self.old < limit_of self.old
            → calls_made self.new ≡ calls_made self.old + 1 }
        ensures taken { IfOk result
            (λ n. bytes_taken self.new ≡ min (bytes_taken self.old + n) (2 ^ 64 - 1)) }
        ensures ends { IfOk result (λ n. n ≡ 0 → 0 < length buf.new → has_ended self.new ≡ true) }
        ensures stays { has_ended self.old ≡ true
            → IfOk result (λ n. n ≡ 0) × (has_ended self.new ≡ true) }
    {
        self.refused = true;
        if self.bytes >= self.limit || self.calls >= self.limit {
            return Err(io::Error::from(io::ErrorKind::Other));
        }
        self.calls += 1;
        let count = if self.ended { 0 } else { self.inner.read(buf)? };
        self.refused = false;
        self.ended |= count == 0 && !buf.is_empty();
        self.bytes = self.bytes.saturating_add(count as u64);
        Ok(count)
    }
}
