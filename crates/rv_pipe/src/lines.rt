//! Bytes that were handed over and not taken yet.
ghost use Rattle.std.specs.Prelude.{◌≡◌, ◌≢◌, ◌≤◌, ◌<◌, ◌↔◌, ◌+◌, ◌++◌, [], ◌==◌, length, min, not, take, drop};
ghost use Rattle.std.specs.Prelude.{IsTrue, ℕ};
ghost use Rattle.std.specs.List.{position};
ghost use Rattle.rv_pipe.specs.Rows.{HasRow, IsRowEnd, has_feed, is_line_end};

use std::marker::Model;

/// How many bytes are handed over at once.
pub(crate) const SIZE: usize = 16384;

/// How many bytes there is room for.
const ROOM: usize = 2 * SIZE;

/// Bytes that were put and not taken yet, which are taken row by row.
#[derive(Drop)]
pub(crate) struct Lines {
    bytes: [u8; ROOM],
    from: usize,
    to: usize,
}

impl Model for Lines {
    ghost use Rattle.std.specs.Prelude.{ℕ, ◌≤◌, List, slice_range};

    ghost Value = { List ℕ };

    ghost view = { λ l. slice_range l.bytes l.from l.to };

    ghost invariant = { λ l. (l.from ≤ l.to) × (l.to ≤ 32768) };
}

/// Whether a byte ends a line. A line that has no other bytes is no row.
fn ends_line(byte: u8) -> bool
    ensures { result ≡ is_line_end byte }
{
    byte == b'\n' || byte == b'\r'
}

/// Whether a line feed stands behind the line ends that the bytes begin with.
fn has_feed(bytes: &[u8]) -> bool
    ensures { result ≡ has_feed bytes.now }
{
    bytes
        .iter()
        .skip_while(|b| ends_line(**b))
        .any(|b| *b == b'\n')
}

/// The place of the first byte that ends no line.
fn find_text(bytes: &[u8]) -> Option<usize>
    ensures { result ≡ position (λ byte. not (is_line_end byte)) bytes.now }
{
    bytes.iter().position(|b| !ends_line(*b))
}

/// The place of the first line feed.
fn find_feed(bytes: &[u8]) -> Option<usize>
    ensures { result ≡ position (λ byte. byte == 10) bytes.now }
{
    bytes.iter().position(|b| *b == b'\n')
}

/// The place behind the first row and its line feed, or that behind the last byte.
fn row_end(bytes: &[u8]) -> usize
    ensures end { IsRowEnd bytes.now result }
    ensures some { bytes.now ≢ [] → 0 < result }
{
    let Some(text) = find_text(bytes) else {
        return bytes.len();
    };
    match find_feed(&bytes[text..]) {
        Some(feed) => text + feed + 1,
        None => bytes.len(),
    }
}

impl Lines {
    /// No bytes.
    pub(crate) fn new() -> Lines
        ensures { result ≡ [] }
    {
        Lines {
            bytes: [0; ROOM],
            from: 0,
            to: 0,
        }
    }

    /// The bytes, in order.
    fn as_slice(&self) -> &[u8]
        ensures value { result.now ≡ self.now }
        ensures fits { length result.now ≤ ROOM }
    {
        &self.bytes[self.from..self.to]
    }

    /// Whether a row stands here: a line feed, behind something that is none.
    fn has_row(&self) -> bool
        ensures { IsTrue result ↔ HasRow self.now }
    {
        has_feed(self.as_slice())
    }

    /// Whether more may be put behind these: no row stands here, and a block has room.
    pub(crate) fn has_room(&self) -> bool
        ensures { IsTrue result ↔ (length self.now ≤ SIZE) × (HasRow self.now → ⊥) }
    {
        self.as_slice().len() <= SIZE && !self.has_row()
    }

    /// Puts bytes behind those that are there.
    pub(crate) fn put(&mut self, block: &[u8])
        requires { length self.old + length block.now ≤ ROOM }
        ensures { self.new ≡ self.old ++ block.now }
    {
        let count = self.to - self.from;
        self.bytes.copy_within(self.from..self.to, 0);
        self.bytes[count..count + block.len()].copy_from_slice(block);
        self.from = 0;
        self.to = count + block.len();
    }

    /// Passes over so many bytes.
    fn skip(&mut self, count: usize)
        requires { count ≤ length self.old }
        ensures { self.new ≡ drop count self.old }
    {
        self.from += count;
    }

    /// Takes bytes: to the end of the first row, or as many as there is room for.
    pub(crate) fn take(&mut self, buf: &mut [u8]) -> usize
        ensures bound { result ≤ length buf.new }
        ensures some { self.old ≢ [] → 0 < length buf.new → 0 < result }
        ensures row { (count : ℕ) × IsRowEnd self.old count × (result ≡ min count (length buf.new)) }
        ensures taken { take result buf.new ≡ take result self.old }
        ensures left { self.new ≡ drop result self.old }
    {
        let bytes = self.as_slice();
        let count = row_end(bytes).min(buf.len());
        buf[..count].copy_from_slice(&bytes[..count]);
        self.skip(count);
        count
    }
}
