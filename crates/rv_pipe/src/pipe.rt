//! The two ends of a pipe: a thread that reads a source, and whoever takes what came.
ghost use Rattle.std.specs.Prelude.{◌≡◌, ◌≤◌, ◌<◌, ◌↔◌, length, IfOk, IsTrue, None};
ghost use Rattle.rv_pipe.specs.Rows.{HasRow};

use crate::bell::Bell;
use crate::lines::{Lines, SIZE};
use std::alloc::Global;
use std::io::Read;
use std::sync::{Arc, Condvar, Mutex, Wait};
use std::time::Duration;

/// For how many milliseconds a pump rests at most while nothing is taken.
const REST: u64 = 200;

/// How a source ended.
#[derive(Clone, Copy, PartialEq, Eq, Debug)]
pub enum End {
    /// It has no more bytes.
    Whole,
    /// A read failed.
    Failed,
    /// It could not be opened.
    Unopened,
}

/// What was handed over and not taken yet, and how the source has ended, if it has.
#[derive(Drop)]
struct Held {
    lines: Lines,
    end: Option<End>,
}

impl Held {
    /// Whether whoever takes a row has to wait for it. Of one that is too long for the room, what is
    /// there is taken at once.
    fn is_dry(&self) -> bool
        ensures { IsTrue result ↔ (self.now.end ≡ None) × (length self.now.lines ≤ SIZE)
            × (HasRow self.now.lines → ⊥) }
    {
        self.end.is_none() && self.lines.has_room()
    }
}

/// Why no bytes are there.
#[derive(Clone, Copy, PartialEq, Eq, Debug)]
pub(crate) enum Lack {
    /// They did not come yet.
    Yet,
    /// None will come.
    Ended(End),
}

/// What a source's bytes pass through, 16 KiB at a time, with the bell that tells of them. A row
/// that is not whole stays until the rest of it came.
///
/// One thread hands bytes over, by [`pump`], and one takes them, by a [`crate::Piped`].
#[derive(Drop)]
pub struct Pipe {
    source: u8,
    held: Mutex<Held>,
    taken: Condvar,
    bell: Arc<Bell, Global>,
}

impl Pipe {
    /// A pipe for the source of this number, 0 to 7, of which nothing is read yet. The bell is that
    /// of the run.
    pub fn new(source: u8, bell: Arc<Bell, Global>) -> Pipe
        ensures source { result.source ≡ source }
        ensures bell { result.bell ≡ bell }
    {
        bell.tell(source, true);
        Pipe {
            source,
            held: Mutex::new(Held {
                lines: Lines::new(),
                end: None,
            }),
            taken: Condvar::new(),
            bell,
        }
    }

    /// Whether the source could not be opened.
    pub fn is_unopened<RT: Wait>(&self, rt: &RT) -> bool {
        self.held.lock(rt).end == Some(End::Unopened)
    }

    /// Says how the source has ended. Bytes that were handed over before can still be taken.
    pub fn end<RT: Wait>(&self, rt: &RT, end: End) {
        let mut held = self.held.lock(rt);
        held.end = Some(end);
        drop(held);
        self.bell.tell(self.source, false);
        self.bell.wake(self.source);
    }

    /// Hands over the bytes where no row is left of those before, and says whether it did.
    fn try_put<RT: Wait>(&self, rt: &RT, block: &[u8]) -> bool
        requires { length block.now ≤ SIZE }
    {
        let mut held = self.held.lock(rt);
        if !held.lines.has_room() {
            return false;
        }
        held.lines.put(block);
        let dry = held.is_dry();
        self.bell.tell(self.source, dry);
        drop(held);
        self.bell.wake(self.source);
        true
    }

    /// Hands over the bytes once the rows before are taken, and says whether it did: not where the
    /// run is over.
    fn put<RT: Wait>(&self, rt: &RT, block: &[u8]) -> bool
        requires { length block.now ≤ SIZE }
    {
        for _ in rt.forever() {
            let seen = self.taken.notifications();
            if self.bell.is_over() {
                return false;
            }
            if self.try_put(rt, block) {
                return true;
            }
            self.taken.sleep(rt, seen, Duration::from_millis(REST));
        }
        unreachable!()
    }

    /// Takes bytes, if some are there: to the end of a row, or as many as there is room for.
    pub(crate) fn take<RT: Wait>(&self, rt: &RT, buf: &mut [u8]) -> Result<usize, Lack>
        ensures { IfOk result (λ count. (0 < count) × (count ≤ length buf.new)) }
    {
        let mut held = self.held.lock(rt);
        let count = held.lines.take(buf);
        if count > 0 {
            let dry = held.is_dry();
            self.bell.tell(self.source, dry);
            if dry {
                self.taken.notify_all();
            }
            return Ok(count);
        }
        match held.end {
            Some(end) => Err(Lack::Ended(end)),
            None => Err(Lack::Yet),
        }
    }

    /// How often its reader was woken.
    pub(crate) fn wakes(&self) -> u64 {
        self.bell.wakes(self.source)
    }

    /// Whether the run is over.
    pub(crate) fn is_over(&self) -> bool {
        self.bell.is_over()
    }

    /// Rests until its reader was woken more often than `seen`, for a moment at most.
    pub(crate) fn rest<RT: Wait>(&self, rt: &RT, seen: u64) {
        self.bell.rest(rt, self.source, seen);
    }
}

/// Reads the source to its end and hands over what comes, until the run is over.
///
/// It asks the source for no more once the run is over. A call that stands in a read of a silent
/// source returns when that read does, so it is for a thread that nobody waits for.
pub fn pump<RT: Wait, R: Read>(rt: &RT, source: &mut R, pipe: &Pipe) {
    let mut block = [0; SIZE];
    for _ in rt.forever() {
        match source.read(&mut block) {
            Ok(0) => {
                pipe.end(rt, End::Whole);
                return;
            }
            Ok(count) => {
                if !pipe.put(rt, &block[..count]) {
                    return;
                }
            }
            Err(_) => {
                pipe.end(rt, End::Failed);
                return;
            }
        }
    }
}
