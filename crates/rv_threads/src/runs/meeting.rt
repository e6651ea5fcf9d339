//! That sources are read side by side.
ghost use Rattle.std.specs.Prelude.{◌≡◌, vec_len};

use super::rows::{HEADER, STORE_BUFFERING};
use rv_event::MemoryModel;
use rv_run::{Outcome, RunFault, Settings, run, run_over};
use rv_slots::LockedSlots;
use std::alloc::Global;
use std::io::Read;
use std::process::Abort;
use std::sync::atomic::{AtomicU64, Ordering};
use std::{io, thread};

/// How many turns a reader waits for the other.
const TURNS: u64 = 100_000_000;

/// A source of a header and rows, a byte a call, whose first read waits until the other's has
/// begun.
#[derive(Drop)]
struct Meeting<'a> {
    header: &'static [u8],
    rows: &'static [u8],
    mine: &'a AtomicU64,
    other: &'a AtomicU64,
    met: bool,
}

impl Meeting<'_> {
    /// Whether the other's first read has begun before so many turns are over.
    fn meets(&self) -> bool {
        self.mine.store(1, Ordering::SeqCst);
        for _ in 0..TURNS {
            if self.other.load(Ordering::SeqCst) == 1 {
                return true;
            }
            thread::yield_now();
        }
        false
    }
}

impl Read for Meeting<'_> {
    fn read(&mut self, buf: &mut [u8]) -> io::Result<usize> {
        if !self.met && !self.meets() {
            return Err(io::Error::from(io::ErrorKind::TimedOut));
        }
        self.met = true;
        if buf.is_empty() {
            return Ok(0);
        }
        if let Some((first, rest)) = self.header.split_first() {
            buf[0] = *first;
            self.header = rest;
            return Ok(1);
        }
        let Some((first, rest)) = self.rows.split_first() else {
            return Ok(0);
        };
        buf[0] = *first;
        self.rows = rest;
        Ok(1)
    }
}

/// Whether the outcome is that of store buffering.
fn is_store_buffering(ran: &Result<Outcome, RunFault>) -> bool {
    matches!(
        ran,
        Ok(Outcome::Allowed {
            events: 4,
            operations: 4,
            waiting: 0
        })
    )
}

/// Two readers, each of which waits for the other.
fn readers_of<'a>(
    rt: &impl Abort,
    alloc: Global,
    one: &'a AtomicU64,
    two: &'a AtomicU64,
) -> Vec<Meeting<'a>>
    ensures { vec_len result ≡ 2 }
{
    let mut readers = Vec::new(alloc);
    for (rows, mine, other) in [
        (STORE_BUFFERING[0], one, two),
        (STORE_BUFFERING[1], two, one),
    ] {
        let reader = Meeting {
            header: HEADER.as_bytes(),
            rows: rows.as_bytes(),
            mine,
            other,
            met: false,
        };
        readers.push(reader).expect(rt, "memory");
    }
    assert_eq!(rt; readers.len(), 2);
    readers
}

#[test]
fn met_reads(rt: HostRuntime) {
    let settings = Settings {
        workers: 1,
        slots: 2,
        model: MemoryModel::Rvwmo,
    };
    let (one, two) = (AtomicU64::new(0), AtomicU64::new(0));
    let readers = readers_of(&rt, rt.alloc(), &one, &two);
    assert!(rt; is_store_buffering(&run(&rt, rt.alloc(), readers, settings)));
    let (one, two) = (AtomicU64::new(0), AtomicU64::new(0));
    let readers = readers_of(&rt, rt.alloc(), &one, &two);
    let (slots, seats) = LockedSlots::new(rt.alloc(), 2).expect(&rt, "slots");
    let ran = run_over(&rt, rt.alloc(), readers, settings, slots, seats);
    assert!(rt; is_store_buffering(&ran));
}
