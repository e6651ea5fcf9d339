//! How often a reader is asked.
use rv_trace::Trace;
use std::io;
use std::io::Read;
use std::sync::atomic::{AtomicU64, Ordering};

/// Two harts that each store a word and load the other's.
const FOUR_ROWS: &str =
    "hart,seq,op,word,read,wrote,ann,deps\n0,0,S,0,,1,,\n0,1,L,1,0,,,\n1,0,S,1,,1,,\n1,1,L,0,0,,,\n";

/// How many events a trace gives before its end or a fault.
fn count_events<R: Read>(trace: &mut Trace<R>) -> u32 {
    let mut given: u32 = 0;
    for _ in 0..1000 {
        match trace.next_event() {
            Ok(Some(_)) => given = given.saturating_add(1),
            _ => return given,
        }
    }
    given
}

/// Gives a text a byte a call, then nothing once, and would give the text again; counts the calls.
#[derive(Drop)]
struct Again<'a> {
    text: &'static [u8],
    at: usize,
    calls: &'a AtomicU64,
}

impl Read for Again<'_> {
    fn read(&mut self, buf: &mut [u8]) -> io::Result<usize> {
        self.calls.fetch_add(1, Ordering::SeqCst);
        if buf.is_empty() {
            return Ok(0);
        }
        match self.text.get(self.at) {
            Some(byte) => {
                buf[0] = *byte;
                self.at = self.at.saturating_add(1);
                Ok(1)
            }
            None => {
                self.at = 0;
                Ok(0)
            }
        }
    }
}

#[test]
fn a_reader_that_gave_nothing_is_not_asked_again(rt: HostRuntime) {
    let calls = AtomicU64::new(0);
    let text = FOUR_ROWS.as_bytes();
    let reader = Again {
        text,
        at: 0,
        calls: &calls,
    };
    let mut trace = Trace::new(rt.alloc(), reader, 0);
    assert_eq!(rt; count_events(&mut trace), 4);
    let asked = calls.load(Ordering::SeqCst);
    assert_eq!(rt; asked, text.len() as u64 + 1);
    for _ in 0..3 {
        assert_eq!(rt; count_events(&mut trace), 0);
    }
    assert_eq!(rt; calls.load(Ordering::SeqCst), asked);
    drop(trace);
}
