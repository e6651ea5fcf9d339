//! The events of a source, eight to a chunk.
ghost use Rattle.std.specs.Prelude.{◌≡◌, ◌+◌, ◌*◌, ◌<◌, ◌≤◌, [], length, All, true, false};
ghost use Rattle.std.specs.Prelude.{IfOk, IfErr, IfSome, IsOkAnd, OnOk};
ghost use Rattle.rv_chunk.specs.Chunks.{IsPackable};
ghost use Rattle.rv_trace.specs.Calls.{IfFirst, IfGiven, IsAtEnd, IsReadWhere, OnEnd};
ghost use Rattle.rv_trace.specs.Chunks.{IsFaultWithin, IsFullOrLast, IsReadingRow};
ghost use Rattle.rv_trace.specs.Chunks.{IsTakingRow, TakesEvents, fresh_chunks};
ghost use Rattle.rv_trace.specs.Faults.{NeverCsv};
ghost use Rattle.rv_trace.specs.Trace.{IsWhole};
ghost use Rattle.rv_trace.specs.Dialects.{plain};

use crate::dialect::Dialect;
use crate::fault::{FaultKind, TraceFault};
use crate::trace::Trace;
use rv_chunk::{Chunk, pack};
use rv_event::Event;
use std::alloc::Global;
use std::io::Read;
use std::marker::Model;

/// How many events a chunk has, but for the last.
const FULL: usize = 8;

/// The events of a source in chunks: chunk k has the events from 8k on, and each chunk but the last
/// has eight.
///
/// Contracts see what is left to give, as of a [`Trace`](crate::Trace).
#[derive(Drop)]
pub struct Chunks<R: Read> {
    alloc: Global,
    source: u8,
    trace: Trace<R>,
    number: u32,
    fault: Option<TraceFault>,
}

impl<R: Read> Model for Chunks<R> {
    ghost use Rattle.std.specs.Prelude.{◌<◌, MatchOption};
    ghost use Rattle.rv_trace.specs.Chunks.{ChunksLeft, IsBetween, chunks_left};
    ghost use Rattle.rv_trace.specs.Faults.{NeverCsv};

    ghost Value = { ChunksLeft };

    ghost view = { λ a. chunks_left a.source a.number a.fault a.trace };

    ghost invariant = { λ a. (a.source < 8)
        × MatchOption a.fault (IsBetween a.number a.trace) NeverCsv };
}

/// The chunk of one to eight events.
fn chunk_of(events: &[Event], source: u8, number: u32) -> Chunk
    requires some { 1 ≤ length events.now }
    requires few { length events.now ≤ FULL }
    requires source { source < 8 }
    requires packable { All IsPackable events.now }
    ensures { result ≡ record { source = source; number = number; events = events.now } }
{
    match pack(events, source, number) {
        Ok(chunk) => chunk,
        Err(_) => unreachable!(),
    }
}

/// Takes the events of the next chunk: eight, or those up to the end.
fn take_events<R: Read>(alloc: Global, trace: &mut Trace<R>) -> Result<Vec<Event>, TraceFault>
    requires good { trace.old.fault ≡ None }
    requires unrefused { trace.old.refused ≡ false }
    requires rows { trace.old.given ≤ 65536 }
    ensures events { IfOk result (λ v. TakesEvents trace.old.stream trace.new.stream v.items) }
    ensures packable { IfOk result (λ v. All IsPackable v.items) }
    ensures few { IfOk result (λ v. length v.items ≤ FULL) }
    ensures count { IfOk result (λ v. trace.new.given ≡ trace.old.given + length v.items) }
    ensures rows { OnOk result (trace.new.given ≤ 65536) }
    ensures end { IfOk result
        (λ v. length v.items < FULL → IsAtEnd trace.new.ended trace.new.said trace.new.stream) }
    ensures stays { trace.old.ended ≡ true
        → IsOkAnd result (λ v. v.items ≡ []) × (trace.new ≡ trace.old) }
    ensures good { OnOk result ((trace.new.fault ≡ None) × (trace.new.refused ≡ false)) }
    ensures fault { IfErr result (IsFaultWithin trace.old.stream) }
    ensures row { IfErr result (IsTakingRow trace.old trace.new.given) }
    ensures read { IfErr result (IsReadWhere trace.new.refused) }
    ensures never { IfErr result NeverCsv }
{
    let mut events = Vec::new(alloc);
    'events: while events.len() < FULL {
        match trace.next_event() {
            Ok(Some(event)) => {
                if events.push(event).is_err() {
                    return Err(TraceFault {
                        kind: FaultKind::NoMemory,
                        row: trace.given(),
                    });
                }
            }
            Ok(None) => return Ok(events),
            Err(fault) => return Err(fault),
        }
    }
    Ok(events)
}

impl<R: Read> Chunks<R> {
    /// The chunks of what `reader` gives, as those of the source of that number, below 8. A row `I`
    /// is none. It reads nothing and takes no memory.
    pub fn new(alloc: Global, reader: R, source: u8) -> Chunks<R>
        requires { source < 8 }
        ensures { result ≡ fresh_chunks plain source (R.remaining reader) }
    {
        Chunks::with_dialect(alloc, reader, source, Dialect::plain())
    }

    /// The same, where the rows are of this dialect.
    pub fn with_dialect(alloc: Global, reader: R, source: u8, dialect: Dialect) -> Chunks<R>
        requires { source < 8 }
        ensures { result ≡ fresh_chunks dialect source (R.remaining reader) }
    {
        Chunks {
            alloc,
            source,
            trace: Trace::with_dialect(alloc, reader, source, dialect),
            number: 0,
            fault: None,
        }
    }

    /// How many rows the end record says that the source has, once it was read. `None` before the
    /// end, and where there is none.
    pub fn said(&self) -> Option<u32>
        ensures { result ≡ self.now.said }
    {
        self.trace.said()
    }

    /// The next chunk, and `None` from the end on.
    ///
    /// # Errors
    /// A fault inside the chunk is answered in its place, and the rows before it in that chunk are
    /// not given. It is the fault that the source's text ends in, with its row; or `Read`, only
    /// where the reader underneath failed or refused a read; or `NoMemory`; these with the row that
    /// was being read. Each call after a fault answers the same fault, and reads nothing.
    pub fn next_chunk(&mut self) -> Result<Option<Chunk>, TraceFault>
        ensures events { IfGiven result
            (λ c. TakesEvents self.old.stream self.new.stream c.events) }
        ensures source { IfGiven result (λ c. c.source ≡ self.old.source) }
        ensures number { IfGiven result (λ c. c.number ≡ self.old.number) }
        ensures place { IfGiven result (λ c. self.old.given ≡ 8 * c.number) }
        ensures full { IfGiven result (λ c. IsFullOrLast c.events self.new) }
        ensures next { IfGiven result (λ _. self.new.number ≡ self.old.number + 1) }
        ensures count { IfGiven result
            (λ c. self.new.given ≡ self.old.given + length c.events) }
        ensures few { IfGiven result (λ _. self.new.given ≤ 65536) }

        ensures whole { OnEnd result (IsWhole self.old.stream self.new.said) }
        ensures end { OnEnd result (IsAtEnd self.new.ended self.new.said self.new.stream) }
        ensures still { OnEnd result
            ((self.new.number ≡ self.old.number) × (self.new.given ≡ self.old.given)) }
        ensures stays { self.old.ended ≡ true
            → self.old.fault ≡ None → (result ≡ Ok None) × (self.new ≡ self.old) }

        ensures fault { IfFirst self.old.fault result (IsFaultWithin self.old.stream) }
        ensures row { IfFirst self.old.fault result (IsReadingRow self.old self.new.given) }
        ensures read { IfFirst self.old.fault result (IsReadWhere self.new.refused) }
        ensures never { IfErr result NeverCsv }
        ensures keeps { IfErr result (λ f. self.new.fault ≡ Some f) }
        ensures again { IfSome self.old.fault
            (λ f. (result ≡ Err f) × (self.new ≡ self.old)) }

        ensures good { OnOk result ((self.new.fault ≡ None) × (self.new.refused ≡ false)) }
        ensures same { self.new.source ≡ self.old.source }
    {
        if let Some(fault) = self.fault {
            return Err(fault);
        }
        match take_events(self.alloc, &mut self.trace) {
            Ok(events) => {
                if events.is_empty() {
                    return Ok(None);
                }
                let chunk = chunk_of(events.as_slice(), self.source, self.number);
                self.number += 1;
                Ok(Some(chunk))
            }
            Err(fault) => {
                self.fault = Some(fault);
                Err(fault)
            }
        }
    }
}
