//! A source whose next event is read, and may wait for a store of another source.
ghost use Rattle.std.specs.Prelude.{◌≡◌, IfErr, IfOk, None, OnOk};
ghost use Rattle.rv_trace.specs.Calls.{IfGiven, IsAtEnd, OnEnd};
ghost use Rattle.rv_trace.specs.Trace.{IsFaultOf, IsWhole, TakesEvent};
ghost use Rattle.rv_run.specs.Ahead.{IsNext, with_held};

use rv_book::Book;
use rv_event::Event;
use rv_trace::{Trace, TraceFault};
use std::io::Read;
use std::marker::Model;

/// A source that is read in turn.
///
/// Contracts see what it still gives (`TraceLeft` of `rv_trace`), the event that was read and not
/// taken yet among it.
#[derive(Drop)]
pub(crate) struct Ahead<R: Read> {
    trace: Trace<R>,
    /// The event that was read, and waits.
    held: Option<Event>,
    /// How many events the book had with the last one of this source.
    since: usize,
}

impl<R: Read> Model for Ahead<R> {
    ghost use Rattle.rv_trace.specs.Trace.{TraceLeft};
    ghost use Rattle.rv_run.specs.Ahead.{ahead_left};

    ghost Value = { TraceLeft };

    ghost view = { λ a. ahead_left a.trace a.held };
}

/// What stands next in a source.
#[derive(Drop)]
pub(crate) enum Next {
    /// This event, which is taken.
    Event(Event),
    /// A load that waits for the store of its version.
    Waits,
    /// Nothing: it was read to its end.
    End,
}

/// The event that is held, or else the next one of the trace.
fn next_of<R: Read>(
    trace: &mut Trace<R>,
    held: &mut Option<Event>,
) -> Result<Option<Event>, TraceFault>
    requires { trace.old.fault ≡ None }
    ensures held { held.new ≡ None }
    ensures event { IfGiven result
        (TakesEvent (with_held held.old trace.old.stream) trace.new.stream) }
    ensures whole { OnEnd result (IsWhole (with_held held.old trace.old.stream) trace.new.said) }
    ensures end { OnEnd result (IsAtEnd trace.new.ended trace.new.said trace.new.stream) }
    ensures fault { IfErr result (IsFaultOf (with_held held.old trace.old.stream)) }
    ensures good { OnOk result (trace.new.fault ≡ None) }
{
    match held.take() {
        Some(event) => Ok(Some(event)),
        None => trace.next_event(),
    }
}

impl<R: Read> Ahead<R> {
    /// The source whose events the trace gives.
    pub fn new(trace: Trace<R>) -> Ahead<R>
        ensures { result ≡ trace }
    {
        Ahead {
            trace,
            held: None,
            since: 0,
        }
    }

    /// How many rows its end record says.
    pub fn said(&self) -> Option<u32>
        ensures { result ≡ self.now.said }
    {
        self.trace.said()
    }

    /// How many events the book had with the last one of this source, where its next one waits.
    pub fn waits_since(&self) -> Option<usize> {
        if self.held.is_some() {
            Some(self.since)
        } else {
            None
        }
    }

    /// Takes the next event, unless it is a load that waits for its store. It is taken all the same
    /// where the source's last one was taken when the book had as many events as `overdue`, or
    /// fewer.
    ///
    /// # Errors
    /// The fault of the trace.
    pub fn next_due(&mut self, book: &Book, overdue: Option<usize>) -> Result<Next, TraceFault>
        requires { self.old.fault ≡ None }
        ensures next { IfOk result (IsNext self.old self.new) }
        ensures fault { IfErr result (IsFaultOf self.old.stream) }
    {
        let Some(event) = next_of(&mut self.trace, &mut self.held)? else {
            return Ok(Next::End);
        };
        let is_overdue = match overdue {
            Some(bound) => self.since <= bound,
            None => false,
        };
        if !is_overdue && book.is_waiting(&event) {
            self.held = Some(event);
            return Ok(Next::Waits);
        }
        self.since = book.accepted().saturating_add(1);
        Ok(Next::Event(event))
    }
}
