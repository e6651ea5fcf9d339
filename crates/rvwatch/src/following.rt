//! The sources of a run, row by row.

use crate::progress::Progress;
use crate::request::Words;
use crate::turns::{Next, Turns};
use rv_cert::Certificate;
use rv_event::{Entry, Id};
use rv_past::PastEdge;
use rv_pipe::Bell;
use rv_trace::{Feed, FeedFault, FeedRow};
use rv_watch::{Stop, Watch};
use std::alloc::AllocError;
use std::io::{IsTerminal, Read};
use std::thread;
use std::time::Duration;

/// For how many milliseconds nobody looks again where no row is to be read.
const MOMENT: u64 = 1;

/// How following the sources ended.
#[derive(Drop)]
pub(crate) enum End {
    /// Each source ended, and each event was taken.
    Over,
    /// This entry was not taken.
    Stopped(Entry, Stop),
    /// The event of this id was not taken, as this certificate shows.
    Shown(Id, Certificate),
    /// The source of this number has a fault.
    Faulty(u8, FeedFault),
}

/// Who follows the sources of a run.
#[derive(Drop)]
pub(crate) struct Follower {
    /// The run.
    pub(crate) watch: Watch,
    /// Of each hart the source of its events, where there are any and it has not ended.
    pub(crate) sources: [Option<u8>; 16],
    /// How far the run is.
    pub(crate) progress: Progress,
    /// When it forgets what it may.
    pub(crate) mode: Mode,
}

/// When a run forgets what it may.
#[derive(Clone, Copy)]
pub(crate) enum Mode {
    /// Where its rule says so.
    Ruled,
    /// So too, but no more as soon as the end of this edge would be forgotten.
    Until(PastEdge),
    /// No more.
    Held,
}

impl Follower {
    /// Before any event of a run as the words ask for it.
    pub(crate) fn new(rt: &HostRuntime, words: &Words, mode: Mode) -> Result<Follower, AllocError> {
        let errors = rt.stderr();
        let is_told = errors.is_terminal() && !rt.stdout().is_terminal();
        let harts = Vec::from_slice(rt.alloc(), words.harts.as_slice())?;
        Ok(Follower {
            watch: Watch::new(rt.alloc(), words.model, harts, words.rule, words.patience),
            sources: [None; 16],
            progress: Progress::new(rt, errors, is_told),
            mode,
        })
    }

    /// Takes a row of each source in turn until all have ended, or something is wrong. One that is
    /// silent, as the bell tells, is passed over. But the others don't run far ahead of it: 1,024
    /// rows ahead they wait for it, for ten seconds at most.
    pub(crate) fn follow<R: Read>(
        &mut self,
        rt: &HostRuntime,
        feeds: &mut [Feed<R>],
        bell: &Bell,
    ) -> End {
        let end = match self.take_turns(rt, feeds, bell) {
            Ok(()) => End::Over,
            Err(end) => end,
        };
        self.progress.end();
        end
    }

    /// Takes turns until there is nothing left to take.
    fn take_turns<R: Read>(
        &mut self,
        rt: &HostRuntime,
        feeds: &mut [Feed<R>],
        bell: &Bell,
    ) -> Result<(), End> {
        let mut turns = Turns::new(feeds.len());
        'turns: for _ in 0..u64::MAX {
            match turns.next(bell) {
                Next::Read(rows) => self.take_turn(rt, feeds, bell, &mut turns, rows)?,
                Next::Rest => thread::sleep(rt, Duration::from_millis(MOMENT)),
                Next::Hold => {
                    thread::sleep(rt, Duration::from_millis(MOMENT));
                    turns.hold(bell);
                }
                Next::End => return Ok(()),
            }
        }
        Ok(())
    }

    /// Takes a row of each source that has one, of those of which so many rows were taken.
    fn take_turn<R: Read>(
        &mut self,
        rt: &HostRuntime,
        feeds: &mut [Feed<R>],
        bell: &Bell,
        turns: &mut Turns,
        rows: u64,
    ) -> Result<(), End> {
        'sources: for source in 0..feeds.len() {
            if !turns.is_next(bell, source, rows) {
                continue;
            }
            let number = (source % 256) as u8;
            match feeds[source].next_row() {
                Ok(Some(row)) => {
                    turns.count_row(source);
                    self.take(rt, number, row)?;
                }
                Ok(None) => {
                    turns.end(source);
                    self.end_source(number);
                }
                Err(fault) => return Err(End::Faulty(number, fault)),
            }
        }
        Ok(())
    }

    /// Takes a row of a source.
    fn take(&mut self, rt: &HostRuntime, source: u8, row: FeedRow) -> Result<(), End> {
        let event = match row {
            FeedRow::HartEnd(hart) => {
                self.watch.end(hart);
                return Ok(());
            }
            FeedRow::Event(event) => event,
        };
        let hart = event.id.hart;
        let entry = Entry { source, event };
        if let Err(stop) = self.offer(rt, &entry) {
            return Err(End::Stopped(entry, stop));
        }
        if let Some(known) = self.sources.get_mut(hart as usize) {
            *known = Some(source);
        }
        self.progress.note(rt, &self.watch);
        Ok(())
    }

    /// Offers an entry to the run.
    fn offer(&mut self, rt: &HostRuntime, entry: &Entry) -> Result<(), Stop> {
        if let Mode::Until(edge) = self.mode {
            if self.watch.take_until(rt.alloc(), entry, edge)? {
                return Ok(());
            }
            self.mode = Mode::Held;
        }
        match self.mode {
            Mode::Held => self.watch.take_uncut(entry),
            _ => self.watch.take(entry),
        }
    }

    /// Takes that a source has ended, and so each hart whose events came from it.
    fn end_source(&mut self, source: u8) {
        'harts: for hart in 0..16u8 {
            if self.sources[hart as usize] == Some(source) {
                self.sources[hart as usize] = None;
                self.watch.end(hart);
            }
        }
    }
}
