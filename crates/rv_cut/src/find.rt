//! The search for a cut.
ghost use Rattle.std.specs.Prelude.{All, Contains, IfOk};
ghost use Rattle.rv_event.specs.Log.{events};
ghost use Rattle.rv_cut.specs.Cuts.{IsCutOf};

use crate::closing::close;
use crate::cut::Cut;
use crate::ordering::{in_order, sum_before};
use crate::reach::keep_unsettled;
use rv_book::Book;
use rv_edges::Tie;
use rv_event::{Entry, Id, NoMemory};
use std::alloc::Global;

/// A cut of the book's log whose past these harts, the only ones that are still active, can't come
/// before any more. With a hart above 15 there is no past. No edge of the log leads into the past
/// from what is kept. An LR of the past waits for its SC only where `patience` events of its hart or
/// more stand behind it, none of them an LR, an SC or a failed SC.
///
/// The cut is as high as it may be: an event is kept only where it or one that pulls it with it is
/// not settled. That is not proved: a cut with no past would keep the contract too.
///
/// It costs some passes over the log and over the book's links.
///
/// # Errors
/// `NoMemory` where it could not be had; the book stays as it is.
pub fn find_cut(alloc: Global, book: &Book, active: &[u8], patience: u32) -> Result<Cut, NoMemory>
    ensures { IfOk result (IsCutOf book.now.model (events book.now.log) active.now patience) }
{
    if active.iter().any(|hart| *hart >= 16) {
        return Ok(Cut::new());
    }
    let model = book.model();
    let log = book.log();
    let ties = book.ties()?;
    let late_first = late_first(alloc, book, ties.as_slice())?;
    let mut cut = Cut::behind(log);
    keep_unsettled(alloc, model, log, late_first.as_slice(), active, &mut cut)?;
    let is_whole = close(
        alloc,
        log,
        ties.as_slice(),
        late_first.as_slice(),
        patience,
        &mut cut,
    )?;
    Ok(if is_whole { cut } else { Cut::new() })
}

/// The ties, those from operations that stand late in the book's order first.
fn late_first(alloc: Global, book: &Book, ties: &[Tie]) -> Result<Vec<Tie>, NoMemory>
    ensures { IfOk result (λ sorted. All (Contains ties.now) sorted.items) }
{
    let places = Places::new(alloc, book.log(), book.order()?.as_slice())?;
    let mut keys = Vec::with_capacity(alloc, ties.len())?;
    for tie in ties {
        keys.push(places.of(tie.from))?;
    }
    in_order(alloc, ties, keys.as_slice())
}

/// Of each operation how many stand behind it in an order, with itself.
#[derive(Drop)]
struct Places {
    /// Of each hart how many events of the lower harts there are.
    starts: [usize; 16],
    /// The numbers, hart by hart, by the events' numbers; 0 for what is no operation.
    behind: Vec<usize>,
}

impl Places {
    /// Those of an order of a log's operations.
    fn new(alloc: Global, log: &[Entry], order: &[Id]) -> Result<Places, NoMemory> {
        let mut places = Places {
            starts: starts_of_harts(log),
            behind: vec![in alloc; 0; log.len()]?,
        };
        'operations: for k in 0..order.len() {
            places.put(order[k], order.len() - k);
        }
        Ok(places)
    }

    /// Puts the place of an operation down.
    fn put(&mut self, id: Id, place: usize) {
        let number = self.number(id);
        if let Some(known) = self.behind.get_mut(number) {
            *known = place;
        }
    }

    /// The place that was put down for the operation; 0 where none was.
    fn of(&self, id: Id) -> usize {
        match self.behind.get(self.number(id)) {
            Some(place) => *place,
            None => 0,
        }
    }

    /// Where the place of an event stands; behind all where its hart is above 15.
    fn number(&self, id: Id) -> usize {
        match self.starts.get(id.hart as usize) {
            Some(start) => start.wrapping_add(id.seq as usize),
            None => usize::MAX,
        }
    }
}

/// Of each hart how many events of the lower harts the log has.
fn starts_of_harts(log: &[Entry]) -> [usize; 16] {
    let mut starts = [0usize; 16];
    for entry in log {
        if let Some(count) = starts.get_mut(entry.event.id.hart as usize) {
            *count = count.wrapping_add(1);
        }
    }
    sum_before(&mut starts);
    starts
}
