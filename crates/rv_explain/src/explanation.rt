//! The explanation of a refusal.
ghost use Rattle.std.specs.Prelude.{◌≡◌, ◌∷◌, ◌+◌, ◌<◌, IfOk, length};
ghost use Rattle.rv_event.specs.Log.{events};
ghost use Rattle.rv_explain.specs.RowTexts.{said_by};
ghost use Rattle.rv_explain.specs.Showing.{IsShown};
ghost use Rattle.rv_explain.specs.Explaining.{IsCauseOf, IsExplanation, ids_of_cause};

use crate::row_texts::RowTexts;
use crate::shown::{Column, Shown, columns_of, shown_at, shown_of};
use crate::step::{Step, event_named, push_ids_of_steps, steps_of};
use rv_cert::{Certificate, Forbidden};
use rv_event::{Entry, Event, Id, NoMemory};
use std::alloc::Global;

/// What leaves no lawful order.
#[derive(Drop, Debug)]
pub enum Cause<'a> {
    /// Each event of a cycle has to come before the next, so each would come before itself.
    Cycle(Vec<Step<'a>>),
    /// A load returned an older version than an earlier store of its hart wrote.
    Stale {
        /// The load.
        load: &'a Event,
        /// The store.
        store: &'a Event,
    },
}

/// What a refusal says, in events.
#[derive(Drop, Debug)]
pub struct Explanation<'a> {
    /// The refused event, the last of the evidence.
    pub refused: Shown<'a>,
    /// What the certificate says.
    pub cause: Cause<'a>,
    /// The events that the cause speaks of and the refused one, in a column for each hart.
    pub columns: Vec<Column<'a>>,
}

/// What the certificate of a refusal says.
fn cause_of<'a>(alloc: Global, forbidden: &'a Forbidden) -> Result<Cause<'a>, NoMemory>
    ensures { IfOk result (IsCauseOf (events forbidden.now.evidence) forbidden.now.certificate) }
{
    let log = forbidden.evidence();
    match forbidden.certificate() {
        Certificate::Circle(circle) => Ok(Cause::Cycle(steps_of(alloc, log, circle.as_slice())?)),
        Certificate::Stale { load, store } => Ok(Cause::Stale {
            load: event_named(log, *load),
            store: event_named(log, *store),
        }),
    }
}

/// The ids of the events to show: the refused one, and those that the cause speaks of.
fn ids_of(alloc: Global, refused: Id, cause: &Cause<'_>) -> Result<Vec<Id>, NoMemory>
    ensures { IfOk result (λ ids. ids.items ≡ refused ∷ ids_of_cause cause.now) }
{
    let mut ids = Vec::new(alloc);
    ids.push(refused)?;
    match cause {
        Cause::Cycle(steps) => push_ids_of_steps(&mut ids, steps.as_slice())?,
        Cause::Stale { load, store } => {
            ids.push(load.id)?;
            ids.push(store.id)?;
        }
    }
    Ok(ids)
}

/// The refused event, which is the last of the log, with its row. It costs a pass over the log.
pub fn refused_of<'a>(log: &'a [Entry], texts: &'a RowTexts) -> Shown<'a>
    requires { 0 < length log.now }
    ensures shown { IsShown log.now (said_by texts.now) result }
    ensures last { result.place + 1 ≡ length log.now }
{
    shown_at(log, texts, log.len() - 1)
}

/// The explanation of a refusal, with what is said of the rows of its events.
///
/// It costs a few passes over the log for each edge of the certificate, and one for each event that
/// it shows.
///
/// # Errors
/// Memory ran out; the refusal stays as it is.
pub fn explain<'a>(
    alloc: Global,
    forbidden: &'a Forbidden,
    texts: &'a RowTexts,
) -> Result<Explanation<'a>, NoMemory>
    ensures { IfOk result (IsExplanation forbidden.now (said_by texts.now)) }
{
    let log = forbidden.evidence();
    let cause = cause_of(alloc, forbidden)?;
    let refused = refused_of(log, texts);
    let ids = ids_of(alloc, refused.entry.event.id, &cause)?;
    let shown = shown_of(alloc, log, texts, ids.as_slice())?;
    let columns = columns_of(alloc, shown.as_slice())?;
    Ok(Explanation {
        refused,
        cause,
        columns,
    })
}
