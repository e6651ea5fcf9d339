//! The explanation of a refusal as a JSON value.
ghost use Rattle.std.specs.Prelude.{◌≡◌, IfOk, map};
ghost use Rattle.std.specs.Option.{option_copied};
ghost use Rattle.serde_json.specs.View.{items_view, view};
ghost use Rattle.rv_explain_json.specs.Explained.{column_data, explanation_data, fault_data, name_data};
ghost use Rattle.rv_explain_json.specs.Explained.{shown_data, stale_data, step_data, with_cycle, with_pair};
ghost use Rattle.rv_explain_json.specs.Explained.{witness_data};

use rv_event::{Event, Fault};
use rv_explain::{
    Cause, Column, Deed, Expected, Explanation, Shown, StalePair, Step, Usual, Wrong,
};
use serde_json::{Value, json};
use std::alloc::{AllocError, Global};

/// An event that is shown, with what is said of its row, if anything is.
fn shown_value(alloc: Global, shown: &Shown<'_>) -> Result<Value, AllocError>
    ensures { IfOk result (λ v. view v ≡ shown_data shown.now) }
{
    let event = &shown.entry.event;
    let id = event.id.to_string(alloc)?;
    let deed = Deed { event };
    let text = deed.to_string(alloc)?;
    let row = shown.row;
    let source = shown.entry.source;
    match shown.text {
        Some(said) => json!(in alloc; {
            "id": id.as_str(),
            "row": row,
            "source": source,
            "text": text.as_str(),
            "where": said
        }),
        None => json!(in alloc; {
            "id": id.as_str(),
            "row": row,
            "source": source,
            "text": text.as_str()
        }),
    }
}

/// Events that are shown.
fn shown_values(alloc: Global, events: &[Shown<'_>]) -> Result<Vec<Value>, AllocError>
    ensures { IfOk result (λ vs. map view vs.items ≡ map shown_data events.now) }
{
    let mut values = Vec::new(alloc);
    'events: for shown in events {
        values.push(shown_value(alloc, shown)?)?;
    }
    Ok(values)
}

/// The events of a hart.
fn column_value(alloc: Global, column: &Column<'_>) -> Result<Value, AllocError>
    ensures { IfOk result (λ v. view v ≡ column_data column.now) }
{
    let events = shown_values(alloc, column.events.as_slice())?;
    let hart = column.hart;
    json!(in alloc; {"events": Value::Array(events), "hart": hart})
}

/// The events of each hart.
fn column_values(alloc: Global, columns: &[Column<'_>]) -> Result<Vec<Value>, AllocError>
    ensures { IfOk result (λ vs. map view vs.items ≡ map column_data columns.now) }
{
    let mut values = Vec::new(alloc);
    'columns: for column in columns {
        values.push(column_value(alloc, column)?)?;
    }
    Ok(values)
}

/// The id of the event that the reason of a step stands on, or nothing.
fn witness_value(alloc: Global, step: &Step<'_>) -> Result<Value, AllocError>
    ensures { IfOk result (λ v. view v ≡ witness_data (option_copied step.now.witness)) }
{
    match step.witness {
        Some(event) => {
            let id = event.id.to_string(alloc)?;
            json!(in alloc; id.as_str())
        }
        None => Ok(Value::Null),
    }
}

/// A step of a cycle.
fn step_value(alloc: Global, step: &Step<'_>) -> Result<Value, AllocError>
    ensures { IfOk result (λ v. view v ≡ step_data step.now) }
{
    let from = step.from.id.to_string(alloc)?;
    let reason = step.reason.to_string(alloc)?;
    let text = step.to_string(alloc)?;
    let to = step.to.id.to_string(alloc)?;
    let witness = witness_value(alloc, step)?;
    json!(in alloc; {
        "from": from.as_str(),
        "reason": reason.as_str(),
        "text": text.as_str(),
        "to": to.as_str(),
        "witness": witness
    })
}

/// The steps of a cycle.
fn step_values(alloc: Global, steps: &[Step<'_>]) -> Result<Vec<Value>, AllocError>
    ensures { IfOk result (λ vs. map view vs.items ≡ map step_data steps.now) }
{
    let mut values = Vec::new(alloc);
    'steps: for step in steps {
        values.push(step_value(alloc, step)?)?;
    }
    Ok(values)
}

/// A stale pair.
fn stale_value(alloc: Global, load: &Event, store: &Event) -> Result<Value, AllocError>
    ensures { IfOk result (λ v. view v ≡ stale_data load.now store.now) }
{
    let pair = StalePair { load, store };
    let text = pair.to_string(alloc)?;
    let load = load.id.to_string(alloc)?;
    let store = store.id.to_string(alloc)?;
    json!(in alloc; {
        "load": load.as_str(),
        "store": store.as_str(),
        "text": text.as_str()
    })
}

/// The names of the sources.
fn name_values(alloc: Global, names: &[String]) -> Result<Vec<Value>, AllocError>
    ensures { IfOk result (λ vs. map view vs.items ≡ map name_data names.now) }
{
    let mut values = Vec::new(alloc);
    'names: for name in names {
        values.push(json!(in alloc; name.as_str())?)?;
    }
    Ok(values)
}

/// An explanation with a cycle.
fn with_cycle(
    alloc: Global,
    columns: Vec<Value>,
    cycle: Vec<Value>,
    refused: Value,
    sources: Vec<Value>,
) -> Result<Value, AllocError>
    ensures { IfOk result (λ v. view v ≡
        with_cycle (items_view columns.items) (items_view cycle.items) (view refused) (items_view sources.items)) }
{
    json!(in alloc; {
        "columns": Value::Array(columns),
        "cycle": Value::Array(cycle),
        "refused": refused,
        "sources": Value::Array(sources)
    })
}

/// An explanation with a stale pair.
fn with_pair(
    alloc: Global,
    columns: Vec<Value>,
    refused: Value,
    sources: Vec<Value>,
    stale: Value,
) -> Result<Value, AllocError>
    ensures { IfOk result (λ v. view v ≡
        with_pair (items_view columns.items) (view refused) (items_view sources.items) (view stale)) }
{
    json!(in alloc; {
        "columns": Value::Array(columns),
        "refused": refused,
        "sources": Value::Array(sources),
        "stale": stale
    })
}

/// The explanation of a forbidden log.
///
/// # Errors
/// Memory ran out.
pub fn explanation_value(
    alloc: Global,
    names: &[String],
    explanation: &Explanation<'_>,
) -> Result<Value, AllocError>
    ensures { IfOk result (λ v. view v ≡ explanation_data names.now explanation.now) }
{
    let columns = column_values(alloc, explanation.columns.as_slice())?;
    let refused = shown_value(alloc, &explanation.refused)?;
    let sources = name_values(alloc, names)?;
    match &explanation.cause {
        Cause::Cycle(steps) => {
            let cycle = step_values(alloc, steps.as_slice())?;
            with_cycle(alloc, columns, cycle, refused, sources)
        }
        Cause::Stale { load, store } => {
            let stale = stale_value(alloc, load, store)?;
            with_pair(alloc, columns, refused, sources, stale)
        }
    }
}

/// What is wrong with the last event of a malformed log.
///
/// # Errors
/// Memory ran out.
pub fn fault_value(
    alloc: Global,
    names: &[String],
    refused: &Shown<'_>,
    fault: Fault,
) -> Result<Value, AllocError>
    ensures { IfOk result (λ v. view v ≡ fault_data names.now refused.now fault) }
{
    let event = &refused.entry.event;
    let expected = Expected { fault };
    let expected = expected.to_string(alloc)?;
    let usual = Usual { fault };
    let usual = usual.to_string(alloc)?;
    let wrong = Wrong { fault, event };
    let wrong = wrong.to_string(alloc)?;
    let refused = shown_value(alloc, refused)?;
    let sources = name_values(alloc, names)?;
    json!(in alloc; {
        "expected": expected.as_str(),
        "refused": refused,
        "sources": Value::Array(sources),
        "usual": usual.as_str(),
        "wrong": wrong.as_str()
    })
}
