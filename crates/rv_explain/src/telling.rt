//! Explanations as text.
ghost use Rattle.std.specs.Prelude.{◌≡◌, ◌++◌, IfOk, OnOk, Some, string_bytes};
ghost use Rattle.rv_explain.specs.Telling.{cannot_text, cause_text, explanation_text, headline_text, model_text};
ghost use Rattle.rv_explain.specs.Telling.{numbered, numbered_line, so_text};

use crate::cells::{blocks_of, place_of};
use crate::explanation::{Cause, Explanation};
use crate::layout::push_blocks;
use crate::shown::Shown;
use crate::step::Step;
use crate::wording::StalePair;
use rv_event::{Event, MemoryModel, NoMemory, Op};
use std::alloc::Global;
use std::fmt;
use std::fmt::Write as _;

/// A memory model by its name.
#[derive(Clone, Copy)]
struct Model {
    model: MemoryModel,
}

impl fmt::Display for Model {
    ghost output = { λ m. Some (model_text m.model) };

    fn fmt<W: fmt::Write>(&self, f: &mut fmt::Formatter<W>) -> fmt::Result {
        match self.model {
            MemoryModel::Rvwmo => write!(f, "RVWMO"),
            MemoryModel::Ztso => write!(f, "Ztso"),
        }
    }
}

/// What a refused event cannot do.
#[derive(Clone, Copy)]
struct Cannot<'a> {
    event: &'a Event,
}

impl<'a> fmt::Display for Cannot<'a> {
    ghost output = { λ c. Some (cannot_text c.event.now.op c.event.now) };

    fn fmt<W: fmt::Write>(&self, f: &mut fmt::Formatter<W>) -> fmt::Result {
        let word = self.event.word;
        let read = self.event.read;
        let wrote = self.event.wrote;
        match self.event.op {
            Op::Load | Op::Lr => write!(f, "return version {read} of word {word}"),
            Op::Store | Op::Sc => write!(f, "write version {wrote} of word {word}"),
            Op::Amo => write!(
                f,
                "return version {read} of word {word} and write version {wrote}"
            ),
            _ => write!(f, "come next"),
        }
    }
}

/// The first line of an explanation: what the refused event cannot do under the model. `names` are
/// those of the sources, in order.
///
/// # Errors
/// Memory ran out.
pub fn headline(
    alloc: Global,
    model: MemoryModel,
    names: &[String],
    refused: &Shown<'_>,
) -> Result<String, NoMemory>
    ensures { IfOk result (λ text. string_bytes text ≡ headline_text model names.now refused.now) }
{
    let id = refused.entry.event.id;
    let place = place_of(names, refused);
    let cannot = Cannot {
        event: &refused.entry.event,
    };
    let model = Model { model };
    Ok(format!(in alloc; "{id} ({place}) cannot {cannot} under {model}.\n")?)
}

/// Adds a numbered line for a step.
fn push_step(text: &mut String, number: usize, step: &Step<'_>) -> Result<(), NoMemory>
    ensures { OnOk result (string_bytes text.new ≡ string_bytes text.old ++ numbered_line number step.now) }
{
    writeln!(text, "  {number}. {step}")?;
    Ok(())
}

/// Adds a numbered line for each step.
fn push_steps(text: &mut String, steps: &[Step<'_>]) -> Result<(), NoMemory>
    ensures { OnOk result (string_bytes text.new ≡ string_bytes text.old ++ numbered 1 steps.now) }
{
    'steps: for place in 0..steps.len() {
        push_step(text, place + 1, &steps[place])?;
    }
    Ok(())
}

/// Adds what a cycle comes to.
fn push_so(text: &mut String, steps: &[Step<'_>]) -> Result<(), NoMemory>
    ensures { OnOk result (string_bytes text.new ≡ string_bytes text.old ++ so_text steps.now) }
{
    let [first, ..] = steps else {
        return Ok(());
    };
    let id = first.from.id;
    writeln!(text, "  So {id} would come before itself.")?;
    Ok(())
}

/// Adds the cause: a numbered line for each step, and what the cycle comes to.
///
/// # Errors
/// Memory ran out; some of the lines may be there.
pub fn push_cause(text: &mut String, cause: &Cause<'_>) -> Result<(), NoMemory>
    ensures { OnOk result (string_bytes text.new ≡ string_bytes text.old ++ cause_text cause.now) }
{
    match cause {
        Cause::Cycle(steps) => {
            push_steps(text, steps.as_slice())?;
            push_so(text, steps.as_slice())
        }
        Cause::Stale { load, store } => {
            let pair = StalePair { load, store };
            writeln!(text, "  1. {pair}")?;
            Ok(())
        }
    }
}

/// The text of an explanation: what the refused event cannot do under the model, the events in
/// columns, and the cause, step by step. `names` are those of the sources, in order; rows are told
/// with their source where there are several.
///
/// # Errors
/// Memory ran out; the explanation stays as it is.
pub fn explanation_text(
    alloc: Global,
    model: MemoryModel,
    names: &[String],
    explanation: &Explanation<'_>,
) -> Result<String, NoMemory>
    ensures { IfOk result (λ text. string_bytes text ≡ explanation_text model names.now explanation.now) }
{
    let refused = &explanation.refused;
    let mut text = headline(alloc, model, names, refused)?;
    text.push('\n')?;
    let blocks = blocks_of(alloc, names, refused.place, explanation.columns.as_slice())?;
    push_blocks(alloc, &mut text, blocks.as_slice())?;
    push_cause(&mut text, &explanation.cause)?;
    Ok(text)
}
