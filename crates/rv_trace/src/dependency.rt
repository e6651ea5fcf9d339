//! The dependencies of a row.
ghost use Rattle.std.specs.Prelude.{◌≡◌, ◌≤◌, ◌==◌, true, count_by, length, nat_lt, IfOk, IfErr};
ghost use Rattle.rv_chunk.specs.Chunks.{AreSmall};
ghost use Rattle.rv_trace.specs.Dependencies.{dependencies, dependency, each_dependency, letter, parts};
ghost use Rattle.rv_trace.specs.Faults.{IsOfTextOrMemory, is_of_text};
ghost use Rattle.rv_trace.specs.Steps.{Gives, GivesOrMemory};

use crate::fault::FaultKind;
use crate::number::number_of;
use crate::operation::Columns;
use rv_event::{Dep, DepKind, Deps};
use std::alloc::Global;

/// The greatest number that a dependency may name: what 30 bits hold.
const MAX_SEQ: u32 = 1_073_741_823;

/// How many dependencies an event may have.
const MAX_DEPS: usize = 8;

/// The kind by its letter.
#[inline(always)]
fn letter_of(columns: Columns, byte: u8) -> Result<DepKind, FaultKind>
    ensures value { Gives result (letter columns byte) }
    ensures kind { IfErr result (λ k. is_of_text k ≡ true) }
{
    match byte {
        b'a' if columns.addr => Ok(DepKind::Addr),
        b'd' if columns.data_of => Ok(DepKind::DataOf),
        b'c' if columns.ctrl => Ok(DepKind::Ctrl),
        _ => Err(FaultKind::Dependency),
    }
}

/// One dependency: a letter and a number.
#[inline(always)]
#[tactic(auto, unfolding(crate::specs::Dependencies::dependency))]
fn dependency_of(columns: Columns, part: &[u8]) -> Result<Dep, FaultKind>
    ensures value { Gives result (dependency columns part.now) }
    ensures kind { IfErr result (λ k. is_of_text k ≡ true) }
    ensures bound { IfOk result (λ d. d.seq ≤ MAX_SEQ) }
{
    match part.split_first() {
        None => Err(FaultKind::Dependency),
        Some((first, digits)) => {
            let kind = letter_of(columns, *first)?;
            match number_of(digits, MAX_SEQ) {
                Ok(seq) => Ok(Dep { kind, seq }),
                Err(_) => Err(FaultKind::Dependency),
            }
        }
    }
}

/// How many spaces a text has.
fn count_of_spaces(text: &[u8]) -> usize
    ensures { result ≡ count_by (λ b. b == 32) text.now }
{
    text.iter().filter(|b| **b == b' ').count()
}

/// Whether a text has more parts between its single spaces than an event may have dependencies.
fn has_many_parts(text: &[u8]) -> bool
    ensures { result ≡ nat_lt MAX_DEPS (length (parts text.now)) }
{
    // So short a text has not so many, and most are shorter.
    text.len() >= MAX_DEPS && count_of_spaces(text) >= MAX_DEPS
}

/// What each part says, and the first that is wrong.
#[inline(always)]
fn each_of(alloc: Global, columns: Columns, text: &[u8]) -> Result<Deps, FaultKind>
    ensures value { GivesOrMemory result (each_dependency columns (parts text.now)) }
    ensures kind { IfErr result IsOfTextOrMemory }
    ensures small { IfOk result AreSmall }
    ensures count { IfOk result (λ ds. length ds ≡ length (parts text.now)) }
{
    let mut deps = Deps::new(alloc);
    for part in text.split(|b| *b == b' ') {
        let dep = dependency_of(columns, part)?;
        if deps.push(dep).is_err() {
            return Err(FaultKind::NoMemory);
        }
    }
    Ok(deps)
}

/// What the field of the dependencies says: none where it is blank, else one to eight.
#[inline(always)]
#[tactic(auto, unfolding(crate::specs::Dependencies::dependencies))]
pub fn dependencies_of(alloc: Global, columns: Columns, text: &[u8]) -> Result<Deps, FaultKind>
    ensures value { GivesOrMemory result (dependencies columns text.now) }
    ensures kind { IfErr result IsOfTextOrMemory }
    ensures small { IfOk result AreSmall }
    ensures few { IfOk result (λ ds. length ds ≤ MAX_DEPS) }
{
    if text.is_empty() {
        return Ok(Deps::new(alloc));
    }
    if has_many_parts(text) {
        return Err(FaultKind::TooManyDeps);
    }
    each_of(alloc, columns, text)
}
