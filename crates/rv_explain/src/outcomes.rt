//! What is told of an outcome behind its report.
ghost use Rattle.std.specs.Prelude.{◌≡◌, IfOk, OnOk, string_bytes};
ghost use Rattle.std.specs.Io.KnownBytes.{Appends};
ghost use Rattle.rv_explain.specs.RowTexts.{said_by};
ghost use Rattle.rv_explain.specs.Outcomes.{IsTold, IsToldForbidden, IsToldMalformed};

use crate::explanation::{explain, refused_of};
use crate::faulty::malformed_text;
use crate::row_texts::RowTexts;
use crate::telling::explanation_text;
use rv_cert::{Forbidden, Malformed};
use rv_event::NoMemory;
use rv_report::Outcome;
use std::alloc::Global;

/// What is known of the sources of a log.
#[derive(Clone, Copy)]
pub struct Sources<'a> {
    /// Their names, in order.
    pub names: &'a [String],
    /// What is said of their rows.
    pub texts: &'a RowTexts,
}

/// An empty line, and the explanation of a refusal.
fn forbidden_story(
    alloc: Global,
    sources: Sources<'_>,
    forbidden: &Forbidden,
) -> Result<String, NoMemory>
    ensures { IfOk result (λ text. IsToldForbidden
        sources.entry.names.now (said_by sources.entry.texts.now) forbidden.now (string_bytes text)) }
{
    let explanation = explain(alloc, forbidden, sources.texts)?;
    let model = forbidden.model();
    let text = explanation_text(alloc, model, sources.names, &explanation)?;
    Ok(format!(in alloc; "\n{text}")?)
}

/// An empty line, and what is wrong with the last event of a malformed log.
fn malformed_story(
    alloc: Global,
    sources: Sources<'_>,
    malformed: &Malformed,
) -> Result<String, NoMemory>
    ensures { IfOk result (λ text. IsToldMalformed
        sources.entry.names.now (said_by sources.entry.texts.now) malformed.now (string_bytes text)) }
{
    let refused = refused_of(malformed.evidence(), sources.texts);
    let text = malformed_text(alloc, sources.names, &refused, malformed.fault())?;
    Ok(format!(in alloc; "\n{text}")?)
}

/// What is told of an outcome behind its report: an empty line, and the explanation of a refusal.
/// It is empty where each event was accepted.
///
/// # Errors
/// Memory ran out; the outcome stays as it is.
pub fn story(alloc: Global, sources: Sources<'_>, outcome: &Outcome) -> Result<String, NoMemory>
    ensures { IfOk result (λ text. IsTold
        sources.entry.names.now (said_by sources.entry.texts.now) outcome.now (string_bytes text)) }
{
    match outcome {
        Outcome::Allowed { .. } => Ok(String::new(alloc)),
        Outcome::Forbidden(forbidden) => forbidden_story(alloc, sources, forbidden),
        Outcome::Malformed(malformed) => malformed_story(alloc, sources, malformed),
    }
}
