//! What is known of the sources, beside their events, where a refusal is explained.
ghost use Rattle.std.specs.Prelude.{◌≡◌, IfErr, IfOk, IfSome, Some, option_map, slice_get, string_bytes};
ghost use Rattle.std.specs.Option.{option_copied};
ghost use Rattle.rv_trace.specs.Columns.{IsFieldInRow};
ghost use Rattle.rv_trace.specs.Source.{text_records};
ghost use Rattle.rv_explain.specs.RowTexts.{said_by};
ghost use Rattle.rv_where.specs.Lines.{AreTextsOf};
ghost use Rattle.rvmon.specs.Backings.{HasTexts, IsBacking, IsFieldOf, IsSilenceOf, covering_asked, dialect_asked};
ghost use Rattle.rvmon.specs.Backings.{is_refusal};

use crate::ending::Ending;
use crate::opening::Opener;
use rv_cli::Asked;
use rv_explain::RowTexts;
use rv_report::Outcome;
use rv_run::{Judged, RunFault};
use rv_trace::{Dialect, FaultKind, FaultyField, faulty_field};
use rv_where::{WhereFault, texts_from};
use std::alloc::Global;

/// Why a file says nothing of rows.
#[derive(Debug, Drop)]
pub enum Silence {
    /// It does not open, or is no file that can be read from its beginning.
    Unopened,
    /// It has this fault.
    Fault(WhereFault),
}

/// What is known of the sources.
#[derive(Drop)]
pub struct Backing {
    /// The names of their files.
    pub names: Vec<String>,
    /// What is said of their rows.
    pub texts: RowTexts,
    /// The name of the file that is to say it, if one is asked for.
    pub where_file: Option<String>,
    /// Why it did not, where it was read.
    pub silence: Option<Silence>,
    /// The field of a source that has its fault.
    pub field: Option<FaultyField>,
}

/// Which records the sources may have that are asked for.
pub fn dialect_of(asked: &Asked) -> Dialect
    ensures { result ≡ dialect_asked asked.now }
{
    Dialect {
        carriers: asked.carriers,
        end_record: asked.complete,
    }
}

/// Whether it is counted what the sources have exercised.
pub fn is_covering(asked: &Asked) -> bool
    ensures { result ≡ covering_asked asked.now }
{
    asked.explain || asked.coverage
}

/// Whether an event was refused.
fn is_refusal(ending: &Ending) -> bool
    ensures { result ≡ is_refusal ending.now }
{
    matches!(
        ending,
        Ending::Ran(Judged {
            outcome: Outcome::Forbidden(_) | Outcome::Malformed(_),
            ..
        })
    )
}

/// The texts that the file of this name has.
fn texts_in<O: Opener>(alloc: Global, opener: &O, name: &String) -> Result<RowTexts, Silence>
    ensures texts { IfOk result (λ t. AreTextsOf
        (option_map text_records (O.known opener.now (string_bytes name.now))) (said_by t)) }
    ensures silence { IfErr result (IsSilenceOf (O.known opener.now) (string_bytes name.now)) }
{
    match opener.open(name) {
        Ok(Some(file)) => match texts_from(alloc, file) {
            Ok(texts) => Ok(texts),
            Err(fault) => Err(Silence::Fault(fault)),
        },
        _ => Err(Silence::Unopened),
    }
}

/// What a file says of rows, where one is asked for and an event was refused, and why it says
/// nothing where it could not be had.
fn texts_asked<O: Opener>(
    alloc: Global,
    opener: &O,
    asked: &Asked,
    ending: &Ending,
) -> (RowTexts, Option<Silence>)
    ensures { HasTexts (O.known opener.now) asked.now ending.now (said_by result.0) result.1 }
{
    let name = match &asked.where_file {
        Some(name) if is_refusal(ending) => name,
        _ => return (RowTexts::new(alloc), None),
    };
    match texts_in(alloc, opener, name) {
        Ok(texts) => (texts, None),
        Err(silence) => (RowTexts::new(alloc), Some(silence)),
    }
}

/// Whether a fault is one of a field, and not of the header, of a whole row or of reading.
fn is_of_field(kind: FaultKind) -> bool {
    matches!(
        kind,
        FaultKind::Number
            | FaultKind::Op
            | FaultKind::Missing
            | FaultKind::NotBlank
            | FaultKind::Annotation
            | FaultKind::Dependency
            | FaultKind::TooManyDeps
    )
}

/// The name of a source's file, if it has one.
fn file_of(asked: &Asked, source: u8) -> Option<&String>
    ensures { option_copied result ≡ slice_get asked.now.files.items source }
{
    asked.files.as_slice().get(source as usize)
}

/// The field of a row that has its fault, where the file of this name can be read again.
fn field_in<O: Opener>(
    alloc: Global,
    opener: &O,
    name: &String,
    dialect: Dialect,
    row: u32,
) -> Option<FaultyField>
    ensures { IfSome result (λ field. IsFieldInRow dialect row
        (option_map text_records (O.known opener.now (string_bytes name.now))) (Some field)) }
{
    match opener.open(name) {
        Ok(Some(file)) => faulty_field(alloc, file, dialect, row).unwrap_or(None),
        _ => None,
    }
}

/// The field that has the fault of a source, where one has it and the file can be read again.
fn field_of<O: Opener>(
    alloc: Global,
    opener: &O,
    asked: &Asked,
    ending: &Ending,
) -> Option<FaultyField>
    ensures { IfSome result (IsFieldOf (O.known opener.now) asked.now ending.now) }
{
    let Ending::Failed(RunFault::Trace { source, fault }) = ending else {
        return None;
    };
    if !is_of_field(fault.kind) {
        return None;
    }
    match file_of(asked, *source) {
        Some(name) => field_in(alloc, opener, name, dialect_of(asked), fault.row),
        None => None,
    }
}

/// What is known of the sources of a request that ended so. The file that tells where rows come
/// from is read where an event was refused, and not before: it may be written meanwhile.
pub fn backing_of<O: Opener>(alloc: Global, opener: &O, asked: Asked, ending: &Ending) -> Backing
    ensures { IsBacking (O.known opener.now) asked ending.now result }
{
    let field = field_of(alloc, opener, &asked, ending);
    let (texts, silence) = texts_asked(alloc, opener, &asked, ending);
    Backing {
        names: asked.files,
        texts,
        where_file: asked.where_file,
        silence,
        field,
    }
}
