//! The picture of an outcome.
ghost use Rattle.std.specs.Prelude.{◌≡◌, ◌++◌, IfOk, OnOk, flat_map, length, map, option_map, string_bytes};
ghost use Rattle.std.specs.Option.{option_copied};
ghost use Rattle.rv_explain.specs.RowTexts.{said_by};
ghost use Rattle.rv_picture.specs.Escaping.{xml_text};
ghost use Rattle.rv_explain.specs.Layout.{greater};
ghost use Rattle.rv_picture.specs.Arrows.{label_text, path_text};
ghost use Rattle.rv_picture.specs.Numbering.{numbered};
ghost use Rattle.std.specs.Str.Lines.{lines};
ghost use Rattle.rv_picture.specs.Pictures.{IsForbiddenPicture, IsMalformedPicture, IsPicture, labels_text};
ghost use Rattle.rv_picture.specs.Pictures.{most_rows, notes_text, page_text, paths_text, plan_height, plan_of};
ghost use Rattle.rv_picture.specs.Pictures.{plan_text, plan_width, title_text};
ghost use Rattle.rv_picture.specs.Drawings.{plan_in};

use crate::arrow::{Arrow, Label, Path, arrows_of};
use crate::escape::{lines_of, xml_text, xml_texts};
use crate::grid::{Grid, top};
use crate::page::{Head, Size, push_lines};
use crate::tile::{Scene, grid_of, push_columns};
use rv_cert::{Forbidden, Malformed};
use rv_event::{MemoryModel, NoMemory};
use rv_explain::{
    Column, Explanation, RowTexts, Shown, Sources, explain, headline, malformed_text, push_cause,
    refused_of, widest,
};
use rv_report::{Outcome, report_text};
use std::alloc::Global;
use std::fmt::Write as _;

/// The greater of two numbers of events.
fn greater(m: usize, n: usize) -> usize
    ensures { result ≡ greater m n }
{
    if m < n { n } else { m }
}

/// The number of events in the longest of these columns.
fn most_rows(columns: &[Column<'_>]) -> usize
    ensures { result ≡ most_rows columns.now }
{
    let mut most = 0;
    'columns: for column in columns {
        most = greater(most, column.events.as_slice().len());
    }
    most
}

/// Adds the ways of the arrows.
fn push_paths(text: &mut String, grid: Grid, arrows: &[Arrow]) -> Result<(), NoMemory>
    ensures { OnOk result (string_bytes text.new ≡ string_bytes text.old
        ++ flat_map (path_text grid.width) arrows.now) }
{
    'arrows: for arrow in arrows {
        let path = Path {
            grid,
            arrow: *arrow,
        };
        write!(text, "{path}")?;
    }
    Ok(())
}

/// Adds the label of an arrow.
fn push_label(text: &mut String, grid: Grid, number: usize, arrow: &Arrow) -> Result<(), NoMemory>
    ensures { OnOk result (string_bytes text.new ≡ string_bytes text.old
        ++ label_text grid.width number arrow.now) }
{
    let label = Label {
        grid,
        arrow: *arrow,
        number,
    };
    write!(text, "{label}")?;
    Ok(())
}

/// Adds the labels of the arrows, numbered from 1.
fn push_labels(text: &mut String, grid: Grid, arrows: &[Arrow]) -> Result<(), NoMemory>
    ensures { OnOk result (string_bytes text.new ≡ string_bytes text.old
        ++ numbered (label_text grid.width) 1 arrows.now) }
{
    'arrows: for place in 0..arrows.len() {
        push_label(text, grid, place + 1, &arrows[place])?;
    }
    Ok(())
}

/// What a picture shows of an explanation.
#[derive(Clone, Copy)]
struct Drawing<'a> {
    scene: Scene<'a>,
    grid: Grid,
    columns: &'a [Column<'a>],
    arrows: &'a [Arrow],
    title: &'a [String],
    notes: &'a [String],
}

/// The wider of two widths.
fn wider(m: u128, n: u128) -> u128
    ensures { result ≡ greater m n }
{
    if m < n { n } else { m }
}

/// The size of a drawing.
fn size_of(drawing: &Drawing<'_>) -> Size
    ensures width { result.width ≡ plan_width (plan_in drawing.now) }
    ensures height { result.height ≡ plan_height (plan_in drawing.now) }
{
    let grid = drawing.grid.width_of(drawing.columns.len());
    let title = 48 + 10 * widest(drawing.title) as u128;
    let notes = 48 + 8 * widest(drawing.notes) as u128;
    let rows = most_rows(drawing.columns);
    Size {
        width: wider(grid, wider(title, notes)),
        height: top(rows) + 44 + 18 * drawing.notes.len() as u128,
    }
}

/// Adds the lines above.
fn push_title(text: &mut String, lines: &[String]) -> Result<(), NoMemory>
    ensures { OnOk result (string_bytes text.new ≡ string_bytes text.old
        ++ title_text (map string_bytes lines.now)) }
{
    text.push_str("<g font-size=\"14\" font-weight=\"bold\">\n")?;
    push_lines(text, lines)?;
    text.push_str("</g>\n")?;
    Ok(())
}

/// Adds the ways of the arrows, with their heads.
fn push_arrows(text: &mut String, grid: Grid, arrows: &[Arrow]) -> Result<(), NoMemory>
    ensures { OnOk result (string_bytes text.new ≡ string_bytes text.old
        ++ paths_text grid.width arrows.now) }
{
    text.push_str("<g fill=\"none\" stroke=\"black\" marker-end=\"url(#head)\">\n")?;
    push_paths(text, grid, arrows)?;
    text.push_str("</g>\n")?;
    Ok(())
}

/// Adds the labels of the arrows, which stand out from what is below.
fn push_words(text: &mut String, grid: Grid, arrows: &[Arrow]) -> Result<(), NoMemory>
    ensures { OnOk result (string_bytes text.new ≡ string_bytes text.old
        ++ labels_text grid.width arrows.now) }
{
    text.push_str(
        "<g font-size=\"11\" stroke=\"white\" stroke-width=\"4\" paint-order=\"stroke\">\n",
    )?;
    push_labels(text, grid, arrows)?;
    text.push_str("</g>\n")?;
    Ok(())
}

/// Adds the lines below so many rows of boxes.
fn push_notes(text: &mut String, rows: usize, lines: &[String]) -> Result<(), NoMemory>
    ensures { OnOk result (string_bytes text.new ≡ string_bytes text.old
        ++ notes_text rows (map string_bytes lines.now)) }
{
    let y = top(rows);
    writeln!(text, "<g transform=\"translate(0 {y})\">")?;
    push_lines(text, lines)?;
    text.push_str("</g>\n")?;
    Ok(())
}

/// The picture of a drawing: arrows below boxes, and labels above both.
fn drawn(alloc: Global, drawing: &Drawing<'_>) -> Result<String, NoMemory>
    ensures { IfOk result (λ text. string_bytes text ≡ plan_text (plan_in drawing.now)) }
{
    let Drawing {
        grid,
        columns,
        arrows,
        ..
    } = *drawing;
    let head = Head {
        size: size_of(drawing),
    };
    let mut text = format!(in alloc; "{head}")?;
    push_title(&mut text, drawing.title)?;
    push_arrows(&mut text, grid, arrows)?;
    push_columns(&mut text, drawing.scene, grid, columns)?;
    push_words(&mut text, grid, arrows)?;
    push_notes(&mut text, most_rows(columns), drawing.notes)?;
    text.push_str("</svg>\n")?;
    Ok(text)
}

/// The picture of an explanation, by names as XML has them.
fn explanation_picture(
    alloc: Global,
    model: MemoryModel,
    names: &[String],
    explanation: &Explanation<'_>,
) -> Result<String, NoMemory>
    ensures { IfOk result (λ text. string_bytes text ≡ plan_text (plan_of model names.now explanation.now)) }
{
    let columns = explanation.columns.as_slice();
    let scene = Scene {
        alloc,
        names,
        refused: explanation.refused.place,
    };
    let grid = grid_of(scene, columns)?;
    let arrows = arrows_of(alloc, columns, &explanation.cause)?;
    let title = headline(alloc, model, names, &explanation.refused)?;
    let title = lines_of(alloc, title.as_str())?;
    let mut cause = String::new(alloc);
    push_cause(&mut cause, &explanation.cause)?;
    let notes = lines_of(alloc, cause.as_str())?;
    let drawing = Drawing {
        scene,
        grid,
        columns,
        arrows: arrows.as_slice(),
        title: title.as_slice(),
        notes: notes.as_slice(),
    };
    drawn(alloc, &drawing)
}

/// A picture of lines alone.
fn page(alloc: Global, text: &str) -> Result<String, NoMemory>
    ensures { IfOk result (λ page. string_bytes page ≡ page_text (lines text.now)) }
{
    let lines = lines_of(alloc, text)?;
    let lines = lines.as_slice();
    let head = Head {
        size: Size {
            width: 48 + 8 * widest(lines) as u128,
            height: 44 + 18 * lines.len() as u128,
        },
    };
    let mut page = format!(in alloc; "{head}")?;
    push_lines(&mut page, lines)?;
    page.push_str("</svg>\n")?;
    Ok(page)
}

/// The picture of a forbidden log, by names as XML has them.
fn forbidden_picture(
    alloc: Global,
    names: &[String],
    texts: &RowTexts,
    forbidden: &Forbidden,
) -> Result<String, NoMemory>
    ensures { IfOk result (λ text. IsForbiddenPicture
        names.now (said_by texts.now) forbidden.now (string_bytes text)) }
{
    let explanation = explain(alloc, forbidden, texts)?;
    explanation_picture(alloc, forbidden.model(), names, &explanation)
}

/// What is said of a row as XML has it, if anything is.
fn xml_said(alloc: Global, said: Option<&str>) -> Result<Option<String>, NoMemory>
    ensures { IfOk result (λ text. option_map string_bytes text ≡ option_map xml_text (option_copied said.entry)) }
{
    match said {
        Some(text) => Ok(Some(xml_text(alloc, text)?)),
        None => Ok(None),
    }
}

/// The event with this text of its row.
fn with_text<'a>(shown: Shown<'a>, said: &'a Option<String>) -> Shown<'a>
    ensures entry { result.entry.now ≡ shown.entry.entry.now }
    ensures place { result.place ≡ shown.entry.place }
    ensures row { result.row ≡ shown.entry.row }
    ensures text { option_copied result.text ≡ option_map string_bytes said.now }
{
    let text = match said {
        Some(text) => Some(text.as_str()),
        None => None,
    };
    Shown { text, ..shown }
}

/// The picture of a malformed log, by names as XML has them.
fn malformed_picture(
    alloc: Global,
    names: &[String],
    texts: &RowTexts,
    malformed: &Malformed,
) -> Result<String, NoMemory>
    ensures { IfOk result (λ text. IsMalformedPicture
        names.now (said_by texts.now) malformed.now (string_bytes text)) }
{
    let refused = refused_of(malformed.evidence(), texts);
    let said = xml_said(alloc, refused.text)?;
    let refused = with_text(refused, &said);
    let text = malformed_text(alloc, names, &refused, malformed.fault())?;
    page(alloc, text.as_str())
}

/// The picture of an outcome, as SVG: of a refusal its events in a column for each hart, an arrow
/// for each step of the certificate, and the steps in words; of a malformed log what is wrong with
/// its last event; of an allowed one its report.
///
/// It costs what [`explain`] costs, and for each step a pass over the column of each of its events.
///
/// # Errors
/// Memory ran out; the outcome stays as it is.
pub fn picture(alloc: Global, sources: Sources<'_>, outcome: &Outcome) -> Result<String, NoMemory>
    ensures { IfOk result (λ text. IsPicture
        sources.entry.names.now (said_by sources.entry.texts.now) outcome.now (string_bytes text)) }
{
    let texts = sources.texts;
    let names = xml_texts(alloc, sources.names)?;
    let names = names.as_slice();
    match outcome {
        Outcome::Allowed { .. } => page(alloc, report_text(alloc, outcome)?.as_str()),
        Outcome::Forbidden(forbidden) => forbidden_picture(alloc, names, texts, forbidden),
        Outcome::Malformed(malformed) => malformed_picture(alloc, names, texts, malformed),
    }
}
