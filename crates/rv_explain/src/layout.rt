//! Texts in columns.
ghost use Rattle.std.specs.Prelude.{◌≡◌, ◌<◌, ◌++◌, ◌↔◌, [], IfOk, IsTrue, OnOk, codes, length, map, replicate};
ghost use Rattle.std.specs.Prelude.{slice_index_or, string_bytes};
ghost use Rattle.rv_event.specs.Texts.{◌⋯◌};
ghost use Rattle.rv_explain.specs.Layout.{HaveRoom, blocks_text, greater, line_across, lines_alone};
ghost use Rattle.rv_explain.specs.Layout.{lines_below, lines_beside, padded, placed, put, tallest, widest};

use rv_event::NoMemory;
use std::alloc::Global;
use std::fmt::Write as _;

/// The columns that lines may have where blocks stand beside one another.
const ROOM: usize = 100;

/// Adds spaces.
fn push_spaces(text: &mut String, count: usize) -> Result<(), NoMemory>
    ensures { OnOk result (string_bytes text.new ≡ string_bytes text.old ++ replicate count 32) }
{
    'spaces: for _ in 0..count {
        text.push(' ')?;
    }
    Ok(())
}

/// Adds spaces up to a width.
pub fn pad(text: &mut String, width: usize) -> Result<(), NoMemory>
    ensures { OnOk result (string_bytes text.new ≡ padded width (string_bytes text.old)) }
{
    let count = width.saturating_sub(text.len());
    push_spaces(text, count)
}

/// The greater of two numbers.
fn greater(m: usize, n: usize) -> usize
    ensures { result ≡ greater m n }
{
    if m < n { n } else { m }
}

/// The width of the widest of these lines, in bytes.
pub fn widest(lines: &[String]) -> usize
    ensures { result ≡ widest (map string_bytes lines.now) }
{
    let mut width = 0;
    let mut rest = lines;
    'lines: while let Some((line, after)) = rest.split_first() {
        width = greater(width, line.len());
        rest = after;
    }
    width
}

/// The number of lines of the tallest of these blocks.
fn tallest(blocks: &[Vec<String>]) -> usize
    ensures { result ≡ tallest (blocks_text blocks.now) }
{
    let mut height = 0;
    let mut rest = blocks;
    'each: while let Some((block, after)) = rest.split_first() {
        height = greater(height, block.as_slice().len());
        rest = after;
    }
    height
}

/// Whether the blocks have room beside one another.
fn have_room(blocks: &[Vec<String>]) -> bool
    ensures { IsTrue result ↔ HaveRoom (blocks_text blocks.now) }
{
    if blocks.len() > 3 {
        return false;
    }
    let mut at = 2;
    let mut rest = blocks;
    'each: while let Some((block, after)) = rest.split_first() {
        let width = widest(block.as_slice());
        if width > ROOM {
            return false;
        }
        at += width + 3;
        rest = after;
    }
    at <= ROOM + 3
}

/// Puts a text into a line, from a column on.
fn put(line: &mut String, at: usize, text: &str) -> Result<(), NoMemory>
    ensures { OnOk result (string_bytes line.new ≡ put at text.now (string_bytes line.old)) }
{
    if text.is_empty() {
        return Ok(());
    }
    pad(line, at)?;
    line.push_str(text)?;
    Ok(())
}

/// The line with this number of the block, or nothing.
fn line_of(block: &[String], number: usize) -> &str
    ensures { result.now ≡ slice_index_or (map string_bytes block.now) number [] }
{
    match block.get(number) {
        Some(line) => line.as_str(),
        None => "",
    }
}

/// A line of all blocks, which have room beside one another.
fn line_across(alloc: Global, blocks: &[Vec<String>], number: usize) -> Result<String, NoMemory>
    requires { HaveRoom (blocks_text blocks.now) }
    ensures { IfOk result (λ line. string_bytes line ≡ line_across number 2 (blocks_text blocks.now) []) }
{
    let mut line = String::new(alloc);
    let mut at = 2;
    let mut rest = blocks;
    'each: while let Some((block, after)) = rest.split_first() {
        put(&mut line, at, line_of(block.as_slice(), number))?;
        at += widest(block.as_slice()) + 3;
        rest = after;
    }
    Ok(line)
}

/// Adds the lines of blocks that have room beside one another.
fn push_beside(alloc: Global, text: &mut String, blocks: &[Vec<String>]) -> Result<(), NoMemory>
    requires { HaveRoom (blocks_text blocks.now) }
    ensures { OnOk result (string_bytes text.new ≡ string_bytes text.old
        ++ lines_beside (tallest (blocks_text blocks.now)) (blocks_text blocks.now)) }
{
    'lines: for number in 0..tallest(blocks) {
        let line = line_across(alloc, blocks, number)?;
        text.push_str(line.as_str())?;
        text.push('\n')?;
    }
    Ok(())
}

/// Adds the lines of a block that stands alone.
fn push_alone(text: &mut String, block: &[String]) -> Result<(), NoMemory>
    ensures { OnOk result (string_bytes text.new ≡ string_bytes text.old
        ++ lines_alone (map string_bytes block.now)) }
{
    let mut rest = block;
    'lines: while let Some((line, after)) = rest.split_first() {
        writeln!(text, "  {line}")?;
        rest = after;
    }
    Ok(())
}

/// Adds blocks below one another, with an empty line behind each.
fn push_below(text: &mut String, blocks: &[Vec<String>]) -> Result<(), NoMemory>
    ensures { OnOk result (string_bytes text.new ≡ string_bytes text.old
        ++ lines_below (blocks_text blocks.now)) }
{
    let mut rest = blocks;
    'each: while let Some((block, after)) = rest.split_first() {
        push_alone(text, block.as_slice())?;
        text.push('\n')?;
        rest = after;
    }
    Ok(())
}

/// Adds blocks, and an empty line: beside one another where they have room, else below one another.
pub fn push_blocks(alloc: Global, text: &mut String, blocks: &[Vec<String>]) -> Result<(), NoMemory>
    ensures { OnOk result (string_bytes text.new ≡ string_bytes text.old ++ placed (blocks_text blocks.now)) }
{
    if have_room(blocks) {
        push_beside(alloc, text, blocks)?;
        text.push('\n')?;
        Ok(())
    } else {
        push_below(text, blocks)
    }
}
