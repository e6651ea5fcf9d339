//! Texts within XML.
ghost use Rattle.std.specs.Prelude.{◌≡◌, ◌++◌, IfOk, OnOk, map, string_bytes};
ghost use Rattle.std.specs.Str.Lines.{lines};
ghost use Rattle.rv_picture.specs.Escaping.{xml_char, xml_text};

use rv_event::NoMemory;
use std::alloc::{AllocError, Global};

/// Adds a character as XML has it.
fn push_char(text: &mut String, character: char) -> Result<(), AllocError>
    ensures { OnOk result (string_bytes text.new ≡ string_bytes text.old ++ xml_char character) }
{
    match character {
        '&' => text.push_str("&amp;"),
        '<' => text.push_str("&lt;"),
        '>' => text.push_str("&gt;"),
        '\0'..='\x1f' | '\u{fffe}' | '\u{ffff}' => text.push('?'),
        _ => text.push(character),
    }
}

/// A name as XML has it: its marks are spelled out, and characters that XML has not are question
/// marks.
///
/// # Errors
/// Memory ran out.
pub fn xml_text(alloc: Global, name: &str) -> Result<String, NoMemory>
    ensures { IfOk result (λ text. string_bytes text ≡ xml_text name.now) }
{
    let mut text = String::new(alloc);
    'characters: for character in name.chars() {
        push_char(&mut text, character)?;
    }
    Ok(text)
}

/// The names as XML has them.
///
/// # Errors
/// Memory ran out.
pub fn xml_texts(alloc: Global, names: &[String]) -> Result<Vec<String>, NoMemory>
    ensures { IfOk result (λ texts. map string_bytes texts.items ≡ map xml_text (map string_bytes names.now)) }
{
    let mut texts = Vec::new(alloc);
    'names: for name in names {
        texts.push(xml_text(alloc, name.as_str())?)?;
    }
    Ok(texts)
}

/// The lines of a text.
///
/// # Errors
/// Memory ran out.
pub fn lines_of(alloc: Global, text: &str) -> Result<Vec<String>, NoMemory>
    ensures { IfOk result (λ found. map string_bytes found.items ≡ lines text.now) }
{
    let mut found = Vec::new(alloc);
    'lines: for line in text.lines() {
        found.push(line.to_string(alloc)?)?;
    }
    Ok(found)
}
