//! Lines of text, and the frame of a picture.
ghost use Rattle.std.specs.Prelude.{◌≡◌, ◌++◌, OnOk, Some, map, string_bytes};
ghost use Rattle.rv_picture.specs.Numbering.{numbered};
ghost use Rattle.rv_picture.specs.Pages.{head_text, line_text};

use rv_event::NoMemory;
use std::fmt;
use std::fmt::Write as _;

/// The size of a picture, in pixels.
#[derive(Clone, Copy, Debug)]
pub struct Size {
    /// Its width.
    pub width: u128,
    /// Its height.
    pub height: u128,
}

/// The beginning of a picture of a size: a white ground, and how arrows end.
#[derive(Clone, Copy)]
pub struct Head {
    /// The size.
    pub size: Size,
}

impl fmt::Display for Head {
    ghost output = { λ h. Some (head_text h.size.width h.size.height) };

    fn fmt<W: fmt::Write>(&self, f: &mut fmt::Formatter<W>) -> fmt::Result {
        let Size { width, height } = self.size;
        write!(
            f,
            "<svg xmlns=\"http://www.w3.org/2000/svg\" width=\"{width}\" height=\"{height}\" \
             viewBox=\"0 0 {width} {height}\" font-family=\"sans-serif\" font-size=\"12\">\n\
             <defs><marker id=\"head\" viewBox=\"0 0 10 10\" refX=\"10\" refY=\"5\" \
             markerWidth=\"8\" markerHeight=\"8\" orient=\"auto\">\
             <path d=\"M0 0L10 5L0 10z\"/></marker></defs>\n\
             <rect width=\"100%\" height=\"100%\" fill=\"white\"/>\n"
        )
    }
}

/// Adds a line of text by its number.
fn push_line(text: &mut String, number: usize, line: &String) -> Result<(), NoMemory>
    ensures { OnOk result (string_bytes text.new ≡ string_bytes text.old
        ++ line_text number (string_bytes line.now)) }
{
    let y = 32 + 18 * number as u128;
    writeln!(text, "<text x=\"24\" y=\"{y}\">{line}</text>")?;
    Ok(())
}

/// Adds lines of text, one below another.
///
/// # Errors
/// Memory ran out; some of them may be there.
pub fn push_lines(text: &mut String, lines: &[String]) -> Result<(), NoMemory>
    ensures { OnOk result (string_bytes text.new ≡ string_bytes text.old
        ++ numbered line_text 0 (map string_bytes lines.now)) }
{
    'lines: for number in 0..lines.len() {
        push_line(text, number, &lines[number])?;
    }
    Ok(())
}
