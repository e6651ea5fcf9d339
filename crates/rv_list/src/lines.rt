//! The lines of a list.
ghost use Rattle.std.specs.Prelude.{◌≡◌, false, IfOk, true};
ghost use Rattle.rv_list.specs.ListLines.{NoLine, TakesLine};

use std::io;
use std::io::BufRead;

/// Reads the next line of a list into `line`, in place of what that held: without its line feed,
/// and without a carriage return before that. `false` where no line is left.
///
/// # Errors
/// Those of the reader, and of memory. What was read of the line is lost.
pub fn next_line<R: BufRead>(reader: &mut R, line: &mut Vec<u8>) -> io::Result<bool>
    ensures line { IfOk result (λ found. found ≡ true →
        TakesLine (R.remaining reader.old) (R.remaining reader.new) line.new.items) }
    ensures end { IfOk result (λ found. found ≡ false → NoLine (R.remaining reader.old)) }
{
    line.clear();
    if reader.read_until(b'\n', line)? == 0 {
        return Ok(false);
    }
    if line.ends_with(b"\n") {
        line.pop();
        if line.ends_with(b"\r") {
            line.pop();
        }
    }
    Ok(true)
}
