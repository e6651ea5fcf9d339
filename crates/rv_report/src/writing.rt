//! Writing a text that is had as a whole.
ghost use Rattle.std.specs.Prelude.{◌≡◌, ◌≢◌, Err, OnOk};
ghost use Rattle.std.specs.Io.KnownBytes.{Appends};
ghost use Rattle.rv_report.specs.declared.fault.ReportFault.TheVariants as fault;
ghost use Rattle.rv_report.specs.Writing.{IsCutShort};

use crate::fault::ReportFault;
use std::io::Write;

/// Writes all of a text. A failed call is not made again, whatever its cause.
pub fn write_text<W: Write>(writer: &mut W, text: &str) -> Result<(), ReportFault>
    ensures written { OnOk result (Appends (W.contents writer.old) (W.contents writer.new) text.now) }
    ensures cut { result ≡ Err fault.Write →
        IsCutShort (W.contents writer.old) (W.contents writer.new) text.now }
    ensures memory { result ≢ Err fault.NoMemory }
{
    let bytes = text.as_bytes();
    let mut written = 0;
    while written < bytes.len() {
        match writer.write(&bytes[written..]) {
            Ok(0) | Err(_) => return Err(ReportFault::Write),
            Ok(count) => written += count,
        }
    }
    Ok(())
}
