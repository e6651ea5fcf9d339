//! The fields of a row that are numbers, or must be blank.
ghost use Rattle.std.specs.Prelude.{◌≡◌, ◌≤◌, true, length, IfOk, IfErr};
ghost use Rattle.rv_trace.specs.Faults.{is_of_text};
ghost use Rattle.rv_trace.specs.Numbers.{blank, decimal_of, number, value};
ghost use Rattle.rv_trace.specs.Steps.{Gives};

use crate::fault::FaultKind;

/// The number that the digits say, and `None` where a byte is no digit.
fn decimal(text: &[u8]) -> Option<u64>
    requires { length text.now ≤ 10 }
    ensures { result ≡ decimal_of text.now }
{
    let mut value: u64 = 0;
    for b in text {
        if *b < b'0' || *b > b'9' {
            return None;
        }
        value = value * 10 + (*b - b'0') as u64;
    }
    Some(value)
}

/// A field that must be a number of 1 to 10 digits, no more than `max`. Leading zeros are taken.
///
/// # Errors
/// `Missing` where the field is blank, else `Number`.
#[inline(always)]
#[tactic(auto, unfolding(crate::specs::Numbers::number))]
pub fn number_of(text: &[u8], max: u32) -> Result<u32, FaultKind>
    ensures value { Gives result (number max text.now) }
    ensures kind { IfErr result (λ k. is_of_text k ≡ true) }
    ensures bound { IfOk result (λ n. n ≤ max) }
{
    if text.is_empty() {
        return Err(FaultKind::Missing);
    }
    if text.len() > 10 {
        return Err(FaultKind::Number);
    }
    match decimal(text) {
        Some(number) if number <= max as u64 => Ok(number as u32),
        _ => Err(FaultKind::Number),
    }
}

/// A field that must be blank.
#[tactic(auto, unfolding(crate::specs::Numbers::blank))]
pub(crate) fn blank_of(text: &[u8]) -> Result<u32, FaultKind>
    ensures value { Gives result (blank text.now) }
    ensures kind { IfErr result (λ k. is_of_text k ≡ true) }
{
    if text.is_empty() {
        Ok(0)
    } else {
        Err(FaultKind::NotBlank)
    }
}

/// A word or a version where the operation has it, and else a blank field.
#[inline(always)]
pub fn value_of(has: bool, text: &[u8]) -> Result<u32, FaultKind>
    ensures value { Gives result (value has text.now) }
    ensures kind { IfErr result (λ k. is_of_text k ≡ true) }
{
    if has {
        number_of(text, u32::MAX)
    } else {
        blank_of(text)
    }
}
