//! The fields of a record that are numbers, or must be blank.
ghost use Rattle.std.specs.Prelude.{◌≡◌, ◌≤◌, ◌<◌, ◌^◌, IfOk, SomeIff, true};
ghost use Rattle.std.specs.Str.Parse.{digits_value};
ghost use Rattle.rv_log.specs.Numbers.{all_digits, blank, needed, number, optional};

use crate::fault::{Field, RecordFault};

/// The numbers that a field may have.
#[derive(Clone, Copy, PartialEq, Eq, Debug)]
pub struct Form {
    /// In which base they are written: 10, or 16 with small or large letters.
    pub radix: u32,
    /// How many digits they have at most, leading zeros among them.
    pub most: usize,
    /// The greatest.
    pub max: u64,
}

/// The number that the digits say; `None` where a byte is no digit, or 64 bits don't hold it.
fn digits(radix: u32, text: &[u8]) -> Option<u64>
    requires low { 2 ≤ radix }
    requires high { radix ≤ 16 }
    ensures { SomeIff result
        ((all_digits radix text.now ≡ true) × (digits_value radix text.now < 2 ^ 64))
        (digits_value radix text.now) }
{
    let mut value: u64 = 0;
    'bytes: for byte in text {
        let digit = (*byte as char).to_digit(radix)?;
        value = value.checked_mul(radix as u64)?.checked_add(digit as u64)?;
    }
    Some(value)
}

/// A field that must be a number of the form.
#[tactic(auto, unfolding(crate::specs::Numbers::number))]
pub fn number_of(form: Form, name: Field, text: &[u8]) -> Result<u64, RecordFault>
    requires low { 2 ≤ form.radix }
    requires high { form.radix ≤ 16 }
    ensures value { result ≡ number form name text.now }
    ensures bound { IfOk result (λ n. n ≤ form.max) }
{
    if text.is_empty() {
        return Err(RecordFault::Missing(name));
    }
    if text.len() > form.most {
        return Err(RecordFault::Number(name));
    }
    match digits(form.radix, text) {
        Some(number) if number <= form.max => Ok(number),
        _ => Err(RecordFault::Number(name)),
    }
}

/// A field that must be blank.
#[tactic(auto, unfolding(crate::specs::Numbers::blank))]
pub fn blank_of(name: Field, text: &[u8]) -> Result<(), RecordFault>
    ensures { result ≡ blank name text.now }
{
    if text.is_empty() {
        Ok(())
    } else {
        Err(RecordFault::NotBlank(name))
    }
}

/// A field that must be a number where a record has it, and else blank: 0.
#[tactic(auto, unfolding(crate::specs::Numbers::needed))]
pub fn needed_of(has: bool, form: Form, name: Field, text: &[u8]) -> Result<u64, RecordFault>
    requires low { 2 ≤ form.radix }
    requires high { form.radix ≤ 16 }
    ensures { result ≡ needed has form name text.now }
{
    if has {
        return number_of(form, name, text);
    }
    if text.is_empty() {
        Ok(0)
    } else {
        Err(RecordFault::NotBlank(name))
    }
}

/// A field that may be a number where a record has it, and else is blank.
#[tactic(auto, unfolding(crate::specs::Numbers::optional))]
pub fn optional_of(
    has: bool,
    form: Form,
    name: Field,
    text: &[u8],
) -> Result<Option<u64>, RecordFault>
    requires low { 2 ≤ form.radix }
    requires high { form.radix ≤ 16 }
    ensures { result ≡ optional has form name text.now }
{
    if text.is_empty() {
        return Ok(None);
    }
    if !has {
        return Err(RecordFault::NotBlank(name));
    }
    Ok(Some(number_of(form, name, text)?))
}
