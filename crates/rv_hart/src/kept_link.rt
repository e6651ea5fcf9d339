//! The link of a word's memory operation, as it is kept.
ghost use Rattle.std.specs.Prelude.{◌≡◌, IfOk};
ghost use Rattle.rv_hart.specs.Numbers.{number_of};

use crate::words::WordLink;
use rv_event::NoMemory;
use std::marker::Model;

/// What stands for no number.
const NONE: u16 = 65535;

/// A link with two bytes for each number, as a hart has at most 4,096 events.
///
/// Contracts see the link.
#[derive(Drop)]
pub struct KeptLink {
    previous: u16,
    before_run: u16,
    highest: u16,
}

impl Model for KeptLink {
    ghost use Rattle.rv_hart.specs.Numbers.{number_of};
    ghost use Rattle.rv_hart.specs.declared.words.WordLink.{WordLink};

    ghost Value = { WordLink };

    ghost view = { λ k. record {
      previous = number_of k.previous;
      before_run = number_of k.before_run;
      highest = number_of k.highest;
    } };
}

impl KeptLink {
    /// The link, to be kept.
    ///
    /// # Errors
    /// `NoMemory` where a number is above 65,534.
    pub fn of(link: WordLink) -> Result<KeptLink, NoMemory>
        ensures { IfOk result (λ kept. kept ≡ link) }
    {
        let previous = narrowed(link.previous)?;
        let before_run = narrowed(link.before_run)?;
        let highest = narrowed(link.highest)?;
        Ok(KeptLink {
            previous,
            before_run,
            highest,
        })
    }

    /// The link.
    pub fn link(&self) -> WordLink
        ensures { result ≡ self.now }
    {
        WordLink {
            previous: widened(self.previous),
            before_run: widened(self.before_run),
            highest: widened(self.highest),
        }
    }
}

/// The number in two bytes.
fn narrowed(number: Option<u32>) -> Result<u16, NoMemory>
    ensures { IfOk result (λ n. number_of n ≡ number) }
{
    match number {
        Some(number) => {
            if number < 65535 {
                Ok(number as u16)
            } else {
                Err(NoMemory)
            }
        }
        None => Ok(NONE),
    }
}

/// The number that the two bytes stand for.
fn widened(number: u16) -> Option<u32>
    ensures { result ≡ number_of number }
{
    if number == NONE {
        None
    } else {
        Some(u32::from(number))
    }
}
