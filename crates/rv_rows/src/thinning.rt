//! The step of a sweep that finds which candidates stand in no other candidate's row.
ghost use Rattle.std.specs.Prelude.{ℕ, ◌<◌, ◌≤◌, length};
ghost use Rattle.rv_rows.specs.Bits.{Has};
ghost use Rattle.rv_rows.specs.Closure.{IsTaken};

use crate::row::Row;
use crate::rows::Rows;

/// Takes the highest candidate out, and with it all that its row has; `None` where there is none.
/// `limit` is above each candidate: the number of rows, or the candidate that was taken before.
///
/// Where row n is that of the number n, has n and numbers below, and with a number all of that
/// number's row, a sweep that takes until none is left takes just the candidates that stand in no
/// other candidate's row, the highest first, and each candidate stands in the row of one that it
/// took. A step costs a search from the limit down and the subtraction of one row.
#[inline(always)]
pub fn take_highest(candidates: &mut Row, rows: &Rows, limit: usize) -> Option<usize>
    requires few { length rows.now ≤ 4096 }
    requires limit { limit ≤ length rows.now }
    requires below { (j : ℕ) → Has candidates.old j → j < limit }
    ensures { IsTaken rows.now candidates.old result candidates.new }
{
    let number = candidates.highest_below(limit)?;
    rows.subtract_from(number, candidates);
    Some(number)
}
