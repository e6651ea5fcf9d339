//! Small steps on rows.
ghost use Rattle.std.specs.Prelude.{ℕ, ◌≡◌, ◌<◌, ◌==◌, ◌&&◌, ◌||◌};
ghost use Rattle.rv_rows.specs.Bits.{has_bit};

use rv_rows::Row;

/// Puts in all that the other set has, where the test passes.
pub fn join_if(row: &mut Row, test: bool, other: &Row)
    ensures { (s : ℕ) → has_bit row.new s ≡ (has_bit row.old s || (test && has_bit other.now s)) }
{
    if test {
        row.join(other);
    }
}

/// Puts the number in, where the test passes.
pub fn insert_if(row: &mut Row, test: bool, number: usize)
    requires { number < 4096 }
    ensures { (s : ℕ) → has_bit row.new s ≡ (has_bit row.old s || (test && (number == s))) }
{
    if test {
        row.insert(number);
    }
}
