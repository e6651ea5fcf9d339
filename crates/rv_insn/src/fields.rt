//! Fields of bits.
ghost use Rattle.std.specs.Prelude.{◌≡◌, ◌<◌, ◌≤◌, ◌+◌, ◌-◌, ◌*◌, ◌^◌};
ghost use Rattle.rv_insn.specs.Fields.{field, is_set, popular, signed};

/// The number in the bits from `high` down to `low`.
pub fn field(bits: u32, high: u32, low: u32) -> u32
    requires order { low ≤ high }
    requires within { high < low + 31 }
    requires place { high < 32 }
    ensures value { result ≡ field bits high low }
    ensures bound { result < 2 ^ (high - low + 1) }
{
    (bits >> low) % (1 << (high - low + 1))
}

/// The register whose number stands in the five bits from `low` on.
pub fn register(bits: u32, low: u32) -> u8
    requires { low < 28 }
    ensures { result ≡ field bits (low + 4) low }
{
    field(bits, low + 4, low) as u8
}

/// The register of three bits from `low` on.
pub fn popular(bits: u32, low: u32) -> u8
    requires { low < 30 }
    ensures { result ≡ popular bits low }
{
    8 + field(bits, low + 2, low) as u8
}

/// Whether the bit is set.
pub fn is_set(bits: u32, place: u32) -> bool
    requires { place < 32 }
    ensures { result ≡ is_set bits place }
{
    field(bits, place, place) == 1
}

/// The number as one with a sign: from `half` on it stands for itself less twice `half`.
pub fn signed(number: u32, half: u32) -> i32
    requires few { half < 2 ^ 30 }
    requires within { number < 2 * half }
    ensures { result ≡ signed half number }
{
    if number < half {
        number as i32
    } else {
        number as i32 - (2 * half) as i32
    }
}
