//! How many bits numbers need.
ghost use Rattle.std.specs.Prelude.{◌≡◌, ◌≤◌};
ghost use Rattle.bit_encode.specs.Widths as spec;

use flat_model::Interval;

/// The binary digits of a number, leading zeros aside.
fn digits(number: u64) -> usize
    ensures digits { result ≡ spec.digits number }
    ensures few { result ≤ 64 }
{
    64 - number.leading_zeros() as usize
}

/// The binary digits of a number in two's complement, its sign aside.
fn signed_digits(number: i64) -> usize
    ensures digits { result ≡ spec.signed_digits number }
    ensures few { result ≤ 64 }
{
    if number < 0 {
        digits((-1 - number) as u64)
    } else {
        digits(number as u64)
    }
}

/// The least number of bits, at least 1, that has both ends of an interval with their signs.
pub fn width_of(interval: Interval) -> usize
    ensures width { result ≡ spec.width_of interval }
    ensures fits { spec.HasBitsFor interval result }
    ensures few { result ≤ 65 }
{
    1 + greater(signed_digits(interval.low), signed_digits(interval.high))
}

/// The least number of bits that can number so many positions.
pub fn position_width(count: u32) -> usize
    requires some { 1 ≤ count }
    ensures width { result ≡ spec.position_width count }
    ensures few { result ≤ 64 }
{
    digits(u64::from(count - 1))
}

/// The greater of two numbers.
pub fn greater(a: usize, b: usize) -> usize
    ensures { result ≡ spec.greater a b }
{
    if a < b { b } else { a }
}
