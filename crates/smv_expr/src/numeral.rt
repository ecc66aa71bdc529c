//! The numbers for which numerals stand.

ghost use Rattle.std.specs.Prelude.{◌≡◌, nat_le, if◌then◌else◌, Some, None};
ghost use Rattle.smv_expr.specs.Lexicon as spec;
ghost use Rattle.smv_expr.specs.Lexicon.{AreDigits};

/// The greatest number for which a numeral may stand.
const GREATEST_NUMBER: u64 = 2_147_483_647;

/// The number for which decimal digits stand; none where it is over the limit.
pub fn numeral_value(digits: &[u8]) -> Option<u32>
    requires { AreDigits digits.now }
    ensures { result ≡ if nat_le (spec.numeral_value digits.now) spec.greatest_number then Some
        (spec.numeral_value digits.now) else None }
{
    let mut value = 0;
    for digit in digits {
        value = 10 * value + u64::from(*digit - b'0');
        if value > GREATEST_NUMBER {
            return None;
        }
    }
    Some(value as u32)
}
