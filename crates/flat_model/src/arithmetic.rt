//! Arithmetic on numbers within the limit of magnitude.

ghost use Rattle.std.specs.Prelude.{◌≡◌, ◌+ℤ◌, ◌-ℤ◌, ◌*ℤ◌};
ghost use Rattle.flat_model.specs.Numbers.{IsWithinLimit};

pub fn add(a: i64, b: i64) -> i64
    requires left { IsWithinLimit a }
    requires right { IsWithinLimit b }
    ensures { result ≡ a +ℤ b }
{
    a + b
}

pub fn subtract(a: i64, b: i64) -> i64
    requires left { IsWithinLimit a }
    requires right { IsWithinLimit b }
    ensures { result ≡ a -ℤ b }
{
    a - b
}

pub fn multiply(a: i64, b: i64) -> i64
    requires left { IsWithinLimit a }
    requires right { IsWithinLimit b }
    ensures { result ≡ a *ℤ b }
{
    a * b
}
