//! Intervals of numbers: arithmetic, with ends that saturate, and the limit of magnitude.

ghost use Rattle.std.specs.Prelude.{◌≡◌, ◌*ℤ◌};
ghost use Rattle.smv_kinds.specs.Intervals as spec;

use sqlite_items::at;

/// The numbers from `low` up to `high`, both included.
#[derive(Clone, Copy, Debug, Drop)]
pub struct Interval {
    pub low: i64,
    pub high: i64,
}

/// The greatest magnitude of a number.
const LIMIT: i64 = 2_147_483_647;

/// The magnitude at which the ends of intervals saturate: 2 ^ 62.
const BOUND: i64 = 4_611_686_018_427_387_904;

/// Whether a number is within the limit of magnitude.
#[tactic(auto, unfolding(crate::specs::Intervals::is_within))]
fn is_within(n: i64) -> bool
    ensures { result ≡ spec.is_within n }
{
    -LIMIT <= n && n <= LIMIT
}

/// Whether both ends of an interval are within the limit of magnitude.
pub fn is_narrow(interval: Interval) -> bool
    ensures { result ≡ spec.is_narrow interval }
{
    is_within(interval.low) && is_within(interval.high)
}

/// The nearest number whose magnitude is at most the bound.
#[tactic(auto, unfolding(crate::specs::Intervals::saturated))]
fn saturated(n: i64) -> i64
    ensures { result ≡ spec.saturated n }
{
    n.clamp(-BOUND, BOUND)
}

/// The interval with these ends, each saturated.
pub fn between(low: i64, high: i64) -> Interval
    ensures { result ≡ spec.between low high }
{
    Interval {
        low: saturated(low),
        high: saturated(high),
    }
}

/// The least interval that contains both.
#[tactic(auto, unfolding(crate::specs::Intervals::hull))]
pub fn hull(a: Interval, b: Interval) -> Interval
    ensures { result ≡ spec.hull a b }
{
    Interval {
        low: a.low.min(b.low),
        high: a.high.max(b.high),
    }
}

/// The interval of the sums.
pub fn sum(a: Interval, b: Interval) -> Interval
    ensures { result ≡ spec.sum a b }
{
    between(a.low.saturating_add(b.low), a.high.saturating_add(b.high))
}

/// The interval of the differences.
pub fn difference(a: Interval, b: Interval) -> Interval
    ensures { result ≡ spec.difference a b }
{
    between(a.low.saturating_sub(b.high), a.high.saturating_sub(b.low))
}

/// The interval of the product of two numbers.
fn single_product(m: i64, n: i64) -> Interval
    ensures { result ≡ spec.alone (m *ℤ n) }
{
    let product = m.saturating_mul(n);
    between(product, product)
}

/// The interval of the products: the least that contains the products of the ends.
pub fn product(a: Interval, b: Interval) -> Interval
    ensures { result ≡ spec.product a b }
{
    let of_low = hull(single_product(a.low, b.low), single_product(a.low, b.high));
    let of_high = hull(
        single_product(a.high, b.low),
        single_product(a.high, b.high),
    );
    hull(of_low, of_high)
}

/// The interval of the remainders of a division by these numbers.
pub fn remainder(divisor: Interval) -> Interval
    ensures { result ≡ spec.remainder divisor }
{
    between(0, divisor.high.saturating_sub(1))
}

/// The interval of the numbers with the opposite sign.
pub fn opposite(a: Interval) -> Interval
    ensures { result ≡ spec.opposite a }
{
    between(a.high.saturating_neg(), a.low.saturating_neg())
}

/// The least interval that contains these numbers; that of 0 without numbers.
pub fn holding(numbers: &[i64]) -> Interval
    ensures { result ≡ spec.holding numbers.now }
{
    let mut interval = match at(numbers, 0) {
        Some(first) => between(*first, *first),
        None => between(0, 0),
    };
    for n in numbers {
        interval = hull(interval, between(*n, *n));
    }
    interval
}
