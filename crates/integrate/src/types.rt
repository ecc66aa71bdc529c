//! Equal types: the same values in the same order.

ghost use Rattle.std.specs.Prelude.{◌≡◌, ◌↔◌, ◌≤ℤ◌, ◌+ℤ◌, ℤ, pos, [], IsTrue, map};
ghost use Rattle.smv_meaning.specs.declared.value.Value.TheVariants as value;
ghost use Rattle.smv_meaning.specs.Value.{all_values, between};
ghost use Rattle.integrate.specs.EqualTypes.{truth_values, equal_types, equal_lists};

use integrate_impose::texts::same_text;
use smv_ast::{SmvType, Text};

// ---- ranges

/// Whether `count` numbers after `low` there is one that is not above `high`.
fn reaches(low: &i64, high: &i64, count: usize) -> bool
    ensures { IsTrue result ↔ ((low.now +ℤ pos count) ≤ℤ high.now) }
{
    *low as i128 + count as i128 <= *high as i128
}

/// Whether it is the number `count` after `low`.
fn is_number(low: &i64, count: usize, number: &i64) -> bool
    ensures { IsTrue result ↔ (low.now +ℤ pos count ≡ number.now) }
{
    *low as i128 + count as i128 == *number as i128
}

fn is_empty_range(low: &i64, high: &i64) -> bool
    ensures { result ≡ equal_lists (between low.now high.now) [] }
{
    if reaches(low, high, 0) {
        return false;
    }
    true
}

/// Whether the numbers are those from `low` up to `high`.
fn is_run(low: &i64, high: &i64, numbers: &[i64]) -> bool
    ensures { result ≡ equal_lists (between low.now high.now) (map value.Number numbers.now) }
{
    for (i, number) in numbers.iter().enumerate() {
        if !reaches(low, high, i) {
            return false;
        }
        if !is_number(low, i, number) {
            return false;
        }
    }
    if reaches(low, high, numbers.len()) {
        return false;
    }
    true
}

/// Whether two ranges have the same numbers.
fn same_ranges(low: &i64, high: &i64, other_low: &i64, other_high: &i64) -> bool
    ensures { result
        ≡ equal_lists (between low.now high.now) (between other_low.now other_high.now) }
{
    if !reaches(low, high, 0) {
        return is_empty_range(other_low, other_high);
    }
    if !is_number(low, 0, other_low) {
        return false;
    }
    if !is_number(high, 0, other_high) {
        return false;
    }
    true
}

// ---- enumerations

fn same_numbers(a: &[i64], b: &[i64]) -> bool
    ensures { result ≡ equal_lists (map value.Number a.now) (map value.Number b.now) }
{
    if a.len() != b.len() {
        return false;
    }
    for i in 0..a.len() {
        if a[i] != b[i] {
            return false;
        }
    }
    true
}

fn same_symbols(a: &[Text], b: &[Text]) -> bool
    ensures { result ≡ equal_lists (map value.Symbol a.now) (map value.Symbol b.now) }
{
    if a.len() != b.len() {
        return false;
    }
    for i in 0..a.len() {
        if !same_text(&a[i], b[i].as_str()) {
            return false;
        }
    }
    true
}

// ---- types

#[tactic(auto, using(crate::proofs::TypeLemmas::truths_range, crate::proofs::TypeLemmas::truths_numbers, crate::proofs::TypeLemmas::truths_symbols))]
fn are_truths(values: &SmvType) -> bool
    ensures { result ≡ equal_lists truth_values (all_values values.now) }
{
    match values {
        SmvType::Boolean => true,
        SmvType::Range { .. } => false,
        SmvType::Numbers(_) => false,
        SmvType::Symbols(_) => false,
    }
}

#[tactic(auto, using(crate::proofs::TypeLemmas::range_truths, crate::proofs::TypeLemmas::range_symbols))]
fn are_range(low: &i64, high: &i64, values: &SmvType) -> bool
    ensures { result ≡ equal_lists (between low.now high.now) (all_values values.now) }
{
    match values {
        SmvType::Boolean => false,
        SmvType::Range {
            low: other_low,
            high: other_high,
        } => same_ranges(low, high, other_low, other_high),
        SmvType::Numbers(numbers) => is_run(low, high, numbers.as_slice()),
        SmvType::Symbols(names) => is_empty_range(low, high) && names.len() == 0,
    }
}

#[tactic(auto, using(crate::proofs::TypeLemmas::numbers_truths, crate::proofs::TypeLemmas::numbers_symbols, crate::proofs::TypeLemmas::lists_swapped))]
fn are_numbers(numbers: &[i64], values: &SmvType) -> bool
    ensures { result ≡ equal_lists (map value.Number numbers.now) (all_values values.now) }
{
    match values {
        SmvType::Boolean => false,
        SmvType::Range { low, high } => is_run(low, high, numbers),
        SmvType::Numbers(others) => same_numbers(numbers, others.as_slice()),
        SmvType::Symbols(names) => numbers.len() == 0 && names.len() == 0,
    }
}

#[tactic(auto, using(crate::proofs::TypeLemmas::symbols_truths, crate::proofs::TypeLemmas::symbols_range, crate::proofs::TypeLemmas::symbols_numbers))]
fn are_symbols(names: &[Text], values: &SmvType) -> bool
    ensures { result ≡ equal_lists (map value.Symbol names.now) (all_values values.now) }
{
    match values {
        SmvType::Boolean => false,
        SmvType::Range { low, high } => is_empty_range(low, high) && names.len() == 0,
        SmvType::Numbers(numbers) => numbers.len() == 0 && names.len() == 0,
        SmvType::Symbols(others) => same_symbols(names, others.as_slice()),
    }
}

/// Whether the types are equal: `0..3` equals `{0, 1, 2, 3}`, and `boolean` equals only itself.
pub fn same_type(a: &SmvType, b: &SmvType) -> bool
    ensures { result ≡ equal_types a.now b.now }
{
    match a {
        SmvType::Boolean => are_truths(b),
        SmvType::Range { low, high } => are_range(low, high, b),
        SmvType::Numbers(numbers) => are_numbers(numbers.as_slice(), b),
        SmvType::Symbols(names) => are_symbols(names.as_slice(), b),
    }
}
