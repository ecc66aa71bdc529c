//! The facts of an expression: its sort, and the rules that it keeps.

ghost use Rattle.std.specs.Prelude.{◌≡◌, Some};
ghost use Rattle.smv_kinds.specs.Facts as spec;

use crate::sorts::{
    Sort, binary_sort, divides, has_kind, if_known, interval_sort, is_boolean, is_number,
    is_same_kind, is_small, join_both, negated_sort, truth_sort,
};
use smv_ast::Op;
use sqlite_items::at;

/// The facts of an expression.
#[derive(Clone, Copy, Debug, Drop)]
pub struct Facts {
    /// Its kind, and the interval of a number; none where a name in it is on a cycle.
    pub sort: Option<Sort>,
    /// Whether it may be used as a truth value.
    pub fits: bool,
    /// Whether no rule of kinds is broken in it.
    pub kinds: bool,
    /// Whether each interval in it is within the limit of magnitude.
    pub small: bool,
    /// Whether the rule of `mod` is kept in it.
    pub mods: bool,
}

/// An expression of this sort, given the facts of its parts.
fn node(sort: Option<Sort>, fits: bool, kinds: bool, small: bool, mods: bool) -> Facts
    ensures { result ≡ spec.node sort fits kinds small mods }
{
    Facts {
        sort,
        fits,
        kinds: kinds && has_kind(sort),
        small: small && is_small(sort),
        mods,
    }
}

/// `TRUE` or `FALSE`.
pub fn truth_facts() -> Facts
    ensures { result ≡ spec.truth_facts }
{
    node(Some(Sort::Boolean), true, true, true, true)
}

/// A numeral. `0` and `1` may be used as truth values.
pub fn number_facts(n: u32) -> Facts
    ensures { result ≡ spec.number_facts n }
{
    let number = i64::from(n);
    node(
        Some(interval_sort(number, number)),
        n <= 1,
        true,
        true,
        true,
    )
}

/// A name of this sort. A name whose value is 0 or 1 may not be used as a truth value.
pub fn name_facts(sort: Option<Sort>) -> Facts
    ensures { result ≡ spec.name_facts sort }
{
    node(sort, is_boolean(sort), true, true, true)
}

/// `-a`, for a number.
pub fn negation_facts(a: Facts) -> Facts
    ensures { result ≡ spec.negation_facts a }
{
    let kinds = a.kinds && is_number(a.sort);
    node(negated_sort(a.sort), false, kinds, a.small, a.mods)
}

/// `!a`, for a truth value.
pub fn not_facts(a: Facts) -> Facts
    ensures { result ≡ spec.not_facts a }
{
    let kinds = a.kinds && a.fits;
    node(truth_sort(a.sort), true, kinds, a.small, a.mods)
}

/// `next(a)`.
pub fn next_facts(a: Facts) -> Facts
    ensures { result ≡ spec.next_facts a }
{
    node(a.sort, is_boolean(a.sort), a.kinds, a.small, a.mods)
}

/// Whether an expression may be used as a value of this sort.
pub fn suits(sort: Option<Sort>, a: Facts) -> bool
    ensures { result ≡ spec.suits sort a }
{
    if is_boolean(sort) {
        return a.fits;
    }
    is_same_kind(sort, a.sort)
}

/// Whether `=` may compare two expressions.
fn agree(a: Facts, b: Facts) -> bool
    ensures { result ≡ spec.agree a b }
{
    suits(a.sort, b) || suits(b.sort, a)
}

/// Whether the operands of an operator keep its rule of kinds.
fn binary_rule(op: Op, a: Facts, b: Facts) -> bool
    ensures { result ≡ spec.binary_rule op a b }
{
    match op {
        Op::Eq | Op::Ne => agree(a, b),
        Op::And | Op::Or | Op::Xor | Op::Xnor | Op::Iff | Op::Implies => a.fits && b.fits,
        _ => is_number(a.sort) && is_number(b.sort),
    }
}

fn mod_rule(op: Op, a: Facts, b: Facts) -> bool
    ensures { result ≡ spec.mod_rule op a b }
{
    match op {
        Op::Mod => divides(a.sort, b.sort),
        _ => true,
    }
}

/// A binary operator with its operands.
pub fn binary_facts(op: Op, a: Facts, b: Facts) -> Facts
    ensures { result ≡ spec.binary_facts op a b }
{
    let sort = binary_sort(op, a.sort, b.sort);
    let kinds = a.kinds && b.kinds && binary_rule(op, a, b);
    let mods = a.mods && b.mods && mod_rule(op, a, b);
    node(sort, is_boolean(sort), kinds, a.small && b.small, mods)
}

/// The sort of one of these values.
fn parts_sort(parts: &[Facts]) -> Option<Sort>
    ensures { result ≡ spec.parts_sort parts.now }
{
    let mut sort = match at(parts, 0) {
        Some(first) => first.sort,
        None => Some(Sort::Nothing),
    };
    for part in parts {
        sort = join_both(sort, part.sort);
    }
    sort
}

fn all_fit(parts: &[Facts]) -> bool
    ensures { result ≡ spec.all_fit parts.now }
{
    parts.iter().all(|part| part.fits)
}

fn all_suit(sort: Option<Sort>, parts: &[Facts]) -> bool
    ensures { result ≡ spec.all_suit sort parts.now }
{
    parts.iter().all(|part| suits(sort, *part))
}

fn all_agree(a: Facts, parts: &[Facts]) -> bool
    ensures { result ≡ spec.all_agree a parts.now }
{
    parts.iter().all(|part| agree(a, *part))
}

fn all_kinds(parts: &[Facts]) -> bool
    ensures { result ≡ spec.all_kinds parts.now }
{
    parts.iter().all(|part| part.kinds)
}

fn all_small(parts: &[Facts]) -> bool
    ensures { result ≡ spec.all_small parts.now }
{
    parts.iter().all(|part| part.small)
}

fn all_mods(parts: &[Facts]) -> bool
    ensures { result ≡ spec.all_mods parts.now }
{
    parts.iter().all(|part| part.mods)
}

/// A set of these values.
pub fn parts_facts(parts: &[Facts]) -> Facts
    ensures { result ≡ spec.parts_facts parts.now }
{
    let sort = parts_sort(parts);
    let kinds = all_kinds(parts) && all_suit(sort, parts);
    let fits = is_boolean(sort) || all_fit(parts);
    node(sort, fits, kinds, all_small(parts), all_mods(parts))
}

/// The numbers from `low` up to `high`.
pub fn interval_facts(low: i64, high: i64) -> Facts
    ensures { result ≡ spec.interval_facts low high }
{
    node(Some(interval_sort(low, high)), false, true, true, true)
}

/// A case with these conditions, given the facts of its values.
pub fn case_facts(conditions: &[Facts], values: &[Facts]) -> Facts
    ensures { result ≡ spec.case_facts conditions.now values.now }
{
    let made = parts_facts(values);
    Facts {
        sort: if_known(parts_sort(conditions), made.sort),
        fits: made.fits,
        kinds: made.kinds && all_kinds(conditions) && all_fit(conditions),
        small: made.small && all_small(conditions),
        mods: made.mods && all_mods(conditions),
    }
}

/// Membership of a value in a set.
pub fn within_parts(a: Facts, parts: &[Facts]) -> Facts
    ensures { result ≡ spec.within_parts a parts.now }
{
    let set = parts_facts(parts);
    let kinds = a.kinds && set.kinds && all_agree(a, parts);
    let small = a.small && set.small;
    let sort = if_known(a.sort, truth_sort(set.sort));
    node(sort, true, kinds, small, a.mods && set.mods)
}

/// Membership of a value in the numbers from `low` up to `high`.
pub fn within_interval(a: Facts, low: i64, high: i64) -> Facts
    ensures { result ≡ spec.within_interval a low high }
{
    let kinds = a.kinds && is_number(a.sort);
    let small = a.small && is_small(Some(interval_sort(low, high)));
    node(truth_sort(a.sort), true, kinds, small, a.mods)
}
