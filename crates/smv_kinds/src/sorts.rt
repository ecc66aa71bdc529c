//! The sort of a value: its kind, and the interval of a number.

ghost use Rattle.std.specs.Prelude.{◌≡◌};
ghost use Rattle.smv_kinds.specs.Sorts as spec;

use crate::intervals::{
    Interval, between, difference, holding, hull, is_narrow, opposite, product, remainder, sum,
};
use smv_ast::{Op, SmvType};

/// The kind of an expression, and the interval of a number.
#[derive(Clone, Copy, Debug, Drop)]
pub enum Sort {
    Boolean,
    Number(Interval),
    Symbol,
    /// A definition of an instance, or a name that is defined as one. No rule of kinds accepts it;
    /// the definition whose own right side is a path to the instance is at fault.
    Alias,
    /// No kind: an instance, or a formal without an actual.
    Nothing,
}

/// Whether the kind is Boolean.
pub fn is_boolean(sort: Option<Sort>) -> bool
    ensures { result ≡ spec.is_boolean sort }
{
    match sort {
        Some(Sort::Boolean) => true,
        _ => false,
    }
}

/// Whether the kind is Number.
pub fn is_number(sort: Option<Sort>) -> bool
    ensures { result ≡ spec.is_number sort }
{
    match sort {
        Some(Sort::Number(_)) => true,
        _ => false,
    }
}

/// Whether the sort has a kind. An alias of an instance has one of its own.
pub fn has_kind(sort: Option<Sort>) -> bool
    ensures { result ≡ spec.has_kind sort }
{
    match sort {
        Some(Sort::Nothing) | None => false,
        Some(_) => true,
    }
}

/// Whether the interval of a number is within the limit; true of any other sort.
pub fn is_small(sort: Option<Sort>) -> bool
    ensures { result ≡ spec.is_small sort }
{
    match sort {
        Some(Sort::Number(interval)) => is_narrow(interval),
        _ => true,
    }
}

/// Whether both have the same kind.
pub fn is_same_kind(a: Option<Sort>, b: Option<Sort>) -> bool
    ensures { result ≡ spec.is_same_kind a b }
{
    match (a, b) {
        (Some(Sort::Boolean), Some(Sort::Boolean)) => true,
        (Some(Sort::Number(_)), Some(Sort::Number(_))) => true,
        (Some(Sort::Symbol), Some(Sort::Symbol)) => true,
        _ => false,
    }
}

/// The interval of a number; that of 0 for any other sort.
fn interval_of(sort: Sort) -> Interval
    ensures { result ≡ spec.interval_of sort }
{
    match sort {
        Sort::Number(interval) => interval,
        _ => between(0, 0),
    }
}

/// The sort of one of two values.
fn join(a: Sort, b: Sort) -> Sort
    ensures { result ≡ spec.join a b }
{
    match (a, b) {
        (Sort::Boolean, _) | (_, Sort::Boolean) => Sort::Boolean,
        (Sort::Number(a), Sort::Number(b)) => Sort::Number(hull(a, b)),
        _ => a,
    }
}

/// The sort of one of two values, if both sorts are known.
pub fn join_both(a: Option<Sort>, b: Option<Sort>) -> Option<Sort>
    ensures { result ≡ spec.join_both a b }
{
    match (a, b) {
        (Some(a), Some(b)) => Some(join(a, b)),
        _ => None,
    }
}

/// The result sort of an operator.
fn result_sort(op: Op, a: Sort, b: Sort) -> Sort
    ensures { result ≡ spec.result_sort op a b }
{
    match op {
        Op::Add => Sort::Number(sum(interval_of(a), interval_of(b))),
        Op::Sub => Sort::Number(difference(interval_of(a), interval_of(b))),
        Op::Mul => Sort::Number(product(interval_of(a), interval_of(b))),
        Op::Mod => Sort::Number(remainder(interval_of(b))),
        _ => Sort::Boolean,
    }
}

/// The result sort of an operator, if both sorts are known.
pub fn binary_sort(op: Op, a: Option<Sort>, b: Option<Sort>) -> Option<Sort>
    ensures { result ≡ spec.binary_sort op a b }
{
    match (a, b) {
        (Some(a), Some(b)) => Some(result_sort(op, a, b)),
        _ => None,
    }
}

/// Boolean, if the sort is known.
pub fn truth_sort(sort: Option<Sort>) -> Option<Sort>
    ensures { result ≡ spec.truth_sort sort }
{
    match sort {
        Some(_) => Some(Sort::Boolean),
        None => None,
    }
}

/// The second sort, if both are known.
pub fn if_known(other: Option<Sort>, made: Option<Sort>) -> Option<Sort>
    ensures { result ≡ spec.if_known other made }
{
    match other {
        Some(_) => made,
        None => None,
    }
}

fn negated(sort: Sort) -> Sort
    ensures { result ≡ spec.negated sort }
{
    Sort::Number(opposite(interval_of(sort)))
}

/// The sort of a number with the opposite sign.
pub fn negated_sort(sort: Option<Sort>) -> Option<Sort>
    ensures { result ≡ spec.negated_sort sort }
{
    match sort {
        Some(sort) => Some(negated(sort)),
        None => None,
    }
}

/// The sort of the numbers from `low` up to `high`.
pub fn interval_sort(low: i64, high: i64) -> Sort
    ensures { result ≡ spec.interval_sort low high }
{
    Sort::Number(between(low, high))
}

/// The sort of a definition with a right side of this sort.
pub fn defined_sort(sort: Option<Sort>) -> Option<Sort>
    ensures { result ≡ spec.defined_sort sort }
{
    match sort {
        Some(Sort::Nothing) => Some(Sort::Alias),
        _ => sort,
    }
}

/// The sort of the values of a type.
pub fn type_sort(type_: &SmvType) -> Sort
    ensures { result ≡ spec.type_sort type_.now }
{
    match type_ {
        SmvType::Boolean => Sort::Boolean,
        SmvType::Range { low, high } => interval_sort(*low, *high),
        SmvType::Numbers(numbers) => Sort::Number(holding(numbers.as_slice())),
        SmvType::Symbols(_) => Sort::Symbol,
    }
}

/// Whether the dividend is never below 0 and the divisor always above it.
pub fn divides(dividend: Option<Sort>, divisor: Option<Sort>) -> bool
    ensures { result ≡ spec.divides dividend divisor }
{
    match (dividend, divisor) {
        (Some(Sort::Number(a)), Some(Sort::Number(b))) => 0 <= a.low && 0 < b.low,
        _ => false,
    }
}
