//! Intervals of the values of nodes.

ghost use Rattle.std.specs.Prelude.{◌≡◌, ◌<◌, All, length, slice_get};
ghost use Rattle.std.specs.List.{AllByRecursion, fold};
ghost use Rattle.std.specs.Int.{int_min, int_max};
ghost use Rattle.flat_model.specs.Numbers.{IsWithinLimit};
ghost use Rattle.flat_model.specs.Variables.{IsSoundVariable};
ghost use Rattle.flat_model.specs.Nodes.{operands, variable_of};
ghost use Rattle.flat_model.specs.Intervals as spec;
ghost use Rattle.flat_model.specs.Soundness.{IsSound};

use crate::arithmetic::{add, multiply, subtract};
use crate::model::Flat;
use crate::nodes::FlatNode;
use crate::variables::{FlatVar, Values};

/// The numbers from `low` up to `high`, both counted.
#[derive(Clone, Copy, Debug, PartialEq, Eq)]
pub struct Interval {
    pub low: i64,
    pub high: i64,
}

/// The interval of truth values.
const TRUTHS: Interval = Interval { low: 0, high: 1 };

fn smaller(a: i64, b: i64) -> i64
    ensures { result ≡ int_min a b }
{
    if b < a { b } else { a }
}

fn greater(a: i64, b: i64) -> i64
    ensures { result ≡ int_max a b }
{
    if b < a { a } else { b }
}

fn alone(number: i64) -> Interval
    ensures { result ≡ spec.alone number }
{
    Interval {
        low: number,
        high: number,
    }
}

fn hull(a: Interval, b: Interval) -> Interval
    ensures { result ≡ spec.hull a b }
{
    Interval {
        low: smaller(a.low, b.low),
        high: greater(a.high, b.high),
    }
}

fn sum(a: Interval, b: Interval) -> Interval
    requires left { spec.IsWithinLimits a }
    requires right { spec.IsWithinLimits b }
    ensures { result ≡ spec.sum a b }
{
    Interval {
        low: add(a.low, b.low),
        high: add(a.high, b.high),
    }
}

fn difference(a: Interval, b: Interval) -> Interval
    requires left { spec.IsWithinLimits a }
    requires right { spec.IsWithinLimits b }
    ensures { result ≡ spec.difference a b }
{
    Interval {
        low: subtract(a.low, b.high),
        high: subtract(a.high, b.low),
    }
}

/// The interval of the multiples of an interval's numbers by one number.
fn multiples(factor: i64, of: Interval) -> Interval
    requires factor { IsWithinLimit factor }
    requires numbers { spec.IsWithinLimits of }
    ensures { result ≡ spec.multiples factor of }
{
    hull(
        alone(multiply(factor, of.low)),
        alone(multiply(factor, of.high)),
    )
}

fn product(a: Interval, b: Interval) -> Interval
    requires left { spec.IsWithinLimits a }
    requires right { spec.IsWithinLimits b }
    ensures { result ≡ spec.product a b }
{
    hull(multiples(a.low, b), multiples(a.high, b))
}

fn remainder(divisor: Interval) -> Interval
    requires { spec.IsWithinLimits divisor }
    ensures { result ≡ spec.remainder divisor }
{
    Interval {
        low: 0,
        high: divisor.high - 1,
    }
}

/// The least interval that holds an interval and these numbers.
fn hull_with(first: Interval, numbers: &[i64]) -> Interval
    ensures { result ≡ fold (λ held n. spec.hull held (spec.alone n)) first numbers.now }
{
    let mut held = first;
    for number in numbers {
        held = hull(held, alone(*number));
    }
    held
}

/// The least interval that holds these numbers.
fn holding(numbers: &[i64]) -> Interval
    ensures { result ≡ spec.holding numbers.now }
{
    match numbers {
        [] => alone(0),
        [first, more @ ..] => hull_with(alone(*first), more),
    }
}

/// The interval of a variable's numbers.
fn of_variable(var: &FlatVar) -> Interval
    requires { IsSoundVariable var.now }
    ensures { result ≡ spec.of_values var.now.values var.now.count }
{
    match &var.values {
        Values::Boolean => TRUTHS,
        Values::Range { low } => Interval {
            low: *low,
            high: *low + i64::from(var.count - 1),
        },
        Values::Table(numbers) => holding(numbers.as_slice()),
    }
}

/// The interval of the variable of this number.
fn of_number(vars: &[FlatVar], v: u32) -> Interval
    requires sound { All IsSoundVariable vars.now }
    requires there { v < length vars.now }
    ensures { result ≡ spec.of_variable (slice_get vars.now v) }
{
    of_variable(&vars[v as usize])
}

/// The interval of an operand.
fn operand(before: &[Interval], a: u32) -> Interval
    requires before { a < length before.now }
    requires limited { All spec.IsWithinLimits before.now }
    ensures value { result ≡ spec.interval_at before.now a }
    ensures limited { spec.IsWithinLimits result }
{
    before[a as usize]
}

/// The interval of a node from those of the nodes before it.
fn node_interval(vars: &[FlatVar], before: &[Interval], node: FlatNode) -> Interval
    requires sound { All IsSoundVariable vars.now }
    requires variable { AllByRecursion (λ v. v < length vars.now) (variable_of node) }
    requires operands { AllByRecursion (λ a. a < length before.now) (operands node) }
    requires limited { All spec.IsWithinLimits before.now }
    ensures { result ≡ spec.node_interval vars.now before.now node }
{
    match node {
        FlatNode::Const(number) => alone(number),
        FlatNode::Now(v) | FlatNode::After(v) => of_number(vars, v),
        FlatNode::Add(a, b) => sum(operand(before, a), operand(before, b)),
        FlatNode::Sub(a, b) => difference(operand(before, a), operand(before, b)),
        FlatNode::Mul(a, b) => product(operand(before, a), operand(before, b)),
        FlatNode::Mod(_, b) => remainder(operand(before, b)),
        FlatNode::Choose(_, a, b) => hull(operand(before, a), operand(before, b)),
        _ => TRUTHS,
    }
}

/// Leaves in each cell of `into` the interval of the node of its number, by interval arithmetic from the
/// numbers of the variables and constants. Takes no memory.
pub fn fill_intervals(flat: &Flat, into: &mut [Interval])
    requires sound { IsSound flat.now }
    requires a_cell_each { length into.old ≡ length flat.now.nodes }
    ensures { into.new ≡ spec.intervals flat.now.vars flat.now.nodes }
{
    let vars = flat.vars.as_slice();
    for (i, node) in flat.nodes.as_slice().iter().enumerate() {
        let (done, remaining) = into.split_at_mut(i);
        remaining[0] = node_interval(vars, done, *node);
    }
}
