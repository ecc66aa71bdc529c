//! The values of nodes.

ghost use Rattle.std.specs.Prelude.{◌≡◌, ◌<◌, All, length};
ghost use Rattle.std.specs.List.{AllByRecursion};
ghost use Rattle.flat_model.specs.Numbers.{IsWithinLimit};
ghost use Rattle.flat_model.specs.Variables.{IsSoundVariable, ArePositions, number_at, number_in};
ghost use Rattle.flat_model.specs.Nodes.{operands, variable_of};
ghost use Rattle.flat_model.specs.Evaluation.{node_value, value_at, values_at, truth_at, CanDivide};
ghost use Rattle.flat_model.specs.Soundness.{IsSound};

use crate::arithmetic::{add, multiply, subtract};
use crate::model::Flat;
use crate::nodes::FlatNode;
use crate::variables::{FlatVar, Values};

/// The number of a variable at a position.
fn number_at_position(var: &FlatVar, position: u32) -> i64
    requires sound { IsSoundVariable var.now }
    requires within { position < var.now.count }
    ensures { result ≡ number_at var.now.values position }
{
    match &var.values {
        Values::Boolean => i64::from(position),
        Values::Range { low } => *low + i64::from(position),
        Values::Table(numbers) => numbers.as_slice()[position as usize],
    }
}

/// The number of variable `v` where the variables stand at these positions.
fn number_of_variable(vars: &[FlatVar], positions: &[u32], v: u32) -> i64
    requires sound { All IsSoundVariable vars.now }
    requires positions { ArePositions vars.now positions.now }
    requires there { v < length vars.now }
    ensures { result ≡ number_in vars.now positions.now v }
{
    number_at_position(&vars[v as usize], positions[v as usize])
}

/// The value of an operand.
fn operand(values: &[i64], a: u32) -> i64
    requires before { a < length values.now }
    requires limited { All IsWithinLimit values.now }
    ensures value { result ≡ value_at values.now a }
    ensures limited { IsWithinLimit result }
{
    values[a as usize]
}

/// The truth value of an operand.
fn truth(values: &[i64], a: u32) -> bool
    requires before { a < length values.now }
    requires limited { All IsWithinLimit values.now }
    ensures { result ≡ truth_at values.now a }
{
    operand(values, a) == 1
}

/// The value of a node from those of the nodes before it.
fn value_of(vars: &[FlatVar], now: &[u32], after: &[u32], values: &[i64], node: FlatNode) -> i64
    requires sound { All IsSoundVariable vars.now }
    requires now_within { ArePositions vars.now now.now }
    requires after_within { ArePositions vars.now after.now }
    requires variable { AllByRecursion (λ v. v < length vars.now) (variable_of node) }
    requires before { AllByRecursion (λ a. a < length values.now) (operands node) }
    requires limited { All IsWithinLimit values.now }
    requires divides { CanDivide values.now node }
    ensures { let current = number_in vars.now now.now in
        let next = number_in vars.now after.now in
        result ≡ node_value current next values.now node }
{
    match node {
        FlatNode::Const(number) => number,
        FlatNode::Now(v) => number_of_variable(vars, now, v),
        FlatNode::After(v) => number_of_variable(vars, after, v),
        FlatNode::Not(a) => i64::from(!truth(values, a)),
        FlatNode::And(a, b) => i64::from(truth(values, a) && truth(values, b)),
        FlatNode::Or(a, b) => i64::from(truth(values, a) || truth(values, b)),
        FlatNode::Xor(a, b) => i64::from(truth(values, a) != truth(values, b)),
        FlatNode::Eq(a, b) => i64::from(operand(values, a) == operand(values, b)),
        FlatNode::Lt(a, b) => i64::from(operand(values, a) < operand(values, b)),
        FlatNode::Le(a, b) => i64::from(operand(values, a) <= operand(values, b)),
        FlatNode::Add(a, b) => add(operand(values, a), operand(values, b)),
        FlatNode::Sub(a, b) => subtract(operand(values, a), operand(values, b)),
        FlatNode::Mul(a, b) => multiply(operand(values, a), operand(values, b)),
        FlatNode::Mod(a, b) => operand(values, a) % operand(values, b),
        FlatNode::Choose(c, a, b) => operand(values, if truth(values, c) { a } else { b }),
    }
}

/// Leaves in each cell of `into` the value of the node of its number, where the variables stand at the
/// positions `now` in the current state and `after` in the next one. A variable's position is the
/// index of its value in the list of its values. The features come first, as their variables do.
/// Takes no memory.
pub fn fill_values(flat: &Flat, now: &[u32], after: &[u32], into: &mut [i64])
    requires sound { IsSound flat.now }
    requires now_within { ArePositions flat.now.vars now.now }
    requires after_within { ArePositions flat.now.vars after.now }
    requires a_cell_each { length into.old ≡ length flat.now.nodes }
    ensures { into.new ≡ values_at flat.now.vars flat.now.nodes now.now after.now }
{
    let vars = flat.vars.as_slice();
    for (i, node) in flat.nodes.as_slice().iter().enumerate() {
        let (done, remaining) = into.split_at_mut(i);
        remaining[0] = value_of(vars, now, after, done, *node);
    }
}
