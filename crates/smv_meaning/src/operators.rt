//! Operators on values. An operator that is not defined on values of these kinds has no result.

ghost use Rattle.std.specs.Prelude.{◌≡◌, ◌+ℤ◌, ◌-ℤ◌, ◌*ℤ◌, neg_ℤ};
ghost use Rattle.smv_meaning.specs.Value as spec;

use crate::value::Value;
use smv_ast::Op;

/// The truth value of a value; 0 and 1 are read as FALSE and TRUE.
pub fn truth(value: &Value) -> Option<bool>
    ensures { result ≡ spec.truth value.now }
{
    match value {
        Value::Boolean(truth) => Some(*truth),
        Value::Number(0) => Some(false),
        Value::Number(1) => Some(true),
        _ => None,
    }
}

fn is_truth(expected: bool, found: Option<bool>) -> bool
    ensures { result ≡ spec.is_truth expected found }
{
    match found {
        Some(truth) => truth == expected,
        None => false,
    }
}

/// Whether two values are equal. Compared with a truth value, 0 and 1 are truth values.
pub fn same(a: &Value, b: &Value) -> bool
    ensures { result ≡ spec.same a.now b.now }
{
    match (a, b) {
        (Value::Boolean(truth_of_a), _) => is_truth(*truth_of_a, truth(b)),
        (Value::Number(m), Value::Number(n)) => *m <= *n && *n <= *m,
        (Value::Symbol(m), Value::Symbol(n)) => m.as_str() == n.as_str(),
        (_, Value::Boolean(truth_of_b)) => is_truth(*truth_of_b, truth(a)),
        _ => false,
    }
}

/// Whether the value is one of the numbers from `low` up to `high`.
pub fn in_range(low: i64, high: i64, value: &Value) -> bool
    ensures { result ≡ spec.in_range low high value.now }
{
    match value {
        Value::Number(n) => low <= *n && *n <= high,
        _ => false,
    }
}

fn sum(m: i64, n: i64) -> Option<Value>
    ensures { result ≡ spec.whole (m +ℤ n) }
{
    match m.checked_add(n) {
        Some(sum) => Some(Value::Number(sum)),
        None => None,
    }
}

fn difference(m: i64, n: i64) -> Option<Value>
    ensures { result ≡ spec.whole (m -ℤ n) }
{
    match m.checked_sub(n) {
        Some(difference) => Some(Value::Number(difference)),
        None => None,
    }
}

fn product(m: i64, n: i64) -> Option<Value>
    ensures { result ≡ spec.whole (m *ℤ n) }
{
    match m.checked_mul(n) {
        Some(product) => Some(Value::Number(product)),
        None => None,
    }
}

fn opposite(n: i64) -> Option<Value>
    ensures { result ≡ spec.whole (neg_ℤ n) }
{
    match n.checked_neg() {
        Some(opposite) => Some(Value::Number(opposite)),
        None => None,
    }
}

fn remainder(m: i64, n: i64) -> Option<Value>
    ensures { result ≡ spec.remainder m n }
{
    if m < 0 || n <= 0 {
        return None;
    }
    Some(Value::Number(m % n))
}

/// The result of an operator on two numbers; none for any other operator.
fn of_numbers(op: Op, m: i64, n: i64) -> Option<Value>
    ensures { result ≡ spec.of_numbers op m n }
{
    match op {
        Op::Add => sum(m, n),
        Op::Sub => difference(m, n),
        Op::Mul => product(m, n),
        Op::Mod => remainder(m, n),
        Op::Lt => Some(Value::Boolean(m < n)),
        Op::Gt => Some(Value::Boolean(n < m)),
        Op::Le => Some(Value::Boolean(m <= n)),
        Op::Ge => Some(Value::Boolean(n <= m)),
        _ => None,
    }
}

/// The result of an operator on two truth values; none for any other operator.
fn of_truths(op: Op, a: bool, b: bool) -> Option<Value>
    ensures { result ≡ spec.of_truths op a b }
{
    let made = match op {
        Op::And => a && b,
        Op::Or => a || b,
        Op::Xor => a != b,
        Op::Xnor | Op::Iff => a == b,
        Op::Implies => !a || b,
        _ => return None,
    };
    Some(Value::Boolean(made))
}

/// The result of an operator on two values.
pub fn operate(op: Op, a: &Value, b: &Value) -> Option<Value>
    ensures { result ≡ spec.operate op a.now b.now }
{
    match op {
        Op::Eq => Some(Value::Boolean(same(a, b))),
        Op::Ne => Some(Value::Boolean(!same(a, b))),
        Op::And | Op::Or | Op::Xor | Op::Xnor | Op::Iff | Op::Implies => {
            match (truth(a), truth(b)) {
                (Some(truth_of_a), Some(truth_of_b)) => of_truths(op, truth_of_a, truth_of_b),
                _ => None,
            }
        }
        _ => match (a, b) {
            (Value::Number(m), Value::Number(n)) => of_numbers(op, *m, *n),
            _ => None,
        },
    }
}

/// The number with the opposite sign.
pub fn negated(value: &Value) -> Option<Value>
    ensures { result ≡ spec.negated value.now }
{
    match value {
        Value::Number(n) => opposite(*n),
        _ => None,
    }
}

/// The opposite truth value.
pub fn logical_not(value: &Value) -> Option<Value>
    ensures { result ≡ spec.logical_not value.now }
{
    match truth(value) {
        Some(truth) => Some(Value::Boolean(!truth)),
        None => None,
    }
}
