//! The values of expressions, over any environment.

ghost use Rattle.std.specs.Prelude.{◌≡◌, IfOk, map};
ghost use Rattle.smv_meaning.specs.Value.{and_then, truth as truth_of};
ghost use Rattle.smv_meaning.specs.Denotations as spec;

use crate::operators::{in_range, logical_not, negated, operate, same, truth};
use crate::value::Value;
use smv_ast::{Boxed, Branch, Choice, Expr, NoMemory, Path};
use std::alloc::Global;

/// An environment: the values of paths.
pub trait Environment {
    ghost use Rattle.std.specs.Prelude.{◌≡◌, IfOk};
    ghost use Rattle.smv_meaning.specs.Denotations.{Environment};

    ghost reads: { Self → Environment };

    /// The value of a path, if it has one. The only error is `NoMemory`.
    fn read(&self, alloc: Global, path: &Path) -> Result<Option<Value>, NoMemory>
        ensures { IfOk result (λ v. v ≡ reads self.now path.now.names) };
}

/// The value of an expression; `after` is the environment of the names under `next`.
#[cycle(evaluation)]
pub fn value<E: Environment>(
    alloc: Global,
    now: &E,
    after: &E,
    e: &Expr,
) -> Result<Option<Value>, NoMemory>
    ensures { IfOk result (λ v. v
        ≡ (spec.denotation_of e.now).value (E.reads now.now) (E.reads after.now)) }
{
    match e {
        Expr::True => Ok(Some(Value::Boolean(true))),
        Expr::False => Ok(Some(Value::Boolean(false))),
        Expr::Number(n) => Ok(Some(Value::Number(i64::from(*n)))),
        Expr::Name(path) => now.read(alloc, path),
        Expr::Neg(a) => match boxed_value(alloc, now, after, a)? {
            Some(v) => Ok(negated(&v)),
            None => Ok(None),
        },
        Expr::Not(a) => match boxed_value(alloc, now, after, a)? {
            Some(v) => Ok(logical_not(&v)),
            None => Ok(None),
        },
        Expr::Binary(op, a, b) => {
            let left = boxed_value(alloc, now, after, a)?;
            let right = boxed_value(alloc, now, after, b)?;
            match (left, right) {
                (Some(v), Some(w)) => Ok(operate(*op, &v, &w)),
                _ => Ok(None),
            }
        }
        Expr::Within(a, choice) => match boxed_value(alloc, now, after, a)? {
            Some(v) => match choice_allows(alloc, now, after, choice, &v)? {
                Some(within) => Ok(Some(Value::Boolean(within))),
                None => Ok(None),
            },
            None => Ok(None),
        },
        Expr::Cases(branches) => case_value(alloc, now, after, branches.as_slice()),
        Expr::Next(a) => boxed_value(alloc, after, after, a),
        Expr::Pick(_) => Ok(None),
    }
}

#[cycle(evaluation)]
fn boxed_value<E: Environment>(
    alloc: Global,
    now: &E,
    after: &E,
    e: &Boxed<Expr>,
) -> Result<Option<Value>, NoMemory>
    ensures { IfOk result (λ v. v
        ≡ (spec.denotation_of e.now).value (E.reads now.now) (E.reads after.now)) }
{
    value(alloc, now, after, e.get())
}

/// Whether a condition is true.
#[cycle(evaluation)]
fn holds<E: Environment>(
    alloc: Global,
    now: &E,
    after: &E,
    cond: &Expr,
) -> Result<Option<bool>, NoMemory>
    ensures { IfOk result (λ b. b
        ≡ and_then ((spec.denotation_of cond.now).value (E.reads now.now) (E.reads after.now))
        truth_of) }
{
    match value(alloc, now, after, cond)? {
        Some(v) => Ok(truth(&v)),
        None => Ok(None),
    }
}

#[cycle(evaluation)]
fn case_value<E: Environment>(
    alloc: Global,
    now: &E,
    after: &E,
    branches: &[Branch],
) -> Result<Option<Value>, NoMemory>
    ensures { IfOk result (λ v. v
        ≡ spec.case_value (E.reads now.now) (E.reads after.now)
        (map spec.branch_denotation_of branches.now)) }
{
    let mut left = branches.len();
    for branch in branches {
        left -= 1;
        if left == 0 {
            return value(alloc, now, after, &branch.value);
        }
        match holds(alloc, now, after, &branch.cond)? {
            None => return Ok(None),
            Some(true) => return value(alloc, now, after, &branch.value),
            Some(false) => {}
        }
    }
    Ok(None)
}

/// Whether the choice has this value among its own; none where a name of it has no value.
#[cycle(evaluation)]
fn choice_allows<E: Environment>(
    alloc: Global,
    now: &E,
    after: &E,
    choice: &Choice,
    v: &Value,
) -> Result<Option<bool>, NoMemory>
    ensures { IfOk result (λ b. b
        ≡ spec.choice_allows choice.now (E.reads now.now) (E.reads after.now) v.now) }
{
    match choice {
        Choice::Each(parts) => parts_allow(alloc, now, after, parts.as_slice(), v),
        Choice::Between { low, high } => Ok(Some(in_range(*low, *high, v))),
    }
}

#[cycle(evaluation)]
fn parts_allow<E: Environment>(
    alloc: Global,
    now: &E,
    after: &E,
    parts: &[Expr],
    v: &Value,
) -> Result<Option<bool>, NoMemory>
    ensures { IfOk result (λ b. b
        ≡ spec.parts_allow (E.reads now.now) (E.reads after.now) v.now
        (map spec.denotation_of parts.now)) }
{
    let mut found = false;
    for part in parts {
        let Some(allowed) = allows(alloc, now, after, part, v)? else {
            return Ok(None);
        };
        found = found || allowed;
    }
    Ok(Some(found))
}

/// Whether an expression allows this value as a right side; none where a name of it has no value.
#[cycle(evaluation)]
pub fn allows<E: Environment>(
    alloc: Global,
    now: &E,
    after: &E,
    e: &Expr,
    v: &Value,
) -> Result<Option<bool>, NoMemory>
    ensures { IfOk result (λ b. b
        ≡ (spec.denotation_of e.now).allows (E.reads now.now) (E.reads after.now) v.now) }
{
    match e {
        Expr::Pick(choice) => choice_allows(alloc, now, after, choice, v),
        Expr::Cases(branches) => case_allows(alloc, now, after, branches.as_slice(), v),
        _ => match value(alloc, now, after, e)? {
            Some(w) => Ok(Some(same(v, &w))),
            None => Ok(None),
        },
    }
}

#[cycle(evaluation)]
fn case_allows<E: Environment>(
    alloc: Global,
    now: &E,
    after: &E,
    branches: &[Branch],
    v: &Value,
) -> Result<Option<bool>, NoMemory>
    ensures { IfOk result (λ b. b
        ≡ spec.case_allows (E.reads now.now) (E.reads after.now)
        (map spec.branch_denotation_of branches.now) v.now) }
{
    let mut left = branches.len();
    for branch in branches {
        left -= 1;
        if left == 0 {
            return allows(alloc, now, after, &branch.value, v);
        }
        match holds(alloc, now, after, &branch.cond)? {
            None => return Ok(None),
            Some(true) => return allows(alloc, now, after, &branch.value, v),
            Some(false) => {}
        }
    }
    Ok(None)
}
