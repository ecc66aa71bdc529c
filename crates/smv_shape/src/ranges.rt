//! Empty intervals.

ghost use Rattle.std.specs.Prelude.{◌≡◌, map};
ghost use Rattle.std.specs.List.{list_any};
ghost use Rattle.smv_shape.specs.Ranges as spec;

use smv_ast::{Branch, Choice, Expr, SmvType};

/// Whether `low..high` is empty.
fn is_empty(low: i64, high: i64) -> bool
    ensures { result ≡ spec.is_empty low high }
{
    high < low
}

/// Whether the type is an empty interval.
pub fn is_empty_type(type_: &SmvType) -> bool
    ensures { result ≡ spec.empty_type type_.now }
{
    match type_ {
        SmvType::Range { low, high } => is_empty(*low, *high),
        _ => false,
    }
}

#[cycle(ranges)]
fn any_part(parts: &[Expr]) -> bool
    ensures { result ≡ list_any (λ part. part) (map spec.has_empty parts.now) }
{
    for part in parts {
        if has_empty(part) {
            return true;
        }
    }
    false
}

#[cycle(ranges)]
fn any_branch(branches: &[Branch]) -> bool
    ensures { result ≡ list_any (λ branch. branch) (map spec.branch_has_empty branches.now) }
{
    for branch in branches {
        if has_empty(&branch.cond) || has_empty(&branch.value) {
            return true;
        }
    }
    false
}

#[cycle(ranges)]
fn choice_has_empty(choice: &Choice) -> bool
    ensures { result ≡ spec.choice_has_empty choice.now }
{
    match choice {
        Choice::Each(parts) => any_part(parts.as_slice()),
        Choice::Between { low, high } => is_empty(*low, *high),
    }
}

/// Whether the expression contains an empty interval.
#[cycle(ranges)]
pub fn has_empty(e: &Expr) -> bool
    ensures { result ≡ spec.has_empty e.now }
{
    match e {
        Expr::True | Expr::False | Expr::Number(_) | Expr::Name(_) => false,
        Expr::Neg(a) | Expr::Not(a) | Expr::Next(a) => has_empty(a.get()),
        Expr::Binary(_, a, b) => has_empty(a.get()) || has_empty(b.get()),
        Expr::Within(a, choice) => has_empty(a.get()) || choice_has_empty(choice),
        Expr::Cases(branches) => any_branch(branches.as_slice()),
        Expr::Pick(choice) => choice_has_empty(choice),
    }
}
