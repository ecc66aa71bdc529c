//! Misplaced `next`.

ghost use Rattle.std.specs.Prelude.{◌≡◌, map};
ghost use Rattle.std.specs.List.{list_any};
ghost use Rattle.smv_shape.specs.Nexts as spec;

use smv_ast::{Branch, Choice, Expr};

#[cycle(nexts)]
fn any_part(parts: &[Expr], allowed: bool) -> bool
    ensures { result ≡ list_any (λ part. part allowed) (map spec.has_stray_next parts.now) }
{
    for part in parts {
        if has_stray_next(part, allowed) {
            return true;
        }
    }
    false
}

#[cycle(nexts)]
fn any_branch(branches: &[Branch], allowed: bool) -> bool
    ensures { result ≡ list_any (λ branch. branch allowed)
        (map spec.branch_has_stray branches.now) }
{
    for branch in branches {
        if has_stray_next(&branch.cond, allowed) || has_stray_next(&branch.value, allowed) {
            return true;
        }
    }
    false
}

#[cycle(nexts)]
fn choice_has_stray(choice: &Choice, allowed: bool) -> bool
    ensures { result ≡ spec.choice_has_stray choice.now allowed }
{
    match choice {
        Choice::Each(parts) => any_part(parts.as_slice(), allowed),
        Choice::Between { .. } => false,
    }
}

/// Whether the expression has a misplaced `next`; `allowed` where it may contain `next`.
#[cycle(nexts)]
pub fn has_stray_next(e: &Expr, allowed: bool) -> bool
    ensures { result ≡ spec.has_stray_next e.now allowed }
{
    match e {
        Expr::True | Expr::False | Expr::Number(_) | Expr::Name(_) => false,
        Expr::Neg(a) | Expr::Not(a) => has_stray_next(a.get(), allowed),
        Expr::Binary(_, a, b) => {
            has_stray_next(a.get(), allowed) || has_stray_next(b.get(), allowed)
        }
        Expr::Within(a, choice) => {
            has_stray_next(a.get(), allowed) || choice_has_stray(choice, allowed)
        }
        Expr::Cases(branches) => any_branch(branches.as_slice(), allowed),
        Expr::Next(a) => !allowed || has_stray_next(a.get(), false),
        Expr::Pick(choice) => choice_has_stray(choice, allowed),
    }
}
