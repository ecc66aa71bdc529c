//! Misplaced free choices.

ghost use Rattle.std.specs.Prelude.{◌≡◌, false, map};
ghost use Rattle.std.specs.List.{list_any};
ghost use Rattle.smv_shape.specs.Choices as spec;

use smv_ast::{Branch, Choice, Expr};

#[cycle(choices)]
fn any_part(parts: &[Expr]) -> bool
    ensures { result ≡ list_any (λ part. part false) (map spec.has_stray_choice parts.now) }
{
    for part in parts {
        if has_stray_choice(part, false) {
            return true;
        }
    }
    false
}

#[cycle(choices)]
fn any_branch(branches: &[Branch], allowed: bool) -> bool
    ensures { result ≡ list_any (λ branch. branch allowed)
        (map spec.branch_has_stray branches.now) }
{
    for branch in branches {
        if has_stray_choice(&branch.cond, false) || has_stray_choice(&branch.value, allowed) {
            return true;
        }
    }
    false
}

#[cycle(choices)]
fn choice_has_stray(choice: &Choice) -> bool
    ensures { result ≡ spec.choice_has_stray choice.now }
{
    match choice {
        Choice::Each(parts) => any_part(parts.as_slice()),
        Choice::Between { .. } => false,
    }
}

/// Whether the expression has a misplaced free choice; `allowed` where it may be one itself.
#[cycle(choices)]
pub fn has_stray_choice(e: &Expr, allowed: bool) -> bool
    ensures { result ≡ spec.has_stray_choice e.now allowed }
{
    match e {
        Expr::True | Expr::False | Expr::Number(_) | Expr::Name(_) => false,
        Expr::Neg(a) | Expr::Not(a) | Expr::Next(a) => has_stray_choice(a.get(), false),
        Expr::Binary(_, a, b) => {
            has_stray_choice(a.get(), false) || has_stray_choice(b.get(), false)
        }
        Expr::Within(a, choice) => has_stray_choice(a.get(), false) || choice_has_stray(choice),
        Expr::Cases(branches) => any_branch(branches.as_slice(), allowed),
        Expr::Pick(choice) => !allowed || choice_has_stray(choice),
    }
}
