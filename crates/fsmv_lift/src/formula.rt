//! Constraints on features, over the features' variables of a lift.

ghost use Rattle.std.specs.Prelude.{◌≡◌, ◌∷◌, IfOk, map};
ghost use Rattle.fsmv_lift.specs.Lift as spec;

use crate::names::FEATURES_INSTANCE;
use integrate_impose::copies::copy_names;
use smv_ast::{Boxed, Branch, Choice, Expr, List, NoMemory, Path, Text};
use std::alloc::Global;

/// The path of a feature's variable, `fsmv_fm.F`.
fn lifted_path(alloc: Global, path: &Path) -> Result<Path, NoMemory>
    ensures { IfOk result (λ lifted. lifted ≡ spec.lifted_path path.now) }
{
    let mut names = List::new(alloc);
    names.push(Text::from_str(alloc, FEATURES_INSTANCE)?)?;
    names.append(copy_names(alloc, path.names.as_slice())?)?;
    Ok(Path { names, at: path.at })
}

#[cycle(lifted)]
fn lifted_boxed(alloc: Global, e: &Boxed<Expr>) -> Result<Boxed<Expr>, NoMemory>
    ensures { IfOk result (λ lifted. lifted ≡ spec.lifted_constraint e.now) }
{
    Ok(Boxed::new(alloc, lifted_constraint(alloc, e.get())?)?)
}

#[cycle(lifted)]
fn lifted_parts(alloc: Global, parts: &[Expr]) -> Result<List<Expr>, NoMemory>
    ensures { IfOk result (λ lifted. lifted ≡ map spec.lifted_constraint parts.now) }
{
    let mut lifted = List::new(alloc);
    for part in parts {
        lifted.push(lifted_constraint(alloc, part)?)?;
    }
    Ok(lifted)
}

#[cycle(lifted)]
fn lifted_branches(alloc: Global, branches: &[Branch]) -> Result<List<Branch>, NoMemory>
    ensures { IfOk result (λ lifted. lifted ≡ map spec.lifted_branch branches.now) }
{
    let mut lifted = List::new(alloc);
    for branch in branches {
        lifted.push(Branch {
            cond: lifted_constraint(alloc, &branch.cond)?,
            value: lifted_constraint(alloc, &branch.value)?,
        })?;
    }
    Ok(lifted)
}

#[cycle(lifted)]
fn lifted_choice(alloc: Global, choice: &Choice) -> Result<Choice, NoMemory>
    ensures { IfOk result (λ lifted. lifted ≡ spec.lifted_choice choice.now) }
{
    match choice {
        Choice::Each(parts) => Ok(Choice::Each(lifted_parts(alloc, parts.as_slice())?)),
        Choice::Between { low, high } => Ok(Choice::Between {
            low: *low,
            high: *high,
        }),
    }
}

/// The constraint, in which the name of each feature is the path of its variable.
#[cycle(lifted)]
pub fn lifted_constraint(alloc: Global, e: &Expr) -> Result<Expr, NoMemory>
    ensures { IfOk result (λ lifted. lifted ≡ spec.lifted_constraint e.now) }
{
    match e {
        Expr::True => Ok(Expr::True),
        Expr::False => Ok(Expr::False),
        Expr::Number(n) => Ok(Expr::Number(*n)),
        Expr::Name(path) => Ok(Expr::Name(lifted_path(alloc, path)?)),
        Expr::Neg(a) => Ok(Expr::Neg(lifted_boxed(alloc, a)?)),
        Expr::Not(a) => Ok(Expr::Not(lifted_boxed(alloc, a)?)),
        Expr::Binary(op, a, b) => Ok(Expr::Binary(
            *op,
            lifted_boxed(alloc, a)?,
            lifted_boxed(alloc, b)?,
        )),
        Expr::Within(a, choice) => Ok(Expr::Within(
            lifted_boxed(alloc, a)?,
            lifted_choice(alloc, choice)?,
        )),
        Expr::Cases(branches) => Ok(Expr::Cases(lifted_branches(alloc, branches.as_slice())?)),
        Expr::Next(a) => Ok(Expr::Next(lifted_boxed(alloc, a)?)),
        Expr::Pick(choice) => Ok(Expr::Pick(lifted_choice(alloc, choice)?)),
    }
}
