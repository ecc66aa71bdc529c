//! The paths that an expression mentions.

ghost use Rattle.std.specs.Prelude.{◌≡◌, ◌++◌, ◌∷◌, [], OnOk, map};
ghost use Rattle.smv_meaning.specs.Mentions as spec;

use smv_ast::{Branch, Choice, Expr, Path};
use std::alloc::AllocError;

#[cycle(paths)]
fn push_choice_paths<'a>(paths: &mut Vec<&'a Path>, choice: &'a Choice) -> Result<(), AllocError>
    ensures { OnOk result (spec.pointed paths.new.items
        ≡ spec.pointed paths.old.items ++ spec.choice_paths choice.now) }
{
    match choice {
        Choice::Each(parts) => push_list_paths(paths, parts.as_slice()),
        Choice::Between { .. } => Ok(()),
    }
}

#[cycle(paths)]
fn push_list_paths<'a>(paths: &mut Vec<&'a Path>, parts: &'a [Expr]) -> Result<(), AllocError>
    ensures { OnOk result (spec.pointed paths.new.items
        ≡ spec.pointed paths.old.items ++ spec.all_of (map spec.paths_of parts.now)) }
{
    for part in parts {
        push_paths(paths, part)?;
    }
    Ok(())
}

#[cycle(paths)]
fn push_branch_paths<'a>(
    paths: &mut Vec<&'a Path>,
    branches: &'a [Branch],
) -> Result<(), AllocError>
    ensures { OnOk result (spec.pointed paths.new.items
        ≡ spec.pointed paths.old.items ++ spec.all_of (map spec.branch_paths branches.now)) }
{
    for branch in branches {
        push_paths(paths, &branch.cond)?;
        push_paths(paths, &branch.value)?;
    }
    Ok(())
}

#[tactic(auto, using(crate::proofs::MentionLemmas::pointed_push))]
fn push_path<'a>(paths: &mut Vec<&'a Path>, path: &'a Path) -> Result<(), AllocError>
    ensures { OnOk result (spec.pointed paths.new.items ≡ spec.pointed paths.old.items
        ++ path.now ∷ []) }
{
    paths.push(path)?;
    Ok(())
}

/// Adds the paths of the expression, in the order of the text.
#[cycle(paths)]
pub fn push_paths<'a>(paths: &mut Vec<&'a Path>, e: &'a Expr) -> Result<(), AllocError>
    ensures { OnOk result (spec.pointed paths.new.items ≡ spec.pointed paths.old.items
        ++ spec.paths_of e.now) }
{
    match e {
        Expr::True | Expr::False | Expr::Number(_) => Ok(()),
        Expr::Name(path) => push_path(paths, path),
        Expr::Neg(a) | Expr::Not(a) | Expr::Next(a) => push_paths(paths, a.get()),
        Expr::Binary(_, a, b) => {
            push_paths(paths, a.get())?;
            push_paths(paths, b.get())
        }
        Expr::Within(a, choice) => {
            push_paths(paths, a.get())?;
            push_choice_paths(paths, choice)
        }
        Expr::Cases(branches) => push_branch_paths(paths, branches.as_slice()),
        Expr::Pick(choice) => push_choice_paths(paths, choice),
    }
}
