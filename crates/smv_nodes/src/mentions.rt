//! The names that an expression reads.

ghost use Rattle.std.specs.Prelude.{◌≡◌, ◌++◌, ◌∷◌, [], OnOk, map, pred, length, true};
ghost use Rattle.smv_nodes.specs.Mentions as spec;

use smv_ast::{Branch, Choice, Expr, Path};
use std::alloc::AllocError;

/// A name that is read, now or after the step.
#[derive(Clone, Copy, Drop)]
pub struct Mention<'a> {
    pub path: &'a Path,
    pub after_step: bool,
}

fn push_path<'a>(
    mentions: &mut Vec<Mention<'a>>,
    path: &'a Path,
    after_step: bool,
) -> Result<(), AllocError>
    ensures { OnOk result (spec.mention_views mentions.new.items
        ≡ spec.mention_views mentions.old.items
        ++ record { names = path.now.names; after_step = after_step } ∷ []) }
{
    mentions.push(Mention { path, after_step })?;
    Ok(())
}

#[cycle(mentions)]
fn push_parts<'a>(
    mentions: &mut Vec<Mention<'a>>,
    parts: &'a [Expr],
    after_step: bool,
) -> Result<(), AllocError>
    ensures { OnOk result (spec.mention_views mentions.new.items
        ≡ spec.mention_views mentions.old.items
        ++ spec.parts_read after_step (map spec.reads_of parts.now)) }
{
    for part in parts {
        push_reads(mentions, part, after_step)?;
    }
    Ok(())
}

#[cycle(mentions)]
fn push_branches<'a>(
    mentions: &mut Vec<Mention<'a>>,
    branches: &'a [Branch],
    after_step: bool,
) -> Result<(), AllocError>
    ensures { OnOk result (spec.mention_views mentions.new.items
        ≡ spec.mention_views mentions.old.items
        ++ spec.branches_read after_step (pred (length (map spec.branch_reads branches.now)))
        (map spec.branch_reads branches.now)) }
{
    // The last condition is not read.
    let mut conds = branches.len().saturating_sub(1);
    for branch in branches {
        if conds > 0 {
            conds -= 1;
            push_reads(mentions, &branch.cond, after_step)?;
        }
        push_reads(mentions, &branch.value, after_step)?;
    }
    Ok(())
}

#[cycle(mentions)]
fn push_choice<'a>(
    mentions: &mut Vec<Mention<'a>>,
    choice: &'a Choice,
    after_step: bool,
) -> Result<(), AllocError>
    ensures { OnOk result (spec.mention_views mentions.new.items
        ≡ spec.mention_views mentions.old.items ++ spec.choice_reads choice.now after_step) }
{
    match choice {
        Choice::Each(parts) => push_parts(mentions, parts.as_slice(), after_step),
        Choice::Between { .. } => Ok(()),
    }
}

/// Adds the names that the expression reads, where the whole is read after the step or now.
#[cycle(mentions)]
pub fn push_reads<'a>(
    mentions: &mut Vec<Mention<'a>>,
    e: &'a Expr,
    after_step: bool,
) -> Result<(), AllocError>
    ensures { OnOk result (spec.mention_views mentions.new.items
        ≡ spec.mention_views mentions.old.items ++ spec.reads_of e.now after_step) }
{
    match e {
        Expr::True | Expr::False | Expr::Number(_) => Ok(()),
        Expr::Name(path) => push_path(mentions, path, after_step),
        Expr::Neg(a) | Expr::Not(a) => push_reads(mentions, a.get(), after_step),
        Expr::Binary(_, a, b) => {
            push_reads(mentions, a.get(), after_step)?;
            push_reads(mentions, b.get(), after_step)
        }
        Expr::Within(a, choice) => {
            push_reads(mentions, a.get(), after_step)?;
            push_choice(mentions, choice, after_step)
        }
        Expr::Cases(branches) => push_branches(mentions, branches.as_slice(), after_step),
        Expr::Next(a) => push_reads(mentions, a.get(), true),
        Expr::Pick(choice) => push_choice(mentions, choice, after_step),
    }
}
