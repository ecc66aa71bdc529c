//! Copies of expressions, spans included.

ghost use Rattle.std.specs.Prelude.{◌≡◌, IfOk};

use smv_ast::{Boxed, Branch, Choice, Expr, List, NoMemory, Path, Text};
use std::alloc::Global;

/// A copy of the names.
pub fn copy_names(alloc: Global, names: &[Text]) -> Result<List<Text>, NoMemory>
    ensures { IfOk result (λ copy. copy ≡ names.now) }
{
    let mut copy = List::new(alloc);
    for name in names {
        copy.push(name.try_clone(alloc)?)?;
    }
    Ok(copy)
}

/// A copy of the path, its span included.
pub fn copy_path(alloc: Global, path: &Path) -> Result<Path, NoMemory>
    ensures { IfOk result (λ copy. copy ≡ path.now) }
{
    Ok(Path {
        names: copy_names(alloc, path.names.as_slice())?,
        at: path.at,
    })
}

#[cycle(copies)]
fn copy_boxed(alloc: Global, e: &Boxed<Expr>) -> Result<Boxed<Expr>, NoMemory>
    ensures { IfOk result (λ copy. copy ≡ e.now) }
{
    Ok(Boxed::new(alloc, copy_expr(alloc, e.get())?)?)
}

#[cycle(copies)]
fn copy_parts(alloc: Global, parts: &[Expr]) -> Result<List<Expr>, NoMemory>
    ensures { IfOk result (λ copy. copy ≡ parts.now) }
{
    let mut copy = List::new(alloc);
    for part in parts {
        copy.push(copy_expr(alloc, part)?)?;
    }
    Ok(copy)
}

#[cycle(copies)]
fn copy_branches(alloc: Global, branches: &[Branch]) -> Result<List<Branch>, NoMemory>
    ensures { IfOk result (λ copy. copy ≡ branches.now) }
{
    let mut copy = List::new(alloc);
    for branch in branches {
        copy.push(Branch {
            cond: copy_expr(alloc, &branch.cond)?,
            value: copy_expr(alloc, &branch.value)?,
        })?;
    }
    Ok(copy)
}

#[cycle(copies)]
fn copy_choice(alloc: Global, choice: &Choice) -> Result<Choice, NoMemory>
    ensures { IfOk result (λ copy. copy ≡ choice.now) }
{
    match choice {
        Choice::Each(parts) => Ok(Choice::Each(copy_parts(alloc, parts.as_slice())?)),
        Choice::Between { low, high } => Ok(Choice::Between {
            low: *low,
            high: *high,
        }),
    }
}

/// A copy of the expression.
#[cycle(copies)]
pub fn copy_expr(alloc: Global, e: &Expr) -> Result<Expr, NoMemory>
    ensures { IfOk result (λ copy. copy ≡ e.now) }
{
    match e {
        Expr::True => Ok(Expr::True),
        Expr::False => Ok(Expr::False),
        Expr::Number(n) => Ok(Expr::Number(*n)),
        Expr::Name(path) => Ok(Expr::Name(copy_path(alloc, path)?)),
        Expr::Neg(a) => Ok(Expr::Neg(copy_boxed(alloc, a)?)),
        Expr::Not(a) => Ok(Expr::Not(copy_boxed(alloc, a)?)),
        Expr::Binary(op, a, b) => Ok(Expr::Binary(
            *op,
            copy_boxed(alloc, a)?,
            copy_boxed(alloc, b)?,
        )),
        Expr::Within(a, choice) => Ok(Expr::Within(
            copy_boxed(alloc, a)?,
            copy_choice(alloc, choice)?,
        )),
        Expr::Cases(branches) => Ok(Expr::Cases(copy_branches(alloc, branches.as_slice())?)),
        Expr::Next(a) => Ok(Expr::Next(copy_boxed(alloc, a)?)),
        Expr::Pick(choice) => Ok(Expr::Pick(copy_choice(alloc, choice)?)),
    }
}

/// A copy of the expressions.
pub fn copy_exprs(alloc: Global, exprs: &[Expr]) -> Result<List<Expr>, NoMemory>
    ensures { IfOk result (λ copy. copy ≡ exprs.now) }
{
    copy_parts(alloc, exprs)
}
