//! A TREAT in an expression.

ghost use Rattle.std.specs.Prelude.{◌≡◌, IfOk, map};
ghost use Rattle.integrate_treat.specs.TreatedExpr as spec;

use integrate_impose::copies::{copy_expr, copy_path};
use integrate_impose::guard::guarded;
use integrate_impose::texts::same_text;
use smv_ast::{Boxed, Branch, Choice, Expr, List, NoMemory, Path, Text};
use std::alloc::Global;

/// A higher expression counts as memory that is not there: the recursion takes no more of the stack
/// than this many levels. A text that passes the static checks has no expression of this height.
const MOST_HEIGHT: usize = 4_000;

/// A replacement in an expression: where `cond` is true, the path reads as `right`.
#[derive(Drop)]
pub struct Treatment {
    pub cond: Expr,
    pub path: List<Text>,
    pub right: Expr,
}

fn same_names(a: &[Text], b: &[Text]) -> bool
    ensures { result ≡ spec.same_names a.now b.now }
{
    if a.len() != b.len() {
        return false;
    }
    for i in 0..a.len() {
        if !same_text(&a[i], b[i].as_str()) {
            return false;
        }
    }
    true
}

fn treat_path(alloc: Global, t: &Treatment, path: &Path) -> Result<Expr, NoMemory>
    ensures { IfOk result (λ e. e ≡ spec.treated_path t.now path.now) }
{
    let read = Expr::Name(copy_path(alloc, path)?);
    if !same_names(path.names.as_slice(), t.path.as_slice()) {
        return Ok(read);
    }
    let cond = copy_expr(alloc, &t.cond)?;
    let right = copy_expr(alloc, &t.right)?;
    guarded(alloc, cond, right, read)
}

#[cycle(treating)]
fn treat_boxed(
    alloc: Global,
    t: &Treatment,
    e: &Boxed<Expr>,
    height: usize,
) -> Result<Boxed<Expr>, NoMemory>
    ensures { IfOk result (λ treated. treated ≡ spec.treated t.now e.now) }
{
    Ok(Boxed::new(alloc, treat_below(alloc, t, e.get(), height)?)?)
}

#[cycle(treating)]
fn treat_parts(
    alloc: Global,
    t: &Treatment,
    parts: &[Expr],
    height: usize,
) -> Result<List<Expr>, NoMemory>
    ensures { IfOk result (λ treated. treated ≡ map (spec.treated t.now) parts.now) }
{
    let mut treated = List::new(alloc);
    for part in parts {
        treated.push(treat_below(alloc, t, part, height)?)?;
    }
    Ok(treated)
}

#[cycle(treating)]
fn treat_branches(
    alloc: Global,
    t: &Treatment,
    branches: &[Branch],
    height: usize,
) -> Result<List<Branch>, NoMemory>
    ensures { IfOk result (λ treated. treated ≡ map (spec.treated_branch t.now) branches.now) }
{
    let mut treated = List::new(alloc);
    for branch in branches {
        treated.push(Branch {
            cond: treat_below(alloc, t, &branch.cond, height)?,
            value: treat_below(alloc, t, &branch.value, height)?,
        })?;
    }
    Ok(treated)
}

#[cycle(treating)]
fn treat_choice(
    alloc: Global,
    t: &Treatment,
    choice: &Choice,
    height: usize,
) -> Result<Choice, NoMemory>
    ensures { IfOk result (λ treated. treated ≡ spec.treated_choice t.now choice.now) }
{
    match choice {
        Choice::Each(parts) => Ok(Choice::Each(treat_parts(alloc, t, parts.as_slice(), height)?)),
        Choice::Between { low, high } => Ok(Choice::Between {
            low: *low,
            high: *high,
        }),
    }
}

/// The expression with the path replaced, if it is no higher than `height`.
#[cycle(treating)]
fn treat_below(alloc: Global, t: &Treatment, e: &Expr, height: usize) -> Result<Expr, NoMemory>
    ensures { IfOk result (λ treated. treated ≡ spec.treated t.now e.now) }
{
    if height == 0 {
        return Err(NoMemory);
    }
    let below = height - 1;
    match e {
        Expr::True => Ok(Expr::True),
        Expr::False => Ok(Expr::False),
        Expr::Number(n) => Ok(Expr::Number(*n)),
        Expr::Name(path) => treat_path(alloc, t, path),
        Expr::Neg(a) => Ok(Expr::Neg(treat_boxed(alloc, t, a, below)?)),
        Expr::Not(a) => Ok(Expr::Not(treat_boxed(alloc, t, a, below)?)),
        Expr::Binary(op, a, b) => Ok(Expr::Binary(
            *op,
            treat_boxed(alloc, t, a, below)?,
            treat_boxed(alloc, t, b, below)?,
        )),
        Expr::Within(a, choice) => Ok(Expr::Within(
            treat_boxed(alloc, t, a, below)?,
            treat_choice(alloc, t, choice, below)?,
        )),
        Expr::Cases(branches) => Ok(Expr::Cases(treat_branches(
            alloc,
            t,
            branches.as_slice(),
            below,
        )?)),
        Expr::Next(a) => Ok(Expr::Next(treat_boxed(alloc, t, a, below)?)),
        Expr::Pick(choice) => Ok(Expr::Pick(treat_choice(alloc, t, choice, below)?)),
    }
}

/// The expression with each occurrence of the path replaced.
pub fn treat_expr(alloc: Global, t: &Treatment, e: &Expr) -> Result<Expr, NoMemory>
    ensures { IfOk result (λ treated. treated ≡ spec.treated t.now e.now) }
{
    treat_below(alloc, t, e, MOST_HEIGHT)
}

/// The expressions with each occurrence of the path replaced.
pub fn treat_exprs(alloc: Global, t: &Treatment, exprs: &[Expr]) -> Result<List<Expr>, NoMemory>
    ensures { IfOk result (λ treated. treated ≡ map (spec.treated t.now) exprs.now) }
{
    treat_parts(alloc, t, exprs, MOST_HEIGHT)
}
