//! The facts of expressions, with names read in an instance.

ghost use Rattle.std.specs.Prelude.{◌≡◌, IfOk, map};
ghost use Rattle.smv_kinds.specs.Facts as spec;
ghost use Rattle.smv_kinds.specs.SortsOfNames as name_sorts;

use crate::context::RowSorting;
use crate::facts::{
    Facts, binary_facts, case_facts, interval_facts, name_facts, negation_facts, next_facts,
    not_facts, number_facts, parts_facts, truth_facts, within_interval, within_parts,
};
use smv_ast::{Branch, Choice, Expr, List, NoMemory};
use std::alloc::Global;

/// The facts of an expression. The only error is `NoMemory`.
#[cycle(expressions)]
pub fn facts_of<'t>(alloc: Global, sorting: &RowSorting<'t>, e: &Expr) -> Result<Facts, NoMemory>
    ensures { IfOk result (λ f. f ≡ spec.facts_of (name_sorts.sorting_of sorting.now) e.now) }
{
    match e {
        Expr::True | Expr::False => Ok(truth_facts()),
        Expr::Number(n) => Ok(number_facts(*n)),
        Expr::Name(path) => Ok(name_facts(sorting.sort_of(path))),
        Expr::Neg(a) => Ok(negation_facts(facts_of(alloc, sorting, a.get())?)),
        Expr::Not(a) => Ok(not_facts(facts_of(alloc, sorting, a.get())?)),
        Expr::Binary(op, a, b) => {
            let left = facts_of(alloc, sorting, a.get())?;
            let right = facts_of(alloc, sorting, b.get())?;
            Ok(binary_facts(*op, left, right))
        }
        Expr::Within(a, choice) => {
            let left = facts_of(alloc, sorting, a.get())?;
            within_facts(alloc, sorting, left, choice)
        }
        Expr::Cases(branches) => cases_facts(alloc, sorting, branches.as_slice()),
        Expr::Next(a) => Ok(next_facts(facts_of(alloc, sorting, a.get())?)),
        Expr::Pick(choice) => pick_facts(alloc, sorting, choice),
    }
}

#[cycle(expressions)]
fn within_facts<'t>(
    alloc: Global,
    sorting: &RowSorting<'t>,
    left: Facts,
    choice: &Choice,
) -> Result<Facts, NoMemory>
    ensures { IfOk result (λ f. f
        ≡ spec.within_choice left (spec.choice_facts_of (name_sorts.sorting_of sorting.now) choice.now)) }
{
    match choice {
        Choice::Each(parts) => {
            let found = list_facts(alloc, sorting, parts.as_slice())?;
            Ok(within_parts(left, found.as_slice()))
        }
        Choice::Between { low, high } => Ok(within_interval(left, *low, *high)),
    }
}

#[cycle(expressions)]
fn pick_facts<'t>(
    alloc: Global,
    sorting: &RowSorting<'t>,
    choice: &Choice,
) -> Result<Facts, NoMemory>
    ensures { IfOk result (λ f. f
        ≡ spec.pick_facts (spec.choice_facts_of (name_sorts.sorting_of sorting.now) choice.now)) }
{
    match choice {
        Choice::Each(parts) => {
            let found = list_facts(alloc, sorting, parts.as_slice())?;
            Ok(parts_facts(found.as_slice()))
        }
        Choice::Between { low, high } => Ok(interval_facts(*low, *high)),
    }
}

#[cycle(expressions)]
fn list_facts<'t>(
    alloc: Global,
    sorting: &RowSorting<'t>,
    parts: &[Expr],
) -> Result<List<Facts>, NoMemory>
    ensures { IfOk result (λ found. found
        ≡ map (spec.facts_of (name_sorts.sorting_of sorting.now)) parts.now) }
{
    let mut found = List::new(alloc);
    for part in parts {
        let facts = facts_of(alloc, sorting, part)?;
        found.push(facts)?;
    }
    Ok(found)
}

#[cycle(expressions)]
fn cases_facts<'t>(
    alloc: Global,
    sorting: &RowSorting<'t>,
    branches: &[Branch],
) -> Result<Facts, NoMemory>
    ensures { IfOk result (λ f. f
        ≡ spec.cases (map (spec.branch_facts_of (name_sorts.sorting_of sorting.now)) branches.now)) }
{
    let mut conditions = List::new(alloc);
    let mut values = List::new(alloc);
    for branch in branches {
        let condition = facts_of(alloc, sorting, &branch.cond)?;
        conditions.push(condition)?;
        let value = facts_of(alloc, sorting, &branch.value)?;
        values.push(value)?;
    }
    Ok(case_facts(conditions.as_slice(), values.as_slice()))
}
