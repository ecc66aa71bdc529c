//! The nodes of expressions as values.

ghost use Rattle.std.specs.Prelude.{◌≡◌, IfOk, slice_get};
ghost use Rattle.smv_meaning.specs.Slots.{resolve_slot};
ghost use Rattle.smv_ast.specs.declared.syntax.Expr.{out-Expr};
ghost use Rattle.smv_ast.specs.declared.syntax.Choice.{out-Choice};
ghost use Rattle.smv_flatten.specs.Making as spec;

use crate::choices::{push_chooses, push_range};
use crate::names::{NameTables, path_number};
use crate::operators::{join, negate_for, push_variable};
use crate::store::{Store, cut, push, share, shared_node};
use flat_model::FlatNode;
use smv_ast::{Branch, Choice, Expr, NoMemory, Text};
use smv_meaning::aliases::resolve;
use smv_meaning::table::Binding;
use sqlite_items::at;
use std::alloc::Global;

/// The node of an expression that is read in the instance of a row, after the step or now. Through
/// all that it reads, the expression may be `depth` high; beyond that it is cut off.
#[cycle(making)]
pub fn make_value(
    alloc: Global,
    names: &NameTables,
    depth: usize,
    row: usize,
    after_step: bool,
    e: &Expr,
    store: &mut Store,
) -> Result<u32, NoMemory>
    ensures { IfOk result (λ n. (store.new, n)
        ≡ spec.value_made names.now depth row after_step e.now store.old) }
{
    if depth == 0 {
        return cut(store);
    }
    make_layer(alloc, names, depth - 1, row, after_step, e, store)
}

/// The node of an expression, whose parts may be `depth` high.
#[cycle(making)]
fn make_layer(
    alloc: Global,
    names: &NameTables,
    depth: usize,
    row: usize,
    after_step: bool,
    e: &Expr,
    store: &mut Store,
) -> Result<u32, NoMemory>
    ensures { IfOk result (λ n. (store.new, n)
        ≡ spec.layer_made names.now (spec.value_made names.now depth) row after_step
        (out-Expr e.now) store.old) }
{
    match e {
        Expr::True => push(store, FlatNode::Const(1)),
        Expr::False => push(store, FlatNode::Const(0)),
        Expr::Number(n) => push(store, FlatNode::Const(i64::from(*n))),
        Expr::Name(path) => make_path(
            alloc,
            names,
            depth,
            row,
            after_step,
            path.names.as_slice(),
            store,
        ),
        Expr::Neg(a) => {
            let zero = push(store, FlatNode::Const(0))?;
            let n = make_value(alloc, names, depth, row, after_step, a.get(), store)?;
            push(store, FlatNode::Sub(zero, n))
        }
        Expr::Not(a) => {
            let n = make_value(alloc, names, depth, row, after_step, a.get(), store)?;
            push(store, FlatNode::Not(n))
        }
        Expr::Binary(op, a, b) => {
            let first = make_value(alloc, names, depth, row, after_step, a.get(), store)?;
            let m = negate_for(store, *op, first)?;
            let n = make_value(alloc, names, depth, row, after_step, b.get(), store)?;
            join(store, *op, m, n)
        }
        Expr::Within(a, choice) => {
            let x = make_value(alloc, names, depth, row, after_step, a.get(), store)?;
            make_choice(alloc, names, depth, x, row, after_step, choice, store)
        }
        Expr::Cases(branches) => make_cases(
            alloc,
            names,
            depth,
            row,
            after_step,
            branches.as_slice(),
            store,
        ),
        Expr::Next(a) => make_value(alloc, names, depth, row, true, a.get(), store),
        // The checks refuse a choice that stands as a value.
        Expr::Pick(_) => push(store, FlatNode::Const(0)),
    }
}

/// The node of a path: that of the declaration that it resolves to, else that of the symbol.
#[cycle(making)]
fn make_path(
    alloc: Global,
    names: &NameTables,
    depth: usize,
    row: usize,
    after_step: bool,
    path: &[Text],
    store: &mut Store,
) -> Result<u32, NoMemory>
    ensures { IfOk result (λ n. (store.new, n)
        ≡ spec.path_made names.now (spec.value_made names.now depth) after_step path.now
        (resolve_slot names.now.table.now row path.now) store.old) }
{
    match resolve(names.table, names.aliases, row, path) {
        Some(slot) => make_slot(alloc, names, depth, after_step, slot, store),
        None => match i64::try_from(path_number(names.symbols, path)) {
            Ok(number) => push(store, FlatNode::Const(number)),
            Err(_) => Err(NoMemory),
        },
    }
}

/// The node of the name of a slot.
#[cycle(making)]
fn make_slot(
    alloc: Global,
    names: &NameTables,
    depth: usize,
    after_step: bool,
    k: usize,
    store: &mut Store,
) -> Result<u32, NoMemory>
    ensures { IfOk result (λ n. (store.new, n)
        ≡ spec.slot_made names.now (spec.value_made names.now depth) k after_step
        (slice_get names.now.table.now.slots k) store.old) }
{
    let Some(slot) = at(names.table.slots.as_slice(), k).copied() else {
        return push(store, FlatNode::Const(0));
    };
    match slot.binding {
        Binding::Variable => {
            let variable = at(names.variables, k).copied().flatten();
            push_variable(store, after_step, variable)
        }
        Binding::Define(right) => make_shared(
            alloc, names, depth, after_step, k, slot.row, right, store,
        ),
        Binding::Formal(outer, actual) => make_shared(
            alloc, names, depth, after_step, k, outer, actual, store,
        ),
        // The checks refuse an instance that stands as a value.
        _ => push(store, FlatNode::Const(0)),
    }
}

/// The one node of a definition or formal, now or after the step: it is made at the first use.
#[cycle(making)]
fn make_shared(
    alloc: Global,
    names: &NameTables,
    depth: usize,
    after_step: bool,
    k: usize,
    row: usize,
    e: &Expr,
    store: &mut Store,
) -> Result<u32, NoMemory>
    ensures { IfOk result (λ n. (store.new, n)
        ≡ spec.shared_made (spec.value_made names.now depth) k after_step row e.now
        (spec.shared_node store.old.shared after_step k) store.old) }
{
    match shared_node(&store.shared, after_step, k) {
        Some(n) => Ok(n),
        None => {
            let n = make_value(alloc, names, depth, row, after_step, e, store)?;
            share(store, after_step, k, n)
        }
    }
}

/// The node of a case.
#[cycle(making)]
fn make_cases(
    alloc: Global,
    names: &NameTables,
    depth: usize,
    row: usize,
    after_step: bool,
    branches: &[Branch],
    store: &mut Store,
) -> Result<u32, NoMemory>
    ensures { IfOk result (λ n. (store.new, n)
        ≡ spec.cases_made (spec.value_made names.now depth) (spec.value_made names.now depth)
        row after_step branches.now store.old) }
{
    let mut made = Vec::new(alloc);
    let mut left = branches.len();
    for branch in branches {
        left -= 1;
        if left == 0 {
            // The last condition is not read.
            let last = make_value(alloc, names, depth, row, after_step, &branch.value, store)?;
            return push_chooses(store, made.as_slice(), last);
        }
        let cond = make_value(alloc, names, depth, row, after_step, &branch.cond, store)?;
        let value = make_value(alloc, names, depth, row, after_step, &branch.value, store)?;
        made.push((cond, value))?;
    }
    let last = push(store, FlatNode::Const(0))?;
    push_chooses(store, made.as_slice(), last)
}

/// Whether a node equals an expression.
#[cycle(making)]
pub fn make_test(
    alloc: Global,
    names: &NameTables,
    depth: usize,
    x: u32,
    row: usize,
    after_step: bool,
    e: &Expr,
    store: &mut Store,
) -> Result<u32, NoMemory>
    ensures { IfOk result (λ n. (store.new, n)
        ≡ spec.test_made (spec.value_made names.now depth) x row after_step e.now store.old) }
{
    let n = make_value(alloc, names, depth, row, after_step, e, store)?;
    push(store, FlatNode::Eq(x, n))
}

/// The Ors of a test with those of further parts.
#[cycle(making)]
fn make_more_parts(
    alloc: Global,
    names: &NameTables,
    depth: usize,
    x: u32,
    row: usize,
    after_step: bool,
    first: u32,
    parts: &[Expr],
    store: &mut Store,
) -> Result<u32, NoMemory>
    ensures { IfOk result (λ n. (store.new, n)
        ≡ spec.more_parts_made (spec.value_made names.now depth) x row after_step first parts.now
        store.old) }
{
    let mut found = first;
    for part in parts {
        let test = make_test(alloc, names, depth, x, row, after_step, part, store)?;
        found = push(store, FlatNode::Or(found, test))?;
    }
    Ok(found)
}

/// Whether a node equals one of the parts of a set.
#[cycle(making)]
fn make_parts(
    alloc: Global,
    names: &NameTables,
    depth: usize,
    x: u32,
    row: usize,
    after_step: bool,
    parts: &[Expr],
    store: &mut Store,
) -> Result<u32, NoMemory>
    ensures { IfOk result (λ n. (store.new, n)
        ≡ spec.parts_made (spec.value_made names.now depth) x row after_step parts.now store.old) }
{
    let Some((first, more)) = parts.split_first() else {
        return push(store, FlatNode::Const(0));
    };
    let test = make_test(alloc, names, depth, x, row, after_step, first, store)?;
    make_more_parts(alloc, names, depth, x, row, after_step, test, more, store)
}

/// Whether a node has one of the values of a choice.
#[cycle(making)]
pub fn make_choice(
    alloc: Global,
    names: &NameTables,
    depth: usize,
    x: u32,
    row: usize,
    after_step: bool,
    choice: &Choice,
    store: &mut Store,
) -> Result<u32, NoMemory>
    ensures { IfOk result (λ n. (store.new, n)
        ≡ spec.choice_made (spec.value_made names.now depth) x row after_step
        (out-Choice choice.now) store.old) }
{
    match choice {
        Choice::Each(parts) => {
            make_parts(
                alloc,
                names,
                depth,
                x,
                row,
                after_step,
                parts.as_slice(),
                store,
            )
        }
        Choice::Between { low, high } => push_range(store, x, *low, *high),
    }
}
