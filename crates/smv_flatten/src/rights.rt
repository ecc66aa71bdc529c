//! The nodes of right sides: whether the variable has one of the values that they allow.

ghost use Rattle.std.specs.Prelude.{◌≡◌, ◌<◌, IfOk};
ghost use Rattle.smv_ast.specs.declared.syntax.Expr.{out-Expr};
ghost use Rattle.smv_flatten.specs.Making as spec;

use crate::choices::{is_free, push_chooses};
use crate::making::{make_choice, make_test, make_value};
use crate::names::NameTables;
use crate::store::{Store, cut, push};
use flat_model::FlatNode;
use smv_ast::{Branch, Expr, NoMemory};
use std::alloc::Global;

/// The node of the test whether a node `x` has one of the values of a right side, which may be
/// `depth` high through all that it reads.
#[cycle(rights)]
pub fn make_right(
    alloc: Global,
    names: &NameTables,
    depth: usize,
    x: u32,
    row: usize,
    after_step: bool,
    e: &Expr,
    store: &mut Store,
) -> Result<u32, NoMemory>
    ensures { IfOk result (λ n. (store.new, n)
        ≡ spec.right_made names.now depth x row after_step e.now store.old) }
{
    if depth == 0 {
        return cut(store);
    }
    make_right_layer(alloc, names, depth, depth - 1, x, row, after_step, e, store)
}

/// The same of a right side that may be `whole` high, its parts `depth`.
#[cycle(rights)]
fn make_right_layer(
    alloc: Global,
    names: &NameTables,
    whole: usize,
    depth: usize,
    x: u32,
    row: usize,
    after_step: bool,
    e: &Expr,
    store: &mut Store,
) -> Result<u32, NoMemory>
    requires { depth < whole }
    ensures { IfOk result (λ n. (store.new, n)
        ≡ spec.right_layer (spec.value_made names.now whole) (spec.value_made names.now depth)
        (spec.right_made names.now depth x) x row after_step e.now (spec.is_free e.now)
        (out-Expr e.now) store.old) }
{
    match e {
        Expr::Pick(choice) => {
            make_choice(alloc, names, depth, x, row, after_step, choice, store)
        }
        Expr::Cases(branches) => {
            if is_free(e) {
                make_right_cases(
                    alloc,
                    names,
                    depth,
                    x,
                    row,
                    after_step,
                    branches.as_slice(),
                    store,
                )
            } else {
                make_test(alloc, names, whole, x, row, after_step, e, store)
            }
        }
        _ => make_test(alloc, names, whole, x, row, after_step, e, store),
    }
}

/// The node of a case that chooses among the tests of its values.
#[cycle(rights)]
fn make_right_cases(
    alloc: Global,
    names: &NameTables,
    depth: usize,
    x: u32,
    row: usize,
    after_step: bool,
    branches: &[Branch],
    store: &mut Store,
) -> Result<u32, NoMemory>
    ensures { IfOk result (λ n. (store.new, n)
        ≡ spec.cases_made (spec.value_made names.now depth) (spec.right_made names.now depth x)
        row after_step branches.now store.old) }
{
    let mut made = Vec::new(alloc);
    let mut left = branches.len();
    for branch in branches {
        left -= 1;
        if left == 0 {
            let last = make_right(
                alloc,
                names,
                depth,
                x,
                row,
                after_step,
                &branch.value,
                store,
            )?;
            return push_chooses(store, made.as_slice(), last);
        }
        let cond = make_value(alloc, names, depth, row, after_step, &branch.cond, store)?;
        let value = make_right(
            alloc,
            names,
            depth,
            x,
            row,
            after_step,
            &branch.value,
            store,
        )?;
        made.push((cond, value))?;
    }
    let last = push(store, FlatNode::Const(0))?;
    push_chooses(store, made.as_slice(), last)
}
