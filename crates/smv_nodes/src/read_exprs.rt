//! The expressions that the items of instances read.

ghost use Rattle.std.specs.Prelude.{◌≡◌, ◌++◌, ◌∷◌, [], OnOk, IfOk};
ghost use Rattle.std.specs.List.{flat_map};
ghost use Rattle.smv_meaning.specs.Checking as checking;
ghost use Rattle.smv_meaning.specs.Items.{item_view, items_view};
ghost use Rattle.smv_nodes.specs.Count as spec;
ghost use Rattle.smv_nodes.specs.CountBySlot as by_slot;

use smv_ast::{Expr, NoMemory, Program};
use smv_meaning::item_index::ItemsByName;
use smv_meaning::items::Item;
use smv_meaning::table::InstanceTable;
use std::alloc::{AllocError, Global};

/// An expression that is read in the instance of a number.
#[derive(Clone, Copy, Drop)]
pub struct ReadExpr<'a> {
    pub row: usize,
    pub right: &'a Expr,
    /// Whether it is the right side of an assignment.
    pub assigned: bool,
    /// Whether the whole is read after the step.
    pub after_step: bool,
}

/// Adds an expression that is read now.
fn push_expr<'a>(
    read_exprs: &mut Vec<ReadExpr<'a>>,
    row: usize,
    right: &'a Expr,
    assigned: bool,
) -> Result<(), AllocError>
    ensures { OnOk result (by_slot.read_expr_views read_exprs.new.items
        ≡ by_slot.read_expr_views read_exprs.old.items ++ spec.read_now row right.now assigned ∷ []) }
{
    read_exprs.push(ReadExpr {
        row,
        right,
        assigned,
        after_step: false,
    })?;
    Ok(())
}

/// Adds the expression that an item reads.
fn push_item<'a>(
    read_exprs: &mut Vec<ReadExpr<'a>>,
    row: usize,
    item: Item<'a>,
) -> Result<(), AllocError>
    ensures { OnOk result (by_slot.read_expr_views read_exprs.new.items
        ≡ by_slot.read_expr_views read_exprs.old.items ++ spec.item_exprs row (item_view item.entry)) }
{
    match item {
        Item::Assignment(assignment) => push_expr(read_exprs, row, &assignment.right, true),
        Item::Constraint(_, e, _) => push_expr(read_exprs, row, e, false),
        _ => Ok(()),
    }
}

/// Adds the expressions that these items read.
fn push_items<'a>(
    read_exprs: &mut Vec<ReadExpr<'a>>,
    row: usize,
    items: &[Item<'a>],
) -> Result<(), AllocError>
    ensures { OnOk result (by_slot.read_expr_views read_exprs.new.items
        ≡ by_slot.read_expr_views read_exprs.old.items
        ++ flat_map (spec.item_exprs row) (items_view items.now)) }
{
    for item in items {
        push_item(read_exprs, row, *item)?;
    }
    Ok(())
}

/// The expressions that the items of these instances read.
pub fn table_exprs<'p>(
    alloc: Global,
    program: &'p Program,
    table: &InstanceTable,
    order: &[usize],
) -> Result<Vec<ReadExpr<'p>>, NoMemory>
    requires right { checking.IsTableOfProgram program.now table.now }
    requires rows { checking.AreRows table.now order.now }
    ensures { IfOk result (λ read_exprs. by_slot.read_expr_views read_exprs.items
        ≡ by_slot.table_exprs program.now table.now order.now) }
{
    let index = ItemsByName::of_program(alloc, program)?;
    let mut read_exprs = Vec::new(alloc);
    for row in order {
        let items = index.of_row(program, table, *row);
        push_items(&mut read_exprs, *row, items)?;
    }
    Ok(read_exprs)
}
