//! The nodes of the constraints of one role, instance by instance in text order.

ghost use Rattle.std.specs.Prelude.{◌≡◌, ◌<◌, IfOk, OnOk, length, fold};
ghost use Rattle.std.specs.Option.{option_map};
ghost use Rattle.smv_meaning.specs.Checking as checking;
ghost use Rattle.smv_meaning.specs.ItemIndex as item_index;
ghost use Rattle.smv_meaning.specs.Items.{item_view, items_view};
ghost use Rattle.smv_flatten.specs.Groups as spec;

use crate::making::make_value;
use crate::names::NameTables;
use crate::operators::push_variable;
use crate::rights::make_right;
use crate::store::Store;
use smv_ast::{Expr, Left, List, NoMemory, Program, Text};
use smv_meaning::aliases::slot_of;
use smv_meaning::item_index::ItemsByName;
use smv_meaning::items::{Item, Role};
use sqlite_items::at;
use std::alloc::Global;

/// How high an expression may be, through all that it reads. The checks refuse higher ones.
#[tactic(auto, unfolding(crate::specs::Groups::height_limit))]
pub fn height_limit() -> usize
    ensures { result ≡ spec.height_limit }
{
    1000
}

/// What a constraint asks.
#[derive(Clone, Copy, Drop)]
pub enum Demand<'p> {
    /// An expression is true.
    Truth(&'p Expr),
    /// A variable, read after the step or now, has a value that its right side allows.
    Assigned {
        after_step: bool,
        name: &'p Text,
        right: &'p Expr,
    },
}

/// The role of an assignment: `init(x) :=` holds in first states, `x :=` in all, `next(x) :=` at steps.
fn role_of(left: Left) -> Role
    ensures { result ≡ spec.role_of left }
{
    match left {
        Left::Init => Role::Init,
        Left::Now => Role::Invariant,
        Left::Next => Role::Transition,
    }
}

/// What an item asks in a role, if it is a constraint of that role.
fn demand_of<'p>(role: Role, item: Item<'p>) -> Option<Demand<'p>>
    ensures { option_map spec.demand_view result ≡ spec.demand_of role (item_view item.entry) }
{
    match item {
        Item::Assignment(assignment) => {
            if role_of(assignment.left) == role {
                Some(Demand::Assigned {
                    after_step: assignment.left == Left::Next,
                    name: &assignment.name,
                    right: &assignment.right,
                })
            } else {
                None
            }
        }
        Item::Constraint(own, e, _) => {
            if own == role {
                Some(Demand::Truth(e))
            } else {
                None
            }
        }
        _ => None,
    }
}

/// The number of the variable of a name in an instance.
fn variable_number(names: &NameTables, row: usize, name: &Text) -> Option<u32>
    ensures { result ≡ spec.variable_number names.now row name.now }
{
    match slot_of(names.table, row, name.as_str()) {
        Some(slot) => at(names.variables, slot).copied().flatten(),
        None => None,
    }
}

/// The node of what a constraint asks in the instance of a row.
fn make_demand(
    alloc: Global,
    names: &NameTables,
    row: usize,
    demand: Demand,
    store: &mut Store,
) -> Result<u32, NoMemory>
    ensures { IfOk result (λ n. (store.new, n)
        ≡ spec.demand_made names.now row (spec.demand_view demand.entry) store.old) }
{
    let depth = height_limit();
    match demand {
        Demand::Truth(e) => make_value(alloc, names, depth, row, false, e, store),
        Demand::Assigned {
            after_step,
            name,
            right,
        } => {
            let variable = variable_number(names, row, name);
            let x = push_variable(store, after_step, variable)?;
            make_right(alloc, names, depth, x, row, false, right, store)
        }
    }
}

/// Adds the node of an item that is a constraint of this role.
fn make_item(
    alloc: Global,
    names: &NameTables,
    role: Role,
    row: usize,
    item: Item,
    store: &mut Store,
    made: &mut List<u32>,
) -> Result<(), NoMemory>
    ensures { OnOk result ((store.new, made.new)
        ≡ spec.item_made names.now role row (store.old, made.old) (item_view item.entry)) }
{
    match demand_of(role, item) {
        Some(demand) => {
            let node = make_demand(alloc, names, row, demand, store)?;
            made.push(node)?;
        }
        None => {}
    }
    Ok(())
}

/// Adds the nodes of the items that are constraints of this role.
fn make_items(
    alloc: Global,
    names: &NameTables,
    role: Role,
    row: usize,
    items: &[Item],
    store: &mut Store,
    made: &mut List<u32>,
) -> Result<(), NoMemory>
    ensures { OnOk result ((store.new, made.new)
        ≡ fold (spec.item_made names.now role row) (store.old, made.old) (items_view items.now)) }
{
    for item in items {
        make_item(alloc, names, role, row, *item, store, made)?;
    }
    Ok(())
}

/// Adds the nodes of the constraints of a role, in the instances of these rows.
pub fn make_group(
    alloc: Global,
    names: &NameTables,
    program: &Program,
    index: &ItemsByName,
    role: Role,
    order: &[usize],
    store: &mut Store,
    made: &mut List<u32>,
) -> Result<(), NoMemory>
    requires right { checking.IsTableOfProgram program.now names.now.table.now }
    requires index { item_index.IsItemIndex program.now index.now }
    requires rows { checking.AreRows names.now.table.now order.now }
    ensures { OnOk result ((store.new, made.new)
        ≡ spec.group_made names.now program.now role order.now (store.old, made.old)) }
{
    for row in order {
        let items = index.of_row(program, names.table, *row);
        make_items(alloc, names, role, *row, items, store, made)?;
    }
    Ok(())
}
