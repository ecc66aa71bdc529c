//! All nodes of a model: those of its invariants, of its first states, of its steps and of its specs.

ghost use Rattle.std.specs.Prelude.{◌≡◌, false, None, IfOk, map, replicate};
ghost use Rattle.smv_meaning.specs.Checking as checking;
ghost use Rattle.smv_meaning.specs.ItemIndex as item_index;
ghost use Rattle.smv_flatten.specs.Invariants.{spec_view};
ghost use Rattle.smv_flatten.specs.Numbering as spec;

use crate::groups::make_group;
use crate::invariants::{SpecAt, make_specs};
use crate::names::NameTables;
use crate::store::{SharedNodes, Store};
use flat_model::FlatNode;
use smv_ast::{List, NoMemory, Program};
use smv_meaning::item_index::ItemsByName;
use smv_meaning::items::Role;
use sqlite_items::at;
use std::alloc::Global;
use std::slice;

/// The nodes of a model, and which of them are those of its constraints and specs.
#[derive(Drop)]
pub struct FlatNodes {
    pub nodes: List<FlatNode>,
    pub init: List<u32>,
    pub inside: List<u32>,
    pub step: List<u32>,
    /// The node of the last constraint of `main` on first states.
    pub model: u32,
    pub specs: List<u32>,
}

fn no_shared_nodes(alloc: Global, count: usize) -> Result<List<Option<u32>>, NoMemory>
    ensures { IfOk result (λ blank. blank ≡ replicate count None) }
{
    let mut blank = List::new(alloc);
    'blank: for place in 0..count {
        blank.push(None)?;
    }
    Ok(blank)
}

/// A store without nodes, for names of so many slots.
fn empty_store(alloc: Global, slots: usize) -> Result<Store, NoMemory>
    ensures { IfOk result (λ store. store ≡ spec.empty_store slots) }
{
    let current = no_shared_nodes(alloc, slots)?;
    let next = no_shared_nodes(alloc, slots)?;
    Ok(Store {
        nodes: List::new(alloc),
        shared: SharedNodes { current, next },
        is_cut: false,
    })
}

/// The last of these nodes, 0 where there is none.
fn last_node(made: &[u32]) -> u32
    ensures { result ≡ spec.last_node made.now }
{
    match at(made, made.len().saturating_sub(1)).copied() {
        Some(node) => node,
        None => 0,
    }
}

/// The nodes of the constraints of a role.
fn make_role(
    alloc: Global,
    names: &NameTables,
    program: &Program,
    index: &ItemsByName,
    role: Role,
    order: &[usize],
    store: &mut Store,
) -> Result<List<u32>, NoMemory>
    requires right { checking.IsTableOfProgram program.now names.now.table.now }
    requires index { item_index.IsItemIndex program.now index.now }
    requires rows { checking.AreRows names.now.table.now order.now }
    ensures { IfOk result (λ made. (store.new, made)
        ≡ spec.role_made names.now program.now role order.now store.old) }
{
    let mut made = List::new(alloc);
    make_group(alloc, names, program, index, role, order, store, &mut made)?;
    Ok(made)
}

/// The nodes of the constraints on first states, and the last of those of `main`, whose row is the
/// first.
fn make_init(
    alloc: Global,
    names: &NameTables,
    program: &Program,
    index: &ItemsByName,
    order: &[usize],
    store: &mut Store,
) -> Result<(List<u32>, u32), NoMemory>
    requires right { checking.IsTableOfProgram program.now names.now.table.now }
    requires index { item_index.IsItemIndex program.now index.now }
    requires rows { checking.AreRows names.now.table.now order.now }
    ensures { IfOk result (λ made. ((store.new, made.0), made.1)
        ≡ spec.init_made names.now program.now order.now store.old) }
{
    let mut made = List::new(alloc);
    let Some((main, others)) = order.split_first() else {
        return Ok((made, 0));
    };
    let first = slice::from_ref(main);
    make_group(
        alloc,
        names,
        program,
        index,
        Role::Init,
        first,
        store,
        &mut made,
    )?;
    let model = last_node(made.as_slice());
    make_group(
        alloc,
        names,
        program,
        index,
        Role::Init,
        others,
        store,
        &mut made,
    )?;
    Ok((made, model))
}

/// The nodes of the constraints and specs of a program, in the instances of these rows.
pub fn number_nodes(
    alloc: Global,
    names: &NameTables,
    program: &Program,
    specs: &[SpecAt],
    order: &[usize],
) -> Result<FlatNodes, NoMemory>
    requires right { checking.IsTableOfProgram program.now names.now.table.now }
    requires rows { checking.AreRows names.now.table.now order.now }
    ensures nodes { IfOk result (λ flat. flat
        ≡ spec.nodes_made names.now program.now (map spec_view specs.now) order.now) }
    ensures whole { IfOk result (λ flat.
        spec.is_cut names.now program.now (map spec_view specs.now) order.now ≡ false) }
{
    let index = ItemsByName::of_program(alloc, program)?;
    let mut store = empty_store(alloc, names.table.slots.len())?;
    let inside = make_role(
        alloc,
        names,
        program,
        &index,
        Role::Invariant,
        order,
        &mut store,
    )?;
    let (init, model) = make_init(alloc, names, program, &index, order, &mut store)?;
    let step = make_role(
        alloc,
        names,
        program,
        &index,
        Role::Transition,
        order,
        &mut store,
    )?;
    let made = make_specs(alloc, names, specs, &mut store)?;
    let Store { nodes, is_cut, .. } = store;
    if is_cut {
        // The checks refuse expressions that are so high.
        return Err(NoMemory);
    }
    Ok(FlatNodes {
        nodes,
        init,
        inside,
        step,
        model,
        specs: made,
    })
}
