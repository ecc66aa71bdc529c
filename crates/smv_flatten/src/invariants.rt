//! The specs of a model in the order of its instances and of the text, and their nodes.

ghost use Rattle.std.specs.Prelude.{◌≡◌, ◌++◌, ◌<◌, IfOk, OnOk, length, map, fold, slice_get};
ghost use Rattle.std.specs.List.{flat_map};
ghost use Rattle.smv_meaning.specs.Checking as checking;
ghost use Rattle.smv_meaning.specs.ModuleNumbers.{IsNumbering};
ghost use Rattle.smv_flatten.specs.Invariants as spec;

use crate::groups::height_limit;
use crate::making::make_value;
use crate::names::NameTables;
use crate::store::Store;
use flat_model::FlatNode;
use smv_ast::{Expr, List, Module, NoMemory, OwnedSpec, Program, Section};
use smv_meaning::module_numbers::module_named;
use smv_meaning::table::{InstanceTable, called_of};
use sqlite_items::at;
use std::alloc::Global;
use std::collections::HashMap;

/// An INVARSPEC of an instance, and the feature that introduces it.
#[derive(Clone, Copy, Drop)]
pub struct SpecAt<'p> {
    pub row: usize,
    pub owner: Option<u8>,
    pub expression: &'p Expr,
}

/// The feature that introduces the section of this number of a module.
fn owner_of(owned: &[OwnedSpec], called: &str, section: usize) -> Option<u8>
    ensures { result ≡ spec.owner_of owned.now called.now section }
{
    for one in owned {
        if one.module.as_str() == called && one.section as usize == section {
            return Some(one.feature);
        }
    }
    None
}

/// Adds the spec that a section is.
fn push_section<'p>(
    owned: &[OwnedSpec],
    row: usize,
    called: &str,
    number: usize,
    section: &'p Section,
    found: &mut Vec<SpecAt<'p>>,
) -> Result<(), NoMemory>
    ensures { OnOk result (map spec.spec_view found.new.items ≡ map spec.spec_view found.old.items
        ++ spec.section_specs owned.now row called.now number section.now) }
{
    match section {
        Section::InvarSpec(expression, _) => {
            let owner = owner_of(owned, called, number);
            found.push(SpecAt {
                row,
                owner,
                expression,
            })?;
        }
        _ => {}
    }
    Ok(())
}

/// Adds the specs of a module, in the instance of a row.
fn push_module<'p>(
    owned: &[OwnedSpec],
    row: usize,
    owner: &'p Module,
    found: &mut Vec<SpecAt<'p>>,
) -> Result<(), NoMemory>
    ensures { OnOk result (map spec.spec_view found.new.items ≡ map spec.spec_view found.old.items
        ++ spec.module_specs owned.now row owner.now) }
{
    let called = owner.name.as_str();
    let sections = owner.sections.as_slice();
    for (number, section) in sections.iter().enumerate() {
        push_section(owned, row, called, number, section, found)?;
    }
    Ok(())
}

/// Adds the specs of the instance of a row.
fn push_row<'p>(
    program: &'p Program,
    numbers: &HashMap<&str, usize>,
    owned: &[OwnedSpec],
    table: &InstanceTable,
    row: usize,
    found: &mut Vec<SpecAt<'p>>,
) -> Result<(), NoMemory>
    requires { IsNumbering program.now numbers.now }
    ensures { OnOk result (map spec.spec_view found.new.items ≡ map spec.spec_view found.old.items
        ++ spec.row_specs program.now owned.now table.now row) }
{
    let Some(instance) = at(table.rows.as_slice(), row).copied() else {
        return Ok(());
    };
    match module_named(program, numbers, called_of(instance.link)) {
        Some(owner) => push_module(owned, row, owner, found),
        None => Ok(()),
    }
}

/// The specs of these instances.
pub fn specs_of<'p>(
    alloc: Global,
    program: &'p Program,
    numbers: &HashMap<&str, usize>,
    owned: &[OwnedSpec],
    table: &InstanceTable,
    order: &[usize],
) -> Result<Vec<SpecAt<'p>>, NoMemory>
    requires { IsNumbering program.now numbers.now }
    ensures { IfOk result (λ found. map spec.spec_view found.items
        ≡ spec.specs_at program.now owned.now table.now order.now) }
{
    let mut found = Vec::new(alloc);
    for row in order {
        push_row(program, numbers, owned, table, *row, &mut found)?;
    }
    Ok(found)
}

/// The second operand of an Or; any other node itself.
fn right_operand(nodes: &[FlatNode], node: u32) -> u32
    ensures { result ≡ spec.right_operand (slice_get nodes.now node) node }
{
    match at(nodes, node as usize).copied() {
        Some(FlatNode::Or(_, right)) => right,
        _ => node,
    }
}

/// The node of a spec. One of a feature is an implication, all of whose nodes are made, and its node
/// is that of the right side.
fn make_spec(
    alloc: Global,
    names: &NameTables,
    one: SpecAt,
    store: &mut Store,
) -> Result<u32, NoMemory>
    ensures { IfOk result (λ n. (store.new, n)
        ≡ spec.spec_made names.now (spec.spec_view one.entry) store.old) }
{
    let depth = height_limit();
    let whole = make_value(alloc, names, depth, one.row, false, one.expression, store)?;
    match one.owner {
        Some(_) => Ok(right_operand(store.nodes.as_slice(), whole)),
        None => Ok(whole),
    }
}

/// The nodes of these specs.
pub fn make_specs(
    alloc: Global,
    names: &NameTables,
    specs: &[SpecAt],
    store: &mut Store,
) -> Result<List<u32>, NoMemory>
    ensures { IfOk result (λ made. (store.new, made)
        ≡ spec.specs_made names.now (map spec.spec_view specs.now) store.old) }
{
    let mut made = List::new(alloc);
    for one in specs {
        let node = make_spec(alloc, names, *one, store)?;
        made.push(node)?;
    }
    Ok(made)
}
