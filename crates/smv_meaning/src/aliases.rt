//! Aliases of the names of instances, and resolution of paths.

ghost use Rattle.std.specs.Prelude.{◌≡◌, ℕ, Option, IfOk, length, slice_get};
ghost use Rattle.smv_meaning.specs.Value.{and_then};
ghost use Rattle.fixpoint.specs.Fixpoints.{entry};
ghost use Rattle.smv_meaning.specs.Paths as paths;
ghost use Rattle.smv_meaning.specs.Slots as slots;
ghost use Rattle.smv_meaning.specs.InstanceTable.{binding_view};

use crate::table::{Binding, InstanceTable};
use fixpoint::{Step, fill};
use smv_ast::{Expr, List, NoMemory, Text};
use sqlite_items::at;
use std::alloc::Global;

/// The number of the slot of a name of an instance, if the instance declares the name.
pub fn slot_of(table: &InstanceTable, row: usize, name: &str) -> Option<usize>
    requires { slots.HasSlots table.now }
    ensures { result ≡ slots.slot_of table.now (record { instance = row; name = name.now }) }
{
    let Some(first) = at(table.firsts.as_slice(), row).copied() else {
        return None;
    };
    let Some(found) = at(table.rows.as_slice(), row).copied() else {
        return None;
    };
    match found.index_of(name) {
        Some(k) => {
            // Each name has a slot in memory, so its number fits.
            let count = table.slots.len();
            prove!(first < count);
            Some(first + k)
        }
        None => None,
    }
}

/// The entry that a table by slots has for a name of an instance.
pub fn entry_of(
    table: &InstanceTable,
    solution: &[Option<usize>],
    row: usize,
    name: &str,
) -> Option<usize>
    requires { slots.HasSlots table.now }
    ensures { result ≡ slots.by_slot table.now (entry solution.now)
        (record { instance = row; name = name.now }) }
{
    match slot_of(table, row, name) {
        Some(slot) => at(solution, slot).copied().flatten(),
        None => None,
    }
}

/// The instance that a path resolves to, by the aliases known so far.
fn walk(
    table: &InstanceTable,
    solution: &[Option<usize>],
    start: usize,
    names: &[Text],
) -> Option<usize>
    requires { slots.HasSlots table.now }
    ensures { result ≡ paths.walked (slots.by_slot table.now (entry solution.now)) start names.now }
{
    let mut row = start;
    for name in names {
        match entry_of(table, solution, row, name.as_str()) {
            Some(below) => row = below,
            None => return None,
        }
    }
    Some(row)
}

/// The first slot on a path that the table doesn't know, if there is one.
fn unknown_on(
    table: &InstanceTable,
    solution: &[Option<usize>],
    start: usize,
    names: &[Text],
) -> Option<usize>
    requires { slots.HasSlots table.now }
{
    let mut row = start;
    for name in names {
        let slot = slot_of(table, row, name.as_str())?;
        match at(solution, slot).copied().flatten() {
            Some(below) => row = below,
            None => return Some(slot),
        }
    }
    None
}

/// The instance that an expression of an instance denotes, if it is a path to one, by the aliases
/// known so far.
pub fn aliased(
    table: &InstanceTable,
    solution: &[Option<usize>],
    row: usize,
    e: &Expr,
) -> Option<usize>
    requires { slots.HasSlots table.now }
    ensures { result ≡ paths.aliased (slots.by_slot table.now (entry solution.now)) row e.now }
{
    match e {
        Expr::Name(path) => walk(table, solution, row, path.names.as_slice()),
        _ => None,
    }
}

/// The instance that a binding is an alias of, by the aliases known so far.
fn alias_of_binding(
    table: &InstanceTable,
    solution: &[Option<usize>],
    binding: Binding,
) -> Option<usize>
    requires { slots.HasSlots table.now }
    ensures { result ≡ paths.alias_of_binding (slots.by_slot table.now (entry solution.now))
        (binding_view binding.entry) }
{
    match binding {
        Binding::Instance(row) => Some(row),
        Binding::Formal(outer, actual) => aliased(table, solution, outer, actual),
        _ => None,
    }
}

/// The transfer function of the aliases of slots.
#[derive(Drop)]
struct AliasStep<'t> {
    table: &'t InstanceTable<'t, 't>,
    ghost has: { slots.HasSlots table.now },
}

impl<'t> Step<usize> for AliasStep<'t> {
    ghost use Rattle.smv_meaning.specs.Slots.{alias_slots};
    ghost use Rattle.smv_meaning.specs.StepMonotone.{alias_slots_monotone};

    ghost step = { λ me. alias_slots me.table.now };

    ghost monotone = { λ me. alias_slots_monotone me.table.now };

    fn step(
        &self,
        _alloc: Global,
        solution: &[Option<usize>],
        k: usize,
    ) -> Result<Option<usize>, NoMemory> {
        match at(self.table.slots.as_slice(), k).copied() {
            Some(slot) => Ok(alias_of_binding(self.table, solution, slot.binding)),
            None => Ok(None),
        }
    }

    fn awaited(
        &self,
        _alloc: Global,
        solution: &[Option<usize>],
        k: usize,
    ) -> Result<Option<usize>, NoMemory> {
        let Some(slot) = at(self.table.slots.as_slice(), k).copied() else {
            return Ok(None);
        };
        match slot.binding {
            Binding::Formal(outer, Expr::Name(path)) => Ok(unknown_on(
                self.table,
                solution,
                outer,
                path.names.as_slice(),
            )),
            _ => Ok(None),
        }
    }
}

/// The instance that each slot is an alias of.
pub fn aliases_of(alloc: Global, table: &InstanceTable) -> Result<List<Option<usize>>, NoMemory>
    requires { slots.HasSlots table.now }
    ensures { IfOk result (λ solution. slots.AreAliases table.now solution) }
{
    let solution = fill(alloc, &AliasStep { table }, table.slots.len(), &[])?;
    Ok(solution)
}

/// The slot of the declaration that a path of an instance resolves to.
pub fn resolve(
    table: &InstanceTable,
    aliases: &[Option<usize>],
    start: usize,
    names: &[Text],
) -> Option<usize>
    requires has { slots.HasSlots table.now }
    requires is_of { slots.AreAliases table.now aliases.now }
    ensures { result ≡ slots.resolve_slot table.now start names.now }
{
    let mut row = start;
    let mut left = names.len();
    for name in names {
        left -= 1;
        if left == 0 {
            return slot_of(table, row, name.as_str());
        }
        match entry_of(table, aliases, row, name.as_str()) {
            Some(below) => row = below,
            None => return None,
        }
    }
    None
}
