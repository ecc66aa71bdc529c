//! The variables of a model by number: the features first, then instance by instance.

ghost use Rattle.std.specs.Prelude.{◌≡◌, ◌++◌, map, IfOk, OnOk};
ghost use Rattle.std.specs.List.{flat_map};
ghost use Rattle.smv_meaning.specs.Slots as slots;
ghost use Rattle.smv_meaning.specs.Valuation as valuation;
ghost use Rattle.smv_meaning.specs.Entries.{entry_view, entries_view};
ghost use Rattle.smv_flatten.specs.Variables as spec;

use crate::values::{count_of, is_symbolic, values_of};
use flat_model::FlatVar;
use indexmap::IndexSet;
use smv_ast::{List, NoMemory, OwnedVar, SmvType, Text};
use smv_meaning::aliases::slot_of;
use smv_meaning::entries::{Entity, Entry};
use smv_meaning::instance_texts::name_text;
use smv_meaning::table::{InstanceTable, Link, called_of};
use sqlite_items::at;
use std::alloc::Global;

/// Whether the instance with this link is the one that `main` declares for the features.
fn is_features(link: Option<Link>) -> bool
    ensures { result ≡ spec.is_features link.entry }
{
    match link {
        Some(link) => link.outer == 0 && link.name.as_str() == "fsmv_fm",
        None => false,
    }
}

/// A variable of an instance, with its slot in the instance table and the name of its module.
#[derive(Clone, Copy, Drop)]
pub struct VariableAt<'a> {
    pub slot: usize,
    pub row: usize,
    pub called: &'a str,
    pub name: &'a Text,
    pub type_: &'a SmvType,
}

/// Adds the variable that an entry is.
fn push_entry<'a>(
    table: &InstanceTable,
    row: usize,
    called: &'a str,
    entry: Entry<'a>,
    found: &mut Vec<VariableAt<'a>>,
) -> Result<(), NoMemory>
    requires { slots.HasSlots table.now }
    ensures { OnOk result (map spec.variable_view found.new.items
        ≡ map spec.variable_view found.old.items
        ++ spec.entry_variables table.now row called.now (entry_view entry.entry)) }
{
    match entry.entity {
        Entity::Variable(type_) => match slot_of(table, row, entry.name.as_str()) {
            Some(slot) => {
                found.push(VariableAt {
                    slot,
                    row,
                    called,
                    name: entry.name,
                    type_,
                })?;
            }
            None => {}
        },
        _ => {}
    }
    Ok(())
}

/// Adds the variables among these entries.
fn push_entries<'a>(
    table: &InstanceTable,
    row: usize,
    called: &'a str,
    entries: &[Entry<'a>],
    found: &mut Vec<VariableAt<'a>>,
) -> Result<(), NoMemory>
    requires { slots.HasSlots table.now }
    ensures { OnOk result (map spec.variable_view found.new.items
        ≡ map spec.variable_view found.old.items
        ++ flat_map (spec.entry_variables table.now row called.now) (entries_view entries.now)) }
{
    for entry in entries {
        push_entry(table, row, called, *entry, found)?;
    }
    Ok(())
}

/// Adds the variables of an instance, if it is the features' or not, as wanted.
fn push_row<'a>(
    table: &InstanceTable<'_, 'a>,
    features: bool,
    row: usize,
    found: &mut Vec<VariableAt<'a>>,
) -> Result<(), NoMemory>
    requires { slots.HasSlots table.now }
    ensures { OnOk result (map spec.variable_view found.new.items
        ≡ map spec.variable_view found.old.items ++ spec.row_variables table.now features row) }
{
    let Some(instance) = at(table.rows.as_slice(), row).copied() else {
        return Ok(());
    };
    if is_features(instance.link) == features {
        push_entries(
            table,
            row,
            called_of(instance.link),
            instance.entries(),
            found,
        )
    } else {
        Ok(())
    }
}

/// Adds the variables of these instances: those of the features, or all others.
pub fn push_variables<'a>(
    table: &InstanceTable<'_, 'a>,
    features: bool,
    order: &[usize],
    found: &mut Vec<VariableAt<'a>>,
) -> Result<(), NoMemory>
    requires { slots.HasSlots table.now }
    ensures { OnOk result (map spec.variable_view found.new.items
        ≡ map spec.variable_view found.old.items
        ++ spec.variables_at table.now features order.now) }
{
    for row in order {
        push_row(table, features, *row, found)?;
    }
    Ok(())
}

/// The number of the variable of each slot that is one: its position among these.
pub fn variable_numbers(
    alloc: Global,
    count: usize,
    variables: &[VariableAt],
) -> Result<List<Option<u32>>, NoMemory>
    ensures { IfOk result (λ numbers. numbers
        ≡ spec.variable_numbers count (map spec.variable_view variables.now)) }
{
    let mut numbers = List::new(alloc);
    'blank: for place in 0..count {
        numbers.push(None)?;
    }
    let mut number: u32 = 0;
    for variable in variables {
        let slot = variable.slot;
        if slot < numbers.len() {
            numbers.set(slot, Some(number));
        }
        number = match number.checked_add(1) {
            Some(more) => more,
            None => return Err(NoMemory),
        };
    }
    Ok(numbers)
}

/// The feature that introduces a variable of a module.
fn owner_of(owned: &[OwnedVar], called: &str, name: &str) -> Option<u8>
    ensures { result ≡ spec.owner_of owned.now called.now name.now }
{
    for var in owned {
        if var.module.as_str() == called && var.name.as_str() == name {
            return Some(var.feature);
        }
    }
    None
}

/// A variable as the flat model has it.
fn flat_variable(
    alloc: Global,
    owned: &[OwnedVar],
    table: &InstanceTable,
    texts: &[Text],
    symbols: &IndexSet<&str>,
    variable: VariableAt,
) -> Result<FlatVar, NoMemory>
    requires { valuation.SpellsNames table.now.rows texts.now }
    ensures { IfOk result (λ var. var
        ≡ spec.flat_variable owned.now table.now symbols.now (spec.variable_view variable.entry)) }
{
    let Some(path) = name_text(alloc, table, texts, variable.row, variable.name.as_str())? else {
        return Err(NoMemory);
    };
    let values = values_of(alloc, symbols, variable.type_)?;
    let count = count_of(variable.type_)?;
    let owner = owner_of(owned, variable.called, variable.name.as_str());
    Ok(FlatVar {
        path,
        values,
        count,
        owner,
    })
}

/// The variables as the flat model has them.
pub fn flat_variables(
    alloc: Global,
    owned: &[OwnedVar],
    table: &InstanceTable,
    texts: &[Text],
    symbols: &IndexSet<&str>,
    variables: &[VariableAt],
) -> Result<List<FlatVar>, NoMemory>
    requires { valuation.SpellsNames table.now.rows texts.now }
    ensures { IfOk result (λ vars. vars
        ≡ map (spec.flat_variable owned.now table.now symbols.now)
        (map spec.variable_view variables.now)) }
{
    let mut vars = List::new(alloc);
    for variable in variables {
        let var = flat_variable(alloc, owned, table, texts, symbols, *variable)?;
        vars.push(var)?;
    }
    Ok(vars)
}

/// For each variable, whether its values are symbols.
pub fn symbolic_flags(alloc: Global, variables: &[VariableAt]) -> Result<List<bool>, NoMemory>
    ensures { IfOk result (λ flags. flags
        ≡ map spec.has_symbols (map spec.variable_view variables.now)) }
{
    let mut flags = List::new(alloc);
    for variable in variables {
        flags.push(is_symbolic(variable.type_))?;
    }
    Ok(flags)
}
