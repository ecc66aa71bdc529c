//! The targets of TREAT: paths that are known in a module and lead to an instance nowhere.

ghost use Rattle.std.specs.Prelude.{◌≡◌, ◌<◌, IfOk, length, map};
ghost use Rattle.std.specs.List.{list_all};
ghost use Rattle.std.specs.Str.{bytes_eq};
ghost use Rattle.fixpoint.specs.Fixpoints.{entry};
ghost use Rattle.smv_meaning.specs.Instances.{instances};
ghost use Rattle.smv_meaning.specs.Scopes.{scope_view, scopes_of as scopes_of_program, IsModuleIndex};
ghost use Rattle.smv_meaning.specs.Slots.{AreAliases};
ghost use Rattle.smv_meaning.specs.Checking.{IsTableOfProgram, AreRows, instance_at};
ghost use Rattle.integrate_treat.specs.Target as spec;

use smv_ast::{NoMemory, Program, Text};
use smv_meaning::aliases::{aliases_of, resolve};
use smv_meaning::order::order_of;
use smv_meaning::scope::{Scope, modules_by_name, names_in, scopes_of};
use smv_meaning::table::{InstanceTable, Link, instance_table};
use sqlite_items::at;
use std::alloc::Global;
use std::collections::HashMap;

/// Whether the slot that a path resolved to is no alias of an instance.
fn is_value_slot(aliases: &[Option<usize>], slot: Option<usize>) -> bool
    ensures { result ≡ spec.is_value_slot (entry aliases.now) slot }
{
    match slot {
        Some(k) => match at(aliases, k).copied().flatten() {
            Some(_) => false,
            None => true,
        },
        None => false,
    }
}

fn resolves_to_value(
    program: &Program,
    table: &InstanceTable,
    aliases: &[Option<usize>],
    path: &[Text],
    row: usize,
) -> bool
    requires right { IsTableOfProgram program.now table.now }
    requires aliases { AreAliases table.now aliases.now }
    requires row { row < length table.now.rows }
    ensures { result ≡ spec.resolves_to_value program.now path.now (instance_at table.now row) }
{
    let slot = resolve(table, aliases, row, path);
    is_value_slot(aliases, slot)
}

/// The name of the module of an instance with this link.
fn called_of<'p>(link: Option<Link<'p>>) -> &'p str
    ensures { result.now ≡ spec.called_by_link link.entry }
{
    match link {
        Some(link) => link.called.as_str(),
        None => "main",
    }
}

/// Whether an instance with this link is of the module of this name.
fn is_of(link: Option<Link>, called: &str) -> bool
    ensures { result ≡ bytes_eq (spec.called_by_link link.entry) called.now }
{
    called_of(link) == called
}

/// Whether the path resolves to a value in this instance, if it is of the module.
fn resolves_if_of(
    program: &Program,
    table: &InstanceTable,
    aliases: &[Option<usize>],
    called: &str,
    path: &[Text],
    row: usize,
) -> bool
    requires right { IsTableOfProgram program.now table.now }
    requires aliases { AreAliases table.now aliases.now }
    requires row { row < length table.now.rows }
    ensures { result
        ≡ spec.resolves_if_of program.now called.now path.now (instance_at table.now row) }
{
    let rows = table.rows.as_slice();
    if is_of(rows[row].link, called) {
        return resolves_to_value(program, table, aliases, path, row);
    }
    true
}

fn resolves_in_rows(
    program: &Program,
    table: &InstanceTable,
    aliases: &[Option<usize>],
    called: &str,
    path: &[Text],
    rows: &[usize],
) -> bool
    requires right { IsTableOfProgram program.now table.now }
    requires aliases { AreAliases table.now aliases.now }
    requires rows { AreRows table.now rows.now }
    ensures { result ≡ list_all (spec.resolves_if_of program.now called.now path.now)
        (map (instance_at table.now) rows.now) }
{
    for row in rows {
        if !resolves_if_of(program, table, aliases, called, path, *row) {
            return false;
        }
    }
    true
}

fn resolves_in_each(
    alloc: Global,
    program: &Program,
    table: &InstanceTable,
    called: &str,
    path: &[Text],
) -> Result<bool, NoMemory>
    requires right { IsTableOfProgram program.now table.now }
    ensures { IfOk result (λ each. each
        ≡ list_all (spec.resolves_if_of program.now called.now path.now)
        (instances program.now)) }
{
    let aliases = aliases_of(alloc, table)?;
    let order = order_of(alloc, program, table)?;
    let rows = order.as_slice();
    Ok(resolves_in_rows(program, table, aliases.as_slice(), called, path, rows))
}

/// Whether the module declares the name.
fn declares(
    program: &Program,
    scopes: &[Scope],
    numbers: &HashMap<&str, usize>,
    called: &str,
    name: &str,
) -> bool
    requires scopes { map scope_view scopes.now ≡ scopes_of_program program.now }
    requires numbers { IsModuleIndex scopes.now numbers.now }
    ensures { result ≡ spec.declared_in program.now called.now name.now }
{
    match names_in(scopes, numbers, called) {
        Some(names) => names.entity_of(name).is_some(),
        None => false,
    }
}

/// Whether the module declares the first name of the path.
fn begins(
    program: &Program,
    scopes: &[Scope],
    numbers: &HashMap<&str, usize>,
    called: &str,
    path: &[Text],
) -> bool
    requires scopes { map scope_view scopes.now ≡ scopes_of_program program.now }
    requires numbers { IsModuleIndex scopes.now numbers.now }
    ensures { result ≡ spec.begins_in program.now called.now path.now }
{
    match at(path, 0) {
        Some(first) => declares(program, scopes, numbers, called, first.as_str()),
        None => true,
    }
}

fn is_target_in(
    alloc: Global,
    program: &Program,
    scopes: &[Scope],
    called: &str,
    path: &[Text],
) -> Result<bool, NoMemory>
    requires { map scope_view scopes.now ≡ scopes_of_program program.now }
    ensures { IfOk result (λ target. target ≡ spec.is_target program.now called.now path.now) }
{
    let numbers = modules_by_name(alloc, scopes)?;
    if !begins(program, scopes, &numbers, called, path) {
        return Ok(false);
    }
    match instance_table(alloc, program, scopes, usize::MAX)? {
        Some(table) => resolves_in_each(alloc, program, &table, called, path),
        // No table in memory has that many instances.
        None => Err(NoMemory),
    }
}

/// Whether the path is known in the module of this name, and leads to an instance in no instance of
/// it.
pub fn is_target(
    alloc: Global,
    program: &Program,
    called: &str,
    path: &[Text],
) -> Result<bool, NoMemory>
    ensures { IfOk result (λ target. target ≡ spec.is_target program.now called.now path.now) }
{
    let scopes = scopes_of(alloc, program)?;
    is_target_in(alloc, program, scopes.as_slice(), called, path)
}
