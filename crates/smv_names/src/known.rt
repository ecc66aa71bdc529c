//! The paths that are known in a module.

ghost use Rattle.std.specs.Prelude.{◌≡◌, ◌↔◌, ◌<◌, ◌||◌, IfOk, IsTrue, length, map};
ghost use Rattle.smv_meaning.specs.Entries.{entries_view};
ghost use Rattle.smv_meaning.specs.Scopes.{scope_view, scopes_of, IsModuleIndex};
ghost use Rattle.smv_meaning.specs.Values.{is_symbol};
ghost use Rattle.smv_meaning.specs.Checking.{instance_at};
ghost use Rattle.smv_meaning.specs.NameSets.{in_set, no_name, and_names};
ghost use Rattle.smv_names.specs.Unknown as spec;

use crate::rows::RowsByModule;
use smv_ast::{NoMemory, Program, Text};
use smv_meaning::aliases::resolve;
use smv_meaning::entries::Entry;
use smv_meaning::name_sets::{insert_name, no_names};
use smv_meaning::scope::{Scope, entries_found, names_in};
use smv_meaning::table::InstanceTable;
use std::alloc::Global;
use std::collections::{HashMap, HashSet};

/// The tables of a program by which paths are resolved.
#[derive(Drop)]
pub struct Resolver<'p> {
    pub program: &'p Program,
    /// The instance table of the program.
    pub table: &'p InstanceTable<'p, 'p>,
    /// The instance that each slot is an alias of.
    pub aliases: &'p [Option<usize>],
    /// The instances of each module.
    pub rows: &'p RowsByModule<'p>,
    /// The symbols of all enumerations.
    pub symbols: &'p HashSet<&'p str>,
}

/// A module, with the tables of its program.
#[derive(Drop)]
pub struct ModuleScope<'p> {
    pub known: &'p Resolver<'p>,
    /// The name of the module.
    pub called: &'p Text,
    /// The names that the module declares.
    pub declared: &'p HashSet<&'p str>,
    /// The instances of the module.
    pub rows: &'p [usize],
}

/// The set of the names of these entries.
fn names_of<'a>(alloc: Global, entries: &[Entry<'a>]) -> Result<HashSet<&'a str>, NoMemory>
    ensures { IfOk result (λ names. in_set names
        ≡ and_names no_name (map (λ e. e.name) (entries_view entries.now))) }
{
    let mut names = no_names(alloc);
    for entry in entries {
        insert_name(&mut names, entry.name)?;
    }
    Ok(names)
}

/// The set of the names that the module of this name declares.
pub fn declared_in<'a>(
    alloc: Global,
    program: &Program,
    scopes: &[Scope<'a>],
    numbers: &HashMap<&'a str, usize>,
    called: &str,
) -> Result<HashSet<&'a str>, NoMemory>
    requires scopes { map scope_view scopes.now ≡ scopes_of program.now }
    requires numbers { IsModuleIndex scopes.now numbers.now }
    ensures { IfOk result (λ names. in_set names ≡ spec.declared_in program.now called.now) }
{
    let names = names_of(alloc, entries_found(names_in(scopes, numbers, called)))?;
    Ok(names)
}

/// Whether a path of an instance resolves to a declaration.
fn is_resolved_in_row(known: &Resolver, row: usize, path: &[Text]) -> bool
    requires known { spec.IsResolver known.now }
    requires row { row < length known.now.table.now.rows }
    ensures { result ≡ spec.resolves_in known.now.program.now path.now
        (instance_at known.now.table.now row) }
{
    let slot = resolve(known.table, known.aliases, row, path);
    slot.is_some()
}

/// Whether a path resolves to a declaration in each instance of the module.
fn is_resolved_in_each(module_scope: &ModuleScope, path: &[Text]) -> bool
    requires { spec.IsModuleScope module_scope.now }
    ensures { result ≡ spec.is_resolved_in_each (spec.scope_program module_scope.now)
        module_scope.now.called.now path.now }
{
    for row in module_scope.rows {
        if !is_resolved_in_row(module_scope.known, *row, path) {
            return false;
        }
    }
    true
}

/// Whether a single name is declared or a symbol.
fn is_declared_or_symbol(module_scope: &ModuleScope, name: &Text) -> bool
    requires { spec.IsModuleScope module_scope.now }
    ensures { result ≡ (in_set module_scope.now.declared.now name.now
        || is_symbol (spec.scope_program module_scope.now) name.now) }
{
    module_scope.declared.contains(name.as_str())
        || module_scope.known.symbols.contains(name.as_str())
}

fn is_resolved(module_scope: &ModuleScope, path: &[Text]) -> bool
    requires { spec.IsModuleScope module_scope.now }
    ensures { result ≡ spec.is_resolved (spec.scope_program module_scope.now)
        module_scope.now.called.now path.now }
{
    match path {
        [] => is_resolved_in_each(module_scope, path),
        [name] => is_declared_or_symbol(module_scope, name),
        [first, ..] => {
            let begins = module_scope.declared.contains(first.as_str());
            begins && is_resolved_in_each(module_scope, path)
        }
    }
}

/// Whether a path of the module is known there, or a symbol. A single name that the module declares
/// is known in each of its instances.
pub fn is_known(module_scope: &ModuleScope, path: &[Text]) -> bool
    requires { spec.IsModuleScope module_scope.now }
    ensures exact { result ≡ spec.is_resolved (spec.scope_program module_scope.now)
        module_scope.now.called.now path.now }
    ensures law { IsTrue result
        ↔ spec.Resolves (spec.scope_program module_scope.now) module_scope.now.called.now path.now }
{
    let known = is_resolved(module_scope, path);
    known
}
