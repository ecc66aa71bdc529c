//! The first two passes of the static checks, rule by rule.

ghost use Rattle.std.specs.Prelude.{◌≡◌, map, length};
ghost use Rattle.smv_meaning.specs.Faults.{ReportsFirst};
ghost use Rattle.smv_meaning.specs.Checking as checking;
ghost use Rattle.smv_meaning.specs.Scopes.{scope_view, scopes_of as scopes_of_program, IsModuleIndex};
ghost use Rattle.smv_meaning.specs.Instances.{instances};
ghost use Rattle.smv_meaning.specs.Runs.{first_fault};
ghost use Rattle.smv_meaning.specs.Slots as slots;
ghost use Rattle.smv_names.specs.NamesFault as spec;
ghost use Rattle.smv_meaning.specs.NameSets.{in_set};
ghost use Rattle.smv_names.specs.Unknown as unknown;

use crate::arguments::check_arguments;
use crate::duplicates::check_duplicates;
use crate::known::{ModuleScope, Resolver, declared_in};
use crate::modules::Modules;
use crate::recursion::check_recursion;
use crate::rows::RowsByModule;
use crate::unknown::first_unknown;
use crate::unknown_modules::check_known_modules;
use smv_ast::{Fault, Module, Program};
use smv_meaning::aliases::aliases_of;
use smv_meaning::items::items_of;
use smv_meaning::rules::report;
use smv_meaning::scope::{Scope, modules_by_name, scopes_of};
use smv_meaning::symbols::symbols_of;
use smv_meaning::table::{InstanceTable, instance_table};
use std::alloc::Global;
use std::collections::HashMap;

/// One more than the limit of instances.
const TOO_MANY: usize = 65_537;

/// The rules on modules, by their names and instances.
fn check_modules(alloc: Global, modules: &Modules) -> Result<(), Fault>
    ensures { ReportsFirst (spec.module_fault modules.now.program.now) result }
{
    check_known_modules(alloc, modules)?;
    check_arguments(alloc, modules)?;
    check_recursion(alloc, modules)
}

fn check_modules_of(alloc: Global, program: &Program) -> Result<(), Fault>
    ensures { ReportsFirst (spec.module_fault program.now) result }
{
    let modules = Modules::of_program(alloc, program)?;
    check_modules(alloc, &modules)
}

/// The paths and left sides of a module.
fn check_module(
    alloc: Global,
    known: &Resolver,
    scopes: &[Scope],
    numbers: &HashMap<&str, usize>,
    owner: &Module,
) -> Result<(), Fault>
    requires known { unknown.IsResolver known.now }
    requires scopes { map scope_view scopes.now ≡ scopes_of_program known.now.program.now }
    requires numbers { IsModuleIndex scopes.now numbers.now }
    ensures { ReportsFirst (unknown.unknown_within known.now.program.now owner.now) result }
{
    let name = owner.name.as_str();
    let declared = declared_in(alloc, known.program, scopes, numbers, name)?;
    let rows = known.rows.of_module(name);
    let module_scope = ModuleScope {
        known,
        called: &owner.name,
        declared: &declared,
        rows,
    };
    let items = items_of(alloc, owner)?;
    report(first_unknown(alloc, &module_scope, items.as_slice())?)
}

/// The paths and left sides of a program.
fn check_known(alloc: Global, known: &Resolver, scopes: &[Scope]) -> Result<(), Fault>
    requires known { unknown.IsResolver known.now }
    requires scopes { map scope_view scopes.now ≡ scopes_of_program known.now.program.now }
    ensures { ReportsFirst (unknown.unknown_name_fault known.now.program.now) result }
{
    let numbers = modules_by_name(alloc, scopes)?;
    for owner in known.program.modules.as_slice() {
        check_module(alloc, known, scopes, &numbers, owner)?;
    }
    Ok(())
}

/// The paths and left sides of a program with this instance table.
fn check_in_table(
    alloc: Global,
    program: &Program,
    scopes: &[Scope],
    table: &InstanceTable,
) -> Result<(), Fault>
    requires scopes { map scope_view scopes.now ≡ scopes_of_program program.now }
    requires right { checking.IsTableOfProgram program.now table.now }
    ensures { ReportsFirst (unknown.unknown_name_fault program.now) result }
{
    let aliases = aliases_of(alloc, table)?;
    let rows = RowsByModule::of_program(alloc, program, table)?;
    let symbols = symbols_of(alloc, program)?;
    let known = Resolver {
        program,
        table,
        aliases: aliases.as_slice(),
        rows: &rows,
        symbols: &symbols,
    };
    check_known(alloc, &known, scopes)
}

/// The number of instances, then the paths and left sides.
fn check_in_scopes(alloc: Global, program: &Program, scopes: &[Scope]) -> Result<(), Fault>
    requires scopes { map scope_view scopes.now ≡ scopes_of_program program.now }
    ensures { ReportsFirst (spec.instance_fault program.now) result }
{
    match instance_table(alloc, program, scopes, TOO_MANY)? {
        Some(table) => check_in_table(alloc, program, scopes, &table),
        None => Err(Fault::TooLarge { at: None }),
    }
}

fn check_instances(alloc: Global, program: &Program) -> Result<(), Fault>
    ensures { ReportsFirst (spec.instance_fault program.now) result }
{
    let scopes = scopes_of(alloc, program)?;
    check_in_scopes(alloc, program, scopes.as_slice())
}

/// The first fault of the names of a program: DuplicateName, UnknownModule, ArgumentCount,
/// RecursiveModule, TooLarge, then UnknownName, each in the order of the text. The answer is Ok
/// exactly where there is none. The only other error is `NoMemory`.
pub fn check_names(alloc: Global, program: &Program) -> Result<(), Fault>
    ensures { ReportsFirst (spec.names_fault program.now) result }
{
    check_duplicates(alloc, program)?;
    check_modules_of(alloc, program)?;
    check_instances(alloc, program)
}
