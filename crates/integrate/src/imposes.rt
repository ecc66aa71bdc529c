//! IMPOSEs in a row. They keep names and symbols, so that the tables of the model before them serve
//! for all.

ghost use Rattle.std.specs.Prelude.{◌≡◌, true, IfOk, map};
ghost use Rattle.std.specs.List.{list_all};
ghost use Rattle.integrate_impose.specs.Answers.{Answers};
ghost use Rattle.smv_meaning.specs.Checking.{IsTableOfProgram};
ghost use Rattle.smv_meaning.specs.Scopes.{scope_view, scopes_of as scopes_of_program};
ghost use Rattle.smv_names.specs.Unknown.{IsModuleScope, scope_program};
ghost use Rattle.integrate.specs.Changes as spec;
ghost use Rattle.integrate.specs.Lookups.{AreLookups, program_of};
ghost use Rattle.integrate.specs.SameNames.{HaveSameNames, is_impose};
ghost use Rattle.integrate.specs.UsedNames.{first_missing, missing_in_module};

use crate::changes::act;
use crate::lookups::{Lookups, module_set};
use crate::names::{MissingName, missing_in_scope};
use crate::reports::missing_fault;
use integrate_impose::section_copies::copy_program;
use smv_ast::{Action, Change, Fault, NoMemory, Product, Program, Text};
use smv_meaning::aliases::aliases_of;
use smv_meaning::scope::{Scope, modules_by_name, scopes_of};
use smv_meaning::symbols::symbols_of;
use smv_meaning::table::{InstanceTable, instance_table};
use smv_names::known::{ModuleScope, Resolver, declared_in};
use smv_names::rows::RowsByModule;
use std::alloc::Global;

/// Whether the change is an IMPOSE.
pub fn is_impose(change: &Change) -> bool
    ensures { result ≡ is_impose change.now }
{
    match &change.action {
        Action::Impose { .. } => true,
        Action::Treat { .. } => false,
    }
}

/// Whether all changes are IMPOSEs.
pub fn are_imposes(changes: &[Change]) -> bool
    ensures { result ≡ list_all is_impose changes.now }
{
    for change in changes {
        if !is_impose(change) {
            return false;
        }
    }
    true
}

/// The first missing name of the change in its module.
fn missing_in_its_module(
    alloc: Global,
    lookups: &Lookups,
    change: &Change,
) -> Result<Option<MissingName>, NoMemory>
    requires { AreLookups lookups.now }
    ensures { IfOk result (λ found. found ≡ missing_in_module (program_of lookups.now) change.now) }
{
    let resolver = lookups.resolver;
    let called = change.module.as_str();
    let declared = declared_in(
        alloc,
        resolver.program,
        lookups.scopes,
        lookups.numbers,
        called,
    )?;
    let module_scope = ModuleScope {
        known: resolver,
        called: &change.module,
        declared: &declared,
        rows: resolver.rows.of_module(called),
    };
    missing_in_scope(alloc, &module_scope, change)
}

/// The same, where a module is at hand, which may be that of the change.
fn missing_near(
    alloc: Global,
    lookups: &Lookups,
    near: &ModuleScope,
    change: &Change,
) -> Result<Option<MissingName>, NoMemory>
    requires lookups { AreLookups lookups.now }
    requires near { IsModuleScope near.now }
    requires program { scope_program near.now ≡ program_of lookups.now }
    ensures { IfOk result (λ found. found ≡ missing_in_module (program_of lookups.now) change.now) }
{
    if change.module.is(near.called.as_str()) {
        return missing_in_scope(alloc, near, change);
    }
    missing_in_its_module(alloc, lookups, change)
}

/// The first missing name of the change, by tables of the model.
fn first_missing_by(
    alloc: Global,
    lookups: &Lookups,
    near: &ModuleScope,
    change: &Change,
) -> Result<Option<MissingName>, NoMemory>
    requires lookups { AreLookups lookups.now }
    requires near { IsModuleScope near.now }
    requires program { scope_program near.now ≡ program_of lookups.now }
    ensures { IfOk result (λ found. found ≡ first_missing (program_of lookups.now) change.now) }
{
    match lookups.missing_module(alloc, &change.module, change.at)? {
        Some(missing) => Ok(Some(missing)),
        None => missing_near(alloc, lookups, near, change),
    }
}

/// The first missing name of the change in a model with the names of that of the tables.
fn first_missing_like(
    alloc: Global,
    lookups: &Lookups,
    near: &ModuleScope,
    program: &Program,
    change: &Change,
) -> Result<Option<MissingName>, NoMemory>
    requires lookups { AreLookups lookups.now }
    requires near { IsModuleScope near.now }
    requires program { scope_program near.now ≡ program_of lookups.now }
    requires same { HaveSameNames program.now (program_of lookups.now) }
    ensures { IfOk result (λ found. found ≡ first_missing program.now change.now) }
{
    let found = first_missing_by(alloc, lookups, near, change)?;
    Ok(found)
}

/// The model with the IMPOSE applied; its names are judged by the tables of a model with the same
/// names.
fn apply_impose(
    alloc: Global,
    feature: &Text,
    product: Product,
    lookups: &Lookups,
    near: &ModuleScope,
    program: Program,
    change: &Change,
) -> Result<Program, Fault>
    requires lookups { AreLookups lookups.now }
    requires near { IsModuleScope near.now }
    requires program { scope_program near.now ≡ program_of lookups.now }
    requires same { HaveSameNames program (program_of lookups.now) }
    ensures { Answers (spec.changed feature.now product program change.now) result }
{
    match first_missing_like(alloc, lookups, near, &program, change)? {
        Some(missing) => Err(missing_fault(alloc, feature, product, missing)?),
        None => act(alloc, program, change),
    }
}

fn impose_all(
    alloc: Global,
    feature: &Text,
    product: Product,
    lookups: &Lookups,
    near: &ModuleScope,
    program: Program,
    changes: &[Change],
) -> Result<Program, Fault>
    requires lookups { AreLookups lookups.now }
    requires near { IsModuleScope near.now }
    requires program { scope_program near.now ≡ program_of lookups.now }
    requires same { HaveSameNames program (program_of lookups.now) }
    requires imposes { list_all is_impose changes.now ≡ true }
    ensures { Answers (spec.all_changed feature.now product program changes.now) result }
{
    let mut program = program;
    for change in changes {
        match apply_impose(alloc, feature, product, lookups, near, program, change) {
            Ok(next) => program = next,
            Err(fault) => return Err(fault),
        }
    }
    Ok(program)
}

/// The same, with the module of one change at hand.
fn impose_near(
    alloc: Global,
    feature: &Text,
    product: Product,
    lookups: &Lookups,
    called: &Text,
    program: Program,
    changes: &[Change],
) -> Result<Program, Fault>
    requires lookups { AreLookups lookups.now }
    requires same { HaveSameNames program (program_of lookups.now) }
    requires imposes { list_all is_impose changes.now ≡ true }
    ensures { Answers (spec.all_changed feature.now product program changes.now) result }
{
    let resolver = lookups.resolver;
    let declared = declared_in(
        alloc,
        resolver.program,
        lookups.scopes,
        lookups.numbers,
        called.as_str(),
    )?;
    let near = ModuleScope {
        known: resolver,
        called,
        declared: &declared,
        rows: resolver.rows.of_module(called.as_str()),
    };
    impose_all(alloc, feature, product, lookups, &near, program, changes)
}

/// The same, with the module of the first change at hand.
fn impose_listed(
    alloc: Global,
    feature: &Text,
    product: Product,
    lookups: &Lookups,
    program: Program,
    changes: &[Change],
) -> Result<Program, Fault>
    requires lookups { AreLookups lookups.now }
    requires same { HaveSameNames program (program_of lookups.now) }
    requires imposes { list_all is_impose changes.now ≡ true }
    ensures { Answers (spec.all_changed feature.now product program changes.now) result }
{
    match changes {
        [first, ..] => impose_near(
            alloc,
            feature,
            product,
            lookups,
            &first.module,
            program,
            changes,
        ),
        [] => Ok(program),
    }
}

fn impose_in_table(
    alloc: Global,
    feature: &Text,
    product: Product,
    known: &Program,
    scopes: &[Scope],
    table: &InstanceTable,
    program: Program,
    changes: &[Change],
) -> Result<Program, Fault>
    requires scopes { map scope_view scopes.now ≡ scopes_of_program known.now }
    requires right { IsTableOfProgram known.now table.now }
    requires same { HaveSameNames program known.now }
    requires imposes { list_all is_impose changes.now ≡ true }
    ensures { Answers (spec.all_changed feature.now product program changes.now) result }
{
    let aliases = aliases_of(alloc, table)?;
    let rows_by_module = RowsByModule::of_program(alloc, known, table)?;
    let symbols = symbols_of(alloc, known)?;
    let numbers = modules_by_name(alloc, scopes)?;
    let modules = module_set(alloc, known)?;
    let resolver = Resolver {
        program: known,
        table,
        aliases: aliases.as_slice(),
        rows: &rows_by_module,
        symbols: &symbols,
    };
    let lookups = Lookups {
        resolver: &resolver,
        scopes,
        numbers: &numbers,
        modules: &modules,
    };
    impose_listed(alloc, feature, product, &lookups, program, changes)
}

fn impose_in_scopes(
    alloc: Global,
    feature: &Text,
    product: Product,
    known: &Program,
    scopes: &[Scope],
    program: Program,
    changes: &[Change],
) -> Result<Program, Fault>
    requires scopes { map scope_view scopes.now ≡ scopes_of_program known.now }
    requires same { HaveSameNames program known.now }
    requires imposes { list_all is_impose changes.now ≡ true }
    ensures { Answers (spec.all_changed feature.now product program changes.now) result }
{
    match instance_table(alloc, known, scopes, usize::MAX)? {
        Some(table) => impose_in_table(
            alloc, feature, product, known, scopes, &table, program, changes,
        ),
        // No table in memory has that many instances.
        None => Err(Fault::NoMemory),
    }
}

/// The model with the IMPOSEs applied in order. The tables are those of a copy of the model, which
/// stays as it is.
pub fn apply_imposes(
    alloc: Global,
    feature: &Text,
    product: Product,
    program: Program,
    changes: &[Change],
) -> Result<Program, Fault>
    requires { list_all is_impose changes.now ≡ true }
    ensures { Answers (spec.all_changed feature.now product program changes.now) result }
{
    let known = copy_program(alloc, &program)?;
    let scopes = scopes_of(alloc, &known)?;
    impose_in_scopes(
        alloc,
        feature,
        product,
        &known,
        scopes.as_slice(),
        program,
        changes,
    )
}
