//! The names that a change uses, and the first of them that is unknown.

ghost use Rattle.std.specs.Prelude.{◌≡◌, IfOk, map};
ghost use Rattle.std.specs.Option.{option_copied, option_map};
ghost use Rattle.smv_meaning.specs.Mentions.{pointed};
ghost use Rattle.smv_meaning.specs.Runs.{path_text};
ghost use Rattle.smv_meaning.specs.Scopes.{scope_view, scopes_of as scopes_of_program};
ghost use Rattle.smv_meaning.specs.Checking.{IsTableOfProgram};
ghost use Rattle.smv_names.specs.Unknown as unknown;
ghost use Rattle.integrate.specs.UsedNames as spec;

use integrate_impose::modules::module_named;
use smv_ast::{Action, Change, Expr, NoMemory, Path, Program, Span, Text, print_joined};
use smv_meaning::aliases::aliases_of;
use smv_meaning::mentions::push_paths;
use smv_meaning::scope::{Scope, modules_by_name, scopes_of};
use smv_meaning::symbols::symbols_of;
use smv_meaning::table::{InstanceTable, instance_table};
use smv_names::known::{ModuleScope, Resolver, declared_in, is_known};
use smv_names::rows::RowsByModule;
use std::alloc::Global;

/// A name that is used and unknown, with its span.
#[derive(Drop)]
pub struct MissingName {
    pub name: Text,
    pub at: Span,
}

fn first_unknown<'a>(module_scope: &ModuleScope, paths: &[&'a Path]) -> Option<&'a Path>
    requires { unknown.IsModuleScope module_scope.now }
    ensures { option_copied result
        ≡ spec.first_unknown (unknown.scope_program module_scope.now) module_scope.now.called.now
        (pointed paths.now) }
{
    for path in paths {
        if !is_known_in(module_scope, path) {
            return Some(path);
        }
    }
    None
}

fn is_known_in(module_scope: &ModuleScope, path: &Path) -> bool
    requires { unknown.IsModuleScope module_scope.now }
    ensures { result ≡ unknown.is_resolved (unknown.scope_program module_scope.now)
        module_scope.now.called.now path.now.names }
{
    is_known(module_scope, path.names.as_slice())
}

fn text_of_path(alloc: Global, path: &Path) -> Result<Text, NoMemory>
    ensures { IfOk result (λ text. text ≡ path_text path.now.names) }
{
    let mut out = String::new(alloc);
    print_joined(&mut out, ".", path.names.as_slice())?;
    Text::from_str(alloc, out.as_str())
}

fn missing_path(alloc: Global, path: &Path) -> Result<MissingName, NoMemory>
    ensures { IfOk result (λ missing. missing ≡ spec.missing_path path.now) }
{
    Ok(MissingName {
        name: text_of_path(alloc, path)?,
        at: path.at,
    })
}

fn missing_of_paths(
    alloc: Global,
    module_scope: &ModuleScope,
    paths: &[&Path],
) -> Result<Option<MissingName>, NoMemory>
    requires { unknown.IsModuleScope module_scope.now }
    ensures { IfOk result (λ found. found
        ≡ option_map spec.missing_path
        (spec.first_unknown (unknown.scope_program module_scope.now) module_scope.now.called.now
        (pointed paths.now))) }
{
    match first_unknown(module_scope, paths) {
        Some(path) => Ok(Some(missing_path(alloc, path)?)),
        None => Ok(None),
    }
}

/// The first name of an expression that is missing.
pub fn missing_expr(
    alloc: Global,
    module_scope: &ModuleScope,
    e: &Expr,
) -> Result<Option<MissingName>, NoMemory>
    requires { unknown.IsModuleScope module_scope.now }
    ensures { IfOk result (λ found. found
        ≡ spec.missing_expr (unknown.scope_program module_scope.now) module_scope.now.called.now
        e.now) }
{
    let mut paths = Vec::new(alloc);
    push_paths(&mut paths, e)?;
    missing_of_paths(alloc, module_scope, paths.as_slice())
}

/// Whether the module declares the name.
fn declares(module_scope: &ModuleScope, name: &Text) -> bool
    requires { unknown.IsModuleScope module_scope.now }
    ensures { result ≡ unknown.declared_in (unknown.scope_program module_scope.now)
        module_scope.now.called.now name.now }
{
    module_scope.declared.contains(name.as_str())
}

/// A target that the module does not declare.
fn missing_target(
    alloc: Global,
    module_scope: &ModuleScope,
    name: &Text,
    at: Span,
) -> Result<Option<MissingName>, NoMemory>
    requires { unknown.IsModuleScope module_scope.now }
    ensures { IfOk result (λ found. found
        ≡ spec.missing_target (unknown.scope_program module_scope.now) module_scope.now.called.now
        at name.now) }
{
    if declares(module_scope, name) {
        return Ok(None);
    }
    Ok(Some(MissingName {
        name: name.try_clone(alloc)?,
        at,
    }))
}

/// Whether a path is known in the module; a symbol is not.
fn is_known_path(module_scope: &ModuleScope, path: &[Text]) -> bool
    requires { unknown.IsModuleScope module_scope.now }
    ensures { result ≡ unknown.is_known_path (unknown.scope_program module_scope.now)
        module_scope.now.called.now path.now }
{
    if path.len() == 1 {
        return declares(module_scope, &path[0]);
    }
    is_known(module_scope, path)
}

/// A TREAT's path that is missing.
fn missing_treated(
    alloc: Global,
    module_scope: &ModuleScope,
    at: Span,
    path: &Path,
) -> Result<Option<MissingName>, NoMemory>
    requires { unknown.IsModuleScope module_scope.now }
    ensures { IfOk result (λ found. found
        ≡ spec.missing_treated (unknown.scope_program module_scope.now) module_scope.now.called.now
        at path.now.names) }
{
    if is_known_path(module_scope, path.names.as_slice()) {
        return Ok(None);
    }
    Ok(Some(MissingName {
        name: text_of_path(alloc, path)?,
        at,
    }))
}

/// The first missing name of an action, its target first.
fn missing_action(
    alloc: Global,
    module_scope: &ModuleScope,
    at: Span,
    action: &Action,
) -> Result<Option<MissingName>, NoMemory>
    requires { unknown.IsModuleScope module_scope.now }
    ensures { IfOk result (λ found. found
        ≡ spec.missing_action (unknown.scope_program module_scope.now) module_scope.now.called.now
        at action.now) }
{
    match action {
        Action::Impose { name, right, .. } => match missing_target(alloc, module_scope, name, at)? {
            Some(missing) => Ok(Some(missing)),
            None => missing_expr(alloc, module_scope, right),
        },
        Action::Treat { path, right } => match missing_treated(alloc, module_scope, at, path)? {
            Some(missing) => Ok(Some(missing)),
            None => missing_expr(alloc, module_scope, right),
        },
    }
}

/// The first missing name of a change in its module, those of its condition first.
pub fn missing_in_scope(
    alloc: Global,
    module_scope: &ModuleScope,
    change: &Change,
) -> Result<Option<MissingName>, NoMemory>
    requires module_scope { unknown.IsModuleScope module_scope.now }
    requires here { module_scope.now.called.now ≡ change.now.«module» }
    ensures { IfOk result (λ found. found
        ≡ spec.missing_in_module (unknown.scope_program module_scope.now) change.now) }
{
    match missing_expr(alloc, module_scope, &change.cond)? {
        Some(missing) => Ok(Some(missing)),
        None => missing_action(alloc, module_scope, change.at, &change.action),
    }
}

fn missing_in_table(
    alloc: Global,
    program: &Program,
    scopes: &[Scope],
    table: &InstanceTable,
    change: &Change,
) -> Result<Option<MissingName>, NoMemory>
    requires scopes { map scope_view scopes.now ≡ scopes_of_program program.now }
    requires right { IsTableOfProgram program.now table.now }
    ensures { IfOk result (λ found. found ≡ spec.missing_in_module program.now change.now) }
{
    let aliases = aliases_of(alloc, table)?;
    let rows_by_module = RowsByModule::of_program(alloc, program, table)?;
    let symbols = symbols_of(alloc, program)?;
    let numbers = modules_by_name(alloc, scopes)?;
    let name = change.module.as_str();
    let declared = declared_in(alloc, program, scopes, &numbers, name)?;
    let known = Resolver {
        program,
        table,
        aliases: aliases.as_slice(),
        rows: &rows_by_module,
        symbols: &symbols,
    };
    let module_scope = ModuleScope {
        known: &known,
        called: &change.module,
        declared: &declared,
        rows: rows_by_module.of_module(name),
    };
    missing_in_scope(alloc, &module_scope, change)
}

fn missing_in_scopes(
    alloc: Global,
    program: &Program,
    scopes: &[Scope],
    change: &Change,
) -> Result<Option<MissingName>, NoMemory>
    requires { map scope_view scopes.now ≡ scopes_of_program program.now }
    ensures { IfOk result (λ found. found ≡ spec.missing_in_module program.now change.now) }
{
    match instance_table(alloc, program, scopes, usize::MAX)? {
        Some(table) => missing_in_table(alloc, program, scopes, &table, change),
        // No table in memory has that many instances.
        None => Err(NoMemory),
    }
}

/// The first name of the change that is not known in its module, which the model has.
fn missing_in_module(
    alloc: Global,
    program: &Program,
    change: &Change,
) -> Result<Option<MissingName>, NoMemory>
    ensures { IfOk result (λ found. found ≡ spec.missing_in_module program.now change.now) }
{
    let scopes = scopes_of(alloc, program)?;
    missing_in_scopes(alloc, program, scopes.as_slice(), change)
}

/// A module that the model does not have.
fn missing_module(
    alloc: Global,
    program: &Program,
    called: &Text,
    at: Span,
) -> Result<Option<MissingName>, NoMemory>
    ensures { IfOk result (λ found. found ≡ spec.missing_module program.now called.now at) }
{
    match module_named(called.as_str(), program.modules.as_slice()) {
        Some(_) => Ok(None),
        None => Ok(Some(MissingName {
            name: called.try_clone(alloc)?,
            at,
        })),
    }
}

/// The first name of the change that is not known: its module, or a name in its module.
///
/// The only error is `NoMemory`.
pub fn first_missing(
    alloc: Global,
    program: &Program,
    change: &Change,
) -> Result<Option<MissingName>, NoMemory>
    ensures { IfOk result (λ found. found ≡ spec.first_missing program.now change.now) }
{
    match missing_module(alloc, program, &change.module, change.at)? {
        Some(missing) => Ok(Some(missing)),
        None => missing_in_module(alloc, program, change),
    }
}
