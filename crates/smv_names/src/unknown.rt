//! Unknown paths and left sides.

ghost use Rattle.std.specs.Prelude.{◌≡◌, IfOk};
ghost use Rattle.smv_meaning.specs.Items.{item_view, items_view};
ghost use Rattle.smv_meaning.specs.Mentions.{pointed};
ghost use Rattle.smv_meaning.specs.Runs.{first_fault, path_text as joined_names};
ghost use Rattle.smv_names.specs.Unknown as spec;

use crate::known::{ModuleScope, is_known};
use smv_ast::{Expr, Fault, NoMemory, Path, Span, Text, print_joined};
use smv_meaning::items::Item;
use smv_meaning::mentions::push_paths;
use std::alloc::Global;

/// The names of a path, joined by dots.
fn path_text(alloc: Global, path: &Path) -> Result<Text, NoMemory>
    ensures { IfOk result (λ text. text ≡ joined_names path.now.names) }
{
    let mut out = String::new(alloc);
    print_joined(&mut out, ".", path.names.as_slice())?;
    Text::from_str(alloc, out.as_str())
}

fn unknown_path(
    alloc: Global,
    module_scope: &ModuleScope,
    path: &Path,
) -> Result<Option<Fault>, NoMemory>
    requires { spec.IsModuleScope module_scope.now }
    ensures { IfOk result (λ fault. fault ≡ spec.unknown_path (spec.scope_program module_scope.now)
        module_scope.now.called.now path.now) }
{
    let names = path.names.as_slice();
    if is_known(module_scope, names) {
        return Ok(None);
    }
    Ok(Some(Fault::UnknownName {
        at: Some(path.at),
        path: path_text(alloc, path)?,
    }))
}

fn unknown_among(
    alloc: Global,
    module_scope: &ModuleScope,
    paths: &[&Path],
) -> Result<Option<Fault>, NoMemory>
    requires { spec.IsModuleScope module_scope.now }
    ensures { IfOk result (λ fault. fault ≡ first_fault
        (spec.unknown_path (spec.scope_program module_scope.now) module_scope.now.called.now)
        (pointed paths.now)) }
{
    for path in paths {
        match unknown_path(alloc, module_scope, path)? {
            Some(fault) => return Ok(Some(fault)),
            None => {}
        }
    }
    Ok(None)
}

/// The first unknown path of an expression.
fn unknown_in(
    alloc: Global,
    module_scope: &ModuleScope,
    e: &Expr,
) -> Result<Option<Fault>, NoMemory>
    requires { spec.IsModuleScope module_scope.now }
    ensures { IfOk result (λ fault. fault ≡ spec.unknown_in (spec.scope_program module_scope.now)
        module_scope.now.called.now e.now) }
{
    let mut paths = Vec::new(alloc);
    push_paths(&mut paths, e)?;
    unknown_among(alloc, module_scope, paths.as_slice())
}

/// The first unknown path of these expressions.
fn unknown_within(
    alloc: Global,
    module_scope: &ModuleScope,
    exprs: &[Expr],
) -> Result<Option<Fault>, NoMemory>
    requires { spec.IsModuleScope module_scope.now }
    ensures { IfOk result (λ fault. fault ≡ first_fault
        (spec.unknown_in (spec.scope_program module_scope.now) module_scope.now.called.now)
        exprs.now) }
{
    for e in exprs {
        match unknown_in(alloc, module_scope, e)? {
            Some(fault) => return Ok(Some(fault)),
            None => {}
        }
    }
    Ok(None)
}

/// The fault of a left side that the module does not declare.
fn unknown_left(
    alloc: Global,
    module_scope: &ModuleScope,
    at: Span,
    name: &Text,
) -> Result<Option<Fault>, NoMemory>
    requires { spec.IsModuleScope module_scope.now }
    ensures { IfOk result (λ fault. fault ≡ spec.unknown_left (spec.scope_program module_scope.now)
        module_scope.now.called.now at name.now) }
{
    if module_scope.declared.contains(name.as_str()) {
        return Ok(None);
    }
    Ok(Some(Fault::UnknownName {
        at: Some(at),
        path: name.try_clone(alloc)?,
    }))
}

fn unknown_target(
    alloc: Global,
    module_scope: &ModuleScope,
    item: Item,
) -> Result<Option<Fault>, NoMemory>
    requires { spec.IsModuleScope module_scope.now }
    ensures { IfOk result (λ fault. fault
        ≡ spec.unknown_target (spec.scope_program module_scope.now) module_scope.now.called.now
        (item_view item.entry)) }
{
    match item {
        Item::Assignment(assignment) => {
            unknown_left(alloc, module_scope, assignment.at, &assignment.name)
        }
        _ => Ok(None),
    }
}

/// The first unknown name of an item, a left side before the paths of its expressions.
fn unknown_name(
    alloc: Global,
    module_scope: &ModuleScope,
    item: Item,
) -> Result<Option<Fault>, NoMemory>
    requires { spec.IsModuleScope module_scope.now }
    ensures { IfOk result (λ fault. fault
        ≡ spec.unknown_name (spec.scope_program module_scope.now) module_scope.now.called.now
        (item_view item.entry)) }
{
    match unknown_target(alloc, module_scope, item)? {
        Some(fault) => Ok(Some(fault)),
        None => unknown_within(alloc, module_scope, item.exprs()),
    }
}

/// The first unknown path or left side of these items.
pub fn first_unknown(
    alloc: Global,
    module_scope: &ModuleScope,
    items: &[Item],
) -> Result<Option<Fault>, NoMemory>
    requires { spec.IsModuleScope module_scope.now }
    ensures { IfOk result (λ fault. fault ≡ first_fault
        (spec.unknown_name (spec.scope_program module_scope.now) module_scope.now.called.now)
        (items_view items.now)) }
{
    for item in items {
        match unknown_name(alloc, module_scope, *item)? {
            Some(fault) => return Ok(Some(fault)),
            None => {}
        }
    }
    Ok(None)
}
