//! The base of a family, with the features' variables in reach of each module.

ghost use Rattle.std.specs.Prelude.{◌≡◌, ◌++◌, IfOk, OnOk, map};
ghost use Rattle.fsmv_lift.specs.LiftedBase as spec;

use crate::names::{ADDED_AT, FEATURES_INSTANCE, FEATURES_MODULE, features_actual};
use integrate_impose::copies::copy_names;
use integrate_impose::lists::reversed;
use integrate_impose::section_copies::copy_sections;
use smv_ast::{Declaration, Declared, Expr, List, Module, NoMemory, Program, Section, Text};
use std::alloc::Global;

/// Whether it is the name of the root module.
fn is_main(called: &Text) -> bool
    ensures { result ≡ spec.is_main called.now }
{
    called.as_str() == "main"
}

/// The actuals of an instance, `fsmv_fm` before its own; an instance of `main` has its own alone.
fn passed_actuals(alloc: Global, called: &Text, actuals: List<Expr>) -> Result<List<Expr>, NoMemory>
    ensures { IfOk result (λ passed. passed ≡ spec.passed_actuals called.now actuals) }
{
    if is_main(called) {
        return Ok(actuals);
    }
    let mut passed = List::new(alloc);
    passed.push(features_actual(alloc)?)?;
    passed.append(actuals)?;
    Ok(passed)
}

/// What is declared; an instance passes `fsmv_fm` on.
fn passed_on(alloc: Global, what: Declared) -> Result<Declared, NoMemory>
    ensures { IfOk result (λ passed. passed ≡ spec.passed_on what) }
{
    match what {
        Declared::Plain(values) => Ok(Declared::Plain(values)),
        Declared::Instance { module, actuals } => {
            let actuals = passed_actuals(alloc, &module, actuals)?;
            Ok(Declared::Instance { module, actuals })
        }
    }
}

fn lifted_declaration(alloc: Global, declaration: Declaration) -> Result<Declaration, NoMemory>
    ensures { IfOk result (λ lifted. lifted ≡ spec.lifted_declaration declaration) }
{
    let Declaration { name, what, at } = declaration;
    let what = passed_on(alloc, what)?;
    Ok(Declaration { name, what, at })
}

fn lifted_declarations(
    alloc: Global,
    declarations: List<Declaration>,
) -> Result<List<Declaration>, NoMemory>
    ensures { IfOk result (λ lifted. lifted ≡ map spec.lifted_declaration declarations) }
{
    let mut waiting = reversed(alloc, declarations)?;
    let mut lifted = List::new(alloc);
    for _round in 0..waiting.len() {
        if let Some(declaration) = waiting.pop() {
            lifted.push(lifted_declaration(alloc, declaration)?)?;
        }
    }
    Ok(lifted)
}

/// The section, whose instances pass `fsmv_fm` on.
fn lifted_section(alloc: Global, section: Section) -> Result<Section, NoMemory>
    ensures { IfOk result (λ lifted. lifted ≡ spec.lifted_section section) }
{
    match section {
        Section::Vars(declarations) => {
            Ok(Section::Vars(lifted_declarations(alloc, declarations)?))
        }
        other => Ok(other),
    }
}

/// `VAR fsmv_fm : fsmv_features;`.
fn features_section(alloc: Global) -> Result<Section, NoMemory>
    ensures { IfOk result (λ section. section ≡ spec.features_section) }
{
    let mut declarations = List::new(alloc);
    declarations.push(Declaration {
        name: Text::from_str(alloc, FEATURES_INSTANCE)?,
        what: Declared::Instance {
            module: Text::from_str(alloc, FEATURES_MODULE)?,
            actuals: List::new(alloc),
        },
        at: ADDED_AT,
    })?;
    Ok(Section::Vars(declarations))
}

/// Appends the sections, whose instances pass `fsmv_fm` on.
fn push_lifted(
    alloc: Global,
    lifted: &mut List<Section>,
    sections: List<Section>,
) -> Result<(), NoMemory>
    ensures { OnOk result (lifted.new ≡ lifted.old ++ map spec.lifted_section sections) }
{
    let mut waiting = reversed(alloc, sections)?;
    for _round in 0..waiting.len() {
        if let Some(section) = waiting.pop() {
            lifted.push(lifted_section(alloc, section)?)?;
        }
    }
    Ok(())
}

/// A copy of the sections of a module, lifted; those of `main` begin with the instance of the features.
fn lifted_sections(alloc: Global, owner: &Module) -> Result<List<Section>, NoMemory>
    ensures { IfOk result (λ lifted. lifted ≡ spec.lifted_sections owner.now) }
{
    let mut lifted = List::new(alloc);
    if is_main(&owner.name) {
        lifted.push(features_section(alloc)?)?;
    }
    let sections = copy_sections(alloc, owner.sections.as_slice())?;
    push_lifted(alloc, &mut lifted, sections)?;
    Ok(lifted)
}

/// The formals of a module, `fsmv_fm` before its own; `main` has its own alone.
fn lifted_formals(alloc: Global, owner: &Module) -> Result<List<Text>, NoMemory>
    ensures { IfOk result (λ formals. formals ≡ spec.lifted_formals owner.now) }
{
    if is_main(&owner.name) {
        return copy_names(alloc, owner.formals.as_slice());
    }
    let mut formals = List::new(alloc);
    formals.push(Text::from_str(alloc, FEATURES_INSTANCE)?)?;
    formals.append(copy_names(alloc, owner.formals.as_slice())?)?;
    Ok(formals)
}

fn lifted_module(alloc: Global, owner: &Module) -> Result<Module, NoMemory>
    ensures { IfOk result (λ lifted. lifted ≡ spec.lifted_module owner.now) }
{
    Ok(Module {
        name: owner.name.try_clone(alloc)?,
        formals: lifted_formals(alloc, owner)?,
        sections: lifted_sections(alloc, owner)?,
        at: owner.at,
    })
}

/// A copy of the base, with the features' variables in reach of each module: `main` has the instance
/// `fsmv_fm`, each other module takes it as its first formal, and each instance of another module
/// passes it on.
pub fn lifted_base(alloc: Global, base: &Program) -> Result<Program, NoMemory>
    ensures { IfOk result (λ lifted. lifted ≡ spec.lifted_base base.now) }
{
    let mut modules = List::new(alloc);
    for owner in base.modules.as_slice() {
        modules.push(lifted_module(alloc, owner)?)?;
    }
    Ok(Program { modules })
}
