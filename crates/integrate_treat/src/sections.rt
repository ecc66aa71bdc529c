//! A TREAT in the sections of a module.

ghost use Rattle.std.specs.Prelude.{◌≡◌, IfOk, map};
ghost use Rattle.integrate_treat.specs.TreatedModel as spec;

use crate::expressions::{Treatment, treat_expr, treat_exprs};
use integrate_impose::lists::reversed;
use smv_ast::{Assignment, Declaration, Declared, Definition, List, Module, NoMemory, Section};
use std::alloc::Global;

fn treat_declared(alloc: Global, t: &Treatment, what: Declared) -> Result<Declared, NoMemory>
    ensures { IfOk result (λ treated. treated ≡ spec.treated_declared t.now what) }
{
    match what {
        Declared::Plain(values) => Ok(Declared::Plain(values)),
        Declared::Instance { module, actuals } => {
            let actuals = treat_exprs(alloc, t, actuals.as_slice())?;
            Ok(Declared::Instance { module, actuals })
        }
    }
}

fn treat_declaration(
    alloc: Global,
    t: &Treatment,
    declaration: Declaration,
) -> Result<Declaration, NoMemory>
    ensures { IfOk result (λ treated. treated ≡ spec.treated_declaration t.now declaration) }
{
    let Declaration { name, what, at } = declaration;
    let what = treat_declared(alloc, t, what)?;
    Ok(Declaration { name, what, at })
}

fn treat_assignment(
    alloc: Global,
    t: &Treatment,
    assignment: Assignment,
) -> Result<Assignment, NoMemory>
    ensures { IfOk result (λ treated. treated ≡ spec.treated_assignment t.now assignment) }
{
    let Assignment {
        left,
        name,
        right,
        at,
    } = assignment;
    let right = treat_expr(alloc, t, &right)?;
    Ok(Assignment {
        left,
        name,
        right,
        at,
    })
}

fn treat_definition(
    alloc: Global,
    t: &Treatment,
    definition: Definition,
) -> Result<Definition, NoMemory>
    ensures { IfOk result (λ treated. treated ≡ spec.treated_definition t.now definition) }
{
    let Definition { name, right, at } = definition;
    Ok(Definition {
        name,
        right: treat_expr(alloc, t, &right)?,
        at,
    })
}

fn treat_declarations(
    alloc: Global,
    t: &Treatment,
    declarations: List<Declaration>,
) -> Result<List<Declaration>, NoMemory>
    ensures { IfOk result (λ treated. treated
        ≡ map (spec.treated_declaration t.now) declarations) }
{
    let mut waiting = reversed(alloc, declarations)?;
    let mut treated = List::new(alloc);
    for _round in 0..waiting.len() {
        if let Some(declaration) = waiting.pop() {
            treated.push(treat_declaration(alloc, t, declaration)?)?;
        }
    }
    Ok(treated)
}

fn treat_assignments(
    alloc: Global,
    t: &Treatment,
    assignments: List<Assignment>,
) -> Result<List<Assignment>, NoMemory>
    ensures { IfOk result (λ treated. treated ≡ map (spec.treated_assignment t.now) assignments) }
{
    let mut waiting = reversed(alloc, assignments)?;
    let mut treated = List::new(alloc);
    for _round in 0..waiting.len() {
        if let Some(assignment) = waiting.pop() {
            treated.push(treat_assignment(alloc, t, assignment)?)?;
        }
    }
    Ok(treated)
}

fn treat_definitions(
    alloc: Global,
    t: &Treatment,
    definitions: List<Definition>,
) -> Result<List<Definition>, NoMemory>
    ensures { IfOk result (λ treated. treated ≡ map (spec.treated_definition t.now) definitions) }
{
    let mut waiting = reversed(alloc, definitions)?;
    let mut treated = List::new(alloc);
    for _round in 0..waiting.len() {
        if let Some(definition) = waiting.pop() {
            treated.push(treat_definition(alloc, t, definition)?)?;
        }
    }
    Ok(treated)
}

fn treat_section(alloc: Global, t: &Treatment, section: Section) -> Result<Section, NoMemory>
    ensures { IfOk result (λ treated. treated ≡ spec.treated_section t.now section) }
{
    match section {
        Section::Vars(declarations) => {
            Ok(Section::Vars(treat_declarations(alloc, t, declarations)?))
        }
        Section::Assigns(assignments) => {
            Ok(Section::Assigns(treat_assignments(alloc, t, assignments)?))
        }
        Section::Defines(definitions) => {
            Ok(Section::Defines(treat_definitions(alloc, t, definitions)?))
        }
        Section::Init(e, at) => Ok(Section::Init(treat_expr(alloc, t, &e)?, at)),
        Section::Invar(e, at) => Ok(Section::Invar(treat_expr(alloc, t, &e)?, at)),
        Section::Trans(e, at) => Ok(Section::Trans(treat_expr(alloc, t, &e)?, at)),
        Section::InvarSpec(e, at) => Ok(Section::InvarSpec(e, at)),
    }
}

fn treat_sections(
    alloc: Global,
    t: &Treatment,
    sections: List<Section>,
) -> Result<List<Section>, NoMemory>
    ensures { IfOk result (λ treated. treated ≡ map (spec.treated_section t.now) sections) }
{
    let mut waiting = reversed(alloc, sections)?;
    let mut treated = List::new(alloc);
    for _round in 0..waiting.len() {
        if let Some(section) = waiting.pop() {
            treated.push(treat_section(alloc, t, section)?)?;
        }
    }
    Ok(treated)
}

/// The module with each occurrence of the path replaced.
pub fn treat_module(alloc: Global, t: &Treatment, owner: Module) -> Result<Module, NoMemory>
    ensures { IfOk result (λ treated. treated ≡ spec.treated_module t.now owner) }
{
    let Module {
        name,
        formals,
        sections,
        at,
    } = owner;
    let sections = treat_sections(alloc, t, sections)?;
    Ok(Module {
        name,
        formals,
        sections,
        at,
    })
}
