//! Copies of sections, of modules and of whole models, spans included.

ghost use Rattle.std.specs.Prelude.{◌≡◌, IfOk};

use crate::copies::{copy_expr, copy_exprs, copy_names};
use smv_ast::{
    Assignment, Declaration, Declared, Definition, List, Module, NoMemory, Program, Section,
    SmvType,
};
use std::alloc::Global;

/// A copy of the type.
pub fn copy_type(alloc: Global, values: &SmvType) -> Result<SmvType, NoMemory>
    ensures { IfOk result (λ copy. copy ≡ values.now) }
{
    match values {
        SmvType::Boolean => Ok(SmvType::Boolean),
        SmvType::Range { low, high } => Ok(SmvType::Range {
            low: *low,
            high: *high,
        }),
        SmvType::Numbers(numbers) => {
            Ok(SmvType::Numbers(List::from_slice(alloc, numbers.as_slice())?))
        }
        SmvType::Symbols(names) => Ok(SmvType::Symbols(copy_names(alloc, names.as_slice())?)),
    }
}

fn copy_declared(alloc: Global, what: &Declared) -> Result<Declared, NoMemory>
    ensures { IfOk result (λ copy. copy ≡ what.now) }
{
    match what {
        Declared::Plain(values) => Ok(Declared::Plain(copy_type(alloc, values)?)),
        Declared::Instance { module, actuals } => Ok(Declared::Instance {
            module: module.try_clone(alloc)?,
            actuals: copy_exprs(alloc, actuals.as_slice())?,
        }),
    }
}

fn copy_declarations(
    alloc: Global,
    declarations: &[Declaration],
) -> Result<List<Declaration>, NoMemory>
    ensures { IfOk result (λ copy. copy ≡ declarations.now) }
{
    let mut copy = List::new(alloc);
    for declaration in declarations {
        copy.push(Declaration {
            name: declaration.name.try_clone(alloc)?,
            what: copy_declared(alloc, &declaration.what)?,
            at: declaration.at,
        })?;
    }
    Ok(copy)
}

fn copy_assignments(alloc: Global, assignments: &[Assignment]) -> Result<List<Assignment>, NoMemory>
    ensures { IfOk result (λ copy. copy ≡ assignments.now) }
{
    let mut copy = List::new(alloc);
    for assignment in assignments {
        copy.push(Assignment {
            left: assignment.left,
            name: assignment.name.try_clone(alloc)?,
            right: copy_expr(alloc, &assignment.right)?,
            at: assignment.at,
        })?;
    }
    Ok(copy)
}

fn copy_definitions(alloc: Global, definitions: &[Definition]) -> Result<List<Definition>, NoMemory>
    ensures { IfOk result (λ copy. copy ≡ definitions.now) }
{
    let mut copy = List::new(alloc);
    for definition in definitions {
        copy.push(Definition {
            name: definition.name.try_clone(alloc)?,
            right: copy_expr(alloc, &definition.right)?,
            at: definition.at,
        })?;
    }
    Ok(copy)
}

fn copy_section(alloc: Global, section: &Section) -> Result<Section, NoMemory>
    ensures { IfOk result (λ copy. copy ≡ section.now) }
{
    match section {
        Section::Vars(declarations) => Ok(Section::Vars(copy_declarations(
            alloc,
            declarations.as_slice(),
        )?)),
        Section::Assigns(assignments) => Ok(Section::Assigns(copy_assignments(
            alloc,
            assignments.as_slice(),
        )?)),
        Section::Defines(definitions) => Ok(Section::Defines(copy_definitions(
            alloc,
            definitions.as_slice(),
        )?)),
        Section::Init(e, at) => Ok(Section::Init(copy_expr(alloc, e)?, *at)),
        Section::Invar(e, at) => Ok(Section::Invar(copy_expr(alloc, e)?, *at)),
        Section::Trans(e, at) => Ok(Section::Trans(copy_expr(alloc, e)?, *at)),
        Section::InvarSpec(e, at) => Ok(Section::InvarSpec(copy_expr(alloc, e)?, *at)),
    }
}

/// A copy of the sections.
pub fn copy_sections(alloc: Global, sections: &[Section]) -> Result<List<Section>, NoMemory>
    ensures { IfOk result (λ copy. copy ≡ sections.now) }
{
    let mut copy = List::new(alloc);
    for section in sections {
        copy.push(copy_section(alloc, section)?)?;
    }
    Ok(copy)
}

fn copy_module(alloc: Global, owner: &Module) -> Result<Module, NoMemory>
    ensures { IfOk result (λ copy. copy ≡ owner.now) }
{
    Ok(Module {
        name: owner.name.try_clone(alloc)?,
        formals: copy_names(alloc, owner.formals.as_slice())?,
        sections: copy_sections(alloc, owner.sections.as_slice())?,
        at: owner.at,
    })
}

/// A copy of the model.
pub fn copy_program(alloc: Global, program: &Program) -> Result<Program, NoMemory>
    ensures { IfOk result (λ copy. copy ≡ program.now) }
{
    let mut modules = List::new(alloc);
    for owner in program.modules.as_slice() {
        modules.push(copy_module(alloc, owner)?)?;
    }
    Ok(Program { modules })
}
