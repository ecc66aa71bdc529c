//! Appending the joined parts of a feature.

ghost use Rattle.std.specs.Prelude.{◌≡◌, IfOk};
ghost use Rattle.integrate.specs.Joined as spec;

use integrate_impose::lists::take_at;
use integrate_impose::modules::index_of_module;
use integrate_impose::section_copies::copy_sections;
use smv_ast::{Joined, Module, NoMemory, Program, Section};
use std::alloc::Global;

/// The module with copies of the sections at its end.
fn with_sections(alloc: Global, owner: Module, more: &[Section]) -> Result<Module, NoMemory>
    ensures { IfOk result (λ m. m ≡ spec.with_sections more.now owner) }
{
    let Module {
        name,
        formals,
        mut sections,
        at,
    } = owner;
    sections.append(copy_sections(alloc, more)?)?;
    Ok(Module {
        name,
        formals,
        sections,
        at,
    })
}

/// The model with the joined part at the end of its first module of that name.
#[tactic(auto, using(integrate_impose::proofs::ListLemmas::change_first_none, integrate_impose::proofs::ListLemmas::first_index_below))]
fn with_part(alloc: Global, program: Program, part: &Joined) -> Result<Program, NoMemory>
    ensures { IfOk result (λ p. p ≡ spec.with_part program part.now) }
{
    let Program { mut modules } = program;
    let found = index_of_module(part.module.as_str(), modules.as_slice());
    let Some(at) = found else {
        return Ok(Program { modules });
    };
    let (owner, after_it) = take_at(alloc, &mut modules, at)?;
    modules.push(with_sections(alloc, owner, part.sections.as_slice())?)?;
    modules.append(after_it)?;
    Ok(Program { modules })
}

/// The model with the joined parts appended in order, each to the end of the first module of its
/// name; one of no module is left out.
pub fn with_parts(alloc: Global, program: Program, parts: &[Joined]) -> Result<Program, NoMemory>
    ensures { IfOk result (λ p. p ≡ spec.joined program parts.now) }
{
    let mut program = program;
    for part in parts {
        program = with_part(alloc, program, part)?;
    }
    Ok(program)
}
