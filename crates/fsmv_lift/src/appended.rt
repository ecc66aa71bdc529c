//! Joined parts appended to the modules of a model.

ghost use Rattle.std.specs.Prelude.{◌≡◌, IfOk};
ghost use Rattle.integrate.specs.Joined as spec;

use integrate_impose::lists::{reversed, take_at};
use integrate_impose::modules::index_of_module;
use smv_ast::{Joined, List, Module, NoMemory, Program, Section};
use std::alloc::Global;

/// The module with the sections at its end.
fn with_sections(owner: Module, more: List<Section>) -> Result<Module, NoMemory>
    ensures { IfOk result (λ m. m ≡ spec.with_sections more owner) }
{
    let Module {
        name,
        formals,
        mut sections,
        at,
    } = owner;
    sections.append(more)?;
    Ok(Module {
        name,
        formals,
        sections,
        at,
    })
}

/// The model with the joined part at the end of its first module of that name; unchanged where it has
/// no such module.
#[tactic(auto, using(integrate_impose::proofs::ListLemmas::change_first_none, integrate_impose::proofs::ListLemmas::first_index_below))]
pub fn with_part(alloc: Global, program: Program, part: Joined) -> Result<Program, NoMemory>
    ensures { IfOk result (λ p. p ≡ spec.with_part program part) }
{
    let Program { mut modules } = program;
    let Joined {
        module,
        sections,
        ..
    } = part;
    let found = index_of_module(module.as_str(), modules.as_slice());
    let Some(at) = found else {
        return Ok(Program { modules });
    };
    let (owner, after_it) = take_at(alloc, &mut modules, at)?;
    modules.push(with_sections(owner, sections)?)?;
    modules.append(after_it)?;
    Ok(Program { modules })
}

/// The model with the joined parts appended in order.
pub fn with_parts(alloc: Global, program: Program, parts: List<Joined>) -> Result<Program, NoMemory>
    ensures { IfOk result (λ p. p ≡ spec.joined program parts) }
{
    let mut program = program;
    let mut waiting = reversed(alloc, parts)?;
    for _round in 0..waiting.len() {
        if let Some(part) = waiting.pop() {
            program = with_part(alloc, program, part)?;
        }
    }
    Ok(program)
}
