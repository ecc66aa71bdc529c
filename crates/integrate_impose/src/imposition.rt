//! An IMPOSE on a module, and on a model.

ghost use Rattle.std.specs.Prelude.{◌≡◌, IfOk, Some};
ghost use Rattle.std.specs.List.{list_any};
ghost use Rattle.integrate_impose.specs.Lists.{first_index};
ghost use Rattle.integrate_impose.specs.Answers.{Answers};
ghost use Rattle.integrate_impose.specs.Impose as spec;

use crate::assignments::{
    Imposed, added_assignment, guard_in_section, index_of_section, with_assignment,
};
use crate::copies::copy_expr;
use crate::lists::take_at;
use crate::modules::{index_of_module, module_named};
use crate::types::type_of;
use crate::values::all_values;
use smv_ast::{Choice, Expr, Fault, Left, Module, NoMemory, Program, Section, Span, Text};
use std::alloc::Global;

/// The module with its assignment in the section at `at` guarded.
fn guard_in(alloc: Global, owner: Module, imposed: Imposed, at: usize) -> Result<Module, NoMemory>
    requires { first_index (spec.assigns imposed.left imposed.name) owner.sections ≡ Some at }
    ensures { IfOk result (λ m. m ≡ spec.with_guard imposed owner) }
{
    let Module {
        name,
        formals,
        sections,
        at: span,
    } = owner;
    Ok(Module {
        name,
        formals,
        sections: guard_in_section(alloc, sections, imposed, at)?,
        at: span,
    })
}

/// All values of the variable, if the module declares one.
fn values_of(alloc: Global, imposed: &Imposed, owner: &Module) -> Result<Option<Choice>, NoMemory>
    ensures { IfOk result (λ values. values ≡ spec.values_of imposed.now owner.now) }
{
    match type_of(imposed.name.as_str(), owner) {
        Some(values) => Ok(Some(all_values(alloc, imposed.at, values)?)),
        None => Ok(None),
    }
}

/// The module with an assignment added that allows these values where the condition is false.
fn add_values(
    alloc: Global,
    owner: Module,
    imposed: Imposed,
    values: Choice,
) -> Result<Module, NoMemory>
    ensures { IfOk result (λ m. m ≡ spec.with_added imposed owner values) }
{
    let Module {
        name,
        formals,
        sections,
        at,
    } = owner;
    let assignment = added_assignment(alloc, imposed, values)?;
    Ok(Module {
        name,
        formals,
        sections: with_assignment(alloc, sections, assignment)?,
        at,
    })
}

/// The module with an assignment of all values added; unchanged where it declares no such variable.
fn add_in(alloc: Global, owner: Module, imposed: Imposed) -> Result<Module, NoMemory>
    ensures { IfOk result (λ m. m ≡ spec.with_new imposed owner (spec.values_of imposed owner)) }
{
    match values_of(alloc, &imposed, &owner)? {
        Some(values) => add_values(alloc, owner, imposed, values),
        None => Ok(owner),
    }
}

fn impose_in(alloc: Global, owner: Module, imposed: Imposed) -> Result<Module, NoMemory>
    ensures { IfOk result (λ m. m ≡ spec.imposed_in imposed owner) }
{
    match index_of_section(imposed.left, &imposed.name, owner.sections.as_slice()) {
        Some(at) => guard_in(alloc, owner, imposed, at),
        None => add_in(alloc, owner, imposed),
    }
}

/// The model with the IMPOSE applied to its first module of this name.
#[tactic(auto, using(crate::proofs::ListLemmas::change_first_none, crate::proofs::ListLemmas::first_index_below))]
fn impose_model(
    alloc: Global,
    program: Program,
    called: &str,
    imposed: Imposed,
) -> Result<Program, NoMemory>
    ensures { IfOk result (λ p. p ≡ spec.imposed_model imposed called.now program) }
{
    let Program { mut modules } = program;
    let found = index_of_module(called, modules.as_slice());
    let Some(at) = found else {
        return Ok(Program { modules });
    };
    let (owner, after_it) = take_at(alloc, &mut modules, at)?;
    modules.push(impose_in(alloc, owner, imposed)?)?;
    modules.append(after_it)?;
    Ok(Program { modules })
}

/// Whether the sections have an assignment `name := ..`.
#[tactic(auto, using(crate::proofs::ListLemmas::is_some_first_index))]
fn assigns_always(name: &Text, sections: &[Section]) -> bool
    ensures { result ≡ list_any (spec.assigns Left.Now name.now) sections.now }
{
    index_of_section(Left::Now, name, sections).is_some()
}

/// Whether an IMPOSE of this form fits the existing assignments.
fn fits_assignments(left: Left, name: &Text, sections: &[Section]) -> bool
    ensures { result ≡ spec.fits_assignments left name.now sections.now }
{
    match left {
        Left::Now => assigns_always(name, sections),
        Left::Init => !assigns_always(name, sections),
        Left::Next => !assigns_always(name, sections),
    }
}

fn target_fault(alloc: Global, imposed: &Imposed) -> Result<Fault, NoMemory>
    ensures { IfOk result (λ f. f ≡ spec.target_fault imposed.now) }
{
    Ok(Fault::ImposeTarget {
        at: Some(imposed.at),
        name: imposed.name.try_clone(alloc)?,
    })
}

fn kind_fault(alloc: Global, imposed: &Imposed) -> Result<Fault, NoMemory>
    ensures { IfOk result (λ f. f ≡ spec.kind_fault imposed.now) }
{
    Ok(Fault::ImposeKind {
        at: Some(imposed.at),
        name: imposed.name.try_clone(alloc)?,
    })
}

fn fault_in_module(
    alloc: Global,
    imposed: &Imposed,
    owner: &Module,
) -> Result<Option<Fault>, NoMemory>
    ensures { IfOk result (λ f. f ≡ spec.fault_in_module imposed.now owner.now) }
{
    if type_of(imposed.name.as_str(), owner).is_none() {
        return Ok(Some(target_fault(alloc, imposed)?));
    }
    if fits_assignments(imposed.left, &imposed.name, owner.sections.as_slice()) {
        return Ok(None);
    }
    Ok(Some(kind_fault(alloc, imposed)?))
}

/// The reason for which the IMPOSE cannot be applied, if there is one.
fn impose_fault(
    alloc: Global,
    imposed: &Imposed,
    called: &str,
    program: &Program,
) -> Result<Option<Fault>, NoMemory>
    ensures { IfOk result (λ f. f ≡ spec.impose_fault imposed.now called.now program.now) }
{
    match module_named(called, program.modules.as_slice()) {
        Some(owner) => fault_in_module(alloc, imposed, owner),
        None => Ok(Some(target_fault(alloc, imposed)?)),
    }
}

fn try_impose(
    alloc: Global,
    program: Program,
    called: &str,
    imposed: Imposed,
) -> Result<Program, Fault>
    ensures { Answers (spec.imposed imposed called.now program) result }
{
    match impose_fault(alloc, &imposed, called, &program)? {
        Some(fault) => Err(fault),
        None => Ok(impose_model(alloc, program, called, imposed)?),
    }
}

/// The model with `IF cond THEN IMPOSE left(name) := right` applied to its first module of the name
/// `module`. The model is consumed; `at` is the span of the change and of an added assignment.
///
/// The first assignment of the left side is guarded. Without one, an assignment that allows all
/// values of the type where the condition is false is added to the last ASSIGN section, or to a new
/// one. ImposeTarget where the module declares no variable of that name with a type; ImposeKind
/// where an IMPOSE of `x` finds no assignment `x :=`, or one of `init(x)` or `next(x)` finds one.
pub fn impose(
    alloc: Global,
    program: Program,
    module: &str,
    cond: &Expr,
    left: Left,
    name: &str,
    right: &Expr,
    at: Span,
) -> Result<Program, Fault>
    ensures { Answers
        (spec.imposed (spec.imposition cond.now left name.now right.now at) «module».now program)
        result }
{
    let imposed = Imposed {
        cond: copy_expr(alloc, cond)?,
        left,
        name: Text::from_str(alloc, name)?,
        right: copy_expr(alloc, right)?,
        at,
    };
    try_impose(alloc, program, module, imposed)
}
