//! The owners of what features introduce into a lift.

ghost use Rattle.std.specs.Prelude.{◌≡◌, ◌++◌, ◌≤◌, map, length, IfOk, OnOk};
ghost use Rattle.fsmv_lift.specs.IntroducedTypes.{introduced_view, introduced_views};
ghost use Rattle.fsmv_lift.specs.Lift as spec;

use crate::introduced::{Introduced, introduces};
use feature_model::feature_of;
use integrate_impose::modules::module_named;
use smv_ast::{Feature, Joined, List, NoMemory, OwnedSpec, OwnedVar, Program, Section, Text};
use std::alloc::Global;

/// The number of the feature of a text; 0 where the feature model lacks it.
pub fn number_of(names: &[Text], feature: &Feature) -> u8
    requires { length names.now ≤ 256 }
    ensures { result ≡ spec.number_of names.now feature.now }
{
    match feature_of(names, &feature.name) {
        Some(number) => number as u8,
        None => 0,
    }
}

// ---- variables

fn owned_variable(alloc: Global, feature: u8, variable: &Introduced) -> Result<OwnedVar, NoMemory>
    ensures { IfOk result (λ v. v ≡ spec.owned_variable feature (introduced_view variable.now)) }
{
    Ok(OwnedVar {
        module: variable.module.try_clone(alloc)?,
        name: variable.name.try_clone(alloc)?,
        feature,
    })
}

/// Appends the variables that the feature introduces.
pub fn push_variables(
    alloc: Global,
    vars: &mut List<OwnedVar>,
    names: &[Text],
    feature: &Feature,
) -> Result<(), NoMemory>
    requires { length names.now ≤ 256 }
    ensures { OnOk result (vars.new ≡ vars.old ++ spec.variables_of names.now feature.now) }
{
    let number = number_of(names, feature);
    let variables = introduces(alloc, feature.joins.as_slice())?;
    for variable in variables.as_slice() {
        vars.push(owned_variable(alloc, number, variable)?)?;
    }
    Ok(())
}

// ---- specs

fn is_spec(section: &Section) -> bool
    ensures { result ≡ spec.is_spec section.now }
{
    match section {
        Section::InvarSpec(..) => true,
        _ => false,
    }
}

/// The number of sections of the first module of this name; 0 without one.
fn section_count(program: &Program, called: &str) -> usize
    ensures { result ≡ spec.section_count program.now called.now }
{
    match module_named(called, program.modules.as_slice()) {
        Some(owner) => owner.sections.len(),
        None => 0,
    }
}

/// Appends the specs among sections that are appended to a module, which has had `count` sections.
fn push_section_specs(
    alloc: Global,
    specs: &mut List<OwnedSpec>,
    number: u8,
    called: &Text,
    count: usize,
    sections: &[Section],
) -> Result<(), NoMemory>
    ensures { OnOk result (specs.new ≡ specs.old
        ++ spec.specs_from number called.now count sections.now) }
{
    let mut at = count;
    for section in sections {
        if is_spec(section) {
            specs.push(owned_spec(alloc, number, called, at)?)?;
        }
        at = at.checked_add(1).ok_or(NoMemory)?;
    }
    Ok(())
}

/// The spec of a section of a module. A number beyond `u32` counts as memory that is not there.
fn owned_spec(alloc: Global, number: u8, called: &Text, at: usize) -> Result<OwnedSpec, NoMemory>
    ensures { IfOk result (λ s. s ≡ spec.owned_spec number called.now at) }
{
    Ok(OwnedSpec {
        module: called.try_clone(alloc)?,
        section: u32::try_from(at).map_err(|_| NoMemory)?,
        feature: number,
    })
}

/// Appends the specs of a joined part that is about to be appended to the model.
pub fn push_specs(
    alloc: Global,
    specs: &mut List<OwnedSpec>,
    number: u8,
    program: &Program,
    part: &Joined,
) -> Result<(), NoMemory>
    ensures { OnOk result (specs.new ≡ specs.old ++ spec.specs_of_part number program.now part.now) }
{
    let count = section_count(program, part.module.as_str());
    push_section_specs(
        alloc,
        specs,
        number,
        &part.module,
        count,
        part.sections.as_slice(),
    )
}
