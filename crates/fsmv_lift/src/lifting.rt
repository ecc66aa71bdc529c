//! The lift of a family: the base with all features applied, each guarded by its variable.

ghost use Rattle.std.specs.Prelude.{◌≡◌, ◌++◌, ◌≤◌, length, IfOk, OnOk};
ghost use Rattle.feature_model.specs.WellFormed.{IsFeatureModel};
ghost use Rattle.integrate.specs.Joined.{joined};
ghost use Rattle.integrate_impose.specs.Answers.{Answers};
ghost use Rattle.fsmv_lift.specs.GuardedFeature.{guarded_parts};
ghost use Rattle.fsmv_lift.specs.Lift.{lift_of, finished_program, owned_variables, specs_of, specs_of_parts, owned_specs};
ghost use Rattle.fsmv_lift.specs.Lifting as spec;

use crate::added::{formula_part, module_of_features, pins};
use crate::appended::{with_part, with_parts};
use crate::base::lifted_base;
use crate::guarded::{guarded_condition, guarded_parts};
use crate::owned::{number_of, push_specs, push_variables};
use integrate_impose::impose;
use integrate_impose::lists::reversed;
use integrate_treat::treat;
use smv_ast::{
    Action, Change, Family, Fault, Feature, FeatureModel, Joined, Lifted, List, NoMemory,
    OwnedSpec, OwnedVar, Program, Text,
};
use std::alloc::Global;

// ---- one feature

/// A change of the feature applied with its guard.
fn add_change(
    alloc: Global,
    feature: &Text,
    program: Program,
    change: &Change,
) -> Result<Program, Fault>
    ensures { Answers (spec.change_added feature.now program change.now) result }
{
    let called = change.module.as_str();
    let cond = guarded_condition(alloc, feature, &change.cond)?;
    match &change.action {
        Action::Impose { left, name, right } => impose(
            alloc,
            program,
            called,
            &cond,
            *left,
            name.as_str(),
            right,
            change.at,
        ),
        Action::Treat { path, right } => {
            treat(alloc, program, called, &cond, path, right, change.at)
        }
    }
}

/// The changes of the feature applied in order with their guards.
fn add_changes(
    alloc: Global,
    feature: &Text,
    program: Program,
    changes: &[Change],
) -> Result<Program, Fault>
    ensures { Answers (spec.changes_added feature.now program changes.now) result }
{
    let mut program = program;
    for change in changes {
        match add_change(alloc, feature, program, change) {
            Ok(next) => program = next,
            Err(fault) => return Err(fault),
        }
    }
    Ok(program)
}

/// The parts appended in order; their specs are listed.
fn add_parts(
    alloc: Global,
    specs: &mut List<OwnedSpec>,
    number: u8,
    program: Program,
    parts: List<Joined>,
) -> Result<Program, NoMemory>
    ensures program { IfOk result (λ p. p ≡ joined program parts) }
    ensures specs { OnOk result (specs.new ≡ specs.old ++ specs_of_parts number program parts) }
{
    let mut program = program;
    let mut waiting = reversed(alloc, parts)?;
    for _round in 0..waiting.len() {
        if let Some(part) = waiting.pop() {
            push_specs(alloc, specs, number, &program, &part)?;
            program = with_part(alloc, program, part)?;
        }
    }
    Ok(program)
}

/// The feature applied with its guards; its specs are listed.
fn add_feature(
    alloc: Global,
    names: &[Text],
    specs: &mut List<OwnedSpec>,
    program: Program,
    feature: &Feature,
) -> Result<Program, Fault>
    requires { length names.now ≤ 256 }
    ensures program { Answers (spec.feature_added program feature.now) result }
    ensures specs { OnOk result (specs.new ≡ specs.old ++ specs_of names.now program feature.now) }
{
    let parts = guarded_parts(alloc, feature)?;
    let number = number_of(names, feature);
    let introduced = add_parts(alloc, specs, number, program, parts)?;
    add_changes(alloc, &feature.name, introduced, feature.changes.as_slice())
}

// ---- all features

/// The features applied in order with their guards; their specs are listed.
fn add_features(
    alloc: Global,
    names: &[Text],
    specs: &mut List<OwnedSpec>,
    program: Program,
    features: &[Feature],
) -> Result<Program, Fault>
    requires { length names.now ≤ 256 }
    ensures program { Answers (spec.features_added program features.now) result }
    ensures specs { OnOk result (specs.new ≡ specs.old ++ owned_specs names.now program features.now) }
{
    let mut program = program;
    for feature in features {
        match add_feature(alloc, names, specs, program, feature) {
            Ok(next) => program = next,
            Err(fault) => return Err(fault),
        }
    }
    Ok(program)
}

/// The variables that the features introduce, with their features.
fn introduced_variables(
    alloc: Global,
    names: &[Text],
    features: &[Feature],
) -> Result<List<OwnedVar>, NoMemory>
    requires { length names.now ≤ 256 }
    ensures { IfOk result (λ vars. vars ≡ owned_variables names.now features.now) }
{
    let mut vars = List::new(alloc);
    for feature in features {
        push_variables(alloc, &mut vars, names, feature)?;
    }
    Ok(vars)
}

/// The model with all features, with the pins, the formula and the module of the features' variables.
fn finish_program(alloc: Global, family: &Family, program: Program) -> Result<Program, NoMemory>
    requires { IsFeatureModel family.now.model }
    ensures { IfOk result (λ p. p ≡ finished_program family.now program) }
{
    let pins = pins(alloc, family.features.as_slice())?;
    let pinned = with_parts(alloc, program, pins)?;
    let with_formula = with_part(alloc, pinned, formula_part(alloc, &family.model)?)?;
    let Program { mut modules } = with_formula;
    modules.push(module_of_features(alloc, family.model.names.as_slice())?)?;
    Ok(Program { modules })
}

/// The lift of the family, made without regard to names and types; the fault of the first change
/// that cannot be applied to the lift so far (ImposeTarget, ImposeKind, TreatTarget).
pub fn lift_text(alloc: Global, family: &Family) -> Result<Lifted, Fault>
    requires { IsFeatureModel family.now.model }
    ensures made { Answers (spec.lift_made family.now) result }
    ensures lift { IfOk result (λ lifted. lifted ≡ lift_of family.now) }
{
    let names = family.model.names.as_slice();
    let features = family.features.as_slice();
    let mut specs = List::new(alloc);
    let base = lifted_base(alloc, &family.base)?;
    match add_features(alloc, names, &mut specs, base, features) {
        Ok(program) => Ok(Lifted {
            program: finish_program(alloc, family, program)?,
            vars: introduced_variables(alloc, names, features)?,
            specs,
        }),
        Err(fault) => Err(fault),
    }
}
