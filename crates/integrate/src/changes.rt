//! Applying the changes of a feature, one after another.

ghost use Rattle.std.specs.Prelude.{◌≡◌, ◌<◌, ◌≤◌, length};
ghost use Rattle.integrate_impose.specs.Answers.{Answers};
ghost use Rattle.integrate.specs.Changes as spec;

use crate::imposes::{apply_imposes, are_imposes, is_impose};
use crate::names::first_missing;
use crate::reports::missing_fault;
use integrate_impose::impose;
use integrate_treat::treat;
use smv_ast::{Action, Change, Fault, Product, Program, Text};
use std::alloc::Global;

/// The model with the action of the change applied, or the fault of the action.
pub fn act(alloc: Global, program: Program, change: &Change) -> Result<Program, Fault>
    ensures { Answers (spec.acted change.now change.now.action program) result }
{
    let called = change.module.as_str();
    match &change.action {
        Action::Impose { left, name, right } => impose(
            alloc,
            program,
            called,
            &change.cond,
            *left,
            name.as_str(),
            right,
            change.at,
        ),
        Action::Treat { path, right } => treat(
            alloc,
            program,
            called,
            &change.cond,
            path,
            right,
            change.at,
        ),
    }
}

/// The model with the change applied, or the fault of the change.
fn apply_change(
    alloc: Global,
    feature: &Text,
    product: Product,
    program: Program,
    change: &Change,
) -> Result<Program, Fault>
    ensures { Answers (spec.changed feature.now product program change.now) result }
{
    match first_missing(alloc, &program, change)? {
        Some(missing) => Err(missing_fault(alloc, feature, product, missing)?),
        None => act(alloc, program, change),
    }
}

/// The changes one by one, the names of each judged in the model that it is applied to.
fn apply_each(
    alloc: Global,
    feature: &Text,
    product: Product,
    program: Program,
    changes: &[Change],
) -> Result<Program, Fault>
    ensures { Answers (spec.all_changed feature.now product program changes.now) result }
{
    let mut program = program;
    for change in changes {
        match apply_change(alloc, feature, product, program, change) {
            Ok(next) => program = next,
            Err(fault) => return Err(fault),
        }
    }
    Ok(program)
}

// ---- all changes

/// The number of IMPOSEs that stand first, or 1.
fn run_length(changes: &[Change]) -> usize
    requires { 0 < length changes.now }
    ensures more { 0 < result }
    ensures within { result ≤ length changes.now }
{
    let mut count = 1;
    while count < changes.len() && is_impose(&changes[0]) && is_impose(&changes[count]) {
        count += 1;
    }
    count
}

fn apply_run(
    alloc: Global,
    feature: &Text,
    product: Product,
    program: Program,
    changes: &[Change],
) -> Result<Program, Fault>
    ensures { Answers (spec.all_changed feature.now product program changes.now) result }
{
    if changes.len() > 1 && are_imposes(changes) {
        return apply_imposes(alloc, feature, product, program, changes);
    }
    apply_each(alloc, feature, product, program, changes)
}

/// The model with the changes of a feature applied in order, each to the model as changed so far, or
/// the fault of the first that cannot be applied. The model is consumed.
///
/// RequireMissing, which keeps the given product, where a change uses a name that is not known; then
/// the faults of `impose` and `treat`.
pub fn apply_changes(
    alloc: Global,
    feature: &Text,
    product: Product,
    program: Program,
    changes: &[Change],
) -> Result<Program, Fault>
    ensures { Answers (spec.all_changed feature.now product program changes.now) result }
{
    let mut program = program;
    let mut left = changes;
    while left.len() > 0 {
        let (run, others) = left.split_at(run_length(left));
        match apply_run(alloc, feature, product, program, run) {
            Ok(changed) => program = changed,
            Err(fault) => return Err(fault),
        }
        left = others;
    }
    Ok(program)
}
