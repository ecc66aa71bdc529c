//! A TREAT on a model.

ghost use Rattle.std.specs.Prelude.{◌≡◌, IfOk};
ghost use Rattle.integrate_impose.specs.Answers.{Answers};
ghost use Rattle.integrate_treat.specs.TreatedExpr.{treatment};
ghost use Rattle.integrate_treat.specs.TreatedModel.{treated_model};
ghost use Rattle.smv_meaning.specs.Runs.{path_text};
ghost use Rattle.integrate_treat.specs.Treat as spec;

use crate::expressions::Treatment;
use crate::sections::treat_module;
use crate::target::is_target;
use integrate_impose::copies::{copy_expr, copy_names};
use integrate_impose::lists::take_at;
use integrate_impose::modules::index_of_module;
use smv_ast::{Expr, Fault, NoMemory, Path, Program, Span, Text, print_joined};
use std::alloc::Global;

/// The model with its first module of this name treated.
#[tactic(auto, using(integrate_impose::proofs::ListLemmas::change_first_none, integrate_impose::proofs::ListLemmas::first_index_below))]
fn treat_model(
    alloc: Global,
    program: Program,
    called: &str,
    t: &Treatment,
) -> Result<Program, NoMemory>
    ensures { IfOk result (λ p. p ≡ treated_model t.now called.now program) }
{
    let Program { mut modules } = program;
    let found = index_of_module(called, modules.as_slice());
    let Some(at) = found else {
        return Ok(Program { modules });
    };
    let (owner, after_it) = take_at(alloc, &mut modules, at)?;
    modules.push(treat_module(alloc, t, owner)?)?;
    modules.append(after_it)?;
    Ok(Program { modules })
}

fn path_text(alloc: Global, names: &[Text]) -> Result<Text, NoMemory>
    ensures { IfOk result (λ text. text ≡ path_text names.now) }
{
    let mut out = String::new(alloc);
    print_joined(&mut out, ".", names)?;
    Text::from_str(alloc, out.as_str())
}

fn target_fault(alloc: Global, at: Span, path: &[Text]) -> Result<Fault, NoMemory>
    ensures { IfOk result (λ f. f ≡ spec.target_fault at path.now) }
{
    Ok(Fault::TreatTarget {
        at: Some(at),
        path: path_text(alloc, path)?,
    })
}

/// The reason for which the TREAT cannot be applied, if there is one.
fn treat_fault(
    alloc: Global,
    at: Span,
    path: &[Text],
    called: &str,
    program: &Program,
) -> Result<Option<Fault>, NoMemory>
    ensures { IfOk result (λ f. f ≡ spec.treat_fault at path.now called.now program.now) }
{
    if is_target(alloc, program, called, path)? {
        return Ok(None);
    }
    Ok(Some(target_fault(alloc, at, path)?))
}

fn try_treat(
    alloc: Global,
    program: Program,
    called: &str,
    t: &Treatment,
    at: Span,
) -> Result<Program, Fault>
    ensures { Answers (spec.treated_or_fault t.now at called.now program) result }
{
    match treat_fault(alloc, at, t.path.as_slice(), called, &program)? {
        Some(fault) => Err(fault),
        None => Ok(treat_model(alloc, program, called, t)?),
    }
}

/// The model with `IF cond THEN TREAT path = right` applied to its first module of the name
/// `module`. The model is consumed; `at` is the span of the change.
///
/// Each occurrence of exactly the path becomes `case cond : right; TRUE : path; esac`: in right
/// sides, conditions, definitions, INIT, INVAR, TRANS and actuals of the module, inside `next( )`
/// too. TreatTarget where the path is not known in the module, or leads to an instance in some
/// instance of it. An expression that is higher than 4,000 counts as memory that is not there.
pub fn treat(
    alloc: Global,
    program: Program,
    module: &str,
    cond: &Expr,
    path: &Path,
    right: &Expr,
    at: Span,
) -> Result<Program, Fault>
    ensures { Answers
        (spec.treated_or_fault (treatment cond.now path.now.names right.now) at «module».now
        program) result }
{
    let t = Treatment {
        cond: copy_expr(alloc, cond)?,
        path: copy_names(alloc, path.names.as_slice())?,
        right: copy_expr(alloc, right)?,
    };
    try_treat(alloc, program, module, &t, at)
}
