//! The names of a text: each feature is declared once, and before it is used.

ghost use Rattle.std.specs.Prelude.{◌≡◌, IfOk, OnOk, length};
ghost use Rattle.feature_model.specs.NameFaults as spec;
ghost use Rattle.feature_model.specs.NameSets as sets;
ghost use Rattle.feature_model.specs.NameFaults.{ReportsFirst};

use crate::text::{FeatureName, ModelText, TextLine};
use smv_ast::{Expr, Fault, List, NoMemory, Path, Span, Text};
use std::alloc::Global;
use std::collections::HashSet;

/// The most features of a feature model.
const MOST_FEATURES: usize = 64;

/// The empty set of names.
#[tactic(auto, using(crate::proofs::NameSetLemmas::in_set_empty))]
fn no_names<'a>(alloc: Global) -> HashSet<&'a str>
    ensures { sets.in_set result ≡ sets.no_name }
{
    HashSet::new(alloc)
}

fn insert_name<'a>(declared: &mut HashSet<&'a str>, name: &'a Text) -> Result<(), NoMemory>
    ensures { OnOk result (sets.in_set declared.new
        ≡ sets.and_name (sets.in_set declared.old) name.now) }
{
    declared.insert(name.as_str())?;
    Ok(())
}

/// Whether a name is kept for the lift: it begins with `fsmv_`.
pub fn is_reserved(name: &str) -> bool
    ensures { result ≡ spec.is_reserved name.now }
{
    name.as_bytes().starts_with(b"fsmv_")
}

/// Refuses a declaration of a reserved name, and a second one of a name.
fn check_declaration(
    alloc: Global,
    declared: &HashSet<&str>,
    feature: &FeatureName,
) -> Result<(), Fault>
    ensures { ReportsFirst (spec.declaration_fault (sets.in_set declared.now) feature.now) result }
{
    let at = Some(feature.at);
    if is_reserved(feature.name.as_str()) {
        let name = feature.name.try_clone(alloc)?;
        return Err(Fault::ReservedName { at, name });
    }
    if declared.contains(feature.name.as_str()) {
        let name = feature.name.try_clone(alloc)?;
        return Err(Fault::DuplicateFeature { at, name });
    }
    Ok(())
}

/// Refuses a name that is not declared.
fn check_use(alloc: Global, declared: &HashSet<&str>, name: &Text, at: Span) -> Result<(), Fault>
    ensures { ReportsFirst (spec.use_fault (sets.in_set declared.now) name.now at) result }
{
    if declared.contains(name.as_str()) {
        return Ok(());
    }
    Err(Fault::UnknownFeature {
        at: Some(at),
        name: name.try_clone(alloc)?,
    })
}

fn check_path(alloc: Global, declared: &HashSet<&str>, path: &Path) -> Result<(), Fault>
    ensures { ReportsFirst (spec.path_fault (sets.in_set declared.now) path.now.names
        path.now.at) result }
{
    match path.names.as_slice() {
        [name] => check_use(alloc, declared, name, path.at),
        _ => Ok(()),
    }
}

/// Refuses the first name in a propositional formula that is not declared.
fn check_formula(alloc: Global, declared: &HashSet<&str>, formula: &Expr) -> Result<(), Fault>
    ensures { ReportsFirst (spec.formula_fault (sets.in_set declared.now) formula.now) result }
{
    match formula {
        Expr::Name(path) => check_path(alloc, declared, path),
        Expr::Not(a) => check_formula(alloc, declared, a.get()),
        Expr::Binary(_, a, b) => {
            check_formula(alloc, declared, a.get())?;
            check_formula(alloc, declared, b.get())
        }
        _ => Ok(()),
    }
}

/// Declares features, and refuses the first that may not be declared.
fn declare<'a>(
    alloc: Global,
    declared: &mut HashSet<&'a str>,
    features: &'a [FeatureName],
) -> Result<(), Fault>
    ensures { spec.Declares (spec.declarations_fault (sets.in_set declared.old) features.now)
        (sets.and_names (sets.in_set declared.old) (spec.names_of features.now))
        (sets.in_set declared.new) result }
{
    for feature in features {
        check_declaration(alloc, declared, feature)?;
        insert_name(declared, &feature.name)?;
    }
    Ok(())
}

/// Checks a line, and declares its children.
fn check_line<'a>(
    alloc: Global,
    declared: &mut HashSet<&'a str>,
    line: &'a TextLine,
) -> Result<(), Fault>
    ensures { spec.Declares (spec.line_fault (sets.in_set declared.old) line.now)
        (sets.and_names (sets.in_set declared.old) (spec.declared_by line.now))
        (sets.in_set declared.new) result }
{
    match line {
        TextLine::Group {
            parent,
            children,
            ..
        } => {
            check_use(alloc, declared, &parent.name, parent.at)?;
            declare(alloc, declared, children.as_slice())
        }
        TextLine::Constraint(formula) => check_formula(alloc, declared, formula),
    }
}

/// The lines, in order, given the features that stand before them.
fn check_lines<'a>(
    alloc: Global,
    declared: &mut HashSet<&'a str>,
    lines: &'a [TextLine],
) -> Result<(), Fault>
    ensures { ReportsFirst (spec.lines_fault (sets.in_set declared.old) lines.now) result }
{
    for line in lines {
        check_line(alloc, declared, line)?;
    }
    Ok(())
}

/// Refuses the first name of a text that is reserved, declared twice, or used before it is declared.
pub fn check_names(alloc: Global, text: &ModelText) -> Result<(), Fault>
    ensures { ReportsFirst (spec.names_fault text.now) result }
{
    let mut declared = no_names(alloc);
    check_declaration(alloc, &declared, &text.root)?;
    insert_name(&mut declared, &text.root.name)?;
    check_lines(alloc, &mut declared, text.lines.as_slice())
}

/// Refuses a number of features that is over the limit.
pub fn check_count(count: usize) -> Result<(), Fault>
    ensures { ReportsFirst (spec.count_fault count) result }
{
    if count > MOST_FEATURES {
        return Err(Fault::TooManyFeatures {
            at: None,
            count: count as u64,
        });
    }
    Ok(())
}
