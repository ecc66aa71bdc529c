//! Feature models out of texts: each feature gets a number, in the order of the declarations.

ghost use Rattle.std.specs.Prelude.{◌≡◌, ◌+◌, ◌≤◌, ◌++◌, [], ◌∷◌, length, IfOk, OnOk};
ghost use Rattle.std.specs.List.{flat_map, range_with_len};
ghost use Rattle.feature_model.specs.Constraints.{feature_of};
ghost use Rattle.feature_model.specs.ModelOfText as spec;
ghost use Rattle.feature_model.specs.NameFaults as faults;

use crate::names::check_count;
use crate::text::{FeatureName, ModelText, TextLine};
use crate::validity::feature_of;
use integrate_impose::copies::copy_expr;
use smv_ast::{Fault, FeatureModel, List, ModelLine, NoMemory, Text};
use std::alloc::Global;

fn append_names(
    alloc: Global,
    names: &mut List<Text>,
    features: &[FeatureName],
) -> Result<(), NoMemory>
    ensures { OnOk result (names.new ≡ names.old ++ faults.names_of features.now) }
{
    for feature in features {
        names.push(feature.name.try_clone(alloc)?)?;
    }
    Ok(())
}

/// Appends the features that the line declares.
fn append_declared(alloc: Global, names: &mut List<Text>, line: &TextLine) -> Result<(), NoMemory>
    ensures { OnOk result (names.new ≡ names.old ++ faults.declared_by line.now) }
{
    match line {
        TextLine::Group { children, .. } => append_names(alloc, names, children.as_slice()),
        TextLine::Constraint(_) => Ok(()),
    }
}

/// The features of a text, the root first.
fn declared_names(alloc: Global, text: &ModelText) -> Result<List<Text>, NoMemory>
    ensures { IfOk result (λ names. names ≡ faults.declared_names text.now) }
{
    let mut names = List::new(alloc);
    names.push(text.root.name.try_clone(alloc)?)?;
    for line in text.lines.as_slice() {
        append_declared(alloc, &mut names, line)?;
    }
    Ok(names)
}

/// The number of the feature of this name; of no feature, that of the root.
#[tactic(auto, using(crate::proofs::NumberingLemmas::number_below))]
fn number_of(names: &[Text], name: &Text) -> u8
    requires { length names.now ≤ 64 }
    ensures { result ≡ spec.or_root (feature_of names.now name.now) }
{
    match feature_of(names, name) {
        Some(number) => number as u8,
        None => 0,
    }
}

/// So many numbers from the first on.
fn numbers_from(alloc: Global, first: usize, len: usize) -> Result<List<u8>, NoMemory>
    requires { first + len ≤ 64 }
    ensures { IfOk result (λ numbers. numbers ≡ range_with_len first len) }
{
    let mut numbers = List::new(alloc);
    for i in 0..len {
        numbers.push((first + i) as u8)?;
    }
    Ok(numbers)
}

/// How many features a line declares.
fn child_count(line: &TextLine) -> usize
    ensures { result ≡ length (faults.declared_by line.now) }
{
    match line {
        TextLine::Group { children, .. } => children.len(),
        TextLine::Constraint(_) => 0,
    }
}

/// The line with numbers, where so many features are declared before it.
fn numbered_line(
    alloc: Global,
    names: &[Text],
    count: usize,
    line: &TextLine,
) -> Result<ModelLine, NoMemory>
    requires few { length names.now ≤ 64 }
    requires fits { count + length (faults.declared_by line.now) ≤ 64 }
    ensures { IfOk result (λ one. one ≡ spec.numbered_line names.now count line.now) }
{
    match line {
        TextLine::Group {
            kind,
            parent,
            children,
        } => Ok(ModelLine::Group {
            kind: *kind,
            parent: number_of(names, &parent.name),
            children: numbers_from(alloc, count, children.len())?,
        }),
        TextLine::Constraint(formula) => Ok(ModelLine::Constraint(copy_expr(alloc, formula)?)),
    }
}

/// The lines with numbers.
fn numbered(alloc: Global, names: &[Text], lines: &[TextLine]) -> Result<List<ModelLine>, NoMemory>
    requires few { length names.now ≤ 64 }
    requires fits { 1 + length (flat_map faults.declared_by lines.now) ≤ 64 }
    ensures { IfOk result (λ made. made ≡ spec.numbered names.now 1 lines.now) }
{
    let mut made = List::new(alloc);
    let mut count = 1;
    for line in lines {
        made.push(numbered_line(alloc, names, count, line)?)?;
        count += child_count(line);
    }
    Ok(made)
}

/// The feature model of a text, unless it declares too many features.
pub fn model_of(alloc: Global, text: &ModelText) -> Result<FeatureModel, Fault>
    ensures { spec.IsCounted text.now result }
{
    let names = declared_names(alloc, text)?;
    check_count(names.len())?;
    let lines = numbered(alloc, names.as_slice(), text.lines.as_slice())?;
    Ok(FeatureModel { names, lines })
}
