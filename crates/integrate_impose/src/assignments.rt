//! Guarding an assignment, or adding one.

ghost use Rattle.std.specs.Prelude.{◌≡◌, IfOk, Some, false, MatchOption};
ghost use Rattle.std.specs.List.{list_any};
ghost use Rattle.integrate_impose.specs.Lists.{first_index, IsLastIndex, change_first};
ghost use Rattle.integrate_impose.specs.Impose as spec;

use crate::guard::guarded;
use crate::lists::take_at;
use crate::texts::same_text;
use smv_ast::{Assignment, Choice, Expr, Left, List, NoMemory, Section, Span, Text};
use std::alloc::Global;

/// A change of a variable: where `cond` is true, its value at the time of `left` is that of
/// `right`.
#[derive(Drop)]
pub struct Imposed {
    pub cond: Expr,
    pub left: Left,
    pub name: Text,
    pub right: Expr,
    pub at: Span,
}

#[tactic(auto, unfolding(crate::specs::Impose::same_left))]
fn same_left(a: Left, b: Left) -> bool
    ensures { result ≡ spec.same_left a b }
{
    a == b
}

fn has_left(left: Left, name: &Text, assignment: &Assignment) -> bool
    ensures { result ≡ spec.has_left left name.now assignment.now }
{
    same_left(assignment.left, left) && same_text(&assignment.name, name.as_str())
}

fn index_of_assignment(left: Left, name: &Text, assignments: &[Assignment]) -> Option<usize>
    ensures { result ≡ first_index (spec.has_left left name.now) assignments.now }
{
    for (i, assignment) in assignments.iter().enumerate() {
        if has_left(left, name, assignment) {
            return Some(i);
        }
    }
    None
}

fn guarded_assignment(
    alloc: Global,
    imposed: Imposed,
    old: Assignment,
) -> Result<Assignment, NoMemory>
    ensures { IfOk result (λ a. a ≡ spec.guarded_assignment imposed old) }
{
    let Assignment {
        left,
        name,
        right,
        at,
    } = old;
    Ok(Assignment {
        left,
        name,
        right: guarded(alloc, imposed.cond, imposed.right, right)?,
        at,
    })
}

#[tactic(auto, using(crate::proofs::ListLemmas::change_first_none, crate::proofs::ListLemmas::first_index_below))]
fn guard_first(
    alloc: Global,
    mut assignments: List<Assignment>,
    imposed: Imposed,
) -> Result<List<Assignment>, NoMemory>
    ensures { IfOk result (λ changed. changed
        ≡ change_first (spec.has_left imposed.left imposed.name) (spec.guarded_assignment imposed)
        assignments) }
{
    let found = index_of_assignment(imposed.left, &imposed.name, assignments.as_slice());
    let Some(at) = found else {
        return Ok(assignments);
    };
    let (old, after_it) = take_at(alloc, &mut assignments, at)?;
    assignments.push(guarded_assignment(alloc, imposed, old)?)?;
    assignments.append(after_it)?;
    Ok(assignments)
}

#[tactic(auto, using(crate::proofs::ListLemmas::is_some_first_index))]
fn assigns(left: Left, name: &Text, section: &Section) -> bool
    ensures { result ≡ spec.assigns left name.now section.now }
{
    match section {
        Section::Assigns(assignments) => {
            index_of_assignment(left, name, assignments.as_slice()).is_some()
        }
        _ => false,
    }
}

/// The first section with an assignment of the left side.
pub fn index_of_section(left: Left, name: &Text, sections: &[Section]) -> Option<usize>
    ensures { result ≡ first_index (spec.assigns left name.now) sections.now }
{
    for (i, section) in sections.iter().enumerate() {
        if assigns(left, name, section) {
            return Some(i);
        }
    }
    None
}

fn guard_section(alloc: Global, section: Section, imposed: Imposed) -> Result<Section, NoMemory>
    ensures { IfOk result (λ changed. changed ≡ spec.guarded_section imposed section) }
{
    match section {
        Section::Assigns(assignments) => {
            Ok(Section::Assigns(guard_first(alloc, assignments, imposed)?))
        }
        other => Ok(other),
    }
}

/// Guards the first assignment of the left side in the section at `at`, which has one.
pub fn guard_in_section(
    alloc: Global,
    mut sections: List<Section>,
    imposed: Imposed,
    at: usize,
) -> Result<List<Section>, NoMemory>
    requires { first_index (spec.assigns imposed.left imposed.name) sections ≡ Some at }
    ensures { IfOk result (λ changed. changed
        ≡ change_first (spec.assigns imposed.left imposed.name) (spec.guarded_section imposed)
        sections) }
{
    let (section, after_it) = take_at(alloc, &mut sections, at)?;
    sections.push(guard_section(alloc, section, imposed)?)?;
    sections.append(after_it)?;
    Ok(sections)
}

fn is_assigns(section: &Section) -> bool
    ensures { result ≡ spec.is_assigns section.now }
{
    match section {
        Section::Assigns(_) => true,
        _ => false,
    }
}

fn index_of_last_assigns(sections: &[Section]) -> Option<usize>
    ensures { MatchOption result (list_any spec.is_assigns sections.now ≡ false)
        (IsLastIndex spec.is_assigns sections.now) }
{
    for i in (0..sections.len()).rev() {
        if is_assigns(&sections[i]) {
            return Some(i);
        }
    }
    None
}

fn one_more(section: Section, assignment: Assignment) -> Result<Section, NoMemory>
    ensures { IfOk result (λ s. s ≡ spec.one_more section assignment) }
{
    match section {
        Section::Assigns(mut assignments) => {
            assignments.push(assignment)?;
            Ok(Section::Assigns(assignments))
        }
        other => Ok(other),
    }
}

/// Adds an assignment to the last ASSIGN section, or in a new one.
pub fn with_assignment(
    alloc: Global,
    mut sections: List<Section>,
    assignment: Assignment,
) -> Result<List<Section>, NoMemory>
    ensures { IfOk result (λ changed. changed ≡ spec.with_assignment sections assignment) }
{
    let found = index_of_last_assigns(sections.as_slice());
    let Some(at) = found else {
        let mut assignments = List::new(alloc);
        assignments.push(assignment)?;
        sections.push(Section::Assigns(assignments))?;
        return Ok(sections);
    };
    let (last, after_it) = take_at(alloc, &mut sections, at)?;
    sections.push(one_more(last, assignment)?)?;
    sections.append(after_it)?;
    Ok(sections)
}

/// The assignment for a left side that has none: it allows any of the values where the condition is
/// false.
pub fn added_assignment(
    alloc: Global,
    imposed: Imposed,
    values: Choice,
) -> Result<Assignment, NoMemory>
    ensures { IfOk result (λ a. a ≡ spec.added_assignment imposed values) }
{
    let Imposed {
        cond,
        left,
        name,
        right,
        at,
    } = imposed;
    Ok(Assignment {
        left,
        name,
        right: guarded(alloc, cond, right, Expr::Pick(values))?,
        at,
    })
}
