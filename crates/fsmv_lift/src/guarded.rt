//! A feature with its guards: what it introduces is in force just where its variable is TRUE.

ghost use Rattle.std.specs.Prelude.{◌≡◌, ◌++◌, IfOk, map};
ghost use Rattle.smv_ast.specs.declared.syntax.Op.TheVariants as op;
ghost use Rattle.smv_ast.specs.declared.syntax.Expr.TheVariants as expr;
ghost use Rattle.fsmv_lift.specs.GuardedFeature as spec;
ghost use Rattle.fsmv_lift.specs.GuardedTypes.{HasTypesOf};
ghost use Rattle.fsmv_lift.specs.IntroducedTypes.{type_in, value_of};

use crate::first_values::first_of;
use crate::introduced::{Types, introduces, type_of, types_of};
use crate::names::guard;
use integrate_impose::copies::copy_expr;
use integrate_impose::guard::guarded;
use integrate_impose::lists::reversed;
use integrate_impose::section_copies::copy_sections;
use smv_ast::{
    Assignment, Boxed, Expr, Feature, Joined, List, NoMemory, Op, Section, SmvType, Text,
};
use std::alloc::Global;

/// The two expressions joined by an operator.
pub fn binary(alloc: Global, op: Op, one: Expr, other: Expr) -> Result<Expr, NoMemory>
    ensures { IfOk result (λ e. e ≡ expr.Binary op one other) }
{
    Ok(Expr::Binary(op, Boxed::new(alloc, one)?, Boxed::new(alloc, other)?))
}

/// `fsmv_fm.F & cond`: the condition of a change.
pub fn guarded_condition(alloc: Global, feature: &Text, cond: &Expr) -> Result<Expr, NoMemory>
    ensures { IfOk result (λ e. e ≡ spec.guarded_condition feature.now cond.now) }
{
    binary(
        alloc,
        Op::And,
        guard(alloc, feature)?,
        copy_expr(alloc, cond)?,
    )
}

/// `fsmv_fm.F -> e`: an introduced constraint or spec.
fn guarded_constraint(alloc: Global, feature: &Text, e: Expr) -> Result<Expr, NoMemory>
    ensures { IfOk result (λ guarded. guarded ≡ spec.guarded_constraint feature.now e) }
{
    binary(alloc, Op::Implies, guard(alloc, feature)?, e)
}

/// `case fsmv_fm.F : right; TRUE : first; esac`, with the first value of the type; without a type
/// the right side as it is.
fn guarded_right(
    alloc: Global,
    feature: &Text,
    values: Option<&SmvType>,
    right: Expr,
) -> Result<Expr, NoMemory>
    ensures { IfOk result (λ e. e ≡ spec.guarded_right feature.now (value_of values.entry) right) }
{
    match values {
        Some(values) => guarded(
            alloc,
            guard(alloc, feature)?,
            right,
            first_of(alloc, values)?,
        ),
        None => Ok(right),
    }
}

// ---- joined parts

/// A feature whose parts are given guards, with the types of the variables that it introduces.
#[derive(Drop)]
struct Guarding<'a> {
    feature: &'a Feature,
    types: Types<'a>,
}

impl<'a> Guarding<'a> {
    /// The feature with the types of its variables.
    fn of_feature(alloc: Global, feature: &'a Feature) -> Result<Guarding<'a>, NoMemory>
        ensures types { IfOk result HasTypesOf }
        ensures feature { IfOk result (λ g. g.feature.now ≡ feature.now) }
    {
        let variables = introduces(alloc, feature.joins.as_slice())?;
        Ok(Guarding {
            feature,
            types: types_of(alloc, variables.as_slice())?,
        })
    }

    /// An introduced assignment of a module, in force where the feature is chosen.
    fn assignment(
        &self,
        alloc: Global,
        called: &Text,
        assignment: Assignment,
    ) -> Result<Assignment, NoMemory>
        requires { HasTypesOf self.now }
        ensures { IfOk result (λ a. a
            ≡ spec.guarded_assign self.now.feature.now called.now assignment) }
    {
        let Assignment {
            left,
            name,
            right,
            at,
        } = assignment;
        let values = type_of(&self.types, called.as_str(), name.as_str());
        let right = guarded_right(alloc, &self.feature.name, values, right)?;
        Ok(Assignment {
            left,
            name,
            right,
            at,
        })
    }

    fn assignments(
        &self,
        alloc: Global,
        called: &Text,
        assignments: List<Assignment>,
    ) -> Result<List<Assignment>, NoMemory>
        requires { HasTypesOf self.now }
        ensures { IfOk result (λ guarded. guarded
            ≡ map (spec.guarded_assign self.now.feature.now called.now) assignments) }
    {
        let mut waiting = reversed(alloc, assignments)?;
        let mut guarded = List::new(alloc);
        for _round in 0..waiting.len() {
            if let Some(assignment) = waiting.pop() {
                guarded.push(self.assignment(alloc, called, assignment)?)?;
            }
        }
        Ok(guarded)
    }

    /// An introduced constraint or spec.
    fn constraint(&self, alloc: Global, e: Expr) -> Result<Expr, NoMemory>
        ensures { IfOk result (λ guarded. guarded
            ≡ spec.guarded_constraint self.now.feature.now.name e) }
    {
        guarded_constraint(alloc, &self.feature.name, e)
    }

    /// An introduced section of a module, in force where the feature is chosen.
    fn section(&self, alloc: Global, called: &Text, section: Section) -> Result<Section, NoMemory>
        requires { HasTypesOf self.now }
        ensures { IfOk result (λ guarded. guarded
            ≡ spec.guarded_part_section self.now.feature.now called.now section) }
    {
        match section {
            Section::Vars(declarations) => Ok(Section::Vars(declarations)),
            Section::Assigns(assignments) => Ok(Section::Assigns(self.assignments(
                alloc,
                called,
                assignments,
            )?)),
            Section::Defines(definitions) => Ok(Section::Defines(definitions)),
            Section::Init(e, at) => Ok(Section::Init(self.constraint(alloc, e)?, at)),
            Section::Invar(e, at) => Ok(Section::Invar(self.constraint(alloc, e)?, at)),
            Section::Trans(e, at) => Ok(Section::Trans(self.constraint(alloc, e)?, at)),
            Section::InvarSpec(e, at) => Ok(Section::InvarSpec(self.constraint(alloc, e)?, at)),
        }
    }

    fn sections(
        &self,
        alloc: Global,
        called: &Text,
        sections: List<Section>,
    ) -> Result<List<Section>, NoMemory>
        requires { HasTypesOf self.now }
        ensures { IfOk result (λ guarded. guarded
            ≡ map (spec.guarded_part_section self.now.feature.now called.now) sections) }
    {
        let mut waiting = reversed(alloc, sections)?;
        let mut guarded = List::new(alloc);
        for _round in 0..waiting.len() {
            if let Some(section) = waiting.pop() {
                guarded.push(self.section(alloc, called, section)?)?;
            }
        }
        Ok(guarded)
    }

    /// A copy of a joined part, in force where the feature is chosen.
    fn part(&self, alloc: Global, part: &Joined) -> Result<Joined, NoMemory>
        requires { HasTypesOf self.now }
        ensures { IfOk result (λ guarded. guarded
            ≡ spec.guarded_part self.now.feature.now part.now) }
    {
        let sections = copy_sections(alloc, part.sections.as_slice())?;
        Ok(Joined {
            module: part.module.try_clone(alloc)?,
            sections: self.sections(alloc, &part.module, sections)?,
            at: part.at,
        })
    }

    fn parts(&self, alloc: Global) -> Result<List<Joined>, NoMemory>
        requires { HasTypesOf self.now }
        ensures { IfOk result (λ parts. parts ≡ spec.guarded_parts self.now.feature.now) }
    {
        let mut parts = List::new(alloc);
        for part in self.feature.joins.as_slice() {
            parts.push(self.part(alloc, part)?)?;
        }
        Ok(parts)
    }
}

/// Copies of the joined parts of a feature, with their guards.
pub fn guarded_parts(alloc: Global, feature: &Feature) -> Result<List<Joined>, NoMemory>
    ensures { IfOk result (λ parts. parts ≡ spec.guarded_parts feature.now) }
{
    let guarding = Guarding::of_feature(alloc, feature)?;
    guarding.parts(alloc)
}
