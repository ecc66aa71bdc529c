//! What a lift adds beside the features: the pins of introduced variables, the formula of the
//! feature model, and the module of the features' variables.

ghost use Rattle.std.specs.Prelude.{◌≡◌, ◌++◌, IfOk, OnOk, map};
ghost use Rattle.feature_model.specs.WellFormed.{IsFeatureModel};
ghost use Rattle.fsmv_lift.specs.IntroducedTypes.{introduced_view};
ghost use Rattle.fsmv_lift.specs.Lift as spec;

use crate::first_values::first_of;
use crate::formula::lifted_constraint;
use crate::guarded::binary;
use crate::introduced::{Introduced, introduces};
use crate::names::{ADDED_AT, FEATURES_MODULE, guard, name};
use feature_model::formula;
use smv_ast::{
    Assignment, Declaration, Declared, Expr, Feature, FeatureModel, GroupKind, Joined, Left, List,
    ModelLine, Module, NoMemory, Op, Section, SmvType, Text,
};
use std::alloc::Global;

/// A joined part of one section that the lift adds to a module.
fn added_part(alloc: Global, module: &str, section: Section) -> Result<Joined, NoMemory>
    ensures { IfOk result (λ part. part ≡ spec.added_part «module».now section) }
{
    let mut sections = List::new(alloc);
    sections.push(section)?;
    Ok(Joined {
        module: Text::from_str(alloc, module)?,
        sections,
        at: ADDED_AT,
    })
}

// ---- the pins

/// `y = first`.
fn is_at_first(alloc: Global, variable: &Introduced) -> Result<Expr, NoMemory>
    ensures { IfOk result (λ e. e ≡ spec.is_at_first (introduced_view variable.now)) }
{
    let read = name(alloc, variable.name.as_str())?;
    binary(alloc, Op::Eq, read, first_of(alloc, variable.values)?)
}

/// `INVAR fsmv_fm.F | (y = first);`.
fn pin(alloc: Global, feature: &Text, variable: &Introduced) -> Result<Joined, NoMemory>
    ensures { IfOk result (λ part. part ≡ spec.pin feature.now (introduced_view variable.now)) }
{
    let stays = is_at_first(alloc, variable)?;
    let constraint = binary(alloc, Op::Or, guard(alloc, feature)?, stays)?;
    added_part(
        alloc,
        variable.module.as_str(),
        Section::Invar(constraint, ADDED_AT),
    )
}

/// Appends the pins of the variables that the feature introduces.
fn push_pins(alloc: Global, pins: &mut List<Joined>, feature: &Feature) -> Result<(), NoMemory>
    ensures { OnOk result (pins.new ≡ pins.old ++ spec.pins_of feature.now) }
{
    let variables = introduces(alloc, feature.joins.as_slice())?;
    for variable in variables.as_slice() {
        pins.push(pin(alloc, &feature.name, variable)?)?;
    }
    Ok(())
}

/// The pins of all introduced variables, by features and then by declarations in order: without its
/// feature a variable stands at its first value.
pub fn pins(alloc: Global, features: &[Feature]) -> Result<List<Joined>, NoMemory>
    ensures { IfOk result (λ pins. pins ≡ spec.pins features.now) }
{
    let mut pins = List::new(alloc);
    for feature in features {
        push_pins(alloc, &mut pins, feature)?;
    }
    Ok(pins)
}

// ---- the formula

/// The most conjuncts of a formula. A formula with more counts as memory that is not there: its tree
/// is about as high as it has conjuncts, and no model that passes the static checks has one so high.
const MOST_CONJUNCTS: usize = 4_000;

/// The number of conjuncts that a line gives to the formula.
fn conjunct_count(line: &ModelLine) -> usize {
    match line {
        ModelLine::Constraint(_) => 1,
        ModelLine::Group { kind, children, .. } => {
            let n = children.len();
            match kind {
                GroupKind::Mandatory | GroupKind::Optional => n,
                GroupKind::Or => n.saturating_add(1),
                // Each child with its parent, one of them, and no two of them.
                GroupKind::Alternative => n.saturating_mul(n.saturating_add(1)) / 2 + 1,
            }
        }
    }
}

/// Whether the formula has at most that many conjuncts.
fn is_low(model: &FeatureModel) -> bool {
    let mut left = MOST_CONJUNCTS;
    for line in model.lines.as_slice() {
        match left.checked_sub(conjunct_count(line)) {
            Some(rest) => left = rest,
            None => return false,
        }
    }
    true
}

/// `INIT formula;` of `main`, over the features' variables.
pub fn formula_part(alloc: Global, model: &FeatureModel) -> Result<Joined, NoMemory>
    requires { IsFeatureModel model.now }
    ensures { IfOk result (λ part. part ≡ spec.formula_part model.now) }
{
    if !is_low(model) {
        return Err(NoMemory);
    }
    let constraint = lifted_constraint(alloc, &formula(alloc, model)?)?;
    added_part(alloc, "main", Section::Init(constraint, ADDED_AT))
}

// ---- the module of the features' variables

/// `F : boolean;`.
fn feature_declaration(alloc: Global, feature: &Text) -> Result<Declaration, NoMemory>
    ensures { IfOk result (λ d. d ≡ spec.feature_declaration feature.now) }
{
    Ok(Declaration {
        name: feature.try_clone(alloc)?,
        what: Declared::Plain(SmvType::Boolean),
        at: ADDED_AT,
    })
}

/// `next(F) := F;`: a run stands at one product.
fn feature_stays(alloc: Global, feature: &Text) -> Result<Assignment, NoMemory>
    ensures { IfOk result (λ a. a ≡ spec.feature_stays feature.now) }
{
    Ok(Assignment {
        left: Left::Next,
        name: feature.try_clone(alloc)?,
        right: name(alloc, feature.as_str())?,
        at: ADDED_AT,
    })
}

fn feature_declarations(alloc: Global, names: &[Text]) -> Result<List<Declaration>, NoMemory>
    ensures { IfOk result (λ declarations. declarations
        ≡ map spec.feature_declaration names.now) }
{
    let mut declarations = List::new(alloc);
    for feature in names {
        declarations.push(feature_declaration(alloc, feature)?)?;
    }
    Ok(declarations)
}

fn feature_assignments(alloc: Global, names: &[Text]) -> Result<List<Assignment>, NoMemory>
    ensures { IfOk result (λ assignments. assignments ≡ map spec.feature_stays names.now) }
{
    let mut assignments = List::new(alloc);
    for feature in names {
        assignments.push(feature_stays(alloc, feature)?)?;
    }
    Ok(assignments)
}

/// The module with a variable for each feature, which stays as it is.
pub fn module_of_features(alloc: Global, names: &[Text]) -> Result<Module, NoMemory>
    ensures { IfOk result (λ made. made ≡ spec.module_of_features names.now) }
{
    let mut sections = List::new(alloc);
    sections.push(Section::Vars(feature_declarations(alloc, names)?))?;
    sections.push(Section::Assigns(feature_assignments(alloc, names)?))?;
    Ok(Module {
        name: Text::from_str(alloc, FEATURES_MODULE)?,
        formals: List::new(alloc),
        sections,
        at: ADDED_AT,
    })
}
