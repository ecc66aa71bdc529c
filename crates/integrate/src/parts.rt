//! The joined parts of a feature.

ghost use Rattle.std.specs.Prelude.{◌≡◌, [], ◌∷◌, map};
ghost use Rattle.smv_meaning.specs.Faults.{ReportsFirst};
ghost use Rattle.smv_meaning.specs.Items as items;
ghost use Rattle.smv_meaning.specs.Runs.{first_fault};
ghost use Rattle.smv_names.specs.Unknown.{IsModuleScope, scope_program};
ghost use Rattle.integrate.specs.Lookups.{AreLookups, program_of};
ghost use Rattle.integrate.specs.Applications as applied;
ghost use Rattle.integrate.specs.FeatureFaults as spec;

use crate::introductions::Introductions;
use crate::lookups::Lookups;
use crate::module_names::{ModuleNames, contains};
use crate::names::missing_expr;
use crate::reports::report_missing;
use smv_ast::{
    Assignment, Declaration, Declared, Definition, Expr, Fault, Feature, Joined, Product, Section,
    Span, Text,
};
use smv_meaning::items::{Item, Role};
use smv_names::known::{ModuleScope, declared_in};
use std::alloc::Global;

/// A feature that is applied, for a product of its family.
#[derive(Drop)]
pub struct Application<'a> {
    pub introductions: &'a Introductions<'a>,
    pub feature: &'a Feature,
    pub product: Product,
    /// The variables that the feature introduces.
    pub variables: &'a ModuleNames<'a>,
}

/// A declaration of an instance.
fn check_no_instance(
    alloc: Global,
    application: &Application,
    declaration: &Declaration,
) -> Result<(), Fault>
    ensures { ReportsFirst (spec.instance_fault application.now.feature.now.name
        declaration.now.name declaration.now.what declaration.now.at) result }
{
    match &declaration.what {
        Declared::Plain(_) => Ok(()),
        Declared::Instance { .. } => Err(Fault::IntroducedInstance {
            at: Some(declaration.at),
            feature: application.feature.name.try_clone(alloc)?,
            name: declaration.name.try_clone(alloc)?,
        }),
    }
}

/// A name that clashes.
fn check_clash(
    alloc: Global,
    application: &Application,
    called: &Text,
    name: &Text,
    at: Span,
) -> Result<(), Fault>
    requires { applied.IsApplication application.now }
    ensures { ReportsFirst (spec.clash_fault (applied.base_of application.now)
        (applied.family_of application.now) application.now.feature.now.name called.now name.now
        at) result }
{
    if application
        .introductions
        .clashes(called.as_str(), name.as_str())
    {
        return Err(Fault::IntroduceClash {
            at: Some(at),
            feature: application.feature.name.try_clone(alloc)?,
            name: name.try_clone(alloc)?,
        });
    }
    Ok(())
}

/// An assignment of a name that is no variable which the feature introduces in the module.
fn check_assigned(
    alloc: Global,
    application: &Application,
    called: &Text,
    assignment: &Assignment,
) -> Result<(), Fault>
    requires { applied.IsApplication application.now }
    ensures { ReportsFirst (spec.assign_fault application.now.feature.now called.now
        assignment.now.name assignment.now.at) result }
{
    if contains(
        application.variables,
        called.as_str(),
        assignment.name.as_str(),
    ) {
        return Ok(());
    }
    Err(Fault::IntroducedAssign {
        at: Some(assignment.at),
        feature: application.feature.name.try_clone(alloc)?,
        name: assignment.name.try_clone(alloc)?,
    })
}

/// What an item declares or assigns.
fn check_introduction(
    alloc: Global,
    application: &Application,
    called: &Text,
    item: Item,
) -> Result<(), Fault>
    requires { applied.IsApplication application.now }
    ensures { ReportsFirst (spec.introduction_fault (applied.base_of application.now)
        (applied.family_of application.now) application.now.feature.now called.now
        (items.item_view item.entry)) result }
{
    match item {
        Item::Declaration(declaration) => {
            check_no_instance(alloc, application, declaration)?;
            check_clash(
                alloc,
                application,
                called,
                &declaration.name,
                declaration.at,
            )
        }
        Item::Assignment(assignment) => check_assigned(alloc, application, called, assignment),
        Item::Definition(definition) => {
            check_clash(alloc, application, called, &definition.name, definition.at)
        }
        Item::Constraint(_, _, _) => Ok(()),
    }
}

/// The paths of an expression.
fn check_expr(
    alloc: Global,
    application: &Application,
    module_scope: &ModuleScope,
    e: &Expr,
) -> Result<(), Fault>
    requires { IsModuleScope module_scope.now }
    ensures { ReportsFirst (spec.expr_fault application.now.feature.now.name
        application.now.product (scope_program module_scope.now) module_scope.now.called.now e.now)
        result }
{
    let found = missing_expr(alloc, module_scope, e)?;
    report_missing(alloc, &application.feature.name, application.product, found)
}

fn check_exprs(
    alloc: Global,
    application: &Application,
    module_scope: &ModuleScope,
    exprs: &[Expr],
) -> Result<(), Fault>
    requires { IsModuleScope module_scope.now }
    ensures { ReportsFirst (first_fault
        (spec.expr_fault application.now.feature.now.name application.now.product
        (scope_program module_scope.now) module_scope.now.called.now) exprs.now) result }
{
    for e in exprs {
        check_expr(alloc, application, module_scope, e)?;
    }
    Ok(())
}

/// An item: what it declares or assigns, then the paths of its expressions.
#[tactic(auto, unfolding(crate::specs::Applications::item_fault))]
fn check_item(
    alloc: Global,
    application: &Application,
    module_scope: &ModuleScope,
    item: Item,
) -> Result<(), Fault>
    requires application { applied.IsApplication application.now }
    requires module_scope { IsModuleScope module_scope.now }
    ensures { ReportsFirst (applied.item_fault application.now module_scope.now
        (items.item_view item.entry)) result }
{
    check_introduction(alloc, application, module_scope.called, item)?;
    check_exprs(alloc, application, module_scope, item.exprs())
}

fn check_declarations(
    alloc: Global,
    application: &Application,
    module_scope: &ModuleScope,
    declarations: &[Declaration],
) -> Result<(), Fault>
    requires application { applied.IsApplication application.now }
    requires module_scope { IsModuleScope module_scope.now }
    ensures { ReportsFirst (first_fault (applied.item_fault application.now module_scope.now)
        (map items.declaration_item declarations.now)) result }
{
    for declaration in declarations {
        check_item(
            alloc,
            application,
            module_scope,
            Item::Declaration(declaration),
        )?;
    }
    Ok(())
}

fn check_assignments(
    alloc: Global,
    application: &Application,
    module_scope: &ModuleScope,
    assignments: &[Assignment],
) -> Result<(), Fault>
    requires application { applied.IsApplication application.now }
    requires module_scope { IsModuleScope module_scope.now }
    ensures { ReportsFirst (first_fault (applied.item_fault application.now module_scope.now)
        (map items.assignment_item assignments.now)) result }
{
    for assignment in assignments {
        check_item(
            alloc,
            application,
            module_scope,
            Item::Assignment(assignment),
        )?;
    }
    Ok(())
}

fn check_definitions(
    alloc: Global,
    application: &Application,
    module_scope: &ModuleScope,
    definitions: &[Definition],
) -> Result<(), Fault>
    requires application { applied.IsApplication application.now }
    requires module_scope { IsModuleScope module_scope.now }
    ensures { ReportsFirst (first_fault (applied.item_fault application.now module_scope.now)
        (map items.definition_item definitions.now)) result }
{
    for definition in definitions {
        check_item(
            alloc,
            application,
            module_scope,
            Item::Definition(definition),
        )?;
    }
    Ok(())
}

/// The constraint or spec of a section.
fn check_constraint(
    alloc: Global,
    application: &Application,
    module_scope: &ModuleScope,
    role: Role,
    e: &Expr,
    at: Span,
) -> Result<(), Fault>
    requires application { applied.IsApplication application.now }
    requires module_scope { IsModuleScope module_scope.now }
    ensures { ReportsFirst (first_fault (applied.item_fault application.now module_scope.now)
        (items.Constrains role e.now at ∷ [])) result }
{
    check_item(
        alloc,
        application,
        module_scope,
        Item::Constraint(role, e, at),
    )
}

/// The items of a section.
fn check_section(
    alloc: Global,
    application: &Application,
    module_scope: &ModuleScope,
    section: &Section,
) -> Result<(), Fault>
    requires application { applied.IsApplication application.now }
    requires module_scope { IsModuleScope module_scope.now }
    ensures { ReportsFirst (first_fault (applied.item_fault application.now module_scope.now)
        (items.section_items section.now)) result }
{
    match section {
        Section::Vars(declarations) => {
            check_declarations(alloc, application, module_scope, declarations.as_slice())
        }
        Section::Assigns(assignments) => {
            check_assignments(alloc, application, module_scope, assignments.as_slice())
        }
        Section::Defines(definitions) => {
            check_definitions(alloc, application, module_scope, definitions.as_slice())
        }
        Section::Init(e, at) => {
            check_constraint(alloc, application, module_scope, Role::Init, e, *at)
        }
        Section::Invar(e, at) => {
            check_constraint(alloc, application, module_scope, Role::Invariant, e, *at)
        }
        Section::Trans(e, at) => {
            check_constraint(alloc, application, module_scope, Role::Transition, e, *at)
        }
        Section::InvarSpec(e, at) => {
            check_constraint(alloc, application, module_scope, Role::Spec, e, *at)
        }
    }
}

/// The items of the sections.
fn check_sections(
    alloc: Global,
    application: &Application,
    module_scope: &ModuleScope,
    sections: &[Section],
) -> Result<(), Fault>
    requires application { applied.IsApplication application.now }
    requires module_scope { IsModuleScope module_scope.now }
    ensures { ReportsFirst (first_fault (applied.item_fault application.now module_scope.now)
        (items.all_items sections.now)) result }
{
    for section in sections {
        check_section(alloc, application, module_scope, section)?;
    }
    Ok(())
}

/// The items of a joined part.
#[tactic(auto, unfolding(crate::specs::Applications::item_fault))]
fn check_items(
    alloc: Global,
    application: &Application,
    lookups: &Lookups,
    part: &Joined,
) -> Result<(), Fault>
    requires application { applied.IsApplication application.now }
    requires lookups { AreLookups lookups.now }
    ensures { ReportsFirst (applied.items_fault application.now (program_of lookups.now)
        part.now) result }
{
    let resolver = lookups.resolver;
    let called = part.module.as_str();
    let declared = declared_in(
        alloc,
        resolver.program,
        lookups.scopes,
        lookups.numbers,
        called,
    )?;
    let module_scope = ModuleScope {
        known: resolver,
        called: &part.module,
        declared: &declared,
        rows: resolver.rows.of_module(called),
    };
    check_sections(alloc, application, &module_scope, part.sections.as_slice())
}

/// The head of a joined part.
fn check_head(
    alloc: Global,
    application: &Application,
    lookups: &Lookups,
    part: &Joined,
) -> Result<(), Fault>
    requires { AreLookups lookups.now }
    ensures { ReportsFirst (spec.head_fault application.now.feature.now.name
        application.now.product (program_of lookups.now) part.now) result }
{
    let found = lookups.missing_module(alloc, &part.module, part.at)?;
    report_missing(alloc, &application.feature.name, application.product, found)
}

/// A joined part: its head, then its items.
fn check_part(
    alloc: Global,
    application: &Application,
    lookups: &Lookups,
    part: &Joined,
) -> Result<(), Fault>
    requires application { applied.IsApplication application.now }
    requires lookups { AreLookups lookups.now }
    ensures { ReportsFirst (applied.part_fault application.now (program_of lookups.now)
        part.now) result }
{
    check_head(alloc, application, lookups, part)?;
    check_items(alloc, application, lookups, part)
}

/// The joined parts of the feature, in order.
pub fn check_parts(
    alloc: Global,
    application: &Application,
    lookups: &Lookups,
    parts: &[Joined],
) -> Result<(), Fault>
    requires application { applied.IsApplication application.now }
    requires lookups { AreLookups lookups.now }
    ensures { ReportsFirst (first_fault
        (applied.part_fault application.now (program_of lookups.now)) parts.now) result }
{
    for part in parts {
        check_part(alloc, application, lookups, part)?;
    }
    Ok(())
}
