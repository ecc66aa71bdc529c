//! Applying a feature to a model.

ghost use Rattle.std.specs.Prelude.{◌≡◌, map};
ghost use Rattle.integrate_impose.specs.Answers.{Answers};
ghost use Rattle.smv_meaning.specs.Checking.{IsTableOfProgram};
ghost use Rattle.smv_meaning.specs.Faults.{ReportsFirst};
ghost use Rattle.smv_meaning.specs.Scopes.{scope_view, scopes_of as scopes_of_program};
ghost use Rattle.integrate.specs.Applications.{IsApplication, feature_fault};
ghost use Rattle.integrate.specs.IntroductionTable.{AreIntroductions};
ghost use Rattle.integrate.specs.Lookups.{AreLookups, program_of};
ghost use Rattle.integrate.specs.Applied as spec;

use crate::changes::apply_changes;
use crate::introductions::Introductions;
use crate::joined::with_parts;
use crate::lookups::{Lookups, module_set};
use crate::module_names::{introduced_variables, set_of};
use crate::needs::check_needs;
use crate::parts::{Application, check_parts};
use integrate_impose::section_copies::copy_program;
use smv_ast::{Fault, Feature, Product, Program};
use smv_meaning::aliases::aliases_of;
use smv_meaning::scope::{Scope, modules_by_name, scopes_of};
use smv_meaning::symbols::symbols_of;
use smv_meaning::table::{InstanceTable, instance_table};
use smv_names::known::Resolver;
use smv_names::rows::RowsByModule;
use std::alloc::Global;
use std::slice;

/// The needs of the feature, then its joined parts.
fn check_feature(alloc: Global, application: &Application, lookups: &Lookups) -> Result<(), Fault>
    requires application { IsApplication application.now }
    requires lookups { AreLookups lookups.now }
    ensures { ReportsFirst (feature_fault application.now (program_of lookups.now)) result }
{
    let feature = application.feature;
    check_needs(
        alloc,
        &feature.name,
        application.product,
        lookups,
        feature.needs.as_slice(),
    )?;
    check_parts(alloc, application, lookups, feature.joins.as_slice())
}

fn check_in_table(
    alloc: Global,
    application: &Application,
    program: &Program,
    scopes: &[Scope],
    table: &InstanceTable,
) -> Result<(), Fault>
    requires application { IsApplication application.now }
    requires scopes { map scope_view scopes.now ≡ scopes_of_program program.now }
    requires right { IsTableOfProgram program.now table.now }
    ensures { ReportsFirst (feature_fault application.now program.now) result }
{
    let aliases = aliases_of(alloc, table)?;
    let rows_by_module = RowsByModule::of_program(alloc, program, table)?;
    let symbols = symbols_of(alloc, program)?;
    let numbers = modules_by_name(alloc, scopes)?;
    let modules = module_set(alloc, program)?;
    let resolver = Resolver {
        program,
        table,
        aliases: aliases.as_slice(),
        rows: &rows_by_module,
        symbols: &symbols,
    };
    let lookups = Lookups {
        resolver: &resolver,
        scopes,
        numbers: &numbers,
        modules: &modules,
    };
    check_feature(alloc, application, &lookups)
}

fn check_in_scopes(
    alloc: Global,
    application: &Application,
    program: &Program,
    scopes: &[Scope],
) -> Result<(), Fault>
    requires application { IsApplication application.now }
    requires scopes { map scope_view scopes.now ≡ scopes_of_program program.now }
    ensures { ReportsFirst (feature_fault application.now program.now) result }
{
    match instance_table(alloc, program, scopes, usize::MAX)? {
        Some(table) => check_in_table(alloc, application, program, scopes, &table),
        // No table in memory has that many instances.
        None => Err(Fault::NoMemory),
    }
}

/// The needs and joined parts of the feature, in the model with the joined parts appended.
fn check_introduced(
    alloc: Global,
    application: &Application,
    program: &Program,
) -> Result<(), Fault>
    requires { IsApplication application.now }
    ensures { ReportsFirst (feature_fault application.now program.now) result }
{
    let scopes = scopes_of(alloc, program)?;
    check_in_scopes(alloc, application, program, scopes.as_slice())
}

/// The model with the joined parts of the feature appended.
fn introduce(alloc: Global, application: &Application, program: Program) -> Result<Program, Fault>
    requires { IsApplication application.now }
    ensures { Answers (spec.introduced application.now.introductions.now.base.now
        application.now.introductions.now.features.now application.now.product
        application.now.feature.now program) result }
{
    let parts = application.feature.joins.as_slice();
    let joined = with_parts(alloc, program, parts)?;
    match check_introduced(alloc, application, &joined) {
        Ok(()) => Ok(joined),
        Err(fault) => Err(fault),
    }
}

/// The model with a feature of the family applied.
pub fn apply_feature(
    alloc: Global,
    introductions: &Introductions,
    product: Product,
    feature: &Feature,
    program: Program,
) -> Result<Program, Fault>
    requires { AreIntroductions introductions.now }
    ensures { Answers (spec.applied introductions.now.base.now introductions.now.features.now
        product feature.now program) result }
{
    let names = introduced_variables(alloc, feature.joins.as_slice())?;
    let variables = set_of(alloc, names.as_slice())?;
    let application = Application {
        introductions,
        feature,
        product,
        variables: &variables,
    };
    match introduce(alloc, &application, program) {
        Ok(joined) => apply_changes(
            alloc,
            &feature.name,
            product,
            joined,
            feature.changes.as_slice(),
        ),
        Err(fault) => Err(fault),
    }
}

/// The model with one feature applied: its needs are judged, its joined parts appended, and its
/// changes applied in order. The family is the model and this feature alone; the model is consumed.
///
/// In written order of the items, for each item: IntroducedInstance, IntroduceClash,
/// IntroducedAssign, RequireMissing, which keeps the empty product, RequireType, and then the faults
/// of a change.
pub fn integrate_one(alloc: Global, program: Program, feature: &Feature) -> Result<Program, Fault>
    ensures { Answers (spec.applied_alone feature.now program) result }
{
    let base = copy_program(alloc, &program)?;
    let introductions = Introductions::of_family(alloc, &base, slice::from_ref(feature))?;
    apply_feature(alloc, &introductions, Product { bits: 0 }, feature, program)
}
