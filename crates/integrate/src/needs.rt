//! What a feature requires of a model.

ghost use Rattle.std.specs.Prelude.{◌≡◌, IfOk};
ghost use Rattle.std.specs.Option.{option_map};
ghost use Rattle.smv_meaning.specs.Entries.{entity_view};
ghost use Rattle.smv_meaning.specs.Faults.{ReportsFirst};
ghost use Rattle.smv_meaning.specs.Runs.{first_fault};
ghost use Rattle.integrate.specs.Lookups.{AreLookups, program_of};
ghost use Rattle.integrate.specs.FeatureFaults as spec;

use crate::lookups::Lookups;
use crate::names::MissingName;
use crate::reports::report_missing;
use crate::types::same_type;
use integrate_impose::texts::same_text;
use smv_ast::{Fault, Need, NoMemory, Product, SmvType, Text};
use smv_meaning::entries::Entity;
use std::alloc::Global;

/// The name of a need that its module does not declare. An empty name requires the module alone.
fn missing_needed(
    alloc: Global,
    lookups: &Lookups,
    need: &Need,
) -> Result<Option<MissingName>, NoMemory>
    requires { AreLookups lookups.now }
    ensures { IfOk result (λ found. found
        ≡ spec.missing_needed (program_of lookups.now) need.now) }
{
    if same_text(&need.name, "") {
        return Ok(None);
    }
    lookups.missing_target(alloc, need.module.as_str(), need.at, &need.name)
}

/// The first missing name of a need, its module first.
fn missing_in_need(
    alloc: Global,
    lookups: &Lookups,
    need: &Need,
) -> Result<Option<MissingName>, NoMemory>
    requires { AreLookups lookups.now }
    ensures { IfOk result (λ found. found
        ≡ spec.missing_in_need (program_of lookups.now) need.now) }
{
    match lookups.missing_module(alloc, &need.module, need.at)? {
        Some(missing) => Ok(Some(missing)),
        None => missing_needed(alloc, lookups, need),
    }
}

/// Whether it is a variable of a type equal to the wanted one.
fn has_type(wanted: &SmvType, entity: Option<Entity>) -> bool
    ensures { result ≡ spec.has_type wanted.now (option_map entity_view entity.entry) }
{
    match entity {
        Some(Entity::Variable(values)) => same_type(values, wanted),
        _ => false,
    }
}

/// The type of a need, if it has one.
fn check_type(alloc: Global, feature: &Text, lookups: &Lookups, need: &Need) -> Result<(), Fault>
    requires { AreLookups lookups.now }
    ensures { ReportsFirst (spec.type_fault (program_of lookups.now) feature.now need.now
        need.now.wanted) result }
{
    let Some(wanted) = &need.wanted else {
        return Ok(());
    };
    if has_type(
        wanted,
        lookups.entity(need.module.as_str(), need.name.as_str()),
    ) {
        return Ok(());
    }
    Err(Fault::RequireType {
        at: Some(need.at),
        feature: feature.try_clone(alloc)?,
        name: need.name.try_clone(alloc)?,
    })
}

/// A need: its names, then its type.
fn check_need(
    alloc: Global,
    feature: &Text,
    product: Product,
    lookups: &Lookups,
    need: &Need,
) -> Result<(), Fault>
    requires { AreLookups lookups.now }
    ensures { ReportsFirst (spec.need_fault feature.now product (program_of lookups.now) need.now)
        result }
{
    let found = missing_in_need(alloc, lookups, need)?;
    report_missing(alloc, feature, product, found)?;
    check_type(alloc, feature, lookups, need)
}

/// The needs of a feature, in order.
pub fn check_needs(
    alloc: Global,
    feature: &Text,
    product: Product,
    lookups: &Lookups,
    needs: &[Need],
) -> Result<(), Fault>
    requires { AreLookups lookups.now }
    ensures { ReportsFirst
        (first_fault (spec.need_fault feature.now product (program_of lookups.now)) needs.now)
        result }
{
    for need in needs {
        check_need(alloc, feature, product, lookups, need)?;
    }
    Ok(())
}
