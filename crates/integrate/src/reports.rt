//! Faults of a feature.

ghost use Rattle.std.specs.Prelude.{◌≡◌, IfOk};
ghost use Rattle.std.specs.Option.{option_map};
ghost use Rattle.smv_meaning.specs.Faults.{ReportsFirst};
ghost use Rattle.integrate.specs.Changes as spec;

use crate::names::MissingName;
use smv_ast::{Fault, NoMemory, Product, Text};
use smv_meaning::rules::report;
use std::alloc::Global;

/// The fault of a missing name.
pub fn missing_fault(
    alloc: Global,
    feature: &Text,
    product: Product,
    missing: MissingName,
) -> Result<Fault, NoMemory>
    ensures { IfOk result (λ f. f ≡ spec.missing_fault feature.now product missing) }
{
    Ok(Fault::RequireMissing {
        at: Some(missing.at),
        feature: feature.try_clone(alloc)?,
        name: missing.name,
        product,
    })
}

fn found_fault(
    alloc: Global,
    feature: &Text,
    product: Product,
    found: Option<MissingName>,
) -> Result<Option<Fault>, NoMemory>
    ensures { IfOk result (λ fault. fault
        ≡ option_map (spec.missing_fault feature.now product) found) }
{
    match found {
        Some(missing) => Ok(Some(missing_fault(alloc, feature, product, missing)?)),
        None => Ok(None),
    }
}

/// Refuses a missing name.
pub fn report_missing(
    alloc: Global,
    feature: &Text,
    product: Product,
    found: Option<MissingName>,
) -> Result<(), Fault>
    ensures { ReportsFirst (option_map (spec.missing_fault feature.now product) found) result }
{
    let fault = found_fault(alloc, feature, product, found)?;
    report(fault)
}
