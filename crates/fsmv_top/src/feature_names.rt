//! The names of a family's feature texts.

ghost use Rattle.std.specs.Prelude.{◌≡◌};
ghost use Rattle.smv_meaning.specs.Faults.{ReportsFirst};
ghost use Rattle.smv_meaning.specs.NameSets.{in_set, no_name};
ghost use Rattle.smv_meaning.specs.Runs.{first_fault};
ghost use Rattle.fsmv_top.specs.FeatureNames as spec;

use crate::reserved::check_reserved;
use feature_model::feature_of;
use smv_ast::{Family, Fault, Feature, Text};
use smv_meaning::name_sets::{insert_name, no_names};
use std::alloc::Global;
use std::collections::HashSet;

#[tactic(auto, unfolding(crate::specs::FeatureNames::repeated_text))]
fn check_new_text(alloc: Global, seen: &HashSet<&str>, feature: &Feature) -> Result<(), Fault>
    ensures { ReportsFirst (spec.repeated_text (in_set seen.now) feature.now) result }
{
    if seen.contains(feature.name.as_str()) {
        let name = feature.name.try_clone(alloc)?;
        return Err(Fault::DuplicateText {
            at: Some(feature.at),
            name,
        });
    }
    Ok(())
}

fn check_single_texts(alloc: Global, features: &[Feature]) -> Result<(), Fault>
    ensures { ReportsFirst (spec.second_text no_name features.now) result }
{
    let mut seen = no_names(alloc);
    for feature in features {
        check_new_text(alloc, &seen, feature)?;
        insert_name(&mut seen, &feature.name)?;
    }
    Ok(())
}

#[tactic(auto, unfolding(crate::specs::FeatureNames::unlisted))]
fn check_listed_text(alloc: Global, names: &[Text], feature: &Feature) -> Result<(), Fault>
    ensures { ReportsFirst (spec.unlisted names.now feature.now) result }
{
    if feature_of(names, &feature.name).is_some() {
        return Ok(());
    }
    let name = feature.name.try_clone(alloc)?;
    Err(Fault::FeatureNotInModel {
        at: Some(feature.at),
        name,
    })
}

fn check_listed_texts(alloc: Global, names: &[Text], features: &[Feature]) -> Result<(), Fault>
    ensures { ReportsFirst (first_fault (spec.unlisted names.now) features.now) result }
{
    for feature in features {
        check_listed_text(alloc, names, feature)?;
    }
    Ok(())
}

/// The first fault of the names that a family declares, each in the order of the files:
///
/// - `ReservedName`: a name of the base or of a feature begins with `fsmv_`;
/// - `DuplicateText`: an earlier text of a feature has the same name;
/// - `FeatureNotInModel`: the feature model has no feature of the text's name.
///
/// The only other error is `NoMemory`.
pub fn check_family(alloc: Global, family: &Family) -> Result<(), Fault>
    ensures { ReportsFirst (spec.family_fault family.now) result }
{
    check_reserved(alloc, family)?;
    check_single_texts(alloc, family.features.as_slice())?;
    let names = family.model.names.as_slice();
    check_listed_texts(alloc, names, family.features.as_slice())
}
