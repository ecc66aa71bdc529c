//! The search for the first valid product.

ghost use Rattle.std.specs.Prelude.{◌≡◌, ℕ, ◌<◌, Bool, not, true, false, MatchOption};
ghost use Rattle.feature_model.specs.Findings.{Conflicts};
ghost use Rattle.feature_model.specs.FirstValid as spec;
ghost use Rattle.feature_model.specs.PartialProducts as partials;
ghost use Rattle.feature_model.specs.Products as products;
ghost use Rattle.feature_model.specs.Validity.{IsValid};
ghost use Rattle.feature_model.specs.WellFormed as well_formed;

use crate::finding::Finding;
use crate::partial_product::PartialProduct;
use crate::propagation::model_finding;
use crate::sets::{complement, features_from, first_common, first_feature, has, with, without};
use crate::validity::is_valid;
use smv_ast::{FeatureModel, Product};

/// Where every feature is decided: the product of those that are chosen, if it is valid.
fn decided_product(
    model: &FeatureModel,
    partial: PartialProduct,
    chosen: u64,
) -> Result<Product, u64>
    requires fits { well_formed.FitsSet model.now }
    requires consistent { partials.IsConsistent partial }
    requires decided { (f : ℕ) → f < 64 → partials.is_decided partial f ≡ true }
    requires chosen { chosen ≡ partial.chosen }
    ensures { spec.IsFound model.now partial result }
{
    let product = Product { bits: chosen };
    if is_valid(model, product) {
        Ok(product)
    } else {
        Err(u64::MAX)
    }
}

/// Goes on with a feature decided as said, where the features of a conflict say that it is not decided otherwise.
#[cycle(search)]
fn search_other(
    model: &FeatureModel,
    partial: PartialProduct,
    feature: u8,
    chosen: bool,
    conflict: u64,
) -> Result<Product, u64>
    requires fits { well_formed.FitsSet model.now }
    requires consistent { partials.IsConsistent partial }
    requires small { feature < 64 }
    requires undecided { partials.is_decided partial feature ≡ false }
    requires only { spec.Excludes model.now partial feature (not chosen) conflict }
    ensures { spec.IsFound model.now partial result }
{
    match search(model, partial.decide(feature, chosen)) {
        Ok(product) => Ok(product),
        Err(other) => {
            if has(other, feature) {
                Err(without(conflict | other, feature))
            } else {
                Err(other)
            }
        }
    }
}

/// Decides the feature, first as left out.
#[cycle(search)]
fn branch(model: &FeatureModel, partial: PartialProduct, feature: u8) -> Result<Product, u64>
    requires fits { well_formed.FitsSet model.now }
    requires consistent { partials.IsConsistent partial }
    requires first { partials.IsFirstOpen partial feature }
    ensures { spec.IsFound model.now partial result }
{
    match search(model, partial.decide(feature, false)) {
        Ok(product) => Ok(product),
        Err(conflict) => {
            if has(conflict, feature) {
                search_other(model, partial, feature, true, conflict)
            } else {
                Err(conflict)
            }
        }
    }
}

/// The first valid product that agrees with the partial product, or the features of a conflict.
#[cycle(search)]
fn search(model: &FeatureModel, partial: PartialProduct) -> Result<Product, u64>
    requires fits { well_formed.FitsSet model.now }
    requires consistent { partials.IsConsistent partial }
    ensures { spec.IsFound model.now partial result }
{
    match model_finding(model, partial) {
        Finding::Refuted { features } => Err(features),
        Finding::Forced {
            feature,
            chosen,
            features,
        } => search_other(model, partial, feature, chosen, features),
        Finding::Open => match first_feature(complement(partial.decided())) {
            Some(feature) => branch(model, partial, feature),
            None => decided_product(model, partial, partial.chosen),
        },
    }
}

/// The features that are decided before a search: the root and the wanted ones are chosen, the unwanted
/// ones and those beyond the last are left out.
fn decided_before(model: &FeatureModel, yes: u64, no: u64) -> PartialProduct
    ensures { spec.IsBefore model.now yes no result }
{
    PartialProduct {
        chosen: with(yes, 0),
        left_out: no | features_from(model.names.len()),
    }
}

/// The first valid product, in the order of products, that has each feature of `yes` and none of `no`;
/// none where there is no such product. Bit i stands for feature i. There is no such product where a
/// feature is in both sets, or where `yes` has a bit beyond the last feature; such a bit of `no` asks nothing.
pub fn first_valid(model: &FeatureModel, yes: u64, no: u64) -> Option<Product>
    requires { well_formed.IsFeatureModel model.now }
    ensures { MatchOption result (spec.HasNoValid model.now yes no) (spec.IsFirstValid model.now yes no) }
{
    let partial = decided_before(model, yes, no);
    match first_common(partial.chosen, partial.left_out) {
        Some(_) => None,
        None => search(model, partial).ok(),
    }
}
