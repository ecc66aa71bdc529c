//! The text of a product of a family.

ghost use Rattle.std.specs.Prelude.{◌≡◌, Err, IfOk};
ghost use Rattle.feature_model.specs.NamedProducts.{printed_product};
ghost use Rattle.feature_model.specs.Validity.{IsValid};
ghost use Rattle.integrate_impose.specs.Answers.{Answers};
ghost use Rattle.integrate.specs.IntroductionTable.{AreIntroductions};
ghost use Rattle.integrate.specs.ProductText as spec;

use crate::application::apply_feature;
use crate::introductions::Introductions;
use feature_model::{feature_of, has_feature, is_valid, product_names};
use integrate_impose::section_copies::copy_program;
use smv_ast::{Family, Fault, Feature, NoMemory, Product, Program, Text, print_joined};
use std::alloc::Global;

/// Whether the product has the feature of a text.
fn is_chosen(names: &[Text], product: Product, feature: &Feature) -> bool
    ensures { result ≡ spec.is_chosen names.now product feature.now }
{
    match feature_of(names, &feature.name) {
        Some(number) => has_feature(product, number),
        None => false,
    }
}

/// The model with the features of the product applied in order.
fn apply_features(
    alloc: Global,
    introductions: &Introductions,
    names: &[Text],
    product: Product,
    features: &[Feature],
    program: Program,
) -> Result<Program, Fault>
    requires { AreIntroductions introductions.now }
    ensures { Answers (spec.all_applied introductions.now.base.now introductions.now.features.now
        product (spec.chosen names.now product features.now) program) result }
{
    let mut program = program;
    for feature in features {
        if is_chosen(names, product, feature) {
            match apply_feature(alloc, introductions, product, feature, program) {
                Ok(next) => program = next,
                Err(fault) => return Err(fault),
            }
        }
    }
    Ok(program)
}

/// The names of the features of the product in feature order, joined by commas.
fn product_word(alloc: Global, names: &[Text], product: Product) -> Result<Text, NoMemory>
    ensures { IfOk result (λ word. word ≡ printed_product names.now product) }
{
    let found = product_names(alloc, names, product)?;
    let mut out = String::new(alloc);
    print_joined(&mut out, ",", found.as_slice())?;
    Text::from_str(alloc, out.as_str())
}

fn not_valid(alloc: Global, family: &Family, product: Product) -> Result<Fault, NoMemory>
    ensures { IfOk result (λ f. f ≡ spec.not_valid family.now product) }
{
    Ok(Fault::NotValid {
        at: None,
        word: product_word(alloc, family.model.names.as_slice(), product)?,
    })
}

/// The base with the features of the product applied in the order of their texts.
fn product_text(alloc: Global, family: &Family, product: Product) -> Result<Program, Fault>
    ensures { Answers (spec.text_of family.now product) result }
{
    let introductions = Introductions::of_family(alloc, &family.base, family.features.as_slice())?;
    let base = copy_program(alloc, &family.base)?;
    apply_features(
        alloc,
        &introductions,
        family.model.names.as_slice(),
        product,
        family.features.as_slice(),
        base,
    )
}

/// The text of a product of the family: the base with the features of the product applied, in the
/// order in which their texts stand in the family.
///
/// NotValid exactly where the product is not valid: it keeps the names of the product's features in
/// feature order, joined by commas. Else the faults of `integrate_one`, where clashes are judged in
/// the whole family and RequireMissing keeps the given product.
pub fn integrate_product(alloc: Global, family: &Family, product: Product) -> Result<Program, Fault>
    ensures valid { IsValid family.now.model product
        → Answers (spec.text_of family.now product) result }
    ensures not_valid { (IsValid family.now.model product → ⊥)
        → Answers (Err (spec.not_valid family.now product)) result }
{
    if is_valid(&family.model, product) {
        return product_text(alloc, family, product);
    }
    Err(not_valid(alloc, family, product)?)
}
