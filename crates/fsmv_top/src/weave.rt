//! The command `weave`: from files to the text of one product.

ghost use Rattle.std.specs.Prelude.{◌≡◌, ◌≤◌, None, IfOk, IfErr, string_bytes};
ghost use Rattle.feature_model.specs.Validity.{IsValid};
ghost use Rattle.feature_model.specs.WellFormed.{IsFeatureModel};
ghost use Rattle.fsmv_top.specs.FeatureNames.{family_fault};
ghost use Rattle.fsmv_top.specs.Input.{MayRead};
ghost use Rattle.fsmv_top.specs.Plan.{IsWeavePlan, IsFamilyPlan};
ghost use Rattle.fsmv_top.specs.Weaving as spec;
ghost use Rattle.fsmv_top.specs.Words.{weave_view};

use crate::feature_names::check_family;
use crate::input::{InputError, read_family};
use crate::plan::Plan;
use crate::status::Status;
use crate::words::{WeaveWords, listed_names};
use feature_model::{first_valid, is_valid, named_product};
use fsmv_outside::Files;
use integrate::integrate_product;
use smv_ast::{Family, Fault, FeatureModel, NoMemory, Product, Program, Text, print_program};
use smv_names::check_names;
use std::alloc::Global;

/// The valid product that the list names, if there is one.
fn valid_product(
    alloc: Global,
    model: &FeatureModel,
    list: &str,
) -> Result<Option<Product>, NoMemory>
    requires { IsFeatureModel model.now }
    ensures { IfOk result (spec.IsChoice model.now list.now) }
{
    let names = listed_names(alloc, list)?;
    match named_product(model.names.as_slice(), names.as_slice()) {
        Some(product) => {
            if is_valid(model, product) {
                return Ok(Some(product));
            }
            Ok(None)
        }
        None => Ok(None),
    }
}

/// The valid product that the list names. Some product is valid.
fn listed_product(alloc: Global, model: &FeatureModel, list: &str) -> Result<Product, Fault>
    requires model { IsFeatureModel model.now }
    requires some { spec.HasProduct model.now }
    ensures ok { IfOk result (spec.IsChosen model.now list.now) }
    ensures failed { IfErr result (spec.FailsChoice model.now list.now) }
{
    match valid_product(alloc, model, list)? {
        Some(product) => Ok(product),
        None => Err(Fault::NotValid {
            at: None,
            word: Text::from_str(alloc, list)?,
        }),
    }
}

/// The valid product that the list names.
///
/// NoProduct where no product is valid; NotValid, with the list, where it names no valid product.
fn chosen_product(alloc: Global, model: &FeatureModel, list: &str) -> Result<Product, Fault>
    requires { IsFeatureModel model.now }
    ensures ok { IfOk result (spec.IsChosen model.now list.now) }
    ensures failed { IfErr result (spec.FailsChoice model.now list.now) }
{
    match first_valid(model, 0, 0) {
        Some(_) => listed_product(alloc, model, list),
        None => Err(Fault::NoProduct { at: None }),
    }
}

/// The text of a valid product, or the first fault of the base's names or of its features.
fn checked_text(alloc: Global, family: &Family, product: Product) -> Result<Program, Fault>
    requires { IsValid family.now.model product }
    ensures { spec.IsCheckedText family.now product result }
{
    match check_names(alloc, &family.base) {
        Ok(()) => integrate_product(alloc, family, product),
        Err(fault) => Err(fault),
    }
}

/// The text of the product that the list names, where the names of the family have no fault.
fn text_of_choice(alloc: Global, family: &Family, list: &str) -> Result<Program, Fault>
    requires model { IsFeatureModel family.now.model }
    requires sound { family_fault family.now ≡ None }
    ensures { spec.IsTextOrFault family.now list.now result }
{
    match chosen_product(alloc, &family.model, list) {
        Ok(product) => checked_text(alloc, family, product),
        Err(fault) => Err(fault),
    }
}

/// The text of the product that the list names, or the first fault of the family.
fn product_text(alloc: Global, family: &Family, list: &str) -> Result<Program, Fault>
    requires { IsFeatureModel family.now.model }
    ensures { spec.IsTextOrFault family.now list.now result }
{
    match check_family(alloc, family) {
        Ok(()) => text_of_choice(alloc, family, list),
        Err(fault) => Err(fault),
    }
}

fn family_plan(alloc: Global, family: Family, list: &str) -> Result<Plan, NoMemory>
    requires { IsFeatureModel family.model }
    ensures { IfOk result (λ plan. IsFamilyPlan family list.now plan.status
        (string_bytes plan.text)) }
{
    match product_text(alloc, &family, list) {
        Ok(program) => Ok(Plan {
            status: Status::Good,
            text: print_program(alloc, &program)?,
        }),
        Err(Fault::NoMemory) => Err(NoMemory),
        Err(fault) => Plan::refusal(alloc, family.model.names.as_slice(), fault),
    }
}

/// The canonical text of the product that the words name, or the line with the reason for which there is none.
///
/// Files are read in the order of the words, each before the next is opened; then come the faults of the family, in
/// this order: reserved names, texts of features, the choice of the product, the names of the base, and the features of
/// the product as they are applied.
pub fn weave_plan<F: Files>(
    alloc: Global,
    words: WeaveWords<'_>,
    files: &mut F,
) -> Result<Plan, NoMemory>
    requires allowed { MayRead (F.may_read files.old) (weave_view words) }
    ensures held_stays { F.held files.new ≡ F.held files.old }
    ensures may_read_stays { F.may_read files.new ≡ F.may_read files.old }
    ensures faults_never_fall { F.faults files.old ≤ F.faults files.new }
    ensures plan { IfOk result
        (λ plan. IsWeavePlan (F.held files.old) (weave_view words.entry) (F.faults files.old)
        (F.faults files.new) plan.status (string_bytes plan.text)) }
{
    match read_family(alloc, words, files) {
        Ok(family) => family_plan(alloc, family, words.product),
        Err(InputError::Refused(fault)) => Plan::refusal(alloc, &[], fault),
        Err(InputError::Unread { file }) => Plan::read_fault(alloc, file),
        Err(InputError::NoMemory) => Err(NoMemory),
    }
}
