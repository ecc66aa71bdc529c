//! The symbols of the types of features.

ghost use Rattle.std.specs.Prelude.{◌≡◌, OnOk};
ghost use Rattle.smv_meaning.specs.NameSets.{in_set, and_names};
ghost use Rattle.smv_meaning.specs.Symbols.{type_symbols, declared_symbols};
ghost use Rattle.integrate.specs.Introductions as spec;

use smv_ast::{Declaration, Declared, Feature, Joined, Need, NoMemory, Section, SmvType};
use smv_meaning::name_sets::insert_name;
use std::collections::HashSet;

fn insert_type<'a>(names: &mut HashSet<&'a str>, values: &'a SmvType) -> Result<(), NoMemory>
    ensures { OnOk result (in_set names.new
        ≡ and_names (in_set names.old) (type_symbols values.now)) }
{
    let SmvType::Symbols(symbols) = values else {
        return Ok(());
    };
    for symbol in symbols.as_slice() {
        insert_name(names, symbol)?;
    }
    Ok(())
}

fn insert_need<'a>(names: &mut HashSet<&'a str>, need: &'a Need) -> Result<(), NoMemory>
    ensures { OnOk result (in_set names.new
        ≡ and_names (in_set names.old) (spec.wanted_symbols need.now.wanted)) }
{
    match &need.wanted {
        Some(values) => insert_type(names, values),
        None => Ok(()),
    }
}

fn insert_declaration<'a>(
    names: &mut HashSet<&'a str>,
    declaration: &'a Declaration,
) -> Result<(), NoMemory>
    ensures { OnOk result (in_set names.new
        ≡ and_names (in_set names.old) (declared_symbols declaration.now.what)) }
{
    match &declaration.what {
        Declared::Plain(values) => insert_type(names, values),
        Declared::Instance { .. } => Ok(()),
    }
}

#[tactic(auto, using(smv_meaning::proofs::NameSetLemmas::and_names_append))]
fn insert_section<'a>(names: &mut HashSet<&'a str>, section: &'a Section) -> Result<(), NoMemory>
    ensures { OnOk result (in_set names.new
        ≡ and_names (in_set names.old) (spec.section_symbols section.now)) }
{
    let Section::Vars(declarations) = section else {
        return Ok(());
    };
    for declaration in declarations.as_slice() {
        insert_declaration(names, declaration)?;
    }
    Ok(())
}

#[tactic(auto, using(smv_meaning::proofs::NameSetLemmas::and_names_append))]
fn insert_part<'a>(names: &mut HashSet<&'a str>, part: &'a Joined) -> Result<(), NoMemory>
    ensures { OnOk result (in_set names.new
        ≡ and_names (in_set names.old) (spec.part_symbols part.now)) }
{
    for section in part.sections.as_slice() {
        insert_section(names, section)?;
    }
    Ok(())
}

#[tactic(auto, using(smv_meaning::proofs::NameSetLemmas::and_names_append))]
fn insert_needs<'a>(names: &mut HashSet<&'a str>, needs: &'a [Need]) -> Result<(), NoMemory>
    ensures { OnOk result (in_set names.new
        ≡ and_names (in_set names.old) (spec.needs_symbols needs.now)) }
{
    for need in needs {
        insert_need(names, need)?;
    }
    Ok(())
}

#[tactic(auto, using(smv_meaning::proofs::NameSetLemmas::and_names_append))]
fn insert_parts<'a>(names: &mut HashSet<&'a str>, parts: &'a [Joined]) -> Result<(), NoMemory>
    ensures { OnOk result (in_set names.new
        ≡ and_names (in_set names.old) (spec.parts_symbols parts.now)) }
{
    for part in parts {
        insert_part(names, part)?;
    }
    Ok(())
}

#[tactic(auto, using(smv_meaning::proofs::NameSetLemmas::and_names_append))]
fn insert_feature<'a>(names: &mut HashSet<&'a str>, feature: &'a Feature) -> Result<(), NoMemory>
    ensures { OnOk result (in_set names.new
        ≡ and_names (in_set names.old) (spec.feature_symbols feature.now)) }
{
    insert_needs(names, feature.needs.as_slice())?;
    insert_parts(names, feature.joins.as_slice())
}

/// Inserts the symbols of the types of the features.
#[tactic(auto, using(smv_meaning::proofs::NameSetLemmas::and_names_append))]
pub fn insert_features<'a>(
    names: &mut HashSet<&'a str>,
    features: &'a [Feature],
) -> Result<(), NoMemory>
    ensures { OnOk result (in_set names.new
        ≡ and_names (in_set names.old) (spec.symbols_of_features features.now)) }
{
    for feature in features {
        insert_feature(names, feature)?;
    }
    Ok(())
}
