//! Names that begin with `fsmv_`, which no base and no feature may declare.

ghost use Rattle.std.specs.Prelude.{◌≡◌};
ghost use Rattle.smv_meaning.specs.Faults.{ReportsFirst};
ghost use Rattle.smv_meaning.specs.Runs.{first_fault};
ghost use Rattle.fsmv_top.specs.ReservedNames as spec;

use feature_model::is_reserved;
use smv_ast::{
    Declaration, Declared, Definition, Family, Fault, Feature, Joined, Module, Need, Section,
    SmvType, Span, Text,
};
use std::alloc::Global;

fn check_name(alloc: Global, at: Span, name: &Text) -> Result<(), Fault>
    ensures { ReportsFirst (spec.reserved_name at name.now) result }
{
    if !is_reserved(name.as_str()) {
        return Ok(());
    }
    Err(Fault::ReservedName {
        at: Some(at),
        name: name.try_clone(alloc)?,
    })
}

fn check_names(alloc: Global, at: Span, names: &[Text]) -> Result<(), Fault>
    ensures { ReportsFirst (first_fault (spec.reserved_name at) names.now) result }
{
    for name in names {
        check_name(alloc, at, name)?;
    }
    Ok(())
}

/// The symbols of a type.
fn check_type(alloc: Global, at: Span, values: &SmvType) -> Result<(), Fault>
    ensures { ReportsFirst (spec.reserved_in_type at values.now) result }
{
    match values {
        SmvType::Symbols(names) => check_names(alloc, at, names.as_slice()),
        _ => Ok(()),
    }
}

fn check_declared(alloc: Global, at: Span, declared: &Declared) -> Result<(), Fault>
    ensures { ReportsFirst (spec.reserved_in_declared at declared.now) result }
{
    match declared {
        Declared::Plain(values) => check_type(alloc, at, values),
        Declared::Instance { .. } => Ok(()),
    }
}

fn check_declaration(alloc: Global, declaration: &Declaration) -> Result<(), Fault>
    ensures { ReportsFirst (spec.reserved_in_declaration declaration.now) result }
{
    check_name(alloc, declaration.at, &declaration.name)?;
    check_declared(alloc, declaration.at, &declaration.what)
}

fn check_declarations(alloc: Global, declarations: &[Declaration]) -> Result<(), Fault>
    ensures { ReportsFirst (first_fault spec.reserved_in_declaration declarations.now) result }
{
    for declaration in declarations {
        check_declaration(alloc, declaration)?;
    }
    Ok(())
}

fn check_definitions(alloc: Global, definitions: &[Definition]) -> Result<(), Fault>
    ensures { ReportsFirst (first_fault spec.reserved_definition definitions.now) result }
{
    for definition in definitions {
        check_name(alloc, definition.at, &definition.name)?;
    }
    Ok(())
}

fn check_section(alloc: Global, section: &Section) -> Result<(), Fault>
    ensures { ReportsFirst (spec.reserved_in_section section.now) result }
{
    match section {
        Section::Vars(declarations) => check_declarations(alloc, declarations.as_slice()),
        Section::Defines(definitions) => check_definitions(alloc, definitions.as_slice()),
        _ => Ok(()),
    }
}

fn check_sections(alloc: Global, sections: &[Section]) -> Result<(), Fault>
    ensures { ReportsFirst (first_fault spec.reserved_in_section sections.now) result }
{
    for section in sections {
        check_section(alloc, section)?;
    }
    Ok(())
}

fn check_module(alloc: Global, module: &Module) -> Result<(), Fault>
    ensures { ReportsFirst (spec.reserved_in_module «module».now) result }
{
    check_name(alloc, module.at, &module.name)?;
    check_names(alloc, module.at, module.formals.as_slice())?;
    check_sections(alloc, module.sections.as_slice())
}

fn check_modules(alloc: Global, modules: &[Module]) -> Result<(), Fault>
    ensures { ReportsFirst (first_fault spec.reserved_in_module modules.now) result }
{
    for owner in modules {
        check_module(alloc, owner)?;
    }
    Ok(())
}

fn check_need(alloc: Global, need: &Need) -> Result<(), Fault>
    ensures { ReportsFirst (spec.reserved_in_need need.now) result }
{
    match &need.wanted {
        Some(values) => check_type(alloc, need.at, values),
        None => Ok(()),
    }
}

fn check_needs(alloc: Global, needs: &[Need]) -> Result<(), Fault>
    ensures { ReportsFirst (first_fault spec.reserved_in_need needs.now) result }
{
    for need in needs {
        check_need(alloc, need)?;
    }
    Ok(())
}

fn check_joins(alloc: Global, joins: &[Joined]) -> Result<(), Fault>
    ensures { ReportsFirst (first_fault spec.reserved_in_joined joins.now) result }
{
    for joined in joins {
        check_sections(alloc, joined.sections.as_slice())?;
    }
    Ok(())
}

fn check_feature(alloc: Global, feature: &Feature) -> Result<(), Fault>
    ensures { ReportsFirst (spec.reserved_in_feature feature.now) result }
{
    check_name(alloc, feature.at, &feature.name)?;
    check_needs(alloc, feature.needs.as_slice())?;
    check_joins(alloc, feature.joins.as_slice())
}

fn check_features(alloc: Global, features: &[Feature]) -> Result<(), Fault>
    ensures { ReportsFirst (first_fault spec.reserved_in_feature features.now) result }
{
    for feature in features {
        check_feature(alloc, feature)?;
    }
    Ok(())
}

/// The first name of the base or of a feature that begins with `fsmv_`: a name that is declared, a formal, a symbol
/// of a type, or the name of a module or a feature.
pub fn check_reserved(alloc: Global, family: &Family) -> Result<(), Fault>
    ensures { ReportsFirst (spec.reserved_fault family.now) result }
{
    check_modules(alloc, family.base.modules.as_slice())?;
    check_features(alloc, family.features.as_slice())
}
