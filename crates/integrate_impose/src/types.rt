//! The types of the variables of a module.

ghost use Rattle.std.specs.Prelude.{◌≡◌, [], find};
ghost use Rattle.std.specs.List.{list_any};
ghost use Rattle.std.specs.Str.{bytes_eq};
ghost use Rattle.std.specs.Option.{option_copied};
ghost use Rattle.integrate_impose.specs.VariableTypes as spec;

use crate::texts::same_text;
use smv_ast::{Declaration, Declared, Definition, Module, Section, SmvType, Text};

/// The first of the declarations of this name.
fn declaration_named<'a>(name: &str, declarations: &'a [Declaration]) -> Option<&'a Declaration>
    ensures { option_copied result ≡ find (λ d. bytes_eq d.name name.now) declarations.now }
{
    for declaration in declarations {
        if same_text(&declaration.name, name) {
            return Some(declaration);
        }
    }
    None
}

fn declares_variable(name: &str, declarations: &[Declaration]) -> bool
    ensures { result ≡ list_any (λ d. bytes_eq d.name name.now) declarations.now }
{
    for declaration in declarations {
        if same_text(&declaration.name, name) {
            return true;
        }
    }
    false
}

fn defines(name: &str, definitions: &[Definition]) -> bool
    ensures { result ≡ list_any (λ d. bytes_eq d.name name.now) definitions.now }
{
    for definition in definitions {
        if same_text(&definition.name, name) {
            return true;
        }
    }
    false
}

fn is_formal(name: &str, formals: &[Text]) -> bool
    ensures { result ≡ list_any (λ formal. bytes_eq formal name.now) formals.now }
{
    for formal in formals {
        if same_text(formal, name) {
            return true;
        }
    }
    false
}

fn declares(name: &str, section: &Section) -> bool
    ensures { result ≡ spec.declares name.now section.now }
{
    match section {
        Section::Vars(declarations) => declares_variable(name, declarations.as_slice()),
        Section::Defines(definitions) => defines(name, definitions.as_slice()),
        _ => false,
    }
}

/// The first section that declares the name.
fn declaring<'a>(name: &str, sections: &'a [Section]) -> Option<&'a Section>
    ensures { option_copied result ≡ find (spec.declares name.now) sections.now }
{
    for section in sections {
        if declares(name, section) {
            return Some(section);
        }
    }
    None
}

/// The type of the first of the declarations of this name.
fn declared_type<'a>(name: &str, declarations: &'a [Declaration]) -> Option<&'a SmvType>
    ensures { option_copied result ≡ spec.declared_type name.now declarations.now }
{
    match &declaration_named(name, declarations)?.what {
        Declared::Plain(values) => Some(values),
        Declared::Instance { .. } => None,
    }
}

fn type_in<'a>(name: &str, section: &'a Section) -> Option<&'a SmvType>
    ensures { option_copied result ≡ spec.type_in name.now section.now }
{
    match section {
        Section::Vars(declarations) => declared_type(name, declarations.as_slice()),
        _ => None,
    }
}

/// The type of the variable of this name, if the module declares one; the first declaration of the
/// name counts.
pub fn type_of<'a>(name: &str, owner: &'a Module) -> Option<&'a SmvType>
    ensures { option_copied result ≡ spec.type_of name.now owner.now }
{
    if is_formal(name, owner.formals.as_slice()) {
        return None;
    }
    type_in(name, declaring(name, owner.sections.as_slice())?)
}
