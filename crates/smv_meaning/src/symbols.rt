//! The symbols of a program: the words of its enumerations.

ghost use Rattle.std.specs.Prelude.{◌≡◌, IfOk, OnOk};
ghost use Rattle.smv_meaning.specs.Items.{item_view};
ghost use Rattle.smv_meaning.specs.NameSets.{in_set, no_name, and_names};
ghost use Rattle.smv_meaning.specs.Symbols as spec;
ghost use Rattle.smv_meaning.specs.Values.{is_symbol};

use crate::items::{Item, program_items};
use crate::name_sets::{insert_name, no_names};
use smv_ast::{Declared, NoMemory, Program, SmvType};
use std::alloc::Global;
use std::collections::HashSet;

fn insert_type<'a>(names: &mut HashSet<&'a str>, type_: &'a SmvType) -> Result<(), NoMemory>
    ensures { OnOk result (in_set names.new
        ≡ and_names (in_set names.old) (spec.type_symbols type_.now)) }
{
    let SmvType::Symbols(symbols) = type_ else {
        return Ok(());
    };
    for symbol in symbols.as_slice() {
        insert_name(names, symbol)?;
    }
    Ok(())
}

fn insert_declared<'a>(names: &mut HashSet<&'a str>, what: &'a Declared) -> Result<(), NoMemory>
    ensures { OnOk result (in_set names.new
        ≡ and_names (in_set names.old) (spec.declared_symbols what.now)) }
{
    match what {
        Declared::Plain(type_) => insert_type(names, type_),
        Declared::Instance { .. } => Ok(()),
    }
}

fn insert_item<'a>(names: &mut HashSet<&'a str>, item: Item<'a>) -> Result<(), NoMemory>
    ensures { OnOk result (in_set names.new
        ≡ and_names (in_set names.old) (spec.item_symbols (item_view item.entry))) }
{
    match item {
        Item::Declaration(declaration) => insert_declared(names, &declaration.what),
        _ => Ok(()),
    }
}

#[tactic(auto, using(crate::proofs::NameSetLemmas::and_names_append))]
fn all_symbols<'a>(alloc: Global, program: &'a Program) -> Result<HashSet<&'a str>, NoMemory>
    ensures { IfOk result (λ names. in_set names ≡ and_names no_name (spec.symbols program.now)) }
{
    let items = program_items(alloc, program)?;
    let mut names = no_names(alloc);
    for item in items.as_slice() {
        insert_item(&mut names, *item)?;
    }
    Ok(names)
}

/// The set of the symbols of a program: a name is in it exactly where it is a word of one of the
/// program's enumerations.
pub fn symbols_of<'a>(alloc: Global, program: &'a Program) -> Result<HashSet<&'a str>, NoMemory>
    ensures { IfOk result (λ names. in_set names ≡ is_symbol program.now) }
{
    let names = all_symbols(alloc, program)?;
    Ok(names)
}
