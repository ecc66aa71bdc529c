//! The names that a module declares, with their spans.

ghost use Rattle.std.specs.Prelude.{◌≡◌, ◌++◌, IfOk, OnOk, map};
ghost use Rattle.smv_meaning.specs.Items.{item_view};
ghost use Rattle.smv_names.specs.Duplicates as spec;

use smv_ast::{Declared, List, Module, NoMemory, SmvType, Span, Text};
use smv_meaning::items::{Item, items_of};
use std::alloc::Global;

/// A name that a module declares, the span that a fault of it reports, and its type if it is a
/// variable.
#[derive(Clone, Copy, Drop)]
pub struct DeclaredName<'a> {
    pub name: &'a Text,
    pub at: Span,
    pub type_: Option<&'a SmvType>,
}

fn push_item<'a>(names: &mut List<DeclaredName<'a>>, item: Item<'a>) -> Result<(), NoMemory>
    ensures { OnOk result (map spec.declared_name_view names.new
        ≡ map spec.declared_name_view names.old ++ spec.names_of_item (item_view item.entry)) }
{
    match item {
        Item::Declaration(declaration) => {
            let type_ = match &declaration.what {
                Declared::Plain(type_) => Some(type_),
                Declared::Instance { .. } => None,
            };
            names.push(DeclaredName {
                name: &declaration.name,
                at: declaration.at,
                type_,
            })?;
        }
        Item::Definition(definition) => names.push(DeclaredName {
            name: &definition.name,
            at: definition.at,
            type_: None,
        })?,
        _ => {}
    }
    Ok(())
}

/// The names of a module in text order, its formals first.
pub fn declared_names_of<'a>(
    alloc: Global,
    owner: &'a Module,
) -> Result<List<DeclaredName<'a>>, NoMemory>
    ensures { IfOk result (λ names. map spec.declared_name_view names
        ≡ spec.declared_names owner.now) }
{
    let items = items_of(alloc, owner)?;
    let mut names = List::new(alloc);
    for name in owner.formals.as_slice() {
        names.push(DeclaredName {
            name,
            at: owner.at,
            type_: None,
        })?;
    }
    for item in items.as_slice() {
        push_item(&mut names, *item)?;
    }
    Ok(names)
}
