//! The entities that a module declares, with their names.

ghost use Rattle.std.specs.Prelude.{◌≡◌, ◌++◌, IfOk, OnOk};
ghost use Rattle.smv_meaning.specs.Instances as spec;
ghost use Rattle.smv_meaning.specs.Entries.{entries_view};
ghost use Rattle.smv_meaning.specs.Items.{item_view};

use crate::items::{Item, items_of};
use smv_ast::{Declared, Expr, List, Module, NoMemory, SmvType, Text};
use std::alloc::Global;

/// The entity that a name of a module denotes.
#[derive(Clone, Copy, Drop)]
pub enum Entity<'a> {
    Variable(&'a SmvType),
    /// An instance of a module, with its actuals.
    Inner {
        called: &'a Text,
        actuals: &'a [Expr],
    },
    /// The right side of a DEFINE.
    Defined(&'a Expr),
    /// The formal of this number.
    Formal(usize),
}

/// A name with its entity.
#[derive(Clone, Copy, Drop)]
pub struct Entry<'a> {
    pub name: &'a Text,
    pub entity: Entity<'a>,
}

fn push_item<'a>(entries: &mut List<Entry<'a>>, item: Item<'a>) -> Result<(), NoMemory>
    ensures { OnOk result (entries_view entries.new ≡ entries_view entries.old
        ++ spec.item_entries (item_view item.entry)) }
{
    match item {
        Item::Declaration(declaration) => {
            let entity = match &declaration.what {
                Declared::Plain(type_) => Entity::Variable(type_),
                Declared::Instance { module, actuals } => Entity::Inner {
                    called: module,
                    actuals: actuals.as_slice(),
                },
            };
            entries.push(Entry {
                name: &declaration.name,
                entity,
            })?;
        }
        Item::Definition(definition) => entries.push(Entry {
            name: &definition.name,
            entity: Entity::Defined(&definition.right),
        })?,
        _ => {}
    }
    Ok(())
}

/// The names of a module: its formals, then the names of its items, in the order of the text.
pub fn entries_of<'a>(alloc: Global, owner: &'a Module) -> Result<List<Entry<'a>>, NoMemory>
    ensures { IfOk result (λ entries. entries_view entries ≡ spec.entries owner.now) }
{
    let items = items_of(alloc, owner)?;
    let mut entries = List::new(alloc);
    let mut number = 0;
    for name in owner.formals.as_slice() {
        entries.push(Entry {
            name,
            entity: Entity::Formal(number),
        })?;
        number += 1;
    }
    for item in items.as_slice() {
        push_item(&mut entries, *item)?;
    }
    Ok(entries)
}
