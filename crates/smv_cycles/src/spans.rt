//! The spans of declarations.

ghost use Rattle.std.specs.Prelude.{◌≡◌, IfOk, slice_get};
ghost use Rattle.smv_meaning.specs.Items.{item_view, items_view};
ghost use Rattle.smv_meaning.specs.Runs.{first_fault};
ghost use Rattle.smv_cycles.specs.Cycles as spec;
ghost use Rattle.smv_cycles.specs.CyclesBySlot as by_slot;

use smv_ast::{Module, NoMemory, Program, Span, Text};
use smv_meaning::items::{Item, items_of};
use smv_meaning::module_numbers::{module_named, numbers_of};
use smv_meaning::table::{InstanceTable, called_of};
use sqlite_items::at;
use std::alloc::Global;

fn is_among(names: &[Text], name: &str) -> bool
    ensures { result ≡ spec.is_formal names.now name.now }
{
    for formal in names {
        if formal.as_str() == name {
            return true;
        }
    }
    false
}

/// The span of the item, if it declares or defines the name.
fn span_if_named(item: Item, name: &str) -> Option<Span>
    ensures { result ≡ spec.span_if_named name.now (item_view item.entry) }
{
    let (declared, at) = match item {
        Item::Declaration(declaration) => (&declaration.name, declaration.at),
        Item::Definition(definition) => (&definition.name, definition.at),
        _ => return None,
    };
    if declared.as_str() == name {
        Some(at)
    } else {
        None
    }
}

fn span_among(items: &[Item], name: &str) -> Option<Span>
    ensures { result ≡ first_fault (spec.span_if_named name.now) (items_view items.now) }
{
    for item in items {
        match span_if_named(*item, name) {
            Some(at) => return Some(at),
            None => {}
        }
    }
    None
}

/// The span of the declaration of a name in a module. A formal has the span of the module.
fn declared_at(alloc: Global, owner: &Module, name: &str) -> Result<Span, NoMemory>
    ensures { IfOk result (λ at. at ≡ spec.declared_at owner.now name.now) }
{
    if is_among(owner.formals.as_slice(), name) {
        return Ok(owner.at);
    }
    let items = items_of(alloc, owner)?;
    match span_among(items.as_slice(), name) {
        Some(at) => Ok(at),
        None => Ok(owner.at),
    }
}

/// The name of the module of a row.
fn called_row<'s, 'a>(table: &InstanceTable<'s, 'a>, row: usize) -> &'a str
    ensures { result.now ≡ by_slot.called_row table.now row }
{
    match at(table.rows.as_slice(), row).copied() {
        Some(found) => called_of(found.link),
        None => "main",
    }
}

/// The span of the declaration of a name in the module of a row.
fn declared_row(
    alloc: Global,
    program: &Program,
    table: &InstanceTable,
    row: usize,
    name: &str,
) -> Result<Span, NoMemory>
    ensures { IfOk result (λ at. at
        ≡ spec.declared_at (by_slot.module_row program.now table.now row) name.now) }
{
    let numbers = numbers_of(alloc, program)?;
    match module_named(program, &numbers, called_row(table, row)) {
        Some(owner) => declared_at(alloc, owner, name),
        None => Ok(Span { file: 0, at: 0 }),
    }
}

/// The span of the declaration of a slot's name.
pub fn slot_span(
    alloc: Global,
    program: &Program,
    table: &InstanceTable,
    k: usize,
) -> Result<Span, NoMemory>
    ensures { IfOk result (λ at. at
        ≡ by_slot.slot_span program.now table.now (slice_get table.now.slots k)) }
{
    match at(table.slots.as_slice(), k).copied() {
        Some(slot) => declared_row(alloc, program, table, slot.row, slot.name.as_str()),
        None => Ok(Span { file: 0, at: 0 }),
    }
}
