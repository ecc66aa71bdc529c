//! The printed form of cycles.

ghost use Rattle.std.specs.Prelude.{◌≡◌, IfOk, OnOk, codes, slice_get, List, ℕ};
ghost use Rattle.smv_ast.specs.PrintedExpr.{joined};
ghost use Rattle.smv_meaning.specs.Valuation.{SpellsNames};
ghost use Rattle.smv_cycles.specs.CyclesBySlot as spec;

use smv_ast::{List, NoMemory, Text, print_joined};
use smv_meaning::instance_texts::name_text;
use smv_meaning::table::InstanceTable;
use sqlite_items::at;
use std::alloc::Global;

/// The path of the name of a slot; empty where there is no such slot.
fn slot_text(
    alloc: Global,
    table: &InstanceTable,
    texts: &[Text],
    k: usize,
) -> Result<Text, NoMemory>
    requires { SpellsNames table.now.rows texts.now }
    ensures { IfOk result (λ t. t ≡ spec.slot_text table.now (slice_get table.now.slots k)) }
{
    let found = match at(table.slots.as_slice(), k).copied() {
        Some(slot) => name_text(alloc, table, texts, slot.row, slot.name.as_str())?,
        None => None,
    };
    match found {
        Some(text) => Ok(text),
        None => Text::from_str(alloc, ""),
    }
}

fn slot_texts(
    alloc: Global,
    table: &InstanceTable,
    texts: &[Text],
    cycle: &[usize],
) -> Result<List<Text>, NoMemory>
    requires { SpellsNames table.now.rows texts.now }
    ensures { IfOk result (λ ts. ts ≡ spec.slot_texts table.now cycle.now) }
{
    let mut members = List::new(alloc);
    for k in cycle {
        members.push(slot_text(alloc, table, texts, *k)?)?;
    }
    Ok(members)
}

fn joined_text(alloc: Global, members: &[Text]) -> Result<Text, NoMemory>
    ensures { IfOk result (λ t. t ≡ joined (codes ",") members.now) }
{
    let mut text = String::new(alloc);
    print_joined(&mut text, ",", members)?;
    Text::from_str(alloc, text.as_str())
}

/// The paths of the names of slots, joined by commas.
pub fn cycle_text(
    alloc: Global,
    table: &InstanceTable,
    texts: &[Text],
    cycle: &[usize],
) -> Result<Text, NoMemory>
    requires { SpellsNames table.now.rows texts.now }
    ensures { IfOk result (λ t. t ≡ joined (codes ",") (spec.slot_texts table.now cycle.now)) }
{
    let members = slot_texts(alloc, table, texts, cycle)?;
    joined_text(alloc, members.as_slice())
}
