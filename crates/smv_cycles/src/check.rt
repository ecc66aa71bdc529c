//! The checks of cyclic definitions and of nesting.

ghost use Rattle.std.specs.Prelude.{◌≡◌, ◌<◌, IfOk, length, map};
ghost use Rattle.smv_meaning.specs.Faults.{ReportsFirst};
ghost use Rattle.smv_meaning.specs.Instances.{instances};
ghost use Rattle.smv_meaning.specs.Checking as checking;
ghost use Rattle.smv_meaning.specs.Slots as slots;
ghost use Rattle.smv_meaning.specs.InstanceTable.{entries_at};
ghost use Rattle.smv_meaning.specs.Valuation as valuation;
ghost use Rattle.smv_meaning.specs.Entries.{entries_view};
ghost use Rattle.smv_cycles.specs.Cycles.{cycles_fault};
ghost use Rattle.smv_cycles.specs.CyclesBySlot as by_slot;

use crate::edges::{graph_of, targets_of};
use crate::heights::heights_of;
use crate::nesting::check_nesting;
use crate::spans::slot_span;
use crate::texts::cycle_text;
use graph::Search;
use smv_ast::{Fault, NoMemory, Program};
use smv_meaning::aliases::slot_of;
use smv_meaning::entries::Entry;
use smv_meaning::instance_texts::path_texts;
use smv_meaning::table::InstanceTable;
use sqlite_items::at;
use std::alloc::Global;

/// The slot of a name of an instance, if it is on a cycle of definitions.
fn name_cycle(
    alloc: Global,
    table: &InstanceTable,
    search: &Search,
    row: usize,
    name: &str,
) -> Result<Option<usize>, NoMemory>
    requires has { slots.HasSlots table.now }
    ensures { IfOk result (λ k. k ≡ by_slot.name_cycle table.now search.now.graph.now row name.now) }
{
    match slot_of(table, row, name) {
        Some(k) => {
            if search.is_on_cycle(alloc, k)? {
                Ok(Some(k))
            } else {
                Ok(None)
            }
        }
        None => Ok(None),
    }
}

/// The first of these names of an instance that is on a cycle.
fn names_cycle(
    alloc: Global,
    table: &InstanceTable,
    search: &Search,
    row: usize,
    entries: &[Entry],
) -> Result<Option<usize>, NoMemory>
    requires has { slots.HasSlots table.now }
    ensures { IfOk result (λ k. k
        ≡ by_slot.row_cycle table.now search.now.graph.now row (entries_view entries.now)) }
{
    for entry in entries {
        match name_cycle(alloc, table, search, row, entry.name.as_str())? {
            Some(k) => return Ok(Some(k)),
            None => {}
        }
    }
    Ok(None)
}

/// The first name of an instance that is on a cycle.
fn row_cycle(
    alloc: Global,
    table: &InstanceTable,
    search: &Search,
    row: usize,
) -> Result<Option<usize>, NoMemory>
    requires has { slots.HasSlots table.now }
    ensures { IfOk result (λ k. k
        ≡ by_slot.row_cycle table.now search.now.graph.now row (entries_at table.now.rows row)) }
{
    match at(table.rows.as_slice(), row).copied() {
        Some(found) => names_cycle(alloc, table, search, row, found.entries()),
        None => Ok(None),
    }
}

/// The first name that is on a cycle, in the order of these instances.
fn first_cycle(
    alloc: Global,
    table: &InstanceTable,
    search: &Search,
    order: &[usize],
) -> Result<Option<usize>, NoMemory>
    requires has { slots.HasSlots table.now }
    ensures { IfOk result (λ k. k ≡ by_slot.first_cycle table.now search.now.graph.now order.now) }
{
    for row in order {
        match row_cycle(alloc, table, search, *row)? {
            Some(k) => return Ok(Some(k)),
            None => {}
        }
    }
    Ok(None)
}

/// The fault of a name that is on a cycle.
fn cycle_fault(
    alloc: Global,
    program: &Program,
    table: &InstanceTable,
    search: &Search,
    k: usize,
) -> Result<Fault, NoMemory>
    requires linked { valuation.AreLinked table.now.rows }
    ensures { IfOk result (λ f. f ≡ by_slot.cycle_fault program.now table.now search.now.graph.now k) }
{
    let texts = path_texts(alloc, table.rows.as_slice())?;
    let members = search.cycle_of(alloc, k)?;
    let cycle = cycle_text(alloc, table, texts.as_slice(), members.as_slice())?;
    Ok(Fault::CyclicDefine {
        at: Some(slot_span(alloc, program, table, k)?),
        cycle,
    })
}

fn check_cycles_of_names(
    alloc: Global,
    program: &Program,
    table: &InstanceTable,
    order: &[usize],
    search: &Search,
) -> Result<(), Fault>
    requires has { slots.HasSlots table.now }
    requires linked { valuation.AreLinked table.now.rows }
    ensures { ReportsFirst (by_slot.cyclic_fault program.now table.now search.now.graph.now order.now) result }
{
    match first_cycle(alloc, table, search, order)? {
        Some(k) => {
            let fault = cycle_fault(alloc, program, table, search, k)?;
            Err(fault)
        }
        None => Ok(()),
    }
}

fn check_graph(
    alloc: Global,
    program: &Program,
    table: &InstanceTable,
    order: &[usize],
    aliases: &[Option<usize>],
    search: &Search,
    heights: &[Option<usize>],
) -> Result<(), Fault>
    requires right { checking.IsTableOfProgram program.now table.now }
    requires rows { checking.AreRows table.now order.now }
    requires has { slots.HasSlots table.now }
    requires is_of { slots.AreAliases table.now aliases.now }
    requires linked { valuation.AreLinked table.now.rows }
    ensures { ReportsFirst (by_slot.graph_fault program.now table.now aliases.now search.now.graph.now
        heights.now order.now) result }
{
    check_cycles_of_names(alloc, program, table, order, search)?;
    check_nesting(alloc, program, table, order, aliases, heights)
}

/// The first fault of the definitions of a program: CyclicDefine, with the cycle of the first name
/// of an instance that depends on itself, else TooNested at the first item with an expression whose
/// height, definitions and actuals expanded, passes 1,000, or with an instance whose path has more
/// than 1,000 names. Each instance is to stand once in the table. The only other error is
/// `NoMemory`.
pub fn check_cycles(
    alloc: Global,
    program: &Program,
    table: &InstanceTable,
    order: &[usize],
    aliases: &[Option<usize>],
) -> Result<(), Fault>
    requires right { checking.IsTableOfProgram program.now table.now }
    requires one { by_slot.OneEach table.now }
    requires rows { checking.AreRows table.now order.now }
    requires order { map (checking.instance_at table.now) order.now ≡ instances program.now }
    requires aliases { slots.AreAliases table.now aliases.now }
    ensures { ReportsFirst (cycles_fault program.now) result }
{
    let graph = graph_of(alloc, table, aliases)?;
    let targets = targets_of(alloc, graph.as_slice())?;
    let search = Search::of_graph(alloc, targets.as_slice())?;
    let heights = heights_of(alloc, graph.as_slice(), search.order())?;
    check_graph(
        alloc,
        program,
        table,
        order,
        aliases,
        &search,
        heights.as_slice(),
    )
}
