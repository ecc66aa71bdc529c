//! Items whose nesting is too deep.

ghost use Rattle.std.specs.Prelude.{◌≡◌, ◌<◌, IfOk, length};
ghost use Rattle.std.specs.List.{list_any};
ghost use Rattle.smv_meaning.specs.Checking as checking;
ghost use Rattle.smv_meaning.specs.Faults.{ReportsFirst};
ghost use Rattle.smv_meaning.specs.ItemIndex.{IsItemIndex};
ghost use Rattle.smv_meaning.specs.Items.{item_view};
ghost use Rattle.smv_meaning.specs.Slots as slots;
ghost use Rattle.smv_cycles.specs.Cycles as spec;
ghost use Rattle.smv_cycles.specs.CyclesBySlot as by_slot;
ghost use Rattle.smv_cycles.specs.NestingRules.{high_here};

use crate::edges::edges_in;
use crate::heights::tallest;
use crate::nesting_rule::NestingRule;
use smv_ast::{Declared, Expr, Fault, NoMemory, Program};
use smv_meaning::item_index::ItemsByName;
use smv_meaning::items::Item;
use smv_meaning::rules::{ItemRule, check_items};
use smv_meaning::table::InstanceTable;
use sqlite_items::at;
use std::alloc::Global;

fn is_high(height: Option<usize>) -> bool
    ensures { result ≡ spec.is_high height }
{
    match height {
        Some(height) => 1000 < height,
        None => true,
    }
}

fn declares_instance(item: Item) -> bool
    ensures { result ≡ spec.declares_instance (item_view item.entry) }
{
    match item {
        Item::Declaration(declaration) => match &declaration.what {
            Declared::Plain(_) => false,
            Declared::Instance { .. } => true,
        },
        _ => false,
    }
}

impl<'t> NestingRule<'t> {
    /// Whether the height of an expression passes 1,000.
    fn high(&self, alloc: Global, e: &Expr) -> Result<bool, NoMemory>
        ensures { IfOk result (λ b. b ≡ high_here self.now e.now) }
    {
        let edges = edges_in(alloc, self.table, self.aliases, self.row, e)?;
        Ok(is_high(tallest(self.heights, edges.as_slice())?))
    }

    fn any_high(&self, alloc: Global, expressions: &[Expr]) -> Result<bool, NoMemory>
        ensures { IfOk result (λ b. b ≡ list_any (high_here self.now) expressions.now) }
    {
        for e in expressions {
            if self.high(alloc, e)? {
                return Ok(true);
            }
        }
        Ok(false)
    }

    fn is_nested(&self, alloc: Global, item: Item) -> Result<bool, NoMemory>
        ensures { IfOk result (λ b. b
            ≡ spec.is_nested (high_here self.now) self.now.deep (item_view item.entry)) }
    {
        if self.deep && declares_instance(item) {
            return Ok(true);
        }
        self.any_high(alloc, item.exprs())
    }
}

impl<'t> ItemRule<Fault> for NestingRule<'t> {
    ghost use Rattle.smv_cycles.specs.Cycles.{nested_item};
    ghost use Rattle.smv_cycles.specs.NestingRules.{high_here};

    ghost reports = { λ me. nested_item (high_here me) me.deep };

    fn judge(&self, alloc: Global, item: Item) -> Result<Option<Fault>, NoMemory> {
        if self.is_nested(alloc, item)? {
            return Ok(Some(Fault::TooNested {
                at: Some(item.at()),
            }));
        }
        Ok(None)
    }
}

/// Whether an instance declared by the instance of this row has a path of more than 1,000 names.
fn deep_row(table: &InstanceTable, row: usize) -> Result<bool, NoMemory>
    ensures { IfOk result (λ b. b ≡ by_slot.deep_row table.now row) }
{
    match at(table.rows.as_slice(), row).copied() {
        Some(found) => match found.depth.checked_add(1) {
            Some(names) => Ok(1000 < names),
            // No instance in memory lies so deep.
            None => Err(NoMemory),
        },
        None => Ok(false),
    }
}

/// Reports the first item of an instance that is nested too deep.
fn check_row(
    alloc: Global,
    program: &Program,
    index: &ItemsByName,
    table: &InstanceTable,
    aliases: &[Option<usize>],
    heights: &[Option<usize>],
    row: usize,
) -> Result<(), Fault>
    requires right { checking.IsTableOfProgram program.now table.now }
    requires index { IsItemIndex program.now index.now }
    requires row { row < length table.now.rows }
    requires has { slots.HasSlots table.now }
    requires is_of { slots.AreAliases table.now aliases.now }
    ensures { ReportsFirst
        (by_slot.nested_row program.now table.now aliases.now heights.now row) result }
{
    let deep = deep_row(table, row)?;
    let rule = NestingRule {
        table,
        aliases,
        heights,
        row,
        deep,
    };
    check_items(alloc, &rule, index.of_row(program, table, row))
}

/// Reports the first item that is nested too deep, in the order of these instances.
pub fn check_nesting(
    alloc: Global,
    program: &Program,
    table: &InstanceTable,
    order: &[usize],
    aliases: &[Option<usize>],
    heights: &[Option<usize>],
) -> Result<(), Fault>
    requires right { checking.IsTableOfProgram program.now table.now }
    requires rows { checking.AreRows table.now order.now }
    requires has { slots.HasSlots table.now }
    requires is_of { slots.AreAliases table.now aliases.now }
    ensures { ReportsFirst
        (by_slot.nesting_fault program.now table.now aliases.now heights.now order.now) result }
{
    let index = ItemsByName::of_program(alloc, program)?;
    for row in order {
        check_row(alloc, program, &index, table, aliases, heights, *row)?;
    }
    Ok(())
}
