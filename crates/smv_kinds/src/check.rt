//! The checks of kinds, of the limit of magnitude and of `mod`.

ghost use Rattle.std.specs.Prelude.{◌≡◌, ◌<◌, IfOk, length, map};
ghost use Rattle.smv_meaning.specs.Checking as checking;
ghost use Rattle.smv_meaning.specs.Faults.{ReportsFirst};
ghost use Rattle.smv_meaning.specs.Instances.{instances};
ghost use Rattle.smv_meaning.specs.ItemIndex.{IsItemIndex};
ghost use Rattle.smv_meaning.specs.Slots as slots;
ghost use Rattle.smv_kinds.specs.SortsOfNames as name_sorts;
ghost use Rattle.smv_kinds.specs.Rules as spec;
ghost use Rattle.smv_kinds.specs.Soundness as soundness;

use crate::context::KindContext;
use crate::instance_rule::InstanceRule;
use crate::pass::Pass;
use crate::solution::sorts_of;
use crate::sorts::Sort;
use smv_ast::{Fault, Program};
use smv_meaning::item_index::ItemsByName;
use smv_meaning::rules::check_items;
use smv_meaning::symbols::symbols_of;
use smv_meaning::table::InstanceTable;
use std::alloc::Global;

/// Reports the first fault of one rule in an instance.
fn check_row<'t>(
    alloc: Global,
    context: &'t KindContext<'t>,
    index: &ItemsByName,
    solution: &'t [Option<Sort>],
    row: usize,
    pass: Pass,
) -> Result<(), Fault>
    requires right { checking.IsTableOfProgram context.now.program.now context.now.table.now }
    requires index { IsItemIndex context.now.program.now index.now }
    requires row { row < length context.now.table.now.rows }
    requires sorts { name_sorts.AreSorts context.now.program.now context.now.table.now solution.now }
    ensures { ReportsFirst (spec.instance_fault context.now.program.now pass
        (checking.instance_at context.now.table.now row)) result }
{
    let items = index.of_row(context.program, context.table, row);
    let rule = InstanceRule {
        context,
        solution,
        row,
        pass,
    };
    check_items(alloc, &rule, items)
}

/// Reports the first fault of one rule.
fn check_pass<'t>(
    alloc: Global,
    context: &'t KindContext<'t>,
    index: &ItemsByName,
    solution: &'t [Option<Sort>],
    order: &[usize],
    pass: Pass,
) -> Result<(), Fault>
    requires right { checking.IsTableOfProgram context.now.program.now context.now.table.now }
    requires index { IsItemIndex context.now.program.now index.now }
    requires rows { checking.AreRows context.now.table.now order.now }
    requires order { map (checking.instance_at context.now.table.now) order.now
        ≡ instances context.now.program.now }
    requires sorts { name_sorts.AreSorts context.now.program.now context.now.table.now solution.now }
    ensures { ReportsFirst (spec.pass_fault context.now.program.now pass) result }
{
    for row in order {
        check_row(alloc, context, index, solution, *row, pass)?;
    }
    Ok(())
}

fn check_context<'t>(
    alloc: Global,
    context: &'t KindContext<'t>,
    order: &[usize],
) -> Result<(), Fault>
    requires right { checking.IsTableOfProgram context.now.program.now context.now.table.now }
    requires rows { checking.AreRows context.now.table.now order.now }
    requires order { map (checking.instance_at context.now.table.now) order.now
        ≡ instances context.now.program.now }
    ensures { ReportsFirst (spec.kinds_fault context.now.program.now) result }
{
    let index = ItemsByName::of_program(alloc, context.program)?;
    let sorts = sorts_of(alloc, context)?;
    let sorts = sorts.as_slice();
    check_pass(alloc, &*context, &index, sorts, order, Pass::Kinds)?;
    check_pass(alloc, &*context, &index, sorts, order, Pass::Magnitudes)?;
    check_pass(alloc, &*context, &index, sorts, order, Pass::Mods)
}

/// Reports the first fault of kinds; else the first number beyond the limit of magnitude; else the
/// first faulty `mod`. Instances go in their order, items in text order.
pub fn check_kinds(
    alloc: Global,
    program: &Program,
    table: &InstanceTable,
    order: &[usize],
    aliases: &[Option<usize>],
) -> Result<(), Fault>
    requires right { checking.IsTableOfProgram program.now table.now }
    requires rows { checking.AreRows table.now order.now }
    requires order { map (checking.instance_at table.now) order.now ≡ instances program.now }
    requires aliases { slots.AreAliases table.now aliases.now }
    ensures first { ReportsFirst (spec.kinds_fault program.now) result }
    ensures sound { IfOk result
        (λ _. soundness.AreShaped program.now → soundness.IsSound program.now) }
{
    let symbols = symbols_of(alloc, program)?;
    let context = KindContext {
        program,
        table,
        aliases,
        symbols: &symbols,
    };
    check_context(alloc, &context, order)
}
