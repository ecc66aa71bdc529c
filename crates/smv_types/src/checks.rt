//! The static checks of a model, and the data of a model that passed them.

ghost use Rattle.std.specs.Prelude.{◌≡◌, length, map, IfOk};
ghost use Rattle.smv_meaning.specs.Faults.{ReportsFirst};
ghost use Rattle.smv_meaning.specs.Instances.{instances, instance_text as text_of};
ghost use Rattle.smv_meaning.specs.Checking as checking;
ghost use Rattle.smv_meaning.specs.Slots as slots;
ghost use Rattle.smv_meaning.specs.Valuation as valuation;
ghost use Rattle.smv_cycles.specs.CyclesBySlot.{OneEach};
ghost use Rattle.smv_cycles.specs.Heights.{HaveHeights};
ghost use Rattle.smv_kinds.specs.Soundness as soundness;
ghost use Rattle.smv_types.specs.Checks as spec;

use smv_ast::{Fault, List, NoMemory, Program, Text};
use smv_cycles::check_cycles;
use smv_kinds::check_kinds;
use smv_meaning::aliases::aliases_of;
use smv_meaning::instance_texts::{instance_text, path_texts};
use smv_meaning::order::order_of;
use smv_meaning::scope::scopes_of;
use smv_meaning::table::{InstanceTable, whole_table};
use smv_names::check_names;
use smv_nodes::count_nodes;
use smv_shape::check_shape;
use std::alloc::Global;

/// The data of a model that passed all checks.
#[derive(Drop)]
pub struct Typed {
    /// The texts of its instances, each before those that it declares: `main`, or `main.` and the
    /// path.
    pub instances: List<Text>,
    /// The number of nodes of its constraints and specs. It saturates at the end of `u64`.
    pub nodes: u64,
}

/// The texts of these instances.
fn row_texts(
    alloc: Global,
    table: &InstanceTable,
    texts: &[Text],
    order: &[usize],
) -> Result<List<Text>, NoMemory>
    requires rows { checking.AreRows table.now order.now }
    requires linked { valuation.AreLinked table.now.rows }
    requires texts { valuation.ArePathTexts table.now.rows texts.now }
    ensures { IfOk result (λ found. found
        ≡ map text_of (map (checking.instance_at table.now) order.now)) }
{
    let mut found = List::new(alloc);
    for row in order {
        let text = instance_text(alloc, table, texts, *row)?;
        found.push(text)?;
    }
    Ok(found)
}

/// The checks of cycles, nesting, kinds and intervals, and the data of a model that passed them.
fn check_rows(
    alloc: Global,
    program: &Program,
    table: &InstanceTable,
    order: &[usize],
    aliases: &[Option<usize>],
) -> Result<Typed, Fault>
    requires right { checking.IsTableOfProgram program.now table.now }
    requires rows { checking.AreRows table.now order.now }
    requires order { map (checking.instance_at table.now) order.now ≡ instances program.now }
    requires aliases { slots.AreAliases table.now aliases.now }
    requires one { OneEach table.now }
    ensures first { ReportsFirst (spec.read_fault program.now) result }
    ensures typed { IfOk result (spec.IsTyped program.now) }
    ensures sound { IfOk result
        (λ _. soundness.AreShaped program.now → soundness.IsSound program.now) }
{
    check_cycles(alloc, program, table, order, aliases)?;
    check_kinds(alloc, program, table, order, aliases)?;
    let texts = path_texts(alloc, table.rows.as_slice())?;
    let instances = row_texts(alloc, table, texts.as_slice(), order)?;
    let nodes = count_nodes(alloc, program, table, aliases, order)?;
    Ok(Typed { instances, nodes })
}

fn check_table(alloc: Global, program: &Program, table: &InstanceTable) -> Result<Typed, Fault>
    requires right { checking.IsTableOfProgram program.now table.now }
    requires count { length table.now.rows ≡ length (instances program.now) }
    requires apart { spec.AreApart program.now }
    ensures first { ReportsFirst (spec.read_fault program.now) result }
    ensures typed { IfOk result (spec.IsTyped program.now) }
    ensures sound { IfOk result
        (λ _. soundness.AreShaped program.now → soundness.IsSound program.now) }
{
    let aliases = aliases_of(alloc, table)?;
    let order = order_of(alloc, program, table)?;
    check_rows(alloc, program, table, order.as_slice(), aliases.as_slice())
}

/// The rules on the names and on the text of a model.
fn check_text(alloc: Global, program: &Program) -> Result<(), Fault>
    ensures { ReportsFirst (spec.text_fault program.now) result }
{
    check_names(alloc, program)?;
    check_shape(alloc, program)
}

/// Checks a model by all rules, and reports the first fault with its span, in this order:
///
/// 1. DuplicateName, UnknownModule, ArgumentCount, RecursiveModule,
///    TooLarge (over 65,536 instances);
/// 2. UnknownName;
/// 3. EmptyRange;
/// 4. ParameterAssign, DoubleAssign;
/// 5. ChoicePlace, NextPlace;
/// 6. CyclicDefine, TooNested;
/// 7. KindMismatch;
/// 8. WideNumber, NegativeMod.
///
/// Of one fault the first in text order is reported; from CyclicDefine on instances go in their
/// order, and a module without an instance is not checked.
///
/// The answer is Ok exactly where there is no fault. Then in any two states that give each variable
/// a value of its type, each constraint has a truth value, and each subexpression of an item has a
/// value of its kind, within its interval and the limit of magnitude, or, where it contains a
/// choice, allows some values as a right side, and only such. An actual that denotes an instance
/// has no value. Each expression of an item is at most 1,000 high in each instance, through all the
/// definitions and actuals that it reads. Where no name contains a dot, the texts of instances are
/// pairwise different, and so are those of variables. `NoMemory` is the only other error.
pub fn check(alloc: Global, program: &Program) -> Result<Typed, Fault>
    ensures first { ReportsFirst (spec.model_fault program.now) result }
    ensures typed { IfOk result (spec.IsTyped program.now) }
    ensures sound { IfOk result (λ _. soundness.IsSound program.now) }
    ensures heights { IfOk result (λ _. HaveHeights program.now) }
    ensures texts { IfOk result
        (λ _. spec.AreDotless program.now → spec.HaveDistinctTexts program.now) }
{
    check_text(alloc, program)?;
    let scopes = scopes_of(alloc, program)?;
    let table = whole_table(alloc, program, scopes.as_slice())?;
    check_table(alloc, program, &table)
}
