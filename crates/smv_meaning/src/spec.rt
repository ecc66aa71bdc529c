//! The truth of an expression in a state and an instance.

ghost use Rattle.std.specs.Prelude.{◌≡◌, ◌<◌, IfOk, Some, length};
ghost use Rattle.std.specs.Str.{bytes_eq};
ghost use Rattle.smv_meaning.specs.Instances as instances;
ghost use Rattle.smv_meaning.specs.Runs as spec;
ghost use Rattle.smv_meaning.specs.Checking as checking;
ghost use Rattle.smv_meaning.specs.MetItems as items;
ghost use Rattle.smv_meaning.specs.RunCheck as check;
ghost use Rattle.smv_meaning.specs.Valuation as valuation;

use crate::instance_texts::instance_text;
use crate::met_items::{RunInstance, ValuedState};
use crate::order::order_of;
use crate::run::RunState;
use crate::scope::scopes_of;
use crate::table::InstanceTable;
use crate::valuation::{RunContext, valuation_of};
use smv_ast::{Expr, NoMemory, Program, Text};
use std::alloc::Global;

/// The first instance in this order that has this text.
fn row_named(
    alloc: Global,
    table: &InstanceTable,
    texts: &[Text],
    order: &[usize],
    instance: &str,
) -> Result<Option<usize>, NoMemory>
    requires rows { checking.AreRows table.now order.now }
    requires linked { valuation.AreLinked table.now.rows }
    requires texts { valuation.ArePathTexts table.now.rows texts.now }
    ensures { IfOk result (λ row. row ≡ check.named_in table.now instance.now order.now) }
{
    for row in order {
        if is_named(alloc, table, texts, *row, instance)? {
            return Ok(Some(*row));
        }
    }
    Ok(None)
}

fn is_named(
    alloc: Global,
    table: &InstanceTable,
    texts: &[Text],
    row: usize,
    instance: &str,
) -> Result<bool, NoMemory>
    requires row { row < length table.now.rows }
    requires linked { valuation.AreLinked table.now.rows }
    requires texts { valuation.ArePathTexts table.now.rows texts.now }
    ensures { IfOk result (λ b. b
        ≡ bytes_eq (instances.instance_text (checking.instance_at table.now row)) instance.now) }
{
    let text = instance_text(alloc, table, texts, row)?;
    Ok(text.as_str() == instance)
}

/// Whether the expression is true in the state and the first instance of this text.
fn holds_in(
    alloc: Global,
    context: &RunContext,
    instance: &str,
    e: &Expr,
    state: ValuedState,
) -> Result<bool, NoMemory>
    requires right { checking.IsContextOfProgram context.now }
    requires state { items.IsValued context.now state }
    ensures { IfOk result (λ b. b ≡ check.context_holds context.now state.entry e.now instance.now) }
{
    let order = order_of(alloc, context.program, &context.table)?;
    match row_named(
        alloc,
        &context.table,
        context.texts.as_slice(),
        order.as_slice(),
        instance,
    )? {
        Some(row) => {
            let holds = RunInstance { context, row }.is_true_in(alloc, state, state, e)?;
            Ok(holds)
        }
        None => Ok(false),
    }
}

/// Whether the expression is true in the state and the first instance of this text.
fn holds_of_program(
    alloc: Global,
    program: &Program,
    instance: &str,
    e: &Expr,
    state: &RunState,
) -> Result<bool, NoMemory>
    ensures { IfOk result (λ b. b
        ≡ check.held_at program.now instance.now e.now (spec.written_state state.now)) }
{
    let scopes = scopes_of(alloc, program)?;
    let context = RunContext::of_program(alloc, program, scopes.as_slice())?;
    let solution = valuation_of(alloc, &context, state)?;
    let valued = ValuedState {
        written: state,
        solution: solution.as_slice(),
    };
    holds_in(alloc, &context, instance, e, valued)
}

/// Whether an expression is true in a state, its names read in the instance of this text: `main`,
/// or `main.` and the instance's path. The only error is `NoMemory`.
pub fn spec_holds(
    alloc: Global,
    program: &Program,
    instance: &str,
    expr: &Expr,
    state: &RunState,
) -> Result<bool, NoMemory>
    requires { spec.HasInstance program.now instance.now }
    ensures { IfOk result (λ b. Some b
        ≡ spec.holds_at program.now instance.now expr.now (spec.state_of program.now state.now)) }
{
    holds_of_program(alloc, program, instance, expr, state)
}
