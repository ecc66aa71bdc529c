//! The check of a run, and the truth of an expression in a state.

ghost use Rattle.std.specs.Prelude.{◌≡◌, ◌↔◌, ◌<◌, ◌^◌, All, IfOk, IfSome, Some, length, map, slice_get};
ghost use Rattle.std.specs.Option.{option_map};
ghost use Rattle.smv_meaning.specs.Instances as instances;
ghost use Rattle.smv_meaning.specs.Runs as spec;
ghost use Rattle.smv_meaning.specs.Checking as checking;
ghost use Rattle.smv_meaning.specs.MetItems as items;
ghost use Rattle.smv_meaning.specs.RunCheck as check;
ghost use Rattle.smv_meaning.specs.ItemIndex.{IsItemIndex};

use crate::item_index::ItemsByName;
use crate::met_items::{RunInstance, ValuedState};
use crate::order::order_of;
use crate::run::{Run, RunAnswer, RunState};
use crate::scope::scopes_of;
use crate::valuation::{RunContext, valuation_of};
use crate::value::Value;
use smv_ast::{List, NoMemory, Program, Span};
use std::alloc::Global;

/// The first item that is not met in a state, given the state before it, if there is one.
fn first_broken<'t>(
    alloc: Global,
    context: &'t RunContext<'t, 't>,
    index: &ItemsByName,
    order: &[usize],
    before: Option<ValuedState<'t>>,
    now: ValuedState<'t>,
) -> Result<Option<Span>, NoMemory>
    requires right { checking.IsContextOfProgram context.now }
    requires index { IsItemIndex context.now.program.now index.now }
    requires rows { checking.AreRows context.now.table order.now }
    requires before { IfSome before (items.IsValued context.now) }
    requires now { items.IsValued context.now now }
    ensures { IfOk result (λ b. b
        ≡ check.broken_in_order context.now before.entry now.entry order.now) }
{
    for row in order {
        let own = index.of_row(context.program, &context.table, *row);
        let instance = RunInstance { context, row: *row };
        match instance.first_unmet(alloc, before, now, own)? {
            Some(at) => return Ok(Some(at)),
            None => {}
        }
    }
    Ok(None)
}

/// The valuation of each of these states, by slots.
fn tables_of(
    alloc: Global,
    context: &RunContext,
    states: &[RunState],
) -> Result<List<List<Option<Value>>>, NoMemory>
    ensures { IfOk result (λ tables. check.AreTables context.now states.now tables) }
{
    let mut tables = List::new(alloc);
    for state in states {
        let solution = valuation_of(alloc, context, state)?;
        tables.push(solution)?;
    }
    Ok(tables)
}

/// The state of a number, with its valuation.
fn valued_state<'t>(
    states: &'t [RunState],
    tables: &'t [List<Option<Value>>],
    k: usize,
) -> ValuedState<'t>
    requires states { k < length states.now }
    requires tables { k < length tables.now }
    ensures written { slice_get states.now k ≡ Some result.written.now }
    ensures solution { slice_get tables.now k ≡ Some result.solution.now }
{
    ValuedState {
        written: &states[k],
        solution: tables[k].as_slice(),
    }
}

/// Checks these states, given their valuations.
fn run_answer<'t>(
    alloc: Global,
    context: &'t RunContext<'t, 't>,
    index: &ItemsByName,
    order: &[usize],
    states: &'t [RunState],
    tables: &'t [List<Option<Value>>],
) -> Result<RunAnswer, NoMemory>
    requires right { checking.IsContextOfProgram context.now }
    requires index { IsItemIndex context.now.program.now index.now }
    requires rows { checking.AreRows context.now.table order.now }
    requires order { map (checking.instance_at context.now.table) order.now
        ≡ instances.instances context.now.program.now }
    requires tables { check.AreTables context.now states.now tables.now }
    requires short { length states.now < 2 ^ 32 }
    ensures { IfOk result (λ a. a ≡ check.written_answer context.now.program.now states.now) }
{
    let mut before = None;
    let mut step: u32 = 0;
    for k in 0..states.len() {
        let now = valued_state(states, tables, k);
        match first_broken(alloc, context, index, order, before, now)? {
            Some(item) => return Ok(RunAnswer::Breaks { step, item }),
            None => {}
        }
        before = Some(now);
        step += 1;
    }
    Ok(RunAnswer::Run)
}

/// Checks these states in a program, given its context.
fn run_in(alloc: Global, context: &RunContext, states: &[RunState]) -> Result<RunAnswer, NoMemory>
    requires right { checking.IsContextOfProgram context.now }
    requires short { length states.now < 2 ^ 32 }
    ensures { IfOk result (λ a. a ≡ check.written_answer context.now.program.now states.now) }
{
    let index = ItemsByName::of_program(alloc, context.program)?;
    let order = order_of(alloc, context.program, &context.table)?;
    let tables = tables_of(alloc, context, states)?;
    run_answer(
        alloc,
        context,
        &index,
        order.as_slice(),
        states,
        tables.as_slice(),
    )
}

/// Checks these states in a program.
fn run_of_program(
    alloc: Global,
    program: &Program,
    states: &[RunState],
) -> Result<RunAnswer, NoMemory>
    requires { length states.now < 2 ^ 32 }
    ensures { IfOk result (λ a. a ≡ check.written_answer program.now states.now) }
{
    let scopes = scopes_of(alloc, program)?;
    let context = RunContext::of_program(alloc, program, scopes.as_slice())?;
    run_in(alloc, &context, states)
}

/// Whether a list of states is a run of a program; else the first item that breaks, in the order of
/// the instances and of the text, at the first state where one does. Values are not compared with
/// the types of their variables: where each variable has a value of its type, and there is a state,
/// the answer is `Run` exactly at runs. Written values of other paths are ignored. The answer on no
/// states is `Run`. The only error is `NoMemory`.
pub fn check_run(alloc: Global, program: &Program, run: &Run) -> Result<RunAnswer, NoMemory>
    requires { length run.now.states < 2 ^ 32 }
    ensures exact { IfOk result (λ a. a ≡ spec.answer_of program.now run.now.states) }
    ensures law { IfOk result (λ a. 0 < length run.now.states
        → All (spec.IsState program.now) (map (spec.state_of program.now) run.now.states)
        → (a ≡ RunAnswer.Run)
        ↔ spec.IsRun program.now (map (spec.state_of program.now) run.now.states)) }
{
    run_of_program(alloc, program, run.states.as_slice())
}
