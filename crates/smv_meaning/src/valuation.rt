//! The valuation of a written state: the values of the names of instances.

ghost use Rattle.std.specs.Prelude.{◌≡◌, IfOk, List, ℕ, Some, None, map, slice_get};
ghost use Rattle.fixpoint.specs.Fixpoints.{entry};
ghost use Rattle.smv_meaning.specs.Slots as slots;
ghost use Rattle.smv_meaning.specs.InstanceTable.{IsTableOf};
ghost use Rattle.smv_meaning.specs.NameSets.{in_set};
ghost use Rattle.smv_meaning.specs.Runs.{written_state};
ghost use Rattle.smv_meaning.specs.Scopes.{scope_view, scopes_of};
ghost use Rattle.smv_meaning.specs.Valuation as valuation;
ghost use Rattle.smv_meaning.specs.Values.{is_symbol as is_symbol_of, symbol_of as symbol_in};

use crate::aliases::{aliases_of, resolve};
use crate::evaluation::{Environment, value};
use crate::instance_texts::{name_text, path_texts};
use crate::mentions::push_paths;
use crate::run::RunState;
use crate::scope::Scope;
use crate::symbols::symbols_of;
use crate::table::{Binding, InstanceTable, whole_table};
use crate::value::Value;
use crate::written::WrittenState;
use fixpoint::{Step, fill};
use smv_ast::{Expr, List, NoMemory, Path, Program, Text};
use sqlite_items::at;
use std::alloc::Global;
use std::collections::HashSet;

/// A program with the tables by which its runs are checked.
#[derive(Drop)]
pub struct RunContext<'s, 'p> {
    pub program: &'p Program,
    pub table: InstanceTable<'s, 'p>,
    /// The instance that each slot is an alias of.
    pub aliases: List<Option<usize>>,
    /// The text of the path of each instance.
    pub texts: List<Text>,
    /// The symbols of all enumerations.
    pub symbols: HashSet<&'p str>,
    ghost has: { slots.HasSlots table },
    ghost is_of: { slots.AreAliases table aliases },
    ghost spells: { valuation.SpellsNames table.rows texts },
    ghost paths: { valuation.ArePathTexts table.rows texts },
    ghost words: { in_set symbols ≡ is_symbol_of program.now },
}

impl<'s, 'p> RunContext<'s, 'p> {
    /// The tables of a program.
    pub fn of_program(
        alloc: Global,
        program: &'p Program,
        scopes: &'s [Scope<'p>],
    ) -> Result<RunContext<'s, 'p>, NoMemory>
        requires { map scope_view scopes.now ≡ scopes_of program.now }
        ensures program { IfOk result (λ context. context.program.now ≡ program.now) }
        ensures right { IfOk result
            (λ context. IsTableOf program.now context.table.rows context.table.firsts
            context.table.slots) }
    {
        let table = whole_table(alloc, program, scopes)?;
        let aliases = aliases_of(alloc, &table)?;
        let texts = path_texts(alloc, table.rows.as_slice())?;
        let symbols = symbols_of(alloc, program)?;
        Ok(RunContext {
            program,
            table,
            aliases,
            texts,
            symbols,
        })
    }
}

/// Whether a name is a symbol of an enumeration.
fn is_symbol(context: &RunContext, name: &Text) -> bool
    ensures { result ≡ is_symbol_of context.now.program.now name.now }
{
    context.symbols.contains(name.as_str())
}

/// The symbol that a path of one name denotes, if it denotes one.
fn symbol_of(alloc: Global, context: &RunContext, path: &[Text]) -> Result<Option<Value>, NoMemory>
    ensures { IfOk result (λ v. v ≡ symbol_in context.now.program.now path.now) }
{
    match path {
        [name] => {
            if is_symbol(context, name) {
                return Ok(Some(Value::Symbol(name.try_clone(alloc)?)));
            }
            Ok(None)
        }
        _ => Ok(None),
    }
}

/// The value that a written state has for a variable.
fn variable_value(
    alloc: Global,
    context: &RunContext,
    written: &WrittenState,
    row: usize,
    name: &str,
) -> Result<Option<Value>, NoMemory>
    ensures { IfOk result (λ v. v
        ≡ valuation.variable_at context.now.table (written_state written.now.state.now)
        (record { instance = row; name = name.now })) }
{
    let text = name_text(alloc, &context.table, context.texts.as_slice(), row, name)?;
    match text {
        Some(text) => written.value_of(alloc, text.as_str()),
        None => Ok(None),
    }
}

/// The environment of an instance, by a table of the values of slots.
#[derive(Drop)]
pub struct RowEnvironment<'t> {
    pub context: &'t RunContext<'t, 't>,
    pub row: usize,
    pub solution: &'t [Option<Value>],
}

impl<'t> Environment for RowEnvironment<'t> {
    ghost use Rattle.smv_meaning.specs.Valuation.{row_environment};

    ghost reads = { λ me. row_environment me.context.now.program.now me.context.now.table
        me.solution.now me.row };

    fn read(&self, alloc: Global, path: &Path) -> Result<Option<Value>, NoMemory> {
        let context = self.context;
        match resolve(
            &context.table,
            context.aliases.as_slice(),
            self.row,
            path.names.as_slice(),
        ) {
            Some(slot) => table_value(alloc, self.solution, slot),
            None => symbol_of(alloc, context, path.names.as_slice()),
        }
    }
}

/// The value that a table has for a slot.
pub fn table_value(
    alloc: Global,
    solution: &[Option<Value>],
    slot: usize,
) -> Result<Option<Value>, NoMemory>
    ensures { IfOk result (λ v. v ≡ entry solution.now slot) }
{
    match at(solution, slot) {
        Some(Some(value)) => Ok(Some(value.try_clone(alloc)?)),
        _ => Ok(None),
    }
}

/// The transfer function of the valuation of a written state.
#[derive(Drop)]
struct ValuationStep<'t> {
    context: &'t RunContext<'t, 't>,
    written: &'t WrittenState<'t>,
}

impl<'t> ValuationStep<'t> {
    fn read_in(
        &self,
        alloc: Global,
        solution: &[Option<Value>],
        row: usize,
        e: &Expr,
    ) -> Result<Option<Value>, NoMemory>
        ensures { IfOk result (λ v. v
            ≡ valuation.read_row self.now.context.now.program.now self.now.context.now.table
            solution.now row e.now) }
    {
        let environment = RowEnvironment {
            context: self.context,
            row,
            solution,
        };
        value(alloc, &environment, &environment, e)
    }
}

/// The first slot that an expression of an instance reads and that the table doesn't know, if there is
/// one.
fn unknown_in(
    alloc: Global,
    context: &RunContext,
    solution: &[Option<Value>],
    row: usize,
    e: &Expr,
) -> Result<Option<usize>, NoMemory> {
    let mut paths = Vec::new(alloc);
    push_paths(&mut paths, e)?;
    for path in paths.as_slice() {
        let names = path.names.as_slice();
        if let Some(slot) = resolve(&context.table, context.aliases.as_slice(), row, names) {
            if !matches!(at(solution, slot), Some(Some(_))) {
                return Ok(Some(slot));
            }
        }
    }
    Ok(None)
}

impl<'t> Step<Value> for ValuationStep<'t> {
    ghost use Rattle.smv_meaning.specs.Runs.{written_state};
    ghost use Rattle.smv_meaning.specs.Valuation.{valuation_slots};
    ghost use Rattle.smv_meaning.specs.StepMonotone.{valuation_slots_monotone};

    ghost step = { λ me. valuation_slots me.context.now.program.now me.context.now.table
        (written_state me.written.now.state.now) };

    ghost monotone = { λ me. valuation_slots_monotone me.context.now.program.now
        me.context.now.table (written_state me.written.now.state.now) };

    fn step(
        &self,
        alloc: Global,
        solution: &[Option<Value>],
        k: usize,
    ) -> Result<Option<Value>, NoMemory> {
        let Some(slot) = at(self.context.table.slots.as_slice(), k).copied() else {
            return Ok(None);
        };
        match slot.binding {
            Binding::Variable => {
                variable_value(
                    alloc,
                    self.context,
                    self.written,
                    slot.row,
                    slot.name.as_str(),
                )
            }
            Binding::Define(right) => self.read_in(alloc, solution, slot.row, right),
            Binding::Formal(outer, actual) => self.read_in(alloc, solution, outer, actual),
            _ => Ok(None),
        }
    }

    fn awaited(
        &self,
        alloc: Global,
        solution: &[Option<Value>],
        k: usize,
    ) -> Result<Option<usize>, NoMemory> {
        let Some(slot) = at(self.context.table.slots.as_slice(), k).copied() else {
            return Ok(None);
        };
        match slot.binding {
            Binding::Define(right) => unknown_in(alloc, self.context, solution, slot.row, right),
            Binding::Formal(outer, actual) => {
                unknown_in(alloc, self.context, solution, outer, actual)
            }
            _ => Ok(None),
        }
    }
}

/// The value of each slot in a written state.
pub fn valuation_of(
    alloc: Global,
    context: &RunContext,
    written: &RunState,
) -> Result<List<Option<Value>>, NoMemory>
    ensures { IfOk result (λ solution. valuation.IsValuationTable context.now.program.now
        context.now.table (written_state written.now) solution) }
{
    let written = WrittenState::of_state(alloc, written)?;
    let step = ValuationStep {
        context,
        written: &written,
    };
    let solution = fill(alloc, &step, context.table.slots.len(), &[])?;
    Ok(solution)
}
