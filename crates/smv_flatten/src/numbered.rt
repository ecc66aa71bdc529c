//! A lifted model by numbers: its variables, its symbols, its nodes and its specs.

ghost use Rattle.std.specs.Prelude.{◌≡◌, true, [], length, map, fold, IfOk};
ghost use Rattle.smv_meaning.specs.Instances.{instances};
ghost use Rattle.smv_meaning.specs.Symbols as symbols_spec;
ghost use Rattle.smv_flatten.specs.Names.{symbol_names, with_symbol};
ghost use Rattle.smv_meaning.specs.Slots as slots;
ghost use Rattle.smv_meaning.specs.Checking as checking;
ghost use Rattle.smv_flatten.specs.Variables as variables_spec;
ghost use Rattle.smv_flatten.specs.Numbered as spec;

use crate::invariants::specs_of;
use crate::names::NameTables;
use crate::numbering::{FlatNodes, number_nodes};
use crate::spec_texts::flat_specs;
use crate::symbols::{numbered_symbols, symbol_texts};
use crate::variables::{
    VariableAt, flat_variables, push_variables, symbolic_flags, variable_numbers,
};
use flat_model::Flat;
use smv_ast::{Lifted, List, NoMemory, Text};
use smv_meaning::aliases::aliases_of;
use smv_meaning::instance_texts::path_texts;
use smv_meaning::module_numbers::numbers_of;
use smv_meaning::order::order_of;
use smv_meaning::scope::scopes_of;
use smv_meaning::table::{InstanceTable, whole_table};
use std::alloc::Global;

/// The variables of the instances of a model in the order of their numbers, and how many of them are
/// features.
#[derive(Drop)]
struct Variables<'a> {
    all: Vec<VariableAt<'a>>,
    features: u32,
}

/// The variables of these instances.
fn variables_of<'a>(
    alloc: Global,
    table: &InstanceTable<'_, 'a>,
    order: &[usize],
) -> Result<Variables<'a>, NoMemory>
    requires { slots.HasSlots table.now }
    ensures all { IfOk result (λ found. map variables_spec.variable_view found.all.items
        ≡ variables_spec.variables_of table.now order.now) }
    ensures features { IfOk result (λ found. found.features
        ≡ length (variables_spec.variables_at table.now true order.now)) }
{
    let mut all = Vec::new(alloc);
    push_variables(table, true, order, &mut all)?;
    let Ok(features) = u32::try_from(all.len()) else {
        return Err(NoMemory);
    };
    push_variables(table, false, order, &mut all)?;
    Ok(Variables { all, features })
}

/// The numbers of a model over the tables of its names, whatever they are.
fn number_over(
    alloc: Global,
    lifted: &Lifted,
    names: &NameTables,
    order: &[usize],
    variables: &Variables,
) -> Result<Flat, NoMemory>
    requires right { checking.IsTableOfProgram lifted.now.program names.now.table.now }
    requires rows { checking.AreRows names.now.table.now order.now }
    requires all { map variables_spec.variable_view variables.now.all.items
        ≡ variables_spec.variables_of names.now.table.now order.now }
    requires features { variables.now.features
        ≡ length (variables_spec.variables_at names.now.table.now true order.now) }
    ensures { IfOk result (λ model. model ≡ spec.model_of lifted.now names.now order.now) }
{
    let program = &lifted.program;
    let table = names.table;
    let modules = numbers_of(alloc, program)?;
    let specs = specs_of(
        alloc,
        program,
        &modules,
        lifted.specs.as_slice(),
        table,
        order,
    )?;
    let FlatNodes {
        nodes,
        init,
        inside,
        step,
        model,
        specs: made,
    } = number_nodes(alloc, names, program, specs.as_slice(), order)?;
    let texts = path_texts(alloc, table.rows.as_slice())?;
    let all = variables.all.as_slice();
    let owned = lifted.vars.as_slice();
    let vars = flat_variables(alloc, owned, table, texts.as_slice(), names.symbols, all)?;
    let symbolic = symbolic_flags(alloc, all)?;
    let symbols = symbol_texts(alloc, names.symbols)?;
    let specs = flat_specs(
        alloc,
        table,
        texts.as_slice(),
        specs.as_slice(),
        made.as_slice(),
    )?;
    Ok(Flat {
        features: variables.features,
        vars,
        symbols,
        symbolic,
        nodes,
        init,
        inside,
        step,
        model,
        specs,
    })
}

/// The numbers of a model, given the tables of its names.
fn number_names(
    alloc: Global,
    lifted: &Lifted,
    names: &NameTables,
    order: &[usize],
    variables: &Variables,
) -> Result<Flat, NoMemory>
    requires right { checking.IsTableOfProgram lifted.now.program names.now.table.now }
    requires rows { checking.AreRows names.now.table.now order.now }
    requires order { map (checking.instance_at names.now.table.now) order.now
        ≡ instances lifted.now.program }
    requires all { map variables_spec.variable_view variables.now.all.items
        ≡ variables_spec.variables_of names.now.table.now order.now }
    requires features { variables.now.features
        ≡ length (variables_spec.variables_at names.now.table.now true order.now) }
    requires numbers { names.now.variables.now
        ≡ variables_spec.variable_numbers (length names.now.table.now.slots)
        (variables_spec.variables_of names.now.table.now order.now) }
    requires symbols { symbol_names names.now.symbols.now
        ≡ fold with_symbol [] (symbols_spec.symbols lifted.now.program) }
    ensures { IfOk result (spec.IsNumbered lifted.now) }
{
    number_over(alloc, lifted, names, order, variables)
}

/// The numbers of a model, given its instance table.
fn number_table(alloc: Global, lifted: &Lifted, table: &InstanceTable) -> Result<Flat, NoMemory>
    requires { checking.IsTableOfProgram lifted.now.program table.now }
    ensures { IfOk result (spec.IsNumbered lifted.now) }
{
    let program = &lifted.program;
    let aliases = aliases_of(alloc, table)?;
    let order = order_of(alloc, program, table)?;
    let symbols = numbered_symbols(alloc, program)?;
    let variables = variables_of(alloc, table, order.as_slice())?;
    let numbers = variable_numbers(alloc, table.slots.len(), variables.all.as_slice())?;
    let names = NameTables {
        table,
        aliases: aliases.as_slice(),
        variables: numbers.as_slice(),
        symbols: &symbols,
    };
    number_names(alloc, lifted, &names, order.as_slice(), &variables)
}

/// Numbers the variables, the symbols and the nodes of a lifted model. The variables are the features,
/// then those of the other instances; symbols go by their first place in the types of the program.
/// The nodes are those of the invariants, of the constraints on first states, of those on steps and
/// of the specs, each group instance by instance in text order. Each has the value of its constraint
/// or spec, where these can be read as `specs/Demands.antt` says. A spec has the text of its
/// instance, and the canonical text of its expression without the guard of its feature.
pub fn number_model(alloc: Global, lifted: &Lifted) -> Result<Flat, NoMemory>
    ensures { IfOk result (spec.IsNumbered lifted.now) }
{
    let scopes = scopes_of(alloc, &lifted.program)?;
    let table = whole_table(alloc, &lifted.program, scopes.as_slice())?;
    number_table(alloc, lifted, &table)
}
