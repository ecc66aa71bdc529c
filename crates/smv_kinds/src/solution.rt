//! The sorts of the names of instances, as a fixpoint.

ghost use Rattle.std.specs.Prelude.{◌≡◌, ◌<◌, IfOk, length};
ghost use Rattle.fixpoint.specs.Fixpoints.{entry};
ghost use Rattle.smv_meaning.specs.Paths.{QualifiedName};
ghost use Rattle.smv_meaning.specs.Entries.{entries_view, entity_among, entity_view};
ghost use Rattle.smv_meaning.specs.InstanceTable.{entries_at};
ghost use Rattle.std.specs.Option.{option_map};
ghost use Rattle.smv_kinds.specs.SortsOfNames as spec;

use crate::context::{KindContext, RowSorting};
use crate::expressions::facts_of;
use crate::order::evaluation_order;
use crate::sorts::{Sort, defined_sort, type_sort};
use fixpoint::{Step, fill};
use smv_ast::{Expr, List, NoMemory, Path, Text};
use smv_meaning::aliases::resolve;
use smv_meaning::entries::Entity;
use smv_meaning::table::{Binding, InstanceTable};
use sqlite_items::at;
use std::alloc::Global;

/// The sort of a path that resolves to no declaration.
fn symbol_sort(context: &KindContext, path: &[Text]) -> Option<Sort>
    ensures { result ≡ spec.symbol_sort context.now.program.now path.now }
{
    match path {
        [name] => {
            if context.is_symbol(name) {
                return Some(Sort::Symbol);
            }
            Some(Sort::Nothing)
        }
        _ => Some(Sort::Nothing),
    }
}

/// The entry of a slot.
fn known_of(solution: &[Option<Sort>], slot: usize) -> Option<Sort>
    ensures { result ≡ entry solution.now slot }
{
    match at(solution, slot) {
        Some(Some(sort)) => Some(*sort),
        _ => None,
    }
}

impl<'t> RowSorting<'t> {
    /// The sort of a path.
    pub fn sort_of(&self, path: &Path) -> Option<Sort>
        ensures { result ≡ spec.sorting_of self.now path.now.names }
    {
        let context = self.context;
        match resolve(
            context.table,
            context.aliases,
            self.row,
            path.names.as_slice(),
        ) {
            Some(slot) => known_of(self.solution, slot),
            None => symbol_sort(context, path.names.as_slice()),
        }
    }
}

/// The sort of a variable, by the entity of its name.
fn variable_sort(entity: Option<Entity>) -> Sort
    ensures { result ≡ spec.variable_sort (option_map entity_view entity.entry) }
{
    match entity {
        Some(Entity::Variable(type_)) => type_sort(type_),
        _ => Sort::Nothing,
    }
}

/// The sort of a variable of an instance.
pub fn row_variable(table: &InstanceTable, row: usize, name: &str) -> Sort
    ensures { result ≡ spec.row_variable table.now (record { instance = row; name = name.now }) }
{
    match at(table.rows.as_slice(), row).copied() {
        Some(found) => variable_sort(found.entity_of(name)),
        None => Sort::Nothing,
    }
}

/// The transfer function of the sorts of slots.
#[derive(Drop)]
struct Sorts<'t> {
    context: &'t KindContext<'t>,
}

impl<'t> Sorts<'t> {
    fn read_in(
        &self,
        alloc: Global,
        solution: &[Option<Sort>],
        row: usize,
        e: &Expr,
    ) -> Result<Option<Sort>, NoMemory>
        ensures { IfOk result (λ s. s
            ≡ (spec.row_facts self.now.context.now.program.now self.now.context.now.table.now
            solution.now row e.now).sort) }
    {
        let sorting = RowSorting {
            context: self.context,
            solution,
            row,
        };
        let facts = facts_of(alloc, &sorting, e)?;
        Ok(facts.sort)
    }
}

impl<'t> Step<Sort> for Sorts<'t> {
    ghost use Rattle.smv_kinds.specs.SortsOfNames.{sort_slots};
    ghost use Rattle.smv_kinds.specs.Monotone.{sort_slots_monotone};

    ghost step = { λ me. sort_slots me.context.now.program.now me.context.now.table.now };

    ghost monotone = { λ me. sort_slots_monotone me.context.now.program.now
        me.context.now.table.now };

    fn step(
        &self,
        alloc: Global,
        solution: &[Option<Sort>],
        k: usize,
    ) -> Result<Option<Sort>, NoMemory> {
        let Some(slot) = at(self.context.table.slots.as_slice(), k).copied() else {
            return Ok(None);
        };
        match slot.binding {
            Binding::Variable => Ok(Some(row_variable(
                self.context.table,
                slot.row,
                slot.name.as_str(),
            ))),
            Binding::Define(right) => {
                let sort = self.read_in(alloc, solution, slot.row, right)?;
                Ok(defined_sort(sort))
            }
            Binding::Formal(outer, actual) => self.read_in(alloc, solution, outer, actual),
            _ => Ok(Some(Sort::Nothing)),
        }
    }
}

/// The sort of each slot.
pub fn sorts_of(alloc: Global, context: &KindContext) -> Result<List<Option<Sort>>, NoMemory>
    ensures { IfOk result (λ solution. spec.AreSorts context.now.program.now context.now.table.now
        solution) }
{
    let count = context.table.slots.len();
    let order = evaluation_order(alloc, context)?;
    let solution = fill(alloc, &Sorts { context }, count, order.as_slice())?;
    Ok(solution)
}
