//! The facts of expressions, aliases of instances, and sorts of variables, all in one instance.

ghost use Rattle.std.specs.Prelude.{◌≡◌, IfOk};
ghost use Rattle.std.specs.Option.{is_some, option_map};
ghost use Rattle.smv_meaning.specs.Entries.{entity_view};
ghost use Rattle.smv_kinds.specs.ItemRules as requirement;
ghost use Rattle.smv_kinds.specs.SortsOfNames as name_sorts;
ghost use Rattle.smv_kinds.specs.Rules as spec;

use crate::context::RowSorting;
use crate::expressions::facts_of;
use crate::facts::{Facts, suits};
use crate::instance_rule::InstanceRule;
use crate::sorts::{Sort, type_sort};
use smv_ast::{Expr, NoMemory};
use smv_meaning::aliases::aliased;
use smv_meaning::entries::Entity;
use std::alloc::Global;

/// The sort of a variable, if the entity is one.
fn target_sort(entity: Option<Entity>) -> Option<Sort>
    ensures { result ≡ name_sorts.target_sort (option_map entity_view entity.entry) }
{
    match entity {
        Some(Entity::Variable(type_)) => Some(type_sort(type_)),
        _ => None,
    }
}

impl<'t> InstanceRule<'t> {
    /// The facts of an expression.
    pub fn facts(&self, alloc: Global, e: &Expr) -> Result<Facts, NoMemory>
        ensures { IfOk result (λ f. f ≡ spec.facts_here self.now e.now) }
    {
        let sorting = RowSorting {
            context: self.context,
            solution: self.solution,
            row: self.row,
        };
        let facts = facts_of(alloc, &sorting, e)?;
        Ok(facts)
    }

    /// Whether an expression is a path to an instance, or to a formal that is an alias of one.
    pub fn is_instance(&self, e: &Expr) -> bool
        ensures { result ≡ spec.is_instance_here self.now e.now }
    {
        let found = aliased(self.context.table, self.context.aliases, self.row, e);
        found.is_some()
    }

    /// The sort of a variable, if the name is one.
    fn target(&self, name: &str) -> Option<Sort>
        ensures { result ≡ spec.target_here self.now name.now }
    {
        let rows = self.context.table.rows.as_slice();
        target_sort(rows[self.row].entity_of(name))
    }

    /// Whether an expression may be assigned to a name.
    pub fn is_assignable(&self, name: &str, facts: Facts) -> bool
        ensures { result ≡ requirement.assignable (spec.target_here self.now name.now) facts }
    {
        match self.target(name) {
            Some(sort) => suits(Some(sort), facts),
            None => true,
        }
    }
}
