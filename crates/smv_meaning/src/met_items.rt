//! Constraints and assignments, checked in a state or at a step from the state before it.

ghost use Rattle.std.specs.Prelude.{◌≡◌, ◌<◌, IfOk, IfSome, length};
ghost use Rattle.smv_meaning.specs.Items.{assignment_item, item_view, items_view, Constrains};
ghost use Rattle.smv_meaning.specs.Checking as checking;
ghost use Rattle.smv_meaning.specs.Value.{is_true as is_true_value};
ghost use Rattle.smv_meaning.specs.MetItems as items;

use crate::aliases::slot_of;
use crate::evaluation::{allows, value};
use crate::items::{Item, Role};
use crate::operators::truth;
use crate::run::RunState;
use crate::valuation::{RowEnvironment, RunContext, table_value};
use crate::value::Value;
use smv_ast::{Assignment, Expr, Left, NoMemory, Span};
use std::alloc::Global;

/// A written state and its valuation, by slots.
#[derive(Clone, Copy, Drop)]
pub struct ValuedState<'t> {
    pub written: &'t RunState,
    pub solution: &'t [Option<Value>],
}

/// An instance of a program, given by number.
#[derive(Clone, Copy, Drop)]
pub struct RunInstance<'t> {
    pub context: &'t RunContext<'t, 't>,
    pub row: usize,
    ghost within: { row < length context.now.table.rows },
}

fn is_true(found: Option<Value>) -> bool
    ensures { result ≡ is_true_value found }
{
    match found {
        Some(value) => match truth(&value) {
            Some(holds) => holds,
            None => false,
        },
        None => false,
    }
}

impl<'t> RunInstance<'t> {
    /// The values of its paths in a state.
    fn environment(&self, state: ValuedState<'t>) -> RowEnvironment<'t>
        ensures { result ≡ record {
          context = self.now.context;
          row = self.now.row;
          solution =
              state.entry.solution;
        } }
    {
        RowEnvironment {
            context: self.context,
            row: self.row,
            solution: state.solution,
        }
    }

    /// Whether an expression is true in a state and the state after it.
    pub fn is_true_in(
        &self,
        alloc: Global,
        now: ValuedState<'t>,
        after: ValuedState<'t>,
        e: &Expr,
    ) -> Result<bool, NoMemory>
        requires right { checking.IsContextOfProgram self.now.context.now }
        requires now { items.IsValued self.now.context.now now }
        requires after { items.IsValued self.now.context.now after }
        ensures { IfOk result (λ b. b
            ≡ items.true_in self.now.context.now self.now.row now.entry after.entry e.now) }
    {
        let found = value(alloc, &self.environment(now), &self.environment(after), e)?;
        Ok(is_true(found))
    }

    /// Whether an expression allows a value in a state and the state after it.
    fn allows_in(
        &self,
        alloc: Global,
        now: ValuedState<'t>,
        after: ValuedState<'t>,
        e: &Expr,
        v: &Value,
    ) -> Result<Option<bool>, NoMemory>
        requires right { checking.IsContextOfProgram self.now.context.now }
        requires now { items.IsValued self.now.context.now now }
        requires after { items.IsValued self.now.context.now after }
        ensures { IfOk result (λ b. b
            ≡ items.allows_row self.now.context.now self.now.row now.entry after.entry e.now v.now) }
    {
        let found = allows(
            alloc,
            &self.environment(now),
            &self.environment(after),
            e,
            v,
        )?;
        Ok(found)
    }

    /// The value of a name of the instance in a state.
    fn own_value(
        &self,
        alloc: Global,
        state: ValuedState<'t>,
        name: &str,
    ) -> Result<Option<Value>, NoMemory>
        requires right { checking.IsContextOfProgram self.now.context.now }
        requires state { items.IsValued self.now.context.now state }
        ensures { IfOk result (λ v. v
            ≡ items.own_row self.now.context.now self.now.row state.entry name.now) }
    {
        match slot_of(&self.context.table, self.row, name) {
            Some(slot) => table_value(alloc, state.solution, slot),
            None => Ok(None),
        }
    }

    /// Whether a name has in one state a value that its right side allows in a state and the state
    /// after it.
    fn is_assigned(
        &self,
        alloc: Global,
        own: ValuedState<'t>,
        now: ValuedState<'t>,
        after: ValuedState<'t>,
        assignment: &Assignment,
    ) -> Result<bool, NoMemory>
        requires right { checking.IsContextOfProgram self.now.context.now }
        requires own { items.IsValued self.now.context.now own }
        requires now { items.IsValued self.now.context.now now }
        requires after { items.IsValued self.now.context.now after }
        ensures { IfOk result (λ b. b
            ≡ items.assigned_in self.now.context.now self.now.row own.entry now.entry after.entry
            assignment.now.name assignment.now.right) }
    {
        match self.own_value(alloc, own, assignment.name.as_str())? {
            Some(held) => match self.allows_in(alloc, now, after, &assignment.right, &held)? {
                Some(allowed) => Ok(allowed),
                None => Ok(false),
            },
            None => Ok(false),
        }
    }

    /// Whether an assignment is met in a state and the one before it, if there is one.
    fn assignment_met(
        &self,
        alloc: Global,
        before: Option<ValuedState<'t>>,
        now: ValuedState<'t>,
        assignment: &Assignment,
    ) -> Result<bool, NoMemory>
        requires right { checking.IsContextOfProgram self.now.context.now }
        requires before { IfSome before (items.IsValued self.now.context.now) }
        requires now { items.IsValued self.now.context.now now }
        ensures { IfOk result (λ b. b
            ≡ items.met_in self.now.context.now self.now.row before.entry now.entry
            (assignment_item assignment.now)) }
    {
        match (assignment.left, before) {
            (Left::Now, _) | (Left::Init, None) => {
                self.is_assigned(alloc, now, now, now, assignment)
            }
            (Left::Next, Some(before)) => self.is_assigned(alloc, now, before, now, assignment),
            (Left::Init, Some(_)) | (Left::Next, None) => Ok(true),
        }
    }

    /// Whether a constraint is met in a state and the one before it, if there is one. A spec always
    /// is.
    fn constraint_met(
        &self,
        alloc: Global,
        before: Option<ValuedState<'t>>,
        now: ValuedState<'t>,
        role: Role,
        e: &Expr,
        at: Span,
    ) -> Result<bool, NoMemory>
        requires right { checking.IsContextOfProgram self.now.context.now }
        requires before { IfSome before (items.IsValued self.now.context.now) }
        requires now { items.IsValued self.now.context.now now }
        ensures { IfOk result (λ b. b
            ≡ items.met_in self.now.context.now self.now.row before.entry now.entry
            (Constrains role e.now at)) }
    {
        match (role, before) {
            (Role::Invariant, _) | (Role::Init, None) => self.is_true_in(alloc, now, now, e),
            (Role::Transition, Some(before)) => self.is_true_in(alloc, before, now, e),
            (Role::Init, Some(_)) | (Role::Transition, None) | (Role::Spec, _) => Ok(true),
        }
    }

    /// Whether an item is met in a state and the one before it, if there is one. Declarations,
    /// definitions and specs always are.
    fn item_met(
        &self,
        alloc: Global,
        before: Option<ValuedState<'t>>,
        now: ValuedState<'t>,
        item: Item,
    ) -> Result<bool, NoMemory>
        requires right { checking.IsContextOfProgram self.now.context.now }
        requires before { IfSome before (items.IsValued self.now.context.now) }
        requires now { items.IsValued self.now.context.now now }
        ensures { IfOk result (λ b. b
            ≡ items.met_in self.now.context.now self.now.row before.entry now.entry
            (item_view item.entry)) }
    {
        match item {
            Item::Assignment(assignment) => self.assignment_met(alloc, before, now, assignment),
            Item::Constraint(role, e, at) => self.constraint_met(alloc, before, now, role, e, at),
            Item::Declaration(_) | Item::Definition(_) => Ok(true),
        }
    }

    /// The first of these items that the instance does not meet.
    pub fn first_unmet(
        &self,
        alloc: Global,
        before: Option<ValuedState<'t>>,
        now: ValuedState<'t>,
        list: &[Item],
    ) -> Result<Option<Span>, NoMemory>
        requires right { checking.IsContextOfProgram self.now.context.now }
        requires before { IfSome before (items.IsValued self.now.context.now) }
        requires now { items.IsValued self.now.context.now now }
        ensures { IfOk result (λ b. b
            ≡ items.first_unmet self.now.context.now self.now.row before.entry now.entry
            (items_view list.now)) }
    {
        for item in list {
            let met = self.item_met(alloc, before, now, *item)?;
            if !met {
                return Ok(Some(item.at()));
            }
        }
        Ok(None)
    }
}
