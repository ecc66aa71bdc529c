//! Items of an instance, judged by the rule of a pass.

ghost use Rattle.std.specs.Prelude.{◌≡◌, IfOk};
ghost use Rattle.std.specs.List.{list_all};
ghost use Rattle.smv_meaning.specs.Items.{item_view};
ghost use Rattle.smv_kinds.specs.Rules as spec;

use crate::instance_rule::InstanceRule;
use crate::pass::{actual_keeps, fault_of, in_kinds, kept, type_keeps};
use smv_ast::{Declared, Expr, Fault, NoMemory};
use smv_meaning::items::Item;
use smv_meaning::rules::ItemRule;
use std::alloc::Global;

impl<'t> InstanceRule<'t> {
    fn actuals_keep(&self, alloc: Global, actuals: &[Expr]) -> Result<bool, NoMemory>
        ensures { IfOk result (λ b. b ≡ list_all (spec.actual_keeps_here self.now) actuals.now) }
    {
        for actual in actuals {
            let facts = self.facts(alloc, actual)?;
            if !actual_keeps(self.pass, self.is_instance(actual), facts) {
                return Ok(false);
            }
        }
        Ok(true)
    }

    fn declared_keeps(&self, alloc: Global, what: &Declared) -> Result<bool, NoMemory>
        ensures { IfOk result (λ b. b ≡ spec.declared_keeps_here self.now what.now) }
    {
        match what {
            Declared::Plain(type_) => Ok(type_keeps(self.pass, type_)),
            Declared::Instance { actuals, .. } => self.actuals_keep(alloc, actuals.as_slice()),
        }
    }

    /// Whether an item keeps the rule.
    fn keeps(&self, alloc: Global, item: Item) -> Result<bool, NoMemory>
        ensures { IfOk result (λ b. b ≡ spec.keeps_here self.now (item_view item.entry)) }
    {
        match item {
            Item::Declaration(declaration) => self.declared_keeps(alloc, &declaration.what),
            Item::Assignment(assignment) => {
                let facts = self.facts(alloc, &assignment.right)?;
                let suits = self.is_assignable(assignment.name.as_str(), facts);
                Ok(kept(self.pass, facts) && in_kinds(self.pass, suits))
            }
            Item::Definition(definition) => {
                let facts = self.facts(alloc, &definition.right)?;
                Ok(kept(self.pass, facts))
            }
            Item::Constraint(_, e, _) => {
                // A constraint must be usable as a truth value.
                let facts = self.facts(alloc, e)?;
                Ok(kept(self.pass, facts) && in_kinds(self.pass, facts.fits))
            }
        }
    }
}

impl<'t> ItemRule<Fault> for InstanceRule<'t> {
    ghost use Rattle.smv_kinds.specs.Rules.{fault_here};

    ghost reports = { fault_here };

    fn judge(&self, alloc: Global, item: Item) -> Result<Option<Fault>, NoMemory> {
        if self.keeps(alloc, item)? {
            return Ok(None);
        }
        Ok(Some(fault_of(self.pass, item.at())))
    }
}
