//! Rules on single items.

ghost use Rattle.std.specs.Prelude.{◌≡◌};
ghost use Rattle.std.specs.List.{list_any};
ghost use Rattle.smv_meaning.specs.Items.{item_view};
ghost use Rattle.smv_shape.specs.Rules as spec;

use crate::choices::has_stray_choice;
use crate::nexts::has_stray_next;
use crate::ranges::{has_empty, is_empty_type};
use smv_ast::{Declared, Expr, Fault, Left, NoMemory, Span};
use smv_meaning::items::{Item, Role};
use smv_meaning::rules::ItemRule;
use std::alloc::Global;

/// A rule on the types and expressions of an item.
#[derive(Clone, Copy, Debug, PartialEq, Eq)]
pub enum Rule {
    /// No interval is empty.
    Ranges,
    /// A free choice is a right side.
    Choices,
    /// `next` stands only in steps.
    Nexts,
}

/// Whether the expressions of the item may be free choices.
fn may_choose(item: Item) -> bool
    ensures { result ≡ spec.may_choose (item_view item.entry) }
{
    matches!(item, Item::Assignment(_))
}

/// Whether the expressions of the item may contain `next`.
fn may_look_ahead(item: Item) -> bool
    ensures { result ≡ spec.may_look_ahead (item_view item.entry) }
{
    match item {
        Item::Assignment(assignment) => matches!(assignment.left, Left::Next),
        Item::Constraint(Role::Transition, _, _) => true,
        _ => false,
    }
}

fn expr_breaks(rule: Rule, item: Item, e: &Expr) -> bool
    ensures { result ≡ spec.expr_breaks rule (item_view item.entry) e.now }
{
    match rule {
        Rule::Ranges => has_empty(e),
        Rule::Choices => has_stray_choice(e, may_choose(item)),
        Rule::Nexts => has_stray_next(e, may_look_ahead(item)),
    }
}

fn any_breaks(rule: Rule, item: Item, exprs: &[Expr]) -> bool
    ensures { result ≡ list_any (spec.expr_breaks rule (item_view item.entry)) exprs.now }
{
    for e in exprs {
        if expr_breaks(rule, item, e) {
            return true;
        }
    }
    false
}

fn declared_breaks(rule: Rule, what: &Declared) -> bool
    ensures { result ≡ spec.declared_breaks rule what.now }
{
    match (rule, what) {
        (Rule::Ranges, Declared::Plain(type_)) => is_empty_type(type_),
        _ => false,
    }
}

fn type_breaks(rule: Rule, item: Item) -> bool
    ensures { result ≡ spec.type_breaks rule (item_view item.entry) }
{
    match item {
        Item::Declaration(declaration) => declared_breaks(rule, &declaration.what),
        _ => false,
    }
}

fn fault_of(rule: Rule, at: Span) -> Fault
    ensures { result ≡ spec.fault_of rule at }
{
    match rule {
        Rule::Ranges => Fault::EmptyRange { at: Some(at) },
        Rule::Choices => Fault::ChoicePlace { at: Some(at) },
        Rule::Nexts => Fault::NextPlace { at: Some(at) },
    }
}

impl ItemRule<Fault> for Rule {
    ghost use Rattle.smv_shape.specs.Rules.{rule_fault};

    ghost reports = { rule_fault };

    fn judge(&self, _alloc: Global, item: Item) -> Result<Option<Fault>, NoMemory> {
        if type_breaks(*self, item) || any_breaks(*self, item, item.exprs()) {
            return Ok(Some(fault_of(*self, item.at())));
        }
        Ok(None)
    }
}
