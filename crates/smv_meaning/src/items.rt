//! The items of modules, in text order.

ghost use Rattle.std.specs.Prelude.{◌≡◌, ◌++◌, [], IfOk, OnOk};
ghost use Rattle.smv_meaning.specs.Items as spec;

use smv_ast::{
    Assignment, Declaration, Declared, Definition, Expr, List, Module, NoMemory, Program, Section,
    Span,
};
use std::alloc::Global;
use std::slice;

/// The role of the expression of a constraint or a spec.
#[derive(Clone, Copy, Debug, PartialEq, Eq)]
pub enum Role {
    /// INIT: it is true in first states.
    Init,
    /// INVAR: it is true in all states.
    Invariant,
    /// TRANS: it is true at all steps.
    Transition,
    /// INVARSPEC: whether it is true in all reachable states is the question.
    Spec,
}

/// An item of a module.
#[derive(Clone, Copy, Drop)]
pub enum Item<'a> {
    Declaration(&'a Declaration),
    Assignment(&'a Assignment),
    Definition(&'a Definition),
    Constraint(Role, &'a Expr, Span),
}

fn no_exprs<'a>() -> &'a [Expr]
    ensures { result.now ≡ [] }
{
    &[]
}

fn declared_exprs<'a>(what: &'a Declared) -> &'a [Expr]
    ensures { result.now ≡ spec.declared_exprs what.now }
{
    match what {
        Declared::Plain(_) => no_exprs(),
        Declared::Instance { actuals, .. } => actuals.as_slice(),
    }
}

impl<'a> Item<'a> {
    /// The span of the item.
    pub fn at(&self) -> Span
        ensures { result ≡ spec.at_of (spec.item_view self.now) }
    {
        match self {
            Item::Declaration(declaration) => declaration.at,
            Item::Assignment(assignment) => assignment.at,
            Item::Definition(definition) => definition.at,
            Item::Constraint(_, _, at) => *at,
        }
    }

    /// The expressions of the item, in text order: the actuals of an instance, a right side, or the
    /// expression of a constraint or a spec.
    pub fn exprs(&self) -> &'a [Expr]
        ensures { result.now ≡ spec.exprs_of (spec.item_view self.now) }
    {
        match *self {
            Item::Declaration(declaration) => declared_exprs(&declaration.what),
            Item::Assignment(assignment) => slice::from_ref(&assignment.right),
            Item::Definition(definition) => slice::from_ref(&definition.right),
            Item::Constraint(_, e, _) => slice::from_ref(e),
        }
    }
}

/// Appends the items of a section, in text order. The only error is `NoMemory`.
pub fn push_section<'a>(items: &mut List<Item<'a>>, section: &'a Section) -> Result<(), NoMemory>
    ensures { OnOk result (spec.items_view items.new ≡ spec.items_view items.old
        ++ spec.section_items section.now) }
{
    match section {
        Section::Vars(declarations) => {
            for declaration in declarations.as_slice() {
                items.push(Item::Declaration(declaration))?;
            }
        }
        Section::Assigns(assignments) => {
            for assignment in assignments.as_slice() {
                items.push(Item::Assignment(assignment))?;
            }
        }
        Section::Defines(definitions) => {
            for definition in definitions.as_slice() {
                items.push(Item::Definition(definition))?;
            }
        }
        Section::Init(e, at) => items.push(Item::Constraint(Role::Init, e, *at))?,
        Section::Invar(e, at) => items.push(Item::Constraint(Role::Invariant, e, *at))?,
        Section::Trans(e, at) => items.push(Item::Constraint(Role::Transition, e, *at))?,
        Section::InvarSpec(e, at) => items.push(Item::Constraint(Role::Spec, e, *at))?,
    }
    Ok(())
}

fn push_module<'a>(items: &mut List<Item<'a>>, owner: &'a Module) -> Result<(), NoMemory>
    ensures { OnOk result (spec.items_view items.new ≡ spec.items_view items.old
        ++ spec.items owner.now) }
{
    for section in owner.sections.as_slice() {
        push_section(items, section)?;
    }
    Ok(())
}

/// The items of a module. The only error is `NoMemory`.
pub fn items_of<'a>(alloc: Global, owner: &'a Module) -> Result<List<Item<'a>>, NoMemory>
    ensures { IfOk result (λ items. spec.items_view items ≡ spec.items owner.now) }
{
    let mut items = List::new(alloc);
    push_module(&mut items, owner)?;
    Ok(items)
}

/// The items of all modules. The only error is `NoMemory`.
pub fn program_items<'a>(alloc: Global, program: &'a Program) -> Result<List<Item<'a>>, NoMemory>
    ensures { IfOk result (λ items. spec.items_view items ≡ spec.program_items program.now) }
{
    let mut items = List::new(alloc);
    for owner in program.modules.as_slice() {
        push_module(&mut items, owner)?;
    }
    Ok(items)
}
