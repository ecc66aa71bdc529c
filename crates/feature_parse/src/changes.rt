//! What a feature changes in the modules.

ghost use Rattle.std.specs.Prelude.{◌≡◌, IfOk, OnOk};
ghost use Rattle.smv_ast.specs.declared.syntax.Expr.TheVariants as e;
ghost use Rattle.smv_expr.specs.Language.{begins};
ghost use Rattle.smv_expr.specs.Reading.{Gives};
ghost use Rattle.smv_parse.specs.Readers.{the_limit};
ghost use Rattle.feature_parse.specs.Grammar.{change_in, no_changes, with_changes, with_conditional};
ghost use Rattle.feature_parse.specs.Readers as spec;

use integrate_impose::copies::copy_expr;
use integrate_impose::lists::reversed;
use smv_ast::{Action, Change, Expr, List, NoMemory, Path, Span, Text};
use smv_expr::answer::whole_expr;
use smv_expr::cursor::Cursor;
use smv_expr::error::ReadError;
use smv_expr::kind::Kind;
use smv_expr::lists::with_first;
use smv_expr::operand::dotted_names;
use smv_parse::names::{LeftSide, left_side};
use std::alloc::Global;

/// An action, and the span of its word IMPOSE or TREAT.
#[derive(Drop)]
pub struct ActionText {
    pub action: Action,
    pub at: Span,
}

/// Actions under one condition.
#[derive(Drop)]
pub struct ConditionalActions {
    pub cond: Expr,
    pub actions: List<ActionText>,
}

/// The changes of one module.
#[derive(Drop)]
pub struct ModuleChanges {
    pub module: Text,
    pub changes: List<Change>,
}

/// `IMPOSE left side := right;`.
#[tactic(auto, unfolding(crate::specs::Readers::read_impose))]
fn impose(alloc: Global, tokens: &mut Cursor<'_>) -> Result<ActionText, ReadError>
    ensures { Gives (spec.read_impose the_limit tokens.old) result tokens.new }
{
    let at = tokens.expect(Kind::Impose)?;
    let LeftSide { left, name, at: _ } = left_side(alloc, tokens)?;
    tokens.expect(Kind::Becomes)?;
    let right = whole_expr(alloc, tokens)?;
    tokens.expect(Kind::Semicolon)?;
    let action = Action::Impose { left, name, right };
    Ok(ActionText { action, at })
}

/// Names joined by dots. The span is that of the first.
#[tactic(auto, unfolding(crate::specs::Readers::read_target))]
fn target(alloc: Global, tokens: &mut Cursor<'_>) -> Result<Path, ReadError>
    ensures { Gives (spec.read_target tokens.old) result tokens.new }
{
    let (first, at) = tokens.name(alloc)?;
    let more = dotted_names(alloc, tokens)?;
    let names = with_first(alloc, first, more)?;
    Ok(Path { names, at })
}

/// `TREAT path = right;`.
#[tactic(auto, unfolding(crate::specs::Readers::read_treat))]
fn treat(alloc: Global, tokens: &mut Cursor<'_>) -> Result<ActionText, ReadError>
    ensures { Gives (spec.read_treat the_limit tokens.old) result tokens.new }
{
    let at = tokens.expect(Kind::Treat)?;
    let path = target(alloc, tokens)?;
    tokens.expect(Kind::Equal)?;
    let right = whole_expr(alloc, tokens)?;
    tokens.expect(Kind::Semicolon)?;
    let action = Action::Treat { path, right };
    Ok(ActionText { action, at })
}

#[tactic(auto, unfolding(crate::specs::Readers::read_action))]
fn action(alloc: Global, tokens: &mut Cursor<'_>) -> Result<ActionText, ReadError>
    ensures { Gives (spec.read_action the_limit tokens.old) result tokens.new }
{
    if tokens.sees(Kind::Impose) {
        impose(alloc, tokens)
    } else {
        treat(alloc, tokens)
    }
}

/// Whether an action may begin with what comes.
fn sees_action(tokens: &Cursor<'_>) -> bool
    ensures { result ≡ begins spec.first_action tokens.now }
{
    tokens.sees(Kind::Impose) || tokens.sees(Kind::Treat)
}

fn more_actions(alloc: Global, tokens: &mut Cursor<'_>) -> Result<List<ActionText>, ReadError>
    ensures { Gives (spec.read_more_actions the_limit tokens.old) result tokens.new }
{
    let mut found = List::new(alloc);
    'rounds: while sees_action(tokens) {
        let one = action(alloc, tokens)?;
        found.push(one)?;
    }
    Ok(found)
}

/// `IF cond THEN`, and one action or more.
#[tactic(auto, unfolding(crate::specs::Readers::read_conditional))]
fn conditional(alloc: Global, tokens: &mut Cursor<'_>) -> Result<ConditionalActions, ReadError>
    ensures { Gives (spec.read_conditional the_limit tokens.old) result tokens.new }
{
    tokens.expect(Kind::If)?;
    let cond = whole_expr(alloc, tokens)?;
    tokens.expect(Kind::Then)?;
    let first = action(alloc, tokens)?;
    let more = more_actions(alloc, tokens)?;
    let actions = with_first(alloc, first, more)?;
    Ok(ConditionalActions { cond, actions })
}

/// The action as a change of the module, with a copy of its condition.
fn change_in(
    alloc: Global,
    module: &Text,
    cond: &Expr,
    placed: ActionText,
) -> Result<Change, NoMemory>
    ensures { IfOk result (λ change. change ≡ change_in «module».now cond.now placed) }
{
    let ActionText { action, at } = placed;
    Ok(Change {
        module: module.try_clone(alloc)?,
        cond: copy_expr(alloc, cond)?,
        action,
        at,
    })
}

impl ModuleChanges {
    fn new(alloc: Global, module: Text) -> ModuleChanges
        ensures { result ≡ no_changes «module» }
    {
        ModuleChanges {
            module,
            changes: List::new(alloc),
        }
    }

    /// Adds the actions under a condition after the others.
    fn push_all(
        &mut self,
        alloc: Global,
        cond: &Expr,
        actions: List<ActionText>,
    ) -> Result<(), NoMemory>
        ensures { OnOk result (self.new ≡ with_changes self.old cond.now actions) }
    {
        let mut waiting = reversed(alloc, actions)?;
        for _round in 0..waiting.len() {
            if let Some(placed) = waiting.pop() {
                let change = change_in(alloc, &self.module, cond, placed)?;
                self.changes.push(change)?;
            }
        }
        Ok(())
    }

    fn push_conditional(&mut self, alloc: Global, next: ConditionalActions) -> Result<(), NoMemory>
        ensures { OnOk result (self.new ≡ with_conditional self.old next) }
    {
        let ConditionalActions { cond, actions } = next;
        self.push_all(alloc, &cond, actions)
    }
}

/// The changes of a module whose actions are always in effect.
fn always_in_effect(
    alloc: Global,
    module: Text,
    actions: List<ActionText>,
) -> Result<ModuleChanges, NoMemory>
    ensures { IfOk result (λ found. found ≡ with_changes (no_changes «module») e.True actions) }
{
    let mut found = ModuleChanges::new(alloc, module);
    found.push_all(alloc, &Expr::True, actions)?;
    Ok(found)
}

/// MODULE with its name, and the actions before the first condition.
#[tactic(auto, unfolding(crate::specs::Readers::read_unconditional))]
fn unconditional_changes(alloc: Global, tokens: &mut Cursor<'_>) -> Result<ModuleChanges, ReadError>
    ensures { Gives (spec.read_unconditional the_limit tokens.old) result tokens.new }
{
    tokens.expect(Kind::Module)?;
    let (module, _) = tokens.name(alloc)?;
    let actions = more_actions(alloc, tokens)?;
    Ok(always_in_effect(alloc, module, actions)?)
}

/// The conditions that come with their actions, after the changes that are there.
fn more_conditional(
    alloc: Global,
    tokens: &mut Cursor<'_>,
    first: ModuleChanges,
) -> Result<ModuleChanges, ReadError>
    ensures { Gives (spec.read_more_conditional the_limit first tokens.old) result tokens.new }
{
    let mut found = first;
    'rounds: while tokens.sees(Kind::If) {
        let one = conditional(alloc, tokens)?;
        found.push_conditional(alloc, one)?;
    }
    Ok(found)
}

/// MODULE with its name, and its changes.
#[tactic(auto, unfolding(crate::specs::Readers::read_module_changes))]
fn module_changes(alloc: Global, tokens: &mut Cursor<'_>) -> Result<ModuleChanges, ReadError>
    ensures { Gives (spec.read_module_changes the_limit tokens.old) result tokens.new }
{
    let first = unconditional_changes(alloc, tokens)?;
    more_conditional(alloc, tokens, first)
}

fn more_changes(alloc: Global, tokens: &mut Cursor<'_>) -> Result<List<Change>, ReadError>
    ensures { Gives (spec.read_more_changes the_limit tokens.old) result tokens.new }
{
    let mut found = List::new(alloc);
    'rounds: while tokens.sees(Kind::Module) {
        let one = module_changes(alloc, tokens)?;
        found.append(one.changes)?;
    }
    Ok(found)
}

/// CHANGE, and the modules after it.
#[tactic(auto, unfolding(crate::specs::Readers::read_changes))]
fn changes(alloc: Global, tokens: &mut Cursor<'_>) -> Result<List<Change>, ReadError>
    ensures { Gives (spec.read_changes the_limit tokens.old) result tokens.new }
{
    tokens.expect(Kind::Change)?;
    more_changes(alloc, tokens)
}

/// The changes of a feature, if it has any.
#[tactic(auto, unfolding(crate::specs::Readers::read_some_changes))]
pub fn some_changes(alloc: Global, tokens: &mut Cursor<'_>) -> Result<List<Change>, ReadError>
    ensures { Gives (spec.read_some_changes the_limit tokens.old) result tokens.new }
{
    if tokens.sees(Kind::Change) {
        changes(alloc, tokens)
    } else {
        Ok(List::new(alloc))
    }
}
