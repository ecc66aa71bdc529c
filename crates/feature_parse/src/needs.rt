//! What a feature requires of the modules.

ghost use Rattle.std.specs.Prelude.{◌≡◌, ◌∷◌, [], map, IfOk};
ghost use Rattle.smv_expr.specs.Reading.{Gives};
ghost use Rattle.smv_parse.specs.Readers.{the_limit};
ghost use Rattle.feature_parse.specs.Grammar.{need_in, needs_in};
ghost use Rattle.feature_parse.specs.Readers as spec;

use integrate_impose::lists::reversed;
use smv_ast::{List, Need, NoMemory, SmvType, Span, Text};
use smv_expr::cursor::Cursor;
use smv_expr::error::ReadError;
use smv_expr::kind::Kind;
use smv_parse::types::smv_type;
use std::alloc::Global;

/// A name that a module must have, and its type, if one is stated.
#[derive(Drop)]
pub struct RequiredName {
    pub name: Text,
    pub wanted: Option<SmvType>,
    pub at: Span,
}

/// `: type`.
#[tactic(auto, unfolding(crate::specs::Readers::read_wanted_type))]
fn wanted_type(alloc: Global, tokens: &mut Cursor<'_>) -> Result<SmvType, ReadError>
    ensures { Gives (spec.read_wanted_type the_limit tokens.old) result tokens.new }
{
    tokens.expect(Kind::Colon)?;
    smv_type(alloc, tokens)
}

#[tactic(auto, unfolding(crate::specs::Readers::read_some_wanted_type))]
fn some_wanted_type(alloc: Global, tokens: &mut Cursor<'_>) -> Result<Option<SmvType>, ReadError>
    ensures { Gives (spec.read_some_wanted_type the_limit tokens.old) result tokens.new }
{
    if tokens.sees(Kind::Colon) {
        Ok(Some(wanted_type(alloc, tokens)?))
    } else {
        Ok(None)
    }
}

/// `name;` or `name : type;`.
#[tactic(auto, unfolding(crate::specs::Readers::read_required_name))]
fn required_name(alloc: Global, tokens: &mut Cursor<'_>) -> Result<RequiredName, ReadError>
    ensures { Gives (spec.read_required_name the_limit tokens.old) result tokens.new }
{
    let (name, at) = tokens.name(alloc)?;
    let wanted = some_wanted_type(alloc, tokens)?;
    tokens.expect(Kind::Semicolon)?;
    Ok(RequiredName { name, wanted, at })
}

fn more_required_names(
    alloc: Global,
    tokens: &mut Cursor<'_>,
) -> Result<List<RequiredName>, ReadError>
    ensures { Gives (spec.read_more_required_names the_limit tokens.old) result tokens.new }
{
    let mut found = List::new(alloc);
    'rounds: while tokens.sees(Kind::Name) {
        let one = required_name(alloc, tokens)?;
        found.push(one)?;
    }
    Ok(found)
}

/// VAR, and the names after it.
#[tactic(auto, unfolding(crate::specs::Readers::read_required_vars))]
fn required_vars(alloc: Global, tokens: &mut Cursor<'_>) -> Result<List<RequiredName>, ReadError>
    ensures { Gives (spec.read_required_vars the_limit tokens.old) result tokens.new }
{
    tokens.expect(Kind::Var)?;
    more_required_names(alloc, tokens)
}

/// The names of all VAR sections that come.
fn all_required_names(
    alloc: Global,
    tokens: &mut Cursor<'_>,
) -> Result<List<RequiredName>, ReadError>
    ensures { Gives (spec.read_all_required_names the_limit tokens.old) result tokens.new }
{
    let mut found = List::new(alloc);
    'rounds: while tokens.sees(Kind::Var) {
        let one = required_vars(alloc, tokens)?;
        found.append(one)?;
    }
    Ok(found)
}

fn need_in(alloc: Global, module: &Text, required: RequiredName) -> Result<Need, NoMemory>
    ensures { IfOk result (λ need. need ≡ need_in «module».now required) }
{
    let RequiredName { name, wanted, at } = required;
    Ok(Need {
        module: module.try_clone(alloc)?,
        name,
        wanted,
        at,
    })
}

/// A need for each name.
fn named_needs(
    alloc: Global,
    module: &Text,
    names: List<RequiredName>,
) -> Result<List<Need>, NoMemory>
    ensures { IfOk result (λ needs. needs ≡ map (need_in «module».now) names) }
{
    let mut waiting = reversed(alloc, names)?;
    let mut needs = List::new(alloc);
    for _round in 0..waiting.len() {
        if let Some(required) = waiting.pop() {
            needs.push(need_in(alloc, module, required)?)?;
        }
    }
    Ok(needs)
}

/// The need of a module from which no name is required.
fn module_alone(alloc: Global, module: Text, at: Span) -> Result<List<Need>, NoMemory>
    ensures { IfOk result (λ needs. needs ≡ needs_in («module», at) []) }
{
    let mut needs = List::new(alloc);
    needs.push(Need {
        module,
        name: Text::from_str(alloc, "")?,
        wanted: None,
        at,
    })?;
    Ok(needs)
}

/// The needs of a module, whose name stands at the span.
fn needs_in(
    alloc: Global,
    module: Text,
    at: Span,
    names: List<RequiredName>,
) -> Result<List<Need>, NoMemory>
    ensures { IfOk result (λ needs. needs ≡ needs_in («module», at) names) }
{
    if names.is_empty() {
        return module_alone(alloc, module, at);
    }
    named_needs(alloc, &module, names)
}

/// MODULE with its name, and the names that are required of it.
#[tactic(auto, unfolding(crate::specs::Readers::read_module_needs))]
fn module_needs(alloc: Global, tokens: &mut Cursor<'_>) -> Result<List<Need>, ReadError>
    ensures { Gives (spec.read_module_needs the_limit tokens.old) result tokens.new }
{
    tokens.expect(Kind::Module)?;
    let (module, at) = tokens.name(alloc)?;
    let names = all_required_names(alloc, tokens)?;
    Ok(needs_in(alloc, module, at, names)?)
}

fn more_needs(alloc: Global, tokens: &mut Cursor<'_>) -> Result<List<Need>, ReadError>
    ensures { Gives (spec.read_more_needs the_limit tokens.old) result tokens.new }
{
    let mut found = List::new(alloc);
    'rounds: while tokens.sees(Kind::Module) {
        let one = module_needs(alloc, tokens)?;
        found.append(one)?;
    }
    Ok(found)
}

/// REQUIRE, and the needs after it.
#[tactic(auto, unfolding(crate::specs::Readers::read_needs))]
fn needs(alloc: Global, tokens: &mut Cursor<'_>) -> Result<List<Need>, ReadError>
    ensures { Gives (spec.read_needs the_limit tokens.old) result tokens.new }
{
    tokens.expect(Kind::Require)?;
    more_needs(alloc, tokens)
}

/// The needs of a feature, if it has any.
#[tactic(auto, unfolding(crate::specs::Readers::read_some_needs))]
pub fn some_needs(alloc: Global, tokens: &mut Cursor<'_>) -> Result<List<Need>, ReadError>
    ensures { Gives (spec.read_some_needs the_limit tokens.old) result tokens.new }
{
    if tokens.sees(Kind::Require) {
        needs(alloc, tokens)
    } else {
        Ok(List::new(alloc))
    }
}
