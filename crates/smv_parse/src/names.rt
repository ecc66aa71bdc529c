//! The formals of modules, and the left sides of assignments.

ghost use Rattle.std.specs.Prelude.{◌≡◌};
ghost use Rattle.smv_expr.specs.Language.{begins};
ghost use Rattle.smv_expr.specs.Reading.{Gives};
ghost use Rattle.smv_parse.specs.Readers as spec;

use smv_ast::{Left, List, Span, Text};
use smv_expr::cursor::Cursor;
use smv_expr::error::ReadError;
use smv_expr::kind::Kind;
use smv_expr::names::names;
use std::alloc::Global;

/// The left side of an assignment: `init(name)`, `next(name)` or `name`. Its span is that of its first word.
#[derive(Drop)]
pub struct LeftSide {
    pub left: Left,
    pub name: Text,
    pub at: Span,
}

#[tactic(auto, unfolding(crate::specs::Readers::read_some_names))]
fn some_names(alloc: Global, tokens: &mut Cursor<'_>) -> Result<List<Text>, ReadError>
    ensures { Gives (spec.read_some_names tokens.old) result tokens.new }
{
    if tokens.sees(Kind::Name) {
        names(alloc, tokens)
    } else {
        Ok(List::new(alloc))
    }
}

/// The formals of a module, in parentheses.
#[tactic(auto, unfolding(crate::specs::Readers::read_formals))]
fn formals(alloc: Global, tokens: &mut Cursor<'_>) -> Result<List<Text>, ReadError>
    ensures { Gives (spec.read_formals tokens.old) result tokens.new }
{
    tokens.expect(Kind::OpenParen)?;
    let names = some_names(alloc, tokens)?;
    tokens.expect(Kind::CloseParen)?;
    Ok(names)
}

/// The formals of a module, if it has any.
#[tactic(auto, unfolding(crate::specs::Readers::read_some_formals))]
pub fn some_formals(alloc: Global, tokens: &mut Cursor<'_>) -> Result<List<Text>, ReadError>
    ensures { Gives (spec.read_some_formals tokens.old) result tokens.new }
{
    if tokens.sees(Kind::OpenParen) {
        formals(alloc, tokens)
    } else {
        Ok(List::new(alloc))
    }
}

/// `(name)`.
#[tactic(auto, unfolding(crate::specs::Readers::read_name_in_parens))]
pub fn name_in_parens(alloc: Global, tokens: &mut Cursor<'_>) -> Result<Text, ReadError>
    ensures { Gives (spec.read_name_in_parens tokens.old) result tokens.new }
{
    tokens.expect(Kind::OpenParen)?;
    let (name, _) = tokens.name(alloc)?;
    tokens.expect(Kind::CloseParen)?;
    Ok(name)
}

/// `init(name)`, `next(name)` or `name`.
#[tactic(auto, unfolding(crate::specs::Readers::read_left_side))]
pub fn left_side(alloc: Global, tokens: &mut Cursor<'_>) -> Result<LeftSide, ReadError>
    ensures { Gives (spec.read_left_side tokens.old) result tokens.new }
{
    if let Some(at) = tokens.eat(Kind::Init) {
        let name = name_in_parens(alloc, tokens)?;
        return Ok(LeftSide {
            left: Left::Init,
            name,
            at,
        });
    }
    if let Some(at) = tokens.eat(Kind::Next) {
        let name = name_in_parens(alloc, tokens)?;
        return Ok(LeftSide {
            left: Left::Next,
            name,
            at,
        });
    }
    let (name, at) = tokens.name(alloc)?;
    Ok(LeftSide {
        left: Left::Now,
        name,
        at,
    })
}

/// Whether a left side may begin with what comes.
pub fn sees_left_side(tokens: &Cursor<'_>) -> bool
    ensures { result ≡ begins spec.first_side tokens.now }
{
    tokens.sees(Kind::Init) || tokens.sees(Kind::Next) || tokens.sees(Kind::Name)
}
