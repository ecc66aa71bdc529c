//! The types of variables.

ghost use Rattle.std.specs.Prelude.{◌≡◌};
ghost use Rattle.smv_expr.specs.Language.{begins};
ghost use Rattle.smv_expr.specs.Reading.{Gives};
ghost use Rattle.smv_parse.specs.Readers as spec;
ghost use Rattle.smv_parse.specs.Readers.{the_limit};

use smv_ast::{List, SmvType};
use smv_expr::cursor::Cursor;
use smv_expr::error::ReadError;
use smv_expr::kind::Kind;
use smv_expr::lists::with_first;
use smv_expr::names::names;
use smv_expr::operand::{sign, up_to};
use std::alloc::Global;

/// Whether a number with its sign may begin with what comes.
fn sees_sign(tokens: &Cursor<'_>) -> bool
    ensures { result ≡ begins spec.first_sign tokens.now }
{
    tokens.sees(Kind::Minus) || tokens.sees(Kind::Numeral) || tokens.sees(Kind::WideNumeral)
}

/// Whether a type may begin with what comes.
pub fn sees_type(tokens: &Cursor<'_>) -> bool
    ensures { result ≡ begins spec.first_type tokens.now }
{
    tokens.sees(Kind::Boolean) || tokens.sees(Kind::OpenBrace) || sees_sign(tokens)
}

/// A comma, and the number after it.
#[tactic(auto, unfolding(crate::specs::Readers::read_next_sign))]
fn next_sign(tokens: &mut Cursor<'_>) -> Result<i64, ReadError>
    ensures { Gives (spec.read_next_sign the_limit tokens.old) result tokens.new }
{
    tokens.expect(Kind::Comma)?;
    sign(tokens, true)
}

fn more_signs(alloc: Global, tokens: &mut Cursor<'_>) -> Result<List<i64>, ReadError>
    ensures { Gives (spec.read_more_signs the_limit tokens.old) result tokens.new }
{
    let mut found = List::new(alloc);
    'rounds: while tokens.sees(Kind::Comma) {
        let one = next_sign(tokens)?;
        found.push(one)?;
    }
    Ok(found)
}

/// Numbers with commas between them.
#[tactic(auto, unfolding(crate::specs::Readers::read_numbers))]
fn numbers(alloc: Global, tokens: &mut Cursor<'_>) -> Result<SmvType, ReadError>
    ensures { Gives (spec.read_numbers the_limit tokens.old) result tokens.new }
{
    let first = sign(tokens, true)?;
    let more = more_signs(alloc, tokens)?;
    Ok(SmvType::Numbers(with_first(alloc, first, more)?))
}

/// The values of an enumeration: numbers, or symbols.
#[tactic(auto, unfolding(crate::specs::Readers::read_values))]
fn values(alloc: Global, tokens: &mut Cursor<'_>) -> Result<SmvType, ReadError>
    ensures { Gives (spec.read_values the_limit tokens.old) result tokens.new }
{
    if sees_sign(tokens) {
        return numbers(alloc, tokens);
    }
    Ok(SmvType::Symbols(names(alloc, tokens)?))
}

/// `{value, value}`.
#[tactic(auto, unfolding(crate::specs::Readers::read_enumeration))]
fn enumeration(alloc: Global, tokens: &mut Cursor<'_>) -> Result<SmvType, ReadError>
    ensures { Gives (spec.read_enumeration the_limit tokens.old) result tokens.new }
{
    tokens.expect(Kind::OpenBrace)?;
    let values = values(alloc, tokens)?;
    tokens.expect(Kind::CloseBrace)?;
    Ok(values)
}

/// `low..high`.
#[tactic(auto, unfolding(crate::specs::Readers::read_range))]
fn range(tokens: &mut Cursor<'_>) -> Result<SmvType, ReadError>
    ensures { Gives (spec.read_range the_limit tokens.old) result tokens.new }
{
    let low = sign(tokens, true)?;
    let high = up_to(tokens, true)?;
    Ok(SmvType::Range { low, high })
}

/// A type: `boolean`, an enumeration of numbers or of symbols, or `low..high`.
#[tactic(auto, unfolding(crate::specs::Readers::read_smv_type))]
pub fn smv_type(alloc: Global, tokens: &mut Cursor<'_>) -> Result<SmvType, ReadError>
    ensures { Gives (spec.read_smv_type the_limit tokens.old) result tokens.new }
{
    if let Some(_) = tokens.eat(Kind::Boolean) {
        return Ok(SmvType::Boolean);
    }
    if tokens.sees(Kind::OpenBrace) {
        return enumeration(alloc, tokens);
    }
    range(tokens)
}
