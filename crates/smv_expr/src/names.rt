//! Lists of names.

ghost use Rattle.smv_expr.specs.Reading.{Gives};
ghost use Rattle.smv_expr.specs.Names as spec;

use crate::cursor::Cursor;
use crate::error::ReadError;
use crate::kind::Kind;
use crate::lists::with_first;
use smv_ast::{List, Text};
use std::alloc::Global;

/// A comma, and the name after it.
#[tactic(auto, unfolding(crate::specs::Names::read_next_name))]
fn next_name(alloc: Global, tokens: &mut Cursor<'_>) -> Result<Text, ReadError>
    ensures { Gives (spec.read_next_name tokens.old) result tokens.new }
{
    tokens.expect(Kind::Comma)?;
    let (name, _) = tokens.name(alloc)?;
    Ok(name)
}

fn more_names(alloc: Global, tokens: &mut Cursor<'_>) -> Result<List<Text>, ReadError>
    ensures { Gives (spec.read_more_names tokens.old) result tokens.new }
{
    let mut found = List::new(alloc);
    'rounds: while tokens.sees(Kind::Comma) {
        let one = next_name(alloc, tokens)?;
        found.push(one)?;
    }
    Ok(found)
}

/// One name or more, with commas between them.
#[tactic(auto, unfolding(crate::specs::Names::read_names))]
pub fn names(alloc: Global, tokens: &mut Cursor<'_>) -> Result<List<Text>, ReadError>
    ensures { Gives (spec.read_names tokens.old) result tokens.new }
{
    let (first, _) = tokens.name(alloc)?;
    let more = more_names(alloc, tokens)?;
    Ok(with_first(alloc, first, more)?)
}
