//! Operands that hold no other expression: numbers, intervals and paths.
//!
//! Where a tree ends with a token, `fits` says whether it is low enough to stand there.

ghost use Rattle.std.specs.Prelude.{◌≡◌, true, false};
ghost use Rattle.smv_expr.specs.Reading.{Gives};
ghost use Rattle.smv_expr.specs.ExprReaders as spec;

use crate::cursor::Cursor;
use crate::error::ReadError;
use crate::kind::Kind;
use crate::lists::with_first;
use crate::measured::Tree;
use smv_ast::{List, Path, Span, Text};
use std::alloc::Global;

/// The numeral with which a tree ends.
#[tactic(auto, unfolding(crate::specs::ExprReaders::read_last))]
fn last(tokens: &mut Cursor<'_>, fits: bool) -> Result<(u32, Span), ReadError>
    ensures { Gives (spec.read_last false fits tokens.old) result tokens.new }
{
    if fits {
        return tokens.limited();
    }
    if tokens.sees(Kind::Numeral) {
        return Err(ReadError::TooNested);
    }
    tokens.limited()
}

/// The word or mark with which a tree ends.
#[tactic(auto, unfolding(crate::specs::ExprReaders::read_close))]
pub fn close(tokens: &mut Cursor<'_>, fits: bool, kind: Kind) -> Result<Span, ReadError>
    ensures { Gives (spec.read_close fits kind tokens.old) result tokens.new }
{
    if fits {
        return tokens.expect(kind);
    }
    if tokens.sees(kind) {
        return Err(ReadError::TooNested);
    }
    tokens.expect(kind)
}

/// A numeral, or `-` and a numeral.
#[tactic(auto, unfolding(crate::specs::ExprReaders::read_sign))]
pub fn sign(tokens: &mut Cursor<'_>, fits: bool) -> Result<i64, ReadError>
    ensures { Gives (spec.read_sign false fits tokens.old) result tokens.new }
{
    if let Some(_) = tokens.eat(Kind::Minus) {
        let (value, _) = last(tokens, fits)?;
        Ok(-i64::from(value))
    } else {
        let (value, _) = last(tokens, fits)?;
        Ok(i64::from(value))
    }
}

/// The `..` of an interval, and its upper end.
#[tactic(auto, unfolding(crate::specs::ExprReaders::read_up_to))]
pub fn up_to(tokens: &mut Cursor<'_>, fits: bool) -> Result<i64, ReadError>
    ensures { Gives (spec.read_up_to false fits tokens.old) result tokens.new }
{
    tokens.expect(Kind::DotDot)?;
    sign(tokens, fits)
}

#[tactic(auto, unfolding(crate::specs::ExprReaders::read_interval_expr))]
fn interval(alloc: Global, tokens: &mut Cursor<'_>, fits: bool) -> Result<Tree, ReadError>
    ensures { Gives (spec.read_interval_expr false fits tokens.old) result tokens.new }
{
    let (low, _) = tokens.limited()?;
    let high = up_to(tokens, fits)?;
    Ok(Tree::interval(alloc, i64::from(low), high)?)
}

/// A numeral that begins no interval.
#[tactic(auto, unfolding(crate::specs::ExprReaders::read_single))]
pub fn single(alloc: Global, tokens: &mut Cursor<'_>, fits: bool) -> Result<Tree, ReadError>
    ensures { Gives (spec.read_single false fits tokens.old) result tokens.new }
{
    let (value, _) = last(tokens, fits)?;
    Ok(Tree::number(alloc, value)?)
}

/// A numeral, or the interval that begins with it.
#[tactic(auto, unfolding(crate::specs::ExprReaders::read_number))]
pub fn number(alloc: Global, tokens: &mut Cursor<'_>, fits: bool) -> Result<Tree, ReadError>
    ensures { Gives (spec.read_number false fits tokens.old) result tokens.new }
{
    if tokens.sees_second(Kind::DotDot) {
        interval(alloc, tokens, fits)
    } else {
        single(alloc, tokens, fits)
    }
}

/// The interval after a `-` that belongs to its lower end.
#[tactic(auto, unfolding(crate::specs::ExprReaders::read_negative_interval))]
pub fn negative_interval(
    alloc: Global,
    tokens: &mut Cursor<'_>,
    fits: bool,
) -> Result<Tree, ReadError>
    ensures { Gives (spec.read_negative_interval false fits tokens.old) result tokens.new }
{
    let (low, _) = tokens.limited()?;
    let high = up_to(tokens, fits)?;
    Ok(Tree::interval(alloc, -i64::from(low), high)?)
}

/// A `.`, and the name after it.
#[tactic(auto, unfolding(crate::specs::ExprReaders::read_dotted))]
fn dotted(alloc: Global, tokens: &mut Cursor<'_>) -> Result<Text, ReadError>
    ensures { Gives (spec.read_dotted tokens.old) result tokens.new }
{
    tokens.expect(Kind::Dot)?;
    let (name, _) = tokens.name(alloc)?;
    Ok(name)
}

/// Each `.` that comes, and the name after it.
pub fn dotted_names(alloc: Global, tokens: &mut Cursor<'_>) -> Result<List<Text>, ReadError>
    ensures { Gives (spec.read_dotted_names tokens.old) result tokens.new }
{
    let mut found = List::new(alloc);
    'rounds: while tokens.sees(Kind::Dot) {
        let one = dotted(alloc, tokens)?;
        found.push(one)?;
    }
    Ok(found)
}

#[tactic(auto, unfolding(crate::specs::ExprReaders::read_first_name))]
fn first_name(alloc: Global, tokens: &mut Cursor<'_>, fits: bool) -> Result<(Text, Span), ReadError>
    ensures { Gives (spec.read_first_name fits tokens.old) result tokens.new }
{
    if fits {
        return tokens.name(alloc);
    }
    if tokens.sees(Kind::Name) {
        return Err(ReadError::TooNested);
    }
    tokens.name(alloc)
}

/// Names joined by dots. The span is that of the first.
#[tactic(auto, unfolding(crate::specs::ExprReaders::read_path))]
pub fn path(alloc: Global, tokens: &mut Cursor<'_>, fits: bool) -> Result<Tree, ReadError>
    ensures { Gives (spec.read_path fits tokens.old) result tokens.new }
{
    let (first, at) = first_name(alloc, tokens, fits)?;
    let more = dotted_names(alloc, tokens)?;
    let names = with_first(alloc, first, more)?;
    Ok(Tree::path(alloc, Path { names, at })?)
}
