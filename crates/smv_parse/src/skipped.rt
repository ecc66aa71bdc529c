//! Sections that are skipped, and the text after their words.

ghost use Rattle.std.specs.Prelude.{◌≡◌, IfOk};
ghost use Rattle.smv_expr.specs.Language.{begins};
ghost use Rattle.smv_expr.specs.Reading.{Gives};
ghost use Rattle.smv_parse.specs.Grammar.{skip_ends, skipped_as};
ghost use Rattle.smv_parse.specs.Readers as spec;

use smv_ast::{NoMemory, Skipped, Span, Text};
use smv_expr::cursor::Cursor;
use smv_expr::error::ReadError;
use smv_expr::kind::Kind;
use std::alloc::Global;

fn skipped_as(alloc: Global, word: &str, at: Span) -> Result<Skipped, NoMemory>
    ensures { IfOk result (λ s. s ≡ skipped_as word.now at) }
{
    Ok(Skipped {
        word: Text::from_str(alloc, word)?,
        at,
    })
}

/// The word of a skipped section.
#[tactic(auto, unfolding(crate::specs::Readers::read_skip_word))]
fn skip_word(alloc: Global, tokens: &mut Cursor<'_>) -> Result<Skipped, ReadError>
    ensures { Gives (spec.read_skip_word tokens.old) result tokens.new }
{
    if let Some(at) = tokens.eat(Kind::Spec) {
        return Ok(skipped_as(alloc, "SPEC", at)?);
    }
    if let Some(at) = tokens.eat(Kind::CtlSpec) {
        return Ok(skipped_as(alloc, "CTLSPEC", at)?);
    }
    if let Some(at) = tokens.eat(Kind::LtlSpec) {
        return Ok(skipped_as(alloc, "LTLSPEC", at)?);
    }
    if let Some(at) = tokens.eat(Kind::Fairness) {
        return Ok(skipped_as(alloc, "FAIRNESS", at)?);
    }
    if let Some(at) = tokens.eat(Kind::Justice) {
        return Ok(skipped_as(alloc, "JUSTICE", at)?);
    }
    let at = tokens.expect(Kind::Compassion)?;
    Ok(skipped_as(alloc, "COMPASSION", at)?)
}

/// The words that end skipped text: those of sections, and those that begin or end greater parts.
static SKIP_ENDS: [(Kind, ()); 19] = [
    (Kind::Var, ()),
    (Kind::Assign, ()),
    (Kind::Define, ()),
    (Kind::InitSection, ()),
    (Kind::InvarSection, ()),
    (Kind::TransSection, ()),
    (Kind::InvarSpec, ()),
    (Kind::Spec, ()),
    (Kind::CtlSpec, ()),
    (Kind::LtlSpec, ()),
    (Kind::Fairness, ()),
    (Kind::Justice, ()),
    (Kind::Compassion, ()),
    (Kind::Module, ()),
    (Kind::Feature, ()),
    (Kind::Require, ()),
    (Kind::Introduce, ()),
    (Kind::Change, ()),
    (Kind::End, ()),
];

/// Whether a word comes that ends skipped text.
fn sees_skip_end(tokens: &Cursor<'_>) -> bool
    ensures { result ≡ begins skip_ends tokens.now }
{
    tokens.sees_one_of(&SKIP_ENDS)
}

/// Passes over all tokens before the first that ends skipped text.
fn skip_text(tokens: &mut Cursor<'_>)
    ensures { tokens.new ≡ spec.after_skipped tokens.old }
{
    'rounds: loop {
        if tokens.is_at_end() || sees_skip_end(tokens) {
            return;
        }
        tokens.advance();
    }
}

/// A skipped section: its word, and all after it that belongs to no other part.
#[tactic(auto, unfolding(crate::specs::Readers::read_skipped, crate::specs::Readers::read_skipped_text))]
pub fn skipped(alloc: Global, tokens: &mut Cursor<'_>) -> Result<Skipped, ReadError>
    ensures { Gives (spec.read_skipped tokens.old) result tokens.new }
{
    let found = skip_word(alloc, tokens)?;
    skip_text(tokens);
    Ok(found)
}
