//! Reads the text of a feature model. An expression of a constraint that is not propositional ends the reading.

ghost use Rattle.std.specs.Prelude.{◌≡◌, ◌∷◌, ◌&&◌, not, IfOk, OnOk};
ghost use Rattle.smv_expr.specs.Language.{begins};
ghost use Rattle.smv_expr.specs.Reading.{Gives};
ghost use Rattle.feature_model.specs.TextGrammar as grammar;
ghost use Rattle.feature_model.specs.TextReaders as spec;

use crate::propositional::is_propositional;
use crate::text::{FeatureName, LineReading, LinesReading, ModelText, TextLine, TextReading};
use smv_ast::{Expr, GroupKind, List, NoMemory, Span};
use smv_expr::answer::whole_expr;
use smv_expr::cursor::Cursor;
use smv_expr::error::ReadError;
use smv_expr::kind::Kind;
use std::alloc::Global;

static GROUPS: [(Kind, GroupKind); 4] = [
    (Kind::Mandatory, GroupKind::Mandatory),
    (Kind::Optional, GroupKind::Optional),
    (Kind::OrGroup, GroupKind::Or),
    (Kind::Alternative, GroupKind::Alternative),
];

/// A name, and where it stands.
#[tactic(auto, unfolding(crate::specs::TextReaders::read_feature_name))]
fn feature_name(alloc: Global, tokens: &mut Cursor<'_>) -> Result<FeatureName, ReadError>
    ensures { Gives (spec.read_feature_name tokens.old) result tokens.new }
{
    let (name, at) = tokens.name(alloc)?;
    Ok(FeatureName { name, at })
}

/// A comma, and the name after it.
#[tactic(auto, unfolding(crate::specs::TextReaders::read_next_feature_name))]
fn next_feature_name(alloc: Global, tokens: &mut Cursor<'_>) -> Result<FeatureName, ReadError>
    ensures { Gives (spec.read_next_feature_name tokens.old) result tokens.new }
{
    tokens.expect(Kind::Comma)?;
    feature_name(alloc, tokens)
}

fn more_feature_names(
    alloc: Global,
    tokens: &mut Cursor<'_>,
) -> Result<List<FeatureName>, ReadError>
    ensures { Gives (spec.read_more_feature_names tokens.old) result tokens.new }
{
    let mut found = List::new(alloc);
    'rounds: while tokens.sees(Kind::Comma) {
        let one = next_feature_name(alloc, tokens)?;
        found.push(one)?;
    }
    Ok(found)
}

fn with_first(
    alloc: Global,
    first: FeatureName,
    more: List<FeatureName>,
) -> Result<List<FeatureName>, NoMemory>
    ensures { IfOk result (λ all. all ≡ first ∷ more) }
{
    let mut all = List::new(alloc);
    all.push(first)?;
    all.append(more)?;
    Ok(all)
}

/// One name or more, with commas between them.
#[tactic(auto, unfolding(crate::specs::TextReaders::read_feature_names))]
fn feature_names(alloc: Global, tokens: &mut Cursor<'_>) -> Result<List<FeatureName>, ReadError>
    ensures { Gives (spec.read_feature_names tokens.old) result tokens.new }
{
    let first = feature_name(alloc, tokens)?;
    let more = more_feature_names(alloc, tokens)?;
    Ok(with_first(alloc, first, more)?)
}

/// `kind parent : child, child;`.
#[tactic(auto, unfolding(crate::specs::TextReaders::read_group))]
fn group(alloc: Global, tokens: &mut Cursor<'_>) -> Result<TextLine, ReadError>
    ensures { Gives (spec.read_group tokens.old) result tokens.new }
{
    let kind = tokens.one_of(&GROUPS)?;
    let parent = feature_name(alloc, tokens)?;
    tokens.expect(Kind::Colon)?;
    let children = feature_names(alloc, tokens)?;
    tokens.expect(Kind::Semicolon)?;
    Ok(TextLine::Group {
        kind,
        parent,
        children,
    })
}

/// Where the next token stands, which is not taken.
#[tactic(auto, unfolding(crate::specs::TextReaders::read_start))]
fn start(tokens: &Cursor<'_>) -> Result<Span, ReadError>
    ensures { Gives (spec.read_start tokens.now) result tokens.now }
{
    match tokens.span() {
        Some(at) => Ok(at),
        None => Err(ReadError::Unexpected),
    }
}

/// What follows the expression of a constraint, which begins at the span.
#[tactic(auto, unfolding(crate::specs::TextReaders::read_constraint_end))]
fn constraint_end(
    tokens: &mut Cursor<'_>,
    at: Span,
    formula: Expr,
) -> Result<LineReading, ReadError>
    ensures { Gives (spec.read_constraint_end at formula tokens.old) result tokens.new }
{
    if !is_propositional(&formula) {
        return Ok(LineReading::Refused(at));
    }
    tokens.expect(Kind::Semicolon)?;
    Ok(LineReading::Line(TextLine::Constraint(formula)))
}

/// `CONSTRAINT expr;`.
#[tactic(auto, unfolding(crate::specs::TextReaders::read_strict_constraint))]
fn constraint(alloc: Global, tokens: &mut Cursor<'_>) -> Result<LineReading, ReadError>
    ensures { Gives (spec.read_strict_constraint tokens.old) result tokens.new }
{
    tokens.expect(Kind::Constraint)?;
    let at = start(tokens)?;
    let formula = whole_expr(alloc, tokens)?;
    constraint_end(tokens, at, formula)
}

/// Whether a group may begin with what comes.
fn sees_group(tokens: &Cursor<'_>) -> bool
    ensures { result ≡ begins grammar.first_group tokens.now }
{
    tokens.sees_one_of(&GROUPS)
}

/// Whether a line may begin with what comes.
fn sees_line(tokens: &Cursor<'_>) -> bool
    ensures { result ≡ begins grammar.first_line tokens.now }
{
    tokens.sees(Kind::Constraint) || sees_group(tokens)
}

#[tactic(auto, unfolding(crate::specs::TextReaders::read_strict_line))]
fn line(alloc: Global, tokens: &mut Cursor<'_>) -> Result<LineReading, ReadError>
    ensures { Gives (spec.read_strict_line tokens.old) result tokens.new }
{
    if tokens.sees(Kind::Constraint) {
        return constraint(alloc, tokens);
    }
    Ok(LineReading::Line(group(alloc, tokens)?))
}

impl LinesReading {
    /// Adds a line after the others, or ends the reading.
    fn push(&mut self, one: LineReading) -> Result<(), NoMemory>
        ensures { OnOk result (self.new ≡ spec.with_line self.old one) }
    {
        match one {
            LineReading::Line(line) => self.lines.push(line)?,
            LineReading::Refused(at) => self.refused = Some(at),
        }
        Ok(())
    }

    fn is_refused(&self) -> bool
        ensures { result ≡ spec.is_refused self.now }
    {
        self.refused.is_some()
    }
}

/// Whether the reading goes on with one more line.
fn continues(found: &LinesReading, tokens: &Cursor<'_>) -> bool
    ensures { result ≡ (not (spec.is_refused found.now) && begins grammar.first_line tokens.now) }
{
    !found.is_refused() && sees_line(tokens)
}

fn lines(alloc: Global, tokens: &mut Cursor<'_>) -> Result<LinesReading, ReadError>
    ensures { Gives (spec.read_strict_lines tokens.old) result tokens.new }
{
    let mut found = LinesReading {
        lines: List::new(alloc),
        refused: None,
    };
    'rounds: while continues(&found, tokens) {
        let one = line(alloc, tokens)?;
        found.push(one)?;
    }
    Ok(found)
}

/// `FEATUREMODEL ROOT id;`.
#[tactic(auto, unfolding(crate::specs::TextReaders::read_header))]
fn header(alloc: Global, tokens: &mut Cursor<'_>) -> Result<FeatureName, ReadError>
    ensures { Gives (spec.read_header tokens.old) result tokens.new }
{
    tokens.expect(Kind::FeatureModel)?;
    tokens.expect(Kind::Root)?;
    let root = feature_name(alloc, tokens)?;
    tokens.expect(Kind::Semicolon)?;
    Ok(root)
}

/// What follows the lines of a text.
#[tactic(auto, unfolding(crate::specs::TextReaders::read_text_end))]
fn text_end(
    tokens: &mut Cursor<'_>,
    root: FeatureName,
    found: LinesReading,
) -> Result<TextReading, ReadError>
    ensures { Gives (spec.read_text_end root found tokens.old) result tokens.new }
{
    let LinesReading { lines, refused } = found;
    let text = ModelText { root, lines };
    if refused.is_none() {
        tokens.expect(Kind::End)?;
    }
    Ok(TextReading { text, refused })
}

/// The text of a feature model.
#[tactic(auto, unfolding(crate::specs::TextReaders::read_strict_text))]
pub fn text(alloc: Global, tokens: &mut Cursor<'_>) -> Result<TextReading, ReadError>
    ensures { Gives (spec.read_strict_text tokens.old) result tokens.new }
{
    let root = header(alloc, tokens)?;
    let found = lines(alloc, tokens)?;
    text_end(tokens, root, found)
}
