//! The sections of a module, and what stands in them.

ghost use Rattle.std.specs.Prelude.{◌≡◌, OnOk};
ghost use Rattle.smv_expr.specs.Language.{begins};
ghost use Rattle.smv_expr.specs.Reading.{Gives};
ghost use Rattle.smv_parse.specs.Grammar.{no_parts, with_part};
ghost use Rattle.smv_parse.specs.Readers as spec;
ghost use Rattle.smv_parse.specs.Readers.{the_limit};

use crate::names::{LeftSide, left_side, sees_left_side};
use crate::skipped::skipped;
use crate::types::{sees_type, smv_type};
use smv_ast::{
    Assignment, Declaration, Declared, Definition, Expr, List, NoMemory, Section, Skipped, Span,
};
use smv_expr::answer::whole_expr;
use smv_expr::cursor::Cursor;
use smv_expr::error::ReadError;
use smv_expr::expr::sees_expr;
use smv_expr::kind::Kind;
use smv_expr::lists::with_first;
use std::alloc::Global;

/// A section of a module, or one that is skipped.
#[derive(Drop)]
pub enum Part {
    Section(Section),
    Skipped(Skipped),
}

/// The sections of a module, and those that were skipped, each in their order.
#[derive(Drop)]
pub struct Parts {
    pub sections: List<Section>,
    pub skipped: List<Skipped>,
}

impl Parts {
    fn new(alloc: Global) -> Parts
        ensures { result ≡ no_parts }
    {
        Parts {
            sections: List::new(alloc),
            skipped: List::new(alloc),
        }
    }

    /// Adds a part after the others of its sort.
    fn push(&mut self, part: Part) -> Result<(), NoMemory>
        ensures { OnOk result (self.new ≡ with_part self.old part) }
    {
        match part {
            Part::Section(section) => self.sections.push(section)?,
            Part::Skipped(skipped) => self.skipped.push(skipped)?,
        }
        Ok(())
    }
}

/// A comma, and the expression after it.
#[tactic(auto, unfolding(crate::specs::Readers::read_next_expr))]
fn next_expr(alloc: Global, tokens: &mut Cursor<'_>) -> Result<Expr, ReadError>
    ensures { Gives (spec.read_next_expr the_limit tokens.old) result tokens.new }
{
    tokens.expect(Kind::Comma)?;
    whole_expr(alloc, tokens)
}

fn more_exprs(alloc: Global, tokens: &mut Cursor<'_>) -> Result<List<Expr>, ReadError>
    ensures { Gives (spec.read_more_exprs the_limit tokens.old) result tokens.new }
{
    let mut found = List::new(alloc);
    'rounds: while tokens.sees(Kind::Comma) {
        let one = next_expr(alloc, tokens)?;
        found.push(one)?;
    }
    Ok(found)
}

/// One expression or more, with commas between them.
#[tactic(auto, unfolding(crate::specs::Readers::read_exprs))]
fn exprs(alloc: Global, tokens: &mut Cursor<'_>) -> Result<List<Expr>, ReadError>
    ensures { Gives (spec.read_exprs the_limit tokens.old) result tokens.new }
{
    let first = whole_expr(alloc, tokens)?;
    let more = more_exprs(alloc, tokens)?;
    Ok(with_first(alloc, first, more)?)
}

#[tactic(auto, unfolding(crate::specs::Readers::read_some_exprs))]
fn some_exprs(alloc: Global, tokens: &mut Cursor<'_>) -> Result<List<Expr>, ReadError>
    ensures { Gives (spec.read_some_exprs the_limit tokens.old) result tokens.new }
{
    if sees_expr(tokens) {
        exprs(alloc, tokens)
    } else {
        Ok(List::new(alloc))
    }
}

/// The actuals of an instance, in parentheses.
#[tactic(auto, unfolding(crate::specs::Readers::read_actuals))]
fn actuals(alloc: Global, tokens: &mut Cursor<'_>) -> Result<List<Expr>, ReadError>
    ensures { Gives (spec.read_actuals the_limit tokens.old) result tokens.new }
{
    tokens.expect(Kind::OpenParen)?;
    let exprs = some_exprs(alloc, tokens)?;
    tokens.expect(Kind::CloseParen)?;
    Ok(exprs)
}

#[tactic(auto, unfolding(crate::specs::Readers::read_some_actuals))]
fn some_actuals(alloc: Global, tokens: &mut Cursor<'_>) -> Result<List<Expr>, ReadError>
    ensures { Gives (spec.read_some_actuals the_limit tokens.old) result tokens.new }
{
    if tokens.sees(Kind::OpenParen) {
        actuals(alloc, tokens)
    } else {
        Ok(List::new(alloc))
    }
}

/// An instance of a module, with its actuals if it has any.
#[tactic(auto, unfolding(crate::specs::Readers::read_instance))]
fn instance(alloc: Global, tokens: &mut Cursor<'_>) -> Result<Declared, ReadError>
    ensures { Gives (spec.read_instance the_limit tokens.old) result tokens.new }
{
    let (module, _) = tokens.name(alloc)?;
    let actuals = some_actuals(alloc, tokens)?;
    Ok(Declared::Instance { module, actuals })
}

#[tactic(auto, unfolding(crate::specs::Readers::read_declared))]
fn declared(alloc: Global, tokens: &mut Cursor<'_>) -> Result<Declared, ReadError>
    ensures { Gives (spec.read_declared the_limit tokens.old) result tokens.new }
{
    if sees_type(tokens) {
        Ok(Declared::Plain(smv_type(alloc, tokens)?))
    } else {
        instance(alloc, tokens)
    }
}

#[tactic(auto, unfolding(crate::specs::Readers::read_declaration))]
fn declaration(alloc: Global, tokens: &mut Cursor<'_>) -> Result<Declaration, ReadError>
    ensures { Gives (spec.read_declaration the_limit tokens.old) result tokens.new }
{
    let (name, at) = tokens.name(alloc)?;
    tokens.expect(Kind::Colon)?;
    let what = declared(alloc, tokens)?;
    tokens.expect(Kind::Semicolon)?;
    Ok(Declaration { name, what, at })
}

fn declarations(alloc: Global, tokens: &mut Cursor<'_>) -> Result<List<Declaration>, ReadError>
    ensures { Gives (spec.read_declarations the_limit tokens.old) result tokens.new }
{
    let mut found = List::new(alloc);
    'rounds: while tokens.sees(Kind::Name) {
        let one = declaration(alloc, tokens)?;
        found.push(one)?;
    }
    Ok(found)
}

#[tactic(auto, unfolding(crate::specs::Readers::read_assignment))]
fn assignment(alloc: Global, tokens: &mut Cursor<'_>) -> Result<Assignment, ReadError>
    ensures { Gives (spec.read_assignment the_limit tokens.old) result tokens.new }
{
    let LeftSide { left, name, at } = left_side(alloc, tokens)?;
    tokens.expect(Kind::Becomes)?;
    let right = whole_expr(alloc, tokens)?;
    tokens.expect(Kind::Semicolon)?;
    Ok(Assignment {
        left,
        name,
        right,
        at,
    })
}

fn assignments(alloc: Global, tokens: &mut Cursor<'_>) -> Result<List<Assignment>, ReadError>
    ensures { Gives (spec.read_assignments the_limit tokens.old) result tokens.new }
{
    let mut found = List::new(alloc);
    'rounds: while sees_left_side(tokens) {
        let one = assignment(alloc, tokens)?;
        found.push(one)?;
    }
    Ok(found)
}

#[tactic(auto, unfolding(crate::specs::Readers::read_definition))]
fn definition(alloc: Global, tokens: &mut Cursor<'_>) -> Result<Definition, ReadError>
    ensures { Gives (spec.read_definition the_limit tokens.old) result tokens.new }
{
    let (name, at) = tokens.name(alloc)?;
    tokens.expect(Kind::Becomes)?;
    let right = whole_expr(alloc, tokens)?;
    tokens.expect(Kind::Semicolon)?;
    Ok(Definition { name, right, at })
}

fn definitions(alloc: Global, tokens: &mut Cursor<'_>) -> Result<List<Definition>, ReadError>
    ensures { Gives (spec.read_definitions the_limit tokens.old) result tokens.new }
{
    let mut found = List::new(alloc);
    'rounds: while tokens.sees(Kind::Name) {
        let one = definition(alloc, tokens)?;
        found.push(one)?;
    }
    Ok(found)
}

/// A word of this kind, with its span, and the expression that it asks for.
#[tactic(auto, unfolding(crate::specs::Readers::read_constraint))]
fn constraint(alloc: Global, tokens: &mut Cursor<'_>, word: Kind) -> Result<(Span, Expr), ReadError>
    ensures { Gives (spec.read_constraint the_limit word tokens.old) result tokens.new }
{
    let at = tokens.expect(word)?;
    let expr = whole_expr(alloc, tokens)?;
    tokens.eat(Kind::Semicolon);
    Ok((at, expr))
}

/// The section that begins with the next word.
#[tactic(auto, unfolding(crate::specs::Readers::read_section))]
pub fn section(alloc: Global, tokens: &mut Cursor<'_>) -> Result<Section, ReadError>
    ensures { Gives (spec.read_section the_limit tokens.old) result tokens.new }
{
    if let Some(_) = tokens.eat(Kind::Var) {
        Ok(Section::Vars(declarations(alloc, tokens)?))
    } else if let Some(_) = tokens.eat(Kind::Assign) {
        Ok(Section::Assigns(assignments(alloc, tokens)?))
    } else if let Some(_) = tokens.eat(Kind::Define) {
        Ok(Section::Defines(definitions(alloc, tokens)?))
    } else if tokens.sees(Kind::InitSection) {
        let (at, expr) = constraint(alloc, tokens, Kind::InitSection)?;
        Ok(Section::Init(expr, at))
    } else if tokens.sees(Kind::InvarSection) {
        let (at, expr) = constraint(alloc, tokens, Kind::InvarSection)?;
        Ok(Section::Invar(expr, at))
    } else if tokens.sees(Kind::TransSection) {
        let (at, expr) = constraint(alloc, tokens, Kind::TransSection)?;
        Ok(Section::Trans(expr, at))
    } else {
        let (at, expr) = constraint(alloc, tokens, Kind::InvarSpec)?;
        Ok(Section::InvarSpec(expr, at))
    }
}

/// Whether a section may begin with what comes.
fn sees_section(tokens: &Cursor<'_>) -> bool
    ensures { result ≡ begins spec.first_section tokens.now }
{
    tokens.sees(Kind::Var)
        || tokens.sees(Kind::Assign)
        || tokens.sees(Kind::Define)
        || tokens.sees(Kind::InitSection)
        || tokens.sees(Kind::InvarSection)
        || tokens.sees(Kind::TransSection)
        || tokens.sees(Kind::InvarSpec)
}

/// Whether a section that is skipped may begin with what comes.
fn sees_skipped(tokens: &Cursor<'_>) -> bool
    ensures { result ≡ begins spec.first_skipped tokens.now }
{
    tokens.sees(Kind::Spec)
        || tokens.sees(Kind::CtlSpec)
        || tokens.sees(Kind::LtlSpec)
        || tokens.sees(Kind::Fairness)
        || tokens.sees(Kind::Justice)
        || tokens.sees(Kind::Compassion)
}

fn sees_part(tokens: &Cursor<'_>) -> bool
    ensures { result ≡ begins spec.first_part tokens.now }
{
    sees_section(tokens) || sees_skipped(tokens)
}

/// A section, or one that is skipped.
#[tactic(auto, unfolding(crate::specs::Readers::read_part))]
fn one_part(alloc: Global, tokens: &mut Cursor<'_>) -> Result<Part, ReadError>
    ensures { Gives (spec.read_part the_limit tokens.old) result tokens.new }
{
    if sees_section(tokens) {
        Ok(Part::Section(section(alloc, tokens)?))
    } else {
        Ok(Part::Skipped(skipped(alloc, tokens)?))
    }
}

/// All sections that come.
pub fn all_parts(alloc: Global, tokens: &mut Cursor<'_>) -> Result<Parts, ReadError>
    ensures { Gives (spec.read_parts the_limit tokens.old) result tokens.new }
{
    let mut found = Parts::new(alloc);
    'rounds: while sees_part(tokens) {
        let one = one_part(alloc, tokens)?;
        found.push(one)?;
    }
    Ok(found)
}
