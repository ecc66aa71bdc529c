//! The nodes of a small model, counted by hand.

ghost use Rattle.std.specs.Prelude.{◌≡◌, map};
ghost use Rattle.smv_meaning.specs.Checking.{IsTableOfProgram};
ghost use Rattle.smv_meaning.specs.Scopes.{scope_view, scopes_of as scopes_of_program};

use smv_ast::{
    Boxed, Declaration, Declared, Definition, Expr, List, Module, NoMemory, Op, Path, Program,
    Section, SmvType, Span, Text,
};
use smv_meaning::aliases::aliases_of;
use smv_meaning::order::order_of;
use smv_meaning::scope::{Scope, scopes_of};
use smv_meaning::table::{InstanceTable, instance_table};
use smv_nodes::count_nodes;
use std::alloc::Global;
use std::test::Fail;

fn span(at: u32) -> Span {
    Span { file: 0, at }
}

fn name(alloc: Global, text: &str) -> Result<Expr, NoMemory> {
    let mut names = List::new(alloc);
    names.push(Text::from_str(alloc, text)?)?;
    Ok(Expr::Name(Path { names, at: span(0) }))
}

// `MODULE main VAR x : boolean; DEFINE d := -x; TRANS next(d) = d`.
fn program(alloc: Global) -> Result<Program, NoMemory> {
    let mut declarations = List::new(alloc);
    declarations.push(Declaration {
        name: Text::from_str(alloc, "x")?,
        what: Declared::Plain(SmvType::Boolean),
        at: span(16),
    })?;
    let mut definitions = List::new(alloc);
    definitions.push(Definition {
        name: Text::from_str(alloc, "d")?,
        right: Expr::Neg(Boxed::new(alloc, name(alloc, "x")?)?),
        at: span(36),
    })?;
    let later = Expr::Next(Boxed::new(alloc, name(alloc, "d")?)?);
    let step = Expr::Binary(
        Op::Eq,
        Boxed::new(alloc, later)?,
        Boxed::new(alloc, name(alloc, "d")?)?,
    );
    let mut sections = List::new(alloc);
    sections.push(Section::Vars(declarations))?;
    sections.push(Section::Defines(definitions))?;
    sections.push(Section::Trans(step, span(45)))?;
    let mut modules = List::new(alloc);
    modules.push(Module {
        name: Text::from_str(alloc, "main")?,
        formals: List::new(alloc),
        sections,
        at: span(0),
    })?;
    Ok(Program { modules })
}

fn count_in(alloc: Global, program: &Program, table: &InstanceTable) -> Result<u64, NoMemory>
    requires { IsTableOfProgram program.now table.now }
{
    let aliases = aliases_of(alloc, table)?;
    let order = order_of(alloc, program, table)?;
    count_nodes(alloc, program, table, aliases.as_slice(), order.as_slice())
}

fn count(alloc: Global, program: &Program, scopes: &[Scope]) -> Result<u64, NoMemory>
    requires { map scope_view scopes.now ≡ scopes_of_program program.now }
{
    match instance_table(alloc, program, scopes, 100)? {
        Some(table) => count_in(alloc, program, &table),
        None => Err(NoMemory),
    }
}

// The Eq; 0, x and Sub of `d` now, and the three of `d` after the step.
#[test]
fn a_definition_now_and_after_the_step(rt: HostRuntime) -> Result<(), Fail> {
    let alloc = rt.alloc();
    let program = program(alloc)?;
    let scopes = scopes_of(alloc, &program)?;
    assert_eq!(rt; count(alloc, &program, scopes.as_slice())?, 7);
    Ok(())
}
