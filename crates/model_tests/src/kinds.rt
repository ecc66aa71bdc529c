//! Small models, and the answers of their checks.

ghost use Rattle.std.specs.Prelude.{◌≡◌, map};
ghost use Rattle.smv_meaning.specs.Checking.{IsTableOfProgram};
ghost use Rattle.smv_meaning.specs.Scopes.{scope_view, scopes_of as scopes_of_program};

use smv_ast::{
    Boxed, Declaration, Declared, Definition, Expr, Fault, List, Module, NoMemory, Op, Path,
    Program, Section, SmvType, Span, Text,
};
use smv_kinds::check_kinds;
use smv_meaning::aliases::aliases_of;
use smv_meaning::order::order_of;
use smv_meaning::scope::{Scope, scopes_of};
use smv_meaning::table::{InstanceTable, instance_table};
use std::alloc::Global;
use std::test::Fail;

fn span(at: u32) -> Span {
    Span { file: 0, at }
}

fn name(alloc: Global, word: &str) -> Result<Expr, NoMemory> {
    let mut names = List::new(alloc);
    names.push(Text::from_str(alloc, word)?)?;
    Ok(Expr::Name(Path { names, at: span(0) }))
}

fn joined(alloc: Global, op: Op, left: Expr, right: Expr) -> Result<Expr, NoMemory> {
    let left = Boxed::new(alloc, left)?;
    Ok(Expr::Binary(op, left, Boxed::new(alloc, right)?))
}

// `MODULE main VAR x : 0..3; INVAR e`.
fn model(alloc: Global, e: Expr) -> Result<Program, NoMemory> {
    let mut declarations = List::new(alloc);
    declarations.push(Declaration {
        name: Text::from_str(alloc, "x")?,
        what: Declared::Plain(SmvType::Range { low: 0, high: 3 }),
        at: span(16),
    })?;
    let mut sections = List::new(alloc);
    sections.push(Section::Vars(declarations))?;
    sections.push(Section::Invar(e, span(26)))?;
    let mut modules = List::new(alloc);
    modules.push(module(alloc, "main", sections)?)?;
    Ok(Program { modules })
}

fn check_table(alloc: Global, program: &Program, table: &InstanceTable) -> Result<(), Fault>
    requires { IsTableOfProgram program.now table.now }
{
    let aliases = aliases_of(alloc, table)?;
    let order = order_of(alloc, program, table)?;
    check_kinds(alloc, program, table, order.as_slice(), aliases.as_slice())
}

fn check_scopes(alloc: Global, program: &Program, scopes: &[Scope]) -> Result<(), Fault>
    requires { map scope_view scopes.now ≡ scopes_of_program program.now }
{
    match instance_table(alloc, program, scopes, usize::MAX)? {
        Some(table) => check_table(alloc, program, &table),
        None => Err(Fault::NoMemory),
    }
}

fn check(alloc: Global, program: &Program) -> Result<(), Fault> {
    let scopes = scopes_of(alloc, program)?;
    check_scopes(alloc, program, scopes.as_slice())
}

// `x OP n < 5`.
fn small(alloc: Global, op: Op, n: u32) -> Result<Program, NoMemory> {
    let sum = joined(alloc, op, name(alloc, "x")?, Expr::Number(n))?;
    let e = joined(alloc, Op::Lt, sum, Expr::Number(5))?;
    model(alloc, e)
}

fn module(alloc: Global, name: &str, sections: List<Section>) -> Result<Module, NoMemory> {
    Ok(Module {
        name: Text::from_str(alloc, name)?,
        formals: List::new(alloc),
        sections,
        at: span(0),
    })
}

fn definition(alloc: Global, name: &str, right: Expr, at: u32) -> Result<Definition, NoMemory> {
    Ok(Definition {
        name: Text::from_str(alloc, name)?,
        right,
        at: span(at),
    })
}

// `MODULE main VAR c : k; DEFINE e := ..; d := ..; MODULE k`.
fn definitions(alloc: Global, e: Expr, d: Expr) -> Result<Program, NoMemory> {
    let mut declarations = List::new(alloc);
    declarations.push(Declaration {
        name: Text::from_str(alloc, "c")?,
        what: Declared::Instance {
            module: Text::from_str(alloc, "k")?,
            actuals: List::new(alloc),
        },
        at: span(16),
    })?;
    let mut rights = List::new(alloc);
    rights.push(definition(alloc, "e", e, 31)?)?;
    rights.push(definition(alloc, "d", d, 39)?)?;
    let mut sections = List::new(alloc);
    sections.push(Section::Vars(declarations))?;
    sections.push(Section::Defines(rights))?;
    let mut modules = List::new(alloc);
    modules.push(module(alloc, "main", sections)?)?;
    modules.push(module(alloc, "k", List::new(alloc))?)?;
    Ok(Program { modules })
}

// `2000000000 + 2000000000`.
fn wide(alloc: Global) -> Result<Expr, NoMemory> {
    let half = 2_000_000_000;
    joined(alloc, Op::Add, Expr::Number(half), Expr::Number(half))
}

fn is_kind(answer: Result<(), Fault>, place: u32) -> bool {
    match answer {
        Err(Fault::KindMismatch { at: Some(at) }) => at == span(place),
        _ => false,
    }
}

fn is_wide(answer: Result<(), Fault>, place: u32) -> bool {
    match answer {
        Err(Fault::WideNumber { at: Some(at) }) => at == span(place),
        _ => false,
    }
}

fn is_mod(answer: Result<(), Fault>, place: u32) -> bool {
    match answer {
        Err(Fault::NegativeMod { at: Some(at) }) => at == span(place),
        _ => false,
    }
}

#[test]
fn constraints_without_fault(rt: HostRuntime) -> Result<(), Fail> {
    let alloc = rt.alloc();
    assert!(rt; check(alloc, &small(alloc, Op::Add, 2_147_483_644)?).is_ok());
    assert!(rt; check(alloc, &small(alloc, Op::Mod, 1)?).is_ok());
    Ok(())
}

#[test]
fn constraint_of_wrong_kind(rt: HostRuntime) -> Result<(), Fail> {
    let alloc = rt.alloc();
    assert!(rt; is_kind(check(alloc, &model(alloc, name(alloc, "x")?)?), 26));
    Ok(())
}

#[test]
fn sum_that_is_too_wide(rt: HostRuntime) -> Result<(), Fail> {
    let alloc = rt.alloc();
    assert!(rt; is_wide(check(alloc, &small(alloc, Op::Add, 2_147_483_645)?), 26));
    Ok(())
}

#[test]
fn division_by_nothing(rt: HostRuntime) -> Result<(), Fail> {
    let alloc = rt.alloc();
    assert!(rt; is_mod(check(alloc, &small(alloc, Op::Mod, 0)?), 26));
    Ok(())
}

// A part that is too wide is a fault of its own item, an interval that is too wide also of each item
// that reads it.
#[test]
fn wide_definitions(rt: HostRuntime) -> Result<(), Fail> {
    let alloc = rt.alloc();
    let difference = joined(alloc, Op::Sub, wide(alloc)?, Expr::Number(2_000_000_000))?;
    let program = definitions(alloc, name(alloc, "d")?, difference)?;
    assert!(rt; is_wide(check(alloc, &program), 39));
    let product = joined(alloc, Op::Mul, wide(alloc)?, Expr::Number(0))?;
    let next = joined(alloc, Op::Add, name(alloc, "d")?, Expr::Number(1))?;
    assert!(rt; is_wide(check(alloc, &definitions(alloc, next, product)?), 39));
    let program = definitions(alloc, name(alloc, "d")?, wide(alloc)?)?;
    assert!(rt; is_wide(check(alloc, &program), 31));
    Ok(())
}

// A definition of an instance is at fault, not what hands it on; what asks for a kind is.
#[test]
fn definitions_of_instances(rt: HostRuntime) -> Result<(), Fail> {
    let alloc = rt.alloc();
    let program = definitions(alloc, name(alloc, "d")?, name(alloc, "c")?)?;
    assert!(rt; is_kind(check(alloc, &program), 39));
    let next = joined(alloc, Op::Add, name(alloc, "d")?, Expr::Number(1))?;
    assert!(rt;
        is_kind(
            check(alloc, &definitions(alloc, next, name(alloc, "c")?)?),
            31
        )
    );
    Ok(())
}
