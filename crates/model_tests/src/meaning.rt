//! Runs of a small model, with answers worked out by hand.

use smv_ast::{
    Assignment, Boxed, Branch, Choice, Declaration, Declared, Expr, Left, List, Module, NoMemory,
    Op, Path, Program, Section, SmvType, Span, Text,
};
use smv_meaning::*;
use std::alloc::Global;
use std::test::Fail;

fn instance(at: u32) -> Span {
    Span { file: 0, at }
}

fn variable(alloc: Global) -> Result<Expr, NoMemory> {
    let mut names = List::new(alloc);
    names.push(Text::from_str(alloc, "x")?)?;
    Ok(Expr::Name(Path {
        names,
        at: instance(0),
    }))
}

// `x OP n`.
fn compared(alloc: Global, op: Op, n: u32) -> Result<Expr, NoMemory> {
    let left = Boxed::new(alloc, variable(alloc)?)?;
    Ok(Expr::Binary(op, left, Boxed::new(alloc, Expr::Number(n))?))
}

// `{0, 2}`.
fn zero_or_two(alloc: Global) -> Result<Expr, NoMemory> {
    let mut parts = List::new(alloc);
    parts.push(Expr::Number(0))?;
    parts.push(Expr::Number(2))?;
    Ok(Expr::Pick(Choice::Each(parts)))
}

// `case x < 2 : x + 1; TRUE : last; esac`.
fn right_side(alloc: Global, last: Expr) -> Result<Expr, NoMemory> {
    let mut branches = List::new(alloc);
    branches.push(Branch {
        cond: compared(alloc, Op::Lt, 2)?,
        value: compared(alloc, Op::Add, 1)?,
    })?;
    branches.push(Branch {
        cond: Expr::True,
        value: last,
    })?;
    Ok(Expr::Cases(branches))
}

// `MODULE main VAR x : 0..3; ASSIGN init(x) := 0; next(x) := case .. esac;`.
fn counter(alloc: Global, last: Expr) -> Result<Program, NoMemory> {
    let mut declarations = List::new(alloc);
    declarations.push(Declaration {
        name: Text::from_str(alloc, "x")?,
        what: Declared::Plain(SmvType::Range { low: 0, high: 3 }),
        at: instance(16),
    })?;
    let mut assignments = List::new(alloc);
    assignments.push(Assignment {
        left: Left::Init,
        name: Text::from_str(alloc, "x")?,
        right: Expr::Number(0),
        at: instance(34),
    })?;
    assignments.push(Assignment {
        left: Left::Next,
        name: Text::from_str(alloc, "x")?,
        right: right_side(alloc, last)?,
        at: instance(49),
    })?;
    let mut sections = List::new(alloc);
    sections.push(Section::Vars(declarations))?;
    sections.push(Section::Assigns(assignments))?;
    let mut modules = List::new(alloc);
    modules.push(Module {
        name: Text::from_str(alloc, "main")?,
        formals: List::new(alloc),
        sections,
        at: instance(0),
    })?;
    Ok(Program { modules })
}

fn state(alloc: Global, x: i64) -> Result<RunState, NoMemory> {
    let mut values = List::new(alloc);
    values.push(Named {
        path: Text::from_str(alloc, "x")?,
        value: Value::Number(x),
    })?;
    Ok(RunState { values })
}

fn run(alloc: Global, xs: &[i64]) -> Result<Run, NoMemory> {
    let mut states = List::new(alloc);
    for x in xs {
        states.push(state(alloc, *x)?)?;
    }
    Ok(Run { states })
}

#[test]
fn runs_of_a_counter(rt: HostRuntime) -> Result<(), Fail> {
    let alloc = rt.alloc();
    let program = counter(alloc, variable(alloc)?)?;
    let walk = run(alloc, &[0, 1, 2])?;
    assert_eq!(rt; walk.states.len(), 3);
    assert_eq!(rt; check_run(alloc, &program, &walk)?, RunAnswer::Run);
    let jump = run(alloc, &[0, 2])?;
    assert_eq!(rt; jump.states.len(), 2);
    let broken = RunAnswer::Breaks {
        step: 1,
        item: instance(49),
    };
    assert_eq!(rt; check_run(alloc, &program, &jump)?, broken);
    Ok(())
}

#[test]
fn run_with_a_choice(rt: HostRuntime) -> Result<(), Fail> {
    let alloc = rt.alloc();
    let program = counter(alloc, zero_or_two(alloc)?)?;
    let walk = run(alloc, &[0, 1, 2, 0])?;
    assert_eq!(rt; walk.states.len(), 4);
    assert_eq!(rt; check_run(alloc, &program, &walk)?, RunAnswer::Run);
    Ok(())
}

// Whether the expression is true in `main`.
fn holds(alloc: Global, program: &Program, e: &Expr, state: &RunState) -> Result<bool, NoMemory> {
    spec_holds(alloc, program, "main", e, state)
}

#[test]
fn bounds_of_a_counter(rt: HostRuntime) -> Result<(), Fail> {
    let alloc = rt.alloc();
    let program = counter(alloc, variable(alloc)?)?;
    let bound = compared(alloc, Op::Le, 2)?;
    assert!(rt; holds(alloc, &program, &bound, &state(alloc, 2)?)?);
    assert!(rt; !holds(alloc, &program, &bound, &state(alloc, 3)?)?);
    Ok(())
}
