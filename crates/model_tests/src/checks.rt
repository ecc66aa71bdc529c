//! Small models, with faults and numbers worked out by hand.

use smv_ast::{
    Assignment, Boxed, Branch, Declaration, Declared, Definition, Expr, Fault, Left, List, Module,
    NoMemory, Op, Path, Program, Section, SmvType, Span, Text,
};
use smv_types::{Typed, check};
use std::alloc::Global;
use std::test::Fail;

fn span(at: u32) -> Span {
    Span { file: 0, at }
}

fn name(alloc: Global, word: &str) -> Result<Expr, NoMemory> {
    let mut names = List::new(alloc);
    names.push(Text::from_str(alloc, word)?)?;
    Ok(Expr::Name(Path { names, at: span(0) }))
}

fn beside(alloc: Global, op: Op, n: u32) -> Result<Expr, NoMemory> {
    let x = name(alloc, "x")?;
    Ok(Expr::Binary(
        op,
        Boxed::new(alloc, x)?,
        Boxed::new(alloc, Expr::Number(n))?,
    ))
}

fn main_of(alloc: Global, sections: List<Section>) -> Result<Program, NoMemory> {
    let mut modules = List::new(alloc);
    modules.push(Module {
        name: Text::from_str(alloc, "main")?,
        formals: List::new(alloc),
        sections,
        at: span(0),
    })?;
    Ok(Program { modules })
}

fn defined(alloc: Global, word: &str, right: Expr, at: u32) -> Result<Definition, NoMemory> {
    Ok(Definition {
        name: Text::from_str(alloc, word)?,
        right,
        at: span(at),
    })
}

// `MODULE main DEFINE d := e; e := d;`.
fn cyclic_model(alloc: Global) -> Result<Program, NoMemory> {
    let mut definitions = List::new(alloc);
    definitions.push(defined(alloc, "d", name(alloc, "e")?, 19)?)?;
    definitions.push(defined(alloc, "e", name(alloc, "d")?, 27)?)?;
    let mut sections = List::new(alloc);
    sections.push(Section::Defines(definitions))?;
    main_of(alloc, sections)
}

// `MODULE main DEFINE z := d; d := a + e; a := b; b := a; e := d;`: `z` reads cycles and is on
// none, `d` reads the cycle of `a` before its own.
fn detour(alloc: Global) -> Result<Program, NoMemory> {
    let both = Expr::Binary(
        Op::Add,
        Boxed::new(alloc, name(alloc, "a")?)?,
        Boxed::new(alloc, name(alloc, "e")?)?,
    );
    let mut definitions = List::new(alloc);
    definitions.push(defined(alloc, "z", name(alloc, "d")?, 11)?)?;
    definitions.push(defined(alloc, "d", both, 19)?)?;
    definitions.push(defined(alloc, "a", name(alloc, "b")?, 31)?)?;
    definitions.push(defined(alloc, "b", name(alloc, "a")?, 39)?)?;
    definitions.push(defined(alloc, "e", name(alloc, "d")?, 47)?)?;
    let mut sections = List::new(alloc);
    sections.push(Section::Defines(definitions))?;
    main_of(alloc, sections)
}

// `!` so many times before an expression.
fn logical_not(alloc: Global, times: u32, e: Expr) -> Result<Expr, NoMemory> {
    let mut whole = e;
    for _round in 0..times {
        whole = Expr::Not(Boxed::new(alloc, whole)?);
    }
    Ok(whole)
}

// `MODULE main DEFINE d := ..; e := ..;`: `d` has 600 nodes above `e`, which is `TRUE` after so
// many `!`.
fn nested(alloc: Global, times: u32) -> Result<Program, NoMemory> {
    let mut definitions = List::new(alloc);
    definitions.push(defined(alloc, "d", logical_not(alloc, 600, name(alloc, "e")?)?, 19)?)?;
    definitions.push(defined(alloc, "e", logical_not(alloc, times, Expr::True)?, 27)?)?;
    let mut sections = List::new(alloc);
    sections.push(Section::Defines(definitions))?;
    main_of(alloc, sections)
}

// `case x < 2 : x + 1; TRUE : x; esac`.
fn stepped(alloc: Global) -> Result<Expr, NoMemory> {
    let mut branches = List::new(alloc);
    branches.push(Branch {
        cond: beside(alloc, Op::Lt, 2)?,
        value: beside(alloc, Op::Add, 1)?,
    })?;
    branches.push(Branch {
        cond: Expr::True,
        value: name(alloc, "x")?,
    })?;
    Ok(Expr::Cases(branches))
}

fn assigned(alloc: Global, left: Left, right: Expr) -> Result<Assignment, NoMemory> {
    Ok(Assignment {
        left,
        name: Text::from_str(alloc, "x")?,
        right,
        at: span(0),
    })
}

// A counter from 0 to 2, and a spec that it does not pass 2.
fn counter(alloc: Global) -> Result<Program, NoMemory> {
    let mut variables = List::new(alloc);
    variables.push(Declaration {
        name: Text::from_str(alloc, "x")?,
        what: Declared::Plain(SmvType::Range { low: 0, high: 3 }),
        at: span(0),
    })?;
    let mut assignments = List::new(alloc);
    assignments.push(assigned(alloc, Left::Init, Expr::Number(0))?)?;
    assignments.push(assigned(alloc, Left::Next, stepped(alloc)?)?)?;
    let mut sections = List::new(alloc);
    sections.push(Section::Vars(variables))?;
    sections.push(Section::Assigns(assignments))?;
    sections.push(Section::InvarSpec(beside(alloc, Op::Le, 2)?, span(0)))?;
    main_of(alloc, sections)
}

fn is_cycle(answer: Result<Typed, Fault>) -> bool {
    match answer {
        Err(
            Fault::CyclicDefine {
                at: Some(at),
                cycle,
            },
        ) => at == span(19) && cycle.is("d,e"),
        _ => false,
    }
}

#[test]
fn cycles_are_reported(rt: HostRuntime) -> Result<(), Fail> {
    let alloc = rt.alloc();
    assert!(rt; is_cycle(check(alloc, &cyclic_model(alloc)?)));
    assert!(rt; is_cycle(check(alloc, &detour(alloc)?)));
    Ok(())
}

// 601 and the height of `e`: 399 fits, 400 does not.
#[test]
fn one_thousand_and_one_more(rt: HostRuntime) -> Result<(), Fail> {
    let alloc = rt.alloc();
    assert!(rt; check(alloc, &nested(alloc, 398)?).is_ok());
    match check(alloc, &nested(alloc, 399)?) {
        Err(Fault::TooNested { at }) => assert_eq!(rt; at, Some(span(19))),
        _ => panic!(rt; "not nested too deep"),
    }
    Ok(())
}

// `init(x)` makes the variable, the number and an Eq; `next(x)` the variable, two times a variable,
// a number and an operator, a variable, a Choose and an Eq; the spec a variable, a number and Le.
#[test]
fn counted(rt: HostRuntime) -> Result<(), Fail> {
    let program = counter(rt.alloc())?;
    let Ok(typed) = check(rt.alloc(), &program) else {
        panic!(rt; "refused");
    };
    assert_eq!(rt; typed.nodes, 16);
    let [main] = typed.instances.as_slice() else {
        panic!(rt; "one instance");
    };
    assert!(rt; main.is("main"));
    Ok(())
}
