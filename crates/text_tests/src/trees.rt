use smv_ast::*;
use std::alloc::Global;
use std::test::Fail;

const NOWHERE: Span = Span { file: 0, at: 0 };

fn name(alloc: Global, text: &str) -> Result<Expr, NoMemory> {
    let mut names = List::new(alloc);
    names.push(Text::from_str(alloc, text)?)?;
    Ok(Expr::Name(Path { names, at: NOWHERE }))
}

// `next(x) = (-(y mod 3))`.
fn remainder(alloc: Global) -> Result<Expr, NoMemory> {
    let y = Boxed::new(alloc, name(alloc, "y")?)?;
    let remaining = Expr::Binary(Op::Mod, y, Boxed::new(alloc, Expr::Number(3))?);
    let negative = Expr::Neg(Boxed::new(alloc, remaining)?);
    let next = Expr::Next(Boxed::new(alloc, name(alloc, "x")?)?);
    let left = Boxed::new(alloc, next)?;
    Ok(Expr::Binary(Op::Eq, left, Boxed::new(alloc, negative)?))
}

// `case x in -2..2 : {y}; esac`.
fn cases(alloc: Global) -> Result<Expr, NoMemory> {
    let mut parts = List::new(alloc);
    parts.push(name(alloc, "y")?)?;
    let x = Boxed::new(alloc, name(alloc, "x")?)?;
    let mut branches = List::new(alloc);
    branches.push(Branch {
        cond: Expr::Within(x, Choice::Between { low: -2, high: 2 }),
        value: Expr::Pick(Choice::Each(parts)),
    })?;
    Ok(Expr::Cases(branches))
}

fn module(alloc: Global) -> Result<Module, NoMemory> {
    let mut assignments = List::new(alloc);
    assignments.push(Assignment {
        left: Left::Init,
        name: Text::from_str(alloc, "x")?,
        right: cases(alloc)?,
        at: NOWHERE,
    })?;
    let mut sections = List::new(alloc);
    sections.push(Section::Vars(List::new(alloc)))?;
    sections.push(Section::Assigns(assignments))?;
    sections.push(Section::Trans(remainder(alloc)?, NOWHERE))?;
    let mut formals = List::new(alloc);
    formals.push(Text::from_str(alloc, "x")?)?;
    formals.push(Text::from_str(alloc, "y")?)?;
    Ok(Module {
        name: Text::from_str(alloc, "cell")?,
        formals,
        sections,
        at: NOWHERE,
    })
}

#[test]
fn prints_a_module(rt: HostRuntime) -> Result<(), Fail> {
    let alloc = rt.alloc();
    let mut modules = List::new(alloc);
    modules.push(module(alloc)?)?;
    let printed = print_program(alloc, &Program { modules })?;
    let text =
        "MODULE cell(x, y)\nVAR\nASSIGN\n  init(x) := case x in -2..2 : {y}; esac;\nTRANS next(x) = (-(y mod 3));\n";
    assert_eq!(rt; printed.as_str(), text);
    Ok(())
}

#[test]
fn compares_copies(rt: HostRuntime) -> Result<(), Fail> {
    let copy = Text::from_str(rt.alloc(), "floor")?.try_clone(rt.alloc())?;
    assert!(rt; copy.is("floor"));
    assert!(rt; !copy.is("floors"));
    Ok(())
}
