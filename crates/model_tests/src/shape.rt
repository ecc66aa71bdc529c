//! The rules of the text, on modules of one section.

use smv_ast::{Boxed, Choice, Expr, Fault, List, Module, NoMemory, Program, Section, Span, Text};
use smv_shape::check_shape;
use std::alloc::Global;
use std::test::Fail;

fn span(at: u32) -> Span {
    Span { file: 0, at }
}

// `MODULE main` and one section.
fn program(alloc: Global, section: Section) -> Result<Program, NoMemory> {
    let mut sections = List::new(alloc);
    sections.push(section)?;
    let mut modules = List::new(alloc);
    modules.push(Module {
        name: Text::from_str(alloc, "main")?,
        formals: List::new(alloc),
        sections,
        at: span(0),
    })?;
    Ok(Program { modules })
}

// `1 in low..high`.
fn within(alloc: Global, low: i64, high: i64) -> Result<Expr, NoMemory> {
    let number = Boxed::new(alloc, Expr::Number(1))?;
    Ok(Expr::Within(number, Choice::Between { low, high }))
}

#[test]
fn an_interval_of_one_number(rt: HostRuntime) -> Result<(), Fail> {
    let alloc = rt.alloc();
    let whole = program(alloc, Section::Invar(within(alloc, 2, 2)?, span(12)))?;
    assert!(rt; check_shape(alloc, &whole).is_ok());
    let empty = program(alloc, Section::Invar(within(alloc, 2, 1)?, span(12)))?;
    assert!(rt; matches!(check_shape(alloc, &empty), Err(Fault::EmptyRange { .. })));
    Ok(())
}

#[test]
fn next_outside_steps(rt: HostRuntime) -> Result<(), Fail> {
    let alloc = rt.alloc();
    let later = Expr::Next(Boxed::new(alloc, Expr::True)?);
    let stray = program(alloc, Section::Invar(later, span(12)))?;
    assert!(rt; matches!(check_shape(alloc, &stray), Err(Fault::NextPlace { .. })));
    let later = Expr::Next(Boxed::new(alloc, Expr::True)?);
    let whole = program(alloc, Section::Trans(later, span(12)))?;
    assert!(rt; check_shape(alloc, &whole).is_ok());
    Ok(())
}
