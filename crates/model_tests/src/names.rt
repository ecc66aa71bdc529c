//! Small models with one fault each.

use smv_ast::{
    Declaration, Declared, Fault, List, Module, NoMemory, Program, Section, SmvType, Span, Text,
};
use smv_names::*;
use std::alloc::Global;
use std::test::Fail;

fn span(at: u32) -> Span {
    Span { file: 0, at }
}

// A module of declarations.
fn module(alloc: Global, name: &str, declarations: List<Declaration>) -> Result<Module, NoMemory> {
    let mut sections = List::new(alloc);
    sections.push(Section::Vars(declarations))?;
    Ok(Module {
        name: Text::from_str(alloc, name)?,
        formals: List::new(alloc),
        sections,
        at: span(0),
    })
}

fn truth(alloc: Global, name: &str, at: u32) -> Result<Declaration, NoMemory> {
    Ok(Declaration {
        name: Text::from_str(alloc, name)?,
        what: Declared::Plain(SmvType::Boolean),
        at: span(at),
    })
}

// `MODULE main VAR x : boolean; x : boolean;`.
fn twice(alloc: Global) -> Result<Program, NoMemory> {
    let mut declarations = List::new(alloc);
    declarations.push(truth(alloc, "x", 16)?)?;
    declarations.push(truth(alloc, "x", 28)?)?;
    let mut modules = List::new(alloc);
    modules.push(module(alloc, "main", declarations)?)?;
    Ok(Program { modules })
}

// Whether the answer is this DuplicateName.
fn is_duplicate(answer: Result<(), Fault>, at: Span, name: &str) -> bool {
    match answer {
        Err(
            Fault::DuplicateName {
                at: Some(reported),
                name: found,
            },
        ) => reported == at && found.is(name),
        _ => false,
    }
}

// Whether the answer is that `main` is missing.
fn is_missing_main(answer: Result<(), Fault>) -> bool {
    match answer {
        Err(Fault::UnknownModule { at: None, name }) => name.is("main"),
        _ => false,
    }
}

fn is_too_large(answer: Result<(), Fault>) -> bool {
    match answer {
        Err(Fault::TooLarge { at: None }) => true,
        _ => false,
    }
}

// `a : CALLED; b : CALLED;`.
fn two_of(alloc: Global, called: &str) -> Result<List<Declaration>, NoMemory> {
    let mut declarations = List::new(alloc);
    for name in ["a", "b"] {
        declarations.push(Declaration {
            name: Text::from_str(alloc, name)?,
            what: Declared::Instance {
                module: Text::from_str(alloc, called)?,
                actuals: List::new(alloc),
            },
            at: span(0),
        })?;
    }
    Ok(declarations)
}

// Each module has two instances of the next one, 16 times over: 131,071 instances.
fn doubling(alloc: Global) -> Result<Program, NoMemory> {
    let names = [
        "main", "m1", "m2", "m3", "m4", "m5", "m6", "m7", "m8", "m9", "m10", "m11", "m12", "m13",
        "m14", "m15", "m16",
    ];
    let mut modules = List::new(alloc);
    for pair in names.windows(2) {
        if let [name, next] = pair {
            modules.push(module(alloc, name, two_of(alloc, next)?)?)?;
        }
    }
    modules.push(module(alloc, "m16", List::new(alloc))?)?;
    Ok(Program { modules })
}

#[test]
fn second_declaration(rt: HostRuntime) -> Result<(), Fail> {
    let alloc = rt.alloc();
    let program = twice(alloc)?;
    assert!(rt; is_duplicate(check_names(alloc, &program), span(28), "x"));
    Ok(())
}

#[test]
fn missing_main(rt: HostRuntime) -> Result<(), Fail> {
    let alloc = rt.alloc();
    let program = Program {
        modules: List::new(alloc),
    };
    assert!(rt; is_missing_main(check_names(alloc, &program)));
    Ok(())
}

#[test]
fn too_many_instances(rt: HostRuntime) -> Result<(), Fail> {
    let alloc = rt.alloc();
    let program = doubling(alloc)?;
    assert!(rt; is_too_large(check_names(alloc, &program)));
    Ok(())
}
