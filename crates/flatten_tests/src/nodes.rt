//! A small lifted model, and its variables, nodes and specs by number.

use flat_model::FlatNode::{Add, After, Choose, Const, Eq, Le, Lt, Mod, Not, Now, Or};
use flat_model::{Flat, FlatNode, FlatVar, Values};
use smv_ast::{Fault, Lifted, List, OwnedSpec, OwnedVar, Program, Text};
use smv_flatten::number_model;
use smv_parse::read_program;
use std::alloc::Global;
use std::test::Fail;

const MODEL: &str = "MODULE main
VAR fsmv_fm : fsmv_features; x : 0..3; m : {off, on};
DEFINE d := x + 1;
INVAR d <= 4
ASSIGN init(x) := 0; next(x) := case fsmv_fm.F : {x, d mod 4}; TRUE : x; esac;
TRANS next(d) >= d
INVARSPEC fsmv_fm.F -> d > 0
INIT fsmv_fm.Base
MODULE fsmv_features
VAR Base : boolean; F : boolean;
";

fn read(alloc: Global, text: &str) -> Result<Program, Fault> {
    let bytes = text.as_bytes();
    if bytes.len() > 10_000 {
        return Err(Fault::NoMemory);
    }
    Ok(read_program(alloc, 0, bytes)?.program)
}

// The feature `F`, which is number 1, introduces `m`, and the spec, which is section 5 of `main`.
fn lifted(alloc: Global) -> Result<Lifted, Fault> {
    let program = read(alloc, MODEL)?;
    let mut vars = List::new(alloc);
    vars.push(OwnedVar {
        module: Text::from_str(alloc, "main")?,
        name: Text::from_str(alloc, "m")?,
        feature: 1,
    })?;
    let mut specs = List::new(alloc);
    specs.push(OwnedSpec {
        module: Text::from_str(alloc, "main")?,
        section: 5,
        feature: 1,
    })?;
    Ok(Lifted {
        program,
        vars,
        specs,
    })
}

fn numbered(alloc: Global) -> Result<Flat, Fault> {
    Ok(number_model(alloc, &lifted(alloc)?)?)
}

// The definition `d` is node 2 wherever it is read now, and node 22 after the step. The variable of
// a right side comes first, and the implication of the spec is made whole.
const NODES: [FlatNode; 29] = [
    Now(2),
    Const(1),
    Add(0, 1),
    Const(4),
    Le(2, 3),
    Now(2),
    Const(0),
    Eq(5, 6),
    Now(0),
    After(2),
    Now(1),
    Now(2),
    Eq(9, 11),
    Const(4),
    Mod(2, 13),
    Eq(9, 14),
    Or(12, 15),
    Now(2),
    Eq(9, 17),
    Choose(10, 16, 18),
    After(2),
    Const(1),
    Add(20, 21),
    Le(2, 22),
    Now(1),
    Not(24),
    Const(0),
    Lt(26, 2),
    Or(25, 27),
];

#[test]
fn the_nodes_of_a_model(rt: HostRuntime) -> Result<(), Fail> {
    let alloc = rt.alloc();
    match numbered(alloc) {
        Ok(model) => {
            assert_eq!(rt; model.nodes.as_slice(), NODES.as_slice());
            assert_eq!(rt; model.inside.as_slice(), [4].as_slice());
            assert_eq!(rt; model.init.as_slice(), [7, 8].as_slice());
            assert_eq!(rt; model.step.as_slice(), [19, 23].as_slice());
            assert_eq!(rt; model.model, 8);
        }
        Err(_) => assert!(rt; false),
    }
    Ok(())
}

#[test]
fn the_spec_of_a_model(rt: HostRuntime) -> Result<(), Fail> {
    let alloc = rt.alloc();
    match numbered(alloc) {
        Ok(model) => {
            let specs = model.specs.as_slice();
            assert_eq!(rt; specs.len(), 1);
            assert_eq!(rt; specs[0].node, 27);
            assert_eq!(rt; specs[0].owner, Some(1));
            assert!(rt; specs[0].instance.as_str() == "main");
            assert!(rt; specs[0].text.as_str() == "d > 0");
        }
        Err(_) => assert!(rt; false),
    }
    Ok(())
}

fn is_variable(var: &FlatVar, path: &str, count: u32, owner: Option<u8>) -> bool {
    var.path.as_str() == path && var.count == count && var.owner == owner
}

fn is_table(values: &Values, numbers: &[i64]) -> bool {
    match values {
        Values::Table(found) => found.as_slice() == numbers,
        _ => false,
    }
}

#[test]
fn the_variables_of_a_model(rt: HostRuntime) -> Result<(), Fail> {
    let alloc = rt.alloc();
    match numbered(alloc) {
        Ok(model) => {
            let vars = model.vars.as_slice();
            assert_eq!(rt; model.features, 2);
            assert_eq!(rt; vars.len(), 4);
            assert!(rt; is_variable(&vars[0], "fsmv_fm.Base", 2, None));
            assert!(rt; is_variable(&vars[1], "fsmv_fm.F", 2, None));
            assert!(rt; is_variable(&vars[2], "x", 4, None));
            assert!(rt; is_variable(&vars[3], "m", 2, Some(1)));
            assert!(rt; is_table(&vars[3].values, &[0, 1]));
            assert_eq!(rt;
                model.symbolic.as_slice(),
                [false, false, false, true].as_slice()
            );
            assert_eq!(rt; model.symbols.len(), 2);
            assert!(rt; model.symbols.as_slice()[0].as_str() == "off");
            assert!(rt; model.symbols.as_slice()[1].as_str() == "on");
        }
        Err(_) => assert!(rt; false),
    }
    Ok(())
}
