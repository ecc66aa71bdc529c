//! Models past the sizes at which a wrong limit could hide: a call that ran out of memory early
//! would still keep its contract.

use smv_parse::read_program;
use smv_types::{Typed, check};
use std::alloc::Global;
use std::fmt::{self, Write};
use std::test::Fail;

const LONGEST: usize = 16_777_216;

// The data of a text that passes the checks.
fn checked(alloc: Global, text: &str) -> Option<Typed> {
    let bytes = text.as_bytes();
    if bytes.len() > LONGEST {
        return None;
    }
    let reading = read_program(alloc, 0, bytes).ok()?;
    check(alloc, &reading.program).ok()
}

// 5,000 variables, and a spec of the last.
fn variables(alloc: Global) -> Result<String, fmt::Error> {
    let mut text = String::new(alloc);
    text.write_str("MODULE main\nVAR\n")?;
    for k in 0u32..5_000 {
        writeln!(text, "  x{k} : boolean;")?;
    }
    text.write_str("INVARSPEC x4999;\n")?;
    Ok(text)
}

// 2,000 instances of a module, and a spec of the last.
fn instances(alloc: Global) -> Result<String, fmt::Error> {
    let mut text = String::new(alloc);
    text.write_str("MODULE m\nVAR x : boolean;\nMODULE main\nVAR\n")?;
    for k in 0u32..2_000 {
        writeln!(text, "  c{k} : m;")?;
    }
    text.write_str("INVARSPEC c1999.x;\n")?;
    Ok(text)
}

#[test]
fn five_thousand_names(rt: HostRuntime) -> Result<(), Fail> {
    let Ok(text) = variables(rt.alloc()) else {
        panic!(rt; "no text");
    };
    match checked(rt.alloc(), &text) {
        Some(typed) => assert_eq!(rt; (typed.instances.len(), typed.nodes), (1, 1)),
        None => panic!(rt; "refused"),
    }
    Ok(())
}

#[test]
fn two_thousand_instances(rt: HostRuntime) -> Result<(), Fail> {
    let Ok(text) = instances(rt.alloc()) else {
        panic!(rt; "no text");
    };
    match checked(rt.alloc(), &text) {
        Some(typed) => assert_eq!(rt; (typed.instances.len(), typed.nodes), (2_001, 1)),
        None => panic!(rt; "refused"),
    }
    Ok(())
}
