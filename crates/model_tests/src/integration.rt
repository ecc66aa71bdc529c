//! Features applied to small models, with texts and faults worked out by hand.

use integrate::integrate_one;
use integrate_impose::section_copies::{copy_sections, copy_type};
use smv_ast::{
    Action, Change, Declaration, Declared, Expr, Fault, Feature, Joined, Left, List, Need, Program,
    Section, Span, Text, print_program,
};
use smv_parse::{read_expr, read_program};
use std::alloc::Global;
use std::test::Fail;

/// A change in text: module, condition, `init`, `next`, `now` or `treat`, target, right side.
type ChangeText<'a> = (&'a str, &'a str, &'a str, &'a str, &'a str);

/// A feature in text.
#[derive(Drop)]
struct FeatureText<'a> {
    name: &'a str,
    /// Needs without a type: module and name.
    needs: &'a [(&'a str, &'a str)],
    /// Needs with a type, as the variables of modules.
    typed: &'a str,
    /// Joined parts, as modules.
    introduced: &'a str,
    changes: &'a [ChangeText<'a>],
}

/// The program of a text of file `file`; none for an empty text.
fn modules(alloc: Global, file: u32, text: &str) -> Result<Program, Fault> {
    let bytes = text.as_bytes();
    if bytes.len() == 0 || bytes.len() > 10_000 {
        return Ok(Program {
            modules: List::new(alloc),
        });
    }
    Ok(read_program(alloc, file, bytes)?.program)
}

fn expr(alloc: Global, file: u32, text: &str) -> Result<Expr, Fault> {
    let bytes = text.as_bytes();
    if bytes.len() > 10_000 {
        return Err(Fault::NoMemory);
    }
    read_expr(alloc, file, bytes)
}

fn push_need(
    alloc: Global,
    needs: &mut List<Need>,
    module: &Text,
    declaration: &Declaration,
) -> Result<(), Fault> {
    let Declared::Plain(values) = &declaration.what else {
        return Ok(());
    };
    needs.push(Need {
        module: module.try_clone(alloc)?,
        name: declaration.name.try_clone(alloc)?,
        wanted: Some(copy_type(alloc, values)?),
        at: declaration.at,
    })?;
    Ok(())
}

fn push_needs(
    alloc: Global,
    needs: &mut List<Need>,
    module: &Text,
    section: &Section,
) -> Result<(), Fault> {
    let Section::Vars(declarations) = section else {
        return Ok(());
    };
    for declaration in declarations.as_slice() {
        push_need(alloc, needs, module, declaration)?;
    }
    Ok(())
}

/// Untyped needs, at the offsets 0, 1 .. of file 4, and then the typed ones, of file 1.
fn needs_of(alloc: Global, text: &FeatureText) -> Result<List<Need>, Fault> {
    let mut needs = List::new(alloc);
    let mut at = 0;
    for (module, name) in text.needs {
        needs.push(Need {
            module: Text::from_str(alloc, module)?,
            name: Text::from_str(alloc, name)?,
            wanted: None,
            at: Span { file: 4, at },
        })?;
        if at < 100 {
            at += 1;
        }
    }
    let typed = modules(alloc, 1, text.typed)?;
    for owner in typed.modules.as_slice() {
        for section in owner.sections.as_slice() {
            push_needs(alloc, &mut needs, &owner.name, section)?;
        }
    }
    Ok(needs)
}

/// Joined parts, of file 2.
fn joins_of(alloc: Global, text: &str) -> Result<List<Joined>, Fault> {
    let introduced = modules(alloc, 2, text)?;
    let mut joins = List::new(alloc);
    for owner in introduced.modules.as_slice() {
        joins.push(Joined {
            module: owner.name.try_clone(alloc)?,
            sections: copy_sections(alloc, owner.sections.as_slice())?,
            at: owner.at,
        })?;
    }
    Ok(joins)
}

fn action(alloc: Global, what: &str, target: &str, right: Expr) -> Result<Action, Fault> {
    if what == "treat" {
        return match expr(alloc, 5, target)? {
            Expr::Name(path) => Ok(Action::Treat { path, right }),
            _ => Err(Fault::NoMemory),
        };
    }
    let left = match what {
        "init" => Left::Init,
        "next" => Left::Next,
        _ => Left::Now,
    };
    Ok(Action::Impose {
        left,
        name: Text::from_str(alloc, target)?,
        right,
    })
}

/// Changes at the offset 0 of file 6; their conditions are of file 3, their right sides of file 5.
fn changes_of(alloc: Global, texts: &[ChangeText]) -> Result<List<Change>, Fault> {
    let mut changes = List::new(alloc);
    for (module, cond, what, target, right) in texts {
        let right = expr(alloc, 5, right)?;
        changes.push(Change {
            module: Text::from_str(alloc, module)?,
            cond: expr(alloc, 3, cond)?,
            action: action(alloc, what, target, right)?,
            at: Span { file: 6, at: 0 },
        })?;
    }
    Ok(changes)
}

fn feature_of(alloc: Global, text: &FeatureText) -> Result<Feature, Fault> {
    Ok(Feature {
        name: Text::from_str(alloc, text.name)?,
        needs: needs_of(alloc, text)?,
        joins: joins_of(alloc, text.introduced)?,
        changes: changes_of(alloc, text.changes)?,
        at: Span { file: 7, at: 0 },
    })
}

// ---- one feature

/// The text of the model with the feature applied, or its fault.
fn one(alloc: Global, base: &str, text: &FeatureText) -> Result<String, Fault> {
    let base = modules(alloc, 0, base)?;
    let feature = feature_of(alloc, text)?;
    let applied = integrate_one(alloc, base, &feature)?;
    Ok(print_program(alloc, &applied)?)
}

fn is_text(answer: Result<String, Fault>, expected: &str) -> bool {
    match answer {
        Ok(text) => text.as_str() == expected,
        Err(_) => false,
    }
}

fn changing<'a>(changes: &'a [ChangeText<'a>]) -> FeatureText<'a> {
    FeatureText {
        name: "F",
        needs: &[],
        typed: "",
        introduced: "",
        changes,
    }
}

fn introducing<'a>(introduced: &'a str) -> FeatureText<'a> {
    FeatureText {
        name: "F",
        needs: &[],
        typed: "",
        introduced,
        changes: &[],
    }
}

fn wanting<'a>(needs: &'a [(&'a str, &'a str)], typed: &'a str) -> FeatureText<'a> {
    FeatureText {
        name: "F",
        needs,
        typed,
        introduced: "",
        changes: &[],
    }
}

/// The name, the file and the offset of a fault's cause.
type Cause<'a> = (&'a str, u32, u32);

fn is_at(span: Option<Span>, cause: Cause) -> bool {
    match span {
        Some(span) => span.file == cause.1 && span.at == cause.2,
        None => false,
    }
}

fn is_missing(answer: Result<String, Fault>, cause: Cause, bits: u64) -> bool {
    match answer {
        Err(
            Fault::RequireMissing {
                at,
                feature,
                name,
                product,
            },
        ) => is_at(at, cause) && feature.is("F") && name.is(cause.0) && product.bits == bits,
        _ => false,
    }
}

fn is_type(answer: Result<String, Fault>, cause: Cause) -> bool {
    match answer {
        Err(Fault::RequireType { at, feature, name }) => {
            is_at(at, cause) && feature.is("F") && name.is(cause.0)
        }
        _ => false,
    }
}

fn is_clash(answer: Result<String, Fault>, cause: Cause) -> bool {
    match answer {
        Err(Fault::IntroduceClash { at, feature, name }) => {
            is_at(at, cause) && feature.is("F") && name.is(cause.0)
        }
        _ => false,
    }
}

fn is_instance(answer: Result<String, Fault>, cause: Cause) -> bool {
    match answer {
        Err(Fault::IntroducedInstance { at, feature, name }) => {
            is_at(at, cause) && feature.is("F") && name.is(cause.0)
        }
        _ => false,
    }
}

fn is_assign(answer: Result<String, Fault>, cause: Cause) -> bool {
    match answer {
        Err(Fault::IntroducedAssign { at, feature, name }) => {
            is_at(at, cause) && feature.is("F") && name.is(cause.0)
        }
        _ => false,
    }
}

fn is_target(answer: Result<String, Fault>, name: &str) -> bool {
    match answer {
        Err(Fault::ImposeTarget { at, name: found }) => {
            is_at(at, (name, 6, 0)) && found.is(name)
        }
        _ => false,
    }
}

fn is_treat(answer: Result<String, Fault>, path: &str) -> bool {
    match answer {
        Err(Fault::TreatTarget { at, path: found }) => is_at(at, (path, 6, 0)) && found.is(path),
        _ => false,
    }
}

const CELLS: &str =
    "MODULE main VAR x : boolean; c : cell(x); TRANS next(x) != x; MODULE cell(a) VAR y : boolean;";

#[test]
fn texts_of_one_feature(rt: HostRuntime) -> Result<(), Fail> {
    let alloc = rt.alloc();
    let treats = changing(&[("main", "c.y", "treat", "x", "FALSE")]);
    assert!(rt;
        is_text(
            one(alloc, CELLS, &treats),
            "MODULE main\nVAR\n  x : boolean;\n  c : cell(case c.y : FALSE; TRUE : x; esac);\nTRANS next(case c.y : FALSE; TRUE : x; esac) != case c.y : FALSE; TRUE : x; esac;\nMODULE cell(a)\nVAR\n  y : boolean;\n"
        )
    );
    let imposes = changing(&[("main", "x = 0", "next", "x", "1")]);
    assert!(rt;
        is_text(
            one(
                alloc,
                "MODULE main VAR x : 0..3; ASSIGN init(x) := 0;",
                &imposes
            ),
            "MODULE main\nVAR\n  x : 0..3;\nASSIGN\n  init(x) := 0;\n  next(x) := case x = 0 : 1; TRUE : 0..3; esac;\n"
        )
    );
    // Two parts: `d` of the first reads `b` of the second, a change acts in what was introduced, and
    // an IMPOSE goes to the last ASSIGN section, which was introduced.
    let two_parts = FeatureText {
        name: "F",
        needs: &[("main", "b"), ("cell", "")],
        typed: "MODULE cell VAR y : boolean;",
        introduced: "MODULE main VAR a : 0..1; DEFINE d := b + c.z; MODULE cell VAR z : 0..1; MODULE main VAR b : 0..1; ASSIGN init(b) := a;",
        changes: &[
            ("main", "TRUE", "treat", "a", "d"),
            ("main", "x", "next", "a", "b"),
        ],
    };
    assert!(rt;
        is_text(
            one(alloc, CELLS, &two_parts),
            "MODULE main\nVAR\n  x : boolean;\n  c : cell(x);\nTRANS next(x) != x;\nVAR\n  a : 0..1;\nDEFINE\n  d := b + c.z;\nVAR\n  b : 0..1;\nASSIGN\n  init(b) := case TRUE : d; TRUE : a; esac;\n  next(a) := case x : b; TRUE : 0..1; esac;\nMODULE cell(a)\nVAR\n  y : boolean;\nVAR\n  z : 0..1;\n"
        )
    );
    // The same values in the same order.
    let enumeration = "MODULE main VAR x : {0, 1, 2, 3};";
    assert!(rt;
        one(
            alloc,
            "MODULE main VAR x : 0..3;",
            &wanting(&[], enumeration)
        )
        .is_ok()
    );
    Ok(())
}

#[test]
fn faults_of_one_feature(rt: HostRuntime) -> Result<(), Fail> {
    let alloc = rt.alloc();
    // Needs: a module, a name, a symbol, a type; each before a later fault.
    assert!(rt;
        is_missing(
            one(
                alloc,
                CELLS,
                &wanting(&[("main", "x"), ("other", "x"), ("main", "z")], "")
            ),
            ("other", 4, 1),
            0
        )
    );
    assert!(rt;
        is_missing(
            one(
                alloc,
                CELLS,
                &wanting(&[("cell", "a"), ("cell", "x")], "MODULE main VAR x : 0..1;")
            ),
            ("x", 4, 1),
            0
        )
    );
    assert!(rt;
        is_missing(
            one(
                alloc,
                "MODULE main VAR x : {on, off};",
                &wanting(&[("main", "on")], "")
            ),
            ("on", 4, 0),
            0
        )
    );
    assert!(rt;
        is_type(
            one(
                alloc,
                CELLS,
                &wanting(&[], "MODULE main VAR x : 0..1; z : boolean;")
            ),
            ("x", 1, 16)
        )
    );
    assert!(rt;
        is_type(
            one(alloc, CELLS, &wanting(&[], "MODULE main VAR c : boolean;")),
            ("c", 1, 16)
        )
    );
    // Joined parts: the head, an instance, clashes with the base, a second declaration and a symbol.
    assert!(rt;
        is_missing(
            one(
                alloc,
                CELLS,
                &introducing("MODULE other VAR x : boolean; d : cell(x);")
            ),
            ("other", 2, 0),
            0
        )
    );
    assert!(rt;
        is_instance(
            one(
                alloc,
                CELLS,
                &introducing("MODULE main VAR x1 : boolean; x : cell(y); y : boolean;")
            ),
            ("x", 2, 30)
        )
    );
    assert!(rt;
        is_clash(
            one(
                alloc,
                CELLS,
                &introducing("MODULE main VAR y : boolean; MODULE cell DEFINE a := q;")
            ),
            ("a", 2, 48)
        )
    );
    assert!(rt;
        is_clash(
            one(
                alloc,
                CELLS,
                &introducing("MODULE main VAR b : boolean; DEFINE b := x;")
            ),
            ("b", 2, 16)
        )
    );
    assert!(rt;
        is_clash(
            one(
                alloc,
                CELLS,
                &introducing("MODULE main VAR b : {a, c1}; MODULE main VAR c1 : boolean;")
            ),
            ("c1", 2, 45)
        )
    );
    // Assignments: of a name of the base, of a definition of its own, of a variable in another module.
    assert!(rt;
        is_assign(
            one(
                alloc,
                CELLS,
                &introducing("MODULE main ASSIGN init(x) := q;")
            ),
            ("x", 2, 19)
        )
    );
    assert!(rt;
        is_assign(
            one(
                alloc,
                CELLS,
                &introducing("MODULE main DEFINE b := x; ASSIGN init(b) := q;")
            ),
            ("b", 2, 34)
        )
    );
    assert!(rt;
        is_assign(
            one(
                alloc,
                CELLS,
                &introducing("MODULE main VAR b : boolean; MODULE cell ASSIGN init(b) := q;")
            ),
            ("b", 2, 48)
        )
    );
    // Unknown paths of right sides and constraints, in text order.
    assert!(rt;
        is_missing(
            one(
                alloc,
                CELLS,
                &introducing(
                    "MODULE main VAR b : boolean; ASSIGN init(b) := x & c.b; next(b) := q;"
                )
            ),
            ("c.b", 2, 51),
            0
        )
    );
    assert!(rt;
        is_missing(
            one(
                alloc,
                CELLS,
                &introducing("MODULE main INVAR x; INVARSPEC c.y & q;")
            ),
            ("q", 2, 37),
            0
        )
    );
    // Changes: the condition, the target of each kind.
    assert!(rt;
        is_missing(
            one(
                alloc,
                CELLS,
                &changing(&[("main", "x | q", "next", "z", "x")])
            ),
            ("q", 3, 4),
            0
        )
    );
    assert!(rt;
        is_missing(
            one(alloc, CELLS, &changing(&[("main", "x", "next", "z", "q")])),
            ("z", 6, 0),
            0
        )
    );
    assert!(rt;
        is_target(
            one(alloc, CELLS, &changing(&[("cell", "y", "next", "a", "y")])),
            "a"
        )
    );
    assert!(rt;
        is_treat(
            one(alloc, CELLS, &changing(&[("main", "x", "treat", "c", "x")])),
            "c"
        )
    );
    Ok(())
}
