use feature_parse::{FeatureReading, read_features};
use integrate_impose::lists::reversed;
use smv_ast::*;
use std::alloc::Global;
use std::test::Fail;

/// What stands at a span, as a module: a heading, and sections.
fn entry(
    alloc: Global,
    heading: &str,
    name: &Text,
    at: Span,
    sections: List<Section>,
) -> Result<Module, Fail> {
    let heading = format!(in alloc; "{heading} {} {}", name.as_str(), at.at)?;
    Ok(Module {
        name: Text::from_str(alloc, heading.as_str())?,
        formals: List::new(alloc),
        sections,
        at,
    })
}

/// A need: its name beside the module, and its type as a section.
fn need_entry(alloc: Global, need: Need) -> Result<Module, Fail> {
    let Need {
        module,
        name,
        wanted,
        at,
    } = need;
    let heading = format!(in alloc; "need {}", module.as_str())?;
    let mut sections = List::new(alloc);
    if let Some(wanted) = wanted {
        let mut declarations = List::new(alloc);
        declarations.push(Declaration {
            name: Text::from_str(alloc, "type")?,
            what: Declared::Plain(wanted),
            at,
        })?;
        sections.push(Section::Vars(declarations))?;
    }
    entry(alloc, heading.as_str(), &name, at, sections)
}

/// The action of a change as sections. That of a TREAT begins with the offset of its path.
fn action_sections(
    alloc: Global,
    action: Action,
    at: Span,
    sections: &mut List<Section>,
) -> Result<(), Fail> {
    match action {
        Action::Impose { left, name, right } => {
            let mut assignments = List::new(alloc);
            assignments.push(Assignment {
                left,
                name,
                right,
                at,
            })?;
            sections.push(Section::Assigns(assignments))?;
        }
        Action::Treat { path, right } => {
            sections.push(Section::Invar(Expr::Number(path.at.at), at))?;
            let read = Boxed::new(alloc, Expr::Name(path))?;
            let equal = Expr::Binary(Op::Eq, read, Boxed::new(alloc, right)?);
            sections.push(Section::Trans(equal, at))?;
        }
    }
    Ok(())
}

/// A change: its condition, then its action.
fn change_entry(alloc: Global, change: Change) -> Result<Module, Fail> {
    let Change {
        module,
        cond,
        action,
        at,
    } = change;
    let mut sections = List::new(alloc);
    sections.push(Section::Init(cond, at))?;
    action_sections(alloc, action, at, &mut sections)?;
    entry(alloc, "change", &module, at, sections)
}

/// Introduced sections under their module.
fn join_entry(alloc: Global, joined: Joined) -> Result<Module, Fail> {
    let Joined {
        module,
        sections,
        at,
    } = joined;
    entry(alloc, "join", &module, at, sections)
}

/// Adds the entries of a feature, from the last to the first.
fn push_feature(alloc: Global, entries: &mut List<Module>, feature: Feature) -> Result<(), Fail> {
    let Feature {
        name,
        mut needs,
        mut joins,
        mut changes,
        at,
    } = feature;
    for _ in 0..changes.len() {
        if let Some(change) = changes.pop() {
            entries.push(change_entry(alloc, change)?)?;
        }
    }
    for _ in 0..joins.len() {
        if let Some(joined) = joins.pop() {
            entries.push(join_entry(alloc, joined)?)?;
        }
    }
    for _ in 0..needs.len() {
        if let Some(need) = needs.pop() {
            entries.push(need_entry(alloc, need)?)?;
        }
    }
    entries.push(entry(alloc, "feature", &name, at, List::new(alloc))?)?;
    Ok(())
}

/// The features in their order, and then the skipped sections, each as a module.
fn listing(alloc: Global, reading: FeatureReading) -> Result<Program, Fail> {
    let FeatureReading {
        mut features,
        mut skipped,
    } = reading;
    let mut entries = List::new(alloc);
    for _ in 0..skipped.len() {
        if let Some(section) = skipped.pop() {
            entries.push(entry(
                alloc,
                "skipped",
                &section.word,
                section.at,
                List::new(alloc),
            )?)?;
        }
    }
    for _ in 0..features.len() {
        if let Some(feature) = features.pop() {
            push_feature(alloc, &mut entries, feature)?;
        }
    }
    let modules = reversed(alloc, entries)?;
    Ok(Program { modules })
}

/// The features of the text as modules, if it has any.
fn printed(alloc: Global, text: &str) -> Result<String, Fail> {
    if text.len() > 1000 {
        return Err("too long")?;
    }
    match read_features(alloc, 0, text.as_bytes()) {
        Ok(reading) => {
            let program = listing(alloc, reading)?;
            Ok(print_program(alloc, &program)?)
        }
        Err(_) => Err("refused")?,
    }
}

#[test]
fn features(rt: HostRuntime) -> Result<(), Fail> {
    let texts = [
        ("", ""),
        (" -- FEATURE A END", ""),
        ("FEATURE A END", "MODULE feature A 0\n"),
        (
            "FEATURE A REQUIRE INTRODUCE CHANGE END FEATURE B END",
            "MODULE feature A 0\nMODULE feature B 39\n",
        ),
        (
            "FEATURE A REQUIRE MODULE m MODULE n VAR VAR MODULE k VAR x; y : 0..3; VAR z : {a, b}; END",
            "MODULE feature A 0\nMODULE need m  25\nMODULE need n  34\nMODULE need k x 57\nMODULE need k y 60\nVAR\n  type : 0..3;\nMODULE need k z 74\nVAR\n  type : {a, b};\n",
        ),
        (
            "FEATURE A INTRODUCE MODULE m VAR h : boolean; SPEC AG h ASSIGN init(h) := FALSE; MODULE n INVARSPEC h; FAIRNESS h END",
            "MODULE feature A 0\nMODULE join m 20\nVAR\n  h : boolean;\nASSIGN\n  init(h) := FALSE;\nMODULE join n 81\nINVARSPEC h;\nMODULE skipped SPEC 46\nMODULE skipped FAIRNESS 103\n",
        ),
        (
            "FEATURE A CHANGE MODULE m IMPOSE next(x) := 1; TREAT c.y = x; MODULE n END",
            "MODULE feature A 0\nMODULE change m 26\nINIT TRUE;\nASSIGN\n  next(x) := 1;\nMODULE change m 47\nINIT TRUE;\nINVAR 53;\nTRANS c.y = x;\n",
        ),
        (
            "FEATURE A CHANGE MODULE m TREAT x = y; IF a & b THEN IMPOSE init(x) := 0; IMPOSE z := {1, 2}; IF c THEN TREAT z = x; END",
            "MODULE feature A 0\nMODULE change m 26\nINIT TRUE;\nINVAR 32;\nTRANS x = y;\nMODULE change m 53\nINIT a & b;\nASSIGN\n  init(x) := 0;\nMODULE change m 74\nINIT a & b;\nASSIGN\n  z := {1, 2};\nMODULE change m 104\nINIT c;\nINVAR 110;\nTRANS z = x;\n",
        ),
        (
            "FEATURE A REQUIRE MODULE m VAR x; INTRODUCE MODULE m DEFINE d := 1; CHANGE MODULE m TREAT x = d; END FEATURE B REQUIRE MODULE m END",
            "MODULE feature A 0\nMODULE need m x 31\nMODULE join m 44\nDEFINE\n  d := 1;\nMODULE change m 84\nINIT TRUE;\nINVAR 90;\nTRANS x = d;\nMODULE feature B 101\nMODULE need m  126\n",
        ),
    ];
    for (text, listed) in texts {
        let found = printed(rt.alloc(), text)?;
        assert_eq!(rt; found.as_str(), listed, "{text}");
    }
    Ok(())
}

/// Where the text is refused as Syntax, if it is.
fn syntax_fault(alloc: Global, text: &str) -> Option<u32> {
    if text.len() > 1000 {
        return None;
    }
    match read_features(alloc, 7, text.as_bytes()) {
        Err(Fault::Syntax { at: Some(at) }) if at.file == 7 => Some(at.at),
        _ => None,
    }
}

/// Where the text has a word or a mark that is left out, if it is refused so.
fn left_out(alloc: Global, text: &str) -> Option<u32> {
    if text.len() > 1000 {
        return None;
    }
    match read_features(alloc, 7, text.as_bytes()) {
        Err(Fault::LeftOut { at: Some(at), .. }) => Some(at.at),
        _ => None,
    }
}

/// Where the text has a number over the limit, if it is refused so.
fn wide(alloc: Global, text: &str) -> Option<u32> {
    if text.len() > 1000 {
        return None;
    }
    match read_features(alloc, 7, text.as_bytes()) {
        Err(Fault::WideNumber { at: Some(at) }) => Some(at.at),
        _ => None,
    }
}

/// Where a text nests too deep whose condition begins with so many `!`, if it is refused so.
fn too_nested(alloc: Global, times: usize) -> Result<Option<u32>, Fail> {
    let mut text = String::from_str(alloc, "FEATURE A CHANGE MODULE m IF ")?;
    for _ in 0..times {
        text.push('!')?;
    }
    text.push_str("a THEN IMPOSE x := 1; TREAT x = 2; END")?;
    if text.len() > 2000 {
        return Err("too long")?;
    }
    match read_features(alloc, 7, text.as_str().as_bytes()) {
        Err(Fault::TooNested { at: Some(at) }) => Ok(Some(at.at)),
        Err(_) => Err("another fault")?,
        Ok(_) => Ok(None),
    }
}

#[test]
fn faults_of_features(rt: HostRuntime) -> Result<(), Fail> {
    let texts = [
        ("FEATURE", 7),
        ("FEATURE A", 9),
        ("FEATURE A EN", 10),
        ("FEATURE A END END", 14),
        ("FEATURE A CHANGE REQUIRE END", 17),
        ("FEATURE A REQUIRE MODULE m VAR x", 32),
        ("FEATURE A REQUIRE MODULE m VAR x : n; END", 35),
        ("FEATURE A REQUIRE MODULE m DEFINE d := 1; END", 27),
        ("FEATURE A INTRODUCE MODULE m(a) END", 28),
        ("FEATURE A INTRODUCE MODULE m SPEC END x", 38),
        ("FEATURE A CHANGE MODULE m IMPOSE x :", 35),
        ("FEATURE A CHANGE MODULE m IMPOSE x = 1; END", 35),
        ("FEATURE A CHANGE MODULE m IMPOSE c.x := 1; END", 34),
        ("FEATURE A CHANGE MODULE m TREAT x := 1; END", 34),
        ("FEATURE A CHANGE MODULE m TREAT init(x) = 1; END", 32),
        ("FEATURE A CHANGE MODULE m IF a IMPOSE x := 1; END", 31),
        ("FEATURE A CHANGE MODULE m IF a THEN END", 36),
        ("MODULE m END", 0),
    ];
    for (text, offset) in texts {
        assert_eq!(rt; syntax_fault(rt.alloc(), text), Some(offset), "{text}");
    }
    let array = "FEATURE A REQUIRE MODULE m VAR x : array 0..1 of boolean; END";
    assert_eq!(rt; left_out(rt.alloc(), array), Some(35));
    let range = "FEATURE A REQUIRE MODULE m VAR x : 0..2147483648; END";
    assert_eq!(rt; wide(rt.alloc(), range), Some(38));
    assert_eq!(rt; too_nested(rt.alloc(), 1000)?, Some(1029));
    assert_eq!(rt; too_nested(rt.alloc(), 999)?, None);
    Ok(())
}
