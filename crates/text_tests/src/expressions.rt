use smv_ast::{Choice, Expr, Fault, List, Module, Program, Section, Span, Text, print_program};
use smv_expr::answer::read_expr;
use smv_expr::cursor::Cursor;
use smv_expr::kind::Kind;
use smv_expr::operand::{negative_interval, number, path, sign, single, up_to};
use std::alloc::Global;
use std::test::Fail;

#[test]
fn cursor(rt: HostRuntime) -> Result<(), Fail> {
    let text = b" x 12 + * MODULE";
    let mut tokens = Cursor::new(1, text);
    assert!(rt; tokens.sees(Kind::Name));
    assert_eq!(rt; tokens.kind(), Some(Kind::Name));
    let Ok((name, at)) = tokens.name(rt.alloc()) else {
        panic!(rt; "a name");
    };
    assert!(rt; name.is("x"));
    assert_eq!(rt; at.at, 1);
    let Ok((twelve, _)) = tokens.numeral() else {
        panic!(rt; "a numeral");
    };
    assert_eq!(rt; twelve, 12);
    assert_eq!(rt;
        tokens.eat_one_of(&[(Kind::Minus, 1u8), (Kind::Plus, 2)]),
        Some(2)
    );
    assert!(rt; tokens.eat(Kind::Plus).is_none());
    assert!(rt; tokens.eat(Kind::Star).is_some());
    let Ok(word) = tokens.expect(Kind::Module) else {
        panic!(rt; "a word");
    };
    assert_eq!(rt; word.at, 10);
    assert!(rt; tokens.is_at_end());
    assert!(rt; tokens.span().is_none());
    Ok(())
}

#[test]
fn operands(rt: HostRuntime) -> Result<(), Fail> {
    let alloc = rt.alloc();
    let mut tokens = Cursor::new(2, b"- 12 .. -3 4 5..6 7 8..9 cabin . r1.at");
    assert!(rt; matches!(sign(&mut tokens, true), Ok(-12)));
    assert!(rt; matches!(up_to(&mut tokens, true), Ok(-3)));
    let Ok(four) = number(alloc, &mut tokens, true) else {
        panic!(rt; "a number");
    };
    assert!(rt; matches!(four.into_expr(), Expr::Number(4)));
    let Ok(five_to_six) = number(alloc, &mut tokens, true) else {
        panic!(rt; "an interval");
    };
    assert!(rt;
        matches!(
            five_to_six.into_expr(),
            Expr::Pick(Choice::Between { low: 5, high: 6 })
        )
    );
    let Ok(seven) = single(alloc, &mut tokens, true) else {
        panic!(rt; "a number");
    };
    assert!(rt; matches!(seven.into_expr(), Expr::Number(7)));
    let Ok(to_nine) = negative_interval(alloc, &mut tokens, true) else {
        panic!(rt; "an interval below zero");
    };
    assert!(rt;
        matches!(
            to_nine.into_expr(),
            Expr::Pick(Choice::Between { low: -8, high: 9 })
        )
    );
    let Ok(names) = path(alloc, &mut tokens, true) else {
        panic!(rt; "a path");
    };
    let Expr::Name(path) = names.into_expr() else {
        panic!(rt; "names");
    };
    assert_eq!(rt; (path.at.file, path.at.at), (2, 25));
    let [cabin, r1, at] = path.names.as_slice() else {
        panic!(rt; "three names");
    };
    assert!(rt; cabin.is("cabin") && r1.is("r1") && at.is("at"));
    assert!(rt; tokens.is_at_end());
    Ok(())
}

/// The canonical text of a model whose one section asks for the expression of the text at the start.
fn printed(alloc: Global, text: &str) -> Result<String, Fail> {
    if text.len() > 1000 {
        return Err("too long")?;
    }
    let Ok(expr) = read_expr(alloc, 0, text.as_bytes()) else {
        return Err("refused")?;
    };
    let at = Span { file: 0, at: 0 };
    let mut sections = List::new(alloc);
    sections.push(Section::Init(expr, at))?;
    let mut modules = List::new(alloc);
    modules.push(Module {
        name: Text::from_str(alloc, "m")?,
        formals: List::new(alloc),
        sections,
        at,
    })?;
    Ok(print_program(alloc, &Program { modules })?)
}

#[test]
fn precedence(rt: HostRuntime) -> Result<(), Fail> {
    let texts = [
        ("a+b*c", "a + (b * c)"),
        ("a - b - c", "(a - b) - c"),
        ("a mod b * c", "(a mod b) * c"),
        ("a -> b -> c", "a -> (b -> c)"),
        ("a <-> b <-> c | d", "(a <-> b) <-> (c | d)"),
        ("a & b | c xor d & e", "((a & b) | c) xor (d & e)"),
        ("!a = b & c", "(!(a = b)) & c"),
        ("x = !y = z", "x = (!(y = z))"),
        ("-x * -3", "(-x) * (-3)"),
        ("- 3 .. 4", "-3..4"),
        ("x - 1..2", "x - (1..2)"),
        (
            "x + 1 in {y,0..2} in -1..1",
            "((x + 1) in {y, 0..2}) in -1..1",
        ),
        (
            "case a < b : 1; TRUE : next((c)) ; esac",
            "case a < b : 1; TRUE : next(c); esac",
        ),
        ("((cabin . r1.x)) -- the path", "cabin.r1.x"),
        ("0002147483647 >= 1", "2147483647 >= 1"),
    ];
    for (text, canonical) in texts {
        let model = printed(rt.alloc(), text)?;
        let wanted = format!(in rt.alloc(); "MODULE m\nINIT {canonical};\n")?;
        assert_eq!(rt; model.as_str(), wanted.as_str());
    }
    Ok(())
}

/// Where the text is refused as Syntax, if it is.
fn syntax_at(alloc: Global, text: &str) -> Option<u32> {
    if text.len() > 10_000 {
        return None;
    }
    match read_expr(alloc, 0, text.as_bytes()) {
        Err(Fault::Syntax { at: Some(at) }) => Some(at.at),
        _ => None,
    }
}

/// Where the text holds a word or a mark that is left out, if it is refused so.
fn left_out_at(alloc: Global, text: &str) -> Option<u32> {
    if text.len() > 10_000 {
        return None;
    }
    match read_expr(alloc, 0, text.as_bytes()) {
        Err(Fault::LeftOut { at: Some(at), .. }) => Some(at.at),
        _ => None,
    }
}

/// Where the text holds a number over the limit, if it is refused so.
fn wide_at(alloc: Global, text: &str) -> Option<u32> {
    if text.len() > 10_000 {
        return None;
    }
    match read_expr(alloc, 0, text.as_bytes()) {
        Err(Fault::WideNumber { at: Some(at) }) => Some(at.at),
        _ => None,
    }
}

/// Where the text nests too deep, if it is refused so.
fn too_nested_at(alloc: Global, text: &str) -> Option<u32> {
    if text.len() > 10_000 {
        return None;
    }
    match read_expr(alloc, 0, text.as_bytes()) {
        Err(Fault::TooNested { at: Some(at) }) => Some(at.at),
        _ => None,
    }
}

#[test]
fn syntax_faults_of_expressions(rt: HostRuntime) -> Result<(), Fail> {
    let texts = [
        ("", 0),
        ("a b", 2),
        ("-!b", 1),
        ("x in 0..2 + 1", 10),
        ("x + !y in {1} + 2", 14),
        ("case esac", 5),
        ("case a : b; ", 12),
        ("1..", 3),
        ("a..b", 1),
        ("a 2147483648", 2),
    ];
    for (text, offset) in texts {
        assert_eq!(rt; syntax_at(rt.alloc(), text), Some(offset), "{text}");
    }
    assert_eq!(rt; left_out_at(rt.alloc(), "array"), Some(0));
    assert_eq!(rt; left_out_at(rt.alloc(), "a [ 1 ]"), Some(2));
    assert_eq!(rt; wide_at(rt.alloc(), "a + 2147483648 b"), Some(4));
    assert_eq!(rt; wide_at(rt.alloc(), "x in 1..99999999999"), Some(8));
    Ok(())
}

/// The first text so many times, then the second once.
fn repeated(alloc: Global, before: &str, times: usize, after: &str) -> Result<String, Fail> {
    let mut text = String::new(alloc);
    for _ in 0..times {
        text.push_str(before)?;
    }
    text.push_str(after)?;
    Ok(text)
}

#[test]
fn nesting(rt: HostRuntime) -> Result<(), Fail> {
    let texts = [
        ("!", 1000, "a", 1000),
        ("- ", 1000, "1", 2000),
        ("a+", 1000, "a", 2000),
        ("a->", 1000, "a", 3000),
    ];
    for (before, times, after, offset) in texts {
        let text = repeated(rt.alloc(), before, times, after)?;
        assert_eq!(rt;
            too_nested_at(rt.alloc(), text.as_str()),
            Some(offset),
            "{before}"
        );
        let less = repeated(rt.alloc(), before, 999, after)?;
        assert_eq!(rt; too_nested_at(rt.alloc(), less.as_str()), None, "{before}");
    }
    Ok(())
}
