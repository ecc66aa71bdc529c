use smv_ast::{Fault, print_program};
use smv_parse::{Reading, read_program};
use std::alloc::Global;
use std::test::Fail;

/// Where the text is refused as Syntax, if it is.
fn syntax_fault(alloc: Global, text: &str) -> Option<u32> {
    if text.len() > 1000 {
        return None;
    }
    match read_program(alloc, 7, text.as_bytes()) {
        Err(Fault::Syntax { at: Some(at) }) if at.file == 7 => Some(at.at),
        _ => None,
    }
}

/// Where the text holds a word or a mark that is left out, if it is refused so.
fn left_out(alloc: Global, text: &str) -> Option<u32> {
    if text.len() > 1000 {
        return None;
    }
    match read_program(alloc, 7, text.as_bytes()) {
        Err(Fault::LeftOut { at: Some(at), .. }) => Some(at.at),
        _ => None,
    }
}

/// Where the text holds a number over the limit, if it is refused so.
fn wide(alloc: Global, text: &str) -> Option<u32> {
    if text.len() > 1000 {
        return None;
    }
    match read_program(alloc, 7, text.as_bytes()) {
        Err(Fault::WideNumber { at: Some(at) }) => Some(at.at),
        _ => None,
    }
}

#[test]
fn offsets(rt: HostRuntime) -> Result<(), Fail> {
    let texts = [
        ("", 0),
        ("MODULE", 6),
        ("MODULE é", 7),
        ("MODULE main VAR x 0..3;", 18),
        ("MODULE main VAR case : boolean;", 16),
        ("MODULE main VAR x : {1, a};", 24),
        ("MODULE main VAR x : boolean; @", 29),
        ("MODULE main INVARSPEC x +", 25),
        ("MODULE main DEFINE d = 1;", 21),
        ("MODULE m(a,) VAR", 11),
        ("MODULE main VAR x : m(;", 22),
        ("MODULE main ASSIGN next(x) := case TRUE : 1; esac", 49),
        ("MODULE main SPEC ) @ END", 21),
        ("MODULE main SPEC CHANGE", 17),
    ];
    for (text, offset) in texts {
        assert_eq!(rt; syntax_fault(rt.alloc(), text), Some(offset), "{text}");
    }
    let array = "MODULE main VAR x : array 0..1 of boolean;";
    assert_eq!(rt; left_out(rt.alloc(), array), Some(20));
    assert_eq!(rt;
        wide(rt.alloc(), "MODULE main INIT 2147483648 = 0"),
        Some(17)
    );
    assert_eq!(rt;
        wide(rt.alloc(), "MODULE main VAR x : 0..2147483648;"),
        Some(23)
    );
    Ok(())
}

/// The text in its canonical form, if it is a model.
fn printed(alloc: Global, text: &str) -> Result<String, Fail> {
    if text.len() > 1000 {
        return Err("too long")?;
    }
    match read_program(alloc, 0, text.as_bytes()) {
        Ok(reading) => Ok(print_program(alloc, &reading.program)?),
        Err(_) => Err("refused")?,
    }
}

#[test]
fn models(rt: HostRuntime) -> Result<(), Fail> {
    let texts = [
        ("MODULE main", "MODULE main\n"),
        ("MODULE main -- é (\r ASSIGN ?", "MODULE main\n"),
        (
            "MODULE main VAR ASSIGN DEFINE",
            "MODULE main\nVAR\nASSIGN\nDEFINE\n",
        ),
        (
            "MODULE m(a, b) VAR x:{-1,2}; y:{up,dn}; c:n; d:n(x,y+1); MODULE n()",
            "MODULE m(a, b)\nVAR\n  x : {-1, 2};\n  y : {up, dn};\n  c : n;\n  d : n(x, y + 1);\nMODULE n\n",
        ),
        (
            "MODULE m INIT x INVAR y; TRANS z INVARSPEC w; SPEC AG (a -> EF $1) INIT v",
            "MODULE m\nINIT x;\nINVAR y;\nTRANS z;\nINVARSPEC w;\nINIT v;\n",
        ),
        (
            "MODULE m ASSIGN x := 1; init(x) := 2; next(x) := 3; DEFINE d := {1, 2};",
            "MODULE m\nASSIGN\n  x := 1;\n  init(x) := 2;\n  next(x) := 3;\nDEFINE\n  d := {1, 2};\n",
        ),
    ];
    for (text, canonical) in texts {
        let model = printed(rt.alloc(), text)?;
        assert_eq!(rt; model.as_str(), canonical, "{text}");
    }
    Ok(())
}

#[test]
fn skipped(rt: HostRuntime) -> Result<(), Fail> {
    let text = b"MODULE m LTLSPEC G ?\xe9 COMPASSION VAR x : boolean; MODULE n SPEC xEND 1";
    let Ok(Reading { skipped, .. }) = read_program(rt.alloc(), 3, text) else {
        panic!(rt; "refused");
    };
    let [first, second, third] = skipped.as_slice() else {
        panic!(rt; "three sections");
    };
    assert!(rt; first.word.is("LTLSPEC") && second.word.is("COMPASSION") && third.word.is("SPEC"));
    assert_eq!(rt; (first.at.file, first.at.at), (3, 9));
    assert_eq!(rt; (second.at.at, third.at.at), (22, 59));
    Ok(())
}
