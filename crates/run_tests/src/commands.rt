use fsmv_outside::{MemoryFiles, MemorySink};
use fsmv_top::{Status, run};
use std::alloc::{AllocError, Global};
use std::test::Fail;

const COUNTER: &str =
    "MODULE main\nVAR x : 0..3;\nASSIGN init(x) := 0; next(x) := case x < 2 : x + 1; TRUE : x; esac;\nINVARSPEC x <= 2;";

const FM0: &str = "FEATUREMODEL ROOT Base; END";

const FM1: &str = "FEATUREMODEL ROOT Base; OPTIONAL Base : Fast; END";

const TWO: &str = "FEATUREMODEL ROOT Base; OPTIONAL Base : A, B; END";

const LARGE: &str =
    "FEATUREMODEL ROOT Base; OPTIONAL Base : F1, F2, F3, F4, F5, F6, F7, F8, F9, F10, F11, F12, F13, F14, F15, F16, F17, F18, F19, F20, F21, F22, F23, F24, F25, F26, F27, F28, F29, F30, F31, F32, F33, F34, F35, F36, F37, F38, F39, F40, F41, F42, F43, F44, F45, F46, F47, F48, F49, F50, F51, F52, F53, F54, F55, F56, F57, F58, F59, F60, F61, F62, F63, F64; END";

const FAST: &str = "FEATURE Fast CHANGE MODULE main IF x = 2 THEN IMPOSE next(x) := 3; END";

const FASTER: &str =
    "MODULE main\nVAR\n  x : 0..3;\nASSIGN\n  init(x) := 0;\n  next(x) := case x = 2 : 3; TRUE : case x < 2 : x + 1; TRUE : x; esac; esac;\nINVARSPEC x <= 2;\n";

const USAGE: &str = "usage: fsmv weave|prove|check|make, see the manual\n";

fn file(alloc: Global, name: &str, text: &str) -> Result<(String, Vec<u8>), AllocError> {
    Ok((
        String::from_str(alloc, name)?,
        Vec::from_slice(alloc, text.as_bytes())?,
    ))
}

/// The files `m`, `fm`, `f` and `g`.
fn family(
    alloc: Global,
    base: &str,
    model: &str,
    first: &str,
    second: &str,
) -> Result<Vec<(String, Vec<u8>)>, AllocError> {
    let mut files = Vec::new(alloc);
    files.push(file(alloc, "m", base)?)?;
    files.push(file(alloc, "fm", model)?)?;
    files.push(file(alloc, "f", first)?)?;
    files.push(file(alloc, "g", second)?)?;
    Ok(files)
}

fn all_words(alloc: Global, words: &[&str]) -> Result<Vec<String>, AllocError> {
    let mut found = Vec::new(alloc);
    for word in words {
        found.push(String::from_str(alloc, word)?)?;
    }
    Ok(found)
}

/// The status of a call over these files, and the text that it wrote.
fn call(
    alloc: Global,
    words: &[&str],
    files: Vec<(String, Vec<u8>)>,
    failing_read: u32,
    failing_put: u32,
) -> Result<(Status, Vec<u8>), AllocError> {
    let words = all_words(alloc, words)?;
    let mut failing = Vec::new(alloc);
    failing.push(failing_read)?;
    let mut files = MemoryFiles::new(files, failing);
    let mut failing = Vec::new(alloc);
    failing.push(failing_put)?;
    let mut out = MemorySink::new(alloc, failing);
    let status = run(alloc, words.as_slice(), &mut files, &mut out);
    Ok((status, Vec::from_slice(alloc, out.written())?))
}

#[test]
fn weaves_products(rt: HostRuntime) -> Result<(), Fail> {
    let plain =
        "MODULE main\nVAR\n  x : 0..3;\nASSIGN\n  init(x) := 0;\n  next(x) := case x < 2 : x + 1; TRUE : x; esac;\nINVARSPEC x <= 2;\n";
    let spelled =
        "MODULE main VAR x : 0..3; y : 0..3; b : boolean; c : boolean; INIT !x = y INVAR b = !c & x in 0..2 ASSIGN next(x) := case x < 2 : x + 1; 1 : 0; esac;";
    let canonical =
        "MODULE main\nVAR\n  x : 0..3;\n  y : 0..3;\n  b : boolean;\n  c : boolean;\nINIT !(x = y);\nINVAR (b = (!c)) & (x in 0..2);\nASSIGN\n  next(x) := case x < 2 : x + 1; 1 : 0; esac;\n";
    let still = "MODULE main VAR x : 0..3; ASSIGN init(x) := 0; next(x) := x;";
    let treat = "FEATURE A CHANGE MODULE main IF x = 3 THEN TREAT x = 0; END";
    let impose = "FEATURE B CHANGE MODULE main IF x = 0 THEN IMPOSE next(x) := 3; END";
    let treated_first =
        "MODULE main\nVAR\n  x : 0..3;\nASSIGN\n  init(x) := 0;\n  next(x) := case x = 0 : 3; TRUE : case x = 3 : 0; TRUE : x; esac; esac;\n";
    let imposed_first =
        "MODULE main\nVAR\n  x : 0..3;\nASSIGN\n  init(x) := 0;\n  next(x) := case case x = 3 : 0; TRUE : x; esac = 0 : 3; TRUE : case x = 3 : 0; TRUE : x; esac; esac;\n";
    let cell =
        "MODULE main VAR x : boolean; c : cell(x); TRANS next(x) != x; MODULE cell(a) VAR y : boolean;";
    let in_cell = "FEATURE A CHANGE MODULE main IF c.y THEN TREAT x = FALSE; END";
    let celled =
        "MODULE main\nVAR\n  x : boolean;\n  c : cell(case c.y : FALSE; TRUE : x; esac);\nTRANS next(case c.y : FALSE; TRUE : x; esac) != case c.y : FALSE; TRUE : x; esac;\nMODULE cell(a)\nVAR\n  y : boolean;\n";
    let start = "MODULE main VAR x : 0..3; ASSIGN init(x) := 0;";
    let absent = "FEATURE A CHANGE MODULE main IF x = 0 THEN IMPOSE next(x) := 1; END";
    let started =
        "MODULE main\nVAR\n  x : 0..3;\nASSIGN\n  init(x) := 0;\n  next(x) := case x = 0 : 1; TRUE : 0..3; esac;\n";
    let single = "MODULE main VAR x : boolean;";
    let introduced = "FEATURE A INTRODUCE MODULE main VAR a : boolean; END";
    let uses = "FEATURE B CHANGE MODULE main IF a THEN IMPOSE next(x) := 0; END";
    let present =
        "MODULE main\nVAR\n  x : boolean;\nVAR\n  a : boolean;\nASSIGN\n  next(x) := case a : 0; TRUE : {FALSE, TRUE}; esac;\n";
    let rows = [
        (COUNTER, FM1, FAST, "", "Base,Fast", FASTER),
        (COUNTER, FM1, FAST, "", "Fast,Base", FASTER),
        (COUNTER, FM1, FAST, "", "Base", plain),
        (COUNTER, FM1, "", "", "Base,Fast", plain),
        (spelled, FM0, "", "", "Base", canonical),
        (still, TWO, treat, impose, "Base,A,B", treated_first),
        (still, TWO, impose, treat, "Base,A,B", imposed_first),
        (cell, TWO, in_cell, "", "Base,A", celled),
        (start, TWO, absent, "", "Base,A", started),
        (single, TWO, introduced, uses, "Base,A,B", present),
    ];
    for (base, model, first, second, product, want) in rows {
        let files = family(rt.alloc(), base, model, first, second)?;
        let words = ["weave", "m", "fm", "f", "g", "--product", product];
        let (status, written) = call(rt.alloc(), words.as_slice(), files, 0, 0)?;
        assert_eq!(rt; status, Status::Good, "{product}");
        assert!(rt; written.as_slice() == want.as_bytes(), "{product}");
    }
    Ok(())
}

#[test]
fn refuses_files(rt: HostRuntime) -> Result<(), Fail> {
    // Each line is that of the first fault in the order of refusals; a later one stands beside it.
    let unended = "FEATURE Fast CHANGE MODULE main IF x = 2 THEN IMPOSE next(x) := 3;";
    let reserved_feature = "FEATURE Fast INTRODUCE MODULE main VAR fsmv_a : boolean; END";
    let reserved_base = "MODULE main VAR fsmv_x : 0..3;";
    let other = "FEATURE Other CHANGE MODULE main IF x = 2 THEN IMPOSE next(x) := 3; END";
    let impossible = "FEATUREMODEL ROOT Base; OPTIONAL Base : Fast; CONSTRAINT FALSE; END";
    let unknown_main = "MODULE other VAR x : 0..3;";
    let unknown = "FEATURE Fast CHANGE MODULE main IF y = 2 THEN IMPOSE next(x) := 3; END";
    let target = "FEATURE Fast CHANGE MODULE main IF x = 2 THEN IMPOSE next(z) := w; END";
    let elsewhere = "FEATURE Fast CHANGE MODULE other IF x = 2 THEN IMPOSE next(x) := 3; END";
    let assigns = "FEATURE Fast INTRODUCE MODULE main ASSIGN init(x) := 1; END";
    let instance = "FEATURE Fast INTRODUCE MODULE main VAR c : main; x : boolean; END";
    let clash = "FEATURE Fast INTRODUCE MODULE main VAR x : boolean; INIT q; END";
    let wanted = "FEATURE Fast REQUIRE MODULE main VAR x : 0..4; INTRODUCE MODULE main INIT q; END";
    let treats = "FEATURE Fast CHANGE MODULE main TREAT c = 1; IMPOSE x := 1; END";
    let imposes = "FEATURE Fast CHANGE MODULE main IMPOSE init(d) := 1; IMPOSE x := 1; END";
    let always = "MODULE main VAR x : 0..3; c : m; DEFINE d := 1; MODULE m";
    let rows = [
        // readers, file by file
        (
            "MODULE main VAR x 0..3;",
            "",
            "",
            "Base,Fast",
            "refused Syntax 0 18\n",
        ),
        ("", "", "", "", "refused Syntax 0 0\n"),
        (
            "MODULE main VAR x : array 0..1 of boolean;",
            "",
            "",
            "",
            "refused LeftOut 0 20 array\n",
        ),
        (
            "MODULE main INIT 2147483648 = 0",
            "",
            "",
            "",
            "refused WideNumber 0 17\n",
        ),
        (
            reserved_base,
            "FEATUREMODEL ROOT Base; OPTIONAL Base A; END",
            unended,
            "",
            "refused Syntax 1 38\n",
        ),
        (
            reserved_base,
            "FEATUREMODEL ROOT Base; OPTIONAL Base : fsmv_A; END",
            unended,
            "",
            "refused ReservedName 1 40 fsmv_A\n",
        ),
        (
            reserved_base,
            "FEATUREMODEL ROOT Base; OPTIONAL Base : A, A; END",
            unended,
            "",
            "refused DuplicateFeature 1 43 A\n",
        ),
        (
            reserved_base,
            "FEATUREMODEL ROOT Base; OPTIONAL Core : A; END",
            unended,
            "",
            "refused UnknownFeature 1 33 Core\n",
        ),
        (reserved_base, FM1, unended, "", "refused Syntax 2 66\n"),
        // names
        (
            reserved_base,
            FM1,
            reserved_feature,
            "",
            "refused ReservedName 0 16 fsmv_x\n",
        ),
        (
            COUNTER,
            FM0,
            reserved_feature,
            "",
            "refused ReservedName 2 39 fsmv_a\n",
        ),
        (
            COUNTER,
            impossible,
            other,
            "",
            "refused FeatureNotInModel 2 0 Other\n",
        ),
        // products
        (
            unknown_main,
            impossible,
            FAST,
            "Fast",
            "refused NoProduct - -\n",
        ),
        (
            unknown_main,
            FM1,
            FAST,
            "Fast",
            "refused NotValid - - Fast\n",
        ),
        (
            unknown_main,
            FM1,
            FAST,
            "Base,Base",
            "refused NotValid - - Base,Base\n",
        ),
        (
            unknown_main,
            FM1,
            FAST,
            "Base,Other",
            "refused NotValid - - Base,Other\n",
        ),
        (unknown_main, FM1, FAST, "", "refused NotValid - - \n"),
        // names of the base
        (
            unknown_main,
            FM1,
            unknown,
            "Base,Fast",
            "refused UnknownModule - - main\n",
        ),
        (
            "MODULE main VAR x : 0..3; x : boolean; INIT y;",
            FM1,
            unknown,
            "Base,Fast",
            "refused DuplicateName 0 26 x\n",
        ),
        (
            "MODULE main VAR x : 0..3; INIT y.z = 1",
            FM1,
            unknown,
            "Base,Fast",
            "refused UnknownName 0 31 y.z\n",
        ),
        // features
        (
            COUNTER,
            FM1,
            unknown,
            "Base,Fast",
            "refused RequireMissing 2 35 Fast y Base,Fast\n",
        ),
        (
            COUNTER,
            FM1,
            target,
            "Base,Fast",
            "refused RequireMissing 2 46 Fast z Base,Fast\n",
        ),
        (
            COUNTER,
            FM1,
            elsewhere,
            "Fast,Base",
            "refused RequireMissing 2 47 Fast other Base,Fast\n",
        ),
        (
            COUNTER,
            FM1,
            assigns,
            "Base,Fast",
            "refused IntroducedAssign 2 42 Fast x\n",
        ),
        (
            COUNTER,
            FM1,
            instance,
            "Base,Fast",
            "refused IntroducedInstance 2 39 Fast c\n",
        ),
        (
            COUNTER,
            FM1,
            clash,
            "Base,Fast",
            "refused IntroduceClash 2 39 Fast x\n",
        ),
        (
            COUNTER,
            FM1,
            wanted,
            "Base,Fast",
            "refused RequireType 2 37 Fast x\n",
        ),
        (
            always,
            FM1,
            treats,
            "Base,Fast",
            "refused TreatTarget 2 32 c\n",
        ),
        (
            always,
            FM1,
            imposes,
            "Base,Fast",
            "refused ImposeTarget 2 32 d\n",
        ),
        (
            "MODULE main VAR x : 0..3; ASSIGN x := 1;",
            FM1,
            FAST,
            "Base,Fast",
            "refused ImposeKind 2 46 x\n",
        ),
    ];
    for (base, model, feature, product, want) in rows {
        let files = family(rt.alloc(), base, model, feature, "")?;
        let words = ["weave", "m", "fm", "f", "--product", product];
        let (status, written) = call(rt.alloc(), words.as_slice(), files, 0, 0)?;
        assert_eq!(rt; status, Status::Refused, "{want}");
        assert!(rt; written.as_slice() == want.as_bytes(), "{want}");
    }
    Ok(())
}

#[test]
fn refuses_families(rt: HostRuntime) -> Result<(), Fail> {
    let introduces = "FEATURE A INTRODUCE MODULE main VAR a : boolean; END";
    let uses = "FEATURE B CHANGE MODULE main IF a THEN IMPOSE next(x) := 0; END";
    let again = "FEATURE A CHANGE MODULE main IF b THEN IMPOSE next(x) := 0; END";
    let late = "FEATURE B INTRODUCE MODULE main VAR a : 0..1; END";
    let single = "MODULE main VAR x : boolean;";
    let rows = [
        (
            TWO,
            introduces,
            uses,
            "Base,B",
            "refused RequireMissing 3 32 B a Base,B\n",
        ),
        (
            TWO,
            introduces,
            again,
            "Base,B",
            "refused DuplicateText 3 0 A\n",
        ),
        (
            TWO,
            introduces,
            late,
            "Base,A",
            "refused IntroduceClash 2 36 A a\n",
        ),
        (
            LARGE,
            introduces,
            "",
            "Base",
            "refused TooManyFeatures - - 65\n",
        ),
    ];
    for (model, first, second, product, want) in rows {
        let files = family(rt.alloc(), single, model, first, second)?;
        let words = ["weave", "m", "fm", "f", "g", "--product", product];
        let (status, written) = call(rt.alloc(), words.as_slice(), files, 0, 0)?;
        assert_eq!(rt; status, Status::Refused, "{want}");
        assert!(rt; written.as_slice() == want.as_bytes(), "{want}");
    }
    Ok(())
}

#[test]
fn refuses_long_files(rt: HostRuntime) -> Result<(), Fail> {
    let mut files = family(rt.alloc(), "", FM1, FAST, "")?;
    files.insert(
        0,
        (
            String::from_str(rt.alloc(), "m")?,
            vec![in rt.alloc(); 32u8; 16_777_217]?,
        ),
    )?;
    let words = ["weave", "m", "fm", "f", "--product", "Base,Fast"];
    let (status, written) = call(rt.alloc(), words.as_slice(), files, 0, 0)?;
    assert_eq!(rt; status, Status::Refused);
    assert!(rt; written.as_slice() == "refused TooLong 0 0\n".as_bytes());
    Ok(())
}

#[test]
fn reports_its_usage(rt: HostRuntime) -> Result<(), Fail> {
    let rows: [&[&str]; 6] = [
        &[],
        &["prove", "m"],
        &["weave", "m", "--product", "Base"],
        &["weave", "m", "fm", "f"],
        &["weave", "m", "fm", "f", "--products", "Base"],
        &["weave", "m", "fm", "f", "--product", "Base", "Fast"],
    ];
    for words in rows {
        let files = family(rt.alloc(), COUNTER, FM1, FAST, "")?;
        let (status, written) = call(rt.alloc(), words, files, 0, 0)?;
        assert_eq!(rt; status, Status::Usage);
        assert!(rt; written.as_slice() == USAGE.as_bytes());
    }
    Ok(())
}

#[test]
fn reports_outside_faults(rt: HostRuntime) -> Result<(), Fail> {
    let rows = [
        ("m", "f", 1, 0, Status::ReadFault, "fault read 0\n"),
        ("m", "f", 2, 0, Status::ReadFault, "fault read 1\n"),
        ("m", "f", 3, 0, Status::ReadFault, "fault read 2\n"),
        ("n", "f", 0, 0, Status::ReadFault, "fault read 0\n"),
        ("m", "n", 0, 0, Status::ReadFault, "fault read 2\n"),
        ("m", "f", 4, 0, Status::Good, FASTER),
        ("m", "f", 0, 2, Status::WriteFault, "MODULE main\n"),
        ("m", "n", 0, 1, Status::WriteFault, ""),
    ];
    for (base, feature, failing_read, failing_put, want, text) in rows {
        let files = family(rt.alloc(), COUNTER, FM1, FAST, "")?;
        let words = ["weave", base, "fm", feature, "--product", "Base,Fast"];
        let (status, written) = call(
            rt.alloc(),
            words.as_slice(),
            files,
            failing_read,
            failing_put,
        )?;
        assert_eq!(rt; status, want, "{text}");
        assert!(rt; written.as_slice() == text.as_bytes(), "{text}");
    }
    Ok(())
}
