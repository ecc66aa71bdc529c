//! Families in text, and the texts of their lifts.

use feature_model::read_model;
use feature_parse::read_features;
use fsmv_lift::lift_text;
use smv_ast::{Family, Fault, Lifted, List, NoMemory, OwnedSpec, OwnedVar, print_program};
use smv_parse::read_program;
use std::alloc::Global;
use std::test::Fail;

/// The lift of a family of three texts: the base, the feature model, one file of features.
fn lift_of(alloc: Global, base: &str, model: &str, features: &str) -> Result<Lifted, Fault> {
    let base = base.as_bytes();
    let model = model.as_bytes();
    let features = features.as_bytes();
    if base.len() > 10_000 || model.len() > 10_000 || features.len() > 10_000 {
        return Err(Fault::NoMemory);
    }
    let model = read_model(alloc, 1, model)?;
    let family = Family {
        base: read_program(alloc, 0, base)?.program,
        model,
        features: read_features(alloc, 2, features)?.features,
    };
    lift_text(alloc, &family)
}

fn is_program(alloc: Global, lifted: &Lifted, expected: &str) -> bool {
    match print_program(alloc, &lifted.program) {
        Ok(text) => text.as_str() == expected,
        Err(NoMemory) => false,
    }
}

fn is_var(owned: &OwnedVar, module: &str, name: &str, feature: u8) -> bool {
    owned.module.as_str() == module && owned.name.as_str() == name && owned.feature == feature
}

fn is_spec(owned: &OwnedSpec, module: &str, section: u32, feature: u8) -> bool {
    owned.module.as_str() == module && owned.section == section && owned.feature == feature
}

fn is_target(answer: Result<Lifted, Fault>, target: &str) -> bool {
    match answer {
        Err(Fault::ImposeTarget { name, .. }) => name.as_str() == target,
        _ => false,
    }
}

const BASE: &str = "MODULE main VAR x : boolean; a : cell(x); ASSIGN next(x) := !x;
MODULE cell(input) VAR v : 0..3; ASSIGN init(v) := 0; next(v) := v; INVARSPEC v < 3;";

/// Up has number 1, and Slow number 2; the file has Slow first.
const MODEL: &str =
    "FEATUREMODEL ROOT Cell; OPTIONAL Cell : Up, Slow; CONSTRAINT !(Up & Slow); END";

const FEATURES: &str = "FEATURE Slow
INTRODUCE MODULE cell
VAR wait : {long, short}; left : -2..2;
ASSIGN init(wait) := short; next(left) := left;
INVAR left < 2;
INVARSPEC v < 2;
CHANGE MODULE cell IF input THEN TREAT v = 1;
END
FEATURE Up
INTRODUCE MODULE main
VAR high : boolean;
INVARSPEC high;
CHANGE MODULE cell IF v = 2 THEN IMPOSE next(v) := 3;
END";

/// Slow is applied before Up. A TREAT acts on right sides, and on no left side and no INVARSPEC.
const LIFT: &str = "MODULE main
VAR
  fsmv_fm : fsmv_features;
VAR
  x : boolean;
  a : cell(fsmv_fm, x);
ASSIGN
  next(x) := !x;
VAR
  high : boolean;
INVARSPEC fsmv_fm.Up -> high;
INVAR fsmv_fm.Up | (high = FALSE);
INIT ((fsmv_fm.Cell & (fsmv_fm.Up -> fsmv_fm.Cell)) & (fsmv_fm.Slow -> fsmv_fm.Cell)) & (!(fsmv_fm.Up & fsmv_fm.Slow));
MODULE cell(fsmv_fm, input)
VAR
  v : 0..3;
ASSIGN
  init(v) := 0;
  next(v) := case fsmv_fm.Up & (v = 2) : 3; TRUE : case fsmv_fm.Slow & input : 1; TRUE : v; esac; esac;
INVARSPEC v < 3;
VAR
  wait : {long, short};
  left : -2..2;
ASSIGN
  init(wait) := case fsmv_fm.Slow : short; TRUE : long; esac;
  next(left) := case fsmv_fm.Slow : left; TRUE : -2; esac;
INVAR fsmv_fm.Slow -> (left < 2);
INVARSPEC fsmv_fm.Slow -> (v < 2);
INVAR fsmv_fm.Slow | (wait = long);
INVAR fsmv_fm.Slow | (left = (-2));
MODULE fsmv_features
VAR
  Cell : boolean;
  Up : boolean;
  Slow : boolean;
ASSIGN
  next(Cell) := Cell;
  next(Up) := Up;
  next(Slow) := Slow;
";

#[test]
fn lift_of_two_features(rt: HostRuntime) -> Result<(), Fail> {
    let alloc = rt.alloc();
    let Ok(lifted) = lift_of(alloc, BASE, MODEL, FEATURES) else {
        panic!(rt; "refused");
    };
    assert!(rt; is_program(alloc, &lifted, LIFT));
    assert!(rt;
        matches!(
            lifted.vars.as_slice(),
            [wait, left, high]
                if is_var(wait, "cell", "wait", 2)
                    && is_var(left, "cell", "left", 2)
                    && is_var(high, "main", "high", 1)
        )
    );
    assert!(rt;
        matches!(
            lifted.specs.as_slice(),
            [slow, up] if is_spec(slow, "cell", 6, 2) && is_spec(up, "main", 4, 1)
        )
    );
    Ok(())
}

#[test]
fn change_without_a_target(rt: HostRuntime) -> Result<(), Fail> {
    let features = "FEATURE Up CHANGE MODULE cell IMPOSE next(w) := 3; END";
    assert!(rt; is_target(lift_of(rt.alloc(), BASE, MODEL, features), "w"));
    Ok(())
}
