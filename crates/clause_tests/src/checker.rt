use fsmv_base::{Id, List};
use proof_check::*;
use sat_lits::{Clause, Lit};
use std::alloc::Global;
use std::test::Fail;

/// The clause of signed variables, as a log writes it.
fn clause(alloc: Global, signed: &[i32]) -> Result<Clause, Fail> {
    let mut lits = Vec::new(alloc);
    for literal in signed {
        let var = literal.unsigned_abs();
        if 1 <= var && var < 1 << 30 {
            lits.push(Lit::new(var, *literal > 0))?;
        }
    }
    Ok(Clause::new(lits).ok_or("rising variables")?)
}

fn clauses(alloc: Global, signed: &[&[i32]]) -> Result<Vec<Clause>, Fail> {
    let mut clauses = Vec::new(alloc);
    for literals in signed {
        clauses.push(clause(alloc, *literals)?)?;
    }
    Ok(clauses)
}

fn derived(alloc: Global, number: u32, signed: &[i32], hints: &[Id]) -> Result<LogLine, Fail> {
    Ok(LogLine::Derived(DerivedLine {
        number,
        clause: clause(alloc, signed)?,
        hints: List::from_slice(alloc, hints)?,
    }))
}

fn answer(checker: &mut Checker, line: &LogLine) -> Result<StepAnswer, Fail> {
    Ok(checker.step(line).ok().ok_or("memory")?)
}

fn checker(alloc: Global, axioms: &[&[i32]], first: u64) -> Result<Checker, Fail> {
    let axioms = clauses(alloc, axioms)?;
    Ok(Checker::new(alloc, &axioms, first).ok().ok_or("memory")?)
}

const A1: Id = Id::Axiom(1);

const A2: Id = Id::Axiom(2);

/// The first line over two axioms, with each way to hint it.
#[test]
fn first_steps(rt: HostRuntime) -> Result<(), Fail> {
    let alloc = rt.alloc();
    let bad = |rule: StepRule| StepAnswer::Bad { line: 9, rule };
    let unit: &[i32] = &[2];
    let falsum: &[i32] = &[];
    for (signed, number, hints, expected) in [
        (unit, 1, [A1, A2].as_slice(), StepAnswer::Ok),
        (unit, 1, [A2, A1].as_slice(), StepAnswer::Ok),
        (unit, 1, [A2].as_slice(), bad(StepRule::Step)),
        (unit, 1, [A1, A2, A2].as_slice(), bad(StepRule::Step)),
        (unit, 1, [A1, Id::Axiom(0)].as_slice(), bad(StepRule::Step)),
        (unit, 1, [A1, Id::Axiom(3)].as_slice(), bad(StepRule::Step)),
        (
            unit,
            1,
            [A1, Id::Derived(1)].as_slice(),
            bad(StepRule::Step),
        ),
        (unit, 2, [A1, A2].as_slice(), bad(StepRule::Number)),
        (falsum, 1, [A1, A2].as_slice(), bad(StepRule::Step)),
    ] {
        let mut checker = checker(alloc, &[&[1, 2], &[-1, 2]], 9)?;
        let line = derived(alloc, number, signed, hints)?;
        assert_eq!(rt; answer(&mut checker, &line)?, expected);
    }
    Ok(())
}

#[test]
fn empty_clause(rt: HostRuntime) -> Result<(), Fail> {
    let alloc = rt.alloc();
    let mut checker = checker(alloc, &[&[1], &[-1]], 1)?;
    let line = derived(alloc, 1, &[], &[A1, A2])?;
    assert_eq!(rt; answer(&mut checker, &line)?, StepAnswer::Ok);
    Ok(())
}

/// A line is retired, and then neither repeated nor used. The first bad answer stays.
#[test]
fn retired_lines(rt: HostRuntime) -> Result<(), Fail> {
    let alloc = rt.alloc();
    let axioms: [&[i32]; 5] = [&[1, 2], &[-1, 2], &[2, 3, 4], &[2, 3, -4], &[-2, 3]];
    let start = [
        derived(alloc, 1, &[2, 3], &[Id::Axiom(3), Id::Axiom(4)])?,
        derived(alloc, 2, &[2], &[A1, A2])?,
        LogLine::Retired(1),
    ];
    for (line, rule) in [
        (
            derived(alloc, 3, &[2, 3], &[Id::Axiom(3), Id::Axiom(4)])?,
            StepRule::Repeat,
        ),
        (derived(alloc, 3, &[2], &[A1, A2])?, StepRule::Repeat),
        (
            derived(alloc, 3, &[3], &[Id::Derived(1), Id::Axiom(5)])?,
            StepRule::Step,
        ),
        (LogLine::Retired(1), StepRule::Retire),
        (LogLine::Retired(2), StepRule::Retire),
        (LogLine::Retired(3), StepRule::Retire),
        (LogLine::Retired(0), StepRule::Retire),
    ] {
        let mut checker = checker(alloc, &axioms, 1)?;
        for kept in &start {
            assert_eq!(rt; answer(&mut checker, kept)?, StepAnswer::Ok);
        }
        let bad = StepAnswer::Bad { line: 4, rule };
        assert_eq!(rt; answer(&mut checker, &line)?, bad);
        let good = derived(alloc, 3, &[3], &[Id::Derived(2), Id::Axiom(5)])?;
        assert_eq!(rt; answer(&mut checker, &good)?, bad);
    }
    Ok(())
}

/// A line number at the last value of a `u64` stays there.
#[test]
fn last_line_number(rt: HostRuntime) -> Result<(), Fail> {
    let alloc = rt.alloc();
    let mut checker = checker(alloc, &[&[1, 2], &[-1, 2]], u64::MAX)?;
    let line = derived(alloc, 1, &[2], &[A1, A2])?;
    assert_eq!(rt; answer(&mut checker, &line)?, StepAnswer::Ok);
    let bad = StepAnswer::Bad {
        line: u64::MAX,
        rule: StepRule::Number,
    };
    assert_eq!(rt; answer(&mut checker, &line)?, bad);
    Ok(())
}
