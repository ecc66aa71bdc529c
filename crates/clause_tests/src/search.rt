ghost use Rattle.std.specs.Prelude.{◌≡◌, ◌≤◌, All, IfOk, IsTrue};
ghost use Rattle.sat_arena.specs.Trails.{IsGrown};

use fsmv_base::Id;
use sat_lits::{Clause, Lit};
use sat_search::*;
use std::alloc::Global;
use std::test::Fail;

/// The literals of signed variables, as a log writes them.
fn literals(alloc: Global, signed: &[i32]) -> Result<Vec<Lit>, Fail> {
    let mut lits = Vec::new(alloc);
    for literal in signed {
        let var = literal.unsigned_abs();
        if 1 <= var && var < 1 << 30 {
            lits.push(Lit::new(var, *literal > 0))?;
        }
    }
    Ok(lits)
}

/// Whether all variables of the literals lie up to this one.
fn are_grown(lits: &[Lit], vars: u32) -> bool
    ensures { IsTrue result → All (IsGrown vars) lits.now }
{
    for lit in lits {
        if lit.var() > vars {
            return false;
        }
    }
    true
}

/// Adds the clause, over variables that are grown up to this one.
fn add(alloc: Global, session: &mut Session, vars: u32, signed: &[i32]) -> Result<(), Fail>
    requires { vars ≤ session.old.vars }
    ensures { session.new.vars ≡ session.old.vars }
{
    let clause = Clause::new(literals(alloc, signed)?).ok_or("rising variables")?;
    if !are_grown(clause.lits(), vars) {
        return Err("a variable too many")?;
    }
    session.add_axioms(&[clause])?;
    Ok(())
}

/// Adds the clauses of two literals, over variables that are grown up to this one.
fn add_pairs(
    alloc: Global,
    session: &mut Session,
    vars: u32,
    pairs: &[[i32; 2]],
) -> Result<(), Fail>
    requires { vars ≤ session.old.vars }
    ensures { session.new.vars ≡ session.old.vars }
{
    for signed in pairs {
        add(alloc, session, vars, signed)?;
    }
    Ok(())
}

/// Solves under signed assumptions, over variables that are grown up to this one, and fails where the
/// answer or the count of derived lines is another one.
fn expect(
    alloc: Global,
    session: &mut Session,
    vars: u32,
    signed: &[i32],
    most: u32,
    wanted: (Answer, u32),
) -> Result<(), Fail>
    requires { vars ≤ session.old.vars }
    ensures { session.new.vars ≡ session.old.vars }
{
    let assumptions = literals(alloc, signed)?;
    if !are_grown(&assumptions, vars) || clash(&assumptions) {
        return Err("assumptions that clash, or a variable too many")?;
    }
    let answer = session.solve(&assumptions, most)?;
    if answer != wanted.0 || session.log().derived() != wanted.1 {
        return Err("another answer, or another count of lines")?;
    }
    Ok(())
}

/// Fails where there is no model under signed assumptions, or one in which the variable has another
/// value.
fn expect_value(
    alloc: Global,
    session: &mut Session,
    signed: &[i32],
    var: u32,
    value: bool,
) -> Result<(), Fail>
    requires { 4 ≤ session.old.vars }
    ensures { session.new.vars ≡ session.old.vars }
{
    let assumptions = literals(alloc, signed)?;
    if !are_grown(&assumptions, 4) || clash(&assumptions) {
        return Err("assumptions that clash, or a variable too many")?;
    }
    let Answer::Model = session.solve(&assumptions, 9)? else {
        return Err("no model")?;
    };
    if session.value(var) != value {
        return Err("another value")?;
    }
    Ok(())
}

/// A derived line as a Core.
fn core(number: u32) -> Answer {
    Answer::Core {
        id: Id::Derived(number),
    }
}

#[test]
fn two_variables_are_refuted_in_two_lines(rt: HostRuntime) -> Result<(), Fail> {
    let alloc = rt.alloc();
    let mut session = Session::new(alloc);
    session.grow(2)?;
    add_pairs(
        alloc,
        &mut session,
        2,
        &[[1, 2], [1, -2], [-1, 2], [-1, -2]],
    )?;
    expect(alloc, &mut session, 2, &[], 0, (Answer::Spent, 0))?;
    expect(alloc, &mut session, 2, &[], 10, (core(2), 2))?;
    let log = session.log();
    assert_eq!(rt; log.derived(), 2);
    assert_eq!(rt; log.clause(2).lits().len(), 0);
    assert_eq!(rt; session.asked(), 2);
    Ok(())
}

/// A session in which 1 implies 2, 2 implies 3, and 3 and 4 exclude each other.
fn implications(alloc: Global) -> Result<Session, Fail>
    ensures { IfOk result (λ session. session.vars ≡ 4) }
{
    let mut session = Session::new(alloc);
    session.grow(4)?;
    add_pairs(alloc, &mut session, 4, &[[-1, 2], [-2, 3], [-3, -4]])?;
    Ok(session)
}

#[test]
fn assumptions_give_models_and_cores(rt: HostRuntime) -> Result<(), Fail> {
    let alloc = rt.alloc();
    let mut session = implications(alloc)?;
    expect_value(alloc, &mut session, &[1], 3, true)?;
    expect_value(alloc, &mut session, &[1], 4, false)?;

    // The clause that 1 and 4 exclude each other is derived once, and found again.
    expect(alloc, &mut session, 4, &[1, 4], 9, (core(1), 1))?;
    expect(alloc, &mut session, 4, &[4, 1], 0, (core(1), 1))?;
    Ok(())
}

#[test]
fn a_core_is_derived_before_the_model(rt: HostRuntime) -> Result<(), Fail> {
    let alloc = rt.alloc();
    let mut session = Session::new(alloc);
    session.grow(4)?;
    add_pairs(alloc, &mut session, 4, &[[1, 2], [-1, 2]])?;
    expect(alloc, &mut session, 4, &[-2], 10, (core(1), 1))?;
    let log = session.log();
    assert_eq!(rt; log.derived(), 1);
    let two = literals(alloc, &[2])?;
    assert_eq!(rt; log.clause(1).lits(), two.as_slice());
    expect_value(alloc, &mut session, &[], 2, true)?;
    Ok(())
}

#[test]
fn later_axioms_count(rt: HostRuntime) -> Result<(), Fail> {
    let alloc = rt.alloc();
    let mut session = implications(alloc)?;
    add(alloc, &mut session, 4, &[4])?;
    expect_value(alloc, &mut session, &[], 1, false)?;
    let fourth = Answer::Core { id: Id::Axiom(4) };
    expect(alloc, &mut session, 4, &[-4], 9, (fourth, 0))?;
    Ok(())
}

#[test]
fn an_ended_session_answers_no_memory(rt: HostRuntime) -> Result<(), Fail> {
    let alloc = rt.alloc();
    let mut session = Session::new(alloc);
    session.end();
    assert!(rt; session.ended());
    assert!(rt; session.solve(&[], 9).is_err());
    assert_eq!(rt; session.asked(), 1);
    Ok(())
}

#[test]
fn literals_clash_with_their_negations(rt: HostRuntime) -> Result<(), Fail> {
    let alloc = rt.alloc();
    assert!(rt; clash(&literals(alloc, &[1, -1])?));
    assert!(rt; !clash(&literals(alloc, &[1, 2, 1])?));
    Ok(())
}
