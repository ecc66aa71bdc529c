ghost use Rattle.std.specs.Prelude.{◌≡◌, ◌∷◌, [], IfOk, Contains};
ghost use Rattle.sat_lits.specs.Steps.{HoldsUnit};
ghost use Rattle.proof_log.specs.Logged.{live_lines, Derives};

use fsmv_base::Id;
use proof_log::*;
use sat_lits::{Clause, Lit};
use std::alloc::Global;
use std::test::Fail;

/// The clause of variable 1.
fn unit(alloc: Global) -> Result<Clause, Fail>
    ensures { IfOk result (λ clause. clause ≡ 2 ∷ []) }
{
    match Clause::new(vec![in alloc; Lit::new(1, true)]?) {
        Some(clause) => Ok(clause),
        None => Err(Fail::new("rising variables")),
    }
}

/// The clause of variables 1 and 2.
fn pair(alloc: Global) -> Result<Clause, Fail>
    ensures { IfOk result (λ clause. clause ≡ 2 ∷ 4 ∷ []) }
{
    match Clause::new(vec![in alloc; Lit::new(1, true), Lit::new(2, true)]?) {
        Some(clause) => Ok(clause),
        None => Err(Fail::new("rising variables")),
    }
}

/// A log whose only axiom is the clause of variable 1.
fn log_of_one(alloc: Global) -> Result<Log, Fail>
    ensures { IfOk result (λ log. log ≡ record { axioms = (2 ∷ []) ∷ []; lines = [] }) }
{
    let mut log = Log::new(alloc);
    log.axioms(&[unit(alloc)?])?;
    Ok(log)
}

/// Derives a clause that holds the axiom's literal.
fn weaken(log: &mut Log, clause: &Clause) -> Result<Id, Fail>
    requires axiom { log.old.axioms ≡ (2 ∷ []) ∷ [] }
    requires holds { Contains clause.now 2 }
    requires plain { HoldsUnit (live_lines log.old.lines) clause.now → ⊥ }
    ensures { IfOk result (Derives log.old clause.now (Id.Axiom 1 ∷ []) log.new) }
{
    Ok(log.derive(clause, &[Id::Axiom(1)])?)
}

#[test]
fn derives_and_retires(rt: HostRuntime) -> Result<(), Fail> {
    let alloc = rt.alloc();
    let pair = pair(alloc)?;
    let unit = unit(alloc)?;
    let mut log = log_of_one(alloc)?;

    assert_eq!(rt; weaken(&mut log, &pair)?, Id::Derived(1));
    assert_eq!(rt; weaken(&mut log, &unit)?, Id::Derived(2));
    log.retire(1);

    assert_eq!(rt; log.derived(), 2);
    assert_eq!(rt; log.clause(1).lits(), pair.lits());
    assert_eq!(rt; log.clause(2).lits(), unit.lits());
    assert_eq!(rt; log.hints(2), [Id::Axiom(1)].as_slice());
    assert_eq!(rt; log.retired(1), Some(2));
    assert_eq!(rt; log.retired(2), None);
    assert_eq!(rt; log.standing(1), 2);
    assert_eq!(rt; log.standing(2), 2);
    Ok(())
}
