//! Lines and clauses that a derived unit clause satisfies, which are taken out as a search begins.
ghost use Rattle.std.specs.Prelude.{◌≡◌, ℕ, ◌<◌, ◌≤◌, ◌^◌, ◌∷◌, [], true, All, length, IfOk, IfNone, IfSome, OnOk, OnErr};
ghost use Rattle.proof_log.specs.IsSound.{IsSound};
ghost use Rattle.sat_arena.specs.Trails.{marked};
ghost use Rattle.sat_arena.specs.ArenaState.{among, clause_satisfied, IsUnitOf};
ghost use Rattle.sat_arena.specs.Justified.{current_level};
ghost use Rattle.sat_search.specs.Additions.{retire_all};
ghost use Rattle.sat_search.specs.Retirements.{IsUnitLine, RetiresLine, RetiresSome};
ghost use Rattle.sat_search.specs.Solvers.{IsSolver};

use crate::literal_set::LiteralSet;
use crate::solver::Solver;
use fsmv_base::NoMemory;
use proof_log::Log;
use sat_arena::clause_satisfied;
use sat_lits::Lit;
use std::alloc::Global;

impl Solver {
    /// Retires the live lines of two or more literals that hold the literal of a unit clause, among those
    /// derived after the first `seen` lines, and takes the clauses with such a literal out of the propagator.
    /// Where there is no such unit clause, it takes time for the new lines alone. After `NoMemory` the log is
    /// unchanged.
    pub fn retire(
        &mut self,
        alloc: Global,
        units: &mut LiteralSet,
        seen: u32,
        vars: u32,
    ) -> Result<(), NoMemory>
        requires solver { IsSolver self.old }
        requires vars { vars ≡ self.old.propagator.vars }
        requires small { vars < 2 ^ 30 }
        ensures vars { self.new.propagator.vars ≡ self.old.propagator.vars }
        ensures solver { OnOk result (IsSolver self.new) }
        ensures ok { OnOk result (RetiresSome self.old.log self.new.log) }
        ensures err { OnErr result (self.new.log ≡ self.old.log) }
    {
        let found = units_after(alloc, &self.log, seen)?;
        if found.is_empty() {
            return Ok(());
        }
        let _lines = self.log.derived();
        units.fill(&found, vars)?;
        self.back(0);
        self.take_out(&found, units.flags())
    }

    /// Takes out the lines and clauses of two or more literals of which one is the literal of a unit clause. The
    /// flags of these are set, by their codes. Once a clause was refuted, nothing changes.
    fn take_out(&mut self, units: &[Lit], unit_flags: &[bool]) -> Result<(), NoMemory>
        requires solver { IsSolver self.old }
        requires level { current_level self.old.propagator.entries ≡ 0 }
        requires units { All (IsUnitLine self.old.log.lines) units.now }
        requires flags { (l : ℕ) → marked unit_flags.now l ≡ among units.now l }
        ensures vars { self.new.propagator.vars ≡ self.old.propagator.vars }
        ensures solver { OnOk result (IsSolver self.new) }
        ensures ok { OnOk result (RetiresSome self.old.log self.new.log) }
        ensures err { OnErr result (self.new.log ≡ self.old.log) }
    {
        let _lines = self.log.derived();
        match self.propagator.reclaim(units)? {
            None => Ok(()),
            Some(_) => {
                let _entries = self.propagator.entries();
                retire_lines(&mut self.log, unit_flags);
                Ok(())
            }
        }
    }
}

/// The literals of the unit clauses among the lines after the first ones.
fn units_after(alloc: Global, log: &Log, seen: u32) -> Result<Vec<Lit>, NoMemory>
    ensures { IfOk result (λ units. All (IsUnitLine log.now.lines) units.items) }
{
    let mut units = Vec::new(alloc);
    for before in seen..log.derived() {
        if let Some(lit) = unit_of(log.clause(before + 1).lits()) {
            units.push(lit)?;
        }
    }
    Ok(units)
}

/// The literal of a unit clause.
fn unit_of(lits: &[Lit]) -> Option<Lit>
    ensures { IfSome result (λ l. IsUnitOf l lits.now) }
{
    if lits.len() == 1 {
        return Some(lits[0]);
    }
    None
}

/// Retires the live lines of two or more literals of which one is in the set.
fn retire_lines(log: &mut Log, literal_set: &[bool])
    requires units { (l : ℕ) → marked literal_set.now l ≡ true → IsUnitLine log.old.lines l }
    ensures { log.new ≡ record log.old
        { lines = retire_all (clause_satisfied (marked literal_set.now)) log.old.lines } }
{
    for before in 0..log.derived() {
        retire_line(log, before + 1, literal_set);
    }
}

/// Retires the line of this number, where it is live, has two or more literals and one of them is in the set.
fn retire_line(log: &mut Log, number: u32, literal_set: &[bool])
    requires numbered { 1 ≤ number }
    requires derived { number ≤ length log.old.lines }
    requires units { (l : ℕ) → marked literal_set.now l ≡ true → IsUnitLine log.old.lines l }
    ensures { RetiresLine (clause_satisfied (marked literal_set.now)) number log.old log.new }
{
    let _lines = log.derived();
    if let Some(_) = log.retired(number) {
        return;
    }
    if !clause_satisfied(log.clause(number).lits(), literal_set) {
        return;
    }
    log.retire(number);
}
