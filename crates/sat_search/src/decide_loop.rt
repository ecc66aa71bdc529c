//! Decisions, until all variables have values or something stands against it.
ghost use Rattle.std.specs.Prelude.{◌≡◌, ℕ, ◌+◌, ◌<◌, ◌≤◌, true, List, length, All, Contains, ◌⊎◌, IfOk, IfNone, IfSome, OnOk};
ghost use Rattle.sat_arena.specs.Trails.{true_in, IsGrown};
ghost use Rattle.sat_search.specs.Assumed.{AllTrue, AssumesFirst};
ghost use Rattle.sat_search.specs.Solvers.{IsSolver};
ghost use Rattle.sat_search.specs.Orders.{IsOpen};
ghost use Rattle.sat_search.specs.LoopEnds.{AreSettled, IsNewConflict, HasLoopEnd};

use crate::solver::Solver;
use fsmv_base::NoMemory;
use sat_lits::Lit;

/// Where a decide_loop ends.
pub enum LoopEnd {
    /// Every variable has a value, no clause is false, and all assumptions are true.
    Model,
    /// This assumption is false.
    Refused(Lit),
    /// The clause at this position is false.
    Conflict(u32),
}

impl Solver {
    /// Makes the assumptions true and then decides variable after variable, propagating in between,
    /// until all have values or an assumption or a clause is false.
    pub fn decide_all(&mut self, assumptions: &[Lit]) -> Result<LoopEnd, NoMemory>
        requires solver { IsSolver self.old }
        requires grown { All (IsGrown self.old.propagator.vars) assumptions.now }
        requires assumes { AssumesFirst assumptions.now self.old.propagator.entries }
        ensures others { self.new ≡ record self.old
            { propagator = self.new.propagator; order = self.new.order } }
        ensures vars { self.new.propagator.vars ≡ self.old.propagator.vars }
        ensures solver { IsSolver self.new }
        ensures assumes { AssumesFirst assumptions.now self.new.propagator.entries }
        ensures ended { IfOk result (HasLoopEnd assumptions.now self.new) }
    {
        if let Some(position) = self.propagate() {
            return Ok(LoopEnd::Conflict(position));
        }
        if let Some(end) = self.assume(assumptions)? {
            return Ok(end);
        }
        self.decide_open(assumptions)
    }

    /// Makes the assumptions true, each at a level of its own where it is not true already. `None` where
    /// all are.
    fn assume(&mut self, assumptions: &[Lit]) -> Result<Option<LoopEnd>, NoMemory>
        requires solver { IsSolver self.old }
        requires settled { AreSettled self.old }
        requires grown { All (IsGrown self.old.propagator.vars) assumptions.now }
        requires assumes { AssumesFirst assumptions.now self.old.propagator.entries }
        ensures others { self.new ≡ record self.old { propagator = self.new.propagator } }
        ensures vars { self.new.propagator.vars ≡ self.old.propagator.vars }
        ensures solver { IsSolver self.new }
        ensures assumes { AssumesFirst assumptions.now self.new.propagator.entries }
        ensures ended { IfOk result (λ end. IfSome end (HasLoopEnd assumptions.now self.new)) }
        ensures settled { IfOk result (λ end. IfNone end (AreSettled self.new)) }
        ensures assumed { IfOk result
            (λ end. IfNone end (AllTrue assumptions.now self.new.propagator.entries)) }
    {
        for assumption in assumptions {
            let lit = *assumption;
            if self.propagator.trail().is_true(lit) {
                continue;
            }
            if self.propagator.trail().is_true(lit.negate()) {
                return Ok(Some(LoopEnd::Refused(lit)));
            }
            if let Some(position) = self.decide_and_propagate(lit)? {
                return Ok(Some(LoopEnd::Conflict(position)));
            }
        }
        Ok(None)
    }

    /// Decides variables by their activity, until all have values. All assumptions are true by then.
    fn decide_open(&mut self, assumptions: &[Lit]) -> Result<LoopEnd, NoMemory>
        requires solver { IsSolver self.old }
        requires settled { AreSettled self.old }
        requires assumes { AssumesFirst assumptions.now self.old.propagator.entries }
        requires assumed { AllTrue assumptions.now self.old.propagator.entries }
        ensures others { self.new ≡ record self.old
            { propagator = self.new.propagator; order = self.new.order } }
        ensures vars { self.new.propagator.vars ≡ self.old.propagator.vars }
        ensures solver { IsSolver self.new }
        ensures assumes { AssumesFirst assumptions.now self.new.propagator.entries }
        ensures ended { IfOk result (HasLoopEnd assumptions.now self.new) }
    {
        while let Some(lit) = self.order.next(self.propagator.trail()) {
            if let Some(position) = self.decide_and_propagate(lit)? {
                return Ok(LoopEnd::Conflict(position));
            }
        }
        Ok(LoopEnd::Model)
    }

    /// Decides the literal, and makes true what follows. Where a clause is false then, answers its position.
    fn decide_and_propagate(&mut self, lit: Lit) -> Result<Option<u32>, NoMemory>
        requires solver { IsSolver self.old }
        requires settled { AreSettled self.old }
        requires undecided { IsOpen (true_in self.old.propagator.entries) self.old.propagator.vars lit }
        ensures others { self.new ≡ record self.old { propagator = self.new.propagator } }
        ensures vars { self.new.propagator.vars ≡ self.old.propagator.vars }
        ensures solver { IsSolver self.new }
        ensures true_now { IfOk result (λ _. true_in self.new.propagator.entries lit ≡ true) }
        ensures kept { (l : ℕ) → true_in self.old.propagator.entries l ≡ true
            → true_in self.new.propagator.entries l ≡ true }
        ensures assumes { (assumptions : List ℕ) → AssumesFirst assumptions self.old.propagator.entries
            → (Contains assumptions lit ⊎ AllTrue assumptions self.old.propagator.entries)
            → AssumesFirst assumptions self.new.propagator.entries }
        ensures longer { OnOk result
            (length self.old.propagator.entries < length self.new.propagator.entries) }
        ensures few { length self.new.propagator.entries ≤ self.new.propagator.vars + 1 }
        ensures settled { IfOk result (λ conflict. IfNone conflict (AreSettled self.new)) }
        ensures conflict { IfOk result (λ conflict. IfSome conflict (IsNewConflict self.new)) }
    {
        self.decide(lit)?;
        Ok(self.propagate())
    }
}
