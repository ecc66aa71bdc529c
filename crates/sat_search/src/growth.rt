//! A solver that takes in more variables and axioms.
ghost use Rattle.std.specs.Prelude.{◌≡◌, ℕ, ◌+◌, ◌<◌, ◌^◌, [], ◌++◌, All, length, max, OnOk, OnErr};
ghost use Rattle.sat_arena.specs.Trails.{IsGrown};
ghost use Rattle.sat_arena.specs.ArenaState.{clauses_of, AreGrown};
ghost use Rattle.sat_arena.specs.Deduced.{Deduces};
ghost use Rattle.sat_arena.specs.Justified.{current_level};
ghost use Rattle.sat_search.specs.Solvers.{IsSolver};
ghost use Rattle.sat_search.specs.Axioms.{axioms_from};

use crate::order::Order;
use crate::solver::Solver;
use fsmv_base::{Id, NoMemory};
use proof_log::Log;
use sat_arena::Propagator;
use sat_lits::Clause;
use std::alloc::Global;

impl Solver {
    /// The solver without variables and clauses.
    pub fn new(alloc: Global) -> Solver
        ensures solver { IsSolver result }
        ensures axioms { result.log.axioms ≡ [] }
        ensures lines { result.log.lines ≡ [] }
        ensures vars { result.propagator.vars ≡ 0 }
    {
        let propagator = Propagator::new(alloc);
        let _entries = propagator.entries();
        Solver {
            log: Log::new(alloc),
            propagator,
            order: Order::new(alloc),
        }
    }

    /// Takes in the variables up to this one. After `NoMemory` its log is unchanged.
    pub fn grow(&mut self, vars: u32) -> Result<(), NoMemory>
        requires { IsSolver self.old }
        ensures log { self.new.log ≡ self.old.log }
        ensures solver { OnOk result (IsSolver self.new) }
        ensures vars { OnOk result (self.new.propagator.vars ≡ max self.old.propagator.vars vars) }
        ensures small { OnOk result (vars < 2 ^ 30) }
    {
        self.propagator.grow(vars)?;
        self.order.grow(vars)?;
        let _entries = self.propagator.entries();
        Ok(())
    }

    /// Adds axioms, the first of which gets the number after this count of those that are there. After
    /// `NoMemory` the log is unchanged.
    pub fn add_axioms(&mut self, count: u32, clauses: &[Clause]) -> Result<(), NoMemory>
        requires solver { IsSolver self.old }
        requires count { count ≡ length self.old.log.axioms }
        requires room { count + length clauses.now < 2 ^ 32 }
        requires grown { AreGrown self.old.propagator.vars clauses.now }
        ensures vars { self.new.propagator.vars ≡ self.old.propagator.vars }
        ensures solver { OnOk result (IsSolver self.new) }
        ensures ok { OnOk result (self.new.log
            ≡ record self.old.log { axioms = self.old.log.axioms ++ clauses.now }) }
        ensures err { OnErr result (self.new.log ≡ self.old.log) }
    {
        self.back(0);
        store_axioms(&mut self.propagator, count, clauses)?;
        let _entries = self.propagator.entries();
        self.log.axioms(clauses)?;
        Ok(())
    }
}

/// Stores the axioms at level 0, under the numbers after this count, with what they force there.
fn store_axioms(propagator: &mut Propagator, count: u32, clauses: &[Clause]) -> Result<(), NoMemory>
    requires room { count + length clauses.now < 2 ^ 32 }
    requires grown { AreGrown propagator.old.vars clauses.now }
    requires root { current_level propagator.old.entries ≡ 0 }
    ensures stored { OnOk result (propagator.new.stored
        ≡ propagator.old.stored ++ axioms_from (count + 1) clauses.now) }
    ensures vars { propagator.new.vars ≡ propagator.old.vars }
    ensures deduced { OnOk result (Deduces (clauses_of propagator.new.stored) 0
        propagator.old.entries propagator.new.entries) }
{
    let mut number = count;
    for clause in clauses {
        number += 1;
        propagator.add(clause, Id::Axiom(number))?;
    }
    Ok(())
}
