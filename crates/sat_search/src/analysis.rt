//! What is asked of the clauses and the trail together.
ghost use Rattle.std.specs.Prelude.{◌≡◌, ℕ, ◌<◌, [], true, All, length, map, slice_index_or, IfOk, IfSome, IfNone};
ghost use Rattle.sat_lits.specs.Literals.{negation};
ghost use Rattle.sat_lits.specs.Steps.{IsFalsified};
ghost use Rattle.sat_arena.specs.Trails.{true_in, marked};
ghost use Rattle.sat_arena.specs.ArenaState.{clauses_of};
ghost use Rattle.sat_arena.specs.Justified.{IsDecision};
ghost use Rattle.sat_analyze.specs.Learnt.{IsLearnt, IsFinal};
ghost use Rattle.sat_search.specs.Assumed.{assumed};
ghost use Rattle.sat_search.specs.Solvers.{IsSolver};
ghost use Rattle.sat_search.specs.LoopEnds.{IsNewConflict};

use crate::solver::Solver;
use fsmv_base::{Id, NoMemory};
use sat_analyze::{Analyzer, Learnt};
use sat_lits::Lit;

impl Solver {
    /// The clause to be learnt from the false one at the position.
    pub fn learn(&self, analyzer: &mut Analyzer, position: u32) -> Result<Learnt, NoMemory>
        requires solver { IsSolver self.now }
        requires conflict { IsNewConflict self.now position }
        ensures { IfOk result
            (IsLearnt self.now.propagator.stored self.now.propagator.entries) }
    {
        analyzer.learn(self.propagator.arena(), self.propagator.trail(), position)
    }

    /// The clause that says from which decisions the literal is false.
    pub fn explain(&self, analyzer: &mut Analyzer, lit: Lit) -> Result<Learnt, NoMemory>
        requires solver { IsSolver self.now }
        requires false_there { true_in self.now.propagator.entries (negation lit) ≡ true }
        requires undecided { IsDecision self.now.propagator.entries (negation lit) → ⊥ }
        ensures { IfOk result
            (IsFinal self.now.propagator.stored self.now.propagator.entries lit) }
    {
        analyzer.final_clause(self.propagator.arena(), self.propagator.trail(), lit)
    }

    /// The position of a clause that holds only negated assumptions.
    pub fn find_core(&self, assumptions: &[Lit], literal_set: &[bool]) -> Option<u32>
        requires { (l : ℕ) → marked literal_set.now l ≡ assumed assumptions.now l }
        ensures some { IfSome result (λ position. (position < length self.now.propagator.stored)
            × IsFalsified (marked literal_set.now)
            (slice_index_or (clauses_of self.now.propagator.stored) position [])) }
        ensures none { IfNone result (All (λ clause. IsFalsified (marked literal_set.now) clause → ⊥)
            (clauses_of self.now.propagator.stored)) }
    {
        self.propagator.find_falsified(assumptions, literal_set)
    }

    /// The id of the clause at the position.
    pub fn id_at(&self, position: u32) -> Id
        requires { position < length self.now.propagator.stored }
        ensures { result
            ≡ slice_index_or (map (λ s. s.id) self.now.propagator.stored) position result }
    {
        self.propagator.arena().id(position)
    }
}
