//! How a search ends without a model.
ghost use Rattle.std.specs.Prelude.{◌≡◌, ℕ, ◌<◌, ◌≤◌, true, length, All, Contains, IfOk, IfSome, IfNone, OnOk, OnErr};
ghost use Rattle.sat_lits.specs.Literals.{negation};
ghost use Rattle.sat_lits.specs.Steps.{IsRupStep, IsFalsified, HoldsUnit, IsLive};
ghost use Rattle.proof_log.specs.Logged.{live_lines};
ghost use Rattle.proof_log.specs.IsSound.{IsSound};
ghost use Rattle.sat_arena.specs.Trails.{true_in, up_to, marked, IsGrown};
ghost use Rattle.sat_arena.specs.Settled.{IsSettled};
ghost use Rattle.sat_arena.specs.Justified.{current_level};
ghost use Rattle.sat_search.specs.Clashes.{HasClash};
ghost use Rattle.sat_search.specs.Assumed.{assumed, AssumesFirst, NoneIsFalsifiedUnder};
ghost use Rattle.sat_search.specs.Solvers.{IsSolver};
ghost use Rattle.sat_search.specs.LoopEnds.{IsNewConflict};
ghost use Rattle.sat_search.specs.Endings.{IsEnd, Records, EndsBy, Refutes, IsRefused};

use crate::answer::Answer;
use crate::solver::Solver;
use fsmv_base::{Id, NoMemory};
use sat_analyze::{Analyzer, Learnt};
use sat_lits::{Clause, Lit};

impl Solver {
    /// The answer that needs no more lines: a clause that holds only negated assumptions, or else that
    /// the log has as many lines as are allowed.
    pub fn known_answer(
        &self,
        assumptions: &[Lit],
        literal_set: &[bool],
        most: u32,
    ) -> Option<Answer>
        requires solver { IsSolver self.now }
        requires literal_set { (l : ℕ) → marked literal_set.now l ≡ assumed assumptions.now l }
        ensures some { IfSome result (IsEnd (marked literal_set.now) self.now.log most) }
        ensures none { IfNone result (NoneIsFalsifiedUnder (marked literal_set.now) self.now.log) }
        ensures room { IfNone result (length self.now.log.lines < most) }
    {
        if let Some(position) = self.find_core(assumptions, literal_set) {
            let id = self.id_at(position);
            return Some(Answer::Core { id });
        }
        if self.log.derived() >= most {
            return Some(Answer::Spent);
        }
        None
    }

    /// Adds a clause that the hints derive to the arena and then to the log, and answers its id. After
    /// `NoMemory` the log is unchanged.
    pub fn record(&mut self, clause: &Clause, hints: &[Id]) -> Result<Id, NoMemory>
        requires grown { All (IsGrown self.old.propagator.vars) clause.now }
        requires right { IsRupStep self.old.log.axioms (live_lines self.old.log.lines) clause.now
            hints.now }
        requires plain { HoldsUnit (live_lines self.old.log.lines) clause.now → ⊥ }
        requires fresh { IsLive (live_lines self.old.log.lines) clause.now → ⊥ }
        requires settled { (k : ℕ) → k < current_level self.old.propagator.entries
            → IsSettled (true_in (up_to k self.old.propagator.entries)) clause.now }
        requires not_false { 0 < current_level self.old.propagator.entries
            → IsFalsified (true_in self.old.propagator.entries) clause.now → ⊥ }
        ensures others { self.new ≡ record self.old { log = self.new.log; propagator = self.new.propagator } }
        ensures ok { IfOk result (Records self.old self.new clause.now hints.now) }
        ensures sound { IsSound self.old.log }
        ensures vars { self.new.propagator.vars ≡ self.old.propagator.vars }
        ensures err { OnErr result (self.new.log ≡ self.old.log) }
    {
        let Some(number) = self.log.derived().checked_add(1) else {
            return Err(NoMemory);
        };
        let id = Id::Derived(number);
        self.propagator.add(clause, id)?;
        let _entries = self.propagator.entries();
        self.log.derive(clause, hints)?;
        Ok(id)
    }

    /// The answer where an assumption is false: the clause of the assumptions that make it so.
    pub fn refuse(
        &mut self,
        analyzer: &mut Analyzer,
        assumptions: &[Lit],
        literal_set: &[bool],
        most: u32,
        lit: Lit,
    ) -> Result<Answer, NoMemory>
        requires solver { IsSolver self.old }
        requires literal_set { (l : ℕ) → marked literal_set.now l ≡ assumed assumptions.now l }
        requires refused { IsRefused (marked literal_set.now) self.old.propagator.entries lit }
        ensures vars { self.new.propagator.vars ≡ self.old.propagator.vars }
        ensures solver { OnOk result (IsSolver self.new) }
        ensures ok { IfOk result (EndsBy (marked literal_set.now) self.old.log self.new.log most) }
        ensures err { OnErr result (self.new.log ≡ self.old.log) }
    {
        if let Some(answer) = self.known_answer(assumptions, literal_set, most) {
            return Ok(answer);
        }
        let learnt = self.explain(analyzer, lit)?;
        self.conclude(literal_set, most, &learnt)
    }

    /// The answer where a clause is false at level 0: the empty clause.
    pub fn refute(
        &mut self,
        analyzer: &mut Analyzer,
        assumptions: &[Lit],
        literal_set: &[bool],
        most: u32,
        position: u32,
    ) -> Result<Answer, NoMemory>
        requires solver { IsSolver self.old }
        requires literal_set { (l : ℕ) → marked literal_set.now l ≡ assumed assumptions.now l }
        requires root { current_level self.old.propagator.entries ≡ 0 }
        requires conflict { IsNewConflict self.old position }
        ensures vars { self.new.propagator.vars ≡ self.old.propagator.vars }
        ensures solver { OnOk result (IsSolver self.new) }
        ensures ok { IfOk result (EndsBy (marked literal_set.now) self.old.log self.new.log most) }
        ensures err { OnErr result (self.new.log ≡ self.old.log) }
    {
        if let Some(answer) = self.known_answer(assumptions, literal_set, most) {
            return Ok(answer);
        }
        let learnt = self.learn(analyzer, position)?;
        self.conclude(literal_set, most, &learnt)
    }

    /// Adds the clause, which holds only negated assumptions, and answers with it.
    fn conclude(
        &mut self,
        literal_set: &[bool],
        most: u32,
        learnt: &Learnt,
    ) -> Result<Answer, NoMemory>
        requires solver { IsSolver self.old }
        requires refutes { Refutes (marked literal_set.now) self.old learnt.now.clause
            learnt.now.hints }
        requires room { length self.old.log.lines < most }
        ensures vars { self.new.propagator.vars ≡ self.old.propagator.vars }
        ensures solver { OnOk result (IsSolver self.new) }
        ensures ok { IfOk result (EndsBy (marked literal_set.now) self.old.log self.new.log most) }
        ensures err { OnErr result (self.new.log ≡ self.old.log) }
    {
        self.back(0);
        let id = self.record(&learnt.clause, learnt.hints.as_slice())?;
        Ok(Answer::Core { id })
    }
}
