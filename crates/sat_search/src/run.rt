//! The loop of a search.
ghost use Rattle.std.specs.Prelude.{◌≡◌, ℕ, ◌<◌, ◌≤◌, ◌^◌, All, IfOk, IfSome, IfNone, OnOk, OnErr};
ghost use Rattle.sat_arena.specs.Trails.{marked, IsGrown};
ghost use Rattle.sat_search.specs.Clashes.{HasClash};
ghost use Rattle.sat_search.specs.Assumed.{assumed, AssumesFirst};
ghost use Rattle.sat_search.specs.Solvers.{IsSolver};
ghost use Rattle.sat_search.specs.Endings.{AddsNewLine, Finishes, ContinuesTo, RunsTo};

use crate::answer::Answer;
use crate::decide_loop::LoopEnd;
use crate::restarts::Restarts;
use crate::solver::Solver;
use fsmv_base::NoMemory;
use sat_analyze::Analyzer;
use sat_lits::Lit;

impl Solver {
    /// Searches until there is a model, which then is on the trail, or an answer without one. The set has a
    /// flag for each assumption, by its code.
    pub fn run(
        &mut self,
        analyzer: &mut Analyzer,
        assumptions: &[Lit],
        literal_set: &[bool],
        most: u32,
    ) -> Result<Answer, NoMemory>
        requires solver { IsSolver self.old }
        requires grown { All (IsGrown self.old.propagator.vars) assumptions.now }
        requires no_clash { HasClash assumptions.now → ⊥ }
        requires literal_set { (l : ℕ) → marked literal_set.now l ≡ assumed assumptions.now l }
        ensures vars { self.new.propagator.vars ≡ self.old.propagator.vars }
        ensures solver { OnOk result (IsSolver self.new) }
        ensures ok { IfOk result (RunsTo (marked literal_set.now) assumptions.now self.old.log
            self.new most) }
        ensures err { OnErr result (ContinuesTo self.old.log self.new.log most) }
    {
        self.back(0);
        let mut restarts = Restarts::new();
        loop {
            let restart = restarts.count();
            if let Some(answer) = self.search_round(
                analyzer,
                assumptions,
                literal_set,
                most,
                restart,
            )? {
                return Ok(answer);
            }
        }
    }

    /// Descends, and meets the conflict that this ends at, or answers.
    fn search_round(
        &mut self,
        analyzer: &mut Analyzer,
        assumptions: &[Lit],
        literal_set: &[bool],
        most: u32,
        restart: bool,
    ) -> Result<Option<Answer>, NoMemory>
        requires solver { IsSolver self.old }
        requires grown { All (IsGrown self.old.propagator.vars) assumptions.now }
        requires no_clash { HasClash assumptions.now → ⊥ }
        requires literal_set { (l : ℕ) → marked literal_set.now l ≡ assumed assumptions.now l }
        requires assumes { AssumesFirst assumptions.now self.old.propagator.entries }
        ensures vars { self.new.propagator.vars ≡ self.old.propagator.vars }
        ensures solver { OnOk result (IsSolver self.new) }
        ensures assumes { IfOk result
            (λ end. IfNone end (AssumesFirst assumptions.now self.new.propagator.entries)) }
        ensures ended { IfOk result
            (λ end. IfSome end (Finishes (marked literal_set.now) assumptions.now self.old.log
            self.new most)) }
        ensures learnt { IfOk result
            (λ end. IfNone end (AddsNewLine self.old.log self.new.log most)) }
        ensures err { OnErr result (self.new.log ≡ self.old.log) }
    {
        match self.decide_all(assumptions)? {
            LoopEnd::Model => Ok(Some(Answer::Model)),
            LoopEnd::Refused(lit) => {
                let answer = self.refuse(analyzer, assumptions, literal_set, most, lit)?;
                Ok(Some(answer))
            }
            LoopEnd::Conflict(at) => self.meet_conflict(
                analyzer,
                assumptions,
                literal_set,
                most,
                at,
                restart,
            ),
        }
    }
}
