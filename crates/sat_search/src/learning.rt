//! What a search does at a conflict.
ghost use Rattle.std.specs.Prelude.{◌≡◌, ℕ, ◌<◌, ◌≤◌, length, List, IfOk, IfSome, IfNone, OnOk, OnErr};
ghost use Rattle.sat_arena.specs.Trails.{marked};
ghost use Rattle.sat_arena.specs.Justified.{current_level};
ghost use Rattle.sat_search.specs.Assumed.{assumed, AssumesFirst};
ghost use Rattle.sat_search.specs.Solvers.{IsSolver};
ghost use Rattle.sat_search.specs.LoopEnds.{IsNewConflict};
ghost use Rattle.sat_search.specs.Endings.{AddsNewLine, EndsBy};

use crate::answer::Answer;
use crate::solver::Solver;
use fsmv_base::NoMemory;
use sat_analyze::Analyzer;
use sat_lits::Lit;

impl Solver {
    /// Learns from the false clause at the position and goes back, or answers where that is not possible or
    /// not allowed: at level 0, and where the log has as many lines as it may have.
    pub fn meet_conflict(
        &mut self,
        analyzer: &mut Analyzer,
        assumptions: &[Lit],
        literal_set: &[bool],
        most: u32,
        position: u32,
        restart: bool,
    ) -> Result<Option<Answer>, NoMemory>
        requires solver { IsSolver self.old }
        requires literal_set { (l : ℕ) → marked literal_set.now l ≡ assumed assumptions.now l }
        requires conflict { IsNewConflict self.old position }
        ensures vars { self.new.propagator.vars ≡ self.old.propagator.vars }
        ensures solver { OnOk result (IsSolver self.new) }
        ensures assumes { (assumptions : List ℕ) → AssumesFirst assumptions self.old.propagator.entries
            → IfOk result (λ end. IfNone end (AssumesFirst assumptions self.new.propagator.entries)) }
        ensures ended { IfOk result
            (λ end. IfSome end (EndsBy (marked literal_set.now) self.old.log self.new.log most)) }
        ensures learnt { IfOk result
            (λ end. IfNone end (AddsNewLine self.old.log self.new.log most)) }
        ensures err { OnErr result (self.new.log ≡ self.old.log) }
    {
        if self.propagator.trail().level() == 0 {
            let answer = self.refute(analyzer, assumptions, literal_set, most, position)?;
            return Ok(Some(answer));
        }
        if self.log.derived() >= most {
            return Ok(self.known_answer(assumptions, literal_set, most));
        }
        self.learn_from(analyzer, most, position, restart)?;
        Ok(None)
    }

    /// Learns from the clause at the position, which is false above level 0, and goes back to where the
    /// learnt clause forces a literal, or to level 0.
    fn learn_from(
        &mut self,
        analyzer: &mut Analyzer,
        most: u32,
        position: u32,
        restart: bool,
    ) -> Result<(), NoMemory>
        requires solver { IsSolver self.old }
        requires conflict { IsNewConflict self.old position }
        requires above { 0 < current_level self.old.propagator.entries }
        requires room { length self.old.log.lines < most }
        ensures vars { self.new.propagator.vars ≡ self.old.propagator.vars }
        ensures solver { OnOk result (IsSolver self.new) }
        ensures assumes { (assumptions : List ℕ) → AssumesFirst assumptions self.old.propagator.entries
            → OnOk result (AssumesFirst assumptions self.new.propagator.entries) }
        ensures ok { OnOk result (AddsNewLine self.old.log self.new.log most) }
        ensures err { OnErr result (self.new.log ≡ self.old.log) }
    {
        let learnt = self.learn(analyzer, position)?;
        self.order.bump(analyzer.met());
        self.back(back_level(learnt.level, restart));
        self.record(&learnt.clause, learnt.hints.as_slice())?;
        Ok(())
    }
}

/// The level to go back to.
fn back_level(level: u32, restart: bool) -> u32
    ensures { result ≤ level }
{
    if restart { 0 } else { level }
}
