//! A session of searches over a growing list of clauses.
ghost use Rattle.std.specs.Prelude.{◌≡◌, ℕ, ◌+◌, ◌-◌, ◌<◌, ◌≤◌, ◌^◌, ◌++◌, [], true, false, None, Some, All, max, min, unwrap_or, slice_index_or, IfOk, IfSome, IsSome, IsErr, OnOk, OnErr, IsTrue};
ghost use Rattle.std.specs.Option.{option_map};
ghost use Rattle.sat_arena.specs.Trails.{IsGrown, marked};
ghost use Rattle.sat_arena.specs.ArenaState.{AreGrown};
ghost use Rattle.sat_search.specs.Clashes.{HasClash};
ghost use Rattle.sat_search.specs.Additions.{HasVariables};
ghost use Rattle.sat_search.specs.Retirements.{RetiresSome};

use crate::answer::Answer;
use crate::literal_set::LiteralSet;
use crate::solver::Solver;
use fsmv_base::NoMemory;
use proof_log::Log;
use sat_analyze::Analyzer;
use sat_lits::{Clause, Lit};
use std::alloc::Global;
use std::marker::Model;

/// Clauses that are searched for models under assumptions, again and again, and the log of what was
/// derived from them.
///
/// A session ends for good where memory runs out, or when `end` is called. Its log then stays right.
///
/// Contracts see the log, the greatest variable, how often a solution was asked for, whether the session
/// has ended, and the model that the last search found.
#[derive(Drop)]
pub struct Session {
    alloc: Global,
    solver: Solver,
    analyzer: Analyzer,
    assumed: LiteralSet,
    units: LiteralSet,
    /// How many lines were looked at for unit clauses.
    seen: u32,
    axioms: u32,
    vars: u32,
    asked: u64,
    ended: bool,
    model: Option<Vec<bool>>,
}

impl Model for Session {
    ghost use Rattle.std.specs.Option.{option_map};
    ghost use Rattle.sat_search.specs.Sessions.{Sessioned};
    ghost use Rattle.sat_search.specs.SessionState.{IsSession};

    ghost Value = { Sessioned };

    ghost view = { λ s. record {
      log = s.solver.log;
      vars = s.vars;
      asked = s.asked;
      ended = s.ended;
      model = option_map
          (λ v. v.items) s.model;
    } };

    ghost invariant = { λ s. IsSession s.solver s.axioms s.vars s.ended };
}

impl Session {
    ghost use Rattle.sat_search.specs.Sessions.{AddsLines, Answers, core_of};

    /// The session without variables and clauses.
    pub fn new(alloc: Global) -> Session
        ensures { result ≡ record {
          log = record { axioms = []; lines = [] };
          vars = 0;
          asked = 0;
          ended = false;
          model = None;
        } }
    {
        Session {
            alloc,
            solver: Solver::new(alloc),
            analyzer: Analyzer::new(alloc),
            assumed: LiteralSet::new(alloc),
            units: LiteralSet::new(alloc),
            seen: 0,
            axioms: 0,
            vars: 0,
            asked: 0,
            ended: false,
            model: None,
        }
    }

    /// Lets the variables up to this one stand in clauses. Fewer than before change nothing. A variable
    /// from 2^30 on counts as memory that is not there. After `NoMemory` the session has ended, and
    /// nothing else is changed.
    pub fn grow(&mut self, vars: u32) -> Result<(), NoMemory>
        ensures ok { OnOk result (self.new ≡ record self.old { vars = max self.old.vars vars }) }
        ensures went_on { OnOk result (self.old.ended ≡ false) }
        ensures err { OnErr result (self.new ≡ record self.old { ended = true }) }
    {
        if self.ended {
            return Err(NoMemory);
        }
        match self.solver.grow(vars) {
            Ok(()) => {
                self.vars = self.vars.max(vars);
                Ok(())
            }
            Err(error) => {
                self.ended = true;
                Err(error)
            }
        }
    }

    /// Adds axioms, which get the next numbers. After `NoMemory` the session has ended; its log is
    /// unchanged.
    pub fn add_axioms(&mut self, clauses: &[Clause]) -> Result<(), NoMemory>
        requires { AreGrown self.old.vars clauses.now }
        ensures ok { OnOk result (self.new
            ≡ record self.old {
              log = record self.old.log
                  { axioms = self.old.log.axioms ++ clauses.now };
              model = None;
            }) }
        ensures went_on { OnOk result (self.old.ended ≡ false) }
        ensures err { OnErr result (self.new ≡ record self.old { ended = true; model = None }) }
    {
        self.model = None;
        if self.ended {
            return Err(NoMemory);
        }
        if clauses.len() > (u32::MAX - self.axioms) as usize {
            self.ended = true;
            return Err(NoMemory);
        }
        match self.solver.add_axioms(self.axioms, clauses) {
            Ok(()) => {
                self.axioms += clauses.len() as u32;
                Ok(())
            }
            Err(error) => {
                self.ended = true;
                Err(error)
            }
        }
    }

    /// Looks for values that satisfy all axioms, all live lines and the assumptions. It adds a line
    /// to the log only while there are fewer than `most`. After `NoMemory` the session has ended.
    pub fn solve(&mut self, assumptions: &[Lit], most: u32) -> Result<Answer, NoMemory>
        requires grown { All (IsGrown self.old.vars) assumptions.now }
        requires no_clash { HasClash assumptions.now → ⊥ }
        ensures asked { self.new.asked ≡ min (self.old.asked + 1) (2 ^ 64 - 1) }
        ensures vars { self.new.vars ≡ self.old.vars }
        ensures lines { AddsLines assumptions.now self.old.log self.new.log most (core_of result) }
        ensures ok { IfOk result (Answers self.new.log self.new.model assumptions.now most) }
        ensures went_on { OnOk result (self.new.ended ≡ false) }
        ensures went_on_before { OnOk result (self.old.ended ≡ false) }
        ensures ended { OnErr result (self.new.ended ≡ true) }
        ensures no_model { OnErr result (self.new.model ≡ None) }
        ensures still { self.old.ended ≡ true → self.new.log ≡ self.old.log }
    {
        self.asked = self.asked.saturating_add(1);
        self.model = None;
        if self.ended {
            return Err(NoMemory);
        }
        if let Err(error) = self.retire() {
            return Err(error);
        }
        if let Err(error) = self.assumed.fill(assumptions, self.vars) {
            self.ended = true;
            return Err(error);
        }
        let alloc = self.alloc;
        let literal_set = self.assumed.flags();
        match self.solver.find(
            alloc,
            &mut self.analyzer,
            assumptions,
            literal_set,
            most,
            self.vars,
        ) {
            Ok(found) => {
                self.model = found.values;
                Ok(found.answer)
            }
            Err(error) => {
                self.ended = true;
                Err(error)
            }
        }
    }

    /// Retires the lines that hold the literal of a unit clause which was derived since the last search, and
    /// takes out the clauses that do. After `NoMemory` the session has ended; its log is unchanged.
    fn retire(&mut self) -> Result<(), NoMemory>
        requires { self.old.ended ≡ false }
        ensures ok { OnOk result (self.new ≡ record self.old { log = self.new.log }) }
        ensures retired { OnOk result (RetiresSome self.old.log self.new.log) }
        ensures err { OnErr result (self.new ≡ record self.old { ended = true }) }
    {
        match self
            .solver
            .retire(self.alloc, &mut self.units, self.seen, self.vars)
        {
            Ok(()) => {
                self.seen = self.solver.log.derived();
                Ok(())
            }
            Err(error) => {
                self.ended = true;
                Err(error)
            }
        }
    }

    /// The value of the variable in the model that the last search found; nothing was added since then.
    /// A variable that was grown later has FALSE.
    pub fn value(&self, var: u32) -> bool
        requires { IsSome self.now.model }
        ensures { result ≡ marked (unwrap_or self.now.model []) var }
    {
        match &self.model {
            Some(values) => values.get(var as usize).copied().unwrap_or(false),
            None => false,
        }
    }

    /// The log: the axioms, and the lines derived from them.
    pub fn log(&self) -> &Log
        ensures same { result.now ≡ self.now.log }

        // Each variable of a line stands in an axiom.
        ensures variables { HasVariables self.now.log }
    {
        &self.solver.log
    }

    /// Whether the session has ended.
    pub fn ended(&self) -> bool
        ensures { result ≡ self.now.ended }
    {
        self.ended
    }

    /// Ends the session: from now on it answers `NoMemory`. It takes no memory.
    pub fn end(&mut self)
        ensures { self.new ≡ record self.old { ended = true } }
    {
        self.ended = true;
    }

    /// How often `solve` was called, refused calls counted. It stays at the last value of a `u64`.
    pub fn asked(&self) -> u64
        ensures { result ≡ self.now.asked }
    {
        self.asked
    }
}
