//! The parts of a search, and its steps on the trail.
ghost use Rattle.std.specs.Prelude.{◌≡◌, ℕ, ◌+◌, ◌∷◌, ◌++◌, [], None, All, length, min, IfNone, IfSome, OnOk, OnErr};
ghost use Rattle.sat_arena.specs.Trails.{true_in, up_to};
ghost use Rattle.sat_arena.specs.ArenaState.{clauses_of};
ghost use Rattle.sat_arena.specs.Deduced.{Deduces};
ghost use Rattle.sat_arena.specs.Justified.{current_level};
ghost use Rattle.sat_search.specs.Orders.{IsOpen};
ghost use Rattle.sat_search.specs.Solvers.{IsSolver};
ghost use Rattle.sat_search.specs.LoopEnds.{AreSettled, IsNewConflict};

use crate::order::Order;
use fsmv_base::NoMemory;
use proof_log::Log;
use sat_arena::Propagator;
use sat_lits::Lit;

/// The log of a search, the clauses among which it propagates with what is true, and the variables by their
/// activity. `IsSolver` says how they fit each other.
#[derive(Drop)]
pub struct Solver {
    pub log: Log,
    pub propagator: Propagator,
    pub order: Order,
}

impl Solver {
    /// Makes true, at the current level, what the clauses force, until they force nothing more or one of
    /// them is false, whose position it answers.
    pub fn propagate(&mut self) -> Option<u32>
        requires { IsSolver self.old }
        ensures others { self.new ≡ record self.old { propagator = self.new.propagator } }
        ensures vars { self.new.propagator.vars ≡ self.old.propagator.vars }
        ensures solver { IsSolver self.new }
        ensures deduced { Deduces (clauses_of self.old.propagator.stored)
            (current_level self.old.propagator.entries) self.old.propagator.entries
            self.new.propagator.entries }
        ensures settled { IfNone result (AreSettled self.new) }
        ensures conflict { IfSome result (IsNewConflict self.new) }
    {
        let conflict = self.propagator.propagate();
        let _entries = self.propagator.entries();
        conflict
    }

    /// Makes the literal true at a new level. A level past the last value of a `u32` counts as memory
    /// that is not there.
    pub fn decide(&mut self, lit: Lit) -> Result<(), NoMemory>
        requires solver { IsSolver self.old }
        requires settled { AreSettled self.old }
        requires undecided { IsOpen (true_in self.old.propagator.entries) self.old.propagator.vars
            lit }
        ensures others { self.new ≡ record self.old { propagator = self.new.propagator } }
        ensures vars { self.new.propagator.vars ≡ self.old.propagator.vars }
        ensures solver { IsSolver self.new }
        ensures err { OnErr result (self.new ≡ self.old) }
        ensures ok { OnOk result (self.new.propagator.entries ≡ self.old.propagator.entries
            ++ record {
              lit = lit;
              level = current_level self.old.propagator.entries + 1;
              reason = None;
            } ∷ []) }
    {
        let decided = self.propagator.decide(lit);
        let _entries = self.propagator.entries();
        decided
    }

    /// Takes back what is true above the level.
    pub fn back(&mut self, level: u32)
        requires { IsSolver self.old }
        ensures others { self.new ≡ record self.old {
          propagator = record self.old.propagator {
            entries = up_to level self.old.propagator.entries;
            head = min self.old.propagator.head
                (length (up_to level self.old.propagator.entries));
          };
        } }
        ensures solver { IsSolver self.new }
    {
        self.order.release(self.propagator.entries(), level);
        self.propagator.back(level);
    }
}
