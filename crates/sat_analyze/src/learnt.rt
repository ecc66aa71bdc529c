//! What conflict analysis derives.
ghost use Rattle.std.specs.Prelude.{◌≡◌, ◌<◌, [], true, slice_index_or, IfOk};
ghost use Rattle.sat_lits.specs.Literals.{negation};
ghost use Rattle.sat_arena.specs.Trails.{true_in};
ghost use Rattle.sat_arena.specs.ArenaState.{clauses_of};
ghost use Rattle.sat_arena.specs.Deduced.{IsConflict};
ghost use Rattle.sat_arena.specs.Justified.{current_level, IsJustified, IsDecision};
ghost use Rattle.sat_analyze.specs.Learnt.{IsNewlyFalse, IsLearnt, IsFinal, IsLeft};
ghost use Rattle.sat_analyze.specs.Walked.{HaveOwnVariables};

use crate::clause::clause_against;
use crate::marks::position_of;
use crate::walk::{Keeping, Tables, Walk};
use fsmv_base::{Id, List, NoMemory};
use sat_arena::{Arena, Trail};
use sat_lits::{Clause, Lit};
use std::alloc::Global;
use std::mem;

/// A clause that follows from those of an arena, and how.
#[derive(Debug, Drop)]
pub struct Learnt {
    pub clause: Clause,
    /// The clauses through which unit propagation derives it, in the order in which it comes to them.
    pub hints: List<Id>,
    /// The greatest level of the clause's other literals: all but the one of the current_level level, or but
    /// the negation of the literal that `final_clause` was asked for. It is 0 where there are none.
    pub level: u32,
}

/// The clause to be learnt from the falsified one at the position: it is falsified too, and has one literal
/// of the current_level level. Where that level is 0, it is the empty clause.
pub fn learn(alloc: Global, arena: &Arena, trail: &Trail, conflict: u32) -> Result<Learnt, NoMemory>
    requires justified { IsJustified (clauses_of arena.now.stored) trail.now.entries }
    requires conflict { IsConflict (clauses_of arena.now.stored) trail.now.entries conflict }
    requires current_level { 0 < current_level trail.now.entries
        → IsNewlyFalse trail.now.entries
        (slice_index_or (clauses_of arena.now.stored) conflict []) }
    ensures { IfOk result (IsLearnt arena.now.stored trail.now.entries) }
{
    Analyzer::new(alloc).learn(arena, trail, conflict)
}

/// The clause that says why the literal is false: it holds the literal's negation and otherwise only
/// negations of decisions.
pub fn final_clause(
    alloc: Global,
    arena: &Arena,
    trail: &Trail,
    lit: Lit,
) -> Result<Learnt, NoMemory>
    requires justified { IsJustified (clauses_of arena.now.stored) trail.now.entries }
    requires false_there { true_in trail.now.entries (negation lit) ≡ true }
    requires undecided { IsDecision trail.now.entries (negation lit) → ⊥ }
    ensures { IfOk result (IsFinal arena.now.stored trail.now.entries lit) }
{
    Analyzer::new(alloc).final_clause(arena, trail, lit)
}

/// What one conflict analysis leaves to the next: its tables, and the literals that it met. No clause speaks
/// of these.
#[derive(Drop)]
pub struct Analyzer {
    alloc: Global,
    tables: Tables,
}

impl Analyzer {
    pub fn new(alloc: Global) -> Analyzer {
        Analyzer {
            alloc,
            tables: no_tables(alloc),
        }
    }

    /// As the function `learn`.
    pub fn learn(&mut self, arena: &Arena, trail: &Trail, conflict: u32) -> Result<Learnt, NoMemory>
        requires justified { IsJustified (clauses_of arena.now.stored) trail.now.entries }
        requires conflict { IsConflict (clauses_of arena.now.stored) trail.now.entries conflict }
        requires current_level { 0 < current_level trail.now.entries
            → IsNewlyFalse trail.now.entries
            (slice_index_or (clauses_of arena.now.stored) conflict []) }
        ensures { IfOk result (IsLearnt arena.now.stored trail.now.entries) }
    {
        let entries = trail.entries();
        let positions = trail.positions();
        let mut walk = Walk::new(self.alloc, self.take_tables(), trail)?;
        walk.meet(arena, positions, conflict)?;
        walk.keep_unique_point(arena, entries, positions)?;
        let from = walk.marks.lowest;
        walk.keep_marked(arena, entries, positions, from, Keeping::Needed)?;
        Ok(self.learnt_by(walk))
    }

    /// As the function `final_clause`.
    pub fn final_clause(
        &mut self,
        arena: &Arena,
        trail: &Trail,
        lit: Lit,
    ) -> Result<Learnt, NoMemory>
        requires justified { IsJustified (clauses_of arena.now.stored) trail.now.entries }
        requires false_there { true_in trail.now.entries (negation lit) ≡ true }
        requires undecided { IsDecision trail.now.entries (negation lit) → ⊥ }
        ensures { IfOk result (IsFinal arena.now.stored trail.now.entries lit) }
    {
        let entries = trail.entries();
        let positions = trail.positions();
        let mut walk = Walk::new(self.alloc, self.take_tables(), trail)?;
        let from = position_of(positions, lit);
        let reason = entries[from].reason.unwrap();
        walk.meet(arena, positions, reason)?;
        walk.keep_lit(lit)?;
        walk.keep_marked(arena, entries, positions, from, Keeping::Decisions)?;
        Ok(self.learnt_by(walk))
    }

    /// The literals that the last analysis met.
    pub fn met(&self) -> &[Lit] {
        &self.tables.met
    }

    fn take_tables(&mut self) -> Tables {
        let none = no_tables(self.alloc);
        mem::replace(&mut self.tables, none)
    }

    /// What a walk that has ended leaves. Its tables are kept.
    fn learnt_by(&mut self, walk: Walk) -> Learnt
        requires { HaveOwnVariables walk.kept.items }
        ensures { IsLeft walk result }
    {
        self.tables = Tables {
            seen: walk.marks.seen,
            met: walk.marks.met,
        };
        let mut hints = walk.hints;
        hints.reverse();
        Learnt {
            clause: clause_against(walk.kept),
            hints: List::from_vec(hints),
            level: walk.level,
        }
    }
}

fn no_tables(alloc: Global) -> Tables {
    Tables {
        seen: Vec::new(alloc),
        met: Vec::new(alloc),
    }
}
