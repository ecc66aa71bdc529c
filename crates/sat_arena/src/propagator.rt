//! Unit propagation: the clauses, the literals that are true, and the queue of those whose effect is still
//! to be looked at.
ghost use Rattle.std.specs.Prelude.{◌≡◌, ℕ, ◌+◌, ◌<◌, ◌≤◌, ◌^◌, ◌++◌, ◌∷◌, [], None, false, All, Contains, length, max, min, map, slice_index, slice_index_or, IfOk, IfNone, IfSome, OnOk, OnErr};
ghost use Rattle.sat_lits.specs.Literals.{negation};
ghost use Rattle.sat_lits.specs.Steps.{IsFalsified};
ghost use Rattle.sat_arena.specs.Trails.{true_in, up_to, marked, IsGrown, IsOrderly};
ghost use Rattle.sat_arena.specs.Settled.{IsSettled};
ghost use Rattle.sat_arena.specs.Justified.{current_level, IsJustified};
ghost use Rattle.sat_arena.specs.ArenaState.{clauses_of, among, AreGrown};
ghost use Rattle.sat_arena.specs.Deduced.{Deduces, IsConflict};
ghost use Rattle.sat_arena.specs.Watches.{clause_of, watch_of, KeepsWatches};
ghost use Rattle.sat_arena.specs.PropagatorState.{AreCurrentFrom};
ghost use Rattle.sat_arena.specs.Moved.{Reclaims};

use crate::arena::Arena;
use crate::falsified::{find_falsified, is_falsified};
use crate::moved::move_reasons;
use crate::status::{Status, status_of, watches_for};
use crate::trail::{Assigned, Trail};
use fsmv_base::{Id, NoMemory};
use sat_lits::{Clause, Lit};
use std::alloc::Global;
use std::marker::Model;

/// Clauses, and literals that are true. Each clause of two or more literals watches two of them. A true
/// literal waits in a queue until the clauses that watch its negation were looked at.
///
/// Contracts see the clauses with their ids, the entries of the trail, the greatest variable, and how many
/// entries have left the queue. Which literals are watched they do not see.
#[derive(Drop)]
pub struct Propagator {
    arena: Arena,
    trail: Trail,
    head: usize,
    refuted: Option<u32>,
}

impl Model for Propagator {
    ghost use Rattle.sat_arena.specs.PropagatorState.{PropagatorState, IsPropagator};

    ghost Value = { PropagatorState };

    ghost view = { λ p. record {
      stored = p.arena.stored;
      entries = p.trail.entries;
      vars = p.trail.vars;
      head = p.head;
    } };

    ghost invariant = { λ p. IsPropagator p.arena.stored p.arena.watched p.arena.vars
        p.trail.entries p.trail.vars p.head p.refuted };
}

impl Propagator {
    /// No clauses, nothing true, no variables.
    pub fn new(alloc: Global) -> Propagator
        ensures { result ≡ record { stored = []; entries = []; vars = 0; head = 0 } }
    {
        Propagator {
            arena: Arena::new(alloc),
            trail: Trail::new(alloc),
            head: 0,
            refuted: None,
        }
    }

    /// Lets the variables up to this one stand in clauses and be assigned. Fewer than before change
    /// nothing. A variable from 2^30 on counts as memory that is not there. After `NoMemory` nothing has
    /// changed.
    pub fn grow(&mut self, vars: u32) -> Result<(), NoMemory>
        ensures ok { OnOk result (self.new ≡ record self.old { vars = max self.old.vars vars }) }
        ensures small { OnOk result (vars < 2 ^ 30) }
        ensures err { OnErr result (self.new ≡ self.old) }
    {
        self.arena.grow(vars)?;
        self.trail.grow(vars)?;
        Ok(())
    }

    /// Adds the clause after all others, and answers its position. Where all its literals but one are
    /// false, it makes that one true. After `NoMemory` nothing has changed.
    pub fn add(&mut self, clause: &Clause, id: Id) -> Result<u32, NoMemory>
        requires grown { All (IsGrown self.old.vars) clause.now }

        // At each lower level propagation finds nothing to do at the clause.
        requires settled { (k : ℕ) → k < current_level self.old.entries
            → IsSettled (true_in (up_to k self.old.entries)) clause.now }

        // Above level 0 some literal is not false.
        requires open { 0 < current_level self.old.entries
            → IsFalsified (true_in self.old.entries) clause.now → ⊥ }
        ensures position { IfOk result (λ position. position ≡ length self.old.stored) }
        ensures stored { OnOk result (self.new.stored
            ≡ self.old.stored ++ record { clause = clause.now; id = id } ∷ []) }
        ensures vars { self.new.vars ≡ self.old.vars }
        ensures head { self.new.head ≡ self.old.head }
        ensures deduced { OnOk result (Deduces (clauses_of self.new.stored)
            (current_level self.old.entries) self.old.entries self.new.entries) }
        ensures err { OnErr result (self.new ≡ self.old) }
    {
        let _entries = self.trail.entries();
        let lits = clause.lits();
        let pair = watches_for(&self.trail, lits);
        let position = self
            .arena
            .add_watching(clause, id, pair.first, pair.second)?;
        match status_of(&self.trail, lits) {
            Status::Settled => {}
            Status::Forcing(lit) => {
                let level = self.trail.level();
                self.trail.push(Assigned {
                    lit,
                    level,
                    reason: Some(position),
                });
            }
            Status::Falsified => self.refuted = Some(position),
        }
        Ok(position)
    }

    /// Makes the literal true at a new level. A level past the last value of a `u32` counts as memory
    /// that is not there.
    pub fn decide(&mut self, lit: Lit) -> Result<(), NoMemory>
        requires done { self.old.head ≡ length self.old.entries }
        requires grown { IsGrown self.old.vars lit }
        requires not_true { true_in self.old.entries lit ≡ false }
        requires not_false { true_in self.old.entries (negation lit) ≡ false }
        ensures ok { OnOk result (self.new ≡ record self.old {
          entries = self.old.entries
              ++ record { lit = lit; level = current_level self.old.entries + 1; reason = None } ∷ [];
        }) }
        ensures err { OnErr result (self.new ≡ self.old) }
    {
        let _entries = self.trail.entries();
        let Some(level) = self.trail.level().checked_add(1) else {
            return Err(NoMemory);
        };
        self.trail.push(Assigned {
            lit,
            level,
            reason: None,
        });
        Ok(())
    }

    /// Takes back what is true above the level. It takes no memory.
    pub fn back(&mut self, level: u32)
        ensures { self.new ≡ record self.old {
          entries = up_to level self.old.entries;
          head = min self.old.head (length (up_to level self.old.entries));
        } }
    {
        let _entries = self.trail.entries();
        self.trail.back(level);
        self.head = self.head.min(self.trail.entries().len());
    }

    /// Makes true, at the current level, what the clauses force, until they force nothing more or one of
    /// them is falsified, whose position it answers. It takes no memory.
    pub fn propagate(&mut self) -> Option<u32>
        ensures stored { self.new.stored ≡ self.old.stored }
        ensures vars { self.new.vars ≡ self.old.vars }
        ensures deduced { Deduces (clauses_of self.old.stored) (current_level self.old.entries)
            self.old.entries self.new.entries }
        ensures done { IfNone result (self.new.head ≡ length self.new.entries) }
        ensures settled { IfNone result (All (IsSettled (true_in self.new.entries))
            (clauses_of self.old.stored)) }
        ensures conflict { IfSome result (IsConflict (clauses_of self.old.stored)
            self.new.entries) }
    {
        match self.refuted {
            Some(position) => Some(position),
            None => {
                let end = empty_queue(&mut self.arena, &mut self.trail, self.head);
                self.head = end.head;
                end.conflict
            }
        }
    }

    /// Takes out the clauses of two or more literals of which one is among the root literals, each of which
    /// is a unit clause, and answers how many. An entry whose reason is taken out gets the unit clause of its
    /// literal. Once a clause was refuted, nothing changes, and it answers `None`. After `NoMemory` nothing has
    /// changed.
    pub fn reclaim(&mut self, root: &[Lit]) -> Result<Option<u32>, NoMemory>
        requires level { current_level self.old.entries ≡ 0 }
        requires justified { IsJustified (clauses_of self.old.stored) self.old.entries }
        requires units { All (λ l. Contains (clauses_of self.old.stored) (l ∷ [])) root.now }
        ensures some { IfOk result (λ count. IfSome count (Reclaims root.now self.old self.new)) }
        ensures none { IfOk result (λ count. IfNone count (self.new ≡ self.old)) }
        ensures err { OnErr result (self.new ≡ self.old) }
    {
        match self.refuted {
            Some(_) => Ok(None),
            None => {
                let _entries = self.trail.entries();
                let count = self.arena.reclaim(root)?;
                move_reasons(&self.arena, &mut self.trail);
                Ok(Some(count))
            }
        }
    }

    /// The position of a clause each literal of which is the negation of one of these. The set has a flag for
    /// each of them, by its code. It goes through the lists of the clauses that watch a negation of theirs; only
    /// once a clause was refuted it may go through all clauses.
    pub fn find_falsified(&self, lits: &[Lit], literal_set: &[bool]) -> Option<u32>
        requires { (l : ℕ) → marked literal_set.now l ≡ among lits.now l }
        ensures some { IfSome result (λ position. (position < length self.now.stored)
            × IsFalsified (marked literal_set.now)
            (slice_index_or (clauses_of self.now.stored) position [])) }
        ensures none { IfNone result
            (All (λ clause. IsFalsified (marked literal_set.now) clause → ⊥)
            (clauses_of self.now.stored)) }
    {
        match self.refuted {
            Some(position) => find_from(&self.arena, position, literal_set),
            None => find_watching_any(&self.arena, lits, literal_set),
        }
    }

    /// The clauses.
    pub fn arena(&self) -> &Arena
        ensures { result.now.stored ≡ self.now.stored }
    {
        &self.arena
    }

    /// The literals that are true.
    pub fn trail(&self) -> &Trail
        ensures { result.now ≡ record { entries = self.now.entries; vars = self.now.vars } }
    {
        &self.trail
    }

    /// The entries of the literals that are true, in their order.
    pub fn entries(&self) -> &[Assigned]
        ensures same { result.now ≡ self.now.entries }
        ensures orderly { IsOrderly self.now.entries self.now.vars }
        ensures grown { AreGrown self.now.vars (clauses_of self.now.stored) }
        ensures few { length self.now.entries ≤ self.now.vars + 1 }
    {
        self.trail.entries()
    }
}

/// The position of a clause each literal of which is the negation of one of the set. It looks at the one at
/// the position first.
fn find_from(arena: &Arena, position: u32, literal_set: &[bool]) -> Option<u32>
    requires { position < length arena.now.stored }
    ensures some { IfSome result (λ found. (found < length arena.now.stored)
        × IsFalsified (marked literal_set.now)
        (slice_index_or (clauses_of arena.now.stored) found [])) }
    ensures none { IfNone result
        (All (λ clause. IsFalsified (marked literal_set.now) clause → ⊥)
        (clauses_of arena.now.stored)) }
{
    if is_falsified(arena.lits(position), literal_set) {
        return Some(position);
    }
    find_falsified(arena, literal_set)
}

/// The position of such a clause among those that watch the negation of one of these literals.
fn find_watching_any(arena: &Arena, lits: &[Lit], literal_set: &[bool]) -> Option<u32>
    ensures some { IfSome result (λ position. (position < length arena.now.stored)
        × IsFalsified (marked literal_set.now)
        (slice_index_or (clauses_of arena.now.stored) position [])) }
    ensures none { IfNone result ((k : ℕ) → k < length lits.now
        → (n : ℕ) → n < length arena.now.watched
        → watch_of arena.now.watched n ≡ negation (slice_index lits.now k)
        → IsFalsified (marked literal_set.now) (clause_of (clauses_of arena.now.stored) n) → ⊥) }
{
    for lit in lits {
        if let Some(position) = arena.find_watching(lit.negate(), literal_set) {
            return Some(position);
        }
    }
    None
}

/// Where the work on a queue ended.
#[derive(Clone, Copy, Drop)]
pub struct QueueEnd {
    /// How many entries have left the queue.
    pub head: usize,
    /// The position of a falsified clause.
    pub conflict: Option<u32>,
}

/// Looks at the clauses that watch the negation of an entry from `head` on, one entry after another, until
/// none is left or a clause is falsified.
fn empty_queue(arena: &mut Arena, trail: &mut Trail, head: usize) -> QueueEnd
    requires vars { trail.old.vars ≤ arena.old.vars }
    requires grown { AreGrown trail.old.vars (clauses_of arena.old.stored) }
    requires within { head ≤ length trail.old.entries }
    requires current { AreCurrentFrom trail.old.entries head }
    requires keeps { KeepsWatches trail.old.entries head (clauses_of arena.old.stored)
        arena.old.watched }
    ensures others { arena.new ≡ record arena.old { watched = arena.new.watched } }
    ensures vars { trail.new.vars ≡ trail.old.vars }
    ensures deduced { Deduces (clauses_of arena.old.stored) (current_level trail.old.entries)
        trail.old.entries trail.new.entries }
    ensures within { result.head ≤ length trail.new.entries }
    ensures later { head ≤ result.head }
    ensures keeps { KeepsWatches trail.new.entries result.head (clauses_of arena.old.stored)
        arena.new.watched }
    ensures done { IfNone result.conflict (result.head ≡ length trail.new.entries) }
    ensures conflict { IfSome result.conflict (IsConflict (clauses_of arena.old.stored)
        trail.new.entries) }
{
    let mut at = head;
    while at < trail.entries().len() {
        match arena.visit_watches(trail, at) {
            Some(position) => {
                return QueueEnd {
                    head: at,
                    conflict: Some(position),
                };
            }
            None => at += 1,
        }
    }
    QueueEnd {
        head: at,
        conflict: None,
    }
}
