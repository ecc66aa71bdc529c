//! The walk back over a trail: each marked literal is resolved with its reason, or kept.
ghost use Rattle.std.specs.Prelude.{◌≡◌, ℕ, ◌+◌, ◌<◌, ◌≤◌, None, Some, true, [], length, slice_index_or, IfOk, IfSome, IfNone, OnOk};
ghost use Rattle.sat_arena.specs.ArenaState.{clauses_of};
ghost use Rattle.sat_arena.specs.Justified.{IsJustified, IsEntryAt, HasPositions};
ghost use Rattle.sat_analyze.specs.declared.walk.Keeping.TheVariants.{Decisions};
ghost use Rattle.sat_analyze.specs.Marked.{IsMarked, ArePositioned, IsLowest};
ghost use Rattle.sat_analyze.specs.Walked.{IsStart, IsFresh, IsWalk, Meets, Keeps, KeepsLit, Resolves, KeepsPoint, Steps, KeepsMore};

use crate::marks::Marks;
use crate::positions::start_of_current_level;
use fsmv_base::{Id, NoMemory};
use sat_arena::{Arena, Assigned, Trail};
use sat_lits::Lit;
use std::alloc::Global;

/// A walk back over a trail, from a falsified clause.
#[derive(Drop)]
pub struct Walk {
    /// The literals that are still to be resolved or kept, when the walk comes to them.
    pub marks: Marks,
    /// The true literals whose negations make the clause.
    pub kept: Vec<Lit>,
    /// The clauses that were met, the last of propagation first.
    pub hints: Vec<Id>,
    /// The greatest level of a literal that `keep_marked` kept.
    pub level: u32,
}

/// Tables that an earlier walk leaves to a later one, so that it need not take memory again.
#[derive(Drop)]
pub struct Tables {
    pub seen: Vec<bool>,
    pub met: Vec<Lit>,
}

/// Which literals a walk keeps; it resolves the others.
#[derive(Clone, Copy)]
pub enum Keeping {
    /// Those that were decided.
    Decisions,
    /// Those above level 0 that were decided or whose reason brings a new literal in.
    Needed,
}

impl Walk {
    /// The walk with nothing marked. It keeps the lowest mark of the current_level level in sight, where that
    /// level is above 0.
    pub fn new(alloc: Global, tables: Tables, trail: &Trail) -> Result<Walk, NoMemory>
        ensures { IfOk result (IsFresh trail.now.entries) }
    {
        let entries = trail.entries();
        let mut tables = tables;
        tables.seen.clear();
        tables.seen.resize(entries.len(), false)?;
        tables.met.clear();
        tables.met.reserve(entries.len())?;
        Ok(Walk {
            marks: Marks {
                seen: tables.seen,
                start: start_of_current_level(entries),
                lowest: entries.len(),
                met: tables.met,
            },
            kept: Vec::new(alloc),
            hints: Vec::new(alloc),
            level: 0,
        })
    }

    /// Takes in the clause at the position: marks its literals and notes it as a hint.
    pub fn meet(&mut self, arena: &Arena, positions: &[u32], at: u32) -> Result<(), NoMemory>
        requires within { at < length arena.now.stored }
        requires positioned { ArePositioned positions.now (length self.old.marks.seen.items)
            (slice_index_or (clauses_of arena.now.stored) at []) }
        requires lowest { IsLowest self.old.marks.seen.items self.old.marks.start
            self.old.marks.lowest }
        ensures { OnOk result (Meets arena.now.stored positions.now at self.old self.new) }
    {
        self.marks.mark(positions, arena.lits(at));
        self.hints.push(arena.id(at))?;
        Ok(())
    }

    /// Resolves the literals of the current_level level with their reasons, down to the one through which all
    /// ways to the conflict lead, and keeps that. At level 0 it does nothing.
    pub fn keep_unique_point(
        &mut self,
        arena: &Arena,
        entries: &[Assigned],
        positions: &[u32],
    ) -> Result<(), NoMemory>
        requires positions { HasPositions entries.now positions.now }
        requires justified { IsJustified (clauses_of arena.now.stored) entries.now }
        requires start { IsStart entries.now self.old.marks.start }
        requires walk { IsWalk arena.now.stored entries.now (length entries.now) self.old }
        requires none { self.old.kept.items ≡ [] }
        ensures { OnOk result (KeepsPoint arena.now.stored entries.now self.old self.new) }
    {
        let mut position = entries.len();
        while self.marks.lowest + 1 < position {
            position -= 1;
            self.resolve(arena, entries, positions, position)?;
        }
        if self.marks.lowest < position {
            self.keep_lit(entries[self.marks.lowest].lit)?;
        }
        Ok(())
    }

    /// Resolves the literal at the position, where it is marked.
    fn resolve(
        &mut self,
        arena: &Arena,
        entries: &[Assigned],
        positions: &[u32],
        position: usize,
    ) -> Result<(), NoMemory>
        requires positions { HasPositions entries.now positions.now }
        requires justified { IsJustified (clauses_of arena.now.stored) entries.now }
        requires walk { IsWalk arena.now.stored entries.now (position + 1) self.old }
        requires forced { (entry : Assigned) → IsEntryAt entries.now position entry → entry.reason
            ≡ None → ⊥ }
        ensures { OnOk result (Resolves arena.now.stored entries.now position self.old self.new) }
    {
        if !self.marks.seen[position] {
            return Ok(());
        }
        let reason = entries[position].reason.unwrap();
        self.meet(arena, positions, reason)
    }

    /// Resolves or keeps each marked literal before the position.
    pub fn keep_marked(
        &mut self,
        arena: &Arena,
        entries: &[Assigned],
        positions: &[u32],
        from: usize,
        keeping: Keeping,
    ) -> Result<(), NoMemory>
        requires positions { HasPositions entries.now positions.now }
        requires justified { IsJustified (clauses_of arena.now.stored) entries.now }
        requires walk { IsWalk arena.now.stored entries.now from self.old }
        requires level { self.old.level ≡ 0 }
        ensures walk { OnOk result (IsWalk arena.now.stored entries.now 0 self.new) }
        ensures more { OnOk result
            (KeepsMore entries.now keeping from self.old.kept.items self.new) }
        ensures start { OnOk result (self.new.marks.start ≡ self.old.marks.start) }
        ensures apart { OnOk result (from ≤ self.old.marks.lowest → from ≤ self.new.marks.lowest) }
    {
        let mut position = self.marks.skip_unmarked(from);
        while position > 0 {
            position -= 1;
            self.step(arena, entries, positions, position, keeping)?;
            position = self.marks.skip_unmarked(position);
        }
        Ok(())
    }

    /// Resolves or keeps the literal at the position, where it is marked.
    fn step(
        &mut self,
        arena: &Arena,
        entries: &[Assigned],
        positions: &[u32],
        position: usize,
        keeping: Keeping,
    ) -> Result<(), NoMemory>
        requires positions { HasPositions entries.now positions.now }
        requires justified { IsJustified (clauses_of arena.now.stored) entries.now }
        requires walk { IsWalk arena.now.stored entries.now (position + 1) self.old }
        ensures { OnOk result (Steps arena.now.stored entries.now position keeping self.old
            self.new) }
    {
        if !self.marks.seen[position] {
            return Ok(());
        }
        let entry = &entries[position];
        match self.followed_reason(arena, entries, positions, entry, keeping) {
            Some(reason) => self.meet(arena, positions, reason),
            None => self.keep(entry),
        }
    }

    /// The reason with which the entry's literal is resolved; `None` where the literal is kept.
    fn followed_reason(
        &self,
        arena: &Arena,
        entries: &[Assigned],
        positions: &[u32],
        entry: &Assigned,
        keeping: Keeping,
    ) -> Option<u32>
        requires within { IfSome entry.now.reason (λ reason. reason < length arena.now.stored) }
        requires positioned { IfSome entry.now.reason
            (λ reason. ArePositioned positions.now (length entries.now)
            (slice_index_or (clauses_of arena.now.stored) reason [])) }
        requires sized { length self.now.marks.seen.items ≡ length entries.now }
        ensures some { IfSome result (λ reason. entry.now.reason ≡ Some reason) }
        ensures decided { IfNone result (keeping ≡ Decisions → entry.now.reason ≡ None) }
        ensures root { IfNone result (entry.now.level ≡ 0 → entry.now.reason ≡ None) }
    {
        let reason = entry.reason?;
        match keeping {
            Keeping::Needed
                if entry.level > 0 && !self.marks.cover(entries, positions, arena.lits(reason)) => {
                None
            }
            _ => Some(reason),
        }
    }

    /// Keeps the entry's literal.
    fn keep(&mut self, entry: &Assigned) -> Result<(), NoMemory>
        ensures { OnOk result (Keeps entry.now self.old self.new) }
    {
        self.keep_lit(entry.lit)?;
        self.level = self.level.max(entry.level);
        Ok(())
    }

    /// Keeps the literal, whatever its level.
    pub fn keep_lit(&mut self, lit: Lit) -> Result<(), NoMemory>
        ensures { OnOk result (KeepsLit lit self.old self.new) }
    {
        self.kept.push(lit)?;
        Ok(())
    }
}
