//! The clauses among which propagation goes on, and which of their literals they watch.
ghost use Rattle.std.specs.Prelude.{◌≡◌, ℕ, ◌+◌, ◌*◌, ◌<◌, ◌≤◌, ◌^◌, ◌++◌, ◌∷◌, ◌⊎◌, List, [], not, All, Contains, filter, length, max, map, slice_index_or, slice_set, replicate, take, false, vec_len, vec_capacity, IfOk, IfNone, IfSome, OnOk, OnErr};
ghost use Rattle.sat_lits.specs.Clauses.{HasRisingVariables};
ghost use Rattle.sat_lits.specs.Steps.{IsFalsified};
ghost use Rattle.sat_arena.specs.Trails.{true_in, marked, IsGrown};
ghost use Rattle.sat_arena.specs.ArenaState.{clauses_of, among, is_satisfied, AreGrown, IsUnitOf};
ghost use Rattle.sat_arena.specs.Deduced.{Deduces, IsConflict};
ghost use Rattle.sat_arena.specs.Guarded.{level_at, IsLast};
ghost use Rattle.sat_arena.specs.Links.{IsLengthened};
ghost use Rattle.sat_arena.specs.Stored.{Stored};
ghost use Rattle.sat_arena.specs.Reclaimed.{moves, HasCopied, IsCopied, AreCopied};
ghost use Rattle.sat_arena.specs.declared.trail.Assigned.{Assigned};
ghost use Rattle.sat_arena.specs.Watches.{clause_of, watch_of, may_watch, watches_after, KeepsWatches, AreWatches, AreTwoOf, IsAnyOf, MovesWatch};

use crate::clause_list::ClauseList;
use crate::falsified::find_in_list;
use crate::status::{WatchPair, only_or_any};
use crate::stored::clause_satisfied;
use crate::trail::Trail;
use crate::units::find_unit_in_list;
use crate::visit::{move_to_list, visit_list};
use fsmv_base::{Id, NoMemory};
use sat_lits::{Clause, Lit};
use std::alloc::Global;
use std::marker::Model;

/// Clauses with their ids. Each has a position, counted from 0; one from 2^31 on counts as memory that is
/// not there. A clause of two or more literals watches two of them.
///
/// Contracts see the list of the clauses with their ids, the greatest variable that may stand in one,
/// the watched literals, the two of each clause one after the other, and where the last `reclaim` has put
/// each clause.
#[derive(Drop)]
pub struct Arena {
    alloc: Global,
    clauses: ClauseList,
    watched: Vec<Lit>,
    links: Vec<u32>,
    heads: Vec<u32>,
    vars: u32,
    moved: Vec<Option<u32>>,
}

impl Model for Arena {
    ghost use Rattle.sat_arena.specs.ArenaState.{ArenaState};
    ghost use Rattle.sat_arena.specs.Watches.{IsArena};

    ghost Value = { ArenaState };

    ghost view = { λ a. record {
      stored = a.clauses;
      vars = a.vars;
      watched = a.watched.items;
      moved = a.moved.items;
    } };

    ghost invariant = { λ a. IsArena a.clauses a.watched.items a.links.items a.heads.items
        a.vars };
}

impl Arena {
    /// The arena without clauses, over no variables.
    pub fn new(alloc: Global) -> Arena
        ensures { result ≡ record { stored = []; vars = 0; watched = []; moved = [] } }
    {
        Arena {
            alloc,
            clauses: ClauseList::new(alloc),
            watched: Vec::new(alloc),
            links: Vec::new(alloc),
            heads: Vec::new(alloc),
            vars: 0,
            moved: Vec::new(alloc),
        }
    }

    /// Lets the variables up to this one stand in clauses. Fewer than before change nothing. A variable
    /// from 2^30 on counts as memory that is not there. After `NoMemory` the arena is unchanged.
    pub fn grow(&mut self, vars: u32) -> Result<(), NoMemory>
        ensures ok { OnOk result (self.new ≡ record self.old { vars = max self.old.vars vars }) }
        ensures small { OnOk result (vars < 2 ^ 30) }
        ensures err { OnErr result (self.new ≡ self.old) }
    {
        if vars >= 1 << 30 {
            return Err(NoMemory);
        }
        if vars <= self.vars {
            return Ok(());
        }
        lengthen(&mut self.heads, 2 * vars as usize + 2)?;
        self.vars = vars;
        Ok(())
    }

    /// Adds the clause after all others, and answers its position. It watches its first two literals.
    /// After `NoMemory` the arena is unchanged.
    pub fn add(&mut self, clause: &Clause, id: Id) -> Result<u32, NoMemory>
        requires grown { All (IsGrown self.old.vars) clause.now }
        ensures position { IfOk result (λ position. position ≡ length self.old.stored) }
        ensures ok { OnOk result (self.new.stored
            ≡ self.old.stored ++ record { clause = clause.now; id = id } ∷ []) }
        ensures vars { self.new.vars ≡ self.old.vars }
        ensures err { OnErr result (self.new ≡ self.old) }
    {
        let pair = first_two(clause);
        self.add_watching(clause, id, pair.first, pair.second)
    }

    /// Adds the clause after all others, with these literals watched, and answers its position. After
    /// `NoMemory` the arena is unchanged.
    pub(crate) fn add_watching(
        &mut self,
        clause: &Clause,
        id: Id,
        first: Lit,
        second: Lit,
    ) -> Result<u32, NoMemory>
        requires grown { All (IsGrown self.old.vars) clause.now }
        requires first { IsAnyOf clause.now first }
        requires second { IsAnyOf clause.now second }
        requires two { 1 < length clause.now → AreTwoOf clause.now first second }
        ensures position { IfOk result (λ position. position ≡ length self.old.stored) }
        ensures ok { OnOk result (self.new ≡ record self.old {
          stored = self.old.stored ++ record { clause = clause.now; id = id } ∷ [];
          watched = (self.old.watched ++ first ∷ []) ++ second ∷ [];
        }) }
        ensures err { OnErr result (self.new ≡ self.old) }
    {
        self.add_lits(clause.lits(), id, first, second)
    }

    /// Adds the clause of these literals after all others, with the two watched, and answers its
    /// position. After `NoMemory` the arena is unchanged.
    fn add_lits(&mut self, lits: &[Lit], id: Id, first: Lit, second: Lit) -> Result<u32, NoMemory>
        requires rising { HasRisingVariables lits.now }
        requires grown { All (IsGrown self.old.vars) lits.now }
        requires first { IsAnyOf lits.now first }
        requires second { IsAnyOf lits.now second }
        requires two { 1 < length lits.now → AreTwoOf lits.now first second }
        ensures position { IfOk result (λ position. position ≡ length self.old.stored) }
        ensures ok { OnOk result (self.new ≡ record self.old {
          stored = self.old.stored ++ record { clause = lits.now; id = id } ∷ [];
          watched = (self.old.watched ++ first ∷ []) ++ second ∷ [];
        }) }
        ensures err { OnErr result (self.new ≡ self.old) }
    {
        let position = self.clauses.len();
        if position >= (1 << 31) - 1 {
            return Err(NoMemory);
        }
        self.watched.reserve(2)?;
        self.links.reserve(2)?;
        lengthen(&mut self.heads, 4)?;
        self.clauses.push(lits, id)?;
        let heads = self.heads.as_mut_slice();
        append(&mut self.watched, &mut self.links, heads, first);
        append(&mut self.watched, &mut self.links, heads, second);
        Ok(position as u32)
    }

    /// Watches `to` in the place of `from` in the clause at the position. Where the clause has fewer than
    /// two literals, does not watch `from`, does not hold `to` or watches it already, nothing changes. It
    /// takes no memory.
    pub fn move_watch(&mut self, at: u32, from: Lit, to: Lit)
        requires { at < length self.old.stored }
        ensures { self.new ≡ record self.old {
          watched = watches_after
              (slice_index_or (clauses_of self.old.stored) at []) self.old.watched at from to;
        } }
    {
        if let Some(watch) = self.watch_to_move(at, from, to) {
            move_to_list(
                self.watched.as_mut_slice(),
                self.links.as_mut_slice(),
                self.heads.as_mut_slice(),
                watch,
                to,
            );
        }
    }

    /// Which watch of the clause at the position is to watch `to` in the place of `from`.
    fn watch_to_move(&self, at: u32, from: Lit, to: Lit) -> Option<usize>
        requires { at < length self.now.stored }
        ensures some { IfSome result (λ watch. MovesWatch self.now.stored self.now.watched at from to watch) }
        ensures none { IfNone result (watches_after
            (slice_index_or (clauses_of self.now.stored) at []) self.now.watched at from to
            ≡ self.now.watched) }
    {
        let _ = &self.alloc;
        let pair = self.watches(at);
        if !is_watchable(self.lits(at), pair.first, pair.second, to) {
            return None;
        }
        let watch = 2 * at as usize;
        if pair.first == from {
            return Some(watch);
        }
        if pair.second == from {
            return Some(watch + 1);
        }
        None
    }

    /// Takes out the clauses of two or more literals of which one is among the root literals, and
    /// answers how many. The others keep their order, and `moved` tells where each stands then. It takes
    /// the time of going once over the clauses and the root literals. After `NoMemory` the arena is
    /// unchanged.
    pub fn reclaim(&mut self, root: &[Lit]) -> Result<u32, NoMemory>
        ensures ok { OnOk result (self.new.stored
            ≡ filter (λ s. not (is_satisfied (among root.now) s)) self.old.stored) }
        ensures vars { OnOk result (self.new.vars ≡ self.old.vars) }
        ensures moved { OnOk result (self.new.moved
            ≡ moves (is_satisfied (among root.now)) 0 self.old.stored) }

        // Watches are kept with their clauses.
        ensures watches { OnOk result ((entries : List Assigned) (head : ℕ)
            → KeepsWatches entries head (clauses_of self.old.stored) self.old.watched
            → KeepsWatches entries head (clauses_of self.new.stored) self.new.watched) }
        ensures count { IfOk result (λ count. count + length self.new.stored
            ≡ length self.old.stored) }
        ensures err { OnErr result (self.new ≡ self.old) }
    {
        let literal_set = literal_set_of(self.alloc, root)?;
        let before = self.len();
        let mut kept = Arena::new(self.alloc);
        kept.grow(self.vars)?;
        copy_kept(self, &literal_set, &mut kept)?;
        let after = kept.len();
        *self = kept;
        Ok(before - after)
    }

    /// Where the clause stands now that stood at this position before the last `reclaim`; `None` where it
    /// was taken out. It takes no memory.
    pub fn moved(&self, at: u32) -> Option<u32>
        requires { at < length self.now.moved }
        ensures { result ≡ slice_index_or self.now.moved at result }
    {
        self.moved[at as usize]
    }

    /// How many clauses there are.
    pub fn len(&self) -> u32
        ensures len { result ≡ length self.now.stored }
        ensures watches { AreWatches (clauses_of self.now.stored) self.now.watched }
        ensures grown { AreGrown self.now.vars (clauses_of self.now.stored) }
    {
        self.clauses.len() as u32
    }

    /// The literals of the clause at the position.
    pub fn lits(&self, at: u32) -> &[Lit]
        requires { at < length self.now.stored }
        ensures { result.now ≡ slice_index_or (clauses_of self.now.stored) at [] }
    {
        self.clauses.lits(at as usize)
    }

    /// The two literals that the clause at the position watches. They say nothing of a clause of fewer
    /// than two literals.
    pub fn watches(&self, at: u32) -> WatchPair
        requires { at < length self.now.stored }
        ensures first { result.first ≡ watch_of self.now.watched (2 * at) }
        ensures second { result.second ≡ watch_of self.now.watched (2 * at + 1) }
    {
        WatchPair {
            first: self.watched[2 * at as usize],
            second: self.watched[2 * at as usize + 1],
        }
    }

    /// What the clause at the position watches. One of fewer than two literals watches the only one twice,
    /// or else any.
    fn watches_or_any(&self, at: u32) -> WatchPair
        requires { at < length self.now.stored }
        ensures first { IsAnyOf (slice_index_or (clauses_of self.now.stored) at [])
            result.first }
        ensures second { IsAnyOf (slice_index_or (clauses_of self.now.stored) at [])
            result.second }
        ensures two { 1 < length (slice_index_or (clauses_of self.now.stored) at [])
            → AreTwoOf (slice_index_or (clauses_of self.now.stored) at [])
            result.first result.second }
        ensures same { 1 < length (slice_index_or (clauses_of self.now.stored) at [])
            → (result.first ≡ watch_of self.now.watched (2 * at))
            × (result.second ≡ watch_of self.now.watched (2 * at + 1)) }
    {
        let _ = &self.alloc;
        let lits = self.lits(at);
        if lits.len() > 1 {
            return self.watches(at);
        }
        let only = only_or_any(lits);
        WatchPair {
            first: only,
            second: only,
        }
    }

    /// Whether the clause at the position has two or more literals of which one is in the set.
    fn is_satisfied(&self, at: u32, literal_set: &[bool]) -> bool
        requires { at < length self.now.stored }
        ensures { (d : Stored) → result
            ≡ is_satisfied (marked literal_set.now) (slice_index_or self.now.stored at d) }
    {
        clause_satisfied(self.clauses.lits(at as usize), literal_set)
    }

    /// Adds the clause at the position to another arena, with what it watches, and notes where it stands
    /// there; one of two or more literals of which one is in the set is not added, and this is noted.
    fn copy_unless_satisfied(
        &self,
        at: u32,
        literal_set: &[bool],
        kept: &mut Arena,
    ) -> Result<(), NoMemory>
        requires at { at < length self.now.stored }
        requires vars { kept.old.vars ≡ self.now.vars }
        ensures vars { kept.new.vars ≡ kept.old.vars }
        ensures ok { OnOk result ((d : Stored) → HasCopied self.now at
            (is_satisfied (marked literal_set.now) (slice_index_or self.now.stored at d))
            kept.old kept.new) }
    {
        if self.is_satisfied(at, literal_set) {
            return kept.note_move(None);
        }
        self.copy_to(at, kept)
    }

    /// Adds the clause at the position to another arena, with what it watches, and notes where it stands
    /// there.
    fn copy_to(&self, at: u32, kept: &mut Arena) -> Result<(), NoMemory>
        requires at { at < length self.now.stored }
        requires vars { kept.old.vars ≡ self.now.vars }
        ensures vars { kept.new.vars ≡ kept.old.vars }
        ensures ok { OnOk result (IsCopied self.now at kept.old kept.new) }
    {
        let _count = self.len();
        let pair = self.watches_or_any(at);
        let lits = self.clauses.lits(at as usize);
        let position = kept.add_lits(lits, self.id(at), pair.first, pair.second)?;
        kept.note_move(Some(position))
    }

    /// Notes where the next clause of the arena that this one takes the place of stands here.
    fn note_move(&mut self, position: Option<u32>) -> Result<(), NoMemory>
        ensures ok { OnOk result (self.new ≡ record self.old { moved = self.old.moved ++ position ∷ [] }) }
        ensures vars { self.new.vars ≡ self.old.vars }
    {
        self.moved.push(position)?;
        Ok(())
    }

    /// The id under which proofs cite the clause at the position.
    pub fn id(&self, at: u32) -> Id
        requires { at < length self.now.stored }
        ensures { result ≡ slice_index_or (map (λ s. s.id) self.now.stored) at result }
    {
        self.clauses.id(at as usize)
    }

    /// The position of a clause that watches the literal, and each of whose literals is the negation of one of
    /// the set. It goes through the list of the literal alone.
    pub(crate) fn find_watching(&self, lit: Lit, literal_set: &[bool]) -> Option<u32>
        ensures some { IfSome result (λ position. (position < length self.now.stored)
            × IsFalsified (marked literal_set.now)
            (slice_index_or (clauses_of self.now.stored) position [])) }
        ensures none { IfNone result ((n : ℕ) → n < length self.now.watched
            → watch_of self.now.watched n ≡ lit
            → IsFalsified (marked literal_set.now) (clause_of (clauses_of self.now.stored) n) → ⊥) }
    {
        let _ = &self.alloc;
        find_in_list(
            &self.clauses,
            &self.watched,
            &self.links,
            &self.heads,
            lit,
            literal_set,
        )
    }

    /// The position of the clause of the literal alone. It goes through the list of the literal.
    pub(crate) fn find_unit(&self, lit: Lit) -> Option<u32>
        ensures some { IfSome result (λ position. (position < length self.now.stored)
            × IsUnitOf lit (slice_index_or (clauses_of self.now.stored) position [])) }
        ensures none { IfNone result
            (Contains (clauses_of self.now.stored) (lit ∷ []) → ⊥) }
    {
        let _ = &self.alloc;
        find_unit_in_list(&self.clauses, &self.watched, &self.links, &self.heads, lit)
    }

    /// Goes through the clauses that watch the literal that the entry at the head of the queue made
    /// false. Makes true what they force, at the level of the entry, and answers the position of one that
    /// is falsified. It takes no memory.
    pub(crate) fn visit_watches(&mut self, trail: &mut Trail, head: usize) -> Option<u32>
        requires vars { trail.old.vars ≤ self.old.vars }
        requires grown { AreGrown trail.old.vars (clauses_of self.old.stored) }
        requires last { IsLast trail.old.entries head }
        requires keeps { KeepsWatches trail.old.entries head (clauses_of self.old.stored)
            self.old.watched }
        ensures others { self.new ≡ record self.old { watched = self.new.watched } }
        ensures vars { trail.new.vars ≡ trail.old.vars }
        ensures deduced { Deduces (clauses_of self.old.stored) (level_at trail.old.entries head)
            trail.old.entries trail.new.entries }
        ensures keeps { KeepsWatches trail.new.entries head (clauses_of self.old.stored)
            self.new.watched }
        ensures done { IfNone result (KeepsWatches trail.new.entries (head + 1)
            (clauses_of self.old.stored) self.new.watched) }
        ensures conflict { IfSome result (IsConflict (clauses_of self.old.stored)
            trail.new.entries) }
    {
        let entry = trail.entries()[head];
        visit_list(
            &self.clauses,
            self.watched.as_mut_slice(),
            self.links.as_mut_slice(),
            self.heads.as_mut_slice(),
            trail,
            head,
            &entry,
        )
    }
}

/// Lengthens the table to at least so many, with zeros.
fn lengthen(heads: &mut Vec<u32>, least: usize) -> Result<(), NoMemory>
    ensures lengthened { IsLengthened heads.old.items heads.new.items }
    ensures long { OnOk result (least ≤ length heads.new.items) }
{
    if heads.len() < least {
        heads.resize(least, 0)?;
    }
    Ok(())
}

/// Appends a watch of the literal to the tables, at the front of the literal's list.
fn append(watched: &mut Vec<Lit>, links: &mut Vec<u32>, heads: &mut [u32], lit: Lit)
    requires room { vec_len watched.old < vec_capacity watched.old }
    requires links_room { vec_len links.old < vec_capacity links.old }
    requires listed { lit < length heads.old }
    requires small { length links.old.items + 1 < 2 ^ 32 }
    ensures watched_room { vec_capacity watched.new ≡ vec_capacity watched.old }
    ensures links_capacity { vec_capacity links.new ≡ vec_capacity links.old }
    ensures watched { watched.new.items ≡ watched.old.items ++ lit ∷ [] }
    ensures links { links.new.items ≡ links.old.items ++ slice_index_or heads.old lit 0 ∷ [] }
    ensures heads { heads.new ≡ slice_set heads.old lit (length links.old.items + 1) }
{
    let list = lit.code() as usize;
    watched.push_reserved(lit);
    links.push_reserved(heads[list]);
    heads[list] = links.len() as u32;
}

/// The first two literals of a clause. Of one of fewer it is the only one twice, or else any.
fn first_two(clause: &Clause) -> WatchPair
    ensures first { IsAnyOf clause.now result.first }
    ensures second { IsAnyOf clause.now result.second }
    ensures two { 1 < length clause.now → AreTwoOf clause.now result.first result.second }
{
    let lits = clause.lits();
    if lits.len() > 1 {
        return WatchPair {
            first: lits[0],
            second: lits[1],
        };
    }
    let only = only_or_any(lits);
    WatchPair {
        first: only,
        second: only,
    }
}

/// Whether a clause of these literals, which watches the two, may watch `to` in the place of one.
fn is_watchable(lits: &[Lit], first: Lit, second: Lit, to: Lit) -> bool
    ensures { result ≡ may_watch lits.now first second to }
{
    lits.len() > 1 && lits.contains(&to) && first != to && second != to
}

/// Copies the clauses that are not satisfied by a literal of the set, with what they watch.
fn copy_kept(arena: &Arena, literal_set: &[bool], kept: &mut Arena) -> Result<(), NoMemory>
    requires none { kept.old.stored ≡ [] }
    requires no_watches { kept.old.watched ≡ [] }
    requires no_moves { kept.old.moved ≡ [] }
    requires vars { kept.old.vars ≡ arena.now.vars }
    ensures vars { kept.new.vars ≡ kept.old.vars }
    ensures ok { OnOk result (AreCopied (is_satisfied (marked literal_set.now)) arena.now.stored
        arena.now kept.new) }
{
    for at in 0..arena.len() {
        arena.copy_unless_satisfied(at, literal_set, kept)?;
    }
    Ok(())
}

/// The set of these literals, by their codes.
fn literal_set_of(alloc: Global, lits: &[Lit]) -> Result<Vec<bool>, NoMemory>
    ensures { IfOk result (λ literal_set. (l : ℕ) → marked literal_set.items l ≡ among lits.now l) }
{
    let mut literal_set = Vec::new(alloc);
    literal_set.resize(codes_of(lits), false)?;
    insert_all(literal_set.as_mut_slice(), lits);
    Ok(literal_set)
}

/// A number above the code of each literal.
fn codes_of(lits: &[Lit]) -> usize
    ensures { All (λ l. l < result) lits.now }
{
    let mut codes = 0;
    for lit in lits {
        codes = codes.max(lit.code() as usize + 1);
    }
    codes
}

/// Puts these literals into an empty set.
fn insert_all(literal_set: &mut [bool], lits: &[Lit])
    requires room { All (λ l. l < length literal_set.old) lits.now }
    requires none { (l : ℕ) → marked literal_set.old l ≡ false }
    ensures { (l : ℕ) → marked literal_set.new l ≡ among lits.now l }
{
    for lit in lits {
        literal_set[lit.code() as usize] = true;
    }
}
