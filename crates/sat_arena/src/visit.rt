//! The clauses that watch a literal which became false, in linked lists.
//!
//! Each clause has two watches, numbered twice its position and one more. The watches of one literal are
//! a list: its head, and the link of each watch, are one more than the number of the next watch, and 0 at
//! the end.
ghost use Rattle.std.specs.Prelude.{◌≡◌, ℕ, ◌+◌, ◌*◌, ◌<◌, ◌≤◌, ◌^◌, ◌/◌, [], All, Contains, length, slice_index_or, slice_set, true, false, IfNone, IfSome};
ghost use Rattle.sat_lits.specs.Literals.{negation};
ghost use Rattle.sat_arena.specs.Stored.{Stored};
ghost use Rattle.sat_arena.specs.ArenaState.{clauses_of, AreGrown};
ghost use Rattle.sat_arena.specs.Trails.{true_in, IsGrown};
ghost use Rattle.sat_arena.specs.Deduced.{Deduces, IsConflict};
ghost use Rattle.sat_arena.specs.Justified.{IsEntryAt};
ghost use Rattle.sat_arena.specs.Links.{AreListed, IsListedFrom};
ghost use Rattle.sat_arena.specs.Watches.{clause_of, watch_of, KeepsWatches, MayWatch};

use crate::clause_list::ClauseList;
use crate::status::{Choice, choose};
use crate::trail::{Assigned, Trail};
use sat_lits::Lit;

/// What the watch is to watch from now on, in place of the literal that the entry made false. It makes
/// true what the clause forces, and answers `None` where the clause is falsified.
pub fn visit(
    clauses: &ClauseList,
    watched: &[Lit],
    watch: usize,
    trail: &mut Trail,
    head: usize,
    entry: &Assigned,
) -> Option<Lit>
    requires small { length clauses.now < 2 ^ 31 }
    requires grown { AreGrown trail.old.vars (clauses_of clauses.now) }
    requires stands { IsEntryAt trail.old.entries head entry.now }
    requires current_level { All (λ e. e.level ≤ entry.now.level) trail.old.entries }
    requires keeps { KeepsWatches trail.old.entries head (clauses_of clauses.now) watched.now }
    requires watch { watch < length watched.now }
    requires room { IsGrown trail.old.vars entry.now.lit }
    requires watches { watch_of watched.now watch ≡ negation entry.now.lit }
    ensures vars { trail.new.vars ≡ trail.old.vars }
    ensures deduced { Deduces (clauses_of clauses.now) entry.now.level trail.old.entries
        trail.new.entries }
    ensures keeps { KeepsWatches trail.new.entries head (clauses_of clauses.now) watched.now }
    ensures next { IfSome result (λ l. 1 < length (clause_of (clauses_of clauses.now) watch)
        → MayWatch trail.new.entries head (clause_of (clauses_of clauses.now) watch)
        (negation entry.now.lit) (watch_of watched.now (negation watch)) l) }
    ensures held { IfSome result (λ l. 0 < length (clause_of (clauses_of clauses.now) watch)
        → Contains (clause_of (clauses_of clauses.now) watch) l) }
    ensures grown { IfSome result (λ l. l < 2 * trail.old.vars + 2) }
    ensures conflict { IfNone result (IsConflict (clauses_of clauses.now) trail.new.entries
        (watch / 2)) }
{
    let falsified = entry.lit.negate();
    let other = watched[other_watch(watch)];

    // Most visits end here, without a look at the clause.
    if trail.has_true(other) {
        return Some(falsified);
    }
    let lits = clauses.lits(watch / 2);
    if lits.len() < 2 {
        return Some(falsified);
    }
    match choose(trail, lits, other) {
        Choice::Stay => Some(falsified),
        Choice::Move(lit) => Some(lit),
        Choice::Forcing(lit) => {
            trail.push(Assigned {
                lit,
                level: entry.level,
                reason: Some((watch / 2) as u32),
            });
            Some(falsified)
        }
        Choice::Falsified => None,
    }
}

/// The other watch of the same clause.
fn other_watch(watch: usize) -> usize
    requires { watch < 2 ^ 33 }
    ensures { result ≡ negation watch }
{
    if watch % 2 == 0 { watch + 1 } else { watch - 1 }
}

/// Goes through the list of the literal that the entry made false. Where a clause is falsified, it
/// answers the position of that one, and the list is whole again.
pub fn visit_list(
    clauses: &ClauseList,
    watched: &mut [Lit],
    links: &mut [u32],
    heads: &mut [u32],
    trail: &mut Trail,
    head: usize,
    entry: &Assigned,
) -> Option<u32>
    requires small { length clauses.now < 2 ^ 31 }
    requires grown { AreGrown trail.old.vars (clauses_of clauses.now) }
    requires stands { IsEntryAt trail.old.entries head entry.now }
    requires current_level { All (λ e. e.level ≤ entry.now.level) trail.old.entries }
    requires room { IsGrown trail.old.vars entry.now.lit }
    requires heads { 2 * trail.old.vars + 2 ≤ length heads.old }
    requires keeps { KeepsWatches trail.old.entries head (clauses_of clauses.now) watched.old }
    requires listed { AreListed links.old heads.old watched.old [] 0 0 }
    requires within { All (λ l. l < length heads.old) watched.old }
    ensures vars { trail.new.vars ≡ trail.old.vars }
    ensures deduced { Deduces (clauses_of clauses.now) entry.now.level trail.old.entries
        trail.new.entries }
    ensures listed { AreListed links.new heads.new watched.new [] 0 0 }
    ensures within { All (λ l. l < length heads.new) watched.new }
    ensures keeps { KeepsWatches trail.new.entries head (clauses_of clauses.now) watched.new }
    ensures done { IfNone result (KeepsWatches trail.new.entries (head + 1)
        (clauses_of clauses.now) watched.new) }
    ensures conflict { IfSome result (IsConflict (clauses_of clauses.now) trail.new.entries) }
{
    let falsified = entry.lit.negate();
    let list = falsified.code() as usize;
    let mut pending = heads[list];
    heads[list] = 0;
    while pending > 0 {
        let watch = pending as usize - 1;
        let found = visit(clauses, watched, watch, trail, head, entry);
        match found {
            Some(lit) => {
                pending = links[watch];
                put_first(watched, links, heads, watch, lit);
            }
            None => {
                restore(watched, links, heads, pending, falsified);
                return Some((watch / 2) as u32);
            }
        }
    }
    None
}

/// Puts the pending watches back into the list of the literal that they watch.
fn restore(watched: &mut [Lit], links: &mut [u32], heads: &mut [u32], start: u32, falsified: Lit)
    requires small { length watched.old < 2 ^ 32 }
    requires room { falsified < length heads.old }
    requires listed { IsListedFrom links.old heads.old watched.old falsified start }
    ensures listed { AreListed links.new heads.new watched.new [] 0 0 }
    ensures same { watched.new ≡ watched.old }
{
    let mut pending = start;
    while pending > 0 {
        let watch = pending as usize - 1;
        pending = links[watch];
        put_first(watched, links, heads, watch, falsified);
    }
}

/// Puts the watch at the front of the list of the literal, which it watches from now on.
pub fn put_first(watched: &mut [Lit], links: &mut [u32], heads: &mut [u32], watch: usize, lit: Lit)
    requires watch { watch < length watched.old }
    requires linked { watch < length links.old }
    requires small { watch + 1 < 2 ^ 32 }
    requires listed { lit < length heads.old }
    ensures watched { watched.new ≡ slice_set watched.old watch lit }
    ensures links { links.new ≡ slice_set links.old watch (slice_index_or heads.old lit 0) }
    ensures heads { heads.new ≡ slice_set heads.old lit (watch + 1) }
{
    let list = lit.code() as usize;
    watched[watch] = lit;
    links[watch] = heads[list];
    heads[list] = watch as u32 + 1;
}

/// One of two literals.
fn pick(first: bool, one: Lit, other: Lit) -> Lit
    ensures first { first ≡ true → result ≡ one }
    ensures other { first ≡ false → result ≡ other }
{
    if first { one } else { other }
}

/// Moves the watch into the list of another literal, which it watches from now on.
pub fn move_to_list(
    watched: &mut [Lit],
    links: &mut [u32],
    heads: &mut [u32],
    watch: usize,
    to: Lit,
)
    requires small { length watched.old < 2 ^ 32 }
    requires watch { watch < length watched.old }
    requires room { to < length heads.old }
    requires within { All (λ l. l < length heads.old) watched.old }
    requires listed { AreListed links.old heads.old watched.old [] 0 0 }
    ensures listed { AreListed links.new heads.new watched.new [] 0 0 }
    ensures watched { watched.new ≡ slice_set watched.old watch to }
{
    let from = watched[watch];
    let list = from.code() as usize;
    let mut pending = heads[list];
    heads[list] = 0;
    while pending > 0 {
        let next = pending as usize - 1;
        pending = links[next];
        let lit = pick(next == watch, to, from);
        put_first(watched, links, heads, next, lit);
    }
}
