//! Clauses that hold only negations of the literals of a set.
ghost use Rattle.std.specs.Prelude.{◌≡◌, ℕ, ◌+◌, ◌*◌, ◌<◌, ◌≤◌, ◌^◌, ◌↔◌, [], All, length, slice_index_or, IfNone, IfSome, IsTrue};
ghost use Rattle.sat_lits.specs.Steps.{IsFalsified};
ghost use Rattle.sat_arena.specs.Trails.{marked};
ghost use Rattle.sat_arena.specs.ArenaState.{clauses_of};
ghost use Rattle.sat_arena.specs.Links.{AreListed};
ghost use Rattle.sat_arena.specs.Watches.{clause_of, watch_of};

use crate::arena::Arena;
use crate::clause_list::ClauseList;
use sat_lits::Lit;

/// The position of the first clause each literal of which is the negation of one of the set. It goes
/// through all clauses.
pub fn find_falsified(arena: &Arena, literal_set: &[bool]) -> Option<u32>
    ensures some { IfSome result (λ position. (position < length arena.now.stored)
        × IsFalsified (marked literal_set.now)
        (slice_index_or (clauses_of arena.now.stored) position [])) }
    ensures none { IfNone result
        (All (λ clause. IsFalsified (marked literal_set.now) clause → ⊥)
        (clauses_of arena.now.stored)) }
{
    for position in 0..arena.len() {
        if is_falsified(arena.lits(position), literal_set) {
            return Some(position);
        }
    }
    None
}

/// The position of such a clause among those that watch the literal. It goes through the literal's list.
pub fn find_in_list(
    clauses: &ClauseList,
    watched: &[Lit],
    links: &[u32],
    heads: &[u32],
    lit: Lit,
    literal_set: &[bool],
) -> Option<u32>
    requires small { length clauses.now < 2 ^ 31 }
    requires two_each { length watched.now ≡ 2 * length (clauses_of clauses.now) }
    requires within { All (λ l. l < length heads.now) watched.now }
    requires listed { AreListed links.now heads.now watched.now [] 0 0 }
    ensures some { IfSome result (λ position. (position < length clauses.now)
        × IsFalsified (marked literal_set.now)
        (slice_index_or (clauses_of clauses.now) position [])) }
    ensures none { IfNone result ((n : ℕ) → n < length watched.now
        → watch_of watched.now n ≡ lit
        → IsFalsified (marked literal_set.now) (clause_of (clauses_of clauses.now) n) → ⊥) }
{
    let mut pending = first_of(heads, lit);
    while pending > 0 {
        let watch = pending as usize - 1;
        if is_falsified(clauses.lits(watch / 2), literal_set) {
            return Some((watch / 2) as u32);
        }
        pending = links[watch];
    }
    None
}

/// Where the literal's list begins, and 0 where it has none.
pub fn first_of(heads: &[u32], lit: Lit) -> u32
    ensures { result ≡ slice_index_or heads.now lit 0 }
{
    heads.get(lit.code() as usize).copied().unwrap_or(0)
}

/// Whether each literal is the negation of one of the set.
pub fn is_falsified(lits: &[Lit], literal_set: &[bool]) -> bool
    ensures { IsTrue result ↔ IsFalsified (marked literal_set.now) lits.now }
{
    for lit in lits {
        if !is_member(literal_set, lit.negate()) {
            return false;
        }
    }
    true
}

/// Whether the literal is in the set.
fn is_member(literal_set: &[bool], lit: Lit) -> bool
    ensures { result ≡ marked literal_set.now lit }
{
    literal_set
        .get(lit.code() as usize)
        .copied()
        .unwrap_or(false)
}
