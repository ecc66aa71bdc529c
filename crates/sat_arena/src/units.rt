//! Clauses of one literal.
ghost use Rattle.std.specs.Prelude.{◌≡◌, ℕ, ◌+◌, ◌*◌, ◌<◌, ◌≤◌, ◌^◌, ◌↔◌, [], All, length, slice_index_or, IfNone, IfSome, IsTrue};
ghost use Rattle.sat_arena.specs.ArenaState.{clauses_of, IsUnitOf};
ghost use Rattle.sat_arena.specs.Links.{AreListed};
ghost use Rattle.sat_arena.specs.Watches.{clause_of, watch_of};

use crate::clause_list::ClauseList;
use crate::falsified::first_of;
use sat_lits::Lit;

/// The position of the clause of this literal alone, among those that watch it. It goes through the
/// literal's list.
pub fn find_unit_in_list(
    clauses: &ClauseList,
    watched: &[Lit],
    links: &[u32],
    heads: &[u32],
    lit: Lit,
) -> Option<u32>
    requires small { length clauses.now < 2 ^ 31 }
    requires two_each { length watched.now ≡ 2 * length (clauses_of clauses.now) }
    requires within { All (λ l. l < length heads.now) watched.now }
    requires listed { AreListed links.now heads.now watched.now [] 0 0 }
    ensures some { IfSome result (λ position. (position < length clauses.now)
        × IsUnitOf lit (slice_index_or (clauses_of clauses.now) position [])) }
    ensures none { IfNone result ((n : ℕ) → n < length watched.now
        → watch_of watched.now n ≡ lit
        → IsUnitOf lit (clause_of (clauses_of clauses.now) n) → ⊥) }
{
    let mut pending = first_of(heads, lit);
    while pending > 0 {
        let watch = pending as usize - 1;
        if is_unit(clauses.lits(watch / 2), lit) {
            return Some((watch / 2) as u32);
        }
        pending = links[watch];
    }
    None
}

/// Whether these are the literal alone.
fn is_unit(lits: &[Lit], lit: Lit) -> bool
    ensures { IsTrue result ↔ IsUnitOf lit lits.now }
{
    lits.len() == 1 && lits[0] == lit
}
