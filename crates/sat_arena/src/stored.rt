//! Clauses that are satisfied for good.
ghost use Rattle.std.specs.Prelude.{◌≡◌};
ghost use Rattle.std.specs.List.{list_any};
ghost use Rattle.sat_arena.specs.Trails.{marked};
ghost use Rattle.sat_arena.specs.ArenaState.{clause_satisfied};

use sat_lits::Lit;

/// Whether these are two or more literals of which one is in the set.
pub fn clause_satisfied(lits: &[Lit], literal_set: &[bool]) -> bool
    ensures { result ≡ clause_satisfied (marked literal_set.now) lits.now }
{
    lits.len() > 1 && has_member(literal_set, lits)
}

/// Whether one of the literals is in the set.
fn has_member(literal_set: &[bool], lits: &[Lit]) -> bool
    ensures { result ≡ list_any (marked literal_set.now) lits.now }
{
    for lit in lits {
        let code = lit.code() as usize;
        if code < literal_set.len() && literal_set[code] {
            return true;
        }
    }
    false
}
