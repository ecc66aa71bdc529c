//! The clause that is left when a walk ends.
ghost use Rattle.std.specs.Prelude.{◌≡◌, ℕ, map};
ghost use Rattle.std.specs.List.Sorted.{IsPermutation, IsNonDecreasing};
ghost use Rattle.sat_lits.specs.Literals.{negation};
ghost use Rattle.sat_analyze.specs.Walked.{HaveOwnVariables};

use sat_lits::{Clause, Lit};

/// The clause of the literals' negations.
pub fn clause_against(lits: Vec<Lit>) -> Clause
    requires { HaveOwnVariables lits.items }
    ensures { IsPermutation (map negation lits.items) result }
{
    let mut lits = lits;
    for lit in lits.iter_mut() {
        *lit = lit.negate();
    }
    sort(&mut lits);
    Clause::new(lits).unwrap()
}

/// Brings the literals into the order of their variables.
fn sort(lits: &mut Vec<Lit>)
    ensures moved { IsPermutation lits.old.items lits.new.items }
    ensures sorted { IsNonDecreasing lits.new.items }
{
    lits.sort_unstable_by_key(|lit| lit.code());
}
