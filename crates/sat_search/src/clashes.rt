//! Assumptions that contradict each other.
ghost use Rattle.std.specs.Prelude.{◌↔◌, IsTrue};
ghost use Rattle.sat_search.specs.Clashes.{HasClash};

use sat_lits::Lit;

/// Whether some literal stands beside its negation. It takes no memory, and so its time grows with the
/// square of the number of literals.
pub fn clash(lits: &[Lit]) -> bool
    ensures { IsTrue result ↔ HasClash lits.now }
{
    for lit in lits {
        if lits.contains(&lit.negate()) {
            return true;
        }
    }
    false
}
