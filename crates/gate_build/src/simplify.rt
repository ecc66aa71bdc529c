//! Conjunctions of two literals before any gate.
ghost use Rattle.std.specs.Prelude.{◌≡◌};
ghost use Rattle.gate_build.specs.Numbering.{simplified, sorted_pair};

use sat_lits::Lit;

/// The conjunction of two literals where it needs no gate.
#[tactic(auto, unfolding(crate::specs::Numbering::simplified))]
pub fn simplify(a: Lit, b: Lit) -> Option<Lit>
    ensures { result ≡ simplified a b }
{
    let truth = Lit::new(1, true);
    let falsity = Lit::new(1, false);
    if a == falsity || b == falsity || a == b.negate() {
        return Some(falsity);
    }
    if a == truth {
        return Some(b);
    }
    if b == truth || a == b {
        return Some(a);
    }
    None
}

/// Two literals, the one of the lower code first.
pub fn sort_pair(a: Lit, b: Lit) -> (Lit, Lit)
    ensures { result ≡ sorted_pair a b }
{
    if a.code() < b.code() { (a, b) } else { (b, a) }
}
