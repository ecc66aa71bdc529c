//! Comparisons of words of any widths.
ghost use Rattle.std.specs.Prelude.{◌≡◌, IfOk, int_lt};
ghost use Rattle.std.specs.Ordering.{int_eq};
ghost use Rattle.gate_build.specs.Circuits.{IsMade, Extends};
ghost use Rattle.bit_encode.specs.Arithmetic.{less_of, equal_of};
ghost use Rattle.bit_encode.specs.Made.{AreMade};
ghost use Rattle.bit_encode.specs.Meaning.{Tests};

use crate::pairwise::{PairGate, pairwise};
use crate::sums::subtract;
use crate::widths::greater;
use crate::words::{resize, sign_of};
use fsmv_base::NoMemory;
use gate_build::Gates;
use sat_lits::Lit;
use std::alloc::Global;

/// Whether the first number is less than the second.
#[tactic(auto, using(crate::proofs::MadeLemmas::made_steps), unfolding(crate::specs::Arithmetic::less_of))]
pub fn less(alloc: Global, gates: &mut Gates, a: &[Lit], b: &[Lit]) -> Result<Lit, NoMemory>
    requires made_a { AreMade gates.old a.now }
    requires made_b { AreMade gates.old b.now }
    ensures numbered { IfOk result (λ l. (l, gates.new) ≡ less_of a.now b.now gates.old) }
    ensures tests { IfOk result (λ l. Tests gates.new int_lt a.now b.now l) }
    ensures made { IfOk result (λ l. IsMade gates.new l) }
    ensures extends { Extends gates.old gates.new }
{
    let width = 1 + greater(a.len(), b.len());
    let a = resize(alloc, a, width)?;
    let b = resize(alloc, b, width)?;
    let difference = subtract(alloc, gates, &a, &b)?;
    Ok(sign_of(&difference))
}

/// Whether both numbers are equal.
#[tactic(auto, using(crate::proofs::MadeLemmas::made_steps), unfolding(crate::specs::Arithmetic::equal_of))]
pub fn equal(alloc: Global, gates: &mut Gates, a: &[Lit], b: &[Lit]) -> Result<Lit, NoMemory>
    requires made_a { AreMade gates.old a.now }
    requires made_b { AreMade gates.old b.now }
    ensures numbered { IfOk result (λ l. (l, gates.new) ≡ equal_of a.now b.now gates.old) }
    ensures tests { IfOk result (λ l. Tests gates.new int_eq a.now b.now l) }
    ensures made { IfOk result (λ l. IsMade gates.new l) }
    ensures extends { Extends gates.old gates.new }
{
    let width = greater(a.len(), b.len());
    let a = resize(alloc, a, width)?;
    let b = resize(alloc, b, width)?;
    let same = pairwise(alloc, gates, &PairGate::Same, &a, &b)?;
    gates.all(&same)
}
