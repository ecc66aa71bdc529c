//! Products of words, and remainders of divisions.
ghost use Rattle.std.specs.Prelude.{◌≡◌, ◌<◌, IfOk, length, replicate};
ghost use Rattle.gate_build.specs.Circuits.{IsMade, Extends};
ghost use Rattle.bit_encode.specs.Arithmetic.{pairwise_of, multiply_of, reduce_of, remainder_of};
ghost use Rattle.bit_encode.specs.Made.{AreMade};
ghost use Rattle.bit_encode.specs.Meaning.{Calculates, LeavesRemainder, product};
ghost use Rattle.bit_encode.specs.declared.pairwise.PairGate.TheVariants.{And};

use crate::pairwise::{PairGate, pairwise};
use crate::sums::{add, subtract};
use crate::widths::greater;
use crate::words::{constant_word, resize, shift, sign_of};
use fsmv_base::NoMemory;
use gate_build::Gates;
use sat_lits::Lit;
use std::alloc::Global;

/// The product of a word and one bit.
#[tactic(auto, using(crate::proofs::MadeLemmas::made_steps))]
fn row(alloc: Global, gates: &mut Gates, bit: Lit, word: &[Lit]) -> Result<Vec<Lit>, NoMemory>
    requires made_bit { IsMade gates.old bit }
    requires made_word { AreMade gates.old word.now }
    ensures numbered { IfOk result (λ made. (made.items, gates.new) ≡ pairwise_of And (replicate (length word.now) bit) word.now gates.old) }
    ensures width { IfOk result (λ made. length made.items ≡ length word.now) }
    ensures made { IfOk result (λ made. AreMade gates.new made.items) }
    ensures extends { Extends gates.old gates.new }
{
    let mut copies = Vec::new(alloc);
    copies.resize(word.len(), bit)?;
    pairwise(alloc, gates, &PairGate::And, &copies, word)
}

/// The product of two words of one width, at that width.
#[tactic(auto, using(crate::proofs::MadeLemmas::made_steps))]
pub fn multiply(
    alloc: Global,
    gates: &mut Gates,
    a: &[Lit],
    b: &[Lit],
) -> Result<Vec<Lit>, NoMemory>
    requires same { length a.now ≡ length b.now }
    requires made_a { AreMade gates.old a.now }
    requires made_b { AreMade gates.old b.now }
    ensures numbered { IfOk result (λ word. (word.items, gates.new) ≡ multiply_of a.now b.now gates.old) }
    ensures multiplies { IfOk result (λ word. Calculates gates.new product a.now b.now word.items) }
    ensures width { IfOk result (λ word. length word.items ≡ length b.now) }
    ensures made { IfOk result (λ word. AreMade gates.new word.items) }
    ensures extends { Extends gates.old gates.new }
{
    let mut sum = constant_word(alloc, b.len(), 0)?;
    let mut shifted = Vec::from_slice(alloc, b)?;
    for bit in a {
        let row = row(alloc, gates, *bit, &shifted)?;
        sum = add(alloc, gates, &sum, &row, gates.constant(false))?;
        shifted = shift(alloc, gates.constant(false), &shifted)?;
    }
    Ok(sum)
}

/// One step of a division: `b` is taken from `a` where that does not go below 0.
#[tactic(auto, using(crate::proofs::MadeLemmas::made_steps), unfolding(crate::specs::Arithmetic::reduce_of))]
fn reduce(alloc: Global, gates: &mut Gates, a: &[Lit], b: &[Lit]) -> Result<Vec<Lit>, NoMemory>
    requires same { length a.now ≡ length b.now }
    requires made_a { AreMade gates.old a.now }
    requires made_b { AreMade gates.old b.now }
    ensures numbered { IfOk result (λ word. (word.items, gates.new) ≡ reduce_of a.now b.now gates.old) }
    ensures width { IfOk result (λ word. length word.items ≡ length a.now) }
    ensures made { IfOk result (λ word. AreMade gates.new word.items) }
    ensures extends { Extends gates.old gates.new }
{
    let difference = subtract(alloc, gates, a, b)?;
    pairwise(
        alloc,
        gates,
        &PairGate::Choose(sign_of(&difference)),
        a,
        &difference,
    )
}

/// The remainder of the division of a number that is not below 0 by one above 0, one bit wider than both.
#[tactic(auto, using(crate::proofs::MadeLemmas::made_steps))]
pub fn remainder(
    alloc: Global,
    gates: &mut Gates,
    a: &[Lit],
    b: &[Lit],
) -> Result<Vec<Lit>, NoMemory>
    requires made_a { AreMade gates.old a.now }
    requires made_b { AreMade gates.old b.now }
    ensures numbered { IfOk result (λ word. (word.items, gates.new) ≡ remainder_of a.now b.now gates.old) }
    ensures leaves { IfOk result (λ word. LeavesRemainder gates.new a.now b.now word.items) }
    ensures made { IfOk result (λ word. AreMade gates.new word.items) }
    ensures extends { Extends gates.old gates.new }
{
    let divisor = resize(alloc, b, 1 + greater(a.len(), b.len()))?;
    let mut remainder = constant_word(alloc, divisor.len(), 0)?;
    let mut next = a.len();
    while next > 0 {
        next -= 1;
        let doubled = shift(alloc, a[next], &remainder)?;
        remainder = reduce(alloc, gates, &doubled, &divisor)?;
    }
    Ok(remainder)
}
