//! Sums and differences of words.
ghost use Rattle.std.specs.Prelude.{◌≡◌, Bool, IfOk, length};
ghost use Rattle.gate_build.specs.Circuits.{IsMade, Extends};
ghost use Rattle.bit_encode.specs.Arithmetic.{carry_of, add_of, subtract_of};
ghost use Rattle.bit_encode.specs.Made.{AreMade};
ghost use Rattle.bit_encode.specs.Meaning.{AddsUp, Calculates, difference};

use crate::words::negate;
use fsmv_base::NoMemory;
use gate_build::Gates;
use sat_lits::Lit;
use std::alloc::Global;

/// The next carry, where `t` is the xor of `a` and `b`. The highest bit makes none.
#[tactic(auto, using(crate::proofs::MadeLemmas::made_steps), unfolding(crate::specs::Arithmetic::carry_of))]
fn carry(gates: &mut Gates, last: bool, a: Lit, b: Lit, c: Lit, t: Lit) -> Result<Lit, NoMemory>
    requires made_a { IsMade gates.old a }
    requires made_b { IsMade gates.old b }
    requires made_c { IsMade gates.old c }
    requires made_t { IsMade gates.old t }
    ensures numbered { IfOk result (λ l. (l, gates.new) ≡ carry_of last a b c t gates.old) }
    ensures made { IfOk result (λ l. IsMade gates.new l) }
    ensures extends { Extends gates.old gates.new }
{
    if last {
        return Ok(gates.constant(false));
    }
    let both = gates.and(a, b)?;
    let one = gates.and(c, t)?;
    gates.or(both, one)
}

/// The sum of two words of one width and a carry.
#[tactic(auto, using(crate::proofs::MadeLemmas::made_steps))]
pub fn add(
    alloc: Global,
    gates: &mut Gates,
    a: &[Lit],
    b: &[Lit],
    carry_in: Lit,
) -> Result<Vec<Lit>, NoMemory>
    requires same { length a.now ≡ length b.now }
    requires made_a { AreMade gates.old a.now }
    requires made_b { AreMade gates.old b.now }
    requires made_carry { IsMade gates.old carry_in }
    ensures numbered { IfOk result (λ word. (word.items, gates.new) ≡ add_of a.now b.now carry_in gates.old) }
    ensures adds { IfOk result (λ word. AddsUp gates.new a.now b.now carry_in word.items) }
    ensures width { IfOk result (λ word. length word.items ≡ length a.now) }
    ensures made { IfOk result (λ word. AreMade gates.new word.items) }
    ensures extends { Extends gates.old gates.new }
{
    let mut word = Vec::new(alloc);
    let mut c = carry_in;
    for i in 0..a.len() {
        let (x, y) = (a[i], b[i]);
        let t = gates.xor(x, y)?;
        let sum = gates.xor(t, c)?;
        word.push(sum)?;
        c = carry(gates, i + 1 == a.len(), x, y, c, t)?;
    }
    Ok(word)
}

/// The difference of two words of one width.
#[tactic(auto, using(crate::proofs::MadeLemmas::made_steps), unfolding(crate::specs::Arithmetic::subtract_of))]
pub fn subtract(
    alloc: Global,
    gates: &mut Gates,
    a: &[Lit],
    b: &[Lit],
) -> Result<Vec<Lit>, NoMemory>
    requires same { length a.now ≡ length b.now }
    requires made_a { AreMade gates.old a.now }
    requires made_b { AreMade gates.old b.now }
    ensures numbered { IfOk result (λ word. (word.items, gates.new) ≡ subtract_of a.now b.now gates.old) }
    ensures subtracts { IfOk result (λ word. Calculates gates.new difference a.now b.now word.items) }
    ensures width { IfOk result (λ word. length word.items ≡ length a.now) }
    ensures made { IfOk result (λ word. AreMade gates.new word.items) }
    ensures extends { Extends gates.old gates.new }
{
    let negated = negate(alloc, b)?;
    add(alloc, gates, a, &negated, gates.constant(true))
}
