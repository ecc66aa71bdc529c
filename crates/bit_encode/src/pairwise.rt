//! Gates over two words, bit by bit.
ghost use Rattle.std.specs.Prelude.{◌≡◌, IfOk, All, length};
ghost use Rattle.gate_build.specs.Circuits.{IsMade, Extends};
ghost use Rattle.bit_encode.specs.Arithmetic.{pair_of, pairwise_of};
ghost use Rattle.bit_encode.specs.Made.{AreMade, IsMadeGate};

use fsmv_base::NoMemory;
use gate_build::Gates;
use sat_lits::Lit;
use std::alloc::Global;

/// What is made of two bits.
#[derive(Clone, Copy)]
pub enum PairGate {
    /// Their conjunction.
    And,
    /// Whether they are the same.
    Same,
    /// The first where a literal is true, else the second.
    Choose(Lit),
}

/// The literal that is made of two bits.
fn pair(gates: &mut Gates, gate: &PairGate, a: Lit, b: Lit) -> Result<Lit, NoMemory>
    requires made_a { IsMade gates.old a }
    requires made_b { IsMade gates.old b }
    requires made_gate { IsMadeGate gates.old gate.now }
    ensures numbered { IfOk result (λ l. (l, gates.new) ≡ pair_of gate.now a b gates.old) }
    ensures made { IfOk result (λ l. IsMade gates.new l) }
    ensures extends { Extends gates.old gates.new }
{
    match gate {
        PairGate::And => gates.and(a, b),
        PairGate::Same => {
            let differs = gates.xor(a, b)?;
            Ok(differs.negate())
        }
        PairGate::Choose(c) => gates.mux(*c, a, b),
    }
}

/// One literal for each two bits of the same place, from the lowest.
#[tactic(auto, using(crate::proofs::MadeLemmas::made_steps))]
pub fn pairwise(
    alloc: Global,
    gates: &mut Gates,
    gate: &PairGate,
    a: &[Lit],
    b: &[Lit],
) -> Result<Vec<Lit>, NoMemory>
    requires same { length a.now ≡ length b.now }
    requires made_a { AreMade gates.old a.now }
    requires made_b { AreMade gates.old b.now }
    requires made_gate { IsMadeGate gates.old gate.now }
    ensures numbered { IfOk result (λ word. (word.items, gates.new) ≡ pairwise_of gate.now a.now b.now gates.old) }
    ensures width { IfOk result (λ word. length word.items ≡ length a.now) }
    ensures made { IfOk result (λ word. AreMade gates.new word.items) }
    ensures extends { Extends gates.old gates.new }
{
    let mut word = Vec::new(alloc);
    for i in 0..a.len() {
        let lit = pair(gates, gate, a[i], b[i])?;
        word.push(lit)?;
    }
    Ok(word)
}
