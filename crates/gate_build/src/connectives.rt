//! Connectives made of And gates.
ghost use Rattle.std.specs.Prelude.{◌≡◌, IfOk, OnErr, All};
ghost use Rattle.gate_build.specs.Circuits.{IsMade, Extends};
ghost use Rattle.gate_build.specs.Meaning.{Computes, either, differ, chosen, all_true, any_true};
ghost use Rattle.gate_build.specs.Numbering.{or_of, xor_of, mux_of, all_of, any_of};

use crate::gates::Gates;
use fsmv_base::NoMemory;
use sat_lits::Lit;

impl Gates {
    /// The disjunction of two literals. After `NoMemory` the circuit is unchanged.
    #[tactic(auto, unfolding(crate::specs::Numbering::or_of))]
    pub fn or(&mut self, a: Lit, b: Lit) -> Result<Lit, NoMemory>
        requires made_a { IsMade self.old a }
        requires made_b { IsMade self.old b }
        ensures numbered { IfOk result (λ l. (l, self.new) ≡ or_of a b self.old) }
        ensures disjunction { IfOk result (λ l. Computes self.new l (either a b)) }
        ensures made { IfOk result (λ l. IsMade self.new l) }
        ensures extends { Extends self.old self.new }
        ensures err { OnErr result (self.new ≡ self.old) }
    {
        let neither = self.and(a.negate(), b.negate())?;
        Ok(neither.negate())
    }

    /// Whether two literals differ. After `NoMemory` some of its gates may have been made.
    #[tactic(auto, unfolding(crate::specs::Numbering::xor_of))]
    pub fn xor(&mut self, a: Lit, b: Lit) -> Result<Lit, NoMemory>
        requires made_a { IsMade self.old a }
        requires made_b { IsMade self.old b }
        ensures numbered { IfOk result (λ l. (l, self.new) ≡ xor_of a b self.old) }
        ensures difference { IfOk result (λ l. Computes self.new l (differ a b)) }
        ensures made { IfOk result (λ l. IsMade self.new l) }
        ensures extends { Extends self.old self.new }
    {
        let first_alone = self.and(a, b.negate())?;
        let second_alone = self.and(a.negate(), b)?;
        self.or(first_alone, second_alone)
    }

    /// The literal `a` where `c` is true, and otherwise `b`. After `NoMemory` some of its gates may have
    /// been made.
    #[tactic(auto, unfolding(crate::specs::Numbering::mux_of))]
    pub fn mux(&mut self, c: Lit, a: Lit, b: Lit) -> Result<Lit, NoMemory>
        requires made_c { IsMade self.old c }
        requires made_a { IsMade self.old a }
        requires made_b { IsMade self.old b }
        ensures numbered { IfOk result (λ l. (l, self.new) ≡ mux_of c a b self.old) }
        ensures choice { IfOk result (λ l. Computes self.new l (chosen c a b)) }
        ensures made { IfOk result (λ l. IsMade self.new l) }
        ensures extends { Extends self.old self.new }
    {
        let chosen_a = self.and(c, a)?;
        let chosen_b = self.and(c.negate(), b)?;
        self.or(chosen_a, chosen_b)
    }

    /// The conjunction of literals, from the left, which begins with true. After `NoMemory` some of its
    /// gates may have been made.
    pub fn all(&mut self, lits: &[Lit]) -> Result<Lit, NoMemory>
        requires { All (IsMade self.old) lits.now }
        ensures numbered { IfOk result (λ l. (l, self.new) ≡ all_of lits.now self.old) }
        ensures conjunction { IfOk result (λ l. Computes self.new l (all_true lits.now)) }
        ensures made { IfOk result (λ l. IsMade self.new l) }
        ensures extends { Extends self.old self.new }
    {
        let mut all = self.constant(true);
        for lit in lits {
            all = self.and(all, *lit)?;
        }
        Ok(all)
    }

    /// The disjunction of literals, from the left, which begins with false. After `NoMemory` some of its
    /// gates may have been made.
    pub fn any(&mut self, lits: &[Lit]) -> Result<Lit, NoMemory>
        requires { All (IsMade self.old) lits.now }
        ensures numbered { IfOk result (λ l. (l, self.new) ≡ any_of lits.now self.old) }
        ensures disjunction { IfOk result (λ l. Computes self.new l (any_true lits.now)) }
        ensures made { IfOk result (λ l. IsMade self.new l) }
        ensures extends { Extends self.old self.new }
    {
        let mut any = self.constant(false);
        for lit in lits {
            any = self.or(any, *lit)?;
        }
        Ok(any)
    }
}
