//! And gates.
ghost use Rattle.std.specs.Prelude.{◌≡◌, ◌<◌, ◌≤◌, ◌^◌, IfOk, OnErr, All};
ghost use Rattle.sat_lits.specs.Literals.{variable_of};
ghost use Rattle.gate_build.specs.Circuits.{no_gates, constant, clauses_of, IsMade, IsInput, Extends, IsSound};
ghost use Rattle.gate_build.specs.Meaning.{Computes, ExtendsOnce, both};
ghost use Rattle.gate_build.specs.Numbering.{input_of, and_of, output_of, IsShared};

use crate::definition::{Outputs, clause, define};
use crate::simplify::{simplify, sort_pair};
use fsmv_base::NoMemory;
use sat_lits::{Clause, Lit};
use std::alloc::Global;
use std::marker::Model;

/// A circuit of And gates over variables that are numbered from 1, with the clauses that define it.
///
/// Variable 1 is true; each other variable is an input or the output of a gate. Two literals have at
/// most one gate. Variables stay below 2^30: one past that reports `NoMemory`.
///
/// Contracts see the number of variables, and the gates in the order in which they were made.
#[derive(Drop)]
pub struct Gates {
    alloc: Global,
    vars: u32,
    clauses: Vec<Clause>,
    outputs: Outputs,
}

impl Model for Gates {
    ghost use Rattle.gate_build.specs.Circuits.{Circuit};
    ghost use Rattle.gate_build.specs.GatesState.{KeepsTogether};

    ghost Value = { Circuit };

    ghost view = { λ g. record { vars = g.vars; gates = g.outputs.entries } };

    ghost invariant = { λ g. KeepsTogether g.vars g.clauses.items g.outputs.entries };
}

impl Gates {
    /// The circuit of variable 1 alone, which its one clause makes true.
    pub fn new(alloc: Global) -> Result<Gates, NoMemory>
        ensures { IfOk result (λ gates. gates ≡ no_gates) }
    {
        let truth = clause(alloc, &[Lit::new(1, true)])?;
        Ok(Gates {
            alloc,
            vars: 1,
            clauses: vec![in alloc; truth]?,
            outputs: Outputs::new(alloc),
        })
    }

    /// The literal that is true, or the one that is false.
    pub fn constant(&self, value: bool) -> Lit
        ensures value { result ≡ constant value }
        ensures made { IsMade self.now result }
    {
        let _vars = &self.vars;
        Lit::new(1, value)
    }

    /// How many variables are made. They have the numbers from 1 to this, which is below 2^30.
    pub fn vars(&self) -> u32
        ensures count { result ≡ self.now.vars }
        ensures positive { 1 ≤ result }
        ensures small { result < 2 ^ 30 }
    {
        self.vars
    }

    /// The clauses that define the circuit: the one of variable 1, and then three a gate, in the order in
    /// which the gates were made. Each assignment of the inputs extends in exactly one way to one of all
    /// variables that satisfies them.
    pub fn clauses(&self) -> &[Clause]
        ensures listed { result.now ≡ clauses_of self.now }
        ensures one_extension { ExtendsOnce (IsInput self.now) self.now.vars result.now }
        ensures made { All (All (IsMade self.now)) result.now }

        // What every circuit keeps, whatever was called before.
        ensures sound { IsSound self.now }
    {
        &self.clauses
    }

    /// A new variable, which no clause restricts. After `NoMemory` the circuit is unchanged.
    pub fn input(&mut self) -> Result<Lit, NoMemory>
        ensures numbered { IfOk result (λ l. (l, self.new) ≡ input_of self.old) }
        ensures input { IfOk result (λ l. IsInput self.new (variable_of l)) }
        ensures made { IfOk result (λ l. IsMade self.new l) }
        ensures extends { Extends self.old self.new }
        ensures err { OnErr result (self.new ≡ self.old) }
    {
        if self.vars + 1 >= 1 << 30 {
            return Err(NoMemory);
        }
        self.vars += 1;
        Ok(Lit::new(self.vars, true))
    }

    /// The conjunction of two literals. Where it needs a gate, and these two literals have one, in either
    /// order, it is the output of that gate. After `NoMemory` the circuit is unchanged.
    pub fn and(&mut self, a: Lit, b: Lit) -> Result<Lit, NoMemory>
        requires made_a { IsMade self.old a }
        requires made_b { IsMade self.old b }
        ensures numbered { IfOk result (λ l. (l, self.new) ≡ and_of a b self.old) }
        ensures conjunction { IfOk result (λ l. Computes self.new l (both a b)) }
        ensures shared { IfOk result (λ l. IsShared a b l self.new) }
        ensures made { IfOk result (λ l. IsMade self.new l) }
        ensures extends { Extends self.old self.new }
        ensures err { OnErr result (self.new ≡ self.old) }
    {
        if let Some(lit) = simplify(a, b) {
            return Ok(lit);
        }
        let (low, high) = sort_pair(a, b);
        self.gate(low, high)
    }

    /// The output of the gate of two literals of different variables above the first, the one of the lower
    /// code first. The gate is made where there is none.
    fn gate(&mut self, low: Lit, high: Lit) -> Result<Lit, NoMemory>
        requires above { 2 ≤ variable_of low }
        requires apart { variable_of low < variable_of high }
        requires made { variable_of high ≤ self.old.vars }
        ensures numbered { IfOk result (λ l. (l, self.new) ≡ output_of self.old (low, high)) }
        ensures made { IfOk result (λ l. IsMade self.new l) }
        ensures extends { Extends self.old self.new }
        ensures err { OnErr result (self.new ≡ self.old) }
    {
        if let Some(output) = self.outputs.get(&(low, high)) {
            return Ok(*output);
        }
        if self.vars + 1 >= 1 << 30 {
            return Err(NoMemory);
        }
        let output = Lit::new(self.vars + 1, true);
        define(
            self.alloc,
            &mut self.clauses,
            &mut self.outputs,
            low,
            high,
            output,
        )?;
        self.vars += 1;
        Ok(output)
    }
}
