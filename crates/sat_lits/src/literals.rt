//! A variable or its negation.
ghost use Rattle.std.specs.Prelude.{◌≡◌, ◌≢◌, ◌<◌, ◌≤◌, ◌^◌};
ghost use Rattle.sat_lits.specs.Literals.{literal, variable_of, is_positive_literal, negation};

use std::marker::Model;

/// A literal: a variable, numbered from 1 and below 2^30, or its negation.
///
/// Contracts see it as its code, which is twice the variable, and one more where it is negative.
#[derive(Clone, Copy, Debug, PartialEq, Eq, Hash)]
pub struct Lit {
    code: u32,
}

impl Model for Lit {
    ghost use Rattle.std.specs.Prelude.{ℕ, ◌<◌, ◌≤◌, ◌^◌};

    ghost Value = { ℕ };

    ghost view = { λ l. l.code };

    ghost invariant = { λ l. (2 ≤ l.code) × (l.code < 2 ^ 31) };

    ghost inverse = { λ code. record { code = code } };
}

impl Lit {
    /// The variable itself where `positive`, and otherwise its negation.
    pub fn new(var: u32, positive: bool) -> Lit
        requires numbered { 1 ≤ var }
        requires small { var < 2 ^ 30 }
        ensures { result ≡ literal var positive }
    {
        Lit {
            code: if positive { 2 * var } else { 2 * var + 1 },
        }
    }

    /// Twice the variable, and one more where the literal is negative: the position of the literal in a
    /// table over all literals.
    pub fn code(self) -> u32
        ensures code { result ≡ self }
        ensures numbered { 2 ≤ result }
        ensures small { result < 2 ^ 31 }
    {
        self.code
    }

    /// The literal's variable, from 1 and below 2^30.
    pub fn var(self) -> u32
        ensures variable { result ≡ variable_of self }
        ensures numbered { 1 ≤ result }
        ensures small { result < 2 ^ 30 }
    {
        self.code / 2
    }

    pub fn is_positive(self) -> bool
        ensures { result ≡ is_positive_literal self }
    {
        self.code % 2 == 0
    }

    /// The other literal of the same variable.
    pub fn negate(self) -> Lit
        ensures negation { result ≡ negation self }
        ensures other { result ≢ self }
        ensures back { negation result ≡ self }
    {
        Lit {
            code: self.code + 1 - 2 * (self.code % 2),
        }
    }
}
