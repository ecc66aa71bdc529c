//! A disjunction of literals.
ghost use Rattle.std.specs.Prelude.{◌≡◌, ◌↔◌, IfOk, IfSome, IsSome};
ghost use Rattle.sat_lits.specs.Clauses.{HasRisingVariables};

use crate::literals::Lit;
use fsmv_base::NoMemory;
use std::alloc::Global;
use std::marker::Model;

/// A clause: the disjunction of its literals, whose variables strictly increase. So no variable
/// stands in it twice. The empty clause is false.
///
/// Contracts see it as the list of its literals' codes.
#[derive(Debug, Drop)]
pub struct Clause {
    lits: Vec<Lit>,
}

impl Model for Clause {
    ghost use Rattle.std.specs.Prelude.{ℕ, List};
    ghost use Rattle.sat_lits.specs.Clauses.{HasRisingVariables};

    ghost Value = { List ℕ };

    ghost view = { λ c. c.lits.items };

    ghost invariant = { λ c. HasRisingVariables c.lits.items };
}

impl Clause {
    /// The clause of these literals, or `None` where their variables do not strictly increase. It
    /// takes no memory.
    pub fn new(lits: Vec<Lit>) -> Option<Clause>
        ensures exact { IsSome result ↔ HasRisingVariables lits.items }
        ensures kept { IfSome result (λ clause. clause ≡ lits.items) }
    {
        let mut previous = 0;
        for lit in &lits {
            let var = lit.var();
            if var <= previous {
                return None;
            }
            previous = var;
        }
        Some(Clause { lits })
    }

    /// The literals, by rising variables.
    pub fn lits(&self) -> &[Lit]
        ensures same { result.now ≡ self.now }
        ensures rising { HasRisingVariables self.now }
    {
        &self.lits
    }

    /// A copy of the clause.
    pub fn try_clone(&self, alloc: Global) -> Result<Clause, NoMemory>
        ensures { IfOk result (λ copy. copy ≡ self.now) }
    {
        Ok(Clause {
            lits: Vec::from_slice(alloc, &self.lits)?,
        })
    }
}
