//! The clauses that define a gate.
ghost use Rattle.std.specs.Prelude.{◌≡◌, ◌<◌, ◌∷◌, ◌++◌, [], Some, None, IfOk, OnOk, OnErr};
ghost use Rattle.std.specs.Map.{lookup};
ghost use Rattle.sat_lits.specs.Literals.{variable_of};
ghost use Rattle.sat_lits.specs.Clauses.{HasRisingVariables};
ghost use Rattle.gate_build.specs.Circuits.{clauses_of_gate};
ghost use Rattle.gate_build.specs.Numbering.{pair_eq};

use fsmv_base::NoMemory;
use indexmap::IndexMap;
use sat_lits::{Clause, Lit};
use std::alloc::Global;

/// The outputs of gates by their operands, the operand of the lower code first.
pub type Outputs = IndexMap<(Lit, Lit), Lit>;

/// The clause of literals whose variables rise.
pub fn clause(alloc: Global, lits: &[Lit]) -> Result<Clause, NoMemory>
    requires { HasRisingVariables lits.now }
    ensures { IfOk result (λ made. made ≡ lits.now) }
{
    let lits = Vec::from_slice(alloc, lits)?;
    Ok(Clause::new(lits).unwrap())
}

/// Lists a gate and the three clauses by which its output is true exactly where both operands are.
/// After `NoMemory` nothing is listed.
pub fn define(
    alloc: Global,
    clauses: &mut Vec<Clause>,
    outputs: &mut Outputs,
    low: Lit,
    high: Lit,
    output: Lit,
) -> Result<(), NoMemory>
    requires apart { variable_of low < variable_of high }
    requires above { variable_of high < variable_of output }
    requires absent { lookup (pair_eq (low, high)) outputs.old.entries ≡ None }
    ensures clauses { OnOk result (clauses.new.items ≡ clauses.old.items ++ clauses_of_gate ((low, high), output)) }
    ensures outputs { OnOk result (outputs.new.entries ≡ outputs.old.entries ++ ((low, high), output) ∷ []) }
    ensures clauses_kept { OnErr result (clauses.new.items ≡ clauses.old.items) }
    ensures outputs_kept { OnErr result (outputs.new.entries ≡ outputs.old.entries) }
{
    let first = clause(alloc, &[low, output.negate()])?;
    let second = clause(alloc, &[high, output.negate()])?;
    let third = clause(alloc, &[low.negate(), high.negate(), output])?;
    clauses.reserve(3)?;
    outputs.insert((low, high), output)?;
    clauses.push_reserved(first);
    clauses.push_reserved(second);
    clauses.push_reserved(third);
    Ok(())
}
