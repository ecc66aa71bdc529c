//! Sets of numbers.

ghost use Rattle.std.specs.Prelude.{◌≡◌, OnOk};
ghost use Rattle.smv_names.specs.NumberSets.{has_number, no_number, and_number};

use smv_ast::NoMemory;
use std::alloc::Global;
use std::collections::HashSet;

/// The empty set of numbers.
#[tactic(auto, using(crate::proofs::NumberSetLemmas::has_number_empty))]
pub fn no_numbers(alloc: Global) -> HashSet<i64>
    ensures { has_number result ≡ no_number }
{
    HashSet::new(alloc)
}

/// Inserts a number.
#[tactic(auto, using(crate::proofs::NumberSetLemmas::has_number_inserted))]
pub fn insert_number(numbers: &mut HashSet<i64>, n: i64) -> Result<(), NoMemory>
    ensures { OnOk result (has_number numbers.new ≡ and_number (has_number numbers.old) n) }
{
    numbers.insert(n)?;
    Ok(())
}
