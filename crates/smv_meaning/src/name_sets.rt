//! Sets of names.

ghost use Rattle.std.specs.Prelude.{◌≡◌, OnOk};
ghost use Rattle.smv_meaning.specs.NameSets.{in_set, no_name, and_name};

use smv_ast::{NoMemory, Text};
use std::alloc::Global;
use std::collections::HashSet;

/// The empty set of names.
#[tactic(auto, using(crate::proofs::NameSetLemmas::in_set_empty))]
pub fn no_names<'a>(alloc: Global) -> HashSet<&'a str>
    ensures { in_set result ≡ no_name }
{
    HashSet::new(alloc)
}

/// Inserts a name.
pub fn insert_name<'a>(names: &mut HashSet<&'a str>, name: &'a Text) -> Result<(), NoMemory>
    ensures { OnOk result (in_set names.new ≡ and_name (in_set names.old) name.now) }
{
    names.insert(name.as_str())?;
    Ok(())
}
