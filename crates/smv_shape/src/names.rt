//! Sets of names.

ghost use Rattle.std.specs.Prelude.{◌≡◌, ℕ, List, OnOk, if◌then◌else◌};
ghost use Rattle.std.specs.Str.{bytes_eq};
ghost use Rattle.smv_meaning.specs.NameSets as spec;

use smv_ast::NoMemory;
use std::collections::HashSet;

/// Inserts a name into the set, or removes it.
#[tactic(auto, using(crate::proofs::NameLemmas::after_update))]
pub fn put<'a>(names: &mut HashSet<&'a str>, name: &'a str, within: bool) -> Result<(), NoMemory>
    ensures { OnOk result ((other : List ℕ) → spec.in_set names.new other
        ≡ (if bytes_eq name.now other then within else spec.in_set names.old other)) }
{
    if within {
        names.insert(name)?;
    } else {
        names.remove(name);
    }
    Ok(())
}

pub fn has(names: &HashSet<&str>, name: &str) -> bool
    ensures { result ≡ spec.in_set names.now name.now }
{
    names.contains(name)
}
