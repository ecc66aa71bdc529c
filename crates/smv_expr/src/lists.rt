//! Lists that are read as a first item and the others.

ghost use Rattle.std.specs.Prelude.{◌≡◌, ◌∷◌, IfOk};

use smv_ast::{List, NoMemory};
use std::alloc::Global;

/// The first item, and the others after it.
pub fn with_first<T: Drop>(alloc: Global, first: T, more: List<T>) -> Result<List<T>, NoMemory>
    ensures { IfOk result (λ all. all ≡ first ∷ more) }
{
    let mut all = List::new(alloc);
    all.push(first)?;
    all.append(more)?;
    Ok(all)
}
