//! The modules of a program by name.

ghost use Rattle.std.specs.Prelude.{◌≡◌, find};
ghost use Rattle.std.specs.Option.{option_copied};
ghost use Rattle.integrate_impose.specs.Lists.{first_index};
ghost use Rattle.integrate_impose.specs.Impose as spec;

use crate::texts::same_text;
use smv_ast::Module;

/// The index of the first module of this name.
pub fn index_of_module(called: &str, modules: &[Module]) -> Option<usize>
    ensures { result ≡ first_index (spec.is_named called.now) modules.now }
{
    for (i, owner) in modules.iter().enumerate() {
        if same_text(&owner.name, called) {
            return Some(i);
        }
    }
    None
}

/// The first module of this name.
pub fn module_named<'a>(called: &str, modules: &'a [Module]) -> Option<&'a Module>
    ensures { option_copied result ≡ find (spec.is_named called.now) modules.now }
{
    for owner in modules {
        if same_text(&owner.name, called) {
            return Some(owner);
        }
    }
    None
}
