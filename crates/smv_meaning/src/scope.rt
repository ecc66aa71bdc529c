//! The modules of a program with their names, looked up by name.

ghost use Rattle.std.specs.Prelude.{◌≡◌, ℕ, List, [], IfOk, OnOk, map, length, Some, slice_get, if◌then◌else◌};
ghost use Rattle.std.specs.Str.{bytes_eq};
ghost use Rattle.std.specs.Option.{option_copied};
ghost use Rattle.smv_meaning.specs.Entries.{entries_view};
ghost use Rattle.smv_meaning.specs.Scopes.{scope_view, scopes_of as scopes_of_program, entries_in, names_found, scope_found, names_by, IsModuleIndex};

use crate::entries::Entry;
use crate::names::Names;
use smv_ast::{List, NoMemory, Program, Text};
use sqlite_items::at;
use std::alloc::Global;
use std::collections::HashMap;

/// A module with its names.
#[derive(Drop)]
pub struct Scope<'a> {
    pub name: &'a Text,
    pub names: Names<'a>,
}

/// The modules of a program, in the order of the text.
pub fn scopes_of<'a>(alloc: Global, program: &'a Program) -> Result<List<Scope<'a>>, NoMemory>
    ensures { IfOk result (λ scopes. map scope_view scopes ≡ scopes_of_program program.now) }
{
    let mut scopes = List::new(alloc);
    for owner in program.modules.as_slice() {
        let names = Names::of_module(alloc, owner)?;
        scopes.push(Scope {
            name: &owner.name,
            names,
        })?;
    }
    Ok(scopes)
}

/// Inserts the number of a module under its name.
fn put<'a>(
    numbers: &mut HashMap<&'a str, usize>,
    scopes: &[Scope<'a>],
    k: usize,
    scope: &Scope<'a>,
) -> Result<(), NoMemory>
    requires { slice_get scopes.now k ≡ Some scope.now }
    ensures { OnOk result ((other : List ℕ) → names_by scopes.now numbers.new other
        ≡ (if bytes_eq scope.now.name.now other then entries_view scope.now.names.entries else
        names_by scopes.now numbers.old other)) }
{
    numbers.insert(scope.name.as_str(), k)?;
    Ok(())
}

/// The number of the first module of each name.
pub fn modules_by_name<'a>(
    alloc: Global,
    scopes: &[Scope<'a>],
) -> Result<HashMap<&'a str, usize>, NoMemory>
    ensures { IfOk result (IsModuleIndex scopes.now) }
{
    let mut numbers = HashMap::new(alloc);
    let mut left = scopes.len();
    // The first module of a name takes precedence, so it is inserted last.
    while left > 0 {
        left -= 1;
        put(&mut numbers, scopes, left, &scopes[left])?;
    }
    Ok(numbers)
}

/// The module whose number a name maps to.
fn scope_named<'s, 'a>(
    scopes: &'s [Scope<'a>],
    numbers: &HashMap<&'a str, usize>,
    name: &str,
) -> Option<&'s Scope<'a>>
    ensures { scope_found (option_copied result) ≡ names_by scopes.now numbers.now name.now }
{
    match numbers.get(name).copied() {
        Some(number) => at(scopes, number),
        None => None,
    }
}

/// The names of the first module of this name, if there is such a module.
pub fn names_in<'s, 'a>(
    scopes: &'s [Scope<'a>],
    numbers: &HashMap<&'a str, usize>,
    name: &str,
) -> Option<&'s Names<'a>>
    requires { IsModuleIndex scopes.now numbers.now }
    ensures { names_found (option_copied result) ≡ entries_in (map scope_view scopes.now) name.now }
{
    match scope_named(scopes, numbers, name) {
        Some(scope) => Some(&scope.names),
        None => None,
    }
}

fn no_entries<'s, 'a>() -> &'s [Entry<'a>]
    ensures { result.now ≡ [] }
{
    &[]
}

/// The entries of the names that were found; none where there are none.
pub fn entries_found<'s, 'a>(names: Option<&'s Names<'a>>) -> &'s [Entry<'a>]
    ensures entries { entries_view result.now ≡ names_found (option_copied names.entry) }
    ensures count { length result.now ≡ length (names_found (option_copied names.entry)) }
{
    let Some(names) = names else {
        return no_entries();
    };
    names.entries.as_slice()
}
