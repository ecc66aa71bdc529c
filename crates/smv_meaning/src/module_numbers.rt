//! The modules of a program by name.

ghost use Rattle.std.specs.Prelude.{◌≡◌, IfOk};
ghost use Rattle.std.specs.Option.{option_copied};
ghost use Rattle.smv_meaning.specs.ModuleNumbers.{IsNumbering, the_module};

use smv_ast::{Module, NoMemory, Program};
use sqlite_items::at;
use std::alloc::Global;
use std::collections::HashMap;

/// The number of the first module of each name.
pub fn numbers_of<'p>(
    alloc: Global,
    program: &'p Program,
) -> Result<HashMap<&'p str, usize>, NoMemory>
    ensures { IfOk result (λ numbers. IsNumbering program.now numbers) }
{
    let mut numbers = HashMap::new(alloc);
    let mut number = 0;
    for owner in program.modules.as_slice() {
        let name = owner.name.as_str();
        if !numbers.contains_key(name) {
            numbers.insert(name, number)?;
        }
        number += 1;
    }
    Ok(numbers)
}

/// The first module of a name.
pub fn module_named<'p>(
    program: &'p Program,
    numbers: &HashMap<&str, usize>,
    name: &str,
) -> Option<&'p Module>
    requires { IsNumbering program.now numbers.now }
    ensures { option_copied result ≡ the_module program.now name.now }
{
    match numbers.get(name) {
        Some(number) => at(program.modules.as_slice(), *number),
        None => None,
    }
}
