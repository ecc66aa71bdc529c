//! The modules of a program, looked up by name.

ghost use Rattle.std.specs.Prelude.{◌≡◌, IfOk};
ghost use Rattle.std.specs.Option.{option_copied};
ghost use Rattle.smv_meaning.specs.ModuleNumbers.{IsNumbering, number_of, the_module};

use smv_ast::{Module, NoMemory, Program};
use smv_meaning::module_numbers::{module_named, numbers_of};
use std::alloc::Global;
use std::collections::HashMap;

/// A program, with the number of the first module of each name.
#[derive(Drop)]
pub struct Modules<'p> {
    pub program: &'p Program,
    numbers: HashMap<&'p str, usize>,
    ghost numbering: { IsNumbering program.now numbers },
}

impl<'p> Modules<'p> {
    /// The modules of a program.
    pub fn of_program(alloc: Global, program: &'p Program) -> Result<Modules<'p>, NoMemory>
        ensures { IfOk result (λ modules. modules.program.now ≡ program.now) }
    {
        let numbers = numbers_of(alloc, program)?;
        Ok(Modules { program, numbers })
    }

    /// The first module of a name.
    pub fn named(&self, name: &str) -> Option<&'p Module>
        ensures { option_copied result ≡ the_module self.now.program.now name.now }
    {
        module_named(self.program, &self.numbers, name)
    }

    /// The number of the first module of a name.
    pub fn number_of(&self, name: &str) -> Option<usize>
        ensures { result ≡ number_of self.now.program.now name.now }
    {
        self.numbers.get(name).copied()
    }
}
