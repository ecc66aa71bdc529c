//! The instances of a program, grouped by module.

ghost use Rattle.std.specs.Prelude.{◌≡◌, ◌++◌, ℕ, List, [], ◌∷◌, IfOk, OnOk, if◌then◌else◌};
ghost use Rattle.std.specs.Str.{bytes_eq};
ghost use Rattle.smv_meaning.specs.Checking.{IsTableOfProgram};
ghost use Rattle.smv_names.specs.Rows as spec;

use smv_ast::{NoMemory, Program};
use smv_meaning::order::order_of;
use smv_meaning::table::{InstanceTable, called_of};
use std::alloc::Global;
use std::collections::HashMap;

/// The numbers of the instances of each module.
#[derive(Drop)]
pub struct RowsByModule<'p> {
    by_name: HashMap<&'p str, Vec<usize>>,
}

/// Appends an instance to those of its module.
fn put<'p>(
    by_name: &mut HashMap<&'p str, Vec<usize>>,
    called: &'p str,
    row: usize,
) -> Result<(), NoMemory>
    ensures { OnOk result ((name : List ℕ) → spec.rows_under by_name.new name
        ≡ spec.rows_under by_name.old name ++ (if bytes_eq name called.now then row ∷ [] else [])) }
{
    by_name.entry(called)?.or_default().push(row)?;
    Ok(())
}

fn no_rows<'r>() -> &'r [usize]
    ensures { result.now ≡ [] }
{
    &[]
}

impl<'p> RowsByModule<'p> {
    /// The instances of a program, grouped by module.
    pub fn of_program<'s>(
        alloc: Global,
        program: &Program,
        table: &InstanceTable<'s, 'p>,
    ) -> Result<RowsByModule<'p>, NoMemory>
        requires { IsTableOfProgram program.now table.now }
        ensures { IfOk result (λ rows. spec.AreRowsByModule program.now table.now rows) }
    {
        let order = order_of(alloc, program, table)?;
        let instances = table.rows.as_slice();
        let mut by_name = HashMap::new(alloc);
        for row in order.as_slice() {
            put(&mut by_name, called_of(instances[*row].link), *row)?;
        }
        Ok(RowsByModule { by_name })
    }

    /// The instances of the module of a name, in their order.
    pub fn of_module(&self, name: &str) -> &[usize]
        ensures { result.now ≡ spec.rows_of self.now name.now }
    {
        match self.by_name.get(name) {
            Some(rows) => rows.as_slice(),
            None => no_rows(),
        }
    }
}
