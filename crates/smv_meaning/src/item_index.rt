//! The items of the modules of a program, looked up by name.

ghost use Rattle.std.specs.Prelude.{◌≡◌, ◌<◌, [], IfOk, length, map};
ghost use Rattle.std.specs.Option.{option_copied};
ghost use Rattle.smv_meaning.specs.Checking as checking;
ghost use Rattle.smv_meaning.specs.Items.{items as items_of_module, items_view};
ghost use Rattle.smv_meaning.specs.ItemIndex as spec;

use crate::items::{Item, items_of};
use crate::module_numbers::numbers_of;
use crate::table::{InstanceTable, called_of};
use smv_ast::{List, Module, NoMemory, Program};
use sqlite_items::at;
use std::alloc::Global;
use std::collections::HashMap;

/// The items of a module.
#[derive(Drop)]
pub struct ModuleItems<'p> {
    pub list: List<Item<'p>>,
}

/// The items of the modules of a program, looked up by name; of two modules of one name the first
/// takes precedence.
#[derive(Drop)]
pub struct ItemsByName<'p> {
    lists: List<ModuleItems<'p>>,
    numbers: HashMap<&'p str, usize>,
}

/// The items of each module.
fn lists_of<'p>(alloc: Global, modules: &'p [Module]) -> Result<List<ModuleItems<'p>>, NoMemory>
    ensures { IfOk result (λ lists. map spec.list_view lists ≡ map items_of_module modules.now) }
{
    let mut lists = List::new(alloc);
    for owner in modules {
        let list = items_of(alloc, owner)?;
        lists.push(ModuleItems { list })?;
    }
    Ok(lists)
}

fn no_items<'s, 'p>() -> &'s [Item<'p>]
    ensures { result.now ≡ [] }
{
    &[]
}

/// The items that were found; none where there is no such module.
fn list_found<'s, 'p>(found: Option<&'s ModuleItems<'p>>) -> &'s [Item<'p>]
    ensures { items_view result.now ≡ spec.list_found (option_copied found.entry) }
{
    let Some(found) = found else {
        return no_items();
    };
    found.list.as_slice()
}

impl<'p> ItemsByName<'p> {
    /// The items of each module of the program.
    pub fn of_program(alloc: Global, program: &'p Program) -> Result<ItemsByName<'p>, NoMemory>
        ensures { IfOk result (spec.IsItemIndex program.now) }
    {
        let lists = lists_of(alloc, program.modules.as_slice())?;
        let numbers = numbers_of(alloc, program)?;
        Ok(ItemsByName { lists, numbers })
    }

    /// The items of the first module of a name; none where there is no such module.
    fn of_module<'s>(&'s self, name: &str) -> &'s [Item<'p>]
        ensures { items_view result.now ≡ spec.items_in self.now name.now }
    {
        let lists = self.lists.as_slice();
        let Some(number) = self.numbers.get(name).copied() else {
            return no_items();
        };
        list_found(at(lists, number))
    }

    /// The items of an instance, given by number. The program is there for the contract alone.
    pub fn of_row<'s>(
        &'s self,
        program: &Program,
        table: &InstanceTable,
        row: usize,
    ) -> &'s [Item<'p>]
        requires right { checking.IsTableOfProgram program.now table.now }
        requires index { spec.IsItemIndex program.now self.now }
        requires row { row < length table.now.rows }
        ensures { items_view result.now
            ≡ spec.items_at program.now (checking.instance_at table.now row) }
    {
        let rows = table.rows.as_slice();
        self.of_module(called_of(rows[row].link))
    }
}
