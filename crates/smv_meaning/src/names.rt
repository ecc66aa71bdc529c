//! The names of a module, looked up by name.

ghost use Rattle.std.specs.Prelude.{◌≡◌, IfOk};
ghost use Rattle.std.specs.Option.{option_map};
ghost use Rattle.smv_meaning.specs.Entries.{entity_view, entries_view, entity_among, first_index};
ghost use Rattle.smv_meaning.specs.Instances as spec;
ghost use Rattle.smv_meaning.specs.Indices.{number_held, IsIndexOf};
ghost use Rattle.smv_meaning.specs.Value.{Name};

use crate::entries::{Entity, Entry, entries_of};
use smv_ast::{List, Module, NoMemory};
use sqlite_items::at;
use std::alloc::Global;
use std::collections::HashMap;

/// The names of a module, in the order of the text.
#[derive(Drop)]
pub struct Names<'a> {
    pub entries: List<Entry<'a>>,
    /// The index of the first entry of each name.
    positions: HashMap<&'a str, usize>,
    ghost is_index: { (name : Name) → number_held positions name
        ≡ first_index name (entries_view entries) },
}

/// The index of the first entry of each name.
fn positions_of<'a>(
    alloc: Global,
    entries: &[Entry<'a>],
) -> Result<HashMap<&'a str, usize>, NoMemory>
    ensures { IfOk result (IsIndexOf (entries_view entries.now)) }
{
    let mut positions = HashMap::new(alloc);
    let mut left = entries.len();
    // The first entry of a name takes precedence, so it is inserted last.
    while left > 0 {
        left -= 1;
        let name = entries[left].name;
        positions.insert(name.as_str(), left)?;
    }
    Ok(positions)
}

impl<'a> Names<'a> {
    /// The names of a module: its formals, then the names of its sections.
    pub fn of_module(alloc: Global, owner: &'a Module) -> Result<Names<'a>, NoMemory>
        ensures { IfOk result (λ names. entries_view names.entries ≡ spec.entries owner.now) }
    {
        let entries = entries_of(alloc, owner)?;
        let positions = positions_of(alloc, entries.as_slice())?;
        Ok(Names { entries, positions })
    }

    /// The index of the first entry of a name.
    pub fn index_of(&self, name: &str) -> Option<usize>
        ensures { result ≡ first_index name.now (entries_view self.now.entries) }
    {
        self.positions.get(name).copied()
    }

    /// The entity of a name; of equal names the first takes precedence.
    pub fn entity_of(&self, name: &str) -> Option<Entity<'a>>
        ensures { option_map entity_view result
            ≡ entity_among (entries_view self.now.entries) name.now }
    {
        match self.index_of(name) {
            Some(index) => match at(self.entries.as_slice(), index).copied() {
                Some(entry) => Some(entry.entity),
                None => None,
            },
            None => None,
        }
    }
}
