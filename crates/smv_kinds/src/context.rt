//! The tables of a program that the checks of kinds read, and the environment of sorts of an
//! instance.

ghost use Rattle.std.specs.Prelude.{◌≡◌};
ghost use Rattle.smv_meaning.specs.Slots as slots;
ghost use Rattle.smv_meaning.specs.Values.{is_symbol};
ghost use Rattle.smv_meaning.specs.NameSets.{in_set};

use crate::sorts::Sort;
use smv_ast::{Program, Text};
use smv_meaning::table::InstanceTable;
use std::collections::HashSet;

/// The instance table of a program, the alias of each slot, and the symbols.
#[derive(Drop)]
pub struct KindContext<'t> {
    pub program: &'t Program,
    pub table: &'t InstanceTable<'t, 't>,
    pub aliases: &'t [Option<usize>],
    /// The symbols of all enumerations.
    pub symbols: &'t HashSet<&'t str>,
    ghost has: { slots.HasSlots table.now },
    ghost is_of: { slots.AreAliases table.now aliases.now },
    ghost words: { in_set symbols.now ≡ is_symbol program.now },
}

impl<'t> KindContext<'t> {
    /// Whether a name is a symbol of an enumeration.
    pub fn is_symbol(&self, name: &Text) -> bool
        ensures { result ≡ is_symbol self.now.program.now name.now }
    {
        self.symbols.contains(name.as_str())
    }
}

/// The sorts of the paths of an instance, by a table of slots.
#[derive(Drop)]
pub struct RowSorting<'t> {
    pub context: &'t KindContext<'t>,
    pub solution: &'t [Option<Sort>],
    pub row: usize,
}
