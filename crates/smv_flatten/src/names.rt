//! The tables by which the names of a model are read.

ghost use Rattle.std.specs.Prelude.{◌≡◌};
ghost use Rattle.smv_meaning.specs.Slots as slots;
ghost use Rattle.smv_flatten.specs.Names as spec;

use indexmap::IndexSet;
use smv_ast::Text;
use smv_meaning::table::InstanceTable;

/// The instance table of a model with its aliases, the number of the variable of each slot that is
/// one, and the symbols in the order of their numbers.
#[derive(Drop)]
pub struct NameTables<'t> {
    pub table: &'t InstanceTable<'t, 't>,
    pub aliases: &'t [Option<usize>],
    pub variables: &'t [Option<u32>],
    pub symbols: &'t IndexSet<&'t str>,
    ghost has_slots: { slots.HasSlots table.now },
    ghost are_aliases: { slots.AreAliases table.now aliases.now },
}

/// The number of a symbol, 0 where it is none.
pub fn symbol_number(symbols: &IndexSet<&str>, name: &str) -> usize
    ensures { result ≡ spec.symbol_number symbols.now name.now }
{
    match symbols.get_index_of(name) {
        Some(number) => number,
        None => 0,
    }
}

/// The number of the symbol that a path is, 0 where it is none.
pub fn path_number(symbols: &IndexSet<&str>, names: &[Text]) -> usize
    ensures { result ≡ spec.path_number symbols.now names.now }
{
    match names {
        [name] => symbol_number(symbols, name.as_str()),
        _ => 0,
    }
}
