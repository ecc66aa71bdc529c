//! The rule of nesting in an instance.

ghost use Rattle.smv_meaning.specs.Slots as slots;

use smv_meaning::table::InstanceTable;

/// An instance, with the heights of all slots, and whether the path of an instance that it declares
/// has more than 1,000 names.
#[derive(Clone, Copy, Drop)]
pub struct NestingRule<'t> {
    pub table: &'t InstanceTable<'t, 't>,
    pub aliases: &'t [Option<usize>],
    pub heights: &'t [Option<usize>],
    pub row: usize,
    pub deep: bool,
    ghost has: { slots.HasSlots table.now },
    ghost is_of: { slots.AreAliases table.now aliases.now },
}
