//! The variables of a flat model.

use fsmv_base::{List, Text};

/// The numbers that a variable may take, in the order of their positions.
#[derive(Drop)]
pub enum Values {
    /// FALSE at position 0 and TRUE at position 1, as the numbers 0 and 1.
    Boolean,
    /// `low` at position 0, and one more at each further position.
    Range { low: i64 },
    /// The number at each position.
    Table(List<i64>),
}

/// A variable of a flat model.
#[derive(Drop)]
pub struct FlatVar {
    /// The names of its instance and its own, joined by dots.
    pub path: Text,
    pub values: Values,
    /// How many values it has, at least 1.
    pub count: u32,
    /// The feature that introduces it; none where the base has it.
    pub owner: Option<u8>,
}
