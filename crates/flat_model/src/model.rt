//! A flat model as a whole.

use crate::nodes::FlatNode;
use crate::variables::FlatVar;
use fsmv_base::{List, Text};

/// An invariant of one instance.
#[derive(Drop)]
pub struct FlatSpec {
    /// The node of its expression, without the guard of its feature.
    pub node: u32,
    /// The feature that introduces it; none where the base has it.
    pub owner: Option<u8>,
    /// The names of its instance, joined by dots.
    pub instance: Text,
    /// The canonical text of its expression.
    pub text: Text,
}

/// A flat model. Variables, symbols, nodes and specs go by their numbers, which begin at 0.
#[derive(Drop)]
pub struct Flat {
    /// How many features there are. They are the first variables.
    pub features: u32,
    pub vars: List<FlatVar>,
    /// The symbols by their numbers.
    pub symbols: List<Text>,
    /// For each variable, whether its numbers are those of symbols.
    pub symbolic: List<bool>,
    /// The nodes, operands first.
    pub nodes: List<FlatNode>,
    /// The nodes that are true in each first state.
    pub init: List<u32>,
    /// The nodes that are true in each state.
    pub inside: List<u32>,
    /// The nodes that are true at each step.
    pub step: List<u32>,
    /// The node that is true in the valid products; it reads features alone.
    pub model: u32,
    pub specs: List<FlatSpec>,
}
