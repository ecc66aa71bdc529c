//! The number of nodes of the expression graph of a program's constraints and specs.
#![tactic(auto)]

mod count;
mod mentions;
mod own;
mod read_exprs;

pub use count::count_nodes;
