//! Flattening: the variables of all instances of a lifted model by number, and the numbered nodes of
//! its constraints and specs.
#![tactic(auto)]

mod choices;
mod groups;
mod invariants;
mod making;
mod names;
mod numbered;
mod numbering;
mod operators;
mod rights;
mod spec_texts;
mod store;
mod symbols;
mod values;
mod variables;

pub use names::NameTables;
pub use numbered::number_model;
pub use numbering::FlatNodes;
pub use store::{SharedNodes, Store};
