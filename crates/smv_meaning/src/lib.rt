//! The semantics of models: values, instances, states, runs.
#![tactic(auto)]

pub mod aliases;
mod check;
pub mod entries;
pub mod evaluation;
pub mod instance_texts;
pub mod item_index;
pub mod items;
pub mod mentions;
pub mod met_items;
pub mod module_numbers;
pub mod name_sets;
pub mod names;
pub mod operators;
pub mod order;
pub mod rules;
mod run;
pub mod scope;
mod spec;
pub mod symbols;
pub mod table;
pub mod valuation;
mod value;
mod written;

pub use check::check_run;
pub use run::{Named, Run, RunAnswer, RunState};
pub use spec::spec_holds;
pub use value::{Value, first_value};
