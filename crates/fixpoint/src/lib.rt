//! Least fixed points of monotone steps, as tables over numbers.
#![tactic(auto)]

mod table;
mod waiting;

pub use table::{Step, fill};
