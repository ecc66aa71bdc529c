//! Cycles of definitions, and the heights of expressions with definitions expanded.
#![tactic(auto)]

mod check;
mod edges;
mod heights;
mod nesting;
mod nesting_rule;
mod nodes;
mod spans;
mod texts;

pub use check::check_cycles;
