//! The checks of a model's text alone: ends of intervals, left sides of assignments, and positions
//! of choices and `next`.
#![tactic(auto)]

mod assigned;
mod check;
mod choices;
mod names;
mod nexts;
mod ranges;
mod rule;

pub use check::check_shape;
