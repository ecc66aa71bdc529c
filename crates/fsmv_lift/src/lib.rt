//! The lift of a family: one model for all its products, each change guarded by its feature's
//! variable.
#![tactic(auto)]

mod added;
mod appended;
mod base;
mod first_values;
mod formula;
mod guarded;
mod introduced;
mod lifting;
mod names;
mod owned;

pub use lifting::lift_text;
