//! The static checks of models, rule by rule.
#![tactic(auto)]

mod checks;

pub use checks::{Typed, check};
