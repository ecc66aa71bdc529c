//! A log of clauses, judged line by line against its axioms.
#![tactic(auto)]

mod checker;
mod lines;
mod live;
mod marks;
mod steps;

pub use checker::Checker;
pub use lines::{DerivedLine, LogLine, StepAnswer, StepRule};
