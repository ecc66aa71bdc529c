//! Conflict analysis: the clause to be learnt from a falsified one, and the clause that says from
//! which decisions a literal became false. Both come with the hints that show them.
#![tactic(auto)]

mod clause;
mod learnt;
mod marks;
mod positions;
mod walk;

pub use learnt::{Analyzer, Learnt, final_clause, learn};
