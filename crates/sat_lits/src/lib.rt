//! Literals and clauses, and a table that finds a clause by its literals. What a clause log means is
//! written in `specs/`: which clauses follow from others, and which steps of a log are right.
#![tactic(auto)]

mod clauses;
mod literals;
mod table;

pub use clauses::Clause;
pub use literals::Lit;
pub use table::ClauseTable;
