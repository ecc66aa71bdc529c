//! The log of a clause search: axioms, and the clauses derived from them with the hints that show it.
#![tactic(auto)]

mod log;

pub use log::Log;
