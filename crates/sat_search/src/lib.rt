//! A search for values that satisfy clauses, which keeps a log of what it derives.
#![tactic(auto)]

mod analysis;
mod answer;
mod clashes;
mod conclusion;
mod decide_loop;
mod found;
mod growth;
mod heap;
mod learning;
mod literal_set;
mod order;
mod restarts;
mod retirement;
mod run;
mod session;
mod solver;

pub use answer::Answer;
pub use clashes::clash;
pub use session::Session;
