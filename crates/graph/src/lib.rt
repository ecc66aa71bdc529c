//! Directed graphs over numbers: which vertices are on a cycle, and the cycle of a vertex.
#![tactic(auto)]

mod cycle;
mod ranks;
mod reach;
mod search;
mod trail;
mod visits;
mod way;
mod way_back;

pub use search::Search;
