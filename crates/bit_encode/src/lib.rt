//! Flat models as circuits: the bits of numbers, and the nodes of a flat model as literals.
#![tactic(auto)]

mod arithmetic;
mod comparison;
mod pairwise;
mod places;
mod sums;
mod widths;
mod words;
