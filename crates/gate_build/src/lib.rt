//! Circuits of And gates over numbered variables, kept as clauses. Equal gates are made once, and each
//! number depends on the calls alone, so that a second program that makes the same calls numbers alike.
#![tactic(auto)]

mod connectives;
mod definition;
mod gates;
mod simplify;

pub use gates::Gates;
