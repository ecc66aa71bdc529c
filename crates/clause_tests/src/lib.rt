//! Tests of the crates of clauses: each public call with ample memory, and worked examples.
#![tactic(auto)]

#[cfg(test)]
mod checker;
#[cfg(test)]
mod gates;
#[cfg(test)]
mod literals;
#[cfg(test)]
mod log;
#[cfg(test)]
mod search;
