//! Tests of the crates of models: each public call with ample memory, and worked examples.
#![tactic(auto)]

#[cfg(test)]
mod checks;
#[cfg(test)]
mod flat;
#[cfg(test)]
mod graphs;
#[cfg(test)]
mod integration;
#[cfg(test)]
mod kinds;
#[cfg(test)]
mod meaning;
#[cfg(test)]
mod names;
#[cfg(test)]
mod nodes;
#[cfg(test)]
mod shape;
