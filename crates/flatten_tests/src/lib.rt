//! Tests of the numbering of lifted models, with nodes worked out by hand.
#![tactic(auto)]

#[cfg(test)]
mod nodes;
