//! Tests of the lift: the text of a family's lift and the owners in it, worked out by hand.
#![tactic(auto)]

#[cfg(test)]
mod texts;
