//! Tests of whole commands over files in memory, and of large models from text to checks.
#![tactic(auto)]

#[cfg(test)]
mod commands;
#[cfg(test)]
mod large;
