//! Tests of the crates of texts: each public call with ample memory, worked examples, printed text.
#![tactic(auto)]

#[cfg(test)]
mod expressions;
#[cfg(test)]
mod feature_files;
#[cfg(test)]
mod texts;
#[cfg(test)]
mod trees;
