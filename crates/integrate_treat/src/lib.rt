//! One TREAT, applied to a model: `IF c THEN TREAT p = e`.
//!
//! In its module each occurrence of exactly the path `p` reads as `case c : e; TRUE : p; esac`: in
//! right sides, conditions, definitions, INIT, INVAR, TRANS and actuals. Left sides, INVARSPEC and
//! the text that the TREAT itself puts in stay as they are.
#![tactic(auto)]

mod expressions;
mod sections;
mod target;
mod treatment;

pub use treatment::treat;
