//! Reads the text of models, and says where a text leaves their grammar.
#![tactic(auto)]

pub mod names;
pub mod program;
pub mod sections;
pub mod skipped;
pub mod types;

pub use program::{Reading, read_program};
pub use smv_expr::read_expr;
