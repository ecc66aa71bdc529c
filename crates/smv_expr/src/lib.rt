//! Tokens and expressions: their grammar, and where a text leaves it.
#![tactic(auto)]

pub mod answer;
pub mod cursor;
pub mod error;
pub mod expr;
pub mod kind;
mod lexeme;
pub mod lists;
pub mod measured;
pub mod names;
mod numeral;
pub mod operand;

pub use answer::read_expr;
