//! The canonical text of trees.

mod expr;
mod program;

pub use expr::{print_expr, print_joined};
pub use program::print_program;
