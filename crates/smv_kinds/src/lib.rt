//! The checks of kinds and of intervals of numbers.
#![tactic(auto)]

mod check;
mod context;
mod expressions;
mod facts;
mod in_instance;
mod instance_rule;
mod intervals;
mod items;
mod order;
mod pass;
mod solution;
mod sorts;

pub use check::check_kinds;
pub use facts::Facts;
pub use intervals::Interval;
pub use pass::Pass;
pub use sorts::Sort;
