//! The first two passes of the static checks: duplicate names, unknown modules, numbers of actuals,
//! recursive modules, too many instances, and unknown names.
#![tactic(auto)]

mod arguments;
mod check;
mod declared_names;
mod duplicates;
pub mod known;
mod modules;
mod number_sets;
mod recursion;
pub mod rows;
pub mod unknown;
mod unknown_modules;

pub use check::check_names;
