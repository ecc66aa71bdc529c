//! One IMPOSE, applied to a model: `IF c THEN IMPOSE next(x) := e`.
//!
//! The first assignment of the left side is guarded: it keeps its old value where the condition is
//! false. Without one, an assignment is added that allows any value of the type there.
#![tactic(auto)]

mod assignments;
pub mod copies;
pub mod guard;
mod imposition;
pub mod lists;
pub mod modules;
pub mod section_copies;
pub mod texts;
mod types;
mod values;

pub use imposition::impose;
