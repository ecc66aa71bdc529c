//! Flat models: numbered variables, numbered nodes over them, and states. A flat model has no modules,
//! names or choices left. The values of its nodes, when it is sound, and which runs violate a spec are
//! written in `specs/`.
#![tactic(auto)]

mod arithmetic;
mod evaluation;
mod intervals;
mod model;
mod nodes;
mod traces;
mod variables;

pub use evaluation::fill_values;
pub use intervals::{Interval, fill_intervals};
pub use model::{Flat, FlatSpec};
pub use nodes::FlatNode;
pub use traces::{State, Trace};
pub use variables::{FlatVar, Values};
