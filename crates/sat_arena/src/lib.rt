//! Clauses, the literals that are true, and unit propagation between them.
#![tactic(auto)]

mod arena;
mod clause_list;
mod falsified;
mod moved;
mod propagator;
mod status;
mod stored;
mod trail;
mod units;
mod visit;

pub use arena::Arena;
pub use propagator::Propagator;
pub use status::WatchPair;
pub use stored::clause_satisfied;
pub use trail::{Assigned, Trail};
