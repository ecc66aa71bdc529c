//! States of a flat model, and lists of them.

use fsmv_base::List;

/// A state: for each variable that is no feature, in their order, the position of its value.
#[derive(Debug, Drop)]
pub struct State {
    pub at: List<u32>,
}

/// States one after another.
#[derive(Debug, Drop)]
pub struct Trace {
    pub states: List<State>,
}
