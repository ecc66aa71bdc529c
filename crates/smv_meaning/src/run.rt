//! States and runs as they are written down.

use crate::value::Value;
use smv_ast::{List, Span, Text};

/// A variable by its path from `main`, names joined by dots, and its value.
#[derive(Drop)]
pub struct Named {
    pub path: Text,
    pub value: Value,
}

/// The values of the variables. Of two values for one path the first takes precedence; a path that
/// is no variable's is ignored.
#[derive(Drop)]
pub struct RunState {
    pub values: List<Named>,
}

/// A list of states.
#[derive(Drop)]
pub struct Run {
    pub states: List<RunState>,
}

/// Whether a list of states is a run of a model.
#[derive(Clone, Copy, Debug, PartialEq, Eq)]
pub enum RunAnswer {
    Run,
    /// The first state, counted from 0, at which a constraint or an assignment breaks, and the
    /// first `item` that does. A step belongs to its later state.
    Breaks { step: u32, item: Span },
}
