//! What a search answers.
use fsmv_base::Id;

/// What becomes of the clauses of a session under assumptions.
#[derive(Clone, Copy, Debug, PartialEq, Eq)]
pub enum Answer {
    /// They have a common model, which the session tells.
    Model,
    /// The clause of this id, an axiom or a live line, holds only negated assumptions.
    Core { id: Id },
    /// The log has as many lines as were allowed, and no axiom or live line holds only negated
    /// assumptions.
    Spent,
}
