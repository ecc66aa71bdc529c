//! The lines of a log, and what is answered to one.

use fsmv_base::{Id, List};
use sat_lits::Clause;

/// A line that derives a clause by unit propagation through the clauses of its hints.
#[derive(Debug, Drop)]
pub struct DerivedLine {
    /// The line's number among the derived ones, which begin at 1.
    pub number: u32,
    pub clause: Clause,
    pub hints: List<Id>,
}

/// A line of a log.
#[derive(Debug, Drop)]
pub enum LogLine {
    /// A clause is derived.
    Derived(DerivedLine),
    /// The derived line of this number is retired: no later line may use it.
    Retired(u32),
}

/// A rule that a line of a log can break. A derived line is asked for the first three in this order,
/// a retired one for the last.
#[derive(Clone, Copy, Debug, PartialEq, Eq)]
pub enum StepRule {
    /// The line's number is not the next one.
    Number,
    /// The clause stands already, or it holds the literal of a unit clause that does, beside others.
    Repeat,
    /// The hints do not derive the clause.
    Step,
    /// No line of that number stands, or it does not hold the literal of a live unit clause
    /// beside others.
    Retire,
}

/// What is answered to a line of a log.
#[derive(Clone, Copy, Debug, PartialEq, Eq)]
pub enum StepAnswer {
    /// The line and all before it keep their rules.
    Ok,
    /// This line was the first to break a rule, and this is the first rule that it broke.
    Bad { line: u64, rule: StepRule },
}
