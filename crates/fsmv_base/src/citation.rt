//! Citations of clauses in proofs.

/// A clause by its number: an axiom, or a derived line of the log.
#[derive(Clone, Copy, Debug, PartialEq, Eq, PartialOrd, Ord, Hash)]
pub enum Id {
    Axiom(u32),
    Derived(u32),
}

/// The reason for which a list of literals has no model: a clause of their negations, or two
/// literals that clash.
#[derive(Clone, Copy, Debug, PartialEq, Eq)]
pub enum Proof {
    Cited(Id),
    Clash,
}
