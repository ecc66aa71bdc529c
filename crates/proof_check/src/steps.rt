//! Unit propagation through the clauses of hints.
ghost use Rattle.std.specs.Prelude.{◌≡◌, ℕ, ◌+◌, ◌<◌, ◌≤◌, ◌↔◌, true, false, length, slice_index, All, IsTrue};
ghost use Rattle.std.specs.Option.{option_copied};
ghost use Rattle.sat_lits.specs.Literals.{negation};
ghost use Rattle.sat_lits.specs.Clauses.{HasRisingVariables};
ghost use Rattle.sat_lits.specs.Steps.{named, negated, Refutes, IsRupStep};
ghost use Rattle.proof_check.specs.Marks.{marked, HasRoom};
ghost use Rattle.proof_check.specs.Status.{HasStatus};

use crate::marks::Marks;
use fsmv_base::Id;
use sat_lits::{Clause, Lit};

/// What becomes of a clause under a set of literals that were made true.
pub enum Status {
    /// All its literals are false.
    Falsified,
    /// This one is unassigned, and all others are false.
    Forcing(Lit),
    /// Neither.
    Idle,
}

/// Whether the hints derive the clause of these literals. It takes no memory.
pub fn is_rup_step(
    axioms: &[Clause],
    lines: &[Option<Clause>],
    marks: &mut Marks,
    lits: &[Lit],
    hints: &[Id],
) -> bool
    requires room { HasRoom axioms.now lines.now (length marks.old) }
    requires clause_room { All (λ l. l + 1 < length marks.old) lits.now }
    ensures right { IsTrue result ↔ IsRupStep axioms.now lines.now lits.now hints.now }
    ensures length { length marks.new ≡ length marks.old }
{
    marks.clear();
    insert_negations(marks, lits);
    refutes(axioms, lines, marks, hints)
}

/// Makes the literals false in an empty set.
fn insert_negations(marks: &mut Marks, lits: &[Lit])
    requires room { All (λ l. l + 1 < length marks.old) lits.now }
    requires empty { (l : ℕ) → marked marks.old l ≡ false }
    ensures negated { (l : ℕ) → marked marks.new l ≡ negated lits.now l }
    ensures length { length marks.new ≡ length marks.old }
{
    for lit in lits {
        marks.insert(lit.negate());
    }
}

/// Whether the clauses of the hints in their order each force a literal, which is then made true, and
/// the last one is falsified.
fn refutes(axioms: &[Clause], lines: &[Option<Clause>], marks: &mut Marks, hints: &[Id]) -> bool
    requires room { HasRoom axioms.now lines.now (length marks.old) }
    ensures right { IsTrue result
        ↔ Refutes (named axioms.now lines.now) (marked marks.old) hints.now }
    ensures length { length marks.new ≡ length marks.old }
{
    for (i, hint) in hints.iter().enumerate() {
        let Some(clause) = clause_of(axioms, lines, *hint) else {
            return false;
        };
        match status_of(marks, clause.lits()) {
            Status::Falsified => return i + 1 == hints.len(),
            Status::Forcing(lit) => marks.insert(lit),
            Status::Idle => return false,
        }
    }
    false
}

/// The clause that an id names, if there is one.
fn clause_of<'a>(axioms: &'a [Clause], lines: &'a [Option<Clause>], id: Id) -> Option<&'a Clause>
    ensures { option_copied result ≡ named axioms.now lines.now id }
{
    match id {
        Id::Axiom(0) | Id::Derived(0) => None,
        Id::Axiom(number) => axioms.get(number as usize - 1),
        Id::Derived(number) => lines.get(number as usize - 1)?.as_ref(),
    }
}

/// What becomes of the clause of these literals.
fn status_of(marks: &Marks, lits: &[Lit]) -> Status
    requires room { All (λ l. l + 1 < length marks.now) lits.now }
    requires rising { HasRisingVariables lits.now }
    ensures { HasStatus (marked marks.now) lits.now result }
{
    let first = first_open(marks, lits, 0);
    if first == lits.len() {
        return Status::Falsified;
    }
    let lit = lits[first];
    if marks.contains(lit) || first_open(marks, lits, first + 1) < lits.len() {
        return Status::Idle;
    }
    Status::Forcing(lit)
}

/// The first position from `from` on whose literal is not false, or else the number of literals.
fn first_open(marks: &Marks, lits: &[Lit], from: usize) -> usize
    requires room { All (λ l. l + 1 < length marks.now) lits.now }
    requires start { from ≤ length lits.now }
    ensures within { result ≤ length lits.now }
    ensures after { from ≤ result }
    ensures false_before { (k : ℕ) → from ≤ k → k < result
        → marked marks.now (negation (slice_index lits.now k)) ≡ true }
    ensures open { result < length lits.now
        → marked marks.now (negation (slice_index lits.now result)) ≡ false }
{
    for position in from..lits.len() {
        if !marks.contains(lits[position].negate()) {
            return position;
        }
    }
    lits.len()
}
