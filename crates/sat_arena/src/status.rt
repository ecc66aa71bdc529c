//! What becomes of a clause under the literals of a trail, and which of its literals to watch.
ghost use Rattle.std.specs.Prelude.{◌≡◌, ◌≢◌, ◌<◌, ◌≤◌, ◌^◌, ℕ, true, false, All, Contains, length, slice_index};
ghost use Rattle.sat_lits.specs.Literals.{negation};
ghost use Rattle.sat_lits.specs.Clauses.{HasRisingVariables};
ghost use Rattle.sat_arena.specs.Trails.{true_in, IsGrown};
ghost use Rattle.sat_arena.specs.Status.{HasStatus, IsChoice};
ghost use Rattle.sat_arena.specs.Watches.{IsAnyOf, IsNoLater, AreLatest};

use crate::trail::Trail;
use sat_lits::Lit;

/// What becomes of a clause under the literals that are true.
pub enum Status {
    /// A literal is true, or two are not false.
    Settled,
    /// This one is unassigned, and all others are false.
    Forcing(Lit),
    /// All literals are false.
    Falsified,
}

/// What becomes of the clause of these literals.
pub fn status_of(trail: &Trail, lits: &[Lit]) -> Status
    requires grown { All (IsGrown trail.now.vars) lits.now }
    requires rising { HasRisingVariables lits.now }
    ensures { HasStatus (true_in trail.now.entries) lits.now result }
{
    let first = first_open(trail, lits, 0);
    if first == lits.len() {
        return Status::Falsified;
    }
    let lit = lits[first];
    if trail.is_true(lit) {
        return Status::Settled;
    }
    let next = first_open(trail, lits, first + 1);
    if next == lits.len() {
        return Status::Forcing(lit);
    }
    Status::Settled
}

/// The first index from `from` on whose literal is not false, or else the number of literals.
fn first_open(trail: &Trail, lits: &[Lit], from: usize) -> usize
    requires grown { All (IsGrown trail.now.vars) lits.now }
    requires start { from ≤ length lits.now }
    ensures within { result ≤ length lits.now }
    ensures after { from ≤ result }
    ensures false_before { (k : ℕ) → from ≤ k → k < result → true_in trail.now.entries
        (negation (slice_index lits.now k)) ≡ true }
    ensures open { result < length lits.now → true_in trail.now.entries
        (negation (slice_index lits.now result)) ≡ false }
{
    for index in from..lits.len() {
        if !trail.is_true(lits[index].negate()) {
            return index;
        }
    }
    lits.len()
}

/// What a clause does when one of its watched literals became false.
pub enum Choice {
    /// It watches the same two: one of its literals is true.
    Stay,
    /// It watches this literal from now on, which is not false and not watched.
    Move(Lit),
    /// It watches the same two, and this one, which is unassigned, becomes true: all others are false.
    Forcing(Lit),
    /// All its literals are false.
    Falsified,
}

/// Looks at the other watched literal, then for one that is not false.
pub fn choose(trail: &Trail, lits: &[Lit], other: Lit) -> Choice
    requires grown { All (IsGrown trail.now.vars) lits.now }
    requires holds { Contains lits.now other }
    ensures { IsChoice (true_in trail.now.entries) lits.now other result }
{
    if trail.is_true(other) {
        return Choice::Stay;
    }
    for index in 0..lits.len() {
        let lit = lits[index];
        if lit != other && !trail.is_true(lit.negate()) {
            return Choice::Move(lit);
        }
    }
    if trail.is_true(other.negate()) {
        Choice::Falsified
    } else {
        Choice::Forcing(other)
    }
}

/// The two literals that a clause watches.
#[derive(Clone, Copy, Debug)]
pub struct WatchPair {
    pub first: Lit,
    pub second: Lit,
}

/// The two literals that a clause is to watch when it is added. One of fewer than two has none to choose
/// from, and watches the only one twice, or else any.
pub fn watches_for(trail: &Trail, lits: &[Lit]) -> WatchPair
    requires grown { All (IsGrown trail.now.vars) lits.now }
    requires rising { HasRisingVariables lits.now }
    ensures latest { 1 < length lits.now → AreLatest trail.now.entries lits.now
        result.first result.second }
    ensures first { IsAnyOf lits.now result.first }
    ensures second { IsAnyOf lits.now result.second }
{
    if lits.len() > 1 {
        return latest_two(trail, lits);
    }
    let only = only_or_any(lits);
    WatchPair {
        first: only,
        second: only,
    }
}

/// The only literal of a clause, or any literal where it has none.
pub fn only_or_any(lits: &[Lit]) -> Lit
    ensures { IsAnyOf lits.now result }
{
    match lits.first() {
        Some(lit) => *lit,
        None => Lit::new(1, true),
    }
}

/// Two literals of a clause that are not false, where there are two, and else those that became false
/// last.
fn latest_two(trail: &Trail, lits: &[Lit]) -> WatchPair
    requires grown { All (IsGrown trail.now.vars) lits.now }
    requires rising { HasRisingVariables lits.now }
    requires two { 1 < length lits.now }
    ensures { AreLatest trail.now.entries lits.now result.first result.second }
{
    let first = first_open_or_any(trail, lits);
    let second = latest_but(trail, lits, first);
    WatchPair {
        first: lits[first],
        second: lits[second],
    }
}

/// The first index of a literal that is not false, or else any.
fn first_open_or_any(trail: &Trail, lits: &[Lit]) -> usize
    requires grown { All (IsGrown trail.now.vars) lits.now }
    requires some { 0 < length lits.now }
    ensures within { result < length lits.now }
    ensures all_false { true_in trail.now.entries (negation (slice_index lits.now result)) ≡ true
        → (k : ℕ) → k < length lits.now
        → true_in trail.now.entries (negation (slice_index lits.now k)) ≡ true }
{
    let first = first_open(trail, lits, 0);
    if first == lits.len() {
        return 0;
    }
    first
}

/// The index, other than this one, of a literal that is not false, or else of the one that became false
/// last.
fn latest_but(trail: &Trail, lits: &[Lit], first: usize) -> usize
    requires grown { All (IsGrown trail.now.vars) lits.now }
    requires two { 1 < length lits.now }
    requires first { first < length lits.now }
    ensures within { result < length lits.now }
    ensures other { result ≢ first }
    ensures latest { true_in trail.now.entries (negation (slice_index lits.now result)) ≡ true
        → (k : ℕ) → k < length lits.now → k ≢ first
        → IsNoLater trail.now.entries (slice_index lits.now k) (slice_index lits.now result) }
{
    let mut latest = if first == 0 { 1 } else { 0 };
    let mut highest = 0;
    for index in 0..lits.len() {
        let lit = lits[index];
        if index != first {
            if !trail.is_true(lit.negate()) {
                return index;
            }
            let position = trail.position_of(lit);
            if position >= highest {
                latest = index;
                highest = position;
            }
        }
    }
    latest
}
