//! Tables that are filled until the step adds nothing more.

ghost use Rattle.std.specs.Prelude.{Option, ◌≡◌, ℕ, ◌+◌, ◌<◌, ◌≤◌, List, length, IfOk, IsSome, MatchBool, Some, None};
ghost use Rattle.fixpoint.specs.Fixpoints.{entry, filled, IsSoundTable, IsClosed, fixpoint};

use crate::waiting::Waiting;
use fsmv_base::{List, NoMemory};
use sqlite_items::at;
use std::alloc::Global;

/// A monotone step: what becomes known of a number from what is known of others.
pub trait Step<A> {
    ghost use Rattle.std.specs.Prelude.{◌≡◌, ℕ, Option, IfOk, List};
    ghost use Rattle.fixpoint.specs.Fixpoints.{Under, entry};

    ghost step: { Self → (ℕ → Option A) → ℕ → Option A };

    ghost monotone: { (me : Self) (s t : ℕ → Option A) → Under s t
        → Under (step me s) (step me t) };

    /// What becomes known of `k` from the table. The only error is want of memory.
    fn step(&self, alloc: Global, table: &[Option<A>], k: usize) -> Result<Option<A>, NoMemory>
        ensures { IfOk result (λ r. r ≡ step self.now (entry table.now) k) };

    /// A number that isn't known in the table yet and without which nothing becomes known of `k`. It
    /// saves time; any answer will do. The only error is want of memory.
    fn awaited(
        &self,
        _alloc: Global,
        _table: &[Option<A>],
        _k: usize,
    ) -> Result<Option<usize>, NoMemory> {
        Ok(None)
    }
}

fn is_known<A>(table: &[Option<A>], k: usize) -> bool
    ensures { MatchBool result (IsSome (entry table.now k)) (entry table.now k ≡ None) }
{
    match at(table, k) {
        Some(found) => found.is_some(),
        None => false,
    }
}

/// Applies the step at one number, and tells whether the table has gained.
#[tactic(auto, using(crate::proofs::TableLemmas::filled_set))]
fn settle<A: Drop, S: Step<A>>(
    alloc: Global,
    steps: &S,
    table: &mut List<Option<A>>,
    k: usize,
) -> Result<bool, NoMemory>
    requires within { k < length table.old }
    requires sound { IsSoundTable (S.step steps.now) table.old }
    ensures sound { IsSoundTable (S.step steps.now) table.new }
    ensures same { length table.new ≡ length table.old }
    ensures gained { IfOk result (λ b. MatchBool b
        (filled table.new ≡ filled table.old + 1)
        ((table.new ≡ table.old) × IsClosed (S.step steps.now) table.new k)) }
    ensures kept { filled table.old ≤ filled table.new }
{
    if is_known(table.as_slice(), k) {
        return Ok(false);
    }
    let found = steps.step(alloc, table.as_slice(), k)?;
    if found.is_none() {
        return Ok(false);
    }
    table.set(k, found);
    Ok(true)
}

/// Notes what `k` waits for, if it isn't known.
fn wait<A, S: Step<A>>(
    alloc: Global,
    steps: &S,
    table: &[Option<A>],
    waiting: &mut Waiting,
    k: usize,
) -> Result<(), NoMemory> {
    if is_known(table, k) {
        return Ok(());
    }
    match steps.awaited(alloc, table, k)? {
        Some(awaited) => waiting.wait(k, awaited),
        None => Ok(()),
    }
}

/// Settles one number, and notes that it has become known or what it waits for. Tells whether the
/// table has gained.
fn visit<A: Drop, S: Step<A>>(
    alloc: Global,
    steps: &S,
    table: &mut List<Option<A>>,
    waiting: &mut Waiting,
    k: usize,
) -> Result<bool, NoMemory>
    requires within { k < length table.old }
    requires sound { IsSoundTable (S.step steps.now) table.old }
    ensures sound { IsSoundTable (S.step steps.now) table.new }
    ensures same { length table.new ≡ length table.old }
    ensures gained { IfOk result (λ b. MatchBool b
        (filled table.new ≡ filled table.old + 1)
        ((table.new ≡ table.old) × IsClosed (S.step steps.now) table.new k)) }
    ensures kept { filled table.old ≤ filled table.new }
{
    let gained = settle(alloc, steps, table, k)?;
    if gained {
        waiting.gain(k)?;
    } else {
        wait(alloc, steps, table.as_slice(), waiting, k)?;
    }
    Ok(gained)
}

/// Visits these numbers in their order; those beyond the table are skipped.
fn visit_each<A: Drop, S: Step<A>>(
    alloc: Global,
    steps: &S,
    table: &mut List<Option<A>>,
    waiting: &mut Waiting,
    numbers: &[usize],
) -> Result<(), NoMemory>
    requires sound { IsSoundTable (S.step steps.now) table.old }
    ensures sound { IsSoundTable (S.step steps.now) table.new }
    ensures same { length table.new ≡ length table.old }
    ensures kept { filled table.old ≤ filled table.new }
{
    for k in numbers {
        if *k < table.len() {
            visit(alloc, steps, table, waiting, *k)?;
        }
    }
    Ok(())
}

/// Visits those that waited for what has become known, until none is left.
fn visit_waiting<A: Drop, S: Step<A>>(
    alloc: Global,
    steps: &S,
    table: &mut List<Option<A>>,
    waiting: &mut Waiting,
) -> Result<(), NoMemory>
    requires sound { IsSoundTable (S.step steps.now) table.old }
    ensures sound { IsSoundTable (S.step steps.now) table.new }
    ensures same { length table.new ≡ length table.old }
    ensures kept { filled table.old ≤ filled table.new }
{
    for _round in 0..usize::MAX {
        match waiting.next(alloc) {
            Some(waiters) => visit_each(alloc, steps, table, waiting, waiters.as_slice())?,
            None => return Ok(()),
        }
    }
    Ok(())
}

/// Visits each number once, and tells whether the table has gained.
fn sweep<A: Drop, S: Step<A>>(
    alloc: Global,
    steps: &S,
    table: &mut List<Option<A>>,
    waiting: &mut Waiting,
) -> Result<bool, NoMemory>
    requires sound { IsSoundTable (S.step steps.now) table.old }
    ensures sound { IsSoundTable (S.step steps.now) table.new }
    ensures same { length table.new ≡ length table.old }
    ensures gained { IfOk result (λ b. MatchBool b
        (filled table.old < filled table.new)
        ((k : ℕ) → k < length table.new → IsClosed (S.step steps.now) table.new k)) }
{
    let mut gained = false;
    for k in 0..table.len() {
        gained = visit(alloc, steps, table, waiting, k)? | gained;
    }
    Ok(gained)
}

fn blank<A: Drop>(alloc: Global, count: usize) -> Result<List<Option<A>>, NoMemory>
    ensures { IfOk result (λ t. (length t ≡ count) × (filled t ≡ 0)) }
{
    let mut table = List::new(alloc);
    for _round in 0..count {
        table.push(None)?;
    }
    Ok(table)
}

/// The least fixed point of the step at each number below `count`. An `order` that has each number
/// behind those of which it is made saves time; any will do. The only error is want of memory.
pub fn fill<A: Drop, S: Step<A>>(
    alloc: Global,
    steps: &S,
    count: usize,
    order: &[usize],
) -> Result<List<Option<A>>, NoMemory>
    requires { (s : ℕ → Option A) (k : ℕ) → count ≤ k → S.step steps.now s k ≡ None }
    ensures { IfOk result (λ t. (length t ≡ count)
        × ((k : ℕ) → entry t k ≡ fixpoint (S.step steps.now) k)) }
{
    let mut table = blank(alloc, count)?;
    let mut waiting = Waiting::new(alloc, count)?;
    visit_each(alloc, steps, &mut table, &mut waiting, order)?;
    'sweeping: loop {
        visit_waiting(alloc, steps, &mut table, &mut waiting)?;
        let gained = sweep(alloc, steps, &mut table, &mut waiting)?;
        if !gained {
            return Ok(table);
        }
    }
}
