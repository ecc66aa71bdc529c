//! The heights of expressions, definitions expanded.

ghost use Rattle.std.specs.Prelude.{◌≡◌, ℕ, max, suc, ◌+◌, length, IfOk};
ghost use Rattle.fixpoint.specs.Fixpoints.{entry, fixpoint};
ghost use Rattle.smv_cycles.specs.Reads as spec;
ghost use Rattle.smv_cycles.specs.EdgesBySlot as by_slot;

use crate::edges::Edge;
use fixpoint::{Step, fill};
use smv_ast::{List, NoMemory};
use sqlite_items::at;
use std::alloc::Global;

/// The height of the slot that a node reads, by the table so far; 0 where it reads none.
fn height_read(solution: &[Option<usize>], target: Option<usize>) -> Option<usize>
    ensures { result ≡ spec.height_read (entry solution.now) target }
{
    match target {
        Some(k) => at(solution, k).copied().flatten(),
        None => Some(0),
    }
}

/// Their sum plus one. No tree in memory is too high for that.
fn joined(above: usize, height: usize) -> Result<usize, NoMemory>
    ensures { IfOk result (λ h. h ≡ suc (above + height)) }
{
    match above.checked_add(height) {
        Some(sum) => match sum.checked_add(1) {
            Some(joined) => Ok(joined),
            None => Err(NoMemory),
        },
        None => Err(NoMemory),
    }
}

/// The depth of the tree below the root at a node, by the table so far.
fn height_at(solution: &[Option<usize>], edge: Edge) -> Result<Option<usize>, NoMemory>
    ensures { IfOk result (λ h. h ≡ spec.height_at (entry solution.now) (by_slot.edge_view edge)) }
{
    match height_read(solution, edge.target) {
        Some(height) => Ok(Some(joined(edge.above, height)?)),
        None => Ok(None),
    }
}

/// The height of a tree with these edges, by the table so far.
pub fn tallest(solution: &[Option<usize>], edges: &[Edge]) -> Result<Option<usize>, NoMemory>
    ensures { IfOk result (λ h. h
        ≡ spec.tallest (entry solution.now) 0 (by_slot.edges_view edges.now)) }
{
    let mut most: usize = 0;
    for edge in edges {
        match height_at(solution, *edge)? {
            Some(height) => most = most.max(height),
            None => return Ok(None),
        }
    }
    Ok(Some(most))
}

/// The transfer function of heights.
#[derive(Drop)]
struct Heights<'t> {
    graph: &'t [Option<List<Edge>>],
}

impl<'t> Step<usize> for Heights<'t> {
    ghost use Rattle.smv_cycles.specs.Reads.{height_step};
    ghost use Rattle.smv_cycles.specs.ReadsMonotone.{height_monotone};
    ghost use Rattle.smv_cycles.specs.EdgesBySlot.{edges_at};

    ghost step = { λ me. height_step (edges_at me.graph.now) };

    ghost monotone = { λ me. height_monotone (edges_at me.graph.now) };

    fn step(
        &self,
        _alloc: Global,
        solution: &[Option<usize>],
        k: usize,
    ) -> Result<Option<usize>, NoMemory> {
        match at(self.graph, k) {
            Some(Some(edges)) => tallest(solution, edges.as_slice()),
            _ => Ok(None),
        }
    }
}

/// The height of each slot that is bound to an expression; a slot on a cycle has none.
pub fn heights_of(
    alloc: Global,
    graph: &[Option<List<Edge>>],
    order: &[usize],
) -> Result<List<Option<usize>>, NoMemory>
    ensures { IfOk result (λ solution. (k : ℕ) → entry solution k
        ≡ spec.heights (by_slot.edges_at graph.now) k) }
{
    let solution = fill(alloc, &Heights { graph }, graph.len(), order)?;
    Ok(solution)
}
