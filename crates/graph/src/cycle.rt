//! The cycle of a vertex.

ghost use Rattle.std.specs.Prelude.{◌≡◌, nat_eq, IfOk};
ghost use Rattle.graph.specs.Graphs as spec;

use crate::reach::Reach;
use crate::way::is_way;
use crate::way_back::way_back;
use fsmv_base::{List, NoMemory};
use std::alloc::Global;

/// The vertex that follows `k` on the cycle of the goal, behind these vertices.
fn next_of(
    alloc: Global,
    graph: &[List<usize>],
    order: &[usize],
    goal: usize,
    so_far: &[usize],
    k: usize,
) -> Result<Option<usize>, NoMemory>
    ensures { IfOk result (λ c. c
        ≡ spec.next_of (spec.successors_in graph.now) nat_eq goal so_far.now k) }
{
    let reach = Reach {
        graph,
        goal,
        avoided: so_far,
    };
    let table = reach.table(alloc, order)?;
    Ok(reach.next_by(table.as_slice(), k))
}

/// The cycle, vertex by vertex, with a table for each.
fn cycle_by_tables(
    alloc: Global,
    graph: &[List<usize>],
    order: &[usize],
    goal: usize,
) -> Result<List<usize>, NoMemory>
    ensures { IfOk result (λ c. c ≡ spec.cycle_of (spec.successors_in graph.now) nat_eq goal) }
{
    let mut cycle = List::new(alloc);
    cycle.push(goal)?;
    let mut last = goal;
    for _round in 0..usize::MAX {
        match next_of(alloc, graph, order, goal, cycle.as_slice(), last)? {
            Some(c) => {
                if goal == c {
                    return Ok(cycle);
                }
                cycle.push(c)?;
                last = c;
            }
            None => return Ok(cycle),
        }
    }
    // No cycle in memory is so long.
    Err(NoMemory)
}

/// The cycle of a vertex: the way that was found by a search, where it is shown to be the cycle.
pub fn cycle_of(
    alloc: Global,
    graph: &[List<usize>],
    order: &[usize],
    goal: usize,
) -> Result<List<usize>, NoMemory>
    ensures { IfOk result (λ c. c ≡ spec.cycle_of (spec.successors_in graph.now) nat_eq goal) }
{
    let way = way_back(alloc, graph, goal)?;
    if is_way(graph, goal, &way) {
        return Ok(way.vertices);
    }
    cycle_by_tables(alloc, graph, order, goal)
}
