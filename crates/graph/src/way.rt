//! A way from a vertex back to it, and what shows that it is its cycle.

ghost use Rattle.std.specs.Prelude.{◌≡◌, IsTrue, length};
ghost use Rattle.fixpoint.specs.Fixpoints.{entry};
ghost use Rattle.graph.specs.Ways as spec;

use fsmv_base::List;
use sqlite_items::at;

/// A way that is to lead back to its first vertex.
#[derive(Drop)]
pub struct Way {
    /// Its vertices in their order.
    pub vertices: List<usize>,
    /// For each vertex of the way its position there; for each that was left, since it leads back only through the way,
    /// how far the way had come.
    pub levels: List<Option<usize>>,
}

/// The level of a vertex, if it has one.
fn level_of(levels: &[Option<usize>], k: usize) -> Option<usize>
    ensures { result ≡ entry levels.now k }
{
    at(levels, k).copied().flatten()
}

fn is_within(found: Option<usize>, level: usize) -> bool
    ensures { result ≡ spec.is_within level found }
{
    match found {
        Some(found) => found <= level,
        None => false,
    }
}

/// Whether a vertex is neither the goal nor above this level.
fn passes(levels: &[Option<usize>], goal: usize, level: usize, k: usize) -> bool
    ensures { result ≡ spec.passes (entry levels.now) goal level k }
{
    goal != k && is_within(level_of(levels, k), level)
}

fn all_pass(levels: &[Option<usize>], goal: usize, level: usize, vertices: &[usize]) -> bool
    ensures { result ≡ spec.all_pass (entry levels.now) goal level vertices.now }
{
    for k in vertices {
        if !passes(levels, goal, level, *k) {
            return false;
        }
    }
    true
}

/// Whether the next vertex is among these, and those before it pass.
fn goes_on(
    levels: &[Option<usize>],
    goal: usize,
    level: usize,
    next: usize,
    vertices: &[usize],
) -> bool
    ensures { result ≡ spec.goes_on (entry levels.now) goal level next vertices.now }
{
    for k in vertices {
        if next == *k {
            return true;
        }
        if !passes(levels, goal, level, *k) {
            return false;
        }
    }
    false
}

/// The vertex behind a position of the way; the goal behind the last.
fn next_on(vertices: &[usize], goal: usize, position: usize) -> usize
    ensures { result ≡ spec.next_on vertices.now goal position }
{
    match position.checked_add(1) {
        Some(successor) => at(vertices, successor).copied().unwrap_or(goal),
        None => goal,
    }
}

/// Whether a vertex of the way has its position as level, and leads on from there.
fn is_on(
    graph: &[List<usize>],
    goal: usize,
    vertices: &[usize],
    levels: &[Option<usize>],
    position: usize,
    k: usize,
) -> bool
    ensures { result ≡ spec.is_on graph.now goal vertices.now levels.now position k }
{
    if level_of(levels, k) != Some(position) {
        return false;
    }
    match at(graph, k) {
        Some(successors) => goes_on(
            levels,
            goal,
            position,
            next_on(vertices, goal, position),
            successors.as_slice(),
        ),
        None => false,
    }
}

/// Whether a vertex has no level, is on the way, or leads nowhere but to the way before its level.
fn is_off(
    graph: &[List<usize>],
    goal: usize,
    vertices: &[usize],
    levels: &[Option<usize>],
    k: usize,
) -> bool
    ensures { result ≡ spec.is_off graph.now goal vertices.now levels.now k }
{
    let Some(level) = level_of(levels, k) else {
        return true;
    };
    if at(vertices, level).copied() == Some(k) {
        return true;
    }
    match at(graph, k) {
        Some(successors) => all_pass(levels, goal, level, successors.as_slice()),
        None => true,
    }
}

/// Whether each position of the way is so.
fn are_on(graph: &[List<usize>], goal: usize, vertices: &[usize], levels: &[Option<usize>]) -> bool
    ensures { IsTrue result → spec.AreOn graph.now goal vertices.now levels.now
        (length vertices.now) }
{
    for position in 0..vertices.len() {
        if !is_on(graph, goal, vertices, levels, position, vertices[position]) {
            return false;
        }
    }
    true
}

/// Whether each vertex is so.
fn are_off(graph: &[List<usize>], goal: usize, vertices: &[usize], levels: &[Option<usize>]) -> bool
    ensures { IsTrue result → spec.AreOff graph.now goal vertices.now levels.now
        (length graph.now) }
{
    for k in 0..graph.len() {
        if !is_off(graph, goal, vertices, levels, k) {
            return false;
        }
    }
    true
}

/// Whether the way is shown to be the cycle of the goal.
pub fn is_way(graph: &[List<usize>], goal: usize, way: &Way) -> bool
    ensures { IsTrue result → spec.IsWay graph.now goal way.now.vertices way.now.levels }
{
    let vertices = way.vertices.as_slice();
    let levels = way.levels.as_slice();
    // A cycle is as long as memory at most.
    vertices.len() < usize::MAX
        && at(vertices, 0).copied() == Some(goal)
        && are_on(graph, goal, vertices, levels)
        && are_off(graph, goal, vertices, levels)
}
