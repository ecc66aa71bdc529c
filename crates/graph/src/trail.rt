//! The depth-first search: a trail of vertices that goes on along the edges of its last one. It saves
//! time only, so nothing is promised of it.

use fsmv_base::{List, NoMemory};
use sqlite_items::at;
use std::alloc::Global;

/// A vertex of the trail, and which of its successors comes next.
#[derive(Clone, Copy, Drop)]
struct Visit {
    vertex: usize,
    next: usize,
}

/// How a trail goes on.
#[derive(Clone, Copy, Drop)]
pub enum Advance {
    /// The last vertex has this successor, which may join the trail.
    Successor(usize),
    /// All successors of this vertex were looked at, and it left the trail.
    Left(usize),
    /// The trail is empty.
    Ended,
}

/// The vertices on the way from the start of a search to its current vertex.
#[derive(Drop)]
pub struct Trail<'g> {
    graph: &'g [List<usize>],
    visits: List<Visit>,
}

impl<'g> Trail<'g> {
    /// The empty trail.
    pub fn new(alloc: Global, graph: &'g [List<usize>]) -> Trail<'g> {
        Trail {
            graph,
            visits: List::new(alloc),
        }
    }

    pub fn len(&self) -> usize {
        self.visits.len()
    }

    /// The vertex at a position of the trail, from its start.
    pub fn vertex_at(&self, position: usize) -> Option<usize> {
        match at(self.visits.as_slice(), position).copied() {
            Some(visit) => Some(visit.vertex),
            None => None,
        }
    }

    /// Goes on to a vertex.
    pub fn push(&mut self, vertex: usize) -> Result<(), NoMemory> {
        self.visits.push(Visit { vertex, next: 0 })?;
        Ok(())
    }

    fn successor(&self, visit: Visit) -> Option<usize> {
        match at(self.graph, visit.vertex) {
            Some(successors) => at(successors.as_slice(), visit.next).copied(),
            None => None,
        }
    }

    /// Goes on along the next edge of the last vertex, or back from it.
    pub fn advance(&mut self) -> Result<Advance, NoMemory> {
        let Some(visit) = self.visits.pop() else {
            return Ok(Advance::Ended);
        };
        let Some(successor) = self.successor(visit) else {
            return Ok(Advance::Left(visit.vertex));
        };
        self.visits.push(Visit {
            vertex: visit.vertex,
            next: visit.next.saturating_add(1),
        })?;
        Ok(Advance::Successor(successor))
    }
}

/// Sets an element, if there is one at `k`.
pub fn put<T: Copy>(items: &mut List<T>, k: usize, item: T) {
    if k < items.len() {
        items.set(k, item);
    }
}

/// A list of one item, so many times.
pub fn repeated<T: Copy>(alloc: Global, count: usize, item: T) -> Result<List<T>, NoMemory> {
    let mut items = List::new(alloc);
    for _k in 0..count {
        items.push(item)?;
    }
    Ok(items)
}
