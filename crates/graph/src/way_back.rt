//! The way from a vertex back to it, searched depth first. It saves time only, so nothing is promised
//! of it: what it finds is tested where it is used.

use crate::trail::{Advance, Trail, put, repeated};
use crate::way::Way;
use fsmv_base::{List, NoMemory};
use sqlite_items::at;
use std::alloc::Global;

/// A search that goes on to the first vertex that was not reached before, and back where there is none.
#[derive(Drop)]
struct Search<'g> {
    goal: usize,
    trail: Trail<'g>,
    reached: List<bool>,
    /// The vertices from which the search went back, as it did.
    left: List<usize>,
    /// How many vertices had been left when each vertex of the trail was reached.
    left_before: List<usize>,
}

impl<'g> Search<'g> {
    fn reach(&mut self, vertex: usize) -> Result<(), NoMemory> {
        put(&mut self.reached, vertex, true);
        self.left_before.push(self.left.len())?;
        self.trail.push(vertex)
    }

    fn leave(&mut self, vertex: usize) -> Result<(), NoMemory> {
        self.left_before.pop();
        self.left.push(vertex)?;
        Ok(())
    }

    /// Looks at a successor of the last vertex, and tells whether it is the goal.
    fn look_at(&mut self, successor: usize) -> Result<bool, NoMemory> {
        if successor == self.goal {
            return Ok(true);
        }
        if at(self.reached.as_slice(), successor).copied() == Some(false) {
            self.reach(successor)?;
        }
        Ok(false)
    }

    /// Goes on until the trail leads back to the goal, or is empty.
    fn run(&mut self) -> Result<(), NoMemory> {
        let goal = self.goal;
        self.reach(goal)?;
        for _round in 0..usize::MAX {
            match self.trail.advance()? {
                Advance::Successor(successor) => {
                    if self.look_at(successor)? {
                        return Ok(());
                    }
                }
                Advance::Left(vertex) => self.leave(vertex)?,
                Advance::Ended => return Ok(()),
            }
        }
        Ok(())
    }

    /// How many vertices had been left when the vertex at a position of the trail was reached.
    fn left_at(&self, position: usize) -> usize {
        match at(self.left_before.as_slice(), position).copied() {
            Some(count) => count,
            None => self.left.len(),
        }
    }

    /// The vertices of the trail with their positions, and those that were left with the last position reached before.
    fn way(&self, alloc: Global, count: usize) -> Result<Way, NoMemory> {
        let mut vertices = List::new(alloc);
        let mut levels = repeated(alloc, count, None)?;
        for position in 0..self.trail.len() {
            let Some(vertex) = self.trail.vertex_at(position) else {
                break;
            };
            vertices.push(vertex)?;
            put(&mut levels, vertex, Some(position));
            for q in self.left_at(position)..self.left_at(position.saturating_add(1)) {
                if let Some(left) = at(self.left.as_slice(), q).copied() {
                    put(&mut levels, left, Some(position));
                }
            }
        }
        Ok(Way { vertices, levels })
    }
}

/// The way from a vertex back to it that at each vertex goes on to the first successor that leads back past the way.
pub fn way_back(alloc: Global, graph: &[List<usize>], goal: usize) -> Result<Way, NoMemory> {
    let mut search = Search {
        goal,
        trail: Trail::new(alloc, graph),
        reached: repeated(alloc, graph.len(), false)?,
        left: List::new(alloc),
        left_before: List::new(alloc),
    };
    search.run()?;
    search.way(alloc, graph.len())
}
