//! All vertices of a graph, searched depth first: an order with successors first, and ranks by
//! strongly connected components (Tarjan's algorithm). It saves time only, so nothing is promised of
//! it: what is said of ranks is tested where it is used.

use crate::trail::{Advance, Trail, put, repeated};
use fsmv_base::{List, NoMemory};
use sqlite_items::at;
use std::alloc::Global;

/// What the search finds.
#[derive(Drop)]
pub struct Visits {
    /// The vertices, each mostly behind its successors.
    pub order: List<usize>,
    /// The rank of each vertex, from 1 on. The vertices of a component have one rank, and no vertex
    /// has a lower one than its successors.
    pub ranks: List<usize>,
}

/// The time at which the visit of a vertex began that has none yet.
const NEVER: usize = 0;

/// The time at which the visit of a vertex began that has a rank.
const RANKED: usize = usize::MAX;

#[derive(Drop)]
struct Components<'g> {
    trail: Trail<'g>,
    /// When the visit of each vertex began.
    begun: List<usize>,
    time: usize,
    /// The visited vertices without a rank, as they were begun.
    waiting: List<usize>,
    /// When the visits began of those vertices that reach none which was begun earlier, as far as is known.
    heads: List<usize>,
    rank: usize,
    order: List<usize>,
    ranks: List<usize>,
}

impl<'g> Components<'g> {
    fn begun_at(&self, vertex: usize) -> usize {
        match at(self.begun.as_slice(), vertex).copied() {
            Some(time) => time,
            None => RANKED,
        }
    }

    fn begin(&mut self, vertex: usize) -> Result<(), NoMemory> {
        self.time = self.time.saturating_add(1);
        put(&mut self.begun, vertex, self.time);
        self.waiting.push(vertex)?;
        self.heads.push(self.time)?;
        self.trail.push(vertex)
    }

    /// The current vertex has a successor that was begun at this time: none begun later is a head.
    fn meet(&mut self, time: usize) {
        for _head in 0..self.heads.len() {
            match self.heads.as_slice().last().copied() {
                Some(head) => {
                    if head <= time {
                        return;
                    }
                }
                None => return,
            }
            self.heads.pop();
        }
    }

    /// The waiting vertices down to this one, a head, are a component: they get the next rank.
    fn rank_down_to(&mut self, vertex: usize) {
        self.rank = self.rank.saturating_add(1);
        for _vertex in 0..self.waiting.len() {
            let Some(last) = self.waiting.pop() else {
                return;
            };
            put(&mut self.ranks, last, self.rank);
            put(&mut self.begun, last, RANKED);
            if last == vertex {
                return;
            }
        }
    }

    fn end(&mut self, vertex: usize) -> Result<(), NoMemory> {
        self.order.push(vertex)?;
        let head = self.heads.as_slice().last().copied();
        if head == Some(self.begun_at(vertex)) {
            self.heads.pop();
            self.rank_down_to(vertex);
        }
        Ok(())
    }

    fn look_at(&mut self, successor: usize) -> Result<(), NoMemory> {
        let time = self.begun_at(successor);
        if time == NEVER {
            return self.begin(successor);
        }
        self.meet(time);
        Ok(())
    }

    /// Visits a vertex and all that it reaches.
    fn visit_from(&mut self, start: usize) -> Result<(), NoMemory> {
        if self.begun_at(start) != NEVER {
            return Ok(());
        }
        self.begin(start)?;
        for _round in 0..usize::MAX {
            match self.trail.advance()? {
                Advance::Successor(successor) => self.look_at(successor)?,
                Advance::Left(vertex) => self.end(vertex)?,
                Advance::Ended => return Ok(()),
            }
        }
        Ok(())
    }
}

/// Visits all vertices of a graph.
pub fn visit_all(alloc: Global, graph: &[List<usize>]) -> Result<Visits, NoMemory> {
    let mut components = Components {
        trail: Trail::new(alloc, graph),
        begun: repeated(alloc, graph.len(), NEVER)?,
        time: 0,
        waiting: List::new(alloc),
        heads: List::new(alloc),
        rank: 0,
        order: List::new(alloc),
        ranks: repeated(alloc, graph.len(), 0)?,
    };
    for start in 0..graph.len() {
        components.visit_from(start)?;
    }
    Ok(Visits {
        order: components.order,
        ranks: components.ranks,
    })
}
