//! Which vertices reach a goal past some vertices, found by a table.

ghost use Rattle.std.specs.Prelude.{◌≡◌, ℕ, nat_eq, IfOk};
ghost use Rattle.std.specs.List.{find};
ghost use Rattle.fixpoint.specs.Fixpoints.{entry};
ghost use Rattle.graph.specs.Graphs as spec;

use fixpoint::{Step, fill};
use fsmv_base::{List, NoMemory};
use sqlite_items::at;
use std::alloc::Global;

/// The question which vertices reach a goal past the avoided vertices.
#[derive(Clone, Copy, Drop)]
pub struct Reach<'g> {
    pub graph: &'g [List<usize>],
    pub goal: usize,
    pub avoided: &'g [usize],
}

fn is_known(table: &[Option<()>], k: usize) -> Option<()>
    ensures { result ≡ entry table.now k }
{
    at(table, k).copied().flatten()
}

impl<'g> Reach<'g> {
    fn is_avoided(&self, c: usize) -> bool
        ensures { result ≡ spec.among nat_eq self.now.avoided.now c }
    {
        for p in self.avoided {
            if *p == c {
                return true;
            }
        }
        false
    }

    /// Whether a vertex is the goal, or is not avoided and is known to reach the goal.
    fn leads(&self, table: &[Option<()>], c: usize) -> bool
        ensures { result ≡ spec.leads nat_eq self.now.goal self.now.avoided.now (entry table.now) c }
    {
        if self.goal == c {
            return true;
        }
        if is_known(table, c).is_none() {
            return false;
        }
        !self.is_avoided(c)
    }

    /// The first of these vertices that leads to the goal, as far as the table knows.
    fn first_of(&self, table: &[Option<()>], vertices: &[usize]) -> Option<usize>
        ensures { result ≡ find (spec.leads nat_eq self.now.goal self.now.avoided.now
            (entry table.now)) vertices.now }
    {
        for c in vertices {
            if self.leads(table, *c) {
                return Some(*c);
            }
        }
        None
    }

    /// The first successor of a vertex that leads to the goal, as far as the table knows.
    pub fn next_by(&self, table: &[Option<()>], k: usize) -> Option<usize>
        ensures { result ≡ spec.next_by (spec.successors_in self.now.graph.now) nat_eq self.now.goal
            self.now.avoided.now (entry table.now) k }
    {
        match at(self.graph, k) {
            Some(successors) => self.first_of(table, successors.as_slice()),
            None => None,
        }
    }

    /// Which vertices reach the goal. An `order` that has each vertex behind its successors saves time;
    /// any will do.
    #[tactic(auto, using(crate::proofs::RankLemmas::reach_step_past))]
    pub fn table(&self, alloc: Global, order: &[usize]) -> Result<List<Option<()>>, NoMemory>
        ensures { IfOk result (λ table. (k : ℕ) → entry table k
            ≡ spec.reach (spec.successors_in self.now.graph.now) nat_eq self.now.goal
            self.now.avoided.now k) }
    {
        let table = fill(alloc, self, self.graph.len(), order)?;
        Ok(table)
    }
}

impl<'g> Step<()> for Reach<'g> {
    ghost use Rattle.std.specs.Prelude.{nat_eq};
    ghost use Rattle.graph.specs.Graphs.{successors_in, reach_step};
    ghost use Rattle.graph.specs.Reach.{reach_step_monotone};

    ghost step = { λ me. reach_step (successors_in me.graph.now) nat_eq me.goal me.avoided.now };

    ghost monotone = { λ me. reach_step_monotone (successors_in me.graph.now) nat_eq me.goal
        me.avoided.now };

    fn step(&self, _alloc: Global, table: &[Option<()>], k: usize) -> Result<Option<()>, NoMemory> {
        match self.next_by(table, k) {
            Some(_) => Ok(Some(())),
            None => Ok(None),
        }
    }
}
