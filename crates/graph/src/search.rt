//! Which vertices of a graph are on a cycle, and the cycle of each.

ghost use Rattle.std.specs.Prelude.{◌≡◌, nat_eq, IfOk, IsTrue, false};
ghost use Rattle.graph.specs.Graphs as spec;
ghost use Rattle.graph.specs.Ranks.{AreRanks};

use crate::cycle::cycle_of;
use crate::ranks::{are_ranks, is_above};
use crate::reach::Reach;
use crate::visits::{Visits, visit_all};
use fsmv_base::{List, NoMemory};
use sqlite_items::at;
use std::alloc::Global;

/// A graph that was searched depth first. The ranks that the search found tell most vertices that are
/// on no cycle; the others are looked for in a table.
#[derive(Drop)]
pub struct Search<'g> {
    /// Of each vertex its successors, by number. A number beyond the graph has none.
    pub graph: &'g [List<usize>],
    order: List<usize>,
    ranks: List<usize>,
    /// Whether no vertex has a lower rank than one of its successors.
    ranked: bool,
    ghost tested: { IsTrue ranked → AreRanks graph.now ranks },
}

impl<'g> Search<'g> {
    /// Searches a graph: of each vertex its successors, by number. The only error is want of memory.
    pub fn of_graph(alloc: Global, graph: &'g [List<usize>]) -> Result<Search<'g>, NoMemory>
        ensures { IfOk result (λ search. search.graph.now ≡ graph.now) }
    {
        let Visits { order, ranks } = visit_all(alloc, graph)?;
        let ranked = are_ranks(graph, ranks.as_slice());
        Ok(Search {
            graph,
            order,
            ranks,
            ranked,
        })
    }

    /// Whether the rank of a vertex is higher than those of its successors, and no vertex has a lower
    /// rank than one of its successors. Then it is on no cycle.
    #[tactic(auto, using(crate::proofs::RankLemmas::off_cycle))]
    fn is_above_successors(&self, k: usize) -> bool
        ensures { IsTrue result → spec.on_cycle self.now.graph.now k ≡ false }
    {
        self.ranked && is_above(self.graph, self.ranks.as_slice(), k)
    }

    /// Whether a vertex reaches itself by one edge or more. The only error is want of memory.
    pub fn is_on_cycle(&self, alloc: Global, k: usize) -> Result<bool, NoMemory>
        ensures { IfOk result (λ b. b ≡ spec.on_cycle self.now.graph.now k) }
    {
        if self.is_above_successors(k) {
            return Ok(false);
        }
        let reach = Reach {
            graph: self.graph,
            goal: k,
            avoided: &[],
        };
        let table = reach.table(alloc, self.order())?;
        Ok(at(table.as_slice(), k).copied().flatten().is_some())
    }

    /// The vertices on the way from a vertex that reaches itself back to it, itself first. From each
    /// the way goes on to the first successor from which it can come back past the vertices so far.
    /// The only error is want of memory.
    pub fn cycle_of(&self, alloc: Global, goal: usize) -> Result<List<usize>, NoMemory>
        ensures { IfOk result (λ c. c
            ≡ spec.cycle_of (spec.successors_in self.now.graph.now) nat_eq goal) }
    {
        cycle_of(alloc, self.graph, self.order(), goal)
    }

    /// The vertices, each behind its successors where that can be: tables over them are filled soonest
    /// so. It matters for time alone.
    pub fn order(&self) -> &[usize] {
        self.order.as_slice()
    }
}
