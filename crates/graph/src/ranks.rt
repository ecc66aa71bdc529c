//! Ranks of vertices: a vertex whose rank is higher than those of its successors is on no cycle.

ghost use Rattle.std.specs.Prelude.{◌≡◌, IsTrue};
ghost use Rattle.graph.specs.Ranks as spec;

use fsmv_base::List;
use sqlite_items::at;

/// The rank of a vertex.
fn rank_of(ranks: &[usize], k: usize) -> usize
    ensures { result ≡ spec.rank_of ranks.now k }
{
    match at(ranks, k).copied() {
        Some(rank) => rank,
        None => 0,
    }
}

/// Whether none of these vertices has a higher rank than this.
fn are_within(ranks: &[usize], highest: usize, vertices: &[usize]) -> bool
    ensures { result ≡ spec.are_within ranks.now highest vertices.now }
{
    for k in vertices {
        if highest < rank_of(ranks, *k) {
            return false;
        }
    }
    true
}

/// Whether no vertex has a lower rank than one of its successors.
pub fn are_ranks(graph: &[List<usize>], ranks: &[usize]) -> bool
    ensures { IsTrue result → spec.AreRanks graph.now ranks.now }
{
    let mut k = 0;
    for successors in graph {
        if !are_within(ranks, rank_of(ranks, k), successors.as_slice()) {
            return false;
        }
        k += 1;
    }
    true
}

/// Whether the rank of a vertex is higher than those of its successors.
pub fn is_above(graph: &[List<usize>], ranks: &[usize], k: usize) -> bool
    ensures { result ≡ spec.is_above graph.now ranks.now k }
{
    let rank = rank_of(ranks, k);
    if rank == 0 {
        return false;
    }
    match at(graph, k) {
        Some(successors) => are_within(ranks, rank - 1, successors.as_slice()),
        None => true,
    }
}
