//! Small graphs, and what was worked out of them by hand.

use fsmv_base::{List, NoMemory};
use graph::Search;
use std::alloc::Global;
use std::test::Fail;

/// The graph of these edges, over so many vertices.
fn graph_of(
    alloc: Global,
    count: usize,
    edges: &[(usize, usize)],
) -> Result<List<List<usize>>, NoMemory> {
    let mut graph = List::new(alloc);
    for k in 0..count {
        let mut successors = List::new(alloc);
        for (from, to) in edges {
            if *from == k {
                successors.push(*to)?;
            }
        }
        graph.push(successors)?;
    }
    Ok(graph)
}

// Whether the vertices from 0 on are on a cycle.
fn are_on_cycle(alloc: Global, search: &Search, answers: &[bool]) -> Result<bool, NoMemory> {
    for (k, answer) in answers.iter().enumerate() {
        if search.is_on_cycle(alloc, k)? != *answer {
            return Ok(false);
        }
    }
    Ok(true)
}

// 0 leads to 1, 1 to 2, 2 and 3 to each other, and 2 to 7, which isn't there.
#[test]
fn a_chain_into_a_cycle(rt: HostRuntime) -> Result<(), Fail> {
    let alloc = rt.alloc();
    let graph = graph_of(alloc, 4, &[(0, 1), (1, 2), (2, 7), (2, 3), (3, 2)])?;
    let search = Search::of_graph(alloc, graph.as_slice())?;
    assert!(rt; are_on_cycle(alloc, &search, &[false, false, true, true])?);
    assert!(rt; search.cycle_of(alloc, 3)?.as_slice() == [3, 2].as_slice());
    assert!(rt; search.cycle_of(alloc, 0)?.as_slice() == [0].as_slice());
    Ok(())
}

// 0 leads to itself; 1 leads to 0 and 2, and 2 to 1 by 3 or at once.
#[test]
fn the_first_way_back(rt: HostRuntime) -> Result<(), Fail> {
    let alloc = rt.alloc();
    let graph = graph_of(alloc, 4, &[(0, 0), (1, 0), (1, 2), (2, 3), (2, 1), (3, 1)])?;
    let search = Search::of_graph(alloc, graph.as_slice())?;
    assert!(rt; are_on_cycle(alloc, &search, &[true, true, true, true])?);
    assert!(rt; search.cycle_of(alloc, 0)?.as_slice() == [0].as_slice());
    assert!(rt; search.cycle_of(alloc, 1)?.as_slice() == [1, 2, 3].as_slice());
    Ok(())
}

#[test]
fn successors_come_first(rt: HostRuntime) -> Result<(), Fail> {
    let alloc = rt.alloc();
    let graph = graph_of(alloc, 3, &[(0, 2), (2, 1)])?;
    let search = Search::of_graph(alloc, graph.as_slice())?;
    assert!(rt; search.order() == [1, 2, 0].as_slice());
    Ok(())
}
