//! The dependencies of the names of instances.

ghost use Rattle.std.specs.Prelude.{◌≡◌, List, ℕ, IfOk, map};
ghost use Rattle.std.specs.List.{flat_map};
ghost use Rattle.std.specs.Option.{option_map, option_to_list};
ghost use Rattle.smv_meaning.specs.Slots as slots;
ghost use Rattle.smv_cycles.specs.EdgesBySlot as spec;
ghost use Rattle.smv_cycles.specs.CyclesBySlot as cycles;
ghost use Rattle.smv_cycles.specs.Nodes as trees;

use crate::nodes::{Node, nodes_of};
use smv_ast::{Expr, List, NoMemory};
use smv_meaning::aliases::resolve;
use smv_meaning::table::{Binding, InstanceTable, Slot};
use sqlite_items::at;
use std::alloc::Global;

/// A node of an expression: its depth, and the slot that it reads, if it reads one.
#[derive(Clone, Copy, Drop)]
pub struct Edge {
    pub above: usize,
    pub target: Option<usize>,
}

/// Whether the slot of this number is bound to an expression.
fn is_read(aliases: &[Option<usize>], k: usize, binding: Binding) -> bool
    ensures { result ≡ spec.is_read aliases.now k binding.entry }
{
    match binding {
        Binding::Define(_) => true,
        Binding::Formal(_, _) => at(aliases, k).copied().flatten().is_none(),
        _ => false,
    }
}

/// The slot of this number, if it is bound to an expression.
fn read_slot(table: &InstanceTable, aliases: &[Option<usize>], k: usize) -> Option<usize>
    ensures { result ≡ spec.read_slot table.now aliases.now k }
{
    match at(table.slots.as_slice(), k).copied() {
        Some(slot) => {
            if is_read(aliases, k, slot.binding) {
                Some(k)
            } else {
                None
            }
        }
        None => None,
    }
}

/// The slot that a node of an expression reads in an instance, if it reads one.
fn slot_read(
    table: &InstanceTable,
    aliases: &[Option<usize>],
    row: usize,
    node: Node,
) -> Option<usize>
    requires has { slots.HasSlots table.now }
    requires is_of { slots.AreAliases table.now aliases.now }
    ensures { result ≡ spec.slot_read table.now aliases.now row (trees.node_view node.entry).path }
{
    match node.path {
        Some(path) => match resolve(table, aliases, row, path.names.as_slice()) {
            Some(k) => read_slot(table, aliases, k),
            None => None,
        },
        None => None,
    }
}

fn edge_in(table: &InstanceTable, aliases: &[Option<usize>], row: usize, node: Node) -> Edge
    requires has { slots.HasSlots table.now }
    requires is_of { slots.AreAliases table.now aliases.now }
    ensures { spec.edge_view result
        ≡ spec.edge_in table.now aliases.now row (trees.node_view node.entry) }
{
    Edge {
        above: node.above,
        target: slot_read(table, aliases, row, node),
    }
}

fn edges_of_nodes(
    alloc: Global,
    table: &InstanceTable,
    aliases: &[Option<usize>],
    row: usize,
    nodes: &[Node],
) -> Result<List<Edge>, NoMemory>
    requires has { slots.HasSlots table.now }
    requires is_of { slots.AreAliases table.now aliases.now }
    ensures { IfOk result (λ es. spec.edges_view es
        ≡ map (spec.edge_in table.now aliases.now row) (trees.nodes_view nodes.now)) }
{
    let mut edges = List::new(alloc);
    for node in nodes {
        edges.push(edge_in(table, aliases, row, *node))?;
    }
    Ok(edges)
}

/// The edges of an expression in an instance, in the order of the text.
pub fn edges_in(
    alloc: Global,
    table: &InstanceTable,
    aliases: &[Option<usize>],
    row: usize,
    e: &Expr,
) -> Result<List<Edge>, NoMemory>
    requires has { slots.HasSlots table.now }
    requires is_of { slots.AreAliases table.now aliases.now }
    ensures { IfOk result (λ es. spec.edges_view es
        ≡ spec.edges_in table.now aliases.now row e.now) }
{
    let nodes = nodes_of(alloc, e)?;
    edges_of_nodes(alloc, table, aliases, row, nodes.as_slice())
}

/// The edges of the expression that a slot is bound to, if it is bound to one.
fn slot_edges(
    alloc: Global,
    table: &InstanceTable,
    aliases: &[Option<usize>],
    slot: Slot,
) -> Result<Option<List<Edge>>, NoMemory>
    requires has { slots.HasSlots table.now }
    requires is_of { slots.AreAliases table.now aliases.now }
    ensures { IfOk result (λ es. option_map spec.edges_view es
        ≡ spec.slot_edges table.now aliases.now slot.entry) }
{
    match slot.binding {
        Binding::Define(right) => Ok(Some(edges_in(alloc, table, aliases, slot.row, right)?)),
        Binding::Formal(outer, actual) => Ok(Some(edges_in(alloc, table, aliases, outer, actual)?)),
        _ => Ok(None),
    }
}

/// The edges of each slot.
pub fn graph_of(
    alloc: Global,
    table: &InstanceTable,
    aliases: &[Option<usize>],
) -> Result<List<Option<List<Edge>>>, NoMemory>
    requires has { slots.HasSlots table.now }
    requires is_of { slots.AreAliases table.now aliases.now }
    ensures { IfOk result (λ graph. map (option_map spec.edges_view) graph
        ≡ map (spec.slot_edges table.now aliases.now) table.now.slots) }
{
    let mut graph = List::new(alloc);
    for slot in table.slots.as_slice() {
        graph.push(slot_edges(alloc, table, aliases, *slot)?)?;
    }
    Ok(graph)
}

/// The slots that these edges read.
fn targets_in(alloc: Global, edges: &[Edge]) -> Result<List<usize>, NoMemory>
    ensures { IfOk result (λ targets. targets ≡ flat_map (λ e. option_to_list e.target) edges.now) }
{
    let mut targets = List::new(alloc);
    for edge in edges {
        match edge.target {
            Some(k) => targets.push(k)?,
            None => {}
        }
    }
    Ok(targets)
}

/// The slots that a slot reads.
fn slot_targets(alloc: Global, edges: &Option<List<Edge>>) -> Result<List<usize>, NoMemory>
    ensures { IfOk result (λ targets. targets ≡ cycles.targets_found edges.now) }
{
    match edges {
        Some(edges) => targets_in(alloc, edges.as_slice()),
        None => Ok(List::new(alloc)),
    }
}

/// The successors of each slot: the slots that it reads.
pub fn targets_of(
    alloc: Global,
    graph: &[Option<List<Edge>>],
) -> Result<List<List<usize>>, NoMemory>
    ensures { IfOk result (λ targets. targets ≡ cycles.targets graph.now) }
{
    let mut targets = List::new(alloc);
    for edges in graph {
        targets.push(slot_targets(alloc, edges)?)?;
    }
    Ok(targets)
}
