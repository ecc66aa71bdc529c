//! An evaluation order of the slots, each after those that it depends on. It only saves time, so
//! nothing is proved of it.

use crate::context::KindContext;
use graph::Search;
use smv_ast::{Expr, List, NoMemory};
use smv_meaning::aliases::resolve;
use smv_meaning::mentions::push_paths;
use smv_meaning::table::{Binding, Slot};
use std::alloc::Global;

/// The slots that the paths of an expression resolve to in an instance.
fn targets_in(
    alloc: Global,
    context: &KindContext,
    row: usize,
    e: &Expr,
) -> Result<List<usize>, NoMemory> {
    let mut paths = Vec::new(alloc);
    push_paths(&mut paths, e)?;
    let mut targets = List::new(alloc);
    for path in paths.as_slice() {
        match resolve(context.table, context.aliases, row, path.names.as_slice()) {
            Some(slot) => targets.push(slot)?,
            None => {}
        }
    }
    Ok(targets)
}

/// The slots that a slot depends on.
fn targets_of(alloc: Global, context: &KindContext, slot: Slot) -> Result<List<usize>, NoMemory> {
    match slot.binding {
        Binding::Define(right) => targets_in(alloc, context, slot.row, right),
        Binding::Formal(outer, actual) => targets_in(alloc, context, outer, actual),
        _ => Ok(List::new(alloc)),
    }
}

/// The slots, each after those that it depends on where possible.
pub fn evaluation_order(alloc: Global, context: &KindContext) -> Result<List<usize>, NoMemory> {
    let mut graph = List::new(alloc);
    for slot in context.table.slots.as_slice() {
        graph.push(targets_of(alloc, context, *slot)?)?;
    }
    let search = Search::of_graph(alloc, graph.as_slice())?;
    let mut order = List::new(alloc);
    for slot in search.order() {
        order.push(*slot)?;
    }
    Ok(order)
}
