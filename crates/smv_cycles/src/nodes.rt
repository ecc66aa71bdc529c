//! The nodes of an expression's tree, with their depths.

ghost use Rattle.std.specs.Prelude.{◌≡◌, ◌++◌, ◌∷◌, [], suc, IfOk, OnOk, map};
ghost use Rattle.smv_cycles.specs.Nodes as spec;

use smv_ast::{Branch, Choice, Expr, List, NoMemory, Path};
use std::alloc::Global;

/// A node of an expression's tree: its depth, and its path, if it is one.
#[derive(Clone, Copy, Drop)]
pub struct Node<'a> {
    pub above: usize,
    pub path: Option<&'a Path>,
}

/// One more. No tree in memory is too deep for that.
fn below(above: usize) -> Result<usize, NoMemory>
    ensures { IfOk result (λ d. d ≡ suc above) }
{
    match above.checked_add(1) {
        Some(depth) => Ok(depth),
        None => Err(NoMemory),
    }
}

#[tactic(auto, using(crate::proofs::NodeLemmas::seen_push))]
fn push_node<'a>(
    nodes: &mut List<Node<'a>>,
    above: usize,
    path: Option<&'a Path>,
) -> Result<(), NoMemory>
    ensures { OnOk result (spec.nodes_view nodes.new
        ≡ spec.nodes_view nodes.old
        ++ spec.node_view (record { above = above; path = path.entry }) ∷ []) }
{
    nodes.push(Node { above, path })?;
    Ok(())
}

#[cycle(nodes)]
fn push_choice<'a>(
    nodes: &mut List<Node<'a>>,
    choice: &'a Choice,
    above: usize,
) -> Result<(), NoMemory>
    ensures { OnOk result (spec.nodes_view nodes.new ≡ spec.nodes_view nodes.old
        ++ spec.choice_nodes choice.now above) }
{
    match choice {
        Choice::Each(parts) => push_each(nodes, parts.as_slice(), above),
        Choice::Between { .. } => Ok(()),
    }
}

#[cycle(nodes)]
fn push_each<'a>(
    nodes: &mut List<Node<'a>>,
    parts: &'a [Expr],
    above: usize,
) -> Result<(), NoMemory>
    ensures { OnOk result (spec.nodes_view nodes.new
        ≡ spec.nodes_view nodes.old ++ spec.each_of (map spec.nodes_below parts.now) above) }
{
    for part in parts {
        push_below(nodes, part, above)?;
    }
    Ok(())
}

#[cycle(nodes)]
fn push_branches<'a>(
    nodes: &mut List<Node<'a>>,
    branches: &'a [Branch],
    above: usize,
) -> Result<(), NoMemory>
    ensures { OnOk result (spec.nodes_view nodes.new
        ≡ spec.nodes_view nodes.old ++ spec.each_of (map spec.branch_nodes branches.now) above) }
{
    for branch in branches {
        push_below(nodes, &branch.cond, above)?;
        push_below(nodes, &branch.value, above)?;
    }
    Ok(())
}

/// Adds the nodes of the expression, in text order.
#[cycle(nodes)]
fn push_below<'a>(nodes: &mut List<Node<'a>>, e: &'a Expr, above: usize) -> Result<(), NoMemory>
    ensures { OnOk result (spec.nodes_view nodes.new ≡ spec.nodes_view nodes.old
        ++ spec.nodes_below e.now above) }
{
    let deeper = below(above)?;
    match e {
        Expr::True | Expr::False | Expr::Number(_) => push_node(nodes, above, None),
        Expr::Name(path) => push_node(nodes, above, Some(path)),
        Expr::Neg(a) | Expr::Not(a) | Expr::Next(a) => {
            push_node(nodes, above, None)?;
            push_below(nodes, a.get(), deeper)
        }
        Expr::Binary(_, a, b) => {
            push_node(nodes, above, None)?;
            push_below(nodes, a.get(), deeper)?;
            push_below(nodes, b.get(), deeper)
        }
        Expr::Within(a, choice) => {
            push_node(nodes, above, None)?;
            push_below(nodes, a.get(), deeper)?;
            push_choice(nodes, choice, deeper)
        }
        Expr::Cases(branches) => {
            push_node(nodes, above, None)?;
            push_branches(nodes, branches.as_slice(), deeper)
        }
        Expr::Pick(choice) => {
            push_node(nodes, above, None)?;
            push_choice(nodes, choice, deeper)
        }
    }
}

/// The nodes of an expression, in text order.
pub fn nodes_of<'a>(alloc: Global, e: &'a Expr) -> Result<List<Node<'a>>, NoMemory>
    ensures { IfOk result (λ nodes. spec.nodes_view nodes ≡ spec.nodes_of e.now) }
{
    let mut nodes = List::new(alloc);
    push_below(&mut nodes, e, 0)?;
    Ok(nodes)
}
