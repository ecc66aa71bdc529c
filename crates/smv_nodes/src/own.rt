//! The number of nodes of an expression by itself.

ghost use Rattle.std.specs.Prelude.{◌≡◌, map, pred, length};
ghost use Rattle.smv_nodes.specs.Own as spec;

use smv_ast::{Branch, Choice, Expr, Op};

/// The number of nodes of an expression, without its names.
#[derive(Clone, Copy, Debug, PartialEq, Eq, Drop)]
pub struct Nodes {
    /// As a value. For a choice, the nodes of its parts.
    pub value: u64,
    /// As a right side, without the node of the variable.
    pub right: u64,
    /// Whether it is a free choice, or a case that contains one.
    pub free: bool,
}

fn none() -> Nodes
    ensures { result ≡ spec.none }
{
    Nodes {
        value: 0,
        right: 0,
        free: false,
    }
}

fn both(a: Nodes, b: Nodes) -> Nodes
    ensures { result ≡ spec.both a b }
{
    Nodes {
        value: a.value.saturating_add(b.value),
        right: a.right.saturating_add(b.right),
        free: a.free || b.free,
    }
}

fn simple(value: u64) -> Nodes
    ensures { result ≡ spec.simple value }
{
    Nodes {
        value,
        right: value.saturating_add(1),
        free: false,
    }
}

/// The nodes of an operator, without those of its operands.
fn op_nodes(op: Op) -> u64
    ensures { result ≡ spec.op_nodes op }
{
    match op {
        Op::Ne | Op::Xnor | Op::Iff | Op::Implies => 2,
        _ => 1,
    }
}

fn first_part(part: Nodes) -> Nodes
    ensures { result ≡ spec.part_nodes 0 part }
{
    Nodes {
        value: part.value,
        right: part.value.saturating_add(1),
        free: true,
    }
}

fn later_part(part: Nodes) -> Nodes
    ensures { result ≡ spec.part_nodes 1 part }
{
    Nodes {
        value: part.value,
        right: part.value.saturating_add(2),
        free: true,
    }
}

fn read_branch(cond: Nodes) -> Nodes
    ensures { result ≡ spec.read_branch cond }
{
    let read = cond.value.saturating_add(1);
    Nodes {
        value: read,
        right: read,
        free: false,
    }
}

fn case_nodes(branches: Nodes) -> Nodes
    ensures { result ≡ spec.case_nodes branches }
{
    if branches.free {
        branches
    } else {
        simple(branches.value)
    }
}

fn picked(choice: Nodes) -> Nodes
    ensures { result ≡ spec.picked choice }
{
    Nodes {
        value: choice.value.saturating_add(1),
        right: choice.right,
        free: true,
    }
}

#[cycle(own)]
#[tactic(auto, using(crate::proofs::OwnLemmas::both_assoc, crate::proofs::OwnLemmas::both_none, crate::proofs::OwnLemmas::parts_whole))]
fn parts_nodes(parts: &[Expr]) -> Nodes
    ensures { result ≡ spec.parts_after 0 (map spec.nodes_of parts.now) }
{
    let mut found = none();
    let mut first = true;
    for part in parts {
        let own = nodes_of(part);
        let here = if first {
            first_part(own)
        } else {
            later_part(own)
        };
        found = both(found, here);
        first = false;
    }
    found
}

#[cycle(own)]
#[tactic(auto, using(crate::proofs::OwnLemmas::both_assoc, crate::proofs::OwnLemmas::both_none, crate::proofs::OwnLemmas::branches_whole))]
fn branches_nodes(branches: &[Branch]) -> Nodes
    ensures { result ≡ spec.branches_nodes (pred (length (map spec.branch_nodes branches.now)))
        (map spec.branch_nodes branches.now) }
{
    let mut found = none();
    // The last condition is not read.
    let mut conds = branches.len().saturating_sub(1);
    for branch in branches {
        if conds > 0 {
            conds -= 1;
            found = both(found, read_branch(nodes_of(&branch.cond)));
        }
        found = both(found, nodes_of(&branch.value));
    }
    found
}

#[cycle(own)]
fn choice_nodes(choice: &Choice) -> Nodes
    ensures { result ≡ spec.choice_nodes choice.now }
{
    match choice {
        Choice::Each(parts) => parts_nodes(parts.as_slice()),
        Choice::Between { .. } => Nodes {
            value: 0,
            right: 5,
            free: true,
        },
    }
}

/// The nodes of an expression. Sums saturate at the end of `u64`.
#[cycle(own)]
pub fn nodes_of(e: &Expr) -> Nodes
    ensures { result ≡ spec.nodes_of e.now }
{
    match e {
        Expr::True | Expr::False | Expr::Number(_) => simple(1),
        Expr::Name(_) => simple(0),
        Expr::Neg(a) => simple(nodes_of(a.get()).value.saturating_add(2)),
        Expr::Not(a) => simple(nodes_of(a.get()).value.saturating_add(1)),
        Expr::Binary(op, a, b) => {
            let operands = nodes_of(a.get())
                .value
                .saturating_add(nodes_of(b.get()).value);
            simple(operands.saturating_add(op_nodes(*op)))
        }
        Expr::Within(a, choice) => {
            simple(
                nodes_of(a.get())
                    .value
                    .saturating_add(choice_nodes(choice).right),
            )
        }
        Expr::Cases(branches) => case_nodes(branches_nodes(branches.as_slice())),
        Expr::Next(a) => simple(nodes_of(a.get()).value),
        Expr::Pick(choice) => picked(choice_nodes(choice)),
    }
}
