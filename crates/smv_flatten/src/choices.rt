//! Nodes of cases and of `low..high`, after those of their parts, and where a choice is free.

ghost use Rattle.std.specs.Prelude.{◌≡◌, IfOk, map};
ghost use Rattle.std.specs.List.{list_any};
ghost use Rattle.smv_flatten.specs.Making as spec;

use crate::store::{Store, push};
use flat_model::FlatNode;
use smv_ast::{Branch, Expr, NoMemory};

/// The Chooses of a case, that of the last condition first, after the nodes of its conditions and
/// values.
pub fn push_chooses(store: &mut Store, branches: &[(u32, u32)], last: u32) -> Result<u32, NoMemory>
    ensures { IfOk result (λ n. (store.new, n) ≡ spec.chosen branches.now (store.old, last)) }
{
    let mut node = last;
    let mut left = branches.len();
    while left > 0 {
        left -= 1;
        let (cond, value) = branches[left];
        node = push(store, FlatNode::Choose(cond, value, node))?;
    }
    Ok(node)
}

/// Whether a node is one of the numbers from low to high.
pub fn push_range(store: &mut Store, x: u32, low: i64, high: i64) -> Result<u32, NoMemory>
    ensures { IfOk result (λ n. (store.new, n) ≡ spec.range_tested x low high store.old) }
{
    let lowest = push(store, FlatNode::Const(low))?;
    let above = push(store, FlatNode::Le(lowest, x))?;
    let highest = push(store, FlatNode::Const(high))?;
    let below = push(store, FlatNode::Le(x, highest))?;
    push(store, FlatNode::And(above, below))
}

/// Whether an expression is a free choice, or a case with one in a value.
#[cycle(free)]
pub fn is_free(e: &Expr) -> bool
    ensures { result ≡ spec.is_free e.now }
{
    match e {
        Expr::Pick(_) => true,
        Expr::Cases(branches) => any_free(branches.as_slice()),
        _ => false,
    }
}

#[cycle(free)]
#[tactic(auto, using(crate::proofs::RunLemmas::or_assoc, crate::proofs::RunLemmas::or_none))]
fn any_free(branches: &[Branch]) -> bool
    ensures { result ≡ list_any (λ b. b) (map spec.is_free_branch branches.now) }
{
    let mut free = false;
    for branch in branches {
        let here = is_free(&branch.value);
        free = free || here;
    }
    free
}
